//! The cache's events as a machine of parts: what each part of the running state stands for, and which
//! parts an event changes.
//!
//! Seats of a run hold parts and commit events (see bc_parts). For a theorem on what is printed and
//! on what a crash leaves, the parts have to be tied to the one state of which the laws speak. That
//! is done here, once: a part in a seat's hand stands for its share of the core's state, and goes on
//! to stand for it whatever other seats commit, since each event names the parts that it changes.
#![tactic(auto)]

pub mod machine;
pub mod part;
