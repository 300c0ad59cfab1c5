//! The parts of a pair that was read begin a run of the machine of parts. It has definitions and
//! laws, and one function that runs, which changes nothing.
//!
//! What a part in memory stands for is said of each sound opening of the core for which the first
//! parts of the run stood. So it would say nothing if there were none. Here it is proved that there
//! is one: what an opening reads of a sound pair is, part by part and each in its own words, what
//! the machine is opened with, and both devices hold what that machine is opened on.
//!
//! Read `specs/` in this order: Opened, Begin, Laws.
#![tactic(auto)]

mod bytes;
pub mod laws;

pub use bytes::are_bytes;

// Passed on, so that a crate above need not list these.
pub use bc_machine;
pub use bc_slots::bc_regrow;
