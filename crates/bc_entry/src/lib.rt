//! The steps of an entry of the journal in a run with a cache.
//!
//! A cache device may keep what is written to it in any order until a barrier comes. So an entry of
//! the journal stands between two: the first makes durable what it names, and the second makes the
//! entry itself durable, before anything may rest on it. Each is a deed of its own, as each call of
//! a device is, since a run may be cut off before any of them.
//!
//! From the seal on until the entry is durable a seat keeps the journal and the cache device in
//! hand. So no other seat seals, writes or ends an entry meanwhile, and what the seat knows of its
//! own goes on to hold whatever others do.
#![tactic(auto)]

pub mod barrier;
pub mod durable;
pub mod laws;
pub mod next;
pub mod put;
pub mod room;
pub mod seal;
pub mod write;

// Passed on, so that a crate above need not list these.
pub use bc_deed;
pub use bc_deed::bc_hand;
pub use bc_sealing::bc_machine;
