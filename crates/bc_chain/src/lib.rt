//! The steps of a chain of priority sets in a run with a cache.
//!
//! A chain says the generation of each bucket. It is written into buckets that the seat took for
//! it, one set into each, before an entry names it; so the buckets, and the cache device, are in
//! hand from the first set until the entry is sealed: the generations that are written are those of
//! that moment, and no other seat comes to the sets.
//!
//! Read `specs/Written.antt`, then `write`.
#![tactic(auto)]

pub mod write;

// Passed on, so that a crate above need not list these.
pub use bc_chains;
pub use bc_place;
pub use bc_place::{bc_deed, bc_hand, bc_machine};
