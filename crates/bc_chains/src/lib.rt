//! What the core says of chains of priority sets that a seat writes.
//!
//! Generations are durable in priority sets, of which as many as hold all of them make a chain. A
//! chain is written into buckets that the seat took for it, one set into each, and named by an
//! entry only then; so a crash finds the chain before until that entry is durable. Of each bucket
//! the core has the set that was written there since it was taken, and an entry may name these
//! buckets just where their sets make a chain.
//!
//! Read `specs/` in this order: Written, Laws.
#![tactic(auto)]

pub mod laws;

// Passed on, so that a crate above need not list these.
pub use bc_machine;
