//! What steps of a trace round make of the buckets in memory. It has laws, and nothing that runs.
//!
//! A round sets marks, used counts and the oldest generations of buckets by what a walk over all
//! leaves found, while keys still come. The core says the same by sectors: what each pointed to as
//! its leaf was walked. That buckets in memory which were settled by the walk's counts are those of
//! the core behind its round is said here, of the parts alone: who has the buckets in hand can open
//! a round, walk a leaf that he has too, give the round up, or end it.
//!
//! Read `specs/Rounds`, then `specs/Rows`.
#![tactic(auto)]

pub mod laws;

// Passed on, so that a crate above need not list it.
pub use bc_machine;
