//! A planned change of the tree by an entry with a new root, from the entry to the install.
//!
//! Once the new nodes of a plan stand on the cache device, the change takes one entry that names a
//! new root, and an install once that entry is durable. Until then the tree in memory is the old
//! one, and a crash finds the old one or the new one, which say the same. The tree and the leaves
//! that go are in hand throughout, so that no other seat finds a change under way; the journal and
//! the cache device for the entry alone, and the buckets for the install alone, since a seat takes
//! buckets before the journal.
//!
//! All memory is taken before the entry is sealed. Behind that only a call of the cache device that
//! fails, or a halt of the run, keeps the change from its end.
//!
//! Read `specs/` in this order: Given, Prepared, Done.
#![tactic(auto)]

pub mod change;
pub mod error;
pub mod install;
pub mod pending;
pub mod prepare;
pub mod put;

// Passed on, so that a crate above need not list these.
pub use bc_install;
