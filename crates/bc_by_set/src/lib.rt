//! A planned change of the tree by a further set of one of its nodes, from the set to the install.
//!
//! A node that this run wrote, and that has room, takes a set for the children that come in the
//! place of others. Then nothing above it changes, so the change needs no entry: the set makes it,
//! once a barrier of the cache device came behind it. Until then a crash finds the old tree or the
//! new one, which say the same. In memory the node has the set at once, so that a next one goes
//! behind it, and its old children until the install.
//!
//! The tree and the leaves that go are in hand throughout, so that no other seat finds a change
//! under way; the journal and the cache device for the set and its barrier alone, and the buckets
//! for the install alone, since a seat takes buckets before the journal. The journal tells how far
//! it is durable: what is pending of a leaf that goes has to be of durable entries by then, for a
//! new leaf has it, and a crash may find that leaf.
//!
//! All memory is taken before the set is written. Behind that only a call of the cache device that
//! fails, or a halt of the run, keeps the change from its end.
//!
//! Read `specs/` in this order: Given, Prepared, Done.
#![tactic(auto)]

pub mod change;
pub mod error;
pub mod prepare;
pub mod put;

// Passed on, so that a crate above need not list this.
pub use bc_by_root;
