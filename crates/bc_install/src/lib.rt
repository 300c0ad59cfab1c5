//! A change of the tree by a new root, from its entry on until it is over.
//!
//! A change is made by one write. From then on a crash finds the new tree, and memory has the old
//! one: it takes over the new one by an install, once the write is durable. Then what went is
//! nobody's: its buckets may be raised, for nothing that a crash leaves names them any more. And
//! the buckets of what came are nodes', for as long as the tree has these.
//!
//! What memory has of a plan is the change that the core asks about, whatever the opening was; and
//! what an install makes of the tree, the leaves and the buckets in memory is what it makes of the
//! core's. So much of it is proved as laws, each of the memory alone.
//!
//! Read `specs/` in this order: Numbered, RootPut, Installed, Buckets, Ended, Ends, Step.
#![tactic(auto)]

pub mod buckets;
pub mod change;
pub mod ends;
pub mod install;
pub mod laws;
pub mod leaves;
pub mod root;

// Passed on, so that a crate above need not list these.
pub use bc_append::{bc_hand, bc_machine};
pub use bc_change::bc_entry;
pub use bc_parent_set;
