//! A change of the tree, made by a seat from the moment on at which its new nodes stand on the
//! cache device.
//!
//! A change is made by one write, of an entry that names a new root or of a set of a node that
//! stays. Until then a crash finds the old tree, and from then on the new one, so both have to say
//! the same: the leaves that come have the last keys of those that go, all of them durable, and
//! each node that is named anew has its children below it. The core asks for all of that as the
//! change begins, of each opening that a run may have had. What a plan says of the tree in memory,
//! and what its seat knows of new nodes, comes to just what it asks for, whatever the plan does to
//! the tree.
//!
//! Read `specs/` in this order: Goes, Ready, Under, Laws, Root, Put.
#![tactic(auto)]

pub mod laws;
pub mod put;
pub mod root;

// Passed on, so that a crate above need not list these.
pub use bc_entry;
pub use bc_entry::{bc_hand, bc_machine};
