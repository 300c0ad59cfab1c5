//! A change of the tree, made by a further set of one of its nodes.
//!
//! A node that this run wrote and that has room for it takes a set for the children that come in the
//! place of others. Nothing above it changes then, so no entry of the journal names anything anew: the
//! set is the one write that makes the change, and the barrier behind it makes it last. A crash before
//! the set finds the old children, and from the barrier on the new ones; between the two it may find
//! either.
//!
//! As the set is written the change begins, so that all that a change asks has to hold by then: the
//! new nodes stand on the device, what is pending of the leaves that go is durable, and the root is
//! none of the nodes that leave. In memory the node knows the set, so that a next one goes behind it,
//! and has its old children until the change is installed.
//!
//! Read `specs/` in this order: Takes, BySet, Laws, Write.
#![tactic(auto)]

pub mod laws;
pub mod write;

// Passed on, so that a crate above need not list these.
pub use bc_change::{bc_hand, bc_machine};
