//! The new nodes of a change of the tree, written by deeds of a seat.
//!
//! A change names its new nodes by one write, and a crash behind that finds them: so each of them
//! stands on the device before, in a bucket that the seat holds and that no node lies in, and with
//! the next number of all, so that nothing that lay in the bucket before is read as a set of it. Until
//! the change names it, the node is a draft: nobody else comes to it, since the tree is in hand, and
//! a crash leaves the old tree alone.
//!
//! The step `write_new_node` writes one. Once all are written, one barrier of the cache device makes
//! them stable.
//!
//! What the seat knows of a draft is said by bc_drafts. Read `specs/` in this order: Kind, Wrote; then
//! `write`.
#![tactic(auto)]

mod node;
pub mod write;

// Passed on, so that a crate above need not list these.
pub use bc_held;
pub use bc_held::{bc_hand, bc_machine, bc_place};
