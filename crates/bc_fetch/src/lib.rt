//! Leaves of the index that are read while a run goes on.
//!
//! A part keeps some of its leaves in slots, and the others are on the device alone. What makes it
//! safe to read one again while others go on is that nothing of it is pending: so all that the core
//! knows of it is in the sets that were written, and a read of the device finds these, whatever it
//! may give else. The seat holds the tree in memory and the leaf's part meanwhile, so that nobody
//! moves the leaf, or adds to it, between the look at where it lies and its place in a slot.
#![tactic(auto)]

pub mod error;
pub mod fetch;
pub mod leaf;
pub mod node;
mod slot;

// Passed on, so that a crate above need not list these.
pub use bc_sight::{bc_deed, bc_hand, bc_machine};
