//! A further set of a leaf: what is pending goes to the leaf's node.
//!
//! A key that came into a leaf waits in the journal, and the journal is of a fixed length: an entry
//! is given up only once no key of it is pending in any leaf. So what is pending has to go to the
//! leaf's node, as one more set behind the others, where the node has room for it. It goes there once
//! the journal has all of it: until then a crash may take the keys back, and a set that stands can't
//! be taken back. What a crash leaves of the set is nothing or all of it, and either is right, since
//! the journal's entries say the same over it.
//!
//! A leaf that was read from the device gets none: what stands behind its sets isn't known. And so it
//! is with a leaf behind a write that failed, of which the set may stand or not. Such a leaf is closed
//! and is rewritten to another place with its next change of the tree.
//!
//! The step `append_set` writes the set, with the leaf and the cache device in hand; `durable` tells
//! how far the journal is, which the seat goes on to know.
//!
//! Read `specs/` in this order: Durable, Append.
#![tactic(auto)]

pub mod append;
pub mod durable;
pub mod error;
pub mod laws;
mod write;

// Passed on, so that a crate above need not list these.
pub use bc_place;
pub use bc_place::{bc_hand, bc_machine};
