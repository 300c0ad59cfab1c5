//! The nodes of a planned change of the index, written.
//!
//! A change of the tree is made by one write, which names the new nodes; so these stand on the
//! device before it, each in a bucket of its own that nothing names yet, and a crash until then
//! finds the old tree alone. Each is written once, whole: its first set, and zeros behind it, so that
//! nothing that stood in the bucket before can be read as a later set of the node.
//!
//! A plan is a value, and its nodes are in it until they are installed. Writing one changes nothing
//! of what the plan makes of the tree.
//!
//! The write that makes the change is a further set of the node above the leaves, or of the root
//! where that node moves. Where the root moves too there is none, and the journal names it instead.
#![tactic(auto)]

mod parent;
mod write;

pub use parent::write_parent;
pub use write::{NewNode, write_node};
