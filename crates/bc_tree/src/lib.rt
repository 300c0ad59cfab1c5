//! Changes of the index, which is a tree of nodes: what a split, a rewrite or a merge of leaves
//! makes of the leaves' keys, and of the children of the nodes above them.
//!
//! A change is planned before anything is written. New nodes go to free buckets first, where a
//! crash finds nothing that names them; then one write makes the change, so that a crash finds the
//! old tree or the new one. That write is a further set of one inner node, if it was written in
//! this run and has room. Such a set says only what is different: it is put over the sets before
//! it, child by child.
//!
//! A node that was read from the device takes no set, since what stands behind its sets isn't
//! known; it moves first, and then its own parent has to name it anew. So a change may reach up to
//! the root, whose place the journal names. How far it reaches is known before it begins, and so
//! are the buckets that it takes.
#![tactic(auto)]

mod above;
mod across;
mod append;
mod beside;
mod build;
mod change;
mod children;
mod group;
mod halves;
mod install;
pub mod laws;
mod merge;
mod needs;
mod parts;
mod place;
mod plan;
mod rewrite;
mod siblings;
mod spine;
mod split;

pub use beside::Beside;
pub use change::NodeChange;
pub use children::{first_half, replaced, set_keys};
pub use install::NewLeaves;
pub use needs::Needs;
pub use parts::{cut_of, keys_between};
pub use place::LeafPlace;
pub use plan::{Plan, PlanError};
pub use spine::Spine;
