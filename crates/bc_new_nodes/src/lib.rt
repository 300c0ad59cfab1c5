//! All new nodes of a change of the tree, written and made stable.
//!
//! A change that is given up behind its first new node would leave nodes in the run that nothing
//! names and that keep their buckets. So whatever may be missing is taken before: the buckets are the
//! seat's, and the room for the bytes of each node is made before the first write. From then on
//! nothing but a fault or a halt is in the way, and behind these nobody changes the tree any more.
//!
//! Nobody else comes to the tree meanwhile, and its part in memory notes that it changes. So a seat
//! that began with a tree at rest knows each new node that there is: they are those that it wrote.
//! That is what the core asks of the write that names them.
//!
//! Which new nodes a plan brings, and in which order, is said in `bc_planned`. Read `specs/` in this
//! order: Asked, Wrote; then `all`.
#![tactic(auto)]

pub mod all;
mod nodes;

// Passed on, so that a crate above need not list these.
pub use bc_held_all;
pub use bc_new_node;
pub use bc_new_node::{bc_hand, bc_held, bc_machine, bc_place};
