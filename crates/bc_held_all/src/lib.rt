//! The buckets of a change of the tree, taken together.
//!
//! A change that finds no bucket for one of its new nodes is given up, and then it keeps none of the
//! others: so all are taken before anything is written, and where one is missing those before it go
//! back in the same call. From then on nothing but a fault or a halt is in the way of the change.
//!
//! Read `specs/All`, then `all`.
#![tactic(auto)]

pub mod all;

// Passed on, so that a crate above need not list these.
pub use bc_held;
pub use bc_held::{bc_hand, bc_machine, bc_place};
