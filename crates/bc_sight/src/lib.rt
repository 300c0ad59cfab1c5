//! Steps of a seat that reads in a run with a cache, and what it knows of its claim by them.
#![tactic(auto)]

pub mod answer;
pub mod cache;
pub mod look;

// Passed on, so that a crate above need not list these.
pub use bc_deed;
pub use bc_deed::bc_hand;
pub use bc_looks::bc_machine;
