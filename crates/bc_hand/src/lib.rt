//! What a seat of the core has in hand, what it knows, and how it commits a deed.
#![tactic(auto)]

pub mod error;
pub mod hand;
pub mod laws;
pub mod lend;
pub mod seat;

// Passed on, so that a crate above need not list these.
pub use bc_machine;
