//! When candidates are firm.
//!
//! The index may name a candidate once a barrier of the backing device came behind it: named before,
//! a crash could show it though that device lost what it was read from. Which candidates a barrier
//! made firm the claims in memory don't say, since a barrier doesn't ask for them, and others note
//! candidates meanwhile. So who is about to make a barrier reads the number of the next candidate
//! first: behind the barrier all below it are firm, and stay so, since no later candidate gets one
//! of their numbers. A flush makes its barrier too, and may settle what it made firm.
//!
//! Read `specs/` in this order: Firm, Laws; then `barrier`.
#![tactic(auto)]

pub mod barrier;
pub mod laws;

// Passed on, so that a crate above need not list these.
pub use bc_deed;
pub use bc_deed::{bc_hand, bc_machine};
