//! Values of a write on the cache device, before any key names them.
//!
//! A write through the cache puts its values to fresh places first, and only then into the index: so
//! nobody finds them before all of them are there. A place lies in one bucket, so values may need
//! more than one. What comes between, a call that fails or want of memory, gives the place back.
//!
//! Read `specs/` in this order: Stored, All.
#![tactic(auto)]

pub mod all;
pub mod error;
pub mod one;

// Passed on, so that a crate above need not list these.
pub use bc_insert;
pub use bc_insert::{bc_hand, bc_machine, bc_place};
