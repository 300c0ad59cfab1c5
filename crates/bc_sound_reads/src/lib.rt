//! What lines over a sound pair are never answered.
//!
//! A line that reads is refused where what it found in the index is as in that of no sound pair,
//! and a run stops at a line that is refused for a cause of which no answer has a word. So over a
//! pair that was sound neither comes. What can't be ruled out yet is a part of the leaves that is
//! busy. A line that flushes looks at no leaf, and is never stopped.
//!
//! Read `specs/` in this order: Laws.
#![tactic(auto)]

pub mod laws;

// Passed on, so that a crate above need not list these.
pub use bc_cached_serve;
pub use bc_cached_serve::bc_serve;
