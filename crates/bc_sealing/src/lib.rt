//! What the journal in memory says of the entry that is sealed next. It has laws, and nothing that
//! runs.
//!
//! The machine has an entry's place only once it is written, and moves on behind it once it is
//! durable; the ring in memory moves on as the entry is sealed, so that keys can wait for the next
//! one meanwhile. That both speak of one place at each of these steps is what lets a seat write an
//! entry where the ring has it.
//!
//! Read `specs/Laws`.
#![tactic(auto)]

pub mod laws;

// Passed on, so that a crate above need not list these.
pub use bc_machine;
