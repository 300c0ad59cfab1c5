//! What a piece read or wrote around the cache, kept on the cache device for the index.
//!
//! The values lie at places that the seat filled, one place behind the other. Each becomes a
//! candidate, as long as one more may stand. The rest is let go: it is on the backing device, and a
//! cache that keeps less of it answers the same. So that is no refusal.
//!
//! Read `specs/Kept.antt`, then `keep`.
#![tactic(auto)]

pub mod keep;

// Passed on, so that a crate above need not list these.
pub use bc_candidate;
pub use bc_stored;
pub use bc_stored::{bc_hand, bc_insert, bc_machine, bc_place};
