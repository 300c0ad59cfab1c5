//! Candidates that an exclusive claim killed, let go by the seat that claimed.
//!
//! A killed candidate is never named, but its place is pinned until somebody lets it go, and only so
//! many may stand. So who kills some lets them go at once. Others may have killed some too; whoever
//! finds them lets them go, and nobody is left to look for them.
//!
//! Read `specs/Killed.antt`, then `killed`.
#![tactic(auto)]

pub mod killed;

// Passed on, so that a crate above need not list these.
pub use bc_candidate;
pub use bc_candidate::{bc_hand, bc_machine, bc_place};
