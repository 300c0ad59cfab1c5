//! Candidates' keys come into the index.
//!
//! What a miss read stands on the cache device since, and the index doesn't name it: a crash could
//! leave a key to it where the backing device lost what it was read from. Behind a barrier of that
//! device the key may come, and the next read of these sectors finds them in the cache. It comes
//! clean, since the backing device has the data too, and only where no key stands over any of its
//! sectors: what was written through the cache meanwhile is newer.
//!
//! The candidate's own key is no more than a note of its range and place, made when the place was
//! written. So the key that comes into the leaf is made anew, with the generation that the place's
//! bucket has now: the place was pinned all the time, and its bucket not used anew.
//!
//! A candidate that doesn't fit stays as it is: `Left` says why, and whoever has it may look for
//! another leaf, make room, or claim the sectors for itself, which kills the candidate, and let its
//! place go.
//!
//! Read `specs/` in this order: Fits, Next, Settle.
#![tactic(auto)]

pub mod due;
mod fit;
mod named;
pub mod outcome;
pub mod settle;

// Passed on, so that a crate above need not list these.
pub use bc_candidate;
pub use bc_insert;
pub use bc_insert::{bc_hand, bc_machine, bc_place};
