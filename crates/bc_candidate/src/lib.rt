//! Data of misses and of writes around the cache that the index may name later: the deeds that note
//! such data and give it up.
//!
//! What a miss reads, and what a write around the cache writes, goes to the cache device at once,
//! while the seat has it. The index may not name it yet: a crash could leave a key to it, but not
//! what the backing device shows by then. So the seat notes it as a candidate, and nobody finds it
//! there until a barrier of the backing device came behind. The place is no seat's any more then,
//! but it is pinned still, so that its bucket isn't raised while the candidate waits.
//!
//! A write claims its sectors exclusively, and that kills the candidates that it overlaps: their
//! data is about to be old. A killed candidate is never named; who finds one lets its place go.
//!
//! Read `specs/` in this order: Noted, Dead, Laws; then `note`, `dead`.
#![tactic(auto)]

pub mod dead;
pub mod laws;
mod lent;
pub mod note;

// Passed on, so that a crate above need not list these.
pub use bc_place;
pub use bc_place::{bc_deed, bc_hand, bc_machine};
pub use bc_sight;
