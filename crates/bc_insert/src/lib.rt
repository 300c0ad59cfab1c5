//! The events by which keys come into a leaf.
//!
//! A key comes into the leaf in hand, and with the same event into the journal in hand, where it
//! waits for the next entry: until that is durable a crash takes it back. So that this can't fail,
//! the leaf has room for it and the journal a place before the event, and the event itself takes no
//! memory but that of its own record. The buckets are in hand too, since a key may change what is
//! known of the one that it points into.
//!
//! A write through the cache is such an event: its keys name the places that the seat filled, and with
//! them the write stands in the history. Keys without pointers take away what a range had in the cache.
//! They are enough where the backing device has what it shows, and only there: data that is all that
//! there is of it stays.
//!
//! Read `specs/` in this order: Insert, Write, Drop.
#![tactic(auto)]

pub mod drop;
pub mod put;
pub mod write;

// Passed on, so that a crate above need not list these.
pub use bc_place;
pub use bc_place::{bc_hand, bc_machine};
