//! Buckets that nothing needs, raised by deeds of a seat.
//!
//! A cache fills its buckets one after the other, and none is ever emptied: what is in one becomes
//! void as its data is written back, dropped or moved. A bucket that nobody needs any more is
//! raised: its generation rises by one, which makes each pointer into it stale at once, without a
//! look at any key. Only then may it be filled anew; and not before its new generation is durable,
//! since a crash would find the old pointers fresh again, with other data behind them. So a raised
//! bucket waits until an entry names priority sets with its generation.
//!
//! Which buckets are raised, the records in memory say (`bc_alloc`): those with the least priority,
//! and of these those with the least numbers, which are unpinned, nobody's, without dirty data or
//! metadata, and not too far from their oldest key. That the core allows it just then, `bc_renew`
//! says.
//!
//! Read `specs/Raise.antt`, then `raise`.
#![tactic(auto)]

pub mod raise;

// Passed on, so that a crate above need not list these.
pub use bc_held;
pub use bc_held::bc_place;
pub use bc_held::bc_place::{bc_deed, bc_hand, bc_machine};
pub use bc_renew;
