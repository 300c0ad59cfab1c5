//! A turn of the journal's ring: the oldest entries are needed no more.
//!
//! An entry with keys may begin a journal bucket only where that bucket and the one behind it have
//! no entry that is needed. So before the ring is full, the oldest entries have to go. That takes
//! three things: the keys that wait become durable, so that no key of a leaf is ahead of the
//! journal; what is pending of the old entries goes to the nodes of leaves, as further sets; and an
//! entry is put that says which one is the oldest that is needed. A device that is opened behind it
//! reads no older entry, and the journal buckets with older entries alone are free.
//!
//! The newest durable entry says that, not the memory: behind a run that was cut off before, the old
//! ones would be read, and so their buckets can't be used before the entry is durable.
//!
//! A leaf that gets no further set has to be rewritten first; that is the caller's, to whom it is
//! named. No part is in hand between the steps, so others go on meanwhile.
//!
//! Read `specs/Turned.antt`.
#![tactic(auto)]

pub mod answer;
pub mod give_up;
pub mod low;
pub mod turn;
