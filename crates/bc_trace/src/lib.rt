//! A full trace: a trace round from its first step to its last one.
//!
//! Buckets are marked by what was found in them when they were walked last, and a key that is written
//! over leaves its bucket marked. So where no bucket may be given up any more, a seat makes a full
//! trace: it begins a round, walks each leaf in the order of sectors, puts what waits in the journal
//! into an entry, and ends the round. By itself that drops no key, merges no node and takes no
//! bucket; what may be given up afterwards, the marks say.
//!
//! Between two leaves nothing is in hand, so that other seats come to theirs. At the end the buckets
//! and the journal are in hand together: so no leaf is walked by another seat while the journal is
//! made durable up to the last entry that the walk saw, and then the marks fall.
//!
//! Read `specs/Trace`, then `trace`.
#![tactic(auto)]

pub mod error;
mod hands;
mod settle;
pub mod trace;
mod walk;

// Passed on, so that a crate above need not list these.
pub use bc_flush;
pub use bc_flush::bc_fetch;
pub use bc_leaf_walk;
pub use bc_leaf_walk::{bc_deed, bc_hand, bc_machine, bc_mark, bc_place};
