//! The journal: where changes of the index are safe before the nodes that they are for are written.
//!
//! A key that changes the index changes a leaf in memory alone. Were the leaf written for each key,
//! a small write would cost a write into its node, and a crash between the two would lose the key.
//! So keys wait here, and many of them go to the device as one entry. The entries stand one behind
//! the other in the journal's buckets, which are used in a ring. After a crash a reader takes the
//! newest entry and those before it from its `last_seq` on, and adds their keys to the index again.
//!
//! Three things would lose keys. An entry that is written over while the newest durable entry still
//! asks for it: so a bucket is begun again only where all its entries are older than that entry's
//! `last_seq`, which may be below the oldest entry that is needed now, since no durable entry says
//! so yet. A ring in which no place is left for the entry that would free a bucket: so the last
//! free bucket is kept for entries without keys. And an entry that isn't whole: so one entry at a
//! time is written, between two barriers, and none is taken for whole by chance, which is a premise
//! of the laws.
#![tactic(auto)]

mod heads;
mod journal;
pub mod laws;
mod place;
mod ring;
mod sealed;

pub use heads::Heads;
pub use journal::{Journal, JournalEnd};
pub use place::{Numbers, Place};
pub use ring::Ring;
pub use sealed::Sealed;
