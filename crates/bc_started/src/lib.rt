//! How a run over a pair with a cache is started.
//!
//! The nodes that a run writes are told from those that an earlier run left by the number of an
//! entry that is the run's own, so an entry comes first. It could be written before the run begins;
//! but then the parts that were read wouldn't be those of what the device holds, and the run would
//! stand on a pair that nobody has read. So the run begins over the pair as it was read, and its
//! first seat puts the entry, by deeds like all others: what a crash leaves of it, and what is shown
//! then, the laws on runs say.
//!
//! Beside the data the backing device may be changed before a run begins, and not while it goes on:
//! no deed is a write of its superblock. So the state that says that the cache may have what the
//! backing device lacks is written before `start`, or once the run has ended.
//!
//! Read `specs/` in this order: Start, Stop, First, Stored, Laws.
#![tactic(auto)]

mod first;
pub mod laws;
pub mod start;

// Passed on, so that a crate above need not list these.
pub use bc_cached;
pub use bc_cached::bc_begun;
pub use bc_entry::{bc_deed, bc_hand, bc_machine};
