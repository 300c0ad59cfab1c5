//! The flush of a line in a run with a cache.
//!
//! A write through the cache stands on its device before any key names it, and its key waits in the
//! journal in memory. So a flush has two devices to see to: it puts the keys that wait into an
//! entry and makes that durable, and it makes a barrier on the backing device, where writes around
//! the cache went. Only behind both may it be acknowledged: without the entry a crash would leave
//! an index that doesn't know the write, and without the barrier old sectors.
//!
//! While a seat waits for the journal others may put entries and bring more keys. What was in the
//! index when the flush began stays there, and what is durable stays so: that much is certain, and
//! it is all that a flush promises.
//!
//! What an entry names, and that keys wait for each insertion that is in no entry, the journal in
//! hand tells. So any seat may flush, whatever others do meanwhile.
//!
//! Read `specs/` in this order: Durable, Sync, Flushed, Laws.
#![tactic(auto)]

pub mod error;
pub mod flush;
pub mod laws;
pub mod said;
pub mod sync;

// Passed on, so that a crate above need not list these.
pub use bc_entry::{bc_deed, bc_hand, bc_machine};
pub use bc_request;
pub use bc_request::bc_reads::bc_sight;
pub use bc_request::{bc_fetch, bc_job};
