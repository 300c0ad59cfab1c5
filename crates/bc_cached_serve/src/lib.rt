//! A trace served over a cache: its lines in order by the seat of their worker. So far each line
//! reads, flushes, or asks for nothing, so that no value of a sector changes.
//!
//! A line that reads may be refused for a cause of which no answer has a word: a part of the index
//! in memory is busy, or the index is as that of no sound pair. To answer another cause would be
//! false, and to go on would hide it, so the run stops at that line and says which it was, and why.
//!
//! A read of the cache device that fails is no fault of the line where the backing device has the
//! data too: the line goes on there. So `fault` names the device whose failed read ended the line,
//! and the contracts say of every other failed call what was read in its place, but of the last one
//! behind `halted` and `memory`, in whose place nothing may have been read.
//!
//! A flush puts no entry into the journal. The run's first entry took all keys that waited, and no
//! such line brings one: all that came into the index is durable, and stays so.
//!
//! Read `specs/` in this order: Refusals, Deeds, Worker, Answered, Served, Run.
#![tactic(auto)]

pub mod asked;
mod flush;
pub mod in_order;
mod refused;
pub mod unsound;
pub mod whole_run;
mod worker;

// Passed on, so that a crate above need not list these.
pub use bc_serve;
pub use bc_session;
pub use bc_session::bc_loaded;
