//! What holds always: in each state of each run of the core's events. It has laws, and nothing that
//! runs.
//!
//! The laws of `bc_events` say that whatever a crash leaves can be read, shows what is allowed and
//! is a sound pair again. Here is what follows of it, one sentence each. A pair that was closed
//! shows its last writes, and where nothing live is dirty the backing device has them alone: so it
//! may be taken away from its cache, which nobody could dare if it had only what is allowed. A
//! bucket with live dirty data is never given up: its data is nowhere else, and a new use of the
//! bucket would lose it. And while a seat writes sectors no other has a claim on them: a read could
//! show half of the write, and of two writes the one could be placed last and the other keyed last.
//!
//! Beside the laws stand runs that meet their premises, and what goes wrong where a reader takes
//! the wrong entry for the newest one: a write that is cut before its entry shows what was there
//! before, as it has to; a reader that passes over the last entry loses what a flush covers.
//!
//! Read `specs/` in this order: Crash, Raise, Claims, Entries.
#![tactic(auto)]

pub mod laws;
