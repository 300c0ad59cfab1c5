//! Which entries of the journal count.
//!
//! The journal is the one thing on a cache device of which nobody wrote down where it ends: an entry
//! is put behind the last one, and a crash may leave it whole, torn or not at all. So a reader takes
//! the entries as it finds them, in every bucket up to the first place that has none, and lets their
//! numbers decide. The greatest number is the newest entry, and it names the oldest one that is still
//! needed; from there on each number has to be there, or what the cache held is lost. What an earlier
//! turn of the ring left has a lower number and doesn't count. An entry that was written twice counts
//! where it stands first.
//!
//! All buckets are read, each by one call. What is kept in memory are the entries themselves.
#![tactic(auto)]

mod bucket;
mod error;
mod journal;
pub mod laws;
mod list;
mod read;
mod room;

pub use error::JournalError;
pub use journal::Journal;
pub use read::read_journal;
