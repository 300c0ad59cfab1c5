//! The entry that an opening writes into the journal.
//!
//! The nodes that a run writes are told from those that an earlier run left by the number of an
//! entry that is this run's own. So the first thing that an opened pair gets is an entry without
//! keys. It names what the newest entry names, and it says which entries are needed still: from the
//! oldest one on that has keys, since what those say stands in no node for certain. Where none has
//! keys it needs none but itself; so a pair that is opened and closed over and over goes on around
//! its journal's ring, and never fills it.
#![tactic(auto)]

mod needed;
mod next;
mod write;

pub use needed::oldest_needed;
pub use next::{Next, next_entry, next_journal};
pub use write::write_entry;
