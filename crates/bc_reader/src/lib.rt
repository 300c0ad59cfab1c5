//! Reads in a run with a cache.
//!
//! What was read from the backing device may be answered at any time, since under the seat's claim
//! nobody writes there. But the cache device's buckets may be used anew while others go on; so what
//! came from there may be answered as long as the counts of uses are what they were at the look.
#![tactic(auto)]

pub mod claimed;
pub mod error;
pub mod look;
pub mod noted;
pub mod run;
pub mod runs;

// Passed on, so that a crate above need not list these.
pub use bc_fetch;
pub use bc_reads;
