//! Whether some data is in the cache alone, asked while nothing else goes on.
//!
//! Who closes a run has to know it: the backing device may say that it needs no cache only where no
//! sector's last key is dirty. The buckets in memory tell it at once where none of them is marked as
//! one with dirty data. But a mark stays when a bucket's data was written back or overwritten; so
//! else the leaves of the index are looked at, one behind the other, each by the one way that there
//! is to a leaf. What one leaf told stays true while the next one is fetched, since the seat that
//! asks has all numbers of the run, and reads of nodes change no keys.
//!
//! Read `specs/Walk`.
#![tactic(auto)]

pub mod leaf;
pub mod marks;
pub mod walk;

// Passed on, so that a crate above need not list these.
pub use bc_dirty_laws;
pub use bc_fetch;
