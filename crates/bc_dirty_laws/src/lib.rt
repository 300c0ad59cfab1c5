//! Which sectors have data that is in the cache alone, and what tells it. It has laws, and nothing
//! that runs.
//!
//! A sector's data is in the cache alone where its last key is dirty. Whether some sector has such a
//! key is asked where a run ends: then alone may the backing device say that it needs no cache. The
//! answer lies in the leaves of the index, of which most are on the device; but a dirty key's bucket
//! is marked, and the marks of all buckets are in memory. So where none is marked as dirty no leaf
//! has to be read, and else the leaves tell it, each for its own sectors, up to the end of the tree,
//! behind which no sector has a key.
//!
//! Read `specs/Dirty`.
#![tactic(auto)]

pub mod laws;

// Passed on, so that a crate above need not list these.
pub use bc_looks::bc_machine;
