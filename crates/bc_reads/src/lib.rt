//! From where the sectors of a range are read in a run with a cache.
//!
//! What a leaf's last key says of a sector isn't enough to read it: the bucket that it points into
//! may have been given up since, and may hold other data now. The byte of the generation tells that
//! while the buckets are in hand, and whether the backing device has the data then: it has that of
//! a clean key, and of a key that is dirty it hasn't. So a look answers three ways: by the backing
//! device, by a place of the cache device, or that the data is nowhere, which no sound pair says.
#![tactic(auto)]

pub mod laws;
pub mod runs;
pub mod source;
#[cfg(test)]
mod tests;

// Passed on, so that a crate above need not list these.
pub use bc_sight;
