//! Leaves of the index in memory, of which there may be fewer than on the device.
//!
//! An index may have more leaves than memory, so a part keeps some of them in a fixed number of
//! slots and reads the others when they are asked for. What makes that safe is that it can't be
//! seen: a leaf in a slot is what a reader finds on the device, followed by what is pending. So only
//! a leaf of which nothing is pending may leave its slot, since all of it can be read again; one
//! with pending keys is written first, or these would be lost. And a leaf is in one slot at most,
//! or keys would be added to one of two copies and looked for in the other.
//!
//! The leaf that makes room is the one that was used longest ago, so that one that was just read,
//! and is about to be used, stays. Whoever works on a leaf over several steps holds it.
#![tactic(auto)]

mod cache;
mod error;
pub mod laws;
mod slots;

pub use cache::NodeCache;
pub use error::FetchError;
pub use slots::Cached;
