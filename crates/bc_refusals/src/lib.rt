//! Which refusals of a read can come over a sound pair. It has laws, and nothing that runs.
//!
//! A read over a cache is refused for a cause outside, as a device that fails, or since the index
//! in memory doesn't have what the read needs: there is no leaf of a sector, a leaf lies outside
//! the device, dirty data is of a bucket that was used anew. The program tests for these, since it
//! can't tell from its parts whether the pair was sound as the run began; and where it finds one it
//! says so, with its evidence. Over a pair that was sound there is no such evidence: the machine
//! that the parts stand for has a leaf of each sector, in a bucket of the device, and dirty data in
//! buckets that weren't used anew.
//!
//! Read `specs/Over` and `specs/Laws`, then `specs/Lines`, and `specs/Runs` for which runs these
//! are. `specs/Room` is of a part without a slot for a leaf, which is no matter of soundness.
#![tactic(auto)]

pub mod laws;
