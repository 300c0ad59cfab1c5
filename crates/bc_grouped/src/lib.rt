//! What an install of a change of the tree makes of the buckets in memory. It has laws, and nothing
//! that runs.
//!
//! To the core an install is steps of its books, one behind the other: the sectors between two are
//! in other leaves, the buckets of what comes are nodes', and those of what goes are nobody's. A
//! trace round that goes on may not take back what it didn't see: so the sectors of new leaves
//! count as walked, and the buckets are touched into which their keys point, and those of new nodes. That
//! buckets in memory to which the same was done stand for the books behind each step is said here.
//!
//! Read `specs/Grouped`, then `specs/Touched`.
#![tactic(auto)]

pub mod laws;
