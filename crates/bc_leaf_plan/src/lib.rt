//! What is planned for a leaf of the tree that gives way to others, with the buckets that are held for
//! their nodes.
//!
//! A plan changes nothing, and whatever keeps it from being made is found here: a leaf that comes
//! doesn't fit in a node; a node above takes a further set, so that no new root comes by which the
//! change would be made; or a bucket ends behind the device. So what comes behind has no cause to
//! refuse but want of memory, a fault or a halt.
//!
//! Read `specs/` in this order: Way, Leaf.
#![tactic(auto)]

pub mod plan;
pub mod refused;
mod up;
pub mod way;
