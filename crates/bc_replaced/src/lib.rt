//! A leaf of the tree gives way to others that are written anew: one, or two that have a half each.
//!
//! What is pending of a leaf keeps the journal's entries, and a leaf that was read from the device,
//! or is full, takes no further set. So it is written anew, to another place and with all its keys,
//! in as many nodes as they need; and since a node is named by the one above it, that one is
//! written anew too, up to the root, which the journal names. Until the entry that names the new
//! root is durable a crash finds the old tree, and from then on the new one, and the two say the
//! same.
//!
//! The change is one sequence of steps with the tree in hand throughout. Whatever may be missing is
//! taken before the first new node is written: the buckets of all of them, and memory. Up to there
//! it can be given up, and the tree is as it was, at rest. From there on only a fault or a halt
//! keeps it from its end; or the journal has no place for the entry yet, and then the plan is given
//! back, by which the change is made later.
//!
//! Read `specs/` in this order: Given, Made, Replaced.
#![tactic(auto)]

pub mod ask;
pub mod error;
pub mod make;
pub mod replace;
mod shape;
