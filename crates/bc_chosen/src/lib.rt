//! The parts of an opened pair that are in memory stand for an opening of the machine. It has a
//! definition and laws, and nothing that runs.
//!
//! What holds of runs is proved of a machine that is said in its own words: versions that count on
//! for ever, slots, shelves. What is read of a pair into memory is said in those of the pair:
//! generations as bytes, leaves in the order of their ranges, lists of buckets. Each part was
//! proved to be as the pair has it, but a machine that is opened must fit in all of its parts at
//! once. So it is said here which choice of the machine's the parts in memory stand for, and proved
//! that it is one that may be made: all that is proved of runs from there is said of them.
//!
//! Read `specs/` in this order: Marks, Oldest, Lists, Slots, Waiting (one part each), Parts (all of
//! them).
#![tactic(auto)]

pub mod laws;
