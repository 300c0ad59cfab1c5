//! Each sound pair with a cache is an opening of the machine. It has a definition and laws, and
//! nothing that runs.
//!
//! The machine's laws speak of runs from a sound opening: books of buckets, records of the metadata
//! and parts of the tree that fit each other. A program that comes up has a pair of devices, of
//! which it knows that a reader finds it sound. It reads it, numbers the nodes that it finds, cuts
//! the keys of the entries to the leaves, puts spare buckets on its lists, and marks the others.
//! If what it then holds weren't a sound opening, nothing that is proved of runs would say anything
//! of this one; and if two such openings of one pair could differ, the program's state would stand
//! for none in particular. So it is said here what an opening of a pair is, but for what the
//! program may choose, and proved that there is one for each choice, that it is sound, and that
//! what was read and chosen says all of it.
//!
//! Read `specs/` in this order: Read (what the machine sees of a reading), Choices, Opening, Alike
//! (what two of them have in common), Laws, Cut (which keys a leaf gets back), Ring
//! (what stands in the journal's buckets), Nodes (what stands in the tree's).
#![tactic(auto)]

pub mod laws;
