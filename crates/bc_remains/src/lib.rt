//! What a crash leaves of a cache device, read by its formats.
//!
//! `bc_meta` says in the words of its machine what each image that a crash may leave reads as, and
//! `bc_image` says in the words of the formats what a reader finds on a device. A reader that comes
//! up after a crash has only the second. So the two are tied here: each image that a run of the
//! machine may leave is read by `bc_image` in one way, and what it reads is what the state of the
//! machine meant: the entries that are durable or the sealed one's, the keys of the tree under
//! them, and the generations of the chain that they name. And each sound pair is an opening of the
//! machine, so that what is proved of runs is said of what a reader found.
//!
//! A reader takes the tree by pointers and the generations by their numbers on the device; the
//! machine names nodes and chains by buckets that it counts from the journal's first one on, and
//! generations that count on for ever. What passes from one to the other is that every pointer of
//! the tree leads to the bucket that the machine means, and every generation agrees modulo 256.
//!
//! Read `specs/` in this order: Means (a reading is what a state means), Opens (an opening that is
//! a reading), Apart (what metadata tells of the uses of buckets), Laws, Example.
#![tactic(auto)]

pub mod laws;
