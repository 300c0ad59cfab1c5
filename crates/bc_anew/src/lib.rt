//! A pair that was made anew is an opening of the machine. It has a definition and laws, and
//! nothing that runs.
//!
//! The machine's laws speak of runs from a sound opening: books of buckets, records of the metadata
//! and parts of the tree that fit each other. That there are any on a real device is shown here. A
//! pair on which the tool that makes caches has just been run, whatever its sizes, is one: the
//! books know its journal and its uuid table as fixed, its chain, its root and its one leaf; as
//! many buckets as a chain takes are kept for the next one; and no key says anything.
//!
//! Read `specs/` in this order: Laws.
#![tactic(auto)]

pub mod laws;
