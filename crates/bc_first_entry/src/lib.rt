//! The entry that an opening writes. It has definitions and laws, and nothing that runs.
//!
//! An opening writes an entry of its own before it serves: its number is the one by which the nodes
//! of the run are told from those that an earlier run left, and from then on a crash finds this
//! entry or the one before. It changes nothing that is shown: it has no keys, and names the same
//! root, generations and table. That this can be done in whatever sound pair was opened, and that
//! whatever stops on the way leaves a state of a run, is said here once, so that a program that
//! opens a pair rests on the laws on runs and on nothing else.
//!
//! Read `specs/` in this order: Entry, Laws.
#![tactic(auto)]

pub mod laws;
