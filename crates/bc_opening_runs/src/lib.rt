//! What a crash leaves of a run on a sound pair shows what the run allows, over what the pair
//! showed. It has laws, and nothing that runs.
//!
//! What is proved of runs on a device asks of the opening that each key it finds lies whole in data
//! buckets: a sector of a key that lay in two buckets would be shown by the generation of one, and
//! be given up with the other. Of an opening of a sound pair that holds, since the pair's soundness
//! says so of each key of its tree and of its entries. So a program that opens a sound pair, and
//! keeps to the machine from there, has all laws of runs for its own.
//!
//! Read `specs/` in this order: Laws.
#![tactic(auto)]

pub mod laws;
