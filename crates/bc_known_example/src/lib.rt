//! Runs of what seats know exist. It has definitions and laws, and nothing that runs.
//!
//! The laws of `bc_known` speak of each run from a sound opening, in which a seat does only what
//! it can test. Where no such opening or no such run exists they say nothing: with a condition too
//! many fewer runs exist, and the laws hold all the more. So here are an opening and runs from it,
//! shown step by step: a bucket is raised and its generation written, a new leaf and a new root
//! take the place of the old ones, data is written through the cache, its key is durable and the
//! write acknowledged as forced (`example_exists`); and each kind of act is done, also those that
//! come late, after a failed write (`each_act_exists`).
//!
//! The records are those of the example of `bc_whole`, named by numbers in place of bytes. What is
//! shown anew is that seats may do the same by what they know: that each may ask of the parts in
//! its hand and of its own acts before, and that the buckets that are kept for chains follow from
//! the lists.
//!
//! Read `specs/` in this order: Example, Uses.
#![tactic(auto)]

pub mod laws;
