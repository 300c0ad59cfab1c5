//! How many sectors have live data in a bucket.
//!
//! A pair's index is read into rows, which are what is left of the keys: each row has the sectors of
//! one key that no later key took. What is said of a bucket, its used count or what a listing prints,
//! is said of sectors and of their last keys, as a reader finds them on the device. So it is said
//! here what such a count is, by no loop of a program, and proved that rows may be counted in the
//! place of keys.
#![tactic(auto)]

pub mod laws;
