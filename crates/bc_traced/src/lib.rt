//! The buckets of a cache device as the rows of its index say that they are.
//!
//! A bucket may be given up where nobody needs what is in it, and of that no record stands on the
//! device: it is what the index says. So when a pair is opened each row of the index is counted for
//! the bucket into which it points. How far back a row's generation lies counts for each of them,
//! also for one that was given up: were the generation raised as often as there are numbers, that
//! row would come to count as newer.
#![tactic(auto)]

mod trace;

pub use trace::{trace_rows, walk_rows};

#[cfg(test)]
mod tests;
