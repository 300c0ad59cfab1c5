//! Places for data: fresh sectors in buckets that are open for it.
//!
//! Data is written one piece behind the other, and a bucket that is filled so is given up as a
//! whole later on. A place is given once: as long as the bucket isn't raised, nothing is ever
//! written twice to the same sector of it, so that a reader who finds the bucket's uses unchanged
//! has read what the key meant. A bucket is open until it is full, and held for as long.
#![tactic(auto)]

mod fill;
pub mod laws;

pub use fill::{Fill, MOST, Open, Placed, place};
