//! The parts of a pair that is opened, as its survey has them: its buckets, and the lists of those
//! that are ready to be taken.
//!
//! The on-disk format keeps of a bucket its priority and its generation alone. How much of it is in
//! use, whether some data in it is all that there is, and how old its oldest key is must be worked out
//! at each opening, from all keys: a bucket of which that was forgotten would be taken for another use
//! while a key still leads into it. So it is stated here what the keys say of a bucket, in the words
//! of the pair, and the survey's rows, of which it is computed, don't stand in what is promised.
#![tactic(auto)]

mod buckets;
mod spare;

pub use buckets::buckets_of;
pub use spare::reserves_of;

#[cfg(test)]
mod tests;
