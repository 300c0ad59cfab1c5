//! The steps by which a trace round begins and is over.
//!
//! A bucket may be given up once nothing in it is needed: no live key that is dirty points into it,
//! and the cache keeps nothing of its own there. Keys come and go one by one, and nobody counts them
//! for the buckets. So from time to time a seat walks over the keys of all leaves, a leaf at a time,
//! and keeps what it finds for each bucket. Writes go on meanwhile: whoever puts in a key that points
//! into a bucket notes that the bucket is touched, and of a touched bucket the walk says nothing.
//! The marks fall at the end, once the journal has all keys that the walk saw: else a crash could
//! bring back an index whose keys point into a bucket that was given up.
//!
//! A round begins with `begin_round`, and is over with `end_round`, or with `drop_round`, which takes
//! nothing of what it found. It lies with the buckets, so that any seat that has these in hand may go
//! on with it.
//!
//! Read `specs/Steps`, then `round`.
#![tactic(auto)]

mod part;
pub mod round;

// Passed on, so that a crate above need not list these.
pub use bc_place;
pub use bc_place::{bc_deed, bc_hand, bc_machine};
pub use bc_rounds;
