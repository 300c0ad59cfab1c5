//! The buckets of a cache device: which are in use, by what, and which may be given up.
//!
//! A cache device is reused bucket by bucket, and nothing in a bucket is ever looked for or erased
//! when that happens. Each pointer carries the generation that its bucket had, and the bucket's
//! generation rises when it is given up, which makes all pointers into it stale at once. A
//! generation has 8 bits, and so a pointer must not stay for 128 rises: `last_gc` is the oldest
//! generation that a key may still have, and a bucket is given up only while its own is less than
//! 96 ahead of that. A round that walks all keys sets it anew, and finds what is live and what is
//! dirty. Since generations come again after 256 rises, `uses` counts on, and tells a reader surely
//! whether the bucket was given up since it looked.
#![tactic(auto)]

mod bucket;
mod buckets;
pub mod laws;
mod walk;

pub use bucket::{Bucket, Mark};
pub use buckets::Buckets;
pub use walk::{Found, Reference, Walk};
