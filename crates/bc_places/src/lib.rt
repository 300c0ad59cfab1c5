//! The open buckets and the lists of a running cache, and what the core has of them. It has
//! definitions and laws, and nothing that runs.
//!
//! The core knows of each place of the cache device who may write it: nobody yet since its bucket
//! was raised, the seat that pinned it, a candidate, or nobody any more. A cache can't note that
//! for each sector. It notes one number for each open bucket, the first sector that was placed to
//! nobody yet, and takes buckets from four lists. If that number lagged behind by one sector, or a
//! bucket were open that the core has elsewhere, data would be written where a key may still point,
//! and a reader would be shown it.
//!
//! So here is when a list of open buckets and four lists of others stand for a state of the core,
//! and that they go on to do so: at an opening, when a place is given, and when something else
//! happens. What `place` gives is then, to the core, a bucket that is taken, a run of places that
//! is pinned and a bucket that is shut, each of which the core allows: the places are fresh, and
//! the bucket is one for data.
//!
//! Read `specs/` in this order: Stands, Steps, Laws, Example.
#![tactic(auto)]

pub mod laws;
