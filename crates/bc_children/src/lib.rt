//! Where the children of a node lie: to the core, in the bucket into which their pointers point on the
//! device. It has laws, and nothing that runs.
//!
//! The core has a bucket for each sector, whatever that is, and keys on the device name buckets by
//! dividing. The two agree for each sector that lies within a bucket of the core, as the places of
//! nodes do. So who writes a node knows which buckets the core sees in it.
//!
//! Read `specs/Children`.
#![tactic(auto)]

pub mod laws;
