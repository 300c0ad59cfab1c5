//! The journal's ring is turned: what is pending of old entries goes to the nodes of leaves.
//!
//! The journal has a fixed number of buckets, which are used in a ring. A bucket is free again only
//! where no entry in it is needed: each key in these is in a set of its leaf by then, or was written
//! over. So before the ring is full, the keys that are pending of the oldest entries are written
//! behind the sets of their leaves, part by part, and then the journal may give those entries up.
//!
//! A seat has one part of leaves in hand at a time, and others may bring keys to the parts that it
//! had, or will have. Those keys are of entries to come: so what a part doesn't wait for it never
//! will, and once that is known of each part the oldest entries aren't needed.
//!
//! A leaf that was read from the device, or whose node is full, gets no further set: such a one has to
//! be rewritten first, and is named by the answer.
//!
//! Read `specs/` in this order: Need, Laws, Empty, Heard, Part, Parts, Needed.
#![tactic(auto)]

pub mod error;
pub mod heard;
pub mod laws;
pub mod leaf;
pub mod needed;
pub mod part;
pub mod parts;
