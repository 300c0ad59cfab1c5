//! What a crash leaves of the uses of buckets, read by the formats. It has a definition and a law,
//! and nothing that runs.
//!
//! A pair is sound only if each bucket has one use at most: if a key's data lay where a node or a
//! priority set lies, the next write of the one would tear the other. And no key may be so old that
//! its generation, which counts modulo 256, looks new again. The books of buckets (`bc_books`) keep
//! both of what is in memory and of each index that a crash may find; here it is said of two images
//! and what a reader finds there.
//!
//! Of the bucket of the uuid table nothing is said but that it has no data where the books know it
//! as fixed: which bucket that is, an entry says in words that the machine carries along unread.
//!
//! Read `specs/` in this order: Laws.
#![tactic(auto)]

pub mod laws;
