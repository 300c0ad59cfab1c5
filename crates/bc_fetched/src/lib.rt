//! What a leaf that is read while a run goes on tells of the index. It has laws, and nothing that
//! runs.
//!
//! A leaf of which nothing is pending may leave memory, and is read again when a seat needs it. The
//! machine goes on to know its node by the sets that were written, whether a barrier came behind
//! them or not; so a leaf that is read has to say what these say. It does, since a read finds what
//! was written last, and since a set whose write failed has keys of no sector but those that are
//! still pending.
//!
//! Read `specs/Fetched`.
#![tactic(auto)]

pub mod laws;
