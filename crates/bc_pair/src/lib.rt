//! Pairs of a cache device and a backing device: how one is made, adopted and shown.
#![tactic(auto)]

pub mod adopt;
pub mod error;
mod flags;
pub mod format;
mod journal;
pub mod laws;
mod nodes;
pub mod pair;
mod read;
pub mod records;
pub mod show;
mod write;
