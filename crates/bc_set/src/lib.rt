//! Sets of keys as bytes. A node of the index is a row of sets, each written behind the one before,
//! and what a later set says overrides the earlier ones.
#![tactic(auto)]

mod error;
mod header;
pub mod laws;
mod order;
mod read;
mod set;
mod write;

pub use error::SetError;
pub use read::read_set;
pub use set::{Set, SetKind};
pub use write::{write_header, write_set};

#[cfg(test)]
mod tests;
