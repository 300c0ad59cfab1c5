//! The uuid table: which backing devices a cache knows.
#![tactic(auto)]

pub mod entry;
pub mod error;
pub mod laws;
mod table;

pub use entry::UuidEntry;
pub use error::UuidError;
pub use table::{Uuids, find, read, write};

#[cfg(test)]
mod tests;
