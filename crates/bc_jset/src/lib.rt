//! Entries of the journal as bytes. An entry has the keys of some changes of the index, and says
//! where the index stands that they change.
#![tactic(auto)]

mod entry;
mod error;
mod fields;
mod header;
pub mod laws;
mod read;
mod write;

pub use entry::JEntry;
pub use error::JsetError;
pub use read::read_entry;
pub use write::{write_entry, write_entry_with};
