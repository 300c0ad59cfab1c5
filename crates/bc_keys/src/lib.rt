//! Lists of keys, as the sets of a node and the entries of the journal hold them: the words of each
//! key stand behind those of the key before.
#![tactic(auto)]

mod error;
mod extents;
mod keys;
pub mod laws;
mod read;
mod words;
mod write;

pub use error::KeysError;
pub use extents::are_extents;
pub use keys::Keys;
pub use read::{read_key, read_keys};
pub use words::put_words;
pub use write::{word_count, write_key, write_keys};
