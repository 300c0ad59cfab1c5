//! The nodes of the index on a device.
//!
//! A node is a row of sets. Its first set is written with zeros over the rest of the node; each
//! later one goes behind the last, at the next block, so that a change of some keys doesn't write
//! the whole node again. A reader can't know how many sets there are: it goes on as long as it
//! finds one. So what lies behind the last set matters. Where a set of an earlier use of the bucket
//! stood there, it would be taken for the next one; so the first set's zeros clear the node, and
//! all sets of a node have one number, that no earlier node in the bucket had. And a set whose
//! write was cut off must not be found at all, or else be the one that was to be written: that none
//! matches by chance is a premise of the laws.
//!
//! A leaf in memory has for each sector the last key of its sets and of what was added since. What
//! was added waits for the next set with its keys without pointers, which that set has to carry:
//! left out, the keys that they hide in earlier sets would come back.
#![tactic(auto)]

mod error;
mod keys;
mod last;
pub mod laws;
mod leaf;
mod load;
mod pending;
mod read;
mod write;

pub use error::NodeError;
pub use last::are_within;
pub use leaf::Leaf;
pub use load::{load_sets, word_of};
pub use pending::Entries;
pub use read::{in_blocks, read_sets, sectors_of};
pub use write::write_slice;
