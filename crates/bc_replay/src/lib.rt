//! What a pair holds, as far as its cache needs to know before it serves.
//!
//! A cache that opens a pair trusts nothing that stands on the two devices: a crash may have torn
//! what was written last, a device may be an old copy, a tool may have written over it. Each record
//! leads to the next one: the superblocks to the journal, its newest entry to the generations, to the
//! table of uuids and to the index. So they are read in this order, and the first that isn't as it
//! has to be is the answer; what stands behind it can't be judged. Nothing is written.
#![tactic(auto)]

mod error;
mod front;
mod heads;
mod held;
mod index;
pub mod laws;
mod pointers;
mod replay;
mod supers;
mod uses;
mod uuids;
mod whole;

pub use error::OpenError;
pub use front::{Front, read_heads};
pub use held::Survey;
pub use index::{Index, read_tree};
pub use pointers::Limits;
pub use replay::read_index;
pub use supers::{Supers, read_supers, refusal};
pub use uses::{Use, age_of, generation_of, is_live};
pub use uuids::names_device;
pub use whole::survey;
