//! Priority sets: the priority and the generation of each bucket, in a chain of buckets.
#![tactic(auto)]

pub mod error;
pub mod laws;
mod read;
mod set;
mod sizes;
mod write;

pub use error::PrioError;
pub use read::read_chain;
pub use set::encode_set;
pub use write::write_chain;
