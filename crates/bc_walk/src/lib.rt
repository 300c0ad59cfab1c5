//! A walk through the index of a cache device whose bytes may be any.
//!
//! The index is a tree only where nothing went wrong. Its nodes say where their children stand, and
//! a node that was torn, or left from an earlier use of a bucket, may name any place: outside the
//! data, in a bucket of another node, or in its own, so that a reader that follows each key would
//! never end. So a walk goes where a key may point to and nowhere twice, and tells what it did at
//! each key; whether that is a tree, and what is wrong where it isn't, is said from this.
//!
//! The walk goes depth first, a node before its children, these by their ends, as the definition of
//! the tree's keys has it. The keys of data are handed on leaf by leaf and aren't kept, since an
//! index may have more of them than there is memory for.
#![tactic(auto)]

mod error;
mod gather;
pub mod laws;
mod node;
mod pointers;
mod search;
mod visit;

pub use error::WalkError;
pub use gather::Gather;
pub use pointers::{bucket_of, lies_in_data, points_into_data};
pub use search::walk;
pub use visit::Visit;
