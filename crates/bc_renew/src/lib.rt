//! What the core says of buckets that are raised and made ready again.
//!
//! The buckets in hand are records, lists and counts; to the core a bucket has a version, a mark, a
//! shelf, and each of its places an owner. That the containers may give a bucket up, the core has
//! to allow: that nobody has a pin in it, that it has neither dirty data nor metadata, that its
//! oldest key is near. And what the containers do, the core has to do too, so that what is in hand
//! goes on to stand for the state. These laws say both, of one deed each; the steps of a seat that
//! do these deeds stand above.
//!
//! Read `specs/` in this order: Raised, Goes, Ready, Laws.
#![tactic(auto)]

pub mod laws;

// Passed on, so that a crate above need not list these.
pub use bc_machine;
