//! Buckets that a seat holds, taken and let go by deeds of it.
//!
//! A new node, a set of priorities, or data that moves together gets a bucket of its own, which
//! nobody else writes, raises or names: else a node would be written where another seat's data go,
//! and a crash would find either. So the bucket is taken by a deed before anything is written there,
//! and from then on the seat knows, with the buckets in hand or without, that it is its own and that
//! nothing was pinned there. That no node lies in it the seat knows as it takes it, and goes on to
//! know while it keeps the tree in hand: new nodes are written with the tree in hand alone.
//!
//! The step `take_bucket` gives a seat a bucket and `let_go_bucket` takes it back. The laws say what a
//! seat goes on to know of the buckets that it holds, whatever it and others do.
//!
//! Read `specs/` in this order: Next, Held, Taken, Laws; then `take`, `let_go`.
#![tactic(auto)]

pub mod held;
pub mod laws;
mod lent;
pub mod let_go;
mod part;
pub mod take;

// Passed on, so that a crate above need not list these.
pub use bc_place;
pub use bc_place::{bc_deed, bc_hand, bc_machine};
