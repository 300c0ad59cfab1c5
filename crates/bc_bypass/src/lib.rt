//! Writes past the cache over sectors that have keys.
//!
//! A write to the backing device alone would leave the cache with what it replaced: a later read,
//! or the one behind a crash, would show that again. So before it the sectors get keys without
//! pointers, which say that the backing device has them; and the write waits until an entry of the
//! journal with these is durable. In the kernel this is called invalidating a range.
//!
//! That is so only where the backing device has what the sectors show: a dirty key's data are in
//! the cache alone, and a key in its place would lose them. Where one stands over a sector nothing
//! is done, and the answer says so: the write goes through the cache then, or the data are written
//! back first.
//!
//! Keys are taken away under a claim of their own. The write then looks the sectors up again under
//! its claim, and goes on only once all that came into the index is durable: so what came in
//! between the two is seen, and answered.
//!
//! Read `specs/` in this order: Empty, Backed, Dropped, Invalidated, Piece.
#![tactic(auto)]

mod backed;
pub mod claimed;
mod drop;
pub mod error;
pub mod invalidate;
mod keys;
pub mod piece;

// Passed on, so that a crate above need not list these.
pub use bc_around;
pub use bc_write_back;
