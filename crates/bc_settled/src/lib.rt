//! Candidates that are due come into their leaves, by a seat with nothing in hand.
//!
//! Behind a barrier of the backing device the candidates that were noted before it are due: each
//! may come into the leaf that has its sectors. The leaf is looked for by the oldest one's sectors,
//! and then the claims are taken, with buckets and journal: meanwhile another may have been settled
//! or killed, so that the oldest is another one, and the leaf perhaps not its own. The step tells
//! that.
//!
//! Only the oldest is tried. One that a key stands over never comes in, and those behind it wait
//! until it is claimed, which kills it, and let go.
//!
//! Read `specs/` in this order: Room, Next.
#![tactic(auto)]

pub mod come;
mod lack;
pub mod next;
mod taken;

// Passed on, so that a crate above need not list these.
pub use bc_settle;
