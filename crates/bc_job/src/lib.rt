//! Requests: what a line of a trace asks of a run, served by the steps of one seat.
//!
//! A request is cut at each multiple of 256 sectors, and each piece is served under one claim: a
//! read under one that others may share, a write under one of its own. What a request promises is
//! said by the deeds of its seat, each of them, in order: so a device call more, one less, or one
//! tried again after a failure is another request.
//!
//! A write over the backing device alone, from its claim to a crash: the seat claims the piece for
//! itself, so that no other request reads there while the device has old sectors and new ones;
//! writes it by one call, behind which the write stands in the history; and lets the claim go. From
//! a good call on reads find the new values, and a crash leaves of each sector the old or the new
//! one, until a barrier. A forced write makes that barrier under the claim, so that no other write
//! of these sectors comes between, and is acknowledged behind it. Room for all deeds is made before
//! the claim, and the memory for the values is taken before the call, so that none is missed behind
//! it.
#![tactic(auto)]

pub mod claims;
pub mod error;
pub mod flush;
pub mod job;
pub mod piece;
pub mod read;
pub mod stock;
pub mod write;

// Passed on, so that a crate above need not list these.
pub use bc_deed;
pub use bc_deed::{bc_hand, bc_machine};
