//! Writes through the cache: a piece of a line comes into the cache, and not to the backing device.
//!
//! A write that went to the backing device at once would cost a call of it for each line. So the
//! values go to fresh places of the cache device, and dirty keys that name these come into the
//! index; the backing device gets them later, or never where they are written over first. Until an
//! entry of the journal with the keys is durable a crash takes the write back, as it may with any
//! write that no barrier came behind.
//!
//! A piece is claimed by the seat alone, so that nobody reads there while the keys come in; its
//! values are put to places, with no part in hand; then the leaf of its sectors, the buckets and
//! the journal are taken, and one event makes the write part of the history. The values stand
//! before any key names them: so what fails on the way leaves the index as it was, and the places
//! are let go. Where a part has no room for the keys, the piece isn't written either, and the
//! outcome says what lacks room: for who makes it, and writes the piece again.
//!
//! A line is cut at each multiple of 256 sectors, where leaves of the index may end, so that one
//! leaf has all sectors of a piece.
//!
//! Read `specs/` in this order: Room, Put, Claimed, Piece.
#![tactic(auto)]

pub mod claimed;
pub mod error;
pub mod piece;
pub mod put;
pub mod room;
pub mod taken;

// Passed on, so that a crate above need not list these.
pub use bc_job::{bc_hand, bc_machine};
pub use bc_request;
pub use bc_request::{bc_fetch, bc_reader};
pub use bc_room;
pub use bc_stored::bc_insert;
