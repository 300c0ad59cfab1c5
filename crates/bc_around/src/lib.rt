//! Writes past the cache.
//!
//! A write goes to the backing device alone where no key stands over its sectors, in any index that
//! a crash may still leave: else a crash could show what the write replaced. So its seat has looked
//! the sectors up under its exclusive claim, or has taken their keys away, and what the index was
//! by then is durable.
//!
//! Where keys wait for an entry of the journal when a seat has looked, it lets its claim go, puts
//! the entry, and looks once more: so no claim is held while the journal is written.
//!
//! Read `specs/` in this order: Bare, Look, Owed, Past, Alone, Line.
#![tactic(auto)]

pub mod line;
mod look;
mod owed;
pub mod past;
pub mod piece;
pub mod said;
mod under;
pub mod write;
