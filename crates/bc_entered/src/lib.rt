//! What a crash leaves of a pair while it's opened and closed, and the writing of an opening's entry.
//!
//! A pair that is opened is changed before it is served: an entry of the new run goes into the
//! journal, and the backing device says that its cache may have what it lacks. A power cut may come
//! on the way: the entry is there in part, the backing device says the one state or the other. The
//! laws here say of two images, whatever of the entry and of the state they have, that they are a
//! sound pair which shows what the pair showed. So a program that does no more than these two
//! writes, in whatever order and however far it gets, loses nothing.
//!
//! `enter` writes the entry, and its contract says so of whatever it leaves.
//!
//! Read `specs/` in this order: Entry, Laws, Enter.
#![tactic(auto)]

pub mod laws;
mod write;

pub use write::{EnterError, enter};

#[cfg(test)]
mod tests;
