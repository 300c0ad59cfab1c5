//! The book of a run: the list of its events, each of which is put behind the others as it is
//! committed.
//!
//! Every promise of a run is made of this one list, so the book keeps all of it. A run makes many
//! events, and most of them are alike: a claim, a call of a device, an entry of the history. Were
//! the list one of whole events, each would take the room of the largest, which has the change of a
//! tree in it, and a value that an event has and the history too would be there twice. So the book
//! keeps a short record for each event, the history, and lists of what a record has no room for:
//! a record names its place there. `pass` says what is kept, `filed` how an event is taken apart,
//! and `events_in` of `specs/Pass` how it is told again; `halt` says what a failed call halts.
//!
//! Putting an event takes no memory, since it is put after its device call was made, when no error
//! could be answered any more: the room is made before.
#![tactic(auto)]

pub mod book;
pub(crate) mod filed;
pub mod halt;
pub mod pass;
#[cfg(test)]
mod tests;
