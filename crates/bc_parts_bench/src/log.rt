//! The Book that both runs fill, and the machine that adds to it.
ghost use Rattle.std.specs.Prelude.{◌≡◌, ℕ, ◌+◌, ◌<◌, ◌≤◌, [], false, None, Ok};
ghost use Rattle.std.specs.Prelude.{vec_len, vec_capacity};
ghost use Rattle.bc_parts_bench.specs.declared.TheConstants.{SEATS};

use bc_parts::machine::Machine;
use std::alloc::{AllocError, Global};
use std::convert::Infallible;

/// An event. It carries the number of the seat that adds it, and changes no part.
#[derive(Clone, Copy, Drop)]
pub struct Entry {
    pub seat: u32,
}

/// The events so far, with room for `spare` more.
#[derive(Drop)]
pub struct Log {
    pub entries: Vec<Entry>,
    pub spare: usize,
    ghost room: { vec_len entries + spare ≤ vec_capacity entries },
}

impl Log {
    /// A log without events, and without room for any.
    pub fn new(alloc: Global) -> Log
        ensures { (result.entries.items ≡ []) × (result.spare ≡ 0) }
    {
        Log {
            entries: Vec::new(alloc),
            spare: 0,
        }
    }
}

/// A machine without parts, whose events only add to the log. It never stops.
pub struct Logging;

impl Machine for Logging {
    type Part = ();

    type Event = Entry;

    type Book = Log;

    type Stop = Infallible;

    ghost State = { Unit {0} };

    ghost opening = { λ _. tt };

    ghost after = { λ _ _. tt };

    ghost enabled = { λ _ e. e.seat < SEATS };

    ghost stands = { λ _ _ _. Unit {0} };

    ghost changes = { λ _ _ _. false };

    ghost number = { λ e. e.seat };

    ghost events = { λ b. b.entries.items };

    ghost room = { λ b. b.spare };

    ghost verdict = { λ _ _. Ok tt };

    ghost stop = { λ _. None };

    ghost frame = { λ _ _ _ _ _ _ _ _ _. tt };

    ghost stays = { λ _ _ _ is. is };

    ghost names = { λ _ _ s _. elim s [ ] };

    fn put_event(book: &mut Log, event: Entry) {
        book.spare -= 1;
        book.entries.push_reserved(event);
    }

    fn reserve(book: &mut Log, more: usize) -> Result<(), AllocError> {
        let spare = book.spare.checked_add(more).ok_or(AllocError)?;
        book.entries.reserve(spare)?;
        book.spare = spare;
        Ok(())
    }

    fn admits(_book: &Log, _event: &Entry) -> Result<(), Infallible> {
        Ok(())
    }

    fn stopped(_book: &Log) -> Option<Infallible> {
        None
    }
}
