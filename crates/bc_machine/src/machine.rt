//! The core as a machine of parts.
ghost use Rattle.std.specs.Prelude.{◌≡◌, ◌+◌, ℕ};
ghost use Rattle.bc_events.specs.Columns.{verdict_of, halt_of};
ghost use Rattle.bc_machine.specs.World.{World, opening, after, IsEnabled, changes, StandsAs};
ghost use Rattle.bc_machine.specs.Frame.{stays_halted, names_halt};
ghost use Rattle.bc_machine.specs.Standing.{frames};

use crate::part::CorePart;
use bc_book::book::Book;
use bc_disk::disk::{Device, Disk};
use bc_events::event::Event;
use bc_parts::machine::Machine;
use bc_parts::parts::Parts;
use bc_parts::seat::Seat;
use std::alloc::AllocError;
use std::marker::PhantomData;

/// The machine of a run over a cache device of type `C` and a backing device of type `B`.
#[derive(Drop)]
pub struct Core<C, B> {
    cache: PhantomData<C>,
    backing: PhantomData<B>,
}

impl<C: Disk, B: Disk> Machine for Core<C, B> {
    type Part = CorePart<C, B>;

    type Event = Event;

    type Book = Book;

    type Stop = Device;

    ghost State = { World };

    ghost opening = { λ ps. opening C.facts B.facts ps };

    ghost after = { after };

    ghost enabled = { IsEnabled };

    ghost stands = { λ k p x. StandsAs C.facts B.facts k p x };

    ghost changes = { changes };

    ghost number = { λ e. e.seat };

    ghost events = { λ b. b.events };

    ghost room = { λ b. b.room };

    ghost verdict = { verdict_of };

    ghost stop = { halt_of };

    ghost frame = { λ start es k p e run may same is.
        frames C.facts B.facts start es k p e run may same is };

    ghost stays = { λ es e d is. stays_halted es e d is };

    ghost names = { λ es e d is. names_halt es e d is };

    fn put_event(book: &mut Book, event: Event) {
        book.put_event(event);
        // The clause on few events holds of any book whose length a word counts.
        let _count = book.count();
    }

    fn reserve(book: &mut Book, more: usize) -> Result<(), AllocError> {
        book.reserve(more)
    }

    fn admits(book: &Book, event: &Event) -> Result<(), Device> {
        book.admits(event)
    }

    fn stopped(book: &Book) -> Option<Device> {
        book.halted()
    }
}

/// The parts of a run.
pub type CoreParts<C, B> = Parts<Core<C, B>>;

/// A seat of a run.
pub type CoreSeat<C, B> = Seat<Core<C, B>>;
