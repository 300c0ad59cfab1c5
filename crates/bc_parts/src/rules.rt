//! The rule of the table, and what each kind of step tells the seat that makes it.
use crate::machine::Machine;
use crate::table::{Slot, Start, View};
use atomic_table::{Join, Play, Split, TableRule};
use std::marker::PhantomData;

/// There is one list of events, for which all parts stand.
pub struct Rules<M> {
    machine: PhantomData<M>,
}

impl<M: Machine> TableRule<Slot<M>, View<M>, Start<M::Part>> for Rules<M> {
    ghost use Rattle.bc_parts.specs.Rule.{Kept, unaware};

    ghost holds = { λ key. Kept M.Machine key.parts.value.items key.seats };

    ghost first = { unaware };
}

/// The word of a slot becomes 1 if it was 0. The slot is then in hand.
pub struct Claim<M> {
    machine: PhantomData<M>,
}

impl<M: Machine> Play<Slot<M>, View<M>> for Claim<M> {
    ghost use Rattle.bc_parts.specs.Steps.{claimed};

    ghost then = { claimed M.Machine };
}

/// The emptied slot goes home, and stays in hand.
pub struct Lay<M> {
    machine: PhantomData<M>,
}

impl<M: Machine> Play<Slot<M>, View<M>> for Lay<M> {
    ghost use Rattle.bc_parts.specs.Steps.{laid};

    ghost then = { laid M.Machine };
}

/// The empty slot of a part in hand comes, to be filled.
pub struct Fetch<M> {
    machine: PhantomData<M>,
}

impl<M: Machine> Play<Slot<M>, View<M>> for Fetch<M> {
    ghost use Rattle.bc_parts.specs.Steps.{fetched};

    ghost then = { fetched M.Machine };
}

/// The filled slot goes home, and its word becomes 0.
pub struct Clear<M> {
    machine: PhantomData<M>,
}

impl<M: Machine> Play<Slot<M>, View<M>> for Clear<M> {
    ghost use Rattle.bc_parts.specs.Steps.{filled};

    ghost then = { filled M.Machine };
}

/// The count of the events is read.
pub struct Look<M> {
    machine: PhantomData<M>,
}

impl<M: Machine> Play<Slot<M>, View<M>> for Look<M> {
    ghost use Rattle.bc_parts.specs.Steps.{looked};

    ghost then = { looked M.Machine };
}

/// The count rises by one, for the event that was put into the Book.
pub struct Commit<M> {
    machine: PhantomData<M>,
}

impl<M: Machine> Play<Slot<M>, View<M>> for Commit<M> {
    ghost use Rattle.bc_parts.specs.Steps.{committed};

    ghost then = { committed M.Machine };
}

/// The seat notes for how many events more the Book was given room.
pub struct Promise<M> {
    machine: PhantomData<M>,
}

impl<M: Machine> Play<Slot<M>, View<M>> for Promise<M> {
    ghost use Rattle.bc_parts.specs.Steps.{promised};

    ghost then = { promised M.Machine };
}

/// The seat notes at which number it is to be split.
pub struct Mark<M> {
    machine: PhantomData<M>,
}

impl<M: Machine> Play<Slot<M>, View<M>> for Mark<M> {
    ghost use Rattle.bc_parts.specs.Steps.{marked};

    ghost then = { marked M.Machine };
}

/// A seat is split at the number that it noted, and another is joined to it.
pub struct Halves<M> {
    machine: PhantomData<M>,
}

impl<M: Machine> Split<View<M>> for Halves<M> {
    ghost use Rattle.bc_parts.specs.Steps.{below, above};

    ghost left = { below };

    ghost right = { above };
}

impl<M: Machine> Join<View<M>> for Halves<M> {
    ghost use Rattle.bc_parts.specs.Rule.{spent};
    ghost use Rattle.bc_parts.specs.Steps.{joining};

    ghost both = { joining };

    ghost spent = { spent };
}
