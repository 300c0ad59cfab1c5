//! How far the journal is durable.
ghost use Rattle.std.specs.Prelude.{◌≡◌, false, None};
ghost use Rattle.bc_append.specs.Durable.{IsDurableTo, IsToldBy};
ghost use Rattle.bc_place.specs.bc_hand.Seats.{HasNoneBehindJournal, Works, core, kinds, world};
ghost use Rattle.bc_place.specs.bc_machine.World.{FromEach, are_plain};
ghost use Rattle.bc_seats.specs.Seats.{Waited};

use bc_disk::disk::Disk;
use bc_place::bc_hand::hand::Hand;
use bc_place::bc_hand::lend::{borrow_journal, return_journal};
use bc_place::bc_machine::machine::{CoreParts, CoreSeat};
use std::sync::Wait;

/// The number of the newest durable entry. The seat knows from then on that all keys up to it are
/// durable.
pub fn durable_entry<C: Disk + Drop, B: Disk + Drop, R: Wait>(
    rt: &R,
    parts: &CoreParts<C, B>,
    seat: &mut CoreSeat<C, B>,
    hand: &mut Hand<C, B>,
) -> u64
    requires works { Works C.facts B.facts parts.now seat.old hand.old }
    requires cached { are_plain C.facts B.facts parts.now.run.start ≡ false }
    requires order { hand.old.journal ≡ None → HasNoneBehindJournal hand.old }
    ensures works { Works C.facts B.facts parts.now seat.new hand.new }
    ensures waited { Waited (core C.facts B.facts) seat.old seat.new }
    ensures heard { seat.new.heard ≡ seat.old.heard }
    ensures hand { kinds hand.new ≡ kinds hand.old }
    ensures rest { hand.new ≡ record hand.old { journal = hand.new.journal } }
    ensures knows { FromEach (world C.facts B.facts seat.new) (IsDurableTo result) }
    ensures told { IsToldBy result (world C.facts B.facts seat.new) }
{
    let (journal, taken) = borrow_journal(rt, parts, seat, hand);
    let number = journal.get().durable();
    return_journal(parts, seat, hand, journal, taken);
    number
}
