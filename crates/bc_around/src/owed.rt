//! Whether the journal is durable.
ghost use Rattle.std.specs.Prelude.{◌≡◌, ℕ, false, IsTrue, MatchBool};
ghost use Rattle.bc_around.specs.Owed.{HasOwed, Owes, OwesNone};
ghost use Rattle.bc_flush.specs.Durable.{AreDurable, HaveComeIn};
ghost use Rattle.bc_flush.specs.bc_hand.Seats.{Works, core, empty, world};
ghost use Rattle.bc_flush.specs.bc_machine.World.{FromEach, Origin, are_plain};
ghost use Rattle.bc_seats.specs.Seats.{Waited};

use bc_disk::disk::Disk;
use bc_flush::bc_hand::hand::Hand;
use bc_flush::bc_hand::lend::{borrow_journal, return_journal};
use bc_flush::bc_machine::machine::{CoreParts, CoreSeat};
use bc_journal::Journal;
use std::sync::Wait;

// Whether no key waits in it, and no entry is sealed.
fn owes_none(journal: &Journal) -> bool
    ensures { MatchBool result (OwesNone journal.now) (Owes journal.now) }
{
    if journal.sealed().is_some() {
        return false;
    }
    journal.waiting().is_empty()
}

/// Whether all that had come into the index is durable. Where it isn't, keys wait for an entry or
/// one is sealed; nothing is done about it.
pub(crate) fn is_durable<C: Disk + Drop, B: Disk + Drop, R: Wait>(
    rt: &R,
    parts: &CoreParts<C, B>,
    seat: &mut CoreSeat<C, B>,
    hand: &mut Hand<C, B>,
) -> bool
    requires works { Works C.facts B.facts parts.now seat.old hand.old }
    requires cached { are_plain C.facts B.facts parts.now.run.start ≡ false }
    requires empty { hand.old ≡ empty }
    ensures works { Works C.facts B.facts parts.now seat.new hand.new }
    ensures empty { hand.new ≡ empty }
    ensures waited { Waited (core C.facts B.facts) seat.old seat.new }
    ensures durable { IsTrue result → (n : Origin → ℕ)
        → FromEach (world C.facts B.facts seat.old) (HaveComeIn n)
        → FromEach (world C.facts B.facts seat.new) (AreDurable n) }
    ensures owed { result ≡ false → HasOwed C.facts B.facts seat.old seat.new }
{
    let (journal, _) = borrow_journal(rt, parts, seat, hand);
    let none = owes_none(journal.get());
    return_journal(parts, seat, hand, journal, true);
    none
}
