//! Room for deeds, which a seat asks for before the first of a sequence: so no want of memory comes
//! between them.
ghost use Rattle.std.specs.Prelude.{◌≡◌, ◌+◌, [], OnOk, OnErr};
ghost use Rattle.bc_hand.specs.bc_machine.Note.{IsFirmer};
ghost use Rattle.bc_hand.specs.Seats.{Works, note};
ghost use Rattle.bc_deed.specs.Flushed.{HasDone};

use bc_disk::disk::Disk;
use bc_hand::bc_machine::machine::{CoreParts, CoreSeat};
use bc_hand::hand::Hand;
use bc_seats::seats;
use std::alloc::AllocError;
use std::sync::Wait;

/// Makes room for so many deeds of the seat. At `Err` there was no memory, and it has the room that
/// it had.
pub fn promise<C: Disk, B: Disk, R: Wait>(
    rt: &R,
    parts: &CoreParts<C, B>,
    seat: &mut CoreSeat<C, B>,
    hand: &mut Hand<C, B>,
    deeds: u32,
) -> Result<(), AllocError>
    requires works { Works C.facts B.facts parts.now seat.old hand.old }
    ensures works { Works C.facts B.facts parts.now seat.new hand.new }
    ensures hand { hand.new ≡ hand.old }
    ensures done { HasDone C.facts B.facts [] seat.old seat.new }
    ensures note { IsFirmer (note C.facts B.facts seat.old) (note C.facts B.facts seat.new) }
    ensures heard { seat.new.heard ≡ seat.old.heard }
    ensures ok { OnOk result (seat.new.promises ≡ seat.old.promises + deeds) }
    ensures err { OnErr result (seat.new.promises ≡ seat.old.promises) }
{
    let _ = hand;
    seats::promise(rt, parts, seat, deeds)
}
