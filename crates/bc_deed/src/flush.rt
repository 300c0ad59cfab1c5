//! The flush of a line, as the steps that it takes.
ghost use Rattle.std.specs.Prelude.{◌≡◌, ◌≤◌, true, OnOk, IfErr};
ghost use Rattle.bc_hand.specs.bc_machine.Plain.{worker_of};
ghost use Rattle.bc_hand.specs.bc_machine.World.{are_plain};
ghost use Rattle.bc_hand.specs.Seats.{Works, kinds, note};
ghost use Rattle.bc_deed.specs.Flushed.{HasFlushed, HasStopped};

use crate::backing::backing_barrier;
use crate::said::{flush_done, flush_from};
use bc_disk::disk::Disk;
use bc_events::event::LineNumber;
use bc_hand::bc_machine::machine::{CoreParts, CoreSeat};
use bc_hand::error::StepError;
use bc_hand::hand::Hand;
use std::sync::Wait;

/// Flushes for a line over the backing device alone: begins the flush, makes one barrier, and
/// acknowledges it. What stands after a refusal is told by the seat's own deeds up to there.
pub fn flush<C: Disk + Drop, B: Disk + Drop, R: Wait>(
    rt: &R,
    parts: &CoreParts<C, B>,
    seat: &mut CoreSeat<C, B>,
    hand: &mut Hand<C, B>,
    of: LineNumber,
) -> Result<(), StepError>
    requires works { Works C.facts B.facts parts.now seat.old hand.old }
    requires plain { are_plain C.facts B.facts parts.now.run.start ≡ true }
    requires promise { 3 ≤ seat.old.promises }
    requires line { worker_of seat.old.first ≡ of.worker }
    ensures works { Works C.facts B.facts parts.now seat.new hand.new }
    ensures hand { kinds hand.new ≡ kinds hand.old }
    ensures claim { (note C.facts B.facts seat.new).range ≡ (note C.facts B.facts seat.old).range }
    ensures ok { OnOk result (HasFlushed C.facts B.facts of seat.old seat.new) }
    ensures err { IfErr result (λ error. HasStopped C.facts B.facts error of seat.old seat.new) }
{
    match flush_from(rt, parts, seat, hand, of) {
        Ok(()) => {}
        Err(error) => return Err(error),
    }
    match backing_barrier(rt, parts, seat, hand) {
        Ok(()) => {}
        Err(error) => return Err(error),
    }
    flush_done(rt, parts, seat, hand, of)
}
