//! The step that acknowledges a flush.
ghost use Rattle.std.specs.Prelude.{◌≡◌, ◌<◌, true, false, None, Some, OnOk, OnErr, IfErr};
ghost use Rattle.bc_entry.specs.bc_deed.Asked.{IsHalted};
ghost use Rattle.bc_events.specs.declared.event.Deed.{Deed};
ghost use Rattle.bc_flush.specs.Durable.{IsFlushed};
ghost use Rattle.bc_entry.specs.bc_hand.Seats.{Did, Works, note, world};
ghost use Rattle.bc_entry.specs.bc_machine.Plain.{worker_of};
ghost use Rattle.bc_entry.specs.bc_machine.World.{FromEach, are_plain};

use bc_disk::disk::Disk;
use bc_entry::bc_hand::error::StepError;
use bc_entry::bc_hand::hand::Hand;
use bc_entry::bc_hand::seat::commit;
use bc_entry::bc_machine::machine::{CoreParts, CoreSeat};
use bc_events::event::{Deed, LineNumber};
use std::sync::Wait;

/// Acknowledges the flush of a line in a run with a cache. All that had come into the index when it
/// began is durable, and a barrier of the backing device was made since.
///
/// `Err` names the device that halted the run; then nothing is done.
pub fn flush_done<C: Disk, B: Disk, R: Wait>(
    rt: &R,
    parts: &CoreParts<C, B>,
    seat: &mut CoreSeat<C, B>,
    hand: &mut Hand<C, B>,
    of: LineNumber,
) -> Result<(), StepError>
    requires works { Works C.facts B.facts parts.now seat.old hand.old }
    requires cached { are_plain C.facts B.facts parts.now.run.start ≡ false }
    requires promise { 0 < seat.old.promises }
    requires line { worker_of seat.old.first ≡ of.worker }
    requires going { (note C.facts B.facts seat.old).flush.going ≡ true }
    requires its { (note C.facts B.facts seat.old).flush.line ≡ of.line }
    requires firm { (note C.facts B.facts seat.old).flush.firm ≡ true }
    requires flushed { FromEach (world C.facts B.facts seat.old) (IsFlushed seat.old.first) }
    ensures works { Works C.facts B.facts parts.now seat.new hand.new }
    ensures hand { hand.new ≡ hand.old }
    ensures ok { OnOk result (Did C.facts B.facts (Some (Deed.FlushDone of)) seat.old seat.new) }
    ensures err { OnErr result (Did C.facts B.facts None seat.old seat.new) }
    ensures cause { IfErr result (λ error. IsHalted error seat.new.seen) }
{
    let _ = hand;
    if let Some(device) = seat.heard() {
        return Err(StepError::Halted(device));
    }
    match commit(rt, parts, seat, Deed::FlushDone { of }) {
        Ok(()) => Ok(()),
        Err(device) => Err(StepError::Halted(device)),
    }
}
