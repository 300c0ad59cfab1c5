//! The step that acknowledges a forced write past the cache.
ghost use Rattle.std.specs.Prelude.{◌≡◌, ◌<◌, true, false, None, Some, OnOk, OnErr, IfErr};
ghost use Rattle.bc_around.specs.Owed.{IsLastDurable};
ghost use Rattle.bc_flush.specs.bc_deed.Asked.{IsHalted, IsLast};
ghost use Rattle.bc_events.specs.declared.event.Deed.{Deed};
ghost use Rattle.bc_flush.specs.bc_hand.Seats.{Did, Works, note, world};
ghost use Rattle.bc_flush.specs.bc_machine.Plain.{worker_of};
ghost use Rattle.bc_flush.specs.bc_machine.World.{FromEach, are_plain};

use bc_disk::disk::Disk;
use bc_events::event::{Deed, LineNumber};
use bc_flush::bc_hand::error::StepError;
use bc_flush::bc_hand::hand::Hand;
use bc_flush::bc_hand::seat::commit;
use bc_flush::bc_machine::machine::{CoreParts, CoreSeat};
use std::sync::Wait;

/// Acknowledges a forced write in a run with a cache: the sectors from `first` on of the seat's
/// last write, since which a barrier of the backing device was made. What that write rests on is
/// durable.
///
/// `Err` names the device that halted the run; then nothing is done.
pub fn durable<C: Disk, B: Disk, R: Wait>(
    rt: &R,
    parts: &CoreParts<C, B>,
    seat: &mut CoreSeat<C, B>,
    hand: &mut Hand<C, B>,
    of: LineNumber,
    first: u64,
    count: u32,
) -> Result<(), StepError>
    requires works { Works C.facts B.facts parts.now seat.old hand.old }
    requires cached { are_plain C.facts B.facts parts.now.run.start ≡ false }
    requires promise { 0 < seat.old.promises }
    requires line { worker_of seat.old.first ≡ of.worker }
    requires exclusive { (note C.facts B.facts seat.old).range.exclusive ≡ true }
    requires wrote { (note C.facts B.facts seat.old).wrote ≡ true }
    requires last { IsLast (note C.facts B.facts seat.old).last of.line first count }
    requires durable { FromEach (world C.facts B.facts seat.old) (IsLastDurable seat.old.first) }
    ensures works { Works C.facts B.facts parts.now seat.new hand.new }
    ensures hand { hand.new ≡ hand.old }
    ensures ok { OnOk result (Did C.facts B.facts (Some (Deed.Durable of first count)) seat.old
        seat.new) }
    ensures err { OnErr result (Did C.facts B.facts None seat.old seat.new) }
    ensures cause { IfErr result (λ error. IsHalted error seat.new.seen) }
{
    let _ = hand;
    if let Some(device) = seat.heard() {
        return Err(StepError::Halted(device));
    }
    match commit(rt, parts, seat, Deed::Durable { of, first, count }) {
        Ok(()) => Ok(()),
        Err(device) => Err(StepError::Halted(device)),
    }
}
