//! The answer to a read in a run with a cache.
ghost use Rattle.std.specs.Prelude.{◌≡◌, ◌<◌, ℕ, false, None, Some, Option, length, OnOk, OnErr, IfErr};
ghost use Rattle.bc_bucket.specs.Buckets.{Buckets};
ghost use Rattle.bc_deed.specs.Asked.{IsHaltedOr, IsWithin};
ghost use Rattle.bc_events.specs.declared.event.Deed.{Deed};
ghost use Rattle.bc_deed.specs.bc_hand.Seats.{Works, Did, note};
ghost use Rattle.bc_looks.specs.bc_machine.Plain.{worker_of};
ghost use Rattle.bc_looks.specs.bc_machine.World.{are_plain};
ghost use Rattle.bc_looks.specs.bc_machine.declared.part.BucketsPart.{BucketsPart};
ghost use Rattle.bc_model.specs.Sector.{Gives, Value};
ghost use Rattle.bc_node.specs.Leaf.{Leaf};
ghost use Rattle.bc_sight.specs.Sight.{Knows, MayAnswer, OfClaim};

use bc_deed::bc_hand::error::StepError;
use bc_deed::bc_hand::hand::Hand;
use bc_deed::bc_hand::seat::commit;
use bc_disk::disk::Disk;
use bc_events::event::{Deed, LineNumber};
use bc_looks::bc_machine::machine::{CoreParts, CoreSeat};
use bc_model::values::Values;
use std::sync::Wait;

/// Answers a line with what was read for the sectors from `first` on under the seat's look: from the
/// backing device where that has what they show, or from places of the cache device whose buckets,
/// as those in hand tell, were not used anew since.
///
/// `Err` comes from want of memory, or names the device that halted the run; then nothing is done.
pub fn answer<C: Disk, B: Disk, R: Wait>(
    rt: &R,
    parts: &CoreParts<C, B>,
    seat: &mut CoreSeat<C, B>,
    hand: &mut Hand<C, B>,
    of: LineNumber,
    first: u64,
    values: &Values,
) -> Result<(), StepError>
    requires works { Works C.facts B.facts parts.now seat.old hand.old }
    requires cached { are_plain C.facts B.facts parts.now.run.start ≡ false }
    requires promise { 0 < seat.old.promises }
    requires line { worker_of seat.old.first ≡ of.worker }
    requires covered { IsWithin (note C.facts B.facts seat.old).range first (length values.now) }
    requires known { (leaf : Leaf) × (before : Buckets) × (read : (ℕ → Option Value)) × (now : BucketsPart)
        × OfClaim C.facts B.facts seat.old (λ o c. Knows o leaf before read c) × (hand.old.buckets ≡ Some now)
        × Gives first values.now (λ s value. MayAnswer leaf before now.buckets (read s)
        ((note C.facts B.facts seat.old).read s) s value) }
    ensures works { Works C.facts B.facts parts.now seat.new hand.new }
    ensures hand { hand.new ≡ hand.old }
    ensures ok { OnOk result (Did C.facts B.facts (Some (Deed.Answer of first values.now)) seat.old seat.new) }
    ensures err { OnErr result (Did C.facts B.facts None seat.old seat.new) }
    ensures cause { IfErr result (λ error. IsHaltedOr error seat.new.seen) }
{
    let _ = hand;
    if let Some(device) = seat.heard() {
        return Err(StepError::Halted(device));
    }
    let Ok(values) = values.copy() else {
        return Err(StepError::Memory);
    };
    match commit(rt, parts, seat, Deed::Answer { of, first, values }) {
        Ok(()) => Ok(()),
        Err(device) => Err(StepError::Halted(device)),
    }
}
