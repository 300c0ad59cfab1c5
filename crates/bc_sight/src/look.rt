//! A look at the leaf in hand.
ghost use Rattle.std.specs.Prelude.{◌≡◌, ◌<◌, ℕ, false, None, Some, OnOk, OnErr, IfErr};
ghost use Rattle.bc_cache.specs.declared.slots.Cached.{Cached};
ghost use Rattle.bc_events.specs.declared.event.Deed.{Deed};
ghost use Rattle.bc_looks.specs.bc_machine.World.{are_plain};
ghost use Rattle.bc_looks.specs.bc_machine.declared.part.BucketsPart.{BucketsPart};
ghost use Rattle.bc_deed.specs.bc_hand.Seats.{Works, Did, note};
ghost use Rattle.bc_deed.specs.Asked.{IsHalted};
ghost use Rattle.bc_sight.specs.Sight.{HasLeaf, Knows, OfClaim};

use bc_deed::bc_hand::error::StepError;
use bc_deed::bc_hand::hand::Hand;
use bc_deed::bc_hand::seat::commit;
use bc_disk::disk::Disk;
use bc_events::event::Deed;
use bc_looks::bc_machine::machine::{CoreParts, CoreSeat};
use std::sync::Wait;

/// Looks up the sectors of the seat's claim in the leaf of this number, which is in hand with the
/// buckets and has all of them. From then on the seat knows where each points, and of which use of
/// its bucket a pointer is; what it read before doesn't count any more.
///
/// `Err` names the device that halted the run; then nothing is done.
pub fn look<C: Disk, B: Disk, R: Wait>(
    rt: &R,
    parts: &CoreParts<C, B>,
    seat: &mut CoreSeat<C, B>,
    hand: &mut Hand<C, B>,
    leaf: u32,
) -> Result<(), StepError>
    requires works { Works C.facts B.facts parts.now seat.old hand.old }
    requires cached { are_plain C.facts B.facts parts.now.run.start ≡ false }
    requires promise { 0 < seat.old.promises }
    requires leaf { (slot : ℕ) × (cached : Cached) × HasLeaf hand.old leaf
        (note C.facts B.facts seat.old).range.first (note C.facts B.facts seat.old).range.count slot cached }
    ensures works { Works C.facts B.facts parts.now seat.new hand.new }
    ensures hand { hand.new ≡ hand.old }
    ensures ok { OnOk result (Did C.facts B.facts (Some (Deed.Look leaf)) seat.old seat.new) }
    ensures knows { OnOk result ((slot : ℕ) (cached : Cached) (b : BucketsPart) → HasLeaf hand.old leaf
        (note C.facts B.facts seat.old).range.first (note C.facts B.facts seat.old).range.count slot cached
        → hand.old.buckets ≡ Some b
        → OfClaim C.facts B.facts seat.new (λ o c. Knows o cached.leaf b.buckets (λ _. None) c)) }
    ensures halted { IfErr result (λ error. IsHalted error seat.new.seen) }
    ensures err { OnErr result (Did C.facts B.facts None seat.old seat.new) }
{
    if let Some(device) = seat.heard() {
        return Err(StepError::Halted(device));
    }
    match commit(rt, parts, seat, Deed::Look { leaf }) {
        Ok(()) => Ok(()),
        Err(device) => Err(StepError::Halted(device)),
    }
}
