//! The step that takes a bucket.
ghost use Rattle.std.specs.Prelude.{◌≡◌, ◌+◌, ◌<◌, ◌≤◌, ◌==◌, false, None, Some, IfOk, IfErr, OnErr};
ghost use Rattle.bc_held.specs.Held.{IsHeldFor, IsVacantIn};
ghost use Rattle.bc_held.specs.Taken.{HasTakenOr, IsNewBucket, KeepsHeld, TiesBuckets, TookOr};
ghost use Rattle.bc_parts.specs.Seat.{Holds};
ghost use Rattle.bc_place.specs.Place.{HasBefore};
ghost use Rattle.bc_place.specs.Written.{KeepsPlaces};
ghost use Rattle.bc_place.specs.bc_deed.Asked.{IsHalted};
ghost use Rattle.bc_place.specs.bc_hand.Seats.{core, world, kinds, IsCoreSeat, Works, Did, HasNoneBehindBuckets};
ghost use Rattle.bc_place.specs.bc_machine.World.{FromEach, AreBuckets, are_plain};
ghost use Rattle.bc_seats.specs.Seats.{Kept};

use crate::held::{HeldBucket, Want};
use crate::lent::lend_buckets;
use crate::part::{hold_next, next_bucket};
use bc_alloc::NoBucket;
use bc_disk::disk::Disk;
use bc_events::event::Deed;
use bc_place::bc_hand::error::StepError;
use bc_place::bc_hand::hand::Hand;
use bc_place::bc_hand::lend::return_buckets;
use bc_place::bc_hand::seat::commit;
use bc_place::bc_machine::machine::{CoreParts, CoreSeat};
use bc_place::bc_machine::part::BucketsPart;
use std::sync::Wait;

/// Takes a bucket for priority sets, for data that moves, or for a node: the first one of the plain
/// list, or where that is empty the first one of the list that is asked then, which for a node is
/// the tree's, and for one that is written anew the one for moving. `before` buckets of the device
/// lie before the journal's.
///
/// From then on the seat holds it: nobody else writes there, raises it or names it. As it was taken,
/// no node lay in it, and while the seat keeps the tree in hand none comes to lie there.
///
/// An inner `Err` says that both lists are empty, with the name of the second one and with their
/// lengths; then nothing is done. `Halted` names the device that halted the run; nothing is done then
/// either. Whatever comes, the seat knows of the places and of the other buckets that it holds what
/// it knew; and buckets that were in hand are there still, with their chain and round as they were.
pub fn take_bucket<C: Disk + Drop, B: Disk + Drop, R: Wait>(
    rt: &R,
    parts: &CoreParts<C, B>,
    seat: &mut CoreSeat<C, B>,
    hand: &mut Hand<C, B>,
    before: u32,
    want: Want,
) -> Result<Result<HeldBucket, NoBucket>, StepError>
    requires works { Works C.facts B.facts parts.now seat.old hand.old }
    requires cached { are_plain C.facts B.facts parts.now.run.start ≡ false }
    requires promise { 0 < seat.old.promises }
    requires order { hand.old.buckets ≡ None → HasNoneBehindBuckets hand.old }
    requires before { FromEach (world C.facts B.facts seat.old) (HasBefore before) }
    ensures works { Works C.facts B.facts parts.now seat.new hand.new }
    ensures hand { kinds hand.new ≡ kinds hand.old }
    ensures rest { hand.new ≡ record hand.old { buckets = hand.new.buckets } }
    ensures ok { IfOk result (λ answer. HasTakenOr C.facts B.facts before want answer
        seat.old seat.new) }
    ensures part { IfOk result (λ answer. TiesBuckets hand.old hand.new (λ p q.
        TookOr C.facts B.facts before want answer p q seat.old seat.new)) }
    ensures none { IfOk result (λ answer. OnErr answer (hand.new ≡ hand.old)) }
    ensures same { OnErr result (hand.new ≡ hand.old) }
    ensures knows { IfOk result (λ answer. IfOk answer (λ b.
        FromEach (world C.facts B.facts seat.new) (IsHeldFor seat.new.first b))) }
    ensures vacant { IfOk result (λ answer. IfOk answer (λ b.
        FromEach (world C.facts B.facts seat.new) (IsVacantIn b))) }
    ensures other { IfOk result (λ answer. IfOk answer (λ b.
        IsNewBucket C.facts B.facts b seat.old seat.new)) }
    ensures err { OnErr result (Did C.facts B.facts None seat.old seat.new) }
    ensures cause { IfErr result (λ error. IsHalted error seat.new.seen) }
    ensures left { seat.old.promises ≤ seat.new.promises + 1 }
    ensures keeps { KeepsHeld C.facts B.facts seat.old seat.new }
    ensures places { KeepsPlaces C.facts B.facts seat.old seat.new }
{
    if let Some(device) = seat.heard() {
        return Err(StepError::Halted(device));
    }
    let (mut buckets, taken) = lend_buckets(rt, parts, seat, hand);
    let done = take_in(rt, parts, seat, buckets.get_mut(), before, want);
    return_buckets(parts, seat, hand, buckets, taken);
    done
}

// The same, of the part in hand.
fn take_in<C: Disk, B: Disk, R: Wait>(
    rt: &R,
    parts: &CoreParts<C, B>,
    seat: &mut CoreSeat<C, B>,
    part: &mut BucketsPart,
    before: u32,
    want: Want,
) -> Result<Result<HeldBucket, NoBucket>, StepError>
    requires run { seat.old.run ≡ parts.now.run }
    requires seat { IsCoreSeat C.facts B.facts seat.old }
    requires cached { are_plain C.facts B.facts parts.now.run.start ≡ false }
    requires promise { 0 < seat.old.promises }
    requires holds { Holds seat.old.parts 2 }
    requires buckets { AreBuckets part.old (world C.facts B.facts seat.old) }
    requires before { FromEach (world C.facts B.facts seat.old) (HasBefore before) }
    ensures seat { IsCoreSeat C.facts B.facts seat.new }
    ensures kept { Kept (core C.facts B.facts) seat.old seat.new (λ k. k == 2) }
    ensures buckets { AreBuckets part.new (world C.facts B.facts seat.new) }
    ensures ok { IfOk result (λ answer. TookOr C.facts B.facts before want answer part.old
        part.new seat.old seat.new) }
    ensures knows { IfOk result (λ answer. IfOk answer (λ b.
        FromEach (world C.facts B.facts seat.new) (IsHeldFor seat.new.first b))) }
    ensures vacant { IfOk result (λ answer. IfOk answer (λ b.
        FromEach (world C.facts B.facts seat.new) (IsVacantIn b))) }
    ensures other { IfOk result (λ answer. IfOk answer (λ b.
        IsNewBucket C.facts B.facts b seat.old seat.new)) }
    ensures err { OnErr result (Did C.facts B.facts None seat.old seat.new) }
    ensures same { OnErr result (part.new ≡ part.old) }
    ensures cause { IfErr result (λ error. IsHalted error seat.new.seen) }
    ensures left { seat.old.promises ≤ seat.new.promises + 1 }
    ensures keeps { KeepsHeld C.facts B.facts seat.old seat.new }
    ensures places { KeepsPlaces C.facts B.facts seat.old seat.new }
{
    let next = match next_bucket(part, want) {
        Some(next) => next,
        None => {
            return Ok(Err(NoBucket {
                purpose: want.list(),
                none_len: 0,
                own_len: 0,
            }));
        }
    };
    let bucket = next.bucket.saturating_sub(before);
    let purpose = next.purpose;
    if let Err(device) = commit(rt, parts, seat, Deed::Take { purpose, bucket }) {
        return Err(StepError::Halted(device));
    }
    hold_next(part, want, next);
    Ok(Ok(next))
}
