//! The step that lets a bucket go.
ghost use Rattle.std.specs.Prelude.{◌≡◌, ◌+◌, ◌<◌, ◌≤◌, ◌==◌, true, false, None, Some, is_some, IfErr, OnErr, OnOk};
ghost use Rattle.bc_alloc.specs.declared.purpose.Purpose.TheVariants as list;
ghost use Rattle.bc_held.specs.Held.{IsHeldFor, IsVacantIn};
ghost use Rattle.bc_held.specs.Taken.{HasLetGo, KeepsHeldBut, LetGo, TiesBuckets};
ghost use Rattle.bc_parts.specs.Seat.{Holds};
ghost use Rattle.bc_place.specs.Place.{HasBefore};
ghost use Rattle.bc_place.specs.Written.{KeepsPlaces};
ghost use Rattle.bc_place.specs.bc_deed.Asked.{IsHalted};
ghost use Rattle.bc_place.specs.bc_hand.Seats.{core, world, kinds, IsCoreSeat, Works, Did, HasNoneBehindBuckets};
ghost use Rattle.bc_place.specs.bc_machine.World.{FromEach, AreBuckets, are_plain};
ghost use Rattle.bc_seats.specs.Seats.{Kept};

use crate::held::HeldBucket;
use crate::lent::lend_buckets;
use crate::part::{put_down, takes_back};
use bc_disk::disk::Disk;
use bc_events::event::{Deed, UnpinKind};
use bc_place::bc_hand::error::StepError;
use bc_place::bc_hand::hand::Hand;
use bc_place::bc_hand::lend::return_buckets;
use bc_place::bc_hand::seat::commit;
use bc_place::bc_machine::machine::{CoreParts, CoreSeat};
use bc_place::bc_machine::part::BucketsPart;
use std::sync::Wait;

/// Lets a bucket go that the seat holds and that nothing names. One that was taken for priority sets
/// is the first of their list then, where that has room; it has as much as a chain has buckets. Any
/// other one is on no list: it may be given up and raised anew. Of one that was taken for the tree
/// the seat has to know that no node lies in it, with the tree in hand.
///
/// `Halted` names the device that halted the run, which keeps the bucket out: then nothing is done,
/// and nobody needs it in this run.
pub fn let_go_bucket<C: Disk + Drop, B: Disk + Drop, R: Wait>(
    rt: &R,
    parts: &CoreParts<C, B>,
    seat: &mut CoreSeat<C, B>,
    hand: &mut Hand<C, B>,
    before: u32,
    bucket: HeldBucket,
) -> Result<(), StepError>
    requires works { Works C.facts B.facts parts.now seat.old hand.old }
    requires cached { are_plain C.facts B.facts parts.now.run.start ≡ false }
    requires promise { 0 < seat.old.promises }
    requires order { hand.old.buckets ≡ None → HasNoneBehindBuckets hand.old }
    requires before { FromEach (world C.facts B.facts seat.old) (HasBefore before) }
    requires held { FromEach (world C.facts B.facts seat.old) (IsHeldFor seat.old.first bucket) }
    requires tree { bucket.purpose ≡ list.Tree → is_some hand.old.spine ≡ true }
    requires vacant { bucket.purpose ≡ list.Tree
        → FromEach (world C.facts B.facts seat.old) (IsVacantIn bucket) }
    ensures works { Works C.facts B.facts parts.now seat.new hand.new }
    ensures hand { kinds hand.new ≡ kinds hand.old }
    ensures rest { hand.new ≡ record hand.old { buckets = hand.new.buckets } }
    ensures ok { OnOk result (HasLetGo C.facts B.facts before bucket seat.old seat.new) }
    ensures part { OnOk result (TiesBuckets hand.old hand.new (λ p q.
        LetGo C.facts B.facts before bucket p q seat.old seat.new)) }
    ensures same { OnErr result (hand.new ≡ hand.old) }
    ensures err { OnErr result (Did C.facts B.facts None seat.old seat.new) }
    ensures cause { IfErr result (λ error. IsHalted error seat.new.seen) }
    ensures left { seat.old.promises ≤ seat.new.promises + 1 }
    ensures keeps { KeepsHeldBut C.facts B.facts (Some bucket) seat.old seat.new }
    ensures places { KeepsPlaces C.facts B.facts seat.old seat.new }
{
    if let Some(device) = seat.heard() {
        return Err(StepError::Halted(device));
    }
    let (mut buckets, taken) = lend_buckets(rt, parts, seat, hand);
    let done = let_go_in(rt, parts, seat, buckets.get_mut(), before, bucket);
    return_buckets(parts, seat, hand, buckets, taken);
    done
}

// The same, of the part in hand.
fn let_go_in<C: Disk, B: Disk, R: Wait>(
    rt: &R,
    parts: &CoreParts<C, B>,
    seat: &mut CoreSeat<C, B>,
    part: &mut BucketsPart,
    before: u32,
    bucket: HeldBucket,
) -> Result<(), StepError>
    requires run { seat.old.run ≡ parts.now.run }
    requires seat { IsCoreSeat C.facts B.facts seat.old }
    requires cached { are_plain C.facts B.facts parts.now.run.start ≡ false }
    requires promise { 0 < seat.old.promises }
    requires holds { Holds seat.old.parts 2 }
    requires buckets { AreBuckets part.old (world C.facts B.facts seat.old) }
    requires before { FromEach (world C.facts B.facts seat.old) (HasBefore before) }
    requires held { FromEach (world C.facts B.facts seat.old) (IsHeldFor seat.old.first bucket) }
    requires tree { bucket.purpose ≡ list.Tree → Holds seat.old.parts 0 }
    requires vacant { bucket.purpose ≡ list.Tree
        → FromEach (world C.facts B.facts seat.old) (IsVacantIn bucket) }
    ensures seat { IsCoreSeat C.facts B.facts seat.new }
    ensures kept { Kept (core C.facts B.facts) seat.old seat.new (λ k. k == 2) }
    ensures buckets { AreBuckets part.new (world C.facts B.facts seat.new) }
    ensures ok { OnOk result (LetGo C.facts B.facts before bucket part.old part.new
        seat.old seat.new) }
    ensures err { OnErr result (Did C.facts B.facts None seat.old seat.new) }
    ensures same { OnErr result (part.new ≡ part.old) }
    ensures cause { IfErr result (λ error. IsHalted error seat.new.seen) }
    ensures left { seat.old.promises ≤ seat.new.promises + 1 }
    ensures keeps { KeepsHeldBut C.facts B.facts (Some bucket) seat.old seat.new }
    ensures places { KeepsPlaces C.facts B.facts seat.old seat.new }
{
    let back = takes_back(part, bucket.purpose);
    let number = bucket.bucket.saturating_sub(before);
    let kind = UnpinKind::Hold {
        bucket: number,
        back,
    };
    if let Err(device) = commit(rt, parts, seat, Deed::Unpin { kind }) {
        return Err(StepError::Halted(device));
    }
    put_down(part, bucket);
    Ok(())
}
