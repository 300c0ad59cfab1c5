//! One leaf behind the other.
ghost use Rattle.std.specs.Prelude.{◌≡◌, ◌+◌, ◌<◌, ◌≤◌, ◌^◌, ℕ, false, None, Some, length, IfErr, IfOk, OnOk};
ghost use Rattle.bc_leaf_walk.specs.Steps.{HasLeafAndBuckets, HasLeafIn};
ghost use Rattle.bc_leaf_walk.specs.bc_hand.Seats.{HasNoneBehindBuckets, Works, empty, world};
ghost use Rattle.bc_leaf_walk.specs.bc_machine.World.{FromEach, are_plain, cache_among};
ghost use Rattle.bc_leaf_walk.specs.bc_machine.declared.part.BucketsPart.{BucketsPart};
ghost use Rattle.bc_leaf_walk.specs.bc_place.Place.{HasBefore};
ghost use Rattle.bc_trace.specs.Trace.{HasGone, HasStopped};

use crate::error::{TraceError, missed};
use crate::hands::{give_buckets, take_buckets};
use bc_disk::disk::Disk;
use bc_flush::bc_fetch::leaf::{give_leaves, leaf_at};
use bc_leaf_walk::bc_deed::promise::promise;
use bc_leaf_walk::bc_hand::hand::Hand;
use bc_leaf_walk::bc_machine::machine::{CoreParts, CoreSeat};
use bc_leaf_walk::bc_machine::part::LEAVES;
use bc_leaf_walk::leaf::{may_walk, walk_leaf};
use bc_worker::gate::Gate;
use std::alloc::Global;
use std::sync::Wait;

// Where the leaf of this number ends, which the part in hand has.
fn end_of<C, B>(hand: &Hand<C, B>, number: u32) -> u64
    requires { (slot : ℕ) × HasLeafIn hand.now slot number }
    ensures { (slot : ℕ) (at : HasLeafIn hand.now slot number) → result ≡ at.cached.leaf.end }
{
    let Some(leaves) = &hand.leaves else {
        unreachable!()
    };
    let Some(slot) = leaves.cache.find(number) else {
        unreachable!()
    };
    leaves.cache.leaf(slot).end()
}

// Walks the leaf of this number, with its part and the buckets in hand, if the round has come to it,
// and tells where it ends.
fn walk_it<C: Disk + Drop, B: Disk + Drop, R: Wait>(
    rt: &R,
    parts: &CoreParts<C, B>,
    seat: &mut CoreSeat<C, B>,
    hand: &mut Hand<C, B>,
    before: u32,
    number: u32,
) -> Result<u64, TraceError>
    requires works { Works C.facts B.facts parts.now seat.old hand.old }
    requires cached { are_plain C.facts B.facts parts.now.run.start ≡ false }
    requires promise { 0 < seat.old.promises }
    requires before { FromEach (world C.facts B.facts seat.old) (HasBefore before) }
    requires both { HasLeafAndBuckets hand.old number }
    ensures works { Works C.facts B.facts parts.now seat.new hand.new }
    ensures has { (part : BucketsPart) × (hand.new ≡ record hand.old { buckets = Some part }) }
    ensures left { seat.old.promises ≤ seat.new.promises + 1 }
    ensures ok { OnOk result (HasGone C.facts B.facts seat.old seat.new) }
    ensures end { IfOk result (λ end. (slot : ℕ) (at : HasLeafIn hand.old slot number)
        → end ≡ at.cached.leaf.end) }
    ensures err { IfErr result (λ error. HasStopped C.facts B.facts
        (cache_among C.facts B.facts parts.now.run.start).sectors error seat.old seat.new) }
{
    if !may_walk(hand, number) {
        return Err(TraceError::Moved);
    }
    let end = end_of(hand, number);
    match walk_leaf(rt, parts, seat, hand, before, number) {
        Ok(()) => Ok(end),
        Err(error) => Err(TraceError::Step(error)),
    }
}

// The same, with the leaf's part alone in hand.
fn walk_one<C: Disk + Drop, B: Disk + Drop, R: Wait>(
    rt: &R,
    parts: &CoreParts<C, B>,
    seat: &mut CoreSeat<C, B>,
    hand: &mut Hand<C, B>,
    before: u32,
    number: u32,
) -> Result<u64, TraceError>
    requires works { Works C.facts B.facts parts.now seat.old hand.old }
    requires cached { are_plain C.facts B.facts parts.now.run.start ≡ false }
    requires promise { 0 < seat.old.promises }
    requires before { FromEach (world C.facts B.facts seat.old) (HasBefore before) }
    requires none { hand.old.buckets ≡ None }
    requires order { HasNoneBehindBuckets hand.old }
    requires leaf { (slot : ℕ) × HasLeafIn hand.old slot number }
    ensures works { Works C.facts B.facts parts.now seat.new hand.new }
    ensures hand { hand.new ≡ hand.old }
    ensures left { seat.old.promises ≤ seat.new.promises + 1 }
    ensures ok { OnOk result (HasGone C.facts B.facts seat.old seat.new) }
    ensures end { IfOk result (λ end. (slot : ℕ) (at : HasLeafIn hand.old slot number)
        → end ≡ at.cached.leaf.end) }
    ensures err { IfErr result (λ error. HasStopped C.facts B.facts
        (cache_among C.facts B.facts parts.now.run.start).sectors error seat.old seat.new) }
{
    take_buckets(rt, parts, seat, hand);
    let done = walk_it(rt, parts, seat, hand, before, number);
    give_buckets(parts, seat, hand);
    done
}

// Walks the leaf of a sector, with an empty hand, and tells where it ends.
fn next_in<C: Disk + Drop, B: Disk + Drop, R: Wait, G: Gate>(
    rt: &R,
    alloc: Global,
    parts: &CoreParts<C, B>,
    seat: &mut CoreSeat<C, B>,
    hand: &mut Hand<C, B>,
    before: u32,
    first: u64,
    gate: &G,
) -> Result<u64, TraceError>
    requires works { Works C.facts B.facts parts.now seat.old hand.old }
    requires empty { hand.old ≡ empty }
    requires cached { are_plain C.facts B.facts parts.now.run.start ≡ false }
    requires leaves { (6 < length parts.now.run.start) × (length parts.now.run.start < 2 ^ 32) }
    requires promise { 2 ≤ seat.old.promises }
    requires before { FromEach (world C.facts B.facts seat.old) (HasBefore before) }
    requires few { first + 1 < 2 ^ 64 }
    ensures works { Works C.facts B.facts parts.now seat.new empty }
    ensures left { seat.old.promises ≤ seat.new.promises + 2 }
    ensures ok { OnOk result (HasGone C.facts B.facts seat.old seat.new) }
    ensures more { IfOk result (λ end. first < end) }
    ensures err { IfErr result (λ error. HasStopped C.facts B.facts
        (cache_among C.facts B.facts parts.now.run.start).sectors error seat.old seat.new) }
{
    let number = match leaf_at(rt, alloc, parts, seat, hand, first, 1, gate) {
        Ok(number) => number,
        Err(error) => return Err(TraceError::Leaf(error)),
    };
    let done = walk_one(rt, parts, seat, hand, before, number);
    let part = LEAVES + number % (parts.part_count() as u32 - LEAVES);
    give_leaves(rt, parts, seat, hand, part);
    done
}

// The same, with room for its deeds.
fn next_leaf<C: Disk + Drop, B: Disk + Drop, R: Wait, G: Gate>(
    rt: &R,
    alloc: Global,
    parts: &CoreParts<C, B>,
    seat: &mut CoreSeat<C, B>,
    before: u32,
    first: u64,
    gate: &G,
) -> Result<u64, TraceError>
    requires works { Works C.facts B.facts parts.now seat.old empty }
    requires cached { are_plain C.facts B.facts parts.now.run.start ≡ false }
    requires leaves { (6 < length parts.now.run.start) × (length parts.now.run.start < 2 ^ 32) }
    requires before { FromEach (world C.facts B.facts seat.old) (HasBefore before) }
    requires few { first + 1 < 2 ^ 64 }
    ensures works { Works C.facts B.facts parts.now seat.new empty }
    ensures left { seat.old.promises ≤ seat.new.promises }
    ensures ok { OnOk result (HasGone C.facts B.facts seat.old seat.new) }
    ensures more { IfOk result (λ end. first < end) }
    ensures err { IfErr result (λ error. HasStopped C.facts B.facts
        (cache_among C.facts B.facts parts.now.run.start).sectors error seat.old seat.new) }
{
    let mut hand = Hand::empty();
    let hand = &mut hand;
    let Ok(()) = promise(rt, parts, seat, hand, 2) else {
        return Err(TraceError::Step(missed(seat)));
    };
    next_in(rt, alloc, parts, seat, hand, before, first, gate)
}

/// Walks all leaves, one behind the other, up to a sector. Nothing is in hand, before and after, nor
/// between two leaves.
pub(crate) fn all_leaves<C: Disk + Drop, B: Disk + Drop, R: Wait, G: Gate>(
    rt: &R,
    alloc: Global,
    parts: &CoreParts<C, B>,
    seat: &mut CoreSeat<C, B>,
    before: u32,
    size: u64,
    gate: &G,
) -> Result<(), TraceError>
    requires works { Works C.facts B.facts parts.now seat.old empty }
    requires cached { are_plain C.facts B.facts parts.now.run.start ≡ false }
    requires leaves { (6 < length parts.now.run.start) × (length parts.now.run.start < 2 ^ 32) }
    requires before { FromEach (world C.facts B.facts seat.old) (HasBefore before) }
    ensures works { Works C.facts B.facts parts.now seat.new empty }
    ensures left { seat.old.promises ≤ seat.new.promises }
    ensures ok { OnOk result (HasGone C.facts B.facts seat.old seat.new) }
    ensures err { IfErr result (λ error. HasStopped C.facts B.facts
        (cache_among C.facts B.facts parts.now.run.start).sectors error seat.old seat.new) }
{
    let mut next = 0;
    while next < size {
        match next_leaf(rt, alloc, parts, seat, before, next, gate) {
            Ok(end) => next = end,
            Err(error) => return Err(error),
        }
    }
    Ok(())
}
