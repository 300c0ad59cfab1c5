//! The way to the leaf of a sector.
ghost use Rattle.std.specs.Prelude.{◌≡◌, ◌+◌, ◌-◌, ◌%◌, ◌<◌, ◌≤◌, ◌^◌, false, None, Some, length, slice_get, IsTrue, IfOk, IfErr, IfSome, OnOk, OnErr, IfNone};
ghost use Rattle.bc_cache.specs.Slots.{IsOccupied};
ghost use Rattle.bc_cache.specs.declared.slots.Cached.{Cached};
ghost use Rattle.bc_sight.specs.bc_hand.Seats.{core, Works, HasNoneBehindSpine, HasNoneBehindLeaves, empty};
ghost use Rattle.bc_sight.specs.bc_machine.World.{are_plain};
ghost use Rattle.bc_seats.specs.Seats.{Waited};
ghost use Rattle.bc_fetch.specs.Fetch.{HasLeafFor, HasPart, HasReadOne, HasShortTree, HasStoppedAt, HasTakenIn, IsInSpine, OfLeaves};

use crate::error::LeafError;
use crate::fetch::fetch;
use bc_disk::disk::Disk;
use bc_sight::bc_hand::hand::Hand;
use bc_sight::bc_hand::lend::{borrow_leaves, borrow_spine, return_leaves, return_spine};
use bc_sight::bc_machine::machine::{CoreParts, CoreSeat};
use bc_sight::bc_machine::part::LEAVES;
use bc_spine::LeafRange;
use bc_worker::gate::Gate;
use std::alloc::Global;
use std::sync::Wait;

// Takes the tree, if it has a leaf with all sectors of a range, and gives that leaf's range.
fn take_spine<C: Disk + Drop, B: Disk + Drop, R: Wait>(
    rt: &R,
    parts: &CoreParts<C, B>,
    seat: &mut CoreSeat<C, B>,
    hand: &mut Hand<C, B>,
    first: u64,
    count: u32,
) -> Option<LeafRange>
    requires works { Works C.facts B.facts parts.now seat.old hand.old }
    requires cached { are_plain C.facts B.facts parts.now.run.start ≡ false }
    requires empty { hand.old ≡ empty }
    requires few { first + count < 2 ^ 64 }
    ensures works { Works C.facts B.facts parts.now seat.new hand.new }
    ensures waited { Waited (core C.facts B.facts) seat.old seat.new }
    ensures heard { seat.new.heard ≡ seat.old.heard }
    ensures some { IfSome result (λ range. IsInSpine hand.new range × (range.from ≤ first)
        × (first + count ≤ range.end)) }
    ensures hand { hand.new ≡ record empty { spine = hand.new.spine } }
    ensures none { IfNone result (hand.new ≡ empty) }
    ensures missing { IfNone result (HasShortTree C.facts B.facts first count seat.old seat.new) }
{
    let (spine, _) = borrow_spine(rt, parts, seat, hand);
    if spine.get().spine.root().end() <= first {
        return_spine(parts, seat, hand, spine, true);
        return None;
    }
    let range = spine.get().spine.find(first);
    let missing = range.end < first + u64::from(count);
    return_spine(parts, seat, hand, spine, missing);
    if missing { None } else { Some(range) }
}

// Gives the tree in hand back.
fn give_spine<C: Disk + Drop, B: Disk + Drop, R: Wait>(
    rt: &R,
    parts: &CoreParts<C, B>,
    seat: &mut CoreSeat<C, B>,
    hand: &mut Hand<C, B>,
)
    requires works { Works C.facts B.facts parts.now seat.old hand.old }
    requires cached { are_plain C.facts B.facts parts.now.run.start ≡ false }
    requires order { hand.old.spine ≡ None → HasNoneBehindSpine hand.old }
    ensures works { Works C.facts B.facts parts.now seat.new hand.new }
    ensures waited { Waited (core C.facts B.facts) seat.old seat.new }
    ensures heard { seat.new.heard ≡ seat.old.heard }
    ensures hand { hand.new ≡ record hand.old { spine = None } }
{
    let (spine, _) = borrow_spine(rt, parts, seat, hand);
    return_spine(parts, seat, hand, spine, true);
}

// Takes a part with leaves.
fn take_leaves<C: Disk + Drop, B: Disk + Drop, R: Wait>(
    rt: &R,
    parts: &CoreParts<C, B>,
    seat: &mut CoreSeat<C, B>,
    hand: &mut Hand<C, B>,
    part: u32,
)
    requires works { Works C.facts B.facts parts.now seat.old hand.old }
    requires cached { are_plain C.facts B.facts parts.now.run.start ≡ false }
    requires part { (6 ≤ part) × (part < length parts.now.run.start) }
    requires none { hand.old.leaves ≡ None }
    requires order { HasNoneBehindLeaves hand.old }
    ensures works { Works C.facts B.facts parts.now seat.new hand.new }
    ensures waited { Waited (core C.facts B.facts) seat.old seat.new }
    ensures heard { seat.new.heard ≡ seat.old.heard }
    ensures hand { hand.new ≡ record hand.old { leaves = hand.new.leaves } }
    ensures has { HasPart hand.new part }
{
    let (leaves, _) = borrow_leaves(rt, parts, seat, hand, part);
    return_leaves(parts, seat, hand, part, leaves, false);
}

/// Gives the part with leaves in hand back.
pub fn give_leaves<C: Disk + Drop, B: Disk + Drop, R: Wait>(
    rt: &R,
    parts: &CoreParts<C, B>,
    seat: &mut CoreSeat<C, B>,
    hand: &mut Hand<C, B>,
    part: u32,
)
    requires works { Works C.facts B.facts parts.now seat.old hand.old }
    requires cached { are_plain C.facts B.facts parts.now.run.start ≡ false }
    requires part { (6 ≤ part) × (part < length parts.now.run.start) }
    requires has { HasPart hand.old part }
    ensures works { Works C.facts B.facts parts.now seat.new hand.new }
    ensures waited { Waited (core C.facts B.facts) seat.old seat.new }
    ensures heard { seat.new.heard ≡ seat.old.heard }
    ensures hand { hand.new ≡ record hand.old { leaves = None } }
{
    let (leaves, _) = borrow_leaves(rt, parts, seat, hand, part);
    return_leaves(parts, seat, hand, part, leaves, true);
}

// Whether the leaf in a slot of the part in hand has all sectors of a range.
fn has_range<C, B>(hand: &Hand<C, B>, slot: u32, first: u64, count: u32) -> bool
    requires slot { OfLeaves hand.now (λ c. IsOccupied c.slots slot) }
    requires few { first + count < 2 ^ 64 }
    ensures all { IsTrue result → OfLeaves hand.now (λ c. (cached : Cached)
        × (slice_get c.slots slot ≡ Some (Some cached)) × (cached.leaf.from ≤ first)
        × (first + count ≤ cached.leaf.end)) }
    ensures short { result ≡ false → ¬ (OfLeaves hand.now (λ c. (cached : Cached)
        × (slice_get c.slots slot ≡ Some (Some cached)) × (cached.leaf.from ≤ first)
        × (first + count ≤ cached.leaf.end))) }
{
    let Some(leaves) = &hand.leaves else {
        unreachable!()
    };
    let leaf = leaves.cache.leaf(slot);
    leaf.from() <= first && first + u64::from(count) <= leaf.end()
}

/// Takes the part of the leaf that has all sectors of a range, with the leaf in one of its slots,
/// and gives the leaf's number. It stays the leaf of these sectors for as long as the part is in
/// hand. At most one call of the cache device is made, and none where a slot had the leaf; so it takes
/// one of the seat's promises at most. Of the other slots of the part each is as it was when the part
/// was taken; another leaf goes only where the device was called, by the rule of `fetch`.
///
/// `Missing` comes where no leaf of the tree has all of them, or the one that a slot has for them
/// doesn't. The other refusals are those of `fetch`, of the leaf that the tree has for them. After an
/// error the hand is empty again.
pub fn leaf_at<C: Disk + Drop, B: Disk + Drop, R: Wait, G: Gate>(
    rt: &R,
    alloc: Global,
    parts: &CoreParts<C, B>,
    seat: &mut CoreSeat<C, B>,
    hand: &mut Hand<C, B>,
    first: u64,
    count: u32,
    gate: &G,
) -> Result<u32, LeafError>
    requires works { Works C.facts B.facts parts.now seat.old hand.old }
    requires cached { are_plain C.facts B.facts parts.now.run.start ≡ false }
    requires leaves { (6 < length parts.now.run.start) × (length parts.now.run.start < 2 ^ 32) }
    requires empty { hand.old ≡ empty }
    requires promise { 0 < seat.old.promises }
    requires few { first + count < 2 ^ 64 }
    ensures works { Works C.facts B.facts parts.now seat.new hand.new }
    ensures ok { IfOk result (λ number. HasLeafFor hand.new number first count) }
    ensures part { IfOk result
        (λ number. HasPart hand.new (6 + number % (length parts.now.run.start - 6))) }
    ensures slots { IfOk result (λ number. HasTakenIn C.facts B.facts
        (6 + number % (length parts.now.run.start - 6)) number hand.new seat.old) }
    ensures err { OnErr result (hand.new ≡ empty) }
    ensures did { OnOk result (HasReadOne C.facts B.facts seat.old seat.new) }
    ensures left { seat.old.promises ≤ seat.new.promises + 1 }
    ensures stopped { IfErr result (λ error. HasStoppedAt C.facts B.facts first count error
        seat.old seat.new) }
{
    let Some(range) = take_spine(rt, parts, seat, hand, first, count) else {
        return Err(LeafError::Missing);
    };
    let part = LEAVES + range.number % (parts.part_count() as u32 - LEAVES);
    take_leaves(rt, parts, seat, hand, part);
    let done = fetch(rt, alloc, parts, seat, hand, &range, gate);
    give_spine(rt, parts, seat, hand);
    let error = match done {
        Ok(slot) if has_range(hand, slot, first, count) => return Ok(range.number),
        Ok(_) => LeafError::Missing,
        Err(error) => error,
    };
    give_leaves(rt, parts, seat, hand, part);
    Err(error)
}
