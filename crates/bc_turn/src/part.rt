//! The leaves of a part, whose pending keys of old entries go to their nodes.
ghost use Rattle.std.specs.Prelude.{◌≡◌, ◌+◌, ◌-◌, ◌<◌, ◌≤◌, ◌^◌, ℕ, false, length, slice_get, IfErr, IfNone, IfOk, IfSome, MatchOption, Some};
ghost use Rattle.bc_append.specs.bc_hand.Seats.{HasNoneBehindLeaves, Works, kinds, world};
ghost use Rattle.bc_append.specs.bc_hand.declared.hand.LeafHand.{LeafHand};
ghost use Rattle.bc_fetch.specs.Fetch.{HasPart};
ghost use Rattle.bc_append.specs.bc_machine.World.{FromEach, are_plain, cache_among};
ghost use Rattle.bc_append.specs.bc_place.Written.{KeepsPlaces};
ghost use Rattle.bc_turn.specs.Need.{IsToCome, PartNeedsFrom};
ghost use Rattle.bc_turn.specs.Part.{HasFailed, HasWrittenSets, IsDueIn, IsLeftIn, WaitsInSlot};

use crate::error::Left;
use crate::heard::or_halt;
use crate::leaf::empty_leaf;
use bc_append::bc_hand::error::StepError;
use bc_append::bc_hand::hand::Hand;
use bc_append::bc_machine::machine::{CoreParts, CoreSeat};
use bc_append::bc_machine::part::LEAVES;
use bc_disk::disk::Disk;
use bc_fetch::bc_deed::promise::promise;
use std::alloc::Global;
use std::sync::Wait;

// How many slots the part in hand has.
fn slots_in<C, B>(hand: &Hand<C, B>) -> u32
    requires { (l : LeafHand) × (hand.now.leaves ≡ Some l) }
    ensures { (l : LeafHand) → hand.now.leaves ≡ Some l → result ≡ length l.cache.slots }
{
    let Some(leaves) = &hand.leaves else {
        unreachable!()
    };
    leaves.cache.len()
}

// The leaf in a slot of the part in hand, where it is one of the part's own, of so many parts, and
// keys of it are pending of an entry below `low`.
fn due_in<C, B>(hand: &Hand<C, B>, count: u32, low: u64, slot: u32) -> Option<u32>
    requires count { 0 < count }
    requires slot { (l : LeafHand) × (hand.now.leaves ≡ Some l) × (slot < length l.cache.slots)
        × (6 ≤ l.part) }
    ensures { (l : LeafHand) → hand.now.leaves ≡ Some l → MatchOption result
        (WaitsInSlot count (l.part - 6) low (slice_get l.cache.slots slot))
        (IsDueIn hand.now (count + 6) low slot) }
{
    let Some(leaves) = &hand.leaves else {
        unreachable!()
    };
    let Some(cached) = leaves.cache.slot(slot) else {
        return None;
    };
    if cached.number % count != leaves.part - LEAVES {
        return None;
    }
    let Some(entries) = cached.leaf.entries() else {
        return None;
    };
    if low <= entries.first {
        return None;
    }
    let Some(_) = leaves.cache.find(cached.number) else {
        unreachable!()
    };
    Some(cached.number)
}

/// Writes what is pending of the leaves of the part in hand to their nodes, as a further set of
/// each leaf of which a key of an entry below `low` is pending. The part is in hand, and none of
/// those that are taken after it.
///
/// An answer names a leaf of which such a key is pending still, and says why; the leaves before it,
/// in the order of the slots, wait for none. Without one no leaf of the part does, nor ever will.
///
/// `Fault` says that the write of a set failed, which halts the run; `Halted` that a device had
/// halted it before; `Memory` may come before each leaf, where the seat hasn't heard of a halt. The
/// sets that were written stand. Of the room that is promised here for each deed at most one is left.
/// Whatever comes, the seat knows of its places what it knew.
pub fn empty_part<C: Disk + Drop, B: Disk + Drop, R: Wait>(
    rt: &R,
    alloc: Global,
    parts: &CoreParts<C, B>,
    seat: &mut CoreSeat<C, B>,
    hand: &mut Hand<C, B>,
    part: u32,
    low: u64,
) -> Result<Option<Left>, StepError>
    requires works { Works C.facts B.facts parts.now seat.old hand.old }
    requires cached { are_plain C.facts B.facts parts.now.run.start ≡ false }
    requires leaves { (6 < length parts.now.run.start) × (length parts.now.run.start < 2 ^ 32) }
    requires part { (6 ≤ part) × HasPart hand.old part }
    requires alone { HasNoneBehindLeaves hand.old }
    requires come { FromEach (world C.facts B.facts seat.old) (IsToCome low) }
    ensures works { Works C.facts B.facts parts.now seat.new hand.new }
    ensures hand { hand.new ≡ record hand.old { leaves = hand.new.leaves } }
    ensures part { HasPart hand.new part }
    ensures come { FromEach (world C.facts B.facts seat.new) (IsToCome low) }
    ensures promises { seat.old.promises ≤ seat.new.promises }
    ensures most { seat.new.promises ≤ seat.old.promises + 1 }
    ensures even { IfOk result (λ left. IfNone left (seat.new.promises ≡ seat.old.promises)) }
    ensures keeps { KeepsPlaces C.facts B.facts seat.old seat.new }
    ensures ok { IfOk result (λ left. HasWrittenSets C.facts B.facts parts.now low seat.old
        seat.new) }
    ensures left { IfOk result (λ left. IfSome left (IsLeftIn hand.new
        (world C.facts B.facts seat.new)
        (cache_among C.facts B.facts parts.now.run.start).sectors (length parts.now.run.start)
        low)) }
    ensures knows { IfOk result (λ left. IfNone left (FromEach (world C.facts B.facts seat.new)
        (PartNeedsFrom (length parts.now.run.start - 6) (part - 6) low))) }
    ensures err { IfErr result (λ error. HasFailed C.facts B.facts parts.now low error seat.old
        seat.new) }
{
    let count = parts.part_count() as u32 - LEAVES;
    for slot in 0..slots_in(hand) {
        let Some(leaf) = due_in(hand, count, low, slot) else {
            continue;
        };
        let Ok(()) = promise(rt, parts, seat, hand, 1) else {
            return Err(or_halt(seat, StepError::Memory));
        };
        match empty_leaf(rt, alloc, parts, seat, hand, leaf) {
            Ok(None) => {}
            Ok(Some(why)) => return Ok(Some(Left { leaf, why })),
            Err(error) => return Err(error),
        }
    }
    Ok(None)
}
