//! The look before a write past the cache.
ghost use Rattle.std.specs.Prelude.{◌≡◌, ◌+◌, ◌-◌, ◌%◌, ◌<◌, ◌≤◌, ◌^◌, ℕ, [], ◌∷◌, false, None, Some, IsTrue, MatchBool, OnOk, IfOk, IfErr, length};
ghost use Rattle.bc_around.specs.Look.{AreFree, HasFoundKey, HasFreeLeaf, HasKey, HasKeyedLeaf, HasLookedFree, IsHaltedAs, IsKeyed, NotLooked, SeesNone};
ghost use Rattle.bc_cache.specs.declared.slots.Cached.{Cached};
ghost use Rattle.bc_flush.specs.bc_deed.Flushed.{HasDone};
ghost use Rattle.bc_events.specs.declared.event.Deed.{Deed};
ghost use Rattle.bc_flush.specs.bc_hand.Seats.{HasNoneBehindBuckets, Works, core, empty, note};
ghost use Rattle.bc_flush.specs.bc_machine.World.{are_plain};
ghost use Rattle.bc_flush.specs.bc_reader.Look.{HasBuckets, IsOver};
ghost use Rattle.bc_seats.specs.Seats.{Waited};
ghost use Rattle.bc_flush.specs.bc_sight.Sight.{HasLeaf, said_in};

use bc_disk::disk::Disk;
use bc_flush::bc_fetch::error::LeafError;
use bc_flush::bc_fetch::leaf::{give_leaves, leaf_at};
use bc_flush::bc_hand::error::StepError;
use bc_flush::bc_hand::hand::Hand;
use bc_flush::bc_hand::lend::{borrow_buckets, return_buckets};
use bc_flush::bc_machine::machine::{CoreParts, CoreSeat};
use bc_flush::bc_machine::part::LEAVES;
use bc_flush::bc_sight::look::look;
use bc_node::Leaf;
use bc_worker::gate::Gate;
use std::alloc::Global;
use std::sync::Wait;

// Whether the leaf's last key of the sector points somewhere.
fn is_keyed(leaf: &Leaf, sector: u64) -> bool
    ensures { MatchBool result (IsKeyed leaf.now sector) (said_in leaf.now sector ≡ None) }
{
    match leaf.keys().lookup(sector) {
        None => false,
        Some(key) => key.count != 0,
    }
}

// Whether by the leaf none of these sectors has a key.
fn are_free(leaf: &Leaf, first: u64, count: u32) -> bool
    requires { first + count < 2 ^ 64 }
    ensures { MatchBool result (AreFree leaf.now first count) (HasKey leaf.now first count) }
{
    for done in 0..count {
        if is_keyed(leaf, first + u64::from(done)) {
            return false;
        }
    }
    true
}

// The same, by the leaf of this number in hand.
fn are_free_in<C, B>(hand: &Hand<C, B>, number: u32, first: u64, count: u32) -> bool
    requires leaf { (slot : ℕ) × (cached : Cached)
        × HasLeaf hand.now number first count slot cached }
    requires few { first + count < 2 ^ 64 }
    ensures { MatchBool result (HasFreeLeaf hand.now number first count)
        (HasKeyedLeaf hand.now number first count) }
{
    let Some(leaves) = &hand.leaves else {
        unreachable!()
    };
    let Some(slot) = leaves.cache.find(number) else {
        unreachable!()
    };
    let leaf = leaves.cache.leaf(slot);
    are_free(leaf, first, count)
}

// Takes the buckets.
fn take_buckets<C: Disk + Drop, B: Disk + Drop, R: Wait>(
    rt: &R,
    parts: &CoreParts<C, B>,
    seat: &mut CoreSeat<C, B>,
    hand: &mut Hand<C, B>,
)
    requires works { Works C.facts B.facts parts.now seat.old hand.old }
    requires cached { are_plain C.facts B.facts parts.now.run.start ≡ false }
    requires order { hand.old.buckets ≡ None → HasNoneBehindBuckets hand.old }
    ensures works { Works C.facts B.facts parts.now seat.new hand.new }
    ensures waited { Waited (core C.facts B.facts) seat.old seat.new }
    ensures hand { hand.new ≡ record hand.old { buckets = hand.new.buckets } }
    ensures has { HasBuckets hand.new }
{
    let (buckets, _) = borrow_buckets(rt, parts, seat, hand);
    return_buckets(parts, seat, hand, buckets, false);
}

// Gives the buckets in hand back.
fn give_buckets<C: Disk + Drop, B: Disk + Drop, R: Wait>(
    rt: &R,
    parts: &CoreParts<C, B>,
    seat: &mut CoreSeat<C, B>,
    hand: &mut Hand<C, B>,
)
    requires works { Works C.facts B.facts parts.now seat.old hand.old }
    requires cached { are_plain C.facts B.facts parts.now.run.start ≡ false }
    requires has { HasBuckets hand.old }
    ensures works { Works C.facts B.facts parts.now seat.new hand.new }
    ensures waited { Waited (core C.facts B.facts) seat.old seat.new }
    ensures hand { hand.new ≡ record hand.old { buckets = None } }
{
    let (buckets, _) = borrow_buckets(rt, parts, seat, hand);
    return_buckets(parts, seat, hand, buckets, true);
}

// Looks the claim up in the leaf in hand, by which none of its sectors has a key. The buckets are
// in hand meanwhile, as a look asks.
fn look_in<C: Disk + Drop, B: Disk + Drop, R: Wait>(
    rt: &R,
    parts: &CoreParts<C, B>,
    seat: &mut CoreSeat<C, B>,
    hand: &mut Hand<C, B>,
    number: u32,
    first: u64,
    count: u32,
) -> Result<(), StepError>
    requires works { Works C.facts B.facts parts.now seat.old hand.old }
    requires cached { are_plain C.facts B.facts parts.now.run.start ≡ false }
    requires order { HasNoneBehindBuckets hand.old }
    requires none { hand.old.buckets ≡ None }
    requires promise { 0 < seat.old.promises }
    requires leaf { HasFreeLeaf hand.old number first count }
    requires range { IsOver first count (note C.facts B.facts seat.old).range }
    ensures works { Works C.facts B.facts parts.now seat.new hand.new }
    ensures hand { hand.new ≡ hand.old }
    ensures ok { OnOk result (HasDone C.facts B.facts (Deed.Look number ∷ []) seat.old seat.new) }
    ensures sees { OnOk result (SeesNone C.facts B.facts first count seat.new) }
    ensures err { IfErr result (λ error. IsHaltedAs C.facts B.facts error seat.old seat.new) }
    ensures left { seat.old.promises ≤ seat.new.promises + 1 }
{
    take_buckets(rt, parts, seat, hand);
    let looked = look(rt, parts, seat, hand, number);
    give_buckets(rt, parts, seat, hand);
    looked
}

/// Looks up the sectors of the seat's claim, if none of them has a key; `false` says that one has.
/// At most one call of the cache device is made, where no slot had the leaf.
///
/// After an error nothing was done but that call.
pub(crate) fn look_at<C: Disk + Drop, B: Disk + Drop, R: Wait, G: Gate>(
    rt: &R,
    alloc: Global,
    parts: &CoreParts<C, B>,
    seat: &mut CoreSeat<C, B>,
    hand: &mut Hand<C, B>,
    first: u64,
    count: u32,
    gate: &G,
) -> Result<bool, LeafError>
    requires works { Works C.facts B.facts parts.now seat.old hand.old }
    requires cached { are_plain C.facts B.facts parts.now.run.start ≡ false }
    requires leaves { (6 < length parts.now.run.start) × (length parts.now.run.start < 2 ^ 32) }
    requires empty { hand.old ≡ empty }
    requires promise { 1 < seat.old.promises }
    requires range { IsOver first count (note C.facts B.facts seat.old).range }
    requires few { first + count < 2 ^ 64 }
    ensures works { Works C.facts B.facts parts.now seat.new hand.new }
    ensures empty { hand.new ≡ empty }
    ensures ok { IfOk result (λ free. MatchBool free
        (HasLookedFree C.facts B.facts parts.now first count seat.old seat.new)
        (HasFoundKey C.facts B.facts parts.now first count seat.old seat.new)) }
    ensures sees { IfOk result (λ free. IsTrue free
        → SeesNone C.facts B.facts first count seat.new) }
    ensures err { IfErr result (λ error. NotLooked C.facts B.facts parts.now first count error
        seat.old seat.new) }
    ensures left { seat.old.promises ≤ seat.new.promises + 2 }
{
    let number = match leaf_at(rt, alloc, parts, seat, hand, first, count, gate) {
        Ok(number) => number,
        Err(error) => return Err(error),
    };
    let part = LEAVES + number % (parts.part_count() as u32 - LEAVES);
    if !are_free_in(hand, number, first, count) {
        give_leaves(rt, parts, seat, hand, part);
        return Ok(false);
    }
    let looked = look_in(rt, parts, seat, hand, number, first, count);
    give_leaves(rt, parts, seat, hand, part);
    match looked {
        Ok(()) => Ok(true),
        Err(error) => Err(LeafError::Step(error)),
    }
}
