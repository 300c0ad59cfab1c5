//! The step that fetches a leaf.
ghost use Rattle.std.specs.Prelude.{◌≡◌, ◌+◌, ◌-◌, ◌*◌, ◌/◌, ◌%◌, ◌<◌, ℕ, false, None, Some, length, IfOk, IfErr, OnOk, OnErr};
ghost use Rattle.bc_cache.specs.Slots.{HasLeaf, Misses, NoneCanGo};
ghost use Rattle.bc_sight.specs.bc_deed.Asked.{AreSectors};
ghost use Rattle.bc_sight.specs.bc_hand.Seats.{HasNoneBehindCache, Works, Did};
ghost use Rattle.bc_sight.specs.bc_machine.World.{are_plain, cache_among};
ghost use Rattle.bc_model.specs.Sector.{values_of};
ghost use Rattle.bc_fetch.specs.Fetch.{HasFetched, HasPart, HasTaken, IsInSpine, IsLeafStop, IsNoLeaf, IsSameButLeaves, MayStandAt, OfBoth, OfLeaves, node_read, refusal};

use crate::error::LeafError;
use crate::node::{cache_sectors, read_node};
use crate::slot::{put_leaf, use_slot};
use bc_disk::disk::Disk;
use bc_node::{Leaf, NodeError};
use bc_reload::key_of;
use bc_sight::bc_hand::error::StepError;
use bc_sight::bc_hand::hand::Hand;
use bc_sight::bc_machine::machine::{CoreParts, CoreSeat};
use bc_spine::LeafRange;
use bc_worker::gate::Gate;
use std::alloc::Global;
use std::sync::Wait;

/// The slot of a leaf of the tree in hand, in its part in hand. Where no slot has it, it is read of
/// the cache device, in one call behind the gate at `BeforeRead`, into the slot that was used
/// longest ago of those that are empty or whose leaf can go, which goes then. There is no call where
/// a slot has it. Every other slot is as it was.
///
/// `Busy` comes where no slot has the leaf and none has one that can go, `Outside` where it doesn't
/// lie in a bucket of the device; then nothing is done. `Node` comes where the device gave no leaf
/// of the range, and has the bucket in which the leaf begins.
/// `Step` has `Fault` where the read failed, `Halted` where the seat was told of a halt, and `Memory`.
/// After an error the slots are as they were.
pub fn fetch<C: Disk + Drop, B: Disk + Drop, R: Wait, G: Gate>(
    rt: &R,
    alloc: Global,
    parts: &CoreParts<C, B>,
    seat: &mut CoreSeat<C, B>,
    hand: &mut Hand<C, B>,
    range: &LeafRange,
    gate: &G,
) -> Result<u32, LeafError>
    requires works { Works C.facts B.facts parts.now seat.old hand.old }
    requires cached { are_plain C.facts B.facts parts.now.run.start ≡ false }
    requires order { hand.old.cache ≡ None → HasNoneBehindCache hand.old }
    requires promise { 0 < seat.old.promises }
    requires spine { IsInSpine hand.old range.now }
    requires part { HasPart hand.old
        (6 + range.now.number % (length parts.now.run.start - 6)) }
    ensures works { Works C.facts B.facts parts.now seat.new hand.new }
    ensures hand { IsSameButLeaves hand.old hand.new }
    ensures ok { IfOk result (λ slot. OfLeaves hand.new
        (λ c. HasLeaf c.slots slot range.now.number)) }
    ensures slots { IfOk result
        (λ slot. OfBoth hand.old hand.new (HasTaken slot range.now.number)) }
    ensures did { OnOk result (HasFetched C.facts B.facts hand.old range.now seat.old seat.new) }
    ensures err { IfErr result (λ error. IsLeafStop C.facts B.facts hand.old range.now
        (cache_among C.facts B.facts parts.now.run.start).sectors error seat.old seat.new) }
    ensures missed { OnErr result (OfLeaves hand.old (λ c. Misses c.slots range.now.number)) }
    ensures kept { OnErr result (hand.new.leaves ≡ hand.old.leaves) }
{
    let Some(mut leaves) = hand.leaves.take() else {
        unreachable!()
    };
    let used = use_slot(&mut leaves.cache, range.number);
    let can_go = leaves.cache.oldest().is_some();
    hand.leaves = Some(leaves);
    match used {
        Some(slot) => Ok(slot),
        None => {
            if !can_go {
                return Err(LeafError::Busy);
            }
            read_leaf(rt, alloc, parts, seat, hand, range, gate)
        }
    }
}

// Reads a leaf that no slot has into one.
fn read_leaf<C: Disk + Drop, B: Disk + Drop, R: Wait, G: Gate>(
    rt: &R,
    alloc: Global,
    parts: &CoreParts<C, B>,
    seat: &mut CoreSeat<C, B>,
    hand: &mut Hand<C, B>,
    range: &LeafRange,
    gate: &G,
) -> Result<u32, LeafError>
    requires works { Works C.facts B.facts parts.now seat.old hand.old }
    requires cached { are_plain C.facts B.facts parts.now.run.start ≡ false }
    requires order { hand.old.cache ≡ None → HasNoneBehindCache hand.old }
    requires promise { 0 < seat.old.promises }
    requires spine { IsInSpine hand.old range.now }
    requires part { HasPart hand.old
        (6 + range.now.number % (length parts.now.run.start - 6)) }
    requires new { OfLeaves hand.old (λ c. Misses c.slots range.now.number) }
    requires some { OfLeaves hand.old (λ c. ¬ (NoneCanGo c.slots)) }
    ensures works { Works C.facts B.facts parts.now seat.new hand.new }
    ensures hand { IsSameButLeaves hand.old hand.new }
    ensures ok { IfOk result (λ slot. OfLeaves hand.new
        (λ c. HasLeaf c.slots slot range.now.number)) }
    ensures slots { IfOk result
        (λ slot. OfBoth hand.old hand.new (HasTaken slot range.now.number)) }
    ensures did { OnOk result (Did C.facts B.facts (Some (node_read range.now.ptr.offset)) seat.old
        seat.new) }
    ensures err { IfErr result (λ error. IsLeafStop C.facts B.facts hand.old range.now
        (cache_among C.facts B.facts parts.now.run.start).sectors error seat.old seat.new) }
    ensures kept { OnErr result (hand.new.leaves ≡ hand.old.leaves) }
{
    let Some(leaves) = &hand.leaves else {
        unreachable!()
    };
    let g = *leaves.cache.geometry();
    let sectors = cache_sectors(rt, parts, seat, hand);
    if sectors < range.ptr.offset + u64::from(g.node_sectors) {
        return Err(LeafError::Outside);
    }
    let at = range.ptr.offset / u64::from(g.bucket);
    if u64::from(g.nbuckets) <= at {
        return Err(LeafError::Outside);
    }
    let Ok(mut bytes) = vec![in alloc; 0u8; 512 * g.node_sectors as usize] else {
        return Err(LeafError::Step(StepError::Memory));
    };
    let bucket = at as u32;
    read_into(
        rt, alloc, parts, seat, hand, range, bucket, &mut bytes, gate,
    )
}

// The same with room for its bytes, where it lies on the device, from this bucket on.
fn read_into<C: Disk + Drop, B: Disk + Drop, R: Wait, G: Gate>(
    rt: &R,
    alloc: Global,
    parts: &CoreParts<C, B>,
    seat: &mut CoreSeat<C, B>,
    hand: &mut Hand<C, B>,
    range: &LeafRange,
    bucket: u32,
    bytes: &mut [u8],
    gate: &G,
) -> Result<u32, LeafError>
    requires works { Works C.facts B.facts parts.now seat.old hand.old }
    requires cached { are_plain C.facts B.facts parts.now.run.start ≡ false }
    requires order { hand.old.cache ≡ None → HasNoneBehindCache hand.old }
    requires promise { 0 < seat.old.promises }
    requires spine { IsInSpine hand.old range.now }
    requires part { HasPart hand.old
        (6 + range.now.number % (length parts.now.run.start - 6)) }
    requires new { OfLeaves hand.old (λ c. Misses c.slots range.now.number) }
    requires some { OfLeaves hand.old (λ c. ¬ (NoneCanGo c.slots)) }
    requires begins { OfLeaves hand.old (λ c. bucket ≡ range.now.ptr.offset / c.geometry.bucket) }
    requires whole { OfLeaves hand.old (λ c. length bytes.old ≡ 512 * c.geometry.node_sectors) }
    requires sectors { AreSectors range.now.ptr.offset (length bytes.old)
        (cache_among C.facts B.facts parts.now.run.start).sectors }
    ensures works { Works C.facts B.facts parts.now seat.new hand.new }
    ensures hand { IsSameButLeaves hand.old hand.new }
    ensures ok { IfOk result (λ slot. OfLeaves hand.new
        (λ c. HasLeaf c.slots slot range.now.number)) }
    ensures slots { IfOk result
        (λ slot. OfBoth hand.old hand.new (HasTaken slot range.now.number)) }
    ensures did { OnOk result (Did C.facts B.facts (Some (node_read range.now.ptr.offset)) seat.old
        seat.new) }
    ensures err { IfErr result (λ error. IsLeafStop C.facts B.facts hand.old range.now
        (cache_among C.facts B.facts parts.now.run.start).sectors error seat.old seat.new) }
    ensures kept { OnErr result (hand.new.leaves ≡ hand.old.leaves) }
{
    match read_node(rt, alloc, parts, seat, hand, range.ptr.offset, bytes, gate) {
        Ok(()) => take_in(alloc, parts, seat, hand, range, bucket, bytes),
        Err(error) => Err(LeafError::Step(error)),
    }
}

// Puts a leaf, which begins in this bucket, into a slot, of the bytes that were read of it.
fn take_in<C: Disk + Drop, B: Disk + Drop>(
    alloc: Global,
    parts: &CoreParts<C, B>,
    seat: &CoreSeat<C, B>,
    hand: &mut Hand<C, B>,
    range: &LeafRange,
    bucket: u32,
    bytes: &[u8],
) -> Result<u32, LeafError>
    requires works { Works C.facts B.facts parts.now seat.now hand.old }
    requires spine { IsInSpine hand.old range.now }
    requires part { HasPart hand.old
        (6 + range.now.number % (length parts.now.run.start - 6)) }
    requires new { OfLeaves hand.old (λ c. Misses c.slots range.now.number) }
    requires some { OfLeaves hand.old (λ c. ¬ (NoneCanGo c.slots)) }
    requires begins { OfLeaves hand.old (λ c. bucket ≡ range.now.ptr.offset / c.geometry.bucket) }
    requires whole { OfLeaves hand.old (λ c. length bytes.now ≡ 512 * c.geometry.node_sectors) }
    requires stand { MayStandAt C.facts B.facts seat.now range.now.ptr.offset (values_of bytes.now) }
    ensures works { Works C.facts B.facts parts.now seat.now hand.new }
    ensures hand { hand.new ≡ record hand.old { leaves = hand.new.leaves } }
    ensures ok { IfOk result (λ slot. OfLeaves hand.new
        (λ c. HasLeaf c.slots slot range.now.number)) }
    ensures slots { IfOk result
        (λ slot. OfBoth hand.old hand.new (HasTaken slot range.now.number)) }
    ensures part { HasPart hand.new (6 + range.now.number % (length parts.now.run.start - 6)) }
    ensures err { IfErr result (λ error. IsNoLeaf C.facts B.facts hand.old range.now error seat.now) }
    ensures kept { OnErr result (hand.new ≡ hand.old) }
{
    let _ = parts;
    let _ = seat;
    let Some(mut leaves) = hand.leaves.take() else {
        unreachable!()
    };
    let key = key_of(leaves.cache.geometry(), range);
    match Leaf::decode(alloc, leaves.cache.geometry(), &key, range.from, bytes) {
        Ok(leaf) => {
            let slot = put_leaf(&mut leaves.cache, range.number, leaf);
            hand.leaves = Some(leaves);
            Ok(slot)
        }
        Err(error) => {
            hand.leaves = Some(leaves);
            Err(refusal(bucket, error))
        }
    }
}

// Want of memory is the step's, and all else that of the node in a bucket.
fn refusal(bucket: u32, error: NodeError) -> LeafError
    ensures { result ≡ refusal bucket error }
{
    match error {
        NodeError::Memory => LeafError::Step(StepError::Memory),
        why => LeafError::Node { bucket, why },
    }
}
