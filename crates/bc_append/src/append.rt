//! The step that writes a further set of a leaf.
ghost use Rattle.std.specs.Prelude.{◌≡◌, ◌*◌, ◌+◌, ◌<◌, ◌≤◌, ◌↔◌, ℕ, false, true, None, Some, length, IfErr, IfOk, IfSome, IsTrue, OnOk, OnErr};
ghost use Rattle.bc_append.specs.Append.{CanAppend, FitsOn, HasAnswered, HasAppended, HasFailedToAppend, HasLeafIn, HasLost};
ghost use Rattle.bc_cache.specs.Slots.{IsSlotOf};
ghost use Rattle.bc_disk.specs.declared.disk.Device.{Device};
ghost use Rattle.bc_append.specs.Durable.{IsDurableTo};
ghost use Rattle.bc_events.specs.Columns.{outlasts_halt};
ghost use Rattle.bc_events.specs.declared.event.Deed.{Deed};
ghost use Rattle.bc_place.specs.bc_hand.Seats.{Did, HasNoneBehindCache, IsCoreSeat, MayDo, Works, by, core, kinds, world};
ghost use Rattle.bc_place.specs.bc_hand.declared.error.StepError.{StepError};
ghost use Rattle.bc_place.specs.bc_hand.declared.hand.LeafHand.{LeafHand};
ghost use Rattle.bc_place.specs.bc_machine.World.{FromEach, are_plain, cache_among, changes};
ghost use Rattle.bc_place.specs.Written.{KeepsPlaces};
ghost use Rattle.bc_node.specs.Leaf.{IsFull};
ghost use Rattle.bc_parts.specs.Seat.{Holds};
ghost use Rattle.bc_seats.specs.Seats.{Kept};

use crate::error::NoRoom;
use crate::write::{write_set, written_sectors};
use bc_disk::disk::{Device, Disk};
use bc_events::event::{Deed, Failure, Written};
use bc_model::values::Values;
use bc_place::bc_hand::error::StepError;
use bc_place::bc_hand::hand::Hand;
use bc_place::bc_hand::lend::{borrow_cache, return_cache};
use bc_place::bc_hand::seat::commit;
use bc_place::bc_machine::machine::{CoreParts, CoreSeat};
use std::alloc::Global;
use std::sync::Wait;

/// Whether what is pending of the leaf of this number, which the part in hand has, fits behind the
/// other sets of its node.
pub fn may_append<C, B>(hand: &Hand<C, B>, leaf: u32) -> bool
    requires { (slot : ℕ) × HasLeafIn hand.now slot leaf }
    ensures { (slot : ℕ) (at : HasLeafIn hand.now slot leaf)
        → IsTrue result ↔ ¬ (IsFull at.leaves.cache.geometry at.cached.leaf) }
{
    let slot = slot_in(hand, leaf);
    fits_in(hand, slot)
}

// The slot that has the leaf of this number.
fn slot_in<C, B>(hand: &Hand<C, B>, leaf: u32) -> u32
    requires { (slot : ℕ) × HasLeafIn hand.now slot leaf }
    ensures { (slot : ℕ) (at : HasLeafIn hand.now slot leaf)
        → (slot ≡ result) × IsSlotOf at.leaves.cache.slots leaf result }
{
    let Some(leaves) = &hand.leaves else {
        unreachable!()
    };
    let Some(slot) = leaves.cache.find(leaf) else {
        unreachable!()
    };
    slot
}

// Whether what is pending of the leaf in this slot fits behind its sets.
fn fits_in<C, B>(hand: &Hand<C, B>, slot: u32) -> bool
    requires { (leaf : ℕ) × HasLeafIn hand.now slot leaf }
    ensures { (leaf : ℕ) (at : HasLeafIn hand.now slot leaf)
        → IsTrue result ↔ ¬ (IsFull at.leaves.cache.geometry at.cached.leaf) }
{
    let Some(leaves) = &hand.leaves else {
        unreachable!()
    };
    !leaves.cache.leaf(slot).is_full(leaves.cache.geometry())
}

// Room for the bytes of a node.
fn buffer_for<C, B>(alloc: Global, hand: &Hand<C, B>) -> Option<Vec<u8>>
    requires { (leaves : LeafHand) × (hand.now.leaves ≡ Some leaves) }
    ensures { IfSome result (λ bytes. (leaves : LeafHand) → hand.now.leaves ≡ Some leaves
        → length bytes.items ≡ 512 * leaves.cache.geometry.node_sectors) }
{
    let Some(leaves) = &hand.leaves else {
        unreachable!()
    };
    let sectors = usize::from(leaves.cache.geometry().node_sectors);
    vec![in alloc; 0u8; 512 * sectors].ok()
}

// Whether the node of the leaf in this slot ends within a device of so many sectors.
fn lies_within<C, B>(hand: &Hand<C, B>, slot: u32, sectors: u64) -> bool
    requires { (leaf : ℕ) × HasLeafIn hand.now slot leaf }
    ensures { (leaf : ℕ) (at : HasLeafIn hand.now slot leaf) → IsTrue result
        ↔ (at.cached.leaf.ptr.offset + at.leaves.cache.geometry.node_sectors ≤ sectors) }
{
    let Some(leaves) = &hand.leaves else {
        unreachable!()
    };
    let room = u64::from(leaves.cache.geometry().node_sectors);
    leaves.cache.leaf(slot).ptr().offset + room <= sectors
}

// Commits a call of the cache device, which no halt keeps out of a seat that wasn't told of one.
fn called<C: Disk, B: Disk, R: Wait>(
    rt: &R,
    parts: &CoreParts<C, B>,
    seat: &mut CoreSeat<C, B>,
    deed: Deed,
)
    requires run { seat.old.run ≡ parts.now.run }
    requires seat { IsCoreSeat C.facts B.facts seat.old }
    requires promise { 0 < seat.old.promises }
    requires holds { (k : ℕ) → changes (length seat.old.run.start) (by seat.old.first deed) k ≡ true
        → Holds seat.old.parts k }
    requires may { MayDo C.facts B.facts seat.old deed }
    requires outlasts { outlasts_halt deed ≡ true }
    ensures kept { Kept (core C.facts B.facts) seat.old seat.new
        (changes (length seat.old.run.start) (by seat.old.first deed)) }
    ensures did { Did C.facts B.facts (Some deed) seat.old seat.new }
{
    let Ok(()) = commit(rt, parts, seat, deed) else {
        unreachable!()
    };
}

/// Writes what is pending of the leaf of this number as a further set of its node, behind the others.
/// The part with the leaf is in hand, and the leaf was written in this run; the journal is durable up
/// to the last entry that holds keys of it. From then on nothing is pending of it.
///
/// An inner `Err` says why there is no place for the set; then nothing was done.
///
/// `Fault` says that the write itself failed, which is committed then: of the set the device has
/// nothing, or a part, or all, and the leaf is closed, with what is pending. `Halted` says that a
/// device had halted the run before, `Memory` that there was none for the bytes; then nothing was
/// done. Whatever comes, the seat knows of its places what it knew.
pub fn append_set<C: Disk + Drop, B: Disk + Drop, R: Wait>(
    rt: &R,
    alloc: Global,
    parts: &CoreParts<C, B>,
    seat: &mut CoreSeat<C, B>,
    hand: &mut Hand<C, B>,
    leaf: u32,
) -> Result<Result<(), NoRoom>, StepError>
    requires works { Works C.facts B.facts parts.now seat.old hand.old }
    requires cached { are_plain C.facts B.facts parts.now.run.start ≡ false }
    requires order { hand.old.cache ≡ None → HasNoneBehindCache hand.old }
    requires promise { 0 < seat.old.promises }
    requires can { (slot : ℕ) × (can : CanAppend hand.old (length parts.now.run.start) slot leaf)
        × FromEach (world C.facts B.facts seat.old) (IsDurableTo can.entries.last) }
    ensures works { Works C.facts B.facts parts.now seat.new hand.new }
    ensures kinds { kinds hand.new ≡ kinds hand.old }
    ensures ok { IfOk result (λ answer. HasAnswered C.facts B.facts
        (cache_among C.facts B.facts parts.now.run.start).sectors leaf answer hand.old hand.new
        seat.old seat.new) }
    ensures err { IfErr result (λ error. HasFailedToAppend C.facts B.facts error leaf hand.old
        hand.new seat.old seat.new) }
    ensures left { seat.old.promises ≤ seat.new.promises + 1 }
    ensures keeps { KeepsPlaces C.facts B.facts seat.old seat.new }
{
    if let Some(device) = seat.heard() {
        return Err(StepError::Halted(device));
    }
    let slot = slot_in(hand, leaf);
    if !fits_in(hand, slot) {
        return Ok(Err(NoRoom::Full));
    }
    let Some(buffer) = buffer_for(alloc, hand) else {
        return Err(StepError::Memory);
    };
    let (mut cache, taken) = borrow_cache(rt, parts, seat, hand);
    let room = lies_within(hand, slot, cache.sectors());
    if !room {
        return_cache(parts, seat, hand, cache, taken);
        return Ok(Err(NoRoom::Outside));
    }
    let done = append_in(rt, parts, seat, hand, leaf, slot, &mut cache, buffer);
    return_cache(parts, seat, hand, cache, taken);
    match done {
        Ok(()) => Ok(Ok(())),
        Err(error) => Err(error),
    }
}

// The same, of the leaf in this slot and the device in hand, on which the node lies, with room for a
// node's bytes.
fn append_in<C: Disk + Drop, B: Disk + Drop, R: Wait>(
    rt: &R,
    parts: &CoreParts<C, B>,
    seat: &mut CoreSeat<C, B>,
    hand: &mut Hand<C, B>,
    leaf: u32,
    slot: u32,
    cache: &mut C,
    mut buffer: Vec<u8>,
) -> Result<(), StepError>
    requires works { Works C.facts B.facts parts.now seat.old
        (record hand.old { cache = Some cache.old }) }
    requires unheard { seat.old.heard ≡ None }
    requires cached { are_plain C.facts B.facts parts.now.run.start ≡ false }
    requires promise { 0 < seat.old.promises }
    requires can { (can : CanAppend hand.old (length parts.now.run.start) slot leaf)
        × FromEach (world C.facts B.facts seat.old) (IsDurableTo can.entries.last)
        × IsSlotOf can.at.leaves.cache.slots leaf slot
        × FitsOn can.at.leaves.cache.geometry can.at.cached.leaf (C.facts cache.old).sectors
        × (length buffer.items ≡ 512 * can.at.leaves.cache.geometry.node_sectors) }
    ensures works { Works C.facts B.facts parts.now seat.new
        (record hand.new { cache = Some cache.new }) }
    ensures ok { OnOk result (HasAppended C.facts B.facts leaf hand.old hand.new seat.old
        seat.new) }
    ensures err { IfErr result (λ error. (error ≡ StepError.Fault Device.Cache)
        × HasLost C.facts B.facts leaf hand.old hand.new seat.old seat.new) }
    ensures rest { hand.new ≡ record hand.old { leaves = hand.new.leaves } }
{
    let Some(mut leaves) = hand.leaves.take() else {
        unreachable!()
    };
    let own = leaves.cache.leaf(slot);
    let at = own.ptr().offset + u64::from(own.taken());
    let len = 512 * written_sectors(leaves.cache.geometry(), own);
    let sent = write_set(&mut leaves.cache, slot, cache, &mut buffer);
    hand.leaves = Some(leaves);
    buffer.truncate(len);
    let values = Values::from_raw(buffer);
    let what = Written::Set { leaf };
    match sent {
        Ok(()) => {
            called(rt, parts, seat, Deed::CacheWrite { at, what, values });
            Ok(())
        }
        Err(_) => {
            let failure = Failure::CacheWrite { at, what, values };
            called(rt, parts, seat, Deed::DeviceFault { failure });
            Err(StepError::Fault(Device::Cache))
        }
    }
}
