//! A read of places of the cache device.
ghost use Rattle.std.specs.Prelude.{◌≡◌, ◌+◌, ◌*◌, ◌/◌, ◌<◌, ◌≤◌, ◌^◌, ◌==◌, ℕ, true, false, None, Some, Option, length, vec_capacity, [], OnOk, IfErr};
ghost use Rattle.bc_bucket.specs.Buckets.{Buckets};
ghost use Rattle.bc_disk.specs.declared.disk.Device.{Device};
ghost use Rattle.bc_events.specs.Columns.{outlasts_halt};
ghost use Rattle.bc_events.specs.declared.event.Deed.{Deed};
ghost use Rattle.bc_events.specs.declared.event.Failure.{Failure};
ghost use Rattle.bc_deed.specs.bc_hand.Seats.{core, by, IsCoreSeat, HasNoneBehindCache, MayDo, Works, Did, kinds, note, world};
ghost use Rattle.bc_deed.specs.Asked.{AreSectors, IsWithin};
ghost use Rattle.bc_looks.specs.bc_machine.World.{IsCache, are_plain, cache_among, changes};
ghost use Rattle.bc_model.specs.Sector.{Value, values_of};
ghost use Rattle.bc_node.specs.Leaf.{Leaf};
ghost use Rattle.bc_parts.specs.Seat.{Holds};
ghost use Rattle.bc_seats.specs.Seats.{Kept};
ghost use Rattle.bc_sight.specs.Asked.{HasFailedRead, HasFailedReadOr};
ghost use Rattle.bc_sight.specs.Sight.{HasLooked, Knows, OfClaim, PointsTo, with_values};

use bc_deed::bc_hand::error::StepError;
use bc_deed::bc_hand::hand::Hand;
use bc_deed::bc_hand::lend::{borrow_cache, return_cache};
use bc_deed::bc_hand::seat::commit;
use bc_disk::disk::{Device, Disk};
use bc_events::event::{Deed, Failure};
use bc_looks::bc_machine::machine::{CoreParts, CoreSeat};
use bc_model::values::Values;
use bc_worker::gate::{Gate, Point};
use std::alloc::Global;
use std::sync::Wait;

// Commits a call of the cache device, which no halt keeps out of a seat that wasn't told of one.
fn called<C: Disk, B: Disk, R: Wait>(
    rt: &R,
    parts: &CoreParts<C, B>,
    seat: &mut CoreSeat<C, B>,
    deed: Deed,
)
    requires run { seat.old.run ≡ parts.now.run }
    requires seat { IsCoreSeat C.facts B.facts seat.old }
    requires promise { 0 < seat.old.promises }
    requires holds { Holds seat.old.parts 4 }
    requires alone { (k : ℕ) → changes (length seat.old.run.start) (by seat.old.first deed) k
        ≡ (k == 4) }
    requires may { MayDo C.facts B.facts seat.old deed }
    requires outlasts { outlasts_halt deed ≡ true }
    ensures kept { Kept (core C.facts B.facts) seat.old seat.new (λ k. k == 4) }
    ensures did { Did C.facts B.facts (Some deed) seat.old seat.new }
{
    let Ok(()) = commit(rt, parts, seat, deed) else {
        unreachable!()
    };
}

/// Reads, for the sectors from `first` on of the seat's claim, the places of the cache device from
/// `at` on, to which the leaf's keys point that the seat looked at; after the gate at `BeforeRead`.
/// From then on it knows these values too. After an error the bytes of `into` are any.
pub fn cache_read<C: Disk + Drop, B: Disk + Drop, R: Wait, G: Gate>(
    rt: &R,
    alloc: Global,
    parts: &CoreParts<C, B>,
    seat: &mut CoreSeat<C, B>,
    hand: &mut Hand<C, B>,
    first: u64,
    at: u64,
    into: &mut [u8],
    gate: &G,
) -> Result<(), StepError>
    requires works { Works C.facts B.facts parts.now seat.old hand.old }
    requires cached { are_plain C.facts B.facts parts.now.run.start ≡ false }
    requires order { hand.old.cache ≡ None → HasNoneBehindCache hand.old }
    requires promise { 0 < seat.old.promises }
    requires sectors { AreSectors at (length into.old)
        (cache_among C.facts B.facts parts.now.run.start).sectors }
    requires covered { IsWithin (note C.facts B.facts seat.old).range first (length into.old / 512) }
    requires few { first + length into.old / 512 ≤ 2 ^ 64 }
    requires looked { (leaf : Leaf) × OfClaim C.facts B.facts seat.old (λ o c. HasLooked leaf c)
        × PointsTo leaf first (length into.old / 512) at }
    ensures works { Works C.facts B.facts parts.now seat.new hand.new }
    ensures hand { kinds hand.new ≡ kinds hand.old }
    ensures rest { hand.new ≡ record hand.old { cache = hand.new.cache } }
    ensures ok { OnOk result (Did C.facts B.facts
        (Some (Deed.CacheRead at (Some first) (values_of into.new))) seat.old seat.new) }
    ensures knows { OnOk result ((leaf : Leaf) (buckets : Buckets) (read : ℕ → Option Value)
        → OfClaim C.facts B.facts seat.old (λ o c. Knows o leaf buckets read c)
        → OfClaim C.facts B.facts seat.new
        (λ o c. Knows o leaf buckets (with_values first (values_of into.new) read) c)) }
    ensures err { IfErr result (λ error. HasFailedReadOr C.facts B.facts error seat.old seat.new) }
{
    if let Some(device) = seat.heard() {
        return Err(StepError::Halted(device));
    }
    let Ok(bytes) = Vec::with_capacity(alloc, into.len()) else {
        return Err(StepError::Memory);
    };
    let (mut cache, taken) = borrow_cache(rt, parts, seat, hand);
    gate.at(rt, seat.number(), Point::BeforeRead(Device::Cache));
    let done = read_in(rt, parts, seat, &mut cache, first, at, into, bytes);
    return_cache(parts, seat, hand, cache, taken);
    done
}

// The same, of the device in hand, with room for what is read.
fn read_in<C: Disk, B: Disk, R: Wait>(
    rt: &R,
    parts: &CoreParts<C, B>,
    seat: &mut CoreSeat<C, B>,
    cache: &mut C,
    first: u64,
    at: u64,
    into: &mut [u8],
    bytes: Vec<u8>,
) -> Result<(), StepError>
    requires run { seat.old.run ≡ parts.now.run }
    requires seat { IsCoreSeat C.facts B.facts seat.old }
    requires unheard { seat.old.heard ≡ None }
    requires cached { are_plain C.facts B.facts parts.now.run.start ≡ false }
    requires promise { 0 < seat.old.promises }
    requires holds { Holds seat.old.parts 4 }
    requires cache { IsCache {C = C} {B = B} C.facts B.facts cache.old (world C.facts B.facts seat.old) }
    requires room { (bytes.items ≡ []) × (length into.old ≤ vec_capacity bytes) }
    requires sectors { AreSectors at (length into.old)
        (cache_among C.facts B.facts parts.now.run.start).sectors }
    requires covered { IsWithin (note C.facts B.facts seat.old).range first (length into.old / 512) }
    requires few { first + length into.old / 512 ≤ 2 ^ 64 }
    requires looked { (leaf : Leaf) × OfClaim C.facts B.facts seat.old (λ o c. HasLooked leaf c)
        × PointsTo leaf first (length into.old / 512) at }
    ensures seat { IsCoreSeat C.facts B.facts seat.new }
    ensures kept { Kept (core C.facts B.facts) seat.old seat.new (λ k. k == 4) }
    ensures cache { IsCache {C = C} {B = B} C.facts B.facts cache.new (world C.facts B.facts seat.new) }
    ensures ok { OnOk result (Did C.facts B.facts
        (Some (Deed.CacheRead at (Some first) (values_of into.new))) seat.old seat.new) }
    ensures err { IfErr result (λ error. HasFailedRead C.facts B.facts error seat.old seat.new) }
{
    let mut bytes = bytes;
    match cache.read(at, into) {
        Ok(()) => {
            let Ok(()) = bytes.extend_from_slice(into) else {
                unreachable!()
            };
            let values = Values::from_sectors(first, bytes);
            let first = Some(first);
            called(rt, parts, seat, Deed::CacheRead { at, first, values });
            Ok(())
        }
        Err(_) => {
            let failure = Failure::Read {
                device: Device::Cache,
            };
            called(rt, parts, seat, Deed::DeviceFault { failure });
            Err(StepError::Fault(Device::Cache))
        }
    }
}
