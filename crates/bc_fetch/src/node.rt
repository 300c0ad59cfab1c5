//! A read of a node of the cache device.
ghost use Rattle.std.specs.Prelude.{◌≡◌, ◌+◌, ◌*◌, ◌/◌, ◌<◌, ◌≤◌, ◌^◌, ◌==◌, ℕ, true, false, None, Some, Option, length, [], OnOk, IfErr};
ghost use Rattle.bc_sight.specs.bc_deed.Asked.{AreSectors};
ghost use Rattle.bc_events.specs.Columns.{outlasts_halt};
ghost use Rattle.bc_events.specs.declared.event.Deed.{Deed};
ghost use Rattle.bc_sight.specs.bc_hand.Seats.{core, by, IsCoreSeat, HasNoneBehindCache, MayDo, Works, Did, world};
ghost use Rattle.bc_sight.specs.bc_machine.World.{IsCache, are_plain, cache_among, changes};
ghost use Rattle.bc_model.specs.Sector.{values_of};
ghost use Rattle.bc_parts.specs.Seat.{Holds};
ghost use Rattle.bc_seats.specs.Seats.{Kept, Waited};
ghost use Rattle.bc_sight.specs.Asked.{HasFailedRead};
ghost use Rattle.bc_fetch.specs.Fetch.{IsSameButCache, MayStandAt, node_read};

use bc_disk::disk::{Device, Disk};
use bc_events::event::{Deed, Failure};
use bc_model::values::Values;
use bc_sight::bc_hand::error::StepError;
use bc_sight::bc_hand::hand::Hand;
use bc_sight::bc_hand::lend::{borrow_cache, return_cache};
use bc_sight::bc_hand::seat::commit;
use bc_sight::bc_machine::machine::{CoreParts, CoreSeat};
use bc_worker::gate::{Gate, Point};
use std::alloc::Global;
use std::sync::Wait;

/// How many sectors the cache device has.
pub fn cache_sectors<C: Disk + Drop, B: Disk + Drop, R: Wait>(
    rt: &R,
    parts: &CoreParts<C, B>,
    seat: &mut CoreSeat<C, B>,
    hand: &mut Hand<C, B>,
) -> u64
    requires works { Works C.facts B.facts parts.now seat.old hand.old }
    requires cached { are_plain C.facts B.facts parts.now.run.start ≡ false }
    requires order { hand.old.cache ≡ None → HasNoneBehindCache hand.old }
    ensures works { Works C.facts B.facts parts.now seat.new hand.new }
    ensures waited { Waited (core C.facts B.facts) seat.old seat.new }
    ensures heard { seat.new.heard ≡ seat.old.heard }
    ensures hand { IsSameButCache hand.old hand.new }
    ensures sectors { result ≡ (cache_among C.facts B.facts parts.now.run.start).sectors }
{
    let (cache, taken) = borrow_cache(rt, parts, seat, hand);
    let sectors = cache.sectors();
    return_cache(parts, seat, hand, cache, taken);
    sectors
}

// Commits a call of the cache device, which no halt keeps out of a seat that wasn't told of one.
fn called<C: Disk, B: Disk, R: Wait>(
    rt: &R,
    parts: &CoreParts<C, B>,
    seat: &mut CoreSeat<C, B>,
    deed: Deed,
)
    requires run { seat.old.run ≡ parts.now.run }
    requires seat { IsCoreSeat C.facts B.facts seat.old }
    requires promise { 0 < seat.old.promises }
    requires holds { Holds seat.old.parts 4 }
    requires alone { (k : ℕ) → changes (length seat.old.run.start) (by seat.old.first deed) k
        ≡ (k == 4) }
    requires may { MayDo C.facts B.facts seat.old deed }
    requires outlasts { outlasts_halt deed ≡ true }
    ensures kept { Kept (core C.facts B.facts) seat.old seat.new (λ k. k == 4) }
    ensures did { Did C.facts B.facts (Some deed) seat.old seat.new }
{
    let Ok(()) = commit(rt, parts, seat, deed) else {
        unreachable!()
    };
}

/// Reads the sectors of the cache device from `at` on, which are no data, after the gate at
/// `BeforeRead`. After an error the bytes of `into` are any.
pub fn read_node<C: Disk + Drop, B: Disk + Drop, R: Wait, G: Gate>(
    rt: &R,
    alloc: Global,
    parts: &CoreParts<C, B>,
    seat: &mut CoreSeat<C, B>,
    hand: &mut Hand<C, B>,
    at: u64,
    into: &mut [u8],
    gate: &G,
) -> Result<(), StepError>
    requires works { Works C.facts B.facts parts.now seat.old hand.old }
    requires cached { are_plain C.facts B.facts parts.now.run.start ≡ false }
    requires order { hand.old.cache ≡ None → HasNoneBehindCache hand.old }
    requires promise { 0 < seat.old.promises }
    requires sectors { AreSectors at (length into.old)
        (cache_among C.facts B.facts parts.now.run.start).sectors }
    ensures works { Works C.facts B.facts parts.now seat.new hand.new }
    ensures hand { IsSameButCache hand.old hand.new }
    ensures ok { OnOk result (Did C.facts B.facts (Some (node_read at)) seat.old seat.new) }
    ensures read { OnOk result (MayStandAt C.facts B.facts seat.new at (values_of into.new)) }
    ensures err { IfErr result (λ error. HasFailedRead C.facts B.facts error seat.old seat.new) }
{
    if let Some(device) = seat.heard() {
        return Err(StepError::Halted(device));
    }
    let (mut cache, taken) = borrow_cache(rt, parts, seat, hand);
    gate.at(rt, seat.number(), Point::BeforeRead(Device::Cache));
    let done = read_in(rt, alloc, parts, seat, &mut cache, at, into);
    return_cache(parts, seat, hand, cache, taken);
    done
}

// The same, of the device in hand.
fn read_in<C: Disk, B: Disk, R: Wait>(
    rt: &R,
    alloc: Global,
    parts: &CoreParts<C, B>,
    seat: &mut CoreSeat<C, B>,
    cache: &mut C,
    at: u64,
    into: &mut [u8],
) -> Result<(), StepError>
    requires run { seat.old.run ≡ parts.now.run }
    requires seat { IsCoreSeat C.facts B.facts seat.old }
    requires unheard { seat.old.heard ≡ None }
    requires cached { are_plain C.facts B.facts parts.now.run.start ≡ false }
    requires promise { 0 < seat.old.promises }
    requires holds { Holds seat.old.parts 4 }
    requires cache { IsCache {C = C} {B = B} C.facts B.facts cache.old (world C.facts B.facts seat.old) }
    requires sectors { AreSectors at (length into.old)
        (cache_among C.facts B.facts parts.now.run.start).sectors }
    ensures seat { IsCoreSeat C.facts B.facts seat.new }
    ensures kept { Kept (core C.facts B.facts) seat.old seat.new (λ k. k == 4) }
    ensures cache { IsCache {C = C} {B = B} C.facts B.facts cache.new (world C.facts B.facts seat.new) }
    ensures ok { OnOk result (Did C.facts B.facts (Some (node_read at)) seat.old seat.new) }
    ensures read { OnOk result (MayStandAt C.facts B.facts seat.new at (values_of into.new)) }
    ensures err { IfErr result (λ error. HasFailedRead C.facts B.facts error seat.old seat.new) }
{
    match cache.read(at, into) {
        Ok(()) => {
            let first = None;
            let values = Values::new(alloc);
            called(rt, parts, seat, Deed::CacheRead { at, first, values });
            Ok(())
        }
        Err(_) => {
            let failure = Failure::Read {
                device: Device::Cache,
            };
            called(rt, parts, seat, Deed::DeviceFault { failure });
            Err(StepError::Fault(Device::Cache))
        }
    }
}
