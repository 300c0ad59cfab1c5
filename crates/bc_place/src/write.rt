//! The step that writes values to a place that the seat pinned.
ghost use Rattle.std.specs.Prelude.{◌≡◌, ◌+◌, ◌*◌, ◌<◌, ◌≤◌, ◌==◌, ℕ, false, true, None, Some, length, OnOk, OnErr, IfErr, IfSome};
ghost use Rattle.bc_events.specs.Columns.{outlasts_halt};
ghost use Rattle.bc_events.specs.declared.event.Deed.{Deed};
ghost use Rattle.bc_deed.specs.bc_hand.Seats.{core, by, world, kinds, IsCoreSeat, MayDo, Works, Did, HasNoneBehindCache};
ghost use Rattle.bc_deed.specs.bc_machine.World.{FromEach, IsCache, are_plain, cache_among, changes};
ghost use Rattle.bc_model.specs.Sector.{values_of};
ghost use Rattle.bc_parts.specs.Seat.{Holds};
ghost use Rattle.bc_place.specs.Place.{IsOwn};
ghost use Rattle.bc_place.specs.Written.{HasFailedToPlace, HasStored, KeepsPlaces};
ghost use Rattle.bc_seats.specs.Seats.{Kept};

use bc_deed::bc_hand::error::StepError;
use bc_deed::bc_hand::hand::Hand;
use bc_deed::bc_hand::lend::{borrow_cache, return_cache};
use bc_deed::bc_hand::seat::commit;
use bc_deed::bc_machine::machine::{CoreParts, CoreSeat};
use bc_disk::disk::{Device, Disk};
use bc_events::event::{Deed, Failure, Written};
use bc_fill::Placed;
use bc_model::values::Values;
use std::alloc::Global;
use std::sync::Wait;

// Commits a call of the cache device, which no halt keeps out of a seat that wasn't told of one.
fn called<C: Disk, B: Disk, R: Wait>(
    rt: &R,
    parts: &CoreParts<C, B>,
    seat: &mut CoreSeat<C, B>,
    deed: Deed,
)
    requires run { seat.old.run ≡ parts.now.run }
    requires seat { IsCoreSeat C.facts B.facts seat.old }
    requires promise { 0 < seat.old.promises }
    requires holds { Holds seat.old.parts 4 }
    requires alone { (k : ℕ) → changes (length seat.old.run.start) (by seat.old.first deed) k
        ≡ (k == 4) }
    requires may { MayDo C.facts B.facts seat.old deed }
    requires outlasts { outlasts_halt deed ≡ true }
    ensures kept { Kept (core C.facts B.facts) seat.old seat.new (λ k. k == 4) }
    ensures did { Did C.facts B.facts (Some deed) seat.old seat.new }
{
    let Ok(()) = commit(rt, parts, seat, deed) else {
        unreachable!()
    };
}

/// Writes these values to the first sectors of a place that the seat pinned. The place may be
/// written again until a key or a candidate names it. From then on the seat knows what stands
/// there; what it knows of its other places it knows still.
///
/// `Fault` says that the write itself failed, which is committed then: each of the sectors reads as
/// before or as its new value. `Halted` says that a device had halted the run before, `Memory` that
/// there was none for the values; then nothing was done.
pub fn write_places<C: Disk + Drop, B: Disk + Drop, R: Wait>(
    rt: &R,
    alloc: Global,
    parts: &CoreParts<C, B>,
    seat: &mut CoreSeat<C, B>,
    hand: &mut Hand<C, B>,
    place: Placed,
    values: &Values,
) -> Result<(), StepError>
    requires works { Works C.facts B.facts parts.now seat.old hand.old }
    requires cached { are_plain C.facts B.facts parts.now.run.start ≡ false }
    requires order { hand.old.cache ≡ None → HasNoneBehindCache hand.old }
    requires promise { 0 < seat.old.promises }
    requires some { (1 ≤ length values.now) × (length values.now ≤ place.count) }
    requires disk { place.ptr.offset + place.count
        ≤ (cache_among C.facts B.facts parts.now.run.start).sectors }
    requires own { FromEach (world C.facts B.facts seat.old) (IsOwn seat.old.first place) }
    ensures works { Works C.facts B.facts parts.now seat.new hand.new }
    ensures hand { kinds hand.new ≡ kinds hand.old }
    ensures rest { hand.new ≡ record hand.old { cache = hand.new.cache } }
    ensures ok { OnOk result (HasStored C.facts B.facts place.ptr.offset values.now seat.old
        seat.new) }
    ensures err { IfErr result (λ error. HasFailedToPlace C.facts B.facts error place.ptr.offset
        values.now seat.old seat.new) }
    ensures keeps { OnErr result (KeepsPlaces C.facts B.facts seat.old seat.new) }
{
    if let Some(device) = seat.heard() {
        return Err(StepError::Halted(device));
    }
    let Ok(values) = values.copy() else {
        return Err(StepError::Memory);
    };
    let Some(bytes) = bytes_of(alloc, &values) else {
        return Err(StepError::Memory);
    };
    let (mut cache, taken) = borrow_cache(rt, parts, seat, hand);
    let done = write_in(rt, parts, seat, &mut cache, place, values, &bytes);
    return_cache(parts, seat, hand, cache, taken);
    done
}

// The bytes of these values.
fn bytes_of(alloc: Global, values: &Values) -> Option<Vec<u8>>
    ensures { IfSome result (λ bytes. (values_of bytes.items ≡ values.now)
        × (length bytes.items ≡ 512 * length values.now)) }
{
    let len = 512 * values.len() as usize;
    let mut bytes = vec![in alloc; 0; len].ok()?;
    values.put_into(&mut bytes);
    Some(bytes)
}

// The same, of the device in hand, with the bytes of the values.
fn write_in<C: Disk, B: Disk, R: Wait>(
    rt: &R,
    parts: &CoreParts<C, B>,
    seat: &mut CoreSeat<C, B>,
    cache: &mut C,
    place: Placed,
    values: Values,
    bytes: &[u8],
) -> Result<(), StepError>
    requires run { seat.old.run ≡ parts.now.run }
    requires seat { IsCoreSeat C.facts B.facts seat.old }
    requires unheard { seat.old.heard ≡ None }
    requires cached { are_plain C.facts B.facts parts.now.run.start ≡ false }
    requires promise { 0 < seat.old.promises }
    requires holds { Holds seat.old.parts 4 }
    requires cache { IsCache C.facts B.facts cache.old (world C.facts B.facts seat.old) }
    requires some { (1 ≤ length values) × (length values ≤ place.count) }
    requires bytes { (values_of bytes.now ≡ values) × (length bytes.now ≡ 512 * length values) }
    requires disk { place.ptr.offset + place.count
        ≤ (cache_among C.facts B.facts parts.now.run.start).sectors }
    requires own { FromEach (world C.facts B.facts seat.old) (IsOwn seat.old.first place) }
    ensures seat { IsCoreSeat C.facts B.facts seat.new }
    ensures kept { Kept (core C.facts B.facts) seat.old seat.new (λ k. k == 4) }
    ensures cache { IsCache C.facts B.facts cache.new (world C.facts B.facts seat.new) }
    ensures ok { OnOk result (HasStored C.facts B.facts place.ptr.offset values seat.old
        seat.new) }
    ensures err { IfErr result (λ error. HasFailedToPlace C.facts B.facts error place.ptr.offset
        values seat.old seat.new) }
    ensures keeps { OnErr result (KeepsPlaces C.facts B.facts seat.old seat.new) }
{
    let at = place.ptr.offset;
    match cache.write(at, bytes) {
        Ok(()) => {
            let what = Written::Data;
            called(rt, parts, seat, Deed::CacheWrite { at, what, values });
            Ok(())
        }
        Err(_) => {
            let what = Written::Data;
            let failure = Failure::CacheWrite { at, what, values };
            called(rt, parts, seat, Deed::DeviceFault { failure });
            Err(StepError::Fault(Device::Cache))
        }
    }
}
