//! Values that are put to one place.
ghost use Rattle.std.specs.Prelude.{◌≡◌, ◌+◌, ◌<◌, ◌≤◌, ◌^◌, drop, false, length, take, true, IfErr, IfOk, OnErr, OnOk};
ghost use Rattle.bc_insert.specs.bc_hand.Seats.{Works, empty, world};
ghost use Rattle.bc_insert.specs.bc_machine.World.{FromEach, are_plain, cache_among};
ghost use Rattle.bc_insert.specs.bc_place.Place.{HasBefore, IsOwn};
ghost use Rattle.bc_insert.specs.bc_place.Written.{HasStored, KeepsPlaces};
ghost use Rattle.bc_stored.specs.Stored.{HasNotStored, HasNotWritten, HasStoredAt, LiesBefore};

use crate::error::StoreError;
use bc_disk::disk::Disk;
use bc_fill::Placed;
use bc_insert::bc_hand::error::StepError;
use bc_insert::bc_hand::hand::Hand;
use bc_insert::bc_machine::machine::{CoreParts, CoreSeat};
use bc_insert::bc_place::pin::pin;
use bc_insert::bc_place::unpin::unpin;
use bc_insert::bc_place::write::write_places;
use bc_model::values::Values;
use std::alloc::Global;
use std::sync::Wait;

/// Puts values to a fresh place of the cache device, which has so many sectors: those from number
/// `from` on, or as many of them as fit up to the end of an open bucket. `first` is the sector of the
/// first of all the values; `before` buckets of the device lie before the journal's.
///
/// The place that comes back is the seat's own, and has the values. After an error none is: what was
/// pinned is let go, and the seat knows of its other places what it knew.
pub fn store_one<C: Disk + Drop, B: Disk + Drop, R: Wait>(
    rt: &R,
    alloc: Global,
    parts: &CoreParts<C, B>,
    seat: &mut CoreSeat<C, B>,
    hand: &mut Hand<C, B>,
    before: u32,
    sectors: u64,
    first: u64,
    values: &Values,
    from: u32,
) -> Result<Placed, StoreError>
    requires works { Works C.facts B.facts parts.now seat.old hand.old }
    requires empty { hand.old ≡ empty }
    requires cached { are_plain C.facts B.facts parts.now.run.start ≡ false }
    requires promise { 4 ≤ seat.old.promises }
    requires before { FromEach (world C.facts B.facts seat.old) (HasBefore before) }
    requires sectors { sectors ≡ (cache_among C.facts B.facts parts.now.run.start).sectors }
    requires from { from < length values.now }
    requires range { first + length values.now ≤ 2 ^ 64 }
    ensures works { Works C.facts B.facts parts.now seat.new hand.new }
    ensures empty { hand.new ≡ empty }
    ensures left { seat.old.promises ≤ seat.new.promises + 4 }
    ensures spared { OnOk result (seat.old.promises ≤ seat.new.promises + 3) }
    ensures ok { IfOk result (λ p. HasStoredAt C.facts B.facts before sectors p
        (drop from values.now) seat.old seat.new) }
    ensures err { IfErr result (λ error. HasNotStored C.facts B.facts before sectors error
        (drop from values.now) seat.old seat.new) }
{
    let count = values.len() - from;
    let place = match pin(rt, parts, seat, hand, before, count) {
        Ok(Ok(place)) => place,
        Ok(Err(_)) => return Err(StoreError::NoBucket),
        Err(error) => return Err(StoreError::Step(error)),
    };
    let written = write_to(
        rt, alloc, parts, seat, hand, place, sectors, first, values, from,
    );
    if let Err(error) = written {
        unpin(rt, parts, seat, hand, place);
        return Err(error);
    }
    Ok(place)
}

// Writes the values from number `from` on to a place that was pinned for them.
fn write_to<C: Disk + Drop, B: Disk + Drop, R: Wait>(
    rt: &R,
    alloc: Global,
    parts: &CoreParts<C, B>,
    seat: &mut CoreSeat<C, B>,
    hand: &mut Hand<C, B>,
    place: Placed,
    sectors: u64,
    first: u64,
    values: &Values,
    from: u32,
) -> Result<(), StoreError>
    requires works { Works C.facts B.facts parts.now seat.old hand.old }
    requires empty { hand.old ≡ empty }
    requires cached { are_plain C.facts B.facts parts.now.run.start ≡ false }
    requires promise { 0 < seat.old.promises }
    requires sectors { sectors ≡ (cache_among C.facts B.facts parts.now.run.start).sectors }
    requires some { 1 ≤ place.count }
    requires most { from + place.count ≤ length values.now }
    requires range { first + length values.now ≤ 2 ^ 64 }
    requires own { FromEach (world C.facts B.facts seat.old) (IsOwn seat.old.first place) }
    ensures works { Works C.facts B.facts parts.now seat.new hand.new }
    ensures empty { hand.new ≡ empty }
    ensures left { seat.old.promises ≤ seat.new.promises + 1 }
    ensures lies { OnOk result (LiesBefore sectors place) }
    ensures ok { OnOk result (HasStored C.facts B.facts place.ptr.offset
        (take place.count (drop from values.now)) seat.old seat.new) }
    ensures err { IfErr result (λ error. HasNotWritten C.facts B.facts sectors error place
        (take place.count (drop from values.now)) seat.old seat.new) }
    ensures keeps { OnErr result (KeepsPlaces C.facts B.facts seat.old seat.new) }
{
    if !lies_before(sectors, &place) {
        return Err(StoreError::Outside);
    }
    let Ok(part) = values.part(first, from, place.count) else {
        return Err(StoreError::Step(StepError::Memory));
    };
    match write_places(rt, alloc, parts, seat, hand, place, &part) {
        Ok(()) => Ok(()),
        Err(error) => Err(StoreError::Step(error)),
    }
}

// The places that a pointer can name end here.
const PLACES: u64 = 1 << 43;

// Whether the place may be written and named, on a device of so many sectors.
fn lies_before(sectors: u64, place: &Placed) -> bool
    ensures yes { result ≡ true → LiesBefore sectors place.now }
    ensures no { result ≡ false → LiesBefore sectors place.now → ⊥ }
{
    let end = sectors.min(PLACES);
    let count = u64::from(place.count);
    count <= end && place.ptr.offset <= end - count
}
