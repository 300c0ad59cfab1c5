//! The step that takes and pins a place for data.
ghost use Rattle.std.specs.Prelude.{◌≡◌, ◌≢◌, ◌+◌, ◌<◌, ◌≤◌, ◌^◌, ◌==◌, ℕ, [], Bool, false, None, Some, length, IfOk, IfErr, OnErr};
ghost use Rattle.bc_alloc.specs.Reserves.{list_of};
ghost use Rattle.bc_bucket.specs.Buckets.{changed};
ghost use Rattle.bc_deed.specs.Asked.{IsHalted};
ghost use Rattle.bc_deed.specs.bc_hand.Seats.{core, world, kinds, IsCoreSeat, Works, Did, HasNoneBehindBuckets};
ghost use Rattle.bc_deed.specs.bc_machine.World.{FromEach, AreBuckets, are_plain};
ghost use Rattle.bc_parts.specs.Seat.{Holds};
ghost use Rattle.bc_place.specs.Next.{HasCut, HasFirst, IsNext, with_pins};
ghost use Rattle.bc_place.specs.Place.{HasBefore, HasHalted, HasOpened, HasPinned, HasPlaced, IsOwn};
ghost use Rattle.bc_place.specs.Written.{IsNew, KeepsPlaces};
ghost use Rattle.bc_seats.specs.Seats.{Kept};

use bc_alloc::{NoBucket, Purpose};
use bc_bucket::Buckets;
use bc_deed::bc_hand::error::StepError;
use bc_deed::bc_hand::hand::Hand;
use bc_deed::bc_hand::lend::{borrow_buckets, return_buckets};
use bc_deed::bc_hand::seat::commit;
use bc_deed::bc_machine::machine::{CoreParts, CoreSeat};
use bc_deed::bc_machine::part::BucketsPart;
use bc_disk::disk::Disk;
use bc_events::event::Deed;
use bc_fill::{Placed, place};
use bc_key::Ptr;
use std::sync::Wait;

/// Gives the seat a place for `count` sectors of data, or for as many as fit up to the end of an
/// open bucket, and pins it. Where no bucket is open, one is taken for data first. `before` buckets
/// of the device lie before the journal's.
///
/// An inner `Err` says that no bucket is open and none may be taken; then nothing is done. `Halted`
/// names the device that halted the run: nothing is done then, or a bucket was taken, in which
/// nothing is placed yet. Whatever comes, the seat knows of its other places what it knew.
pub fn pin<C: Disk + Drop, B: Disk + Drop, R: Wait>(
    rt: &R,
    parts: &CoreParts<C, B>,
    seat: &mut CoreSeat<C, B>,
    hand: &mut Hand<C, B>,
    before: u32,
    count: u32,
) -> Result<Result<Placed, NoBucket>, StepError>
    requires works { Works C.facts B.facts parts.now seat.old hand.old }
    requires cached { are_plain C.facts B.facts parts.now.run.start ≡ false }
    requires promise { 2 ≤ seat.old.promises }
    requires order { hand.old.buckets ≡ None → HasNoneBehindBuckets hand.old }
    requires before { FromEach (world C.facts B.facts seat.old) (HasBefore before) }
    requires count { 1 ≤ count }
    ensures works { Works C.facts B.facts parts.now seat.new hand.new }
    ensures hand { kinds hand.new ≡ kinds hand.old }
    ensures rest { hand.new ≡ record hand.old { buckets = hand.new.buckets } }
    ensures ok { IfOk result (λ answer. HasPlaced C.facts B.facts before count answer seat.old
        seat.new) }
    ensures knows { IfOk result (λ answer. IfOk answer (λ p.
        FromEach (world C.facts B.facts seat.new) (IsOwn seat.new.first p))) }
    ensures apart { IfOk result (λ answer. IfOk answer (λ p.
        IsNew C.facts B.facts p seat.old seat.new)) }
    ensures err { IfErr result (λ error. HasHalted C.facts B.facts error seat.old seat.new) }
    ensures left { seat.old.promises ≤ seat.new.promises + 2 }
    ensures keeps { KeepsPlaces C.facts B.facts seat.old seat.new }
{
    if let Some(device) = seat.heard() {
        return Err(StepError::Halted(device));
    }
    let (mut buckets, taken) = borrow_buckets(rt, parts, seat, hand);
    let done = pin_in(rt, parts, seat, buckets.get_mut(), before, count);
    return_buckets(parts, seat, hand, buckets, taken);
    done
}

// The same, of the part in hand.
fn pin_in<C: Disk, B: Disk, R: Wait>(
    rt: &R,
    parts: &CoreParts<C, B>,
    seat: &mut CoreSeat<C, B>,
    part: &mut BucketsPart,
    before: u32,
    count: u32,
) -> Result<Result<Placed, NoBucket>, StepError>
    requires run { seat.old.run ≡ parts.now.run }
    requires seat { IsCoreSeat C.facts B.facts seat.old }
    requires cached { are_plain C.facts B.facts parts.now.run.start ≡ false }
    requires promise { 2 ≤ seat.old.promises }
    requires holds { Holds seat.old.parts 2 }
    requires buckets { AreBuckets part.old (world C.facts B.facts seat.old) }
    requires before { FromEach (world C.facts B.facts seat.old) (HasBefore before) }
    requires count { 1 ≤ count }
    ensures seat { IsCoreSeat C.facts B.facts seat.new }
    ensures kept { Kept (core C.facts B.facts) seat.old seat.new (λ k. k == 2) }
    ensures buckets { AreBuckets part.new (world C.facts B.facts seat.new) }
    ensures ok { IfOk result (λ answer. HasPlaced C.facts B.facts before count answer seat.old
        seat.new) }
    ensures knows { IfOk result (λ answer. IfOk answer (λ p.
        FromEach (world C.facts B.facts seat.new) (IsOwn seat.new.first p))) }
    ensures apart { IfOk result (λ answer. IfOk answer (λ p.
        IsNew C.facts B.facts p seat.old seat.new)) }
    ensures err { IfErr result (λ error. HasHalted C.facts B.facts error seat.old seat.new) }
    ensures left { seat.old.promises ≤ seat.new.promises + 2 }
    ensures keeps { KeepsPlaces C.facts B.facts seat.old seat.new }
{
    let opened = match open_in(rt, parts, seat, part, before) {
        Ok(Ok(opened)) => opened,
        Ok(Err(none)) => return Ok(Err(none)),
        Err(error) => return Err(error),
    };
    match cut_in(rt, parts, seat, part, count) {
        Ok(placed) => Ok(Ok(Placed { opened, ..placed })),
        Err(error) => Err(error),
    }
}

// Takes a bucket for data from the plain list, where none is open.
fn open_in<C: Disk, B: Disk, R: Wait>(
    rt: &R,
    parts: &CoreParts<C, B>,
    seat: &mut CoreSeat<C, B>,
    part: &mut BucketsPart,
    before: u32,
) -> Result<Result<Option<u32>, NoBucket>, StepError>
    requires run { seat.old.run ≡ parts.now.run }
    requires seat { IsCoreSeat C.facts B.facts seat.old }
    requires cached { are_plain C.facts B.facts parts.now.run.start ≡ false }
    requires promise { 0 < seat.old.promises }
    requires holds { Holds seat.old.parts 2 }
    requires buckets { AreBuckets part.old (world C.facts B.facts seat.old) }
    requires before { FromEach (world C.facts B.facts seat.old) (HasBefore before) }
    ensures seat { IsCoreSeat C.facts B.facts seat.new }
    ensures kept { Kept (core C.facts B.facts) seat.old seat.new (λ k. k == 2) }
    ensures buckets { AreBuckets part.new (world C.facts B.facts seat.new) }
    ensures ok { IfOk result (λ answer. HasOpened C.facts B.facts before answer seat.old seat.new) }
    ensures open { IfOk result (λ answer. IfOk answer (λ k. 0 < length part.new.fill)) }
    ensures err { OnErr result (Did C.facts B.facts None seat.old seat.new) }
    ensures cause { IfErr result (λ error. IsHalted error seat.new.seen) }
    ensures keeps { KeepsPlaces C.facts B.facts seat.old seat.new }
{
    if !part.fill.open().is_empty() {
        return Ok(Ok(None));
    }
    if part.reserves.len(Purpose::Plain) == 0 {
        return Ok(Err(NoBucket {
            purpose: Purpose::Plain,
            none_len: 0,
            own_len: 0,
        }));
    }
    let bucket = part.reserves.get(Purpose::Plain, 0);
    let deed = Deed::Take {
        purpose: Purpose::Plain,
        bucket: bucket.saturating_sub(before),
    };
    if let Err(device) = commit(rt, parts, seat, deed) {
        return Err(StepError::Halted(device));
    }
    open_first(part);
    Ok(Ok(Some(bucket)))
}

// Opens the first bucket of the plain list, where none is open.
fn open_first(part: &mut BucketsPart)
    requires none { part.old.fill ≡ [] }
    requires some { 0 < length (list_of Purpose.Plain part.old.reserves).buckets }
    ensures { HasFirst part.old part.new }
{
    let Ok(bucket) = part.reserves.take(&mut part.buckets, Purpose::Plain) else {
        unreachable!()
    };
    // What the type of the lists says, holds once they are read.
    let _raised = part.reserves.raised_len();
    part.fill.add_bucket(bucket);
}

// Pins a place in the first open bucket.
fn cut_in<C: Disk, B: Disk, R: Wait>(
    rt: &R,
    parts: &CoreParts<C, B>,
    seat: &mut CoreSeat<C, B>,
    part: &mut BucketsPart,
    count: u32,
) -> Result<Placed, StepError>
    requires run { seat.old.run ≡ parts.now.run }
    requires seat { IsCoreSeat C.facts B.facts seat.old }
    requires cached { are_plain C.facts B.facts parts.now.run.start ≡ false }
    requires promise { 0 < seat.old.promises }
    requires holds { Holds seat.old.parts 2 }
    requires buckets { AreBuckets part.old (world C.facts B.facts seat.old) }
    requires open { 0 < length part.old.fill }
    requires count { 1 ≤ count }
    ensures seat { IsCoreSeat C.facts B.facts seat.new }
    ensures kept { Kept (core C.facts B.facts) seat.old seat.new (λ k. k == 2) }
    ensures buckets { AreBuckets part.new (world C.facts B.facts seat.new) }
    ensures ok { IfOk result (λ p. HasPinned C.facts B.facts count p seat.old seat.new) }
    ensures knows { IfOk result (λ p. FromEach (world C.facts B.facts seat.new)
        (IsOwn seat.new.first p)) }
    ensures apart { IfOk result (λ p. IsNew C.facts B.facts p seat.old seat.new) }
    ensures err { OnErr result (Did C.facts B.facts None seat.old seat.new) }
    ensures cause { IfErr result (λ error. IsHalted error seat.new.seen) }
    ensures keeps { KeepsPlaces C.facts B.facts seat.old seat.new }
{
    let (placed, full) = next_place(part, count);
    let deed = Deed::Pin {
        at: placed.ptr.offset,
        count: placed.count,
        full,
    };
    if let Err(device) = commit(rt, parts, seat, deed) {
        return Err(StepError::Halted(device));
    }
    cut_first(part, count, placed);
    Ok(placed)
}

// The place that the first open bucket has next, and whether it fills the bucket.
fn next_place(part: &BucketsPart, count: u32) -> (Placed, bool)
    requires open { 0 < length part.now.fill }
    requires count { 1 ≤ count }
    ensures { IsNext part.now count result.0 result.1 }
{
    let size = part.buckets.bucket_sectors();
    let open = part.fill.open()[0];
    let count = count.min(u32::from(size - open.next));
    let ptr = Ptr {
        dev: 0,
        offset: u64::from(open.bucket) * u64::from(size) + u64::from(open.next),
        generation: part.buckets.get(open.bucket).generation,
    };
    let full = (ptr.offset + u64::from(count)) % u64::from(size) == 0;
    (
        Placed {
            ptr,
            count,
            opened: None,
        },
        full,
    )
}

// Cuts that place, and pins each of its sectors.
fn cut_first(part: &mut BucketsPart, count: u32, placed: Placed)
    requires next { (full : Bool) × IsNext part.old count placed full }
    requires count { 1 ≤ count }
    ensures { HasCut part.old count placed part.new }
{
    let bucket = part.fill.open()[0].bucket;
    let Ok(_) = place(&mut part.fill, &mut part.reserves, &mut part.buckets, count) else {
        unreachable!()
    };
    pin_each(&mut part.buckets, bucket, placed.count);
}

// Pins so many places of a bucket, as far as they can be counted.
fn pin_each(buckets: &mut Buckets, bucket: u32, count: u32)
    requires { bucket < length buckets.old.records }
    ensures { buckets.new ≡ changed (with_pins count) bucket buckets.old }
{
    // Its count is one of 32 bits.
    let _known = buckets.get(bucket);
    for _ in 0..count {
        if buckets.get(bucket).pins < u32::MAX {
            buckets.pin(bucket);
        }
    }
}
