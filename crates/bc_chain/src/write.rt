//! The step that writes a set of a chain.
ghost use Rattle.std.specs.Prelude.{◌≡◌, ◌+◌, ◌-◌, ◌*◌, ◌<◌, ◌≤◌, ◌==◌, ℕ, false, true, None, Some, length, OnOk, OnErr, IfErr};
ghost use Rattle.bc_chain.specs.Written.{HasBucketsAndCache, HasLostSet, HasWrittenSet, IsPart, number_of};
ghost use Rattle.bc_chains.specs.Written.{IsDivided, IsForChain};
ghost use Rattle.bc_disk.specs.Chain.{bucket_bytes, sets_in_chain};
ghost use Rattle.bc_events.specs.Columns.{outlasts_halt};
ghost use Rattle.bc_events.specs.declared.event.Deed.{Deed};
ghost use Rattle.bc_model.specs.Sector.{values_of};
ghost use Rattle.bc_parts.specs.Seat.{Holds};
ghost use Rattle.bc_place.specs.Written.{KeepsPlaces};
ghost use Rattle.bc_place.specs.bc_hand.Seats.{by, core, world, IsCoreSeat, MayDo, Works, Did};
ghost use Rattle.bc_place.specs.bc_machine.World.{FromEach, IsCache, are_plain, cache_among, changes};
ghost use Rattle.bc_prio.specs.Set.{IsWrittenSet};
ghost use Rattle.bc_seats.specs.Seats.{Kept};

use bc_disk::disk::{Device, Disk};
use bc_disk::gens::Gens;
use bc_disk::geometry::Geometry;
use bc_events::event::{Deed, Failure, Written};
use bc_model::values::Values;
use bc_place::bc_hand::error::StepError;
use bc_place::bc_hand::hand::Hand;
use bc_place::bc_hand::seat::commit;
use bc_place::bc_machine::machine::{CoreParts, CoreSeat};
use bc_prio::encode_set;
use std::sync::Wait;

/// Writes the set of this part of a chain into a bucket of the device that the seat holds for it.
/// It names the bucket `next` as the next one, and none where it is the last part. `bytes` is as
/// long as a bucket. The buckets and the cache device are in hand, and stay so. Takes no memory.
///
/// `Fault` says that the write itself failed, which is committed then, and `Halted` that a device
/// had halted the run before; then nothing was done.
pub fn write_set<C: Disk + Drop, B: Disk + Drop, R: Wait>(
    rt: &R,
    parts: &CoreParts<C, B>,
    seat: &mut CoreSeat<C, B>,
    hand: &mut Hand<C, B>,
    g: &Geometry,
    gens: &Gens,
    bucket: u32,
    part: u32,
    next: u32,
    bytes: Vec<u8>,
) -> Result<(), StepError>
    requires works { Works C.facts B.facts parts.now seat.old hand.old }
    requires cached { are_plain C.facts B.facts parts.now.run.start ≡ false }
    requires promise { 0 < seat.old.promises }
    requires hand { HasBucketsAndCache hand.old }
    requires divided { FromEach (world C.facts B.facts seat.old) (IsDivided g.now) }
    requires held { FromEach (world C.facts B.facts seat.old)
        (IsForChain seat.old.first (number_of g.now bucket)) }
    requires part { IsPart g.now bucket part next }
    requires records { length gens.now.records ≡ g.now.nbuckets }
    requires bytes { length bytes.items ≡ bucket_bytes g.now }
    requires disk { g.now.bucket * g.now.nbuckets
        ≤ (cache_among C.facts B.facts parts.now.run.start).sectors }
    ensures works { Works C.facts B.facts parts.now seat.new hand.new }
    ensures hand { HasBucketsAndCache hand.new }
    ensures rest { hand.new ≡ record hand.old { cache = hand.new.cache } }
    ensures ok { OnOk result (HasWrittenSet C.facts B.facts g.now gens.now.records bucket part next
        seat.old seat.new) }
    ensures err { IfErr result (λ error. HasLostSet C.facts B.facts error g.now gens.now.records
        bucket part next seat.old seat.new) }
    ensures keeps { KeepsPlaces C.facts B.facts seat.old seat.new }
{
    if let Some(device) = seat.heard() {
        return Err(StepError::Halted(device));
    }
    let mut bytes = bytes;
    encode_set(g, gens, part, next, &mut bytes);
    let Some(mut cache) = hand.cache.take() else {
        unreachable!()
    };
    let at = u64::from(g.bucket) * u64::from(bucket);
    let number = bucket - u32::from(g.first_bucket);
    let done = write_in(
        rt, parts, seat, &mut cache, g, gens, bucket, part, next, at, number, bytes,
    );
    hand.cache = Some(cache);
    done
}

// The same, of the device in hand, with the set's bytes.
fn write_in<C: Disk, B: Disk, R: Wait>(
    rt: &R,
    parts: &CoreParts<C, B>,
    seat: &mut CoreSeat<C, B>,
    cache: &mut C,
    g: &Geometry,
    gens: &Gens,
    bucket: u32,
    part: u32,
    next: u32,
    at: u64,
    number: u32,
    bytes: Vec<u8>,
) -> Result<(), StepError>
    requires run { seat.old.run ≡ parts.now.run }
    requires seat { IsCoreSeat C.facts B.facts seat.old }
    requires unheard { seat.old.heard ≡ None }
    requires cached { are_plain C.facts B.facts parts.now.run.start ≡ false }
    requires promise { 0 < seat.old.promises }
    requires holds { Holds seat.old.parts 2 × Holds seat.old.parts 4 }
    requires cache { IsCache C.facts B.facts cache.old (world C.facts B.facts seat.old) }
    requires divided { FromEach (world C.facts B.facts seat.old) (IsDivided g.now) }
    requires held { FromEach (world C.facts B.facts seat.old)
        (IsForChain seat.old.first (number_of g.now bucket)) }
    requires part { IsPart g.now bucket part next }
    requires at { at ≡ g.now.bucket * bucket }
    requires number { number ≡ number_of g.now bucket }
    requires set { IsWrittenSet g.now gens.now.records part next bytes.items }
    requires disk { g.now.bucket * g.now.nbuckets
        ≤ (cache_among C.facts B.facts parts.now.run.start).sectors }
    ensures seat { IsCoreSeat C.facts B.facts seat.new }
    ensures kept { Kept (core C.facts B.facts) seat.old seat.new (λ k. k == 4) }
    ensures cache { IsCache C.facts B.facts cache.new (world C.facts B.facts seat.new) }
    ensures ok { OnOk result (HasWrittenSet C.facts B.facts g.now gens.now.records bucket part next
        seat.old seat.new) }
    ensures err { IfErr result (λ error. HasLostSet C.facts B.facts error g.now gens.now.records
        bucket part next seat.old seat.new) }
    ensures keeps { KeepsPlaces C.facts B.facts seat.old seat.new }
{
    match cache.write(at, &bytes) {
        Ok(()) => {
            let what = Written::Priorities {
                bucket: number,
                part,
            };
            let values = Values::from_sectors(0, bytes);
            called(rt, parts, seat, Deed::CacheWrite { at, what, values });
            Ok(())
        }
        Err(_) => {
            let what = Written::Priorities {
                bucket: number,
                part,
            };
            let values = Values::from_sectors(0, bytes);
            let failure = Failure::CacheWrite { at, what, values };
            called(rt, parts, seat, Deed::DeviceFault { failure });
            Err(StepError::Fault(Device::Cache))
        }
    }
}

// Commits a call of the cache device, which no halt keeps out of a seat that wasn't told of one.
fn called<C: Disk, B: Disk, R: Wait>(
    rt: &R,
    parts: &CoreParts<C, B>,
    seat: &mut CoreSeat<C, B>,
    deed: Deed,
)
    requires run { seat.old.run ≡ parts.now.run }
    requires seat { IsCoreSeat C.facts B.facts seat.old }
    requires promise { 0 < seat.old.promises }
    requires holds { Holds seat.old.parts 4 }
    requires alone { (k : ℕ) → changes (length seat.old.run.start) (by seat.old.first deed) k
        ≡ (k == 4) }
    requires may { MayDo C.facts B.facts seat.old deed }
    requires outlasts { outlasts_halt deed ≡ true }
    ensures kept { Kept (core C.facts B.facts) seat.old seat.new (λ k. k == 4) }
    ensures did { Did C.facts B.facts (Some deed) seat.old seat.new }
{
    let Ok(()) = commit(rt, parts, seat, deed) else {
        unreachable!()
    };
}
