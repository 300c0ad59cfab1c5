//! What is done to the buckets in hand.
ghost use Rattle.std.specs.Prelude.{◌≡◌, ◌↔◌, ◌<◌, ℕ, ◌∷◌, List, IfNone, IfSome, IsTrue, length};
ghost use Rattle.bc_alloc.specs.Reserves.{list_of};
ghost use Rattle.bc_held.specs.Next.{HasNoneFor, IsNextFor, IsPlaceOf, IsTakenIn, LetsGo, TakesBucket, is_among, takes_back};
ghost use Rattle.bc_place.specs.bc_machine.Containers.{SameRest};

use crate::held::{HeldBucket, Want};
use bc_alloc::Purpose;
use bc_fill::Open;
use bc_key::Ptr;
use bc_place::bc_machine::part::BucketsPart;

// The bucket that is taken next for this, if there is one.
pub(crate) fn next_bucket(part: &BucketsPart, want: Want) -> Option<HeldBucket>
    ensures some { IfSome result (λ b. IsNextFor want part.now b) }
    ensures none { IfNone result (HasNoneFor want part.now) }
{
    if part.reserves.len(Purpose::Plain) > 0 {
        return Some(first_of(part, Purpose::Plain, want.purpose()));
    }
    let own = want.list();
    if part.reserves.len(own) > 0 {
        return Some(first_of(part, own, want.purpose()));
    }
    None
}

// The first bucket of a list.
fn first_of(part: &BucketsPart, list: Purpose, purpose: Purpose) -> HeldBucket
    requires { 0 < length (list_of list part.now.reserves).buckets }
    ensures purpose { result.purpose ≡ purpose }
    ensures first { (rest : List ℕ)
        × ((list_of list part.now.reserves).buckets ≡ result.bucket ∷ rest) }
    ensures place { IsPlaceOf part.now result.bucket result.to }
{
    let bucket = part.reserves.get(list, 0);
    let to = place_of(part, bucket);
    HeldBucket {
        bucket,
        to,
        purpose,
    }
}

// Takes that bucket from its list, and holds it.
pub(crate) fn hold_next(part: &mut BucketsPart, want: Want, next: HeldBucket)
    requires { IsNextFor want part.old next }
    ensures { TakesBucket want next part.old part.new }
{
    let Ok(_) = part.reserves.take(&mut part.buckets, want.list()) else {
        unreachable!()
    };
}

// Where a bucket begins, with its generation.
fn place_of(part: &BucketsPart, bucket: u32) -> Ptr
    requires { bucket < length part.now.buckets.records }
    ensures { IsPlaceOf part.now bucket result }
{
    let size = part.buckets.bucket_sectors();
    Ptr {
        dev: 0,
        offset: u64::from(bucket) * u64::from(size),
        generation: part.buckets.get(bucket).generation,
    }
}

// What the deed says of a bucket that was taken for this purpose and is let go: whether its list
// takes it back.
pub(crate) fn takes_back(part: &BucketsPart, purpose: Purpose) -> bool
    ensures { result ≡ takes_back purpose part.now.reserves }
{
    match purpose {
        Purpose::Priorities => part.reserves.len(purpose) < part.reserves.room(purpose),
        Purpose::Moving => true,
        Purpose::Tree => true,
        Purpose::Plain => true,
    }
}

// Ends the hold of a bucket, where it is one that was taken.
pub(crate) fn put_down(part: &mut BucketsPart, bucket: HeldBucket)
    ensures goes { IsTakenIn part.old bucket.bucket → LetsGo bucket part.old part.new }
    ensures rest { SameRest part.old part.new }
{
    if !is_taken(part, bucket.bucket) {
        return;
    }
    match bucket.purpose {
        Purpose::Priorities => part.reserves.put_back(&mut part.buckets, bucket.bucket),
        Purpose::Moving => part.buckets.let_go(bucket.bucket),
        Purpose::Tree => part.buckets.let_go(bucket.bucket),
        Purpose::Plain => part.buckets.let_go(bucket.bucket),
    }
}

// Whether a bucket of the device is held, and neither on a list nor open for data. What is held is on
// no list.
fn is_taken(part: &BucketsPart, bucket: u32) -> bool
    ensures { IsTrue result ↔ IsTakenIn part.now bucket }
{
    if bucket as usize >= part.buckets.records().len() {
        return false;
    }
    part.buckets.get(bucket).held && !is_among(part.fill.open(), bucket)
}

// Whether the bucket is one of these.
fn is_among(fill: &[Open], bucket: u32) -> bool
    ensures { result ≡ is_among bucket fill.now }
{
    for o in fill {
        if o.bucket == bucket {
            return true;
        }
    }
    false
}
