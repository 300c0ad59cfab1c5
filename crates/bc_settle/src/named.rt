//! What a clean key makes of the bucket into which it points.
ghost use Rattle.std.specs.Prelude.{◌≡◌, ◌<◌, ℕ, Some, length};
ghost use Rattle.bc_bucket.specs.Buckets.{changed};
ghost use Rattle.bc_candidate.specs.bc_place.Next.{without_pins};
ghost use Rattle.bc_candidate.specs.bc_machine.declared.part.BucketsPart.{BucketsPart as PartSeen};
ghost use Rattle.bc_settle.specs.Next.{HasCleanKey, clean_at, place_clean, with_clean_mark};

use bc_bucket::{Buckets, Mark};
use bc_candidate::bc_hand::hand::Hand;
use bc_candidate::bc_machine::part::BucketsPart;

// Takes back so many pins of a bucket, as far as it has them.
fn unpin_each(buckets: &mut Buckets, bucket: u32, count: u16)
    requires { bucket < length buckets.old.records }
    ensures { buckets.new ≡ changed (without_pins count) bucket buckets.old }
{
    for _ in 0..count {
        if buckets.get(bucket).pins > 0 {
            buckets.unpin(bucket);
        }
    }
}

// A bucket without a live key is reclaimable once a clean one points into it.
fn mark_clean(buckets: &mut Buckets, bucket: u32)
    requires { bucket < length buckets.old.records }
    ensures { buckets.new ≡ changed with_clean_mark bucket buckets.old }
{
    let known = buckets.get(bucket);
    if known.mark == Mark::None {
        buckets.mark(bucket, Mark::Reclaimable, known.used);
    }
}

// A clean key names so many pinned places of this bucket.
fn name_at(buckets: &mut Buckets, bucket: u32, count: u16)
    requires { bucket < length buckets.old.records }
    ensures { buckets.new ≡ clean_at bucket count buckets.old }
{
    unpin_each(buckets, bucket, count);
    mark_clean(buckets, bucket);
    buckets.touch(bucket);
}

// The same, in the bucket where the places begin, if that is one of the device.
fn name_place(buckets: &mut Buckets, at: u64, count: u16)
    ensures { buckets.new ≡ place_clean at count buckets.old }
{
    let size = u64::from(buckets.bucket_sectors());
    let bucket = at / size;
    if bucket < buckets.records().len() as u64 {
        name_at(buckets, bucket as u32, count);
    }
}

// The same, of the part.
fn name_clean(part: &mut BucketsPart, at: u64, count: u16)
    ensures { HasCleanKey part.old at count part.new }
{
    name_place(&mut part.buckets, at, count);
}

/// Notes in the buckets in hand that a clean key names so many pinned places from this one on,
/// which lie in one bucket. They are pinned no more. Takes no memory.
pub(crate) fn name_in<C, B>(hand: &mut Hand<C, B>, at: u64, count: u16)
    requires { (part : PartSeen) × (hand.old.buckets ≡ Some part) }
    ensures { (part : PartSeen) → hand.old.buckets ≡ Some part → (next : PartSeen)
        × HasCleanKey part at count next × (hand.new ≡ record hand.old { buckets = Some next }) }
{
    let Some(mut buckets) = hand.buckets.take() else {
        unreachable!()
    };
    name_clean(buckets.get_mut(), at, count);
    hand.buckets = Some(buckets);
}
