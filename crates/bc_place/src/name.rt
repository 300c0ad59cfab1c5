//! What the keys of a write make of the buckets.
ghost use Rattle.std.specs.Prelude.{◌≡◌, ◌<◌, length};
ghost use Rattle.bc_place.specs.Next.{HasNamed, all_named, named_at, place_named};

use crate::unpin::unpin_each;
use bc_bucket::{Buckets, Mark};
use bc_deed::bc_machine::part::BucketsPart;
use bc_fill::Placed;

/// Notes that dirty keys name these places, each in all of its sectors: they are pinned no more, and
/// their buckets have data that the backing device lacks. Takes no memory.
pub fn name_places(part: &mut BucketsPart, places: &[Placed])
    ensures { HasNamed part.old places.now part.new }
{
    name_all(&mut part.buckets, places);
}

fn name_all(buckets: &mut Buckets, places: &[Placed])
    ensures { buckets.new ≡ all_named places.now buckets.old }
{
    for place in places {
        name_one(buckets, place);
    }
}

// Of one place, in its bucket where that is one of the device.
fn name_one(buckets: &mut Buckets, place: &Placed)
    ensures { buckets.new ≡ place_named place.now buckets.old }
{
    let size = u64::from(buckets.bucket_sectors());
    let bucket = place.ptr.offset / size;
    if bucket < buckets.records().len() as u64 {
        name_in(buckets, bucket as u32, place.count);
    }
}

// So many places of this bucket.
fn name_in(buckets: &mut Buckets, bucket: u32, count: u32)
    requires { bucket < length buckets.old.records }
    ensures { buckets.new ≡ named_at bucket count buckets.old }
{
    unpin_each(buckets, bucket, count);
    let used = buckets.get(bucket).used;
    buckets.mark(bucket, Mark::Dirty, used);
    buckets.touch(bucket);
}
