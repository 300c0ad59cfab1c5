//! Generations are bytes.
ghost use Rattle.std.specs.Prelude.{◌<◌};
ghost use Rattle.bc_begun.specs.Opened.{AreBytes};

use bc_bucket::{Bucket, Buckets};

/// The generations of one bucket are.
fn is_of_bytes(bucket: &Bucket)
    ensures generation { bucket.now.generation < 256 }
    ensures last_gc { bucket.now.last_gc < 256 }
{
    let _generation = bucket.generation;
    let _last_gc = bucket.last_gc;
}

/// The generations of all buckets are bytes, as their types say. A type says so of a number that is
/// at hand alone, so each is looked at, in time linear in the number of buckets.
pub fn are_bytes(buckets: &Buckets)
    ensures { AreBytes buckets.now }
{
    for bucket in buckets.records() {
        is_of_bytes(bucket);
    }
}
