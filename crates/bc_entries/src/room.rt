//! Whether the ring has room for one more entry.
ghost use Rattle.std.specs.Prelude.{◌≡◌, ◌*◌, ◌≤◌, All, Contains};
ghost use Rattle.std.specs.Bool.{MatchBool};
ghost use Rattle.bc_record.specs.Places.{end_of};
ghost use Rattle.bc_jset.specs.Records.{entry_kind};
ghost use Rattle.bc_jset.specs.Ring.{IsNextPlace, IsFree, HasRoom, bucket_of, bucket_after};
ghost use Rattle.bc_entries.specs.Lists.{picked};
ghost use Rattle.bc_entries.specs.Reading.{EndsWithin};

use crate::bucket::in_blocks;
use bc_disk::geometry::Geometry;
use bc_jset::JEntry;
use bc_record::Placed;

/// The first sector behind an entry.
fn end_of(g: &Geometry, e: &Placed<JEntry>) -> u64
    requires { EndsWithin g.now e.now }
    ensures { result ≡ end_of (entry_kind g.now) e.now }
{
    e.place + in_blocks(g.block, e.item.bytes()) as u64
}

/// The bucket in which an entry was found.
fn bucket_of(g: &Geometry, e: &Placed<JEntry>) -> u64
    ensures { result ≡ bucket_of g.now e.now }
{
    e.place / u64::from(g.bucket)
}

/// The first sector behind the last one, in the newest entry's bucket, of those that count.
fn next_place(g: &Geometry, all: &[Placed<JEntry>], order: &[usize], newest: &Placed<JEntry>) -> u64
    requires ends { All (EndsWithin g.now) all.now }
    requires within { EndsWithin g.now newest.now }
    requires counts { Contains (picked all.now order.now) newest.now }
    ensures place { IsNextPlace g.now (picked all.now order.now) newest.now result }
    ensures within { result ≤ g.now.bucket * g.now.nbuckets }
{
    let bucket = bucket_of(g, newest);
    let mut next = end_of(g, newest);
    for place in order {
        if let Some(e) = all.get(*place) {
            if bucket_of(g, e) == bucket {
                next = next.max(end_of(g, e));
            }
        }
    }
    next
}

/// Whether no entry in a bucket is needed, where those from a number on are.
fn is_free(g: &Geometry, all: &[Placed<JEntry>], newest: &Placed<JEntry>, bucket: u64) -> bool
    ensures { MatchBool result (IsFree g.now all.now newest.now bucket)
        (¬ (IsFree g.now all.now newest.now bucket)) }
{
    for e in all {
        if bucket_of(g, e) == bucket && newest.item.last_seq <= e.item.seq {
            return false;
        }
    }
    true
}

/// The journal bucket that is used after another one.
fn bucket_after(g: &Geometry, bucket: u64) -> u64
    requires { bucket ≤ g.now.nbuckets }
    ensures { result ≡ bucket_after g.now bucket }
{
    let first = u64::from(g.first_bucket);
    if bucket + 1 == first + u64::from(g.journal) {
        first
    } else {
        bucket + 1
    }
}

/// Whether one more entry without keys fits into the newest entry's bucket, or into the next one.
pub fn has_room(
    g: &Geometry,
    all: &[Placed<JEntry>],
    order: &[usize],
    newest: &Placed<JEntry>,
) -> bool
    requires ends { All (EndsWithin g.now) all.now }
    requires within { EndsWithin g.now newest.now }
    requires counts { Contains (picked all.now order.now) newest.now }
    ensures { MatchBool result (HasRoom g.now all.now (picked all.now order.now) newest.now)
        (¬ (HasRoom g.now all.now (picked all.now order.now) newest.now)) }
{
    let bucket = bucket_of(g, newest);
    let next = next_place(g, all, order, newest);
    if next + u64::from(g.block) <= u64::from(g.bucket) * (bucket + 1) {
        return true;
    }
    is_free(g, all, newest, bucket_after(g, bucket))
}
