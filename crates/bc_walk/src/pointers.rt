//! Where pointers point.
ghost use Rattle.std.specs.Prelude.{◌<◌, MatchOption};
ghost use Rattle.std.specs.Bool.{MatchBool};
ghost use Rattle.bc_image.specs.Pointers.{LiesInData, PointsIntoData};
ghost use Rattle.bc_image.specs.Sound.{IsNodeKey};
ghost use Rattle.bc_walk.specs.Seen.{IsNodeIn};

use bc_disk::geometry::Geometry;
use bc_key::{Key, Ptr};

/// Whether so many sectors from the pointer on lie whole in one data bucket.
pub fn lies_in_data(g: &Geometry, ptr: &Ptr, n: u16) -> bool
    ensures { MatchBool result (LiesInData g.now ptr.now n) (¬ (LiesInData g.now ptr.now n)) }
{
    let bucket = ptr.offset / u64::from(g.bucket);
    let first = u64::from(g.first_bucket) + u64::from(g.journal);
    let within = ptr.offset % u64::from(g.bucket) + u64::from(n);
    ptr.dev == 0
        && first <= bucket
        && bucket < u64::from(g.nbuckets)
        && within <= u64::from(g.bucket)
}

/// Whether the key's sectors lie, by each of its pointers, whole in one data bucket: one behind the
/// journal's.
pub fn points_into_data(g: &Geometry, key: &Key) -> bool
    ensures { MatchBool result (PointsIntoData g.now key.now) (¬ (PointsIntoData g.now key.now)) }
{
    for i in 0..key.count as usize {
        if !lies_in_data(g, &key.ptrs[i], key.size) {
            return false;
        }
    }
    true
}

/// The bucket of the node to which a key points first. There is none where the key has no pointer,
/// where its size isn't a node's, or where one of its pointers leads elsewhere than into the data
/// buckets.
pub fn bucket_of(g: &Geometry, key: &Key) -> Option<u32>
    ensures { MatchOption result (¬ (IsNodeKey g.now key.now)) (IsNodeIn g.now key.now) }
{
    if key.size != g.node_sectors || key.count == 0 || !points_into_data(g, key) {
        return None;
    }
    let bucket = key.ptrs[0].offset / u64::from(g.bucket);
    Some(bucket as u32)
}
