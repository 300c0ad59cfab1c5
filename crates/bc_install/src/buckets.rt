//! What an install makes of the buckets in memory.
ghost use Rattle.std.specs.Prelude.{◌≡◌, ◌↔◌, ℕ, ◌∷◌, ◌<◌, [], IsTrue, length, option_to_list};
ghost use Rattle.bc_alloc.specs.Reserve.{times};
ghost use Rattle.bc_fill.specs.Fill.{bucket_numbers};
ghost use Rattle.bc_grouped.specs.Grouped.{made_at};
ghost use Rattle.bc_grouped.specs.Touched.{keys_in};
ghost use Rattle.bc_install.specs.Buckets.{HasTouched, HaveMade, HaveUnmade, IfMade, IfUnmade, TouchesAt};

use bc_bucket::{Buckets, Mark};
use bc_change::bc_machine::part::BucketsPart;
use bc_fill::Open;
use bc_key::Key;
use bc_node::Leaf;

// Touches the bucket in which a place lies, where that is one of the device. A place before the
// first of these counts as one in it.
fn touch_at(part: &mut BucketsPart, first: u32, place: u64)
    ensures { TouchesAt first place part.old part.new }
{
    let size = u64::from(part.buckets.bucket_sectors());
    let first = u64::from(first);
    let bucket = (place / size).saturating_sub(first) + first;
    if bucket < part.buckets.records().len() as u64 {
        part.buckets.touch(bucket as u32);
    }
}

// Touches the buckets into which a key points.
fn touch_key(part: &mut BucketsPart, first: u32, key: &Key)
    ensures { HasTouched first (key.now ∷ []) part.old part.new }
{
    if key.count == 0 {
        return;
    }
    for sector in key.start()..key.end {
        touch_at(part, first, key.place(sector));
    }
}

// Those into which the keys of a leaf do.
fn touch_leaf(part: &mut BucketsPart, first: u32, leaf: &Leaf)
    ensures { HasTouched first leaf.now.keys part.old part.new }
{
    let keys = leaf.keys();
    for i in 0..keys.len() {
        touch_key(part, first, &keys.key(i));
    }
}

/// Touches the buckets into which the keys of new leaves point, so that a trace round that goes on
/// doesn't take back what it didn't see. Takes no memory. The core counts buckets from `first` on.
pub fn touch_leaves(part: &mut BucketsPart, first: u32, low: &Leaf, high: &Option<Leaf>)
    ensures { HasTouched first (keys_in (low.now ∷ option_to_list high.now)) part.old part.new }
{
    touch_leaf(part, first, low);
    if let Some(high) = high {
        touch_leaf(part, first, high);
    }
}

// Whether a bucket is open for data.
fn is_open(fill: &[Open], bucket: u32) -> bool
    ensures { IsTrue result ↔ (0 < times bucket (bucket_numbers fill.now)) }
{
    for o in fill {
        if o.bucket == bucket {
            return true;
        }
    }
    false
}

// Marks a bucket as a node's, all of whose sectors are used, and ends the hold of it. A trace round
// that goes on doesn't take that back.
fn bring(buckets: &mut Buckets, bucket: u32)
    requires { bucket < length buckets.old.records }
    ensures { buckets.new ≡ made_at buckets.old.size bucket buckets.old }
{
    let used = u32::from(buckets.bucket_sectors());
    buckets.mark(bucket, Mark::Metadata, used);
    buckets.touch(bucket);
    if buckets.get(bucket).held {
        buckets.let_go(bucket);
    }
}

// Does so with a bucket of this number, where it is one of the device. One that is open for data
// keeps its hold: no node comes into such a one.
fn make_node(part: &mut BucketsPart, bucket: u64)
    ensures { IfMade bucket part.old part.new }
{
    let _ = part.buckets.bucket_sectors();
    if bucket >= part.buckets.records().len() as u64 {
        return;
    }
    let bucket = bucket as u32;
    if is_open(part.fill.open(), bucket) {
        return;
    }
    bring(&mut part.buckets, bucket);
}

/// Notes that each of these buckets is a node's, and nobody's in hand. Takes no memory. The core
/// counts buckets from `first` on.
pub fn make_nodes(part: &mut BucketsPart, first: u32, buckets: &[u32])
    ensures { HaveMade first buckets.now part.old part.new }
{
    for bucket in buckets {
        make_node(part, u64::from(first) + u64::from(*bucket));
    }
}

// Notes that the bucket of this number is a node's no more, where it is one of the device.
fn unmake_node(part: &mut BucketsPart, bucket: u64)
    ensures { IfUnmade bucket part.old part.new }
{
    let _ = part.buckets.bucket_sectors();
    if bucket >= part.buckets.records().len() as u64 {
        return;
    }
    part.buckets.mark(bucket as u32, Mark::None, 0);
}

/// Notes that each of these buckets is a node's no more. It may be raised then. Takes no memory.
/// The core counts buckets from `first` on.
pub fn unmake_nodes(part: &mut BucketsPart, first: u32, buckets: &[u32])
    ensures { HaveUnmade first buckets.now part.old part.new }
{
    for bucket in buckets {
        unmake_node(part, u64::from(first) + u64::from(*bucket));
    }
}
