//! The keys of a leaf are counted for the buckets into which they point.
ghost use Rattle.std.specs.Prelude.{◌≡◌, ℕ, ◌+◌, ◌-◌, ◌*◌, ◌/◌, ◌%◌, ◌^◌, ◌<◌, ◌≤◌, Some, length};
ghost use Rattle.bc_bucket.specs.declared.walk.Reference.{Reference};
ghost use Rattle.bc_extent.specs.Extents.{IsInOrder, IsRange};
ghost use Rattle.bc_key.specs.Key.{Covers, pointer_of};
ghost use Rattle.bc_key.specs.declared.ptr.Ptr.{Ptr};
ghost use Rattle.bc_leaf_walk.specs.Pieces.{AreKeysCounted, HasCounted, IsKeyCounted, LiesInOne, Piece, counted_at, reference_of};
ghost use Rattle.bc_node.specs.Leaf.{AreProperKeys};

use bc_bucket::{Buckets, Reference, Walk};
use bc_extent::Extents;
use bc_key::{Key, Ptr};
use bc_mark::bc_machine::part::BucketsPart;
use bc_node::Leaf;

// How many sectors from this place on, of so many, lie in one bucket. Places go round at 2^43.
fn piece_len(size: u64, place: u64, left: u64) -> u64
    requires size { 0 < size }
    requires place { place < 2 ^ 43 }
    requires left { 0 < left }
    ensures some { 0 < result }
    ensures few { result ≤ left }
    ensures bucket { place % size + result ≤ size }
    ensures around { place + result ≤ 2 ^ 43 }
{
    let rest = size - place % size;
    rest.min((1 << 43) - place).min(left)
}

// Counts a reference for a bucket, if that is one of the device.
fn count_at(walk: &mut Walk, buckets: &Buckets, reference: Reference, bucket: u64)
    requires each { length walk.old ≡ length buckets.now.records }
    requires few { length buckets.now.records ≤ 1048576 }
    ensures { walk.new ≡ counted_at buckets.now bucket reference walk.old }
{
    if bucket >= buckets.records().len() as u64 {
        return;
    }
    let bucket = bucket as u32;
    walk.add(bucket, buckets.get(bucket).generation, reference);
}

// Counts what lies in one bucket of a key, from this sector on, and tells how many sectors that are.
fn count_piece(
    walk: &mut Walk,
    buckets: &Buckets,
    key: &Key,
    ptr: Ptr,
    sector: u64,
    before: u32,
) -> u64
    requires each { length walk.old ≡ length buckets.now.records }
    requires range { IsRange key.now }
    requires pointer { pointer_of key.now ≡ Some ptr }
    requires covers { Covers key.now sector }
    ensures within { sector + result ≤ key.now.end }
    ensures piece { (p : Piece) × (p.first ≡ sector) × (p.count ≡ result)
        × LiesInOne buckets.now.size before key.now ptr p
        × (walk.new ≡ counted_at buckets.now p.bucket (reference_of key.now ptr p.count) walk.old) }
    ensures each { length walk.new ≡ length buckets.now.records }
{
    let size = u64::from(buckets.bucket_sectors());
    let place = key.place(sector);
    let count = piece_len(size, place, key.end - sector);
    let reference = Reference {
        generation: ptr.generation,
        sectors: count as u16,
        dirty: key.dirty,
    };
    count_at(
        walk,
        buckets,
        reference,
        (place / size).max(u64::from(before)),
    );
    count
}

// Counts a key for each bucket into which it points.
fn count_key(walk: &mut Walk, buckets: &Buckets, key: &Key, before: u32)
    requires each { length walk.old ≡ length buckets.now.records }
    requires range { IsRange key.now }
    ensures counted { IsKeyCounted buckets.now before key.now walk.old walk.new }
    ensures each { length walk.new ≡ length buckets.now.records }
{
    let Some(ptr) = key.pointer() else {
        return;
    };
    let mut sector = key.start();
    while sector < key.end {
        sector += count_piece(walk, buckets, key, ptr, sector, before);
    }
}

// Counts these keys, one behind the other.
fn count_keys(walk: &mut Walk, buckets: &Buckets, keys: &Extents, before: u32)
    requires each { length walk.old ≡ length buckets.now.records }
    requires order { IsInOrder keys.now.keys }
    ensures { AreKeysCounted buckets.now before keys.now.keys walk.old walk.new }
{
    for i in 0..keys.len() {
        count_key(walk, buckets, &keys.key(i), before);
    }
}

// Counts the keys of a leaf in the round of a part, which has come to its end then. Takes no memory.
pub(crate) fn count_leaf(part: &mut BucketsPart, leaf: &Leaf, before: u32)
    requires each { length part.old.round.walk ≡ length part.old.buckets.records }
    ensures counted { HasCounted before leaf.now part.old part.new }
    ensures proper { AreProperKeys leaf.now.from leaf.now.end leaf.now.keys }
{
    count_keys(&mut part.round.walk, &part.buckets, leaf.keys(), before);
    part.round.next = leaf.end();
}
