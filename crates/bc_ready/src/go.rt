//! What is done to the buckets in hand once they are ready.
ghost use Rattle.std.specs.Prelude.{◌≡◌, ◌↔◌, ◌<◌, ◌≤◌, ℕ, true, length, IsTrue};
ghost use Rattle.bc_alloc.specs.Buckets.{AreLoose, all_changed};
ghost use Rattle.bc_alloc.specs.Reserve.{IsDistinct, times};
ghost use Rattle.bc_bucket.specs.Buckets.{bucket_of};
ghost use Rattle.bc_fill.specs.Fill.{bucket_numbers};
ghost use Rattle.bc_raise.specs.bc_renew.Ready.{AreTaken, CanGo, HasMadeReady, IsTaken, all_touched, chained};
ghost use Rattle.bc_ready.specs.Free.{IsLooseOnce, IsTakenOnce};

use bc_bucket::{Buckets, Mark};
use bc_fill::Open;
use bc_raise::bc_machine::part::BucketsPart;

/// Lets the next chain go and makes it the one in hand, gives that one back, and takes the named
/// ones onto the lists: where neither chain is anybody's, as in each state that the buckets stand
/// for. Takes no memory.
pub(crate) fn go_to_lists(part: &mut BucketsPart, named: u32, new: Vec<u32>)
    requires { named ≤ length part.old.reserves.raised }
    ensures { CanGo part.old new.items → HasMadeReady part.old named new part.new }
{
    if !can_go(part, &new) {
        return;
    }
    let_go_all(&mut part.buckets, &new);
    part.reserves
        .ready(&mut part.buckets, named as usize, &part.chain);
    touch_all(&mut part.buckets, &new);
    part.chain = new;
    part.renewing = false;
}

// Whether the chain in hand is nobody's, and the next one was taken.
fn can_go(part: &BucketsPart, new: &[u32]) -> bool
    ensures { IsTrue result ↔ CanGo part.now new.now }
{
    are_loose(part, &part.chain) && are_taken(part, new)
}

// Whether these are nobody's, and each stands there once.
fn are_loose(part: &BucketsPart, old: &[u32]) -> bool
    ensures { IsTrue result
        ↔ (IsDistinct old.now × AreLoose part.now.reserves part.now.buckets old.now) }
{
    for bucket in old {
        if !is_loose(part, old, *bucket) {
            return false;
        }
    }
    true
}

// Whether these were taken, and each stands there once.
fn are_taken(part: &BucketsPart, new: &[u32]) -> bool
    ensures { IsTrue result ↔ AreTaken part.now new.now }
{
    for bucket in new {
        if !is_taken(part, new, *bucket) {
            return false;
        }
    }
    true
}

// Whether it is nobody's, and stands once among these.
fn is_loose(part: &BucketsPart, among: &[u32], bucket: u32) -> bool
    ensures { IsTrue result ↔ IsLooseOnce part.now among.now bucket }
{
    if bucket as usize >= part.buckets.records().len() {
        return false;
    }
    times_among(among, bucket) <= 1
        && !part.buckets.get(bucket).held
        && !part.reserves.is_listed(bucket)
}

// Whether it was taken, and stands once among these.
fn is_taken(part: &BucketsPart, among: &[u32], bucket: u32) -> bool
    ensures { IsTrue result ↔ IsTakenOnce part.now among.now bucket }
{
    if bucket as usize >= part.buckets.records().len() {
        return false;
    }
    times_among(among, bucket) <= 1
        && part.buckets.get(bucket).held
        && !part.reserves.is_listed(bucket)
        && !is_open(part.fill.open(), bucket)
}

// How often it stands among these.
fn times_among(among: &[u32], bucket: u32) -> usize
    ensures { result ≡ times bucket among.now }
{
    let mut count = 0usize;
    for other in among {
        if *other == bucket {
            count += 1;
        }
    }
    count
}

// Whether it is open for data.
fn is_open(fill: &[Open], bucket: u32) -> bool
    ensures { IsTrue result ↔ (0 < times bucket (bucket_numbers fill.now)) }
{
    for o in fill {
        if o.bucket == bucket {
            return true;
        }
    }
    false
}

// Lets the buckets of a chain go, and marks them as metadata.
fn let_go_all(buckets: &mut Buckets, new: &[u32])
    requires distinct { IsDistinct new.now }
    requires each { (k : ℕ) → 0 < times k new.now → (k < length buckets.old.records)
        × ((bucket_of buckets.old k).held ≡ true) }
    ensures { buckets.new ≡ all_changed chained new.now buckets.old }
{
    for bucket in new {
        buckets.let_go(*bucket);
        buckets.mark(*bucket, Mark::Metadata, 0);
    }
}

// Notes of each of these buckets that a round doesn't settle it.
fn touch_all(buckets: &mut Buckets, new: &[u32])
    requires { (k : ℕ) → 0 < times k new.now → k < length buckets.old.records }
    ensures { buckets.new ≡ all_touched new.now buckets.old }
{
    for bucket in new {
        buckets.touch(*bucket);
    }
}
