//! Which buckets are given up next.
ghost use Rattle.std.specs.Prelude.{◌≡◌, ◌≢◌, ◌↔◌, ℕ, ◌+◌, ◌<◌, ◌≤◌, ◌∷◌, [], All, false, true, length, slice_index_or, vec_capacity, IsTrue, IfSome, IfNone, List, Bool};
ghost use Rattle.bc_bucket.specs.declared.bucket.Bucket.{Bucket};
ghost use Rattle.bc_bucket.specs.Bucket.{no_bucket};
ghost use Rattle.std.specs.Ordering.{nat_cmp};
ghost use Rattle.std.specs.BinaryHeap.{IsHeap, heap_capacity, heap_items, heap_len};
ghost use Rattle.std.specs.List.Sorted.{IsPermutation};
ghost use Rattle.bc_alloc.specs.Choice.{AreChosen, number_of, rank_of};
ghost use Rattle.bc_alloc.specs.Victims.{AreFirst, IsBefore, IsOpen};

use bc_bucket::Bucket;
use std::collections::BinaryHeap;

// Whether this bucket may be given up and isn't listed.
fn is_open(records: &[Bucket], listed: &[bool], k: u32) -> bool
    requires there { k < length records.now }
    requires flag { k < length listed.now }
    ensures { IsTrue result ↔ IsOpen records.now listed.now k }
{
    !listed[k as usize] && records[k as usize].is_reclaimable()
}

// Whether this bucket comes before the one that was the first so far, all numbers of which are
// lower.
fn comes_first(records: &[Bucket], first: Option<u32>, k: u32) -> bool
    requires first { IfSome first (λ i. i < length records.now) }
    requires there { k < length records.now }
    ensures none { IfNone first (result ≡ true) }
    ensures some { IfSome first (λ i. IsTrue result
        ↔ ((slice_index_or records.now k no_bucket).priority
        < (slice_index_or records.now i no_bucket).priority)) }
{
    match first {
        None => true,
        Some(i) => records[k as usize].priority < records[i as usize].priority,
    }
}

// The first of the buckets that may be given up.
pub(crate) fn first_open(records: &[Bucket], listed: &[bool], count: u32) -> Option<u32>
    requires records { length records.now ≡ count }
    requires flags { length listed.now ≡ count }
    ensures some { IfSome result (λ v. IsOpen records.now listed.now v
        × ((k : ℕ) → IsOpen records.now listed.now k → k ≢ v → IsBefore records.now v k)) }
    ensures none { IfNone result ((k : ℕ) → IsOpen records.now listed.now k → ⊥) }
{
    let mut first = None;
    for k in 0..count {
        if is_open(records, listed, k) && comes_first(records, first, k) {
            first = Some(k);
        }
    }
    first
}

// A number that is the less the earlier the bucket is given up.
fn rank_of(known: &Bucket, k: u32) -> u64
    ensures { result ≡ rank_of known.now.priority k }
{
    u64::from(known.priority) * (1 << 32) + u64::from(k)
}

// The bucket with this rank.
fn number_of(rank: u64) -> u32
    ensures { result ≡ number_of rank }
{
    (rank % (1 << 32)) as u32
}

// Takes the greatest rank out of a heap, if it is above this one.
fn take_above(rank: u64, ranks: &mut BinaryHeap<u64>) -> Option<u64>
    requires heap { IsHeap nat_cmp (heap_items ranks.old) }
    ensures heap { IsHeap nat_cmp (heap_items ranks.new) }
    ensures above { IfSome result (λ top. rank < top) }
    ensures out { IfSome result (λ top.
        IsPermutation (heap_items ranks.old) (top ∷ heap_items ranks.new)) }
    ensures last { IfSome result (λ top. All (λ y. y ≤ top) (heap_items ranks.new)) }
    ensures none { IfNone result (All (λ y. y ≤ rank) (heap_items ranks.old)) }
    ensures same { IfNone result ((heap_items ranks.new ≡ heap_items ranks.old)
        × (heap_len ranks.new ≡ heap_len ranks.old)) }
    ensures len { IfSome result (λ top. heap_len ranks.new + 1 ≡ heap_len ranks.old) }
    ensures room { heap_capacity ranks.new ≡ heap_capacity ranks.old }
{
    let top = *ranks.peek()?;
    if top <= rank {
        return None;
    }
    ranks.pop()
}

// Puts one more rank into a heap.
fn put(rank: u64, ranks: &mut BinaryHeap<u64>)
    requires heap { IsHeap nat_cmp (heap_items ranks.old) }
    requires room { heap_len ranks.old < heap_capacity ranks.old }
    ensures heap { IsHeap nat_cmp (heap_items ranks.new) }
    ensures more { IsPermutation (rank ∷ heap_items ranks.old) (heap_items ranks.new) }
    ensures len { heap_len ranks.new ≡ heap_len ranks.old + 1 }
    ensures room { heap_capacity ranks.old ≤ heap_capacity ranks.new }
{
    let Ok(()) = ranks.push(rank) else {
        unreachable!()
    };
}

// Puts the rank of the next bucket into a heap of the `most` least ones so far, if it is open and
// one of these.
fn offer(records: &[Bucket], listed: &[bool], k: u32, most: usize, ranks: &mut BinaryHeap<u64>)
    requires there { k < length records.now }
    requires flag { k < length listed.now }
    requires heap { IsHeap nat_cmp (heap_items ranks.old) }
    requires chosen { AreChosen records.now listed.now k most (heap_items ranks.old) [] }
    requires room { heap_len ranks.old < heap_capacity ranks.old }
    ensures heap { IsHeap nat_cmp (heap_items ranks.new) }
    ensures chosen { AreChosen records.now listed.now (k + 1) most (heap_items ranks.new) [] }
    ensures len { heap_len ranks.new ≤ heap_len ranks.old + 1 }
    ensures room { heap_capacity ranks.old ≤ heap_capacity ranks.new }
{
    if !is_open(records, listed, k) {
        return;
    }
    let rank = rank_of(&records[k as usize], k);
    if ranks.len() < most {
        put(rank, ranks);
        return;
    }
    let Some(_last) = take_above(rank, ranks) else {
        return;
    };
    put(rank, ranks);
}

// Puts the `most` least ranks of open buckets into a heap, or all of them.
fn collect(
    records: &[Bucket],
    listed: &[bool],
    count: u32,
    most: usize,
    ranks: &mut BinaryHeap<u64>,
)
    requires records { length records.now ≡ count }
    requires flags { length listed.now ≡ count }
    requires room { count ≤ heap_capacity ranks.old }
    ensures heap { IsHeap nat_cmp (heap_items ranks.new) }
    ensures chosen { AreChosen records.now listed.now count most (heap_items ranks.new) [] }
    ensures len { heap_len ranks.new ≤ count }
    ensures room { count ≤ heap_capacity ranks.new }
{
    ranks.clear();
    for k in 0..count {
        offer(records, listed, k, most, ranks);
    }
}

// Takes all buckets out of a heap of ranks, the last one first.
fn take_all(ranks: &mut BinaryHeap<u64>, taken: &mut Vec<u32>)
    requires heap { IsHeap nat_cmp (heap_items ranks.old) }
    requires room { heap_len ranks.old ≤ vec_capacity taken.old }
    ensures chosen { (records : List Bucket) (listed : List Bool) (n most : ℕ)
        → AreChosen records listed n most (heap_items ranks.old) []
        → AreChosen records listed n most [] taken.new.items }
    ensures rooms { (heap_capacity ranks.new ≡ heap_capacity ranks.old)
        × (vec_capacity taken.old ≤ vec_capacity taken.new) }
{
    taken.clear();
    for _i in 0..ranks.len() {
        let Some(rank) = ranks.pop() else {
            unreachable!()
        };
        let Ok(()) = taken.push(number_of(rank)) else {
            unreachable!()
        };
    }
}

// Finds the first open buckets, `most` at most, in some n log m steps for n buckets and m of them.
pub(crate) fn find_first(
    records: &[Bucket],
    listed: &[bool],
    count: u32,
    most: usize,
    ranks: &mut BinaryHeap<u64>,
    taken: &mut Vec<u32>,
)
    requires records { length records.now ≡ count }
    requires flags { length listed.now ≡ count }
    requires heap_room { count ≤ heap_capacity ranks.old }
    requires room { count ≤ vec_capacity taken.old }
    ensures first { AreFirst (IsOpen records.now listed.now) records.now most taken.new.items }
    ensures heap_room { count ≤ heap_capacity ranks.new }
    ensures room { count ≤ vec_capacity taken.new }
{
    collect(records, listed, count, most, ranks);
    take_all(ranks, taken);
    taken.reverse();
}
