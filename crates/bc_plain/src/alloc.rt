//! The first candidates, by choosing the first one again and again.
ghost use Rattle.std.specs.Prelude.{◌≡◌, ◌≢◌, ◌↔◌, ℕ, ◌<◌, ◌≤◌, ◌^◌, true, length, slice_index_or, IfNone, IfOk, IfSome, IsTrue};
ghost use Rattle.bc_bucket.specs.Bucket.{no_bucket};
ghost use Rattle.bc_alloc.specs.Victims.{AreFirst, IsBefore, IsOpen};

use crate::bucket::is_reclaimable;
use bc_bucket::Bucket;
use std::alloc::{AllocError, Global};

// Whether the bucket may be given up and isn't listed.
fn is_open(records: &[Bucket], listed: &[bool], bucket: usize) -> bool
    requires there { bucket < length records.now }
    requires flag { bucket < length listed.now }
    ensures { IsTrue result ↔ IsOpen records.now listed.now bucket }
{
    is_reclaimable(&records[bucket]) && !listed[bucket]
}

// Whether a bucket has a lower priority than the first one so far, or there is none so far.
fn comes_first(records: &[Bucket], first: Option<u32>, bucket: usize) -> bool
    requires first { IfSome first (λ i. i < length records.now) }
    requires there { bucket < length records.now }
    ensures none { IfNone first (result ≡ true) }
    ensures some { IfSome first (λ i. IsTrue result
        ↔ ((slice_index_or records.now bucket no_bucket).priority
        < (slice_index_or records.now i no_bucket).priority)) }
{
    match first {
        None => true,
        Some(i) => records[bucket].priority < records[i as usize].priority,
    }
}

/// The bucket with the least priority, and of these the one with the least number, of those that
/// may be given up and aren't listed.
pub fn first_open(records: &[Bucket], listed: &[bool]) -> Option<u32>
    requires few { length records.now < 2 ^ 32 }
    requires flags { length listed.now ≡ length records.now }
    ensures some { IfSome result (λ v. IsOpen records.now listed.now v
        × ((k : ℕ) → IsOpen records.now listed.now k → k ≢ v → IsBefore records.now v k)) }
    ensures none { IfNone result ((k : ℕ) → IsOpen records.now listed.now k → ⊥) }
{
    let mut first = None;
    for bucket in 0..records.len() {
        if is_open(records, listed, bucket) && comes_first(records, first, bucket) {
            first = Some(bucket as u32);
        }
    }
    first
}

/// The first of them in order, `most` at most: the first one, then the first one of the others, and
/// so on.
pub fn first_candidates(
    alloc: Global,
    records: &[Bucket],
    listed: &[bool],
    most: usize,
) -> Result<Vec<u32>, AllocError>
    requires few { length records.now < 2 ^ 32 }
    requires flags { length listed.now ≡ length records.now }
    ensures { IfOk result (λ chosen.
        AreFirst (IsOpen records.now listed.now) records.now most chosen.items) }
{
    let mut left = Vec::from_slice(alloc, listed)?;
    let mut chosen = Vec::new(alloc);
    for _i in 0..most {
        let Some(bucket) = first_open(records, &left) else {
            return Ok(chosen);
        };
        left[bucket as usize] = true;
        chosen.push(bucket)?;
    }
    Ok(chosen)
}
