//! Whether a candidate's key fits into a leaf, and the key.
ghost use Rattle.std.specs.Prelude.{◌≡◌, ◌+◌, ◌<◌, ◌≤◌, ◌^◌, ℕ, MatchBool, MatchOption, MatchResult, None};
ghost use Rattle.bc_cache.specs.declared.slots.Cached.{Cached};
ghost use Rattle.bc_settle.specs.Fits.{AreBare, HasGeneration, HasKeyOver, IsKeyed, IsNamedBy, IsRanged, LieInOne, WhyNot};
ghost use Rattle.bc_settle.specs.Settle.{CanSettleIn};
ghost use Rattle.bc_candidate.specs.bc_sight.Sight.{said_in};

use crate::outcome::Reason;
use bc_bucket::Buckets;
use bc_candidate::bc_hand::hand::Hand;
use bc_key::{Key, Ptr};
use bc_node::Leaf;

// Whether the leaf's last key of the sector points somewhere.
fn is_keyed(leaf: &Leaf, sector: u64) -> bool
    ensures { MatchBool result (IsKeyed leaf.now sector) (said_in leaf.now sector ≡ None) }
{
    match leaf.keys().lookup(sector) {
        None => false,
        Some(key) => key.count != 0,
    }
}

// Whether by the leaf none of these sectors has a key.
fn are_bare(leaf: &Leaf, first: u64, count: u16) -> bool
    requires { first + count < 2 ^ 64 }
    ensures { MatchBool result (AreBare leaf.now first count) (HasKeyOver leaf.now first count) }
{
    for done in 0..count {
        if is_keyed(leaf, first + u64::from(done)) {
            return false;
        }
    }
    true
}

// The generation of the one bucket for data in which so many places from this one on lie.
fn generation_at(buckets: &Buckets, at: u64, count: u16) -> Option<u8>
    requires { (1 ≤ count) × (at < 2 ^ 43) }
    ensures { MatchOption result (¬ (LieInOne buckets.now at count))
        (HasGeneration buckets.now at count) }
{
    let size = u64::from(buckets.bucket_sectors());
    let bucket = at / size;
    let last = (at + u64::from(count) - 1) / size;
    if last != bucket || bucket < u64::from(buckets.data_from()) {
        return None;
    }
    if bucket >= buckets.records().len() as u64 {
        return None;
    }
    Some(buckets.get(bucket as u32).generation)
}

// The key of a candidate that has this one, where it fits into the leaf.
fn key_for(leaf: &Leaf, buckets: &Buckets, old: &Key) -> Result<Key, Reason>
    requires { IsRanged old.now }
    ensures { MatchResult result (IsNamedBy leaf.now buckets.now old.now)
        (λ why. WhyNot why leaf.now buckets.now old.now) }
{
    let first = old.start();
    if first < leaf.from() || leaf.end() < old.end {
        return Err(Reason::Elsewhere);
    }
    let Some(ptr) = old.pointer() else {
        unreachable!()
    };
    let Some(generation) = generation_at(buckets, ptr.offset, old.size) else {
        return Err(Reason::Scattered);
    };
    if !are_bare(leaf, first, old.size) {
        return Err(Reason::Keyed);
    }
    if leaf.spare() == 0 {
        return Err(Reason::Full);
    }
    let place = Ptr {
        dev: 0,
        offset: ptr.offset,
        generation,
    };
    Ok(Key::new(old.end, old.size, false, Some(place)))
}

/// The same, of the leaf in a slot of the part in hand, with the buckets in hand.
pub(crate) fn key_in<C, B>(hand: &Hand<C, B>, slot: u32, old: &Key) -> Result<Key, Reason>
    requires can { (parts number : ℕ) × (cached : Cached)
        × CanSettleIn hand.now parts slot number cached }
    requires old { IsRanged old.now }
    ensures { (parts number : ℕ) (cached : Cached)
        → (can : CanSettleIn hand.now parts slot number cached)
        → MatchResult result (IsNamedBy cached.leaf can.buckets.buckets old.now)
        (λ why. WhyNot why cached.leaf can.buckets.buckets old.now) }
{
    let Some(leaves) = &hand.leaves else {
        unreachable!()
    };
    let Some(buckets) = &hand.buckets else {
        unreachable!()
    };
    key_for(leaves.cache.leaf(slot), &buckets.get().buckets, old)
}
