//! The parts of soundness that one look at each key or node decides.
ghost use Rattle.std.specs.Prelude.{◌≡◌, ◌≢◌, ◌⊎◌, ◌↔◌, ◌+◌, ◌<◌, ◌≤◌, ◌%◌, ◌^◌, ℕ, All, IfOk, IsTrue, Some};
ghost use Rattle.bc_super.specs.Super.{IsState, state_number};
ghost use Rattle.bc_super.specs.declared.state.BackingState.TheVariants as states;
ghost use Rattle.bc_image.specs.Pointers.{LiesInData};
ghost use Rattle.bc_image.specs.Sound.{HasSuperblocks, LiesWithin};

use crate::shown::bucket_at;
use bc_disk::geometry::Geometry;
use bc_key::{Key, Ptr};
use bc_super::backing::BackingSuper;
use bc_super::cache::{CacheSuper, initialised};
use bc_super::state::BackingState;

// Whether the backing device's data may be on the cache device.
fn has_state(b: &BackingSuper) -> bool
    ensures { IsTrue result ↔ (IsState (state_number b.now.flags) states.Clean
        ⊎ IsState (state_number b.now.flags) states.Dirty) }
{
    b.state() == BackingState::Clean || b.state() == BackingState::Dirty
}

/// Whether the cache device was set up, both devices are of one set, and the backing device's data
/// may be on the cache device.
pub fn has_superblocks(b: &BackingSuper, c: &CacheSuper) -> bool
    ensures { IsTrue result ↔ HasSuperblocks b.now c.now }
{
    initialised(c) && b.set_uuid == c.set_uuid && has_state(b)
}

// Whether a key lies in the range of a node: data whole, and a child by its end.
fn lies_within(level: u16, from: u64, end: u64, key: &Key) -> bool
    ensures { IsTrue result ↔ LiesWithin level from end key.now }
{
    if level == 0 {
        from <= key.start() && key.end <= end
    } else {
        from < key.end && key.end <= end
    }
}

/// Whether each key lies in the range of a node.
pub fn are_within(level: u16, from: u64, end: u64, keys: &[Key]) -> bool
    ensures { IsTrue result ↔ All (LiesWithin level from end) keys.now }
{
    for key in keys {
        if !lies_within(level, from, end, key) {
            return false;
        }
    }
    true
}

/// Whether so many sectors from a pointer on lie whole in one data bucket.
pub fn lies_in_data(g: &Geometry, ptr: &Ptr, n: u16) -> bool
    ensures { IsTrue result ↔ LiesInData g.now ptr.now n }
{
    let bucket = bucket_at(g, ptr.offset);
    let first = u64::from(g.first_bucket) + u64::from(g.journal);
    let within = ptr.offset % u64::from(g.bucket);
    ptr.dev == 0
        && first <= bucket
        && bucket < u64::from(g.nbuckets)
        && within + u64::from(n) <= u64::from(g.bucket)
}
