//! Whether the backing device has what sectors show.
ghost use Rattle.std.specs.Prelude.{◌≡◌, ◌+◌, ◌<◌, ◌^◌, ℕ, MatchBool};
ghost use Rattle.bc_bypass.specs.Backed.{AreBacked, HasDirty, IsDirtyIn};
ghost use Rattle.bc_write_back.specs.Room.{HasThree};
ghost use Rattle.bc_write_back.specs.bc_sight.Sight.{IsOnBacking};

use bc_node::Leaf;
use bc_write_back::bc_hand::hand::Hand;

// Whether the leaf's last key of the sector is clean, or points nowhere.
fn is_backed(leaf: &Leaf, sector: u64) -> bool
    ensures { MatchBool result (IsOnBacking leaf.now sector) (IsDirtyIn leaf.now sector) }
{
    match leaf.keys().lookup(sector) {
        None => true,
        Some(key) => {
            if key.count == 0 {
                return true;
            }
            !key.dirty
        }
    }
}

// Whether that is so of all these sectors.
fn are_backed(leaf: &Leaf, first: u64, count: u32) -> bool
    requires { first + count < 2 ^ 64 }
    ensures { MatchBool result (AreBacked leaf.now first count) (HasDirty leaf.now first count) }
{
    for done in 0..count {
        if !is_backed(leaf, first + u64::from(done)) {
            return false;
        }
    }
    true
}

/// The same, by the leaf of this number in hand.
pub(crate) fn are_backed_in<C, B>(hand: &Hand<C, B>, number: u32, first: u64, count: u32) -> bool
    requires three { (parts : ℕ) × HasThree hand.now parts number first count }
    requires range { first + count < 2 ^ 64 }
    ensures { (parts : ℕ) (three : HasThree hand.now parts number first count)
        → MatchBool result (AreBacked three.cached.leaf first count)
        (HasDirty three.cached.leaf first count) }
{
    let Some(leaves) = &hand.leaves else {
        unreachable!()
    };
    let Some(slot) = leaves.cache.find(number) else {
        unreachable!()
    };
    are_backed(leaves.cache.leaf(slot), first, count)
}

/// How many sectors a bucket has.
pub(crate) fn bucket_sectors_in<C, B>(hand: &Hand<C, B>) -> u16
    requires { (parts number first count : ℕ) × HasThree hand.now parts number first count }
    ensures size { (parts number first count : ℕ)
        (three : HasThree hand.now parts number first count)
        → result ≡ three.buckets.buckets.size }
    ensures some { 0 < result }
{
    let Some(part) = &hand.buckets else {
        unreachable!()
    };
    part.get().buckets.bucket_sectors()
}
