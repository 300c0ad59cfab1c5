//! The slot of a leaf.
ghost use Rattle.std.specs.Prelude.{◌≡◌, Ok, Err, Some, None, IfOk, IfErr, IfNone, IfSome, OnErr};
ghost use Rattle.bc_cache.specs.Fetch.{IsUsed};
ghost use Rattle.bc_cache.specs.Slots.{HasLeaf, Misses, NoneCanGo};
ghost use Rattle.bc_fetch.specs.Fetch.{IsPutInto};

use bc_cache::NodeCache;
use bc_node::Leaf;

/// The slot of a leaf, which is used with that.
pub fn use_slot(cache: &mut NodeCache, number: u32) -> Option<u32>
    ensures some { IfSome result (λ slot. HasLeaf cache.old.slots slot number
        × IsUsed slot cache.old cache.new) }
    ensures none { IfNone result (Misses cache.old.slots number × (cache.new ≡ cache.old)) }
{
    let slot = cache.find(number)?;
    cache.touch(slot);
    Some(slot)
}

/// Puts a leaf that is in no slot into the one that was used longest ago, whose own leaf goes.
pub fn put_leaf(cache: &mut NodeCache, number: u32, leaf: Leaf) -> u32
    requires new { Misses cache.old.slots number }
    requires some { ¬ (NoneCanGo cache.old.slots) }
    ensures { IsPutInto result number leaf cache.old cache.new }
{
    let Some(slot) = cache.evict() else {
        unreachable!()
    };
    cache.put(slot, number, leaf);
    slot
}
