//! One leaf, with keys of the journal.
ghost use Rattle.std.specs.Prelude.{◌≡◌, ◌+◌, ◌*◌, ◌<◌, ◌≤◌, ◌^◌, true, All, Some, None, slice_get, IfErr, IfOk, OnOk};
ghost use Rattle.bc_cache.specs.Slots.{Misses};
ghost use Rattle.bc_disk.specs.Disk.{IsCounted, IsKept};
ghost use Rattle.bc_node.specs.Loading.{good};
ghost use Rattle.bc_regrow.specs.Held.{open_node};
ghost use Rattle.bc_reload.specs.Reload.{FitsRange, IsReloaded};
ghost use Rattle.bc_replay.specs.Causes.{RisesWith};
ghost use Rattle.bc_slots.specs.Filling.{TakesLeaf, calls_with};
ghost use Rattle.bc_slots.specs.Parts.{IsLeafCause};
ghost use Rattle.bc_slots.specs.Places.{has_keys};

use bc_cache::NodeCache;
use bc_disk::disk::{Device, Disk};
use bc_disk::geometry::Geometry;
use bc_node::{Leaf, NodeError};
use bc_pending::Numbered;
use bc_reload::{key_of, reload};
use bc_replay::OpenError;
use bc_spine::LeafRange;
use bc_walk::bucket_of;
use std::alloc::Global;

// The refusal of the node in a bucket as one of the pair.
fn refusal(bucket: u32, why: NodeError) -> OpenError
    ensures { result ≡ open_node bucket why }
{
    match why {
        NodeError::Fault => OpenError::Fault(Device::Cache),
        NodeError::Memory => OpenError::Memory,
        why => OpenError::Node { bucket, why },
    }
}

/// Reads the leaf of a range, in one call, and adds keys of the journal to it.
fn read_leaf<C: Disk>(
    alloc: Global,
    cache: &mut C,
    g: &Geometry,
    range: &LeafRange,
    keys: &[Numbered],
) -> Result<Leaf, OpenError>
    requires room { g.now.bucket * g.now.nbuckets ≤ (C.facts cache.old).sectors }
    requires fit { All (FitsRange range.now) keys.now }
    ensures found { IfOk result (IsReloaded g.now range.now keys.now (C.facts cache.old)) }
    ensures refused { IfErr result (IsLeafCause g.now range.now (C.facts cache.old)) }
    ensures read { OnOk result (IsCounted good (C.facts cache.old) (C.facts cache.new)) }
    ensures kept { IsKept (C.facts cache.old) (C.facts cache.new) }
    ensures faults { RisesWith result (C.facts cache.old).faults (C.facts cache.new).faults }
{
    let key = key_of(g, range);
    let Some(bucket) = bucket_of(g, &key) else {
        return Err(OpenError::PointerRange { word: 0 });
    };
    match reload(alloc, cache, g, range, keys) {
        Ok(leaf) => Ok(leaf),
        Err(why) => Err(refusal(bucket, why)),
    }
}

/// Takes a leaf that has keys of the journal into the next slot of its part, of which so many are
/// filled. One without keys isn't read.
pub fn take_leaf<C: Disk>(
    alloc: Global,
    cache: &mut C,
    g: &Geometry,
    range: &LeafRange,
    keys: &[Numbered],
    part: &mut NodeCache,
    filled: &mut u32,
) -> Result<(), OpenError>
    requires room { g.now.bucket * g.now.nbuckets ≤ (C.facts cache.old).sectors }
    requires fit { All (FitsRange range.now) keys.now }
    requires few { filled.old + 1 < 2 ^ 32 }
    requires empty { slice_get part.old.slots filled.old ≡ Some None }
    requires new { Misses part.old.slots range.now.number }
    ensures taken { IfOk result (λ _. TakesLeaf g.now range.now keys.now (C.facts cache.old)
        part.old part.new filled.old filled.new) }
    ensures refused { IfErr result (IsLeafCause g.now range.now (C.facts cache.old)) }
    ensures keys { IfErr result (λ _. has_keys keys.now ≡ true) }
    ensures calls { OnOk result
        ((C.facts cache.new).calls ≡ calls_with keys.now (C.facts cache.old).calls) }
    ensures kept { IsKept (C.facts cache.old) (C.facts cache.new) }
    ensures faults { RisesWith result (C.facts cache.old).faults (C.facts cache.new).faults }
{
    if keys.is_empty() {
        return Ok(());
    }
    let leaf = read_leaf(alloc, cache, g, range, keys)?;
    part.put(*filled, range.number, leaf);
    *filled += 1;
    Ok(())
}
