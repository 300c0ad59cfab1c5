//! Reads nodes.
ghost use Rattle.std.specs.Prelude.{◌≡◌, ◌*◌, ◌<◌, ◌≤◌, All, IfOk, IfErr};
ghost use Rattle.std.specs.Bool.{MatchBool};
ghost use Rattle.bc_disk.specs.Disk.{IsKept, IfTold};
ghost use Rattle.bc_image.specs.Sound.{IsNodeKey, LiesWithin};
ghost use Rattle.bc_image.specs.Tree.{set_keys};
ghost use Rattle.bc_node.specs.Sets.{AreProper};
ghost use Rattle.bc_set.specs.declared.set.SetKind.{SetKind};
ghost use Rattle.bc_walk.specs.Loading.{AreChildren, IsUnread, RisesWith, TakesLeaf};
ghost use Rattle.bc_walk.specs.Walk.{IsWhole};

use crate::error::{WalkError, error_of};
use crate::gather::Gather;
use bc_disk::disk::Disk;
use bc_disk::geometry::Geometry;
use bc_inner::Inner;
use bc_key::Key;
use bc_node::{NodeError, are_within, load_sets, word_of};
use bc_set::{Set, SetKind};
use std::alloc::Global;

/// Reads the inner node of a key, which lies in this bucket, and of which the range begins at a
/// sector.
pub fn read_inner<D: Disk>(
    alloc: Global,
    disk: &mut D,
    g: &Geometry,
    level: u16,
    from: u64,
    key: &Key,
    bucket: u32,
) -> Result<Inner, WalkError>
    requires room { g.now.bucket * g.now.nbuckets ≤ (D.facts disk.old).sectors }
    requires level { 0 < level }
    requires proper { IsNodeKey g.now key.now }
    ensures found { IfOk result
        (λ inner. AreChildren (D.facts disk.old) g.now level from key.now inner.children) }
    ensures refused { IfErr result (IsUnread (D.facts disk.old) g.now level from key.now bucket) }
    ensures kept { IsKept (D.facts disk.old) (D.facts disk.new) }
    ensures faults { RisesWith result (D.facts disk.old).faults (D.facts disk.new).faults }
{
    match Inner::load(alloc, disk, g, key, level, from) {
        Ok(inner) => Ok(inner),
        Err(why) => Err(error_of(bucket, why)),
    }
}

/// Whether each key of the sets of a leaf lies in a range.
fn lie_within(from: u64, end: u64, sets: &[Set]) -> bool
    ensures { MatchBool result (All (LiesWithin 0 from end) (set_keys sets.now))
        (¬ (All (LiesWithin 0 from end) (set_keys sets.now))) }
{
    for set in sets {
        if !are_within(from, end, set.keys.as_slice()) {
            return false;
        }
    }
    true
}

/// Reads the sets of the leaf of a key, which lies in this bucket, and of which the range begins at
/// a sector.
fn leaf_sets<D: Disk>(
    alloc: Global,
    disk: &mut D,
    g: &Geometry,
    from: u64,
    key: &Key,
    bucket: u32,
) -> Result<Vec<Set>, WalkError>
    requires room { g.now.bucket * g.now.nbuckets ≤ (D.facts disk.old).sectors }
    requires proper { IsNodeKey g.now key.now }
    ensures found { IfOk result (λ sets. IfTold (D.facts disk.old).holds
        (λ image. IsWhole g.now image 0 from key.now sets.items)) }
    ensures proper { IfOk result (λ sets. AreProper SetKind.Extents sets.items) }
    ensures refused { IfErr result (IsUnread (D.facts disk.old) g.now 0 from key.now bucket) }
    ensures kept { IsKept (D.facts disk.old) (D.facts disk.new) }
    ensures faults { RisesWith result (D.facts disk.old).faults (D.facts disk.new).faults }
{
    let ptr = key.ptrs[0];
    match load_sets(alloc, disk, g, ptr.offset, word_of(&ptr), SetKind::Extents) {
        Ok(sets) => {
            if !lie_within(from, key.end, &sets) {
                return Err(WalkError::Node {
                    bucket,
                    why: NodeError::Ranges,
                });
            }
            Ok(sets)
        }
        Err(why) => Err(error_of(bucket, why)),
    }
}

/// Reads the leaf of a key, which lies in this bucket, and of which the range begins at a sector,
/// and hands its keys on.
pub fn take_leaf<D: Disk, T: Gather>(
    alloc: Global,
    disk: &mut D,
    g: &Geometry,
    from: u64,
    key: &Key,
    bucket: u32,
    gather: &mut T,
) -> Result<(), WalkError>
    requires room { g.now.bucket * g.now.nbuckets ≤ (D.facts disk.old).sectors }
    requires proper { IsNodeKey g.now key.now }
    ensures taken { IfOk result (λ _. TakesLeaf (D.facts disk.old) g.now from key.now
        (T.took gather.old) (T.took gather.new)) }
    ensures rule { T.rule gather.new ≡ T.rule gather.old }
    ensures refused { IfErr result (IsUnread (D.facts disk.old) g.now 0 from key.now bucket) }
    ensures kept { IsKept (D.facts disk.old) (D.facts disk.new) }
    ensures faults { RisesWith result (D.facts disk.old).faults (D.facts disk.new).faults }
{
    let sets = leaf_sets(alloc, disk, g, from, key, bucket)?;
    gather.take(&sets)?;
    Ok(())
}
