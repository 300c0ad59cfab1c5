//! The parts of a pair that is opened.
ghost use Rattle.std.specs.Prelude.{◌≡◌, ◌*◌, ◌<◌, ◌≤◌, IfErr, IfOk, OnOk};
ghost use Rattle.bc_disk.specs.Disk.{IsKept};
ghost use Rattle.bc_replay.specs.Causes.{RisesWith};
ghost use Rattle.bc_slots.specs.Parts.{AreOfLeaves, AreParts, IsPartsCause};
ghost use Rattle.bc_slots.specs.Places.{readings};
ghost use Rattle.bc_spine.specs.Leaves.{AreCounted, AreLeaves};
ghost use Rattle.bc_super.specs.Writing.{count_after};

use crate::count::{SPARE, count_leaves, empty_parts};
use crate::fill::fill;
use bc_cache::NodeCache;
use bc_disk::disk::Disk;
use bc_disk::geometry::Geometry;
use bc_pending::Pending;
use bc_replay::OpenError;
use bc_spine::LeafRange;
use bc_tree::Spine;
use std::alloc::{AllocError, Global};

/// The leaves of a tree, in the order of their ranges.
pub fn leaves_of(alloc: Global, tree: &Spine) -> Result<Vec<LeafRange>, AllocError>
    ensures leaves { IfOk result (λ leaves. leaves.items ≡ tree.now.leaves) }
    ensures all { IfOk result (λ leaves. AreLeaves leaves.items tree.now.root.end) }
{
    let mut leaves = Vec::new(alloc);
    for place in 0..tree.len() {
        leaves.push(tree.leaf(place))?;
    }
    Ok(leaves)
}

/// So many parts for leaves whose numbers are their places, each with the keys of the journal in its
/// range. Leaf i lies in part i modulo the number of parts. A leaf of which the journal has keys is
/// read, by one call, and gets these; the others stay on the device. The time is linear in the number
/// of leaves, parts and keys.
///
/// A leaf that stands where no node may is refused as `PointerRange`, with the word 0, and one that
/// has a fault as `Node`; else the error is `Fault` or `Memory`. What the device holds stays.
pub fn leaf_parts<C: Disk>(
    alloc: Global,
    cache: &mut C,
    g: &Geometry,
    leaves: &[LeafRange],
    pending: &[Pending],
    count: u32,
) -> Result<Vec<NodeCache>, OpenError>
    requires room { g.now.bucket * g.now.nbuckets ≤ (C.facts cache.old).sectors }
    requires counted { AreCounted 0 leaves.now }
    requires keys { AreOfLeaves leaves.now pending.now }
    requires some { 0 < count }
    ensures found { IfOk result (λ parts. AreParts g.now leaves.now pending.now count
        (C.facts cache.old) parts.items) }
    ensures refused { IfErr result
        (IsPartsCause g.now leaves.now pending.now (C.facts cache.old)) }
    ensures calls { OnOk result ((C.facts cache.new).calls
        ≡ count_after (readings pending.now) (C.facts cache.old).calls) }
    ensures kept { IsKept (C.facts cache.old) (C.facts cache.new) }
    ensures faults { RisesWith result (C.facts cache.old).faults (C.facts cache.new).faults }
{
    if leaves.len() >= (u32::MAX - SPARE) as usize {
        return Err(OpenError::Memory);
    }
    let counts = count_leaves(alloc, pending, count)?;
    let parts = empty_parts(alloc, g, &counts)?;
    fill(alloc, cache, g, leaves, pending, parts)
}
