//! Leaves come into their parts.
ghost use Rattle.std.specs.Prelude.{◌≡◌, ◌+◌, ◌*◌, ◌<◌, ◌≤◌, ◌^◌, length, IfErr, IfOk, OnOk};
ghost use Rattle.bc_disk.specs.Disk.{IsKept};
ghost use Rattle.bc_replay.specs.Causes.{RisesWith};
ghost use Rattle.bc_slots.specs.Filling.{ArePrepared};
ghost use Rattle.bc_slots.specs.Parts.{AreOfLeaves, AreParts, IsPartsCause};
ghost use Rattle.bc_slots.specs.Places.{readings};
ghost use Rattle.bc_spine.specs.Leaves.{AreCounted};
ghost use Rattle.bc_super.specs.Writing.{count_after};

use crate::leaf::take_leaf;
use bc_cache::NodeCache;
use bc_disk::disk::Disk;
use bc_disk::geometry::Geometry;
use bc_pending::Pending;
use bc_replay::OpenError;
use bc_spine::LeafRange;
use std::alloc::Global;

/// Parts without leaves, filled with those leaves that have keys, each in the next slot of its part.
pub fn fill<C: Disk>(
    alloc: Global,
    cache: &mut C,
    g: &Geometry,
    leaves: &[LeafRange],
    pending: &[Pending],
    mut parts: Vec<NodeCache>,
) -> Result<Vec<NodeCache>, OpenError>
    requires room { g.now.bucket * g.now.nbuckets ≤ (C.facts cache.old).sectors }
    requires counted { AreCounted 0 leaves.now }
    requires keys { AreOfLeaves leaves.now pending.now }
    requires some { 0 < length parts.items }
    requires few { length leaves.now + 4 < 2 ^ 32 }
    requires prepared { ArePrepared g.now pending.now parts.items }
    ensures found { IfOk result (λ filled. AreParts g.now leaves.now pending.now
        (length parts.items) (C.facts cache.old) filled.items) }
    ensures refused { IfErr result
        (IsPartsCause g.now leaves.now pending.now (C.facts cache.old)) }
    ensures calls { OnOk result ((C.facts cache.new).calls
        ≡ count_after (readings pending.now) (C.facts cache.old).calls) }
    ensures kept { IsKept (C.facts cache.old) (C.facts cache.new) }
    ensures faults { RisesWith result (C.facts cache.old).faults (C.facts cache.new).faults }
{
    let mut filled = vec![in alloc; 0u32; parts.len()]?;
    for i in 0..leaves.len() {
        let range = &leaves[i];
        let at = range.number as usize % parts.len();
        let keys = pending[i].as_slice();
        let part = &mut parts[at];
        let next = &mut filled[at];
        take_leaf(alloc, cache, g, range, keys, part, next)?;
    }
    Ok(parts)
}
