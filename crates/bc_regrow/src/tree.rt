//! The tree of a pair.
ghost use Rattle.std.specs.Prelude.{◌≡◌, ◌*◌, ◌≤◌, IfErr, IfOk};
ghost use Rattle.std.specs.Bool.{MatchBool};
ghost use Rattle.bc_disk.specs.Disk.{IsKept};
ghost use Rattle.bc_jset.specs.EntryBytes.{IsLevel};
ghost use Rattle.bc_replay.specs.Causes.{RisesWith};
ghost use Rattle.bc_regrow.specs.Tree.{IsTreeCause, IsTreeOf, OfRead};
ghost use Rattle.bc_spine.specs.Leaves.{AreCounted};

use crate::load::{below_root, load_inner};
use bc_disk::disk::Disk;
use bc_replay::{OpenError, Survey};
use bc_tree::Spine;
use std::alloc::Global;

/// Whether a root may have this level.
fn is_level(level: u16) -> bool
    ensures { MatchBool result (IsLevel level) (¬ (IsLevel level)) }
{
    level == 1 || level == 2
}

/// The tree of a pair that was read: its inner nodes, read once more, each by one call, and its
/// leaves by numbers from 0 on, in the order of their ranges. Nothing is written.
///
/// Where the device holds the pair that was read, the error is `Fault` or `Memory`.
pub fn tree_of<C: Disk>(alloc: Global, cache: &mut C, s: &Survey) -> Result<Spine, OpenError>
    requires room { s.now.supers.geometry.bucket * s.now.supers.geometry.nbuckets
        ≤ (C.facts cache.old).sectors }
    ensures found { IfOk result (λ tree. OfRead s.now (C.facts cache.old)
        (λ p h. IsTreeOf h.view.geometry h.view.reading.nodes tree)) }
    ensures counted { IfOk result (λ tree. AreCounted 0 tree.leaves) }
    ensures refused { IfErr result (IsTreeCause s.now (C.facts cache.old)) }
    ensures kept { IsKept (C.facts cache.old) (C.facts cache.new) }
    ensures faults { RisesWith result (C.facts cache.old).faults (C.facts cache.new).faults }
{
    let g = &s.supers.geometry;
    let count = s.journal.len();
    if count == 0 {
        return Err(OpenError::NoJournal);
    }
    let newest = &s.journal.entry(count - 1).item;
    if !is_level(newest.level) {
        return Err(OpenError::NoJournal);
    }
    let root = load_inner(alloc, cache, g, newest.level, 0, &newest.root)?;
    let below = below_root(alloc, cache, g, &root)?;
    let tree = Spine::new(alloc, g, root, below)?;
    let _top = tree.root();
    let _leaves = tree.len();
    Ok(tree)
}
