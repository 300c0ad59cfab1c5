//! The walk.
ghost use Rattle.std.specs.Prelude.{◌≡◌, ◌*◌, ◌≤◌, [], IfOk, IfErr, MatchOption};
ghost use Rattle.bc_disk.specs.Disk.{IsKept};
ghost use Rattle.bc_walk.specs.Loading.{RisesWith};
ghost use Rattle.bc_walk.specs.Seen.{AreFlags, IsPassed, TakesNode, Went, Ended, WentWhole, EndedWhole};
ghost use Rattle.bc_walk.specs.Walk.{AreSearches, IsSearch};

use crate::error::WalkError;
use crate::gather::Gather;
use crate::node::{read_inner, take_leaf};
use crate::pointers::bucket_of;
use crate::visit::Visit;
use bc_disk::disk::Disk;
use bc_disk::geometry::Geometry;
use bc_key::Key;
use std::alloc::{AllocError, Global};

/// Behind the last sector that there may be.
const LAST_END: u64 = 1 << 40;

/// Notes what is to be done at a key, and gives the bucket of its node where this is to be read.
fn note(
    g: &Geometry,
    level: u16,
    from: u64,
    key: &Key,
    visits: &mut Vec<Visit>,
    taken: &mut [bool],
) -> Result<Option<u32>, AllocError>
    requires { AreFlags g.now visits.old.items taken.old }
    ensures flags { IfOk result (λ _. AreFlags g.now visits.new.items taken.new) }
    ensures noted { IfOk result (λ o. MatchOption o
        (IsPassed g.now key.now visits.old.items visits.new.items)
        (TakesNode g.now level from key.now visits.old.items visits.new.items)) }
{
    let Some(bucket) = bucket_of(g, key) else {
        visits.push(Visit::Barred { key: *key })?;
        return Ok(None);
    };
    if taken[bucket as usize] {
        visits.push(Visit::Again { key: *key })?;
        return Ok(None);
    }
    visits.push(Visit::Met {
        level,
        from,
        key: *key,
    })?;
    taken[bucket as usize] = true;
    Ok(Some(bucket))
}

/// Walks from a key of a level, of which the range begins at a sector.
#[cycle(walk)]
fn walk_key<D: Disk, T: Gather>(
    alloc: Global,
    disk: &mut D,
    g: &Geometry,
    level: u16,
    from: u64,
    key: &Key,
    visits: &mut Vec<Visit>,
    taken: &mut [bool],
    gather: &mut T,
) -> Result<(), WalkError>
    requires room { g.now.bucket * g.now.nbuckets ≤ (D.facts disk.old).sectors }
    requires flags { AreFlags g.now visits.old.items taken.old }
    ensures flags { IfOk result (λ _. AreFlags g.now visits.new.items taken.new) }
    ensures went { IfOk result (λ _. Went (D.facts disk.old)
        (λ image. IsSearch g.now image level from key.now) (T.took gather.old) (T.took gather.new)
        visits.old.items visits.new.items) }
    ensures ended { IfErr result (Ended (D.facts disk.old)
        (λ image. IsSearch g.now image level from key.now) (T.took gather.old) visits.old.items) }
    ensures rule { T.rule gather.new ≡ T.rule gather.old }
    ensures kept { IsKept (D.facts disk.old) (D.facts disk.new) }
    ensures faults { RisesWith result (D.facts disk.old).faults (D.facts disk.new).faults }
{
    let Some(bucket) = note(g, level, from, key, visits, taken)? else {
        return Ok(());
    };
    if level == 0 {
        return take_leaf(alloc, disk, g, from, key, bucket, gather);
    }
    let inner = read_inner(alloc, disk, g, level, from, key, bucket)?;
    let children = inner.children();
    walk_children(
        alloc,
        disk,
        g,
        level - 1,
        from,
        children,
        visits,
        taken,
        gather,
    )
}

/// Walks from each of the children of a node, whose range begins at a sector.
#[cycle(walk)]
fn walk_children<D: Disk, T: Gather>(
    alloc: Global,
    disk: &mut D,
    g: &Geometry,
    level: u16,
    from: u64,
    children: &[Key],
    visits: &mut Vec<Visit>,
    taken: &mut [bool],
    gather: &mut T,
) -> Result<(), WalkError>
    requires room { g.now.bucket * g.now.nbuckets ≤ (D.facts disk.old).sectors }
    requires flags { AreFlags g.now visits.old.items taken.old }
    ensures flags { IfOk result (λ _. AreFlags g.now visits.new.items taken.new) }
    ensures went { IfOk result (λ _. Went (D.facts disk.old)
        (λ image. AreSearches (IsSearch g.now image level) from children.now)
        (T.took gather.old) (T.took gather.new) visits.old.items visits.new.items) }
    ensures ended { IfErr result (Ended (D.facts disk.old)
        (λ image. AreSearches (IsSearch g.now image level) from children.now)
        (T.took gather.old) visits.old.items) }
    ensures rule { T.rule gather.new ≡ T.rule gather.old }
    ensures kept { IsKept (D.facts disk.old) (D.facts disk.new) }
    ensures faults { RisesWith result (D.facts disk.old).faults (D.facts disk.new).faults }
{
    let mut low = from;
    for child in children {
        walk_key(alloc, disk, g, level, low, child, visits, taken, gather)?;
        low = child.end;
    }
    Ok(())
}

/// Walks through an index, from the key of its root, which has this level (0 for a leaf), and tells
/// what it did at each key. The keys of data in the leaves that it met are handed on. No bucket is
/// read twice; each node is read by one call, at the first place that its key names. Nothing is
/// written. It takes memory for the visits and a byte for each bucket.
///
/// The error is `Node` for the first node on the way that has a fault; `Fault` and `Memory` come
/// wherever they happen.
pub fn walk<D: Disk, T: Gather>(
    alloc: Global,
    disk: &mut D,
    g: &Geometry,
    level: u16,
    root: &Key,
    gather: &mut T,
) -> Result<Vec<Visit>, WalkError>
    requires room { g.now.bucket * g.now.nbuckets ≤ (D.facts disk.old).sectors }
    requires nothing_taken { T.took gather.old [] }
    ensures went { IfOk result (λ visits. WentWhole (D.facts disk.old) g.now level root.now
        (T.took gather.new) visits.items) }
    ensures rule { T.rule gather.new ≡ T.rule gather.old }
    ensures ended { IfErr result (EndedWhole (D.facts disk.old) g.now level root.now) }
    ensures kept { IsKept (D.facts disk.old) (D.facts disk.new) }
    ensures faults { RisesWith result (D.facts disk.old).faults (D.facts disk.new).faults }
{
    let mut visits = Vec::new(alloc);
    if root.end != LAST_END {
        visits.push(Visit::Barred { key: *root })?;
        return Ok(visits);
    }
    let mut taken = vec![in alloc; false; g.nbuckets as usize]?;
    walk_key(
        alloc,
        disk,
        g,
        level,
        0,
        root,
        &mut visits,
        &mut taken,
        gather,
    )?;
    Ok(visits)
}
