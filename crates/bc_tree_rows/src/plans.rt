//! Leaves that move, of which the new nodes are written, and the set that names one of them.
ghost use Rattle.std.specs.Prelude.{◌≡◌, ◌<◌, ◌≤◌, List, IsTrue, IfOk, slice_get, Some};
ghost use Rattle.bc_disk.specs.declared.geometry.Geometry.{Geometry};
ghost use Rattle.bc_inner.specs.Inner.{Inner};
ghost use Rattle.bc_key.specs.declared.key.Key.{Key};
ghost use Rattle.bc_plan.specs.Parent.{TakesSet};
ghost use Rattle.bc_node.specs.Leaf.{Leaf};
ghost use Rattle.bc_plan.specs.Write.{IsUnwritten, IsUnwrittenInner};
ghost use Rattle.bc_tree.specs.Append.{CanAppend};
ghost use Rattle.bc_tree.specs.Needs.{has_room};
ghost use Rattle.bc_tree.specs.Plan.{Fits, IsOfSpine};
ghost use Rattle.bc_tree.specs.declared.change.NodeChange.TheVariants as changes;

use bc_disk::disk::Disk;
use bc_disk::geometry::Geometry;
use bc_disk::mem_disk::MemDisk;
use bc_inner::Inner;
use bc_key::{Key, Ptr};
use bc_keys::{Keys, word_count};
use bc_node::{Leaf, in_blocks};
use bc_plan::{NewNode, write_node, write_parent};
use bc_tree::{NodeChange, Plan, Spine};
use std::alloc::{AllocError, Global};
use std::process::Abort;
use std::test::Fail;

/// How the device is divided.
fn device() -> Geometry {
    Geometry {
        block: 1,
        bucket: 64,
        nbuckets: 128,
        first_bucket: 1,
        journal: 8,
        set_magic: 1,
        node_sectors: 64,
    }
}

/// The place of a bucket.
fn at(bucket: u64) -> Ptr {
    Ptr {
        dev: 0,
        offset: 64 * (bucket % 128),
        generation: 0,
    }
}

/// The key of a node in a bucket.
fn child(end: u64, bucket: u64) -> Key
    ensures end { result.end ≡ end }
    ensures one { result.count ≡ 1 }
{
    Key::new(end, 64, false, Some(at(bucket)))
}

/// A tree of three leaves, of which nothing is written.
fn tree(alloc: Global, g: &Geometry) -> Result<Spine, Fail> {
    let children = [child(512, 9), child(1_024, 10), child(2_048, 11)];
    let keys = Keys::from_vec(Vec::from_slice(alloc, &children)?);
    let root = Inner::new(alloc, &child(2_048, 12), 1, 0, 7, keys);
    let length = root.length();
    let room = 512 * usize::from(g.node_sectors);
    if length > room {
        return Err(Fail::new("the root is too large"));
    }
    let below = Vec::new(alloc);
    let spine = Spine::new(alloc, g, root, below)?;
    Ok(spine)
}

/// A tree of one leaf, of which nothing is written.
fn small_tree(alloc: Global, g: &Geometry) -> Result<Spine, Fail> {
    let children = [child(1_048_576, 9)];
    let keys = Keys::from_vec(Vec::from_slice(alloc, &children)?);
    let root = Inner::new(alloc, &child(1_048_576, 12), 1, 0, 7, keys);
    let length = root.length();
    let room = 512 * usize::from(g.node_sectors);
    if length > room {
        return Err(Fail::new("the root is too large"));
    }
    let below = Vec::new(alloc);
    let spine = Spine::new(alloc, g, root, below)?;
    Ok(spine)
}

/// The leaf of a sector, without keys.
fn leaf(alloc: Global, spine: &Spine, sector: u64) -> Leaf
    requires { sector < spine.now.root.end }
    ensures { IsOfSpine spine.now result }
{
    let _ = spine.len();
    let range = spine.find(sector);
    let key = Key::new(range.end, 0, false, Some(range.ptr));
    Leaf::new(alloc, &key, range.from, 1)
}

/// Plans that the leaf of a sector moves, with as many places as it needs.
fn plan(
    rt: &impl Abort,
    alloc: Global,
    spine: &mut Spine,
    sector: u64,
    to: &[Ptr],
) -> Result<Plan, Fail>
    ensures { IfOk result (Fits spine.new) }
{
    assert!(rt; sector < spine.root().end());
    let old = leaf(alloc, spine, sector);
    let needs = spine.rewrite_needs(&old);
    assert!(rt; needs.tree < 8 && needs.moving < 8);
    assert!(rt; to.len() == (needs.tree + needs.moving) as usize);
    match spine.plan_rewrite(alloc, &old, to, 8, 1) {
        Ok(plan) => Ok(plan),
        Err(_) => Err(Fail::new("no plan")),
    }
}

/// Plans that the leaf of a sector is split, with as many places as that needs.
fn cut(
    rt: &impl Abort,
    alloc: Global,
    spine: &mut Spine,
    sector: u64,
    to: &[Ptr],
) -> Result<Plan, Fail>
    ensures { IfOk result (Fits spine.new) }
{
    assert!(rt; sector < spine.root().end());
    let old = leaf(alloc, spine, sector);
    assert!(rt; old.from() < 1_000_000 && old.from() + 256 < old.end());
    if let Some(needs) = spine.split_needs(&old) {
        assert!(rt; needs.tree < 8 && needs.moving < 8);
        let count = (needs.tree + needs.moving) as usize;
        assert!(rt; count <= to.len());
        if let Ok(plan) = spine.plan_split(alloc, &old, &to[..count], 8) {
            return Ok(plan);
        }
    }
    Err(Fail::new("no plan of a split"))
}

/// Plans that a leaf becomes one with the next, with as many places as that needs.
fn join_both(
    rt: &impl Abort,
    alloc: Global,
    spine: &mut Spine,
    left: &Leaf,
    right: &Leaf,
    to: &[Ptr],
) -> Result<Plan, Fail>
    requires left { IsOfSpine spine.old left.now }
    requires right { IsOfSpine spine.old right.now }
    requires some { left.now.from < left.now.end }
    requires beside { left.now.end ≡ right.now.from }
    requires within { right.now.from < spine.old.root.end }
    ensures { IfOk result (Fits spine.new) }
{
    if let Some(needs) = spine.merge_needs(left, right) {
        assert!(rt; needs.tree < 8 && needs.moving < 8);
        let count = (needs.tree + needs.moving) as usize;
        assert!(rt; count <= to.len());
        if let Ok(Some(plan)) = spine.plan_merge(alloc, left, right, &to[..count], 8) {
            return Ok(plan);
        }
    }
    Err(Fail::new("no plan of a merge"))
}

/// Plans that the leaves of two sectors become one, with as many places as that needs.
fn join(
    rt: &impl Abort,
    alloc: Global,
    spine: &mut Spine,
    low: u64,
    high: u64,
    to: &[Ptr],
) -> Result<Plan, Fail>
    ensures { IfOk result (Fits spine.new) }
{
    assert!(rt; low < spine.root().end() && high < spine.root().end());
    let left = leaf(alloc, spine, low);
    let right = leaf(alloc, spine, high);
    if left.from() < left.end() && left.end() == right.from() && right.from() < spine.root().end() {
        return join_both(rt, alloc, spine, &left, &right, to);
    }
    Err(Fail::new("no neighbours"))
}

/// Whether the node moves to a place on the device, and isn't written yet.
fn moves(change: &NodeChange, g: &Geometry, sectors: u64) -> bool
    ensures { IsTrue result → (node : Inner) × (change.now ≡ changes.Move node)
        × IsUnwrittenInner g.now sectors node }
{
    if let NodeChange::Move(node) = change {
        let end = node.ptr().offset + u64::from(g.node_sectors);
        if node.taken() == 0 && end <= sectors {
            return true;
        }
    }
    false
}

/// Writes the leaf that comes.
fn write_leaf(
    rt: &impl Abort,
    spine: &Spine,
    plan: &mut Plan,
    disk: &mut MemDisk,
    buffer: &mut [u8],
)
    requires { Fits spine.now plan.old }
    ensures { Fits spine.now plan.new }
{
    let g = *spine.geometry();
    assert!(rt; buffer.len() == 512 * usize::from(g.node_sectors));
    assert!(rt; plan.first.taken() == 0 && !plan.first.is_loaded());
    assert!(rt; !plan.first.is_full(&g));
    assert!(rt; plan.first.ptr().offset + u64::from(g.node_sectors) <= disk.sectors());
    assert!(rt; write_node(plan, NewNode::First, disk, &g, buffer).is_ok());
}

/// Writes the node above it, which moves.
fn write_above(
    rt: &impl Abort,
    spine: &Spine,
    plan: &mut Plan,
    disk: &mut MemDisk,
    buffer: &mut [u8],
)
    requires { Fits spine.now plan.old }
    ensures { Fits spine.now plan.new }
{
    let g = *spine.geometry();
    assert!(rt; buffer.len() == 512 * usize::from(g.node_sectors));
    let moves = moves(&plan.bottom, &g, disk.sectors());
    assert!(rt; moves);
    if moves {
        assert!(rt; write_node(plan, NewNode::Parent, disk, &g, buffer).is_ok());
    }
}

/// Whether a further set of so many words has room in a node.
fn has_room(g: &Geometry, node: &Inner, set: usize) -> bool
    requires { set ≤ 8 }
    ensures { result ≡ has_room g.now node.now set }
{
    let behind = usize::from(node.taken()) + in_blocks(g.block, 32 + 8 * set);
    !node.is_loaded() && node.taken() > 0 && behind <= usize::from(g.node_sectors)
}

/// Whether the plan puts a set behind the others of the root.
fn takes_set(spine: &Spine, plan: &Plan, sectors: u64) -> bool
    ensures { IsTrue result → (node : Inner) × (keys : List Key)
        × TakesSet spine.now plan.now node keys
        × CanAppend spine.now.geometry sectors node keys }
{
    let g = spine.geometry();
    let root = spine.root();
    if let NodeChange::Set(keys) = &plan.bottom {
        let words = word_count(keys.as_slice());
        let end = root.ptr().offset + u64::from(g.node_sectors);
        let is_low = spine.below().is_empty();
        if words <= 8 && has_room(g, root, words) && is_low && plan.place == 0 && end <= sectors {
            return true;
        }
    }
    false
}

/// Writes the set that names the leaf which comes.
fn write_set(rt: &impl Abort, spine: &mut Spine, plan: &Plan, disk: &mut MemDisk, buffer: &mut [u8])
    requires { Fits spine.old plan.now }
    ensures { Fits spine.new plan.now }
{
    assert!(rt; buffer.len() == 512 * usize::from(spine.geometry().node_sectors));
    let takes = takes_set(spine, plan, disk.sectors());
    assert!(rt; takes);
    if takes {
        assert!(rt; write_parent(spine, plan, disk, buffer).is_ok());
    }
}

#[test]
fn leaves_move(rt: HostRuntime) -> Result<(), Fail> {
    let alloc = rt.alloc();
    let mut disk = MemDisk::new(alloc, vec![in alloc; 0u8; 512 * 8_192]?, 200)?;
    let mut buffer = vec![in alloc; 0u8; 512 * 64]?;
    let mut spine = tree(alloc, &device())?;
    // The root has no set yet, and so it moves, with the first set.
    let mut first = plan(&rt, alloc, &mut spine, 600, &[at(30), at(31)])?;
    write_leaf(&rt, &spine, &mut first, &mut disk, &mut buffer);
    write_above(&rt, &spine, &mut first, &mut disk, &mut buffer);
    let new = spine.install(first);
    assert_eq!(rt; new.first.ptr(), at(30));
    assert_eq!(rt; (spine.root().ptr(), spine.root().taken()), (at(31), 1));
    // Now it takes a further one.
    let mut second = plan(&rt, alloc, &mut spine, 0, &[at(32)])?;
    write_leaf(&rt, &spine, &mut second, &mut disk, &mut buffer);
    write_set(&rt, &mut spine, &second, &mut disk, &mut buffer);
    let _ = spine.install(second);
    assert_eq!(rt; (spine.root().ptr(), spine.root().taken()), (at(31), 2));
    // What stands on the device.
    let key = child(2_048, 31);
    let g = device();
    assert!(rt; key.count > 0);
    assert!(rt; key.ptrs[0].offset + u64::from(g.node_sectors) <= disk.sectors());
    let root = Inner::load(alloc, &mut disk, &g, &key, 1, 0);
    assert!(rt; root.is_ok());
    if let Ok(root) = root {
        let wanted = [at(32), at(30), at(11)];
        assert_eq!(rt; root.children().len(), 3);
        for (found, place) in root.children().iter().zip(&wanted) {
            assert_eq!(rt; found.ptrs[0], *place);
        }
    }
    Ok(())
}

/// Whether the second leaf that comes isn't written yet, and can be.
fn is_unwritten(second: &Option<Leaf>, g: &Geometry, sectors: u64) -> bool
    ensures { IsTrue result → (leaf : Leaf) × (second.now ≡ Some leaf)
        × IsUnwritten g.now sectors leaf }
{
    if let Some(leaf) = second {
        let end = leaf.ptr().offset + u64::from(g.node_sectors);
        if leaf.taken() == 0 && !leaf.is_loaded() && !leaf.is_full(g) && end <= sectors {
            return true;
        }
    }
    false
}

/// Writes the second leaf that comes.
fn write_second(
    rt: &impl Abort,
    spine: &Spine,
    plan: &mut Plan,
    disk: &mut MemDisk,
    buffer: &mut [u8],
)
    requires { Fits spine.now plan.old }
    ensures { Fits spine.now plan.new }
{
    let g = *spine.geometry();
    assert!(rt; buffer.len() == 512 * usize::from(g.node_sectors));
    let can = is_unwritten(&plan.second, &g, disk.sectors());
    assert!(rt; can);
    if can {
        assert!(rt; write_node(plan, NewNode::Second, disk, &g, buffer).is_ok());
    }
}

/// Moves the leaf of a sector, and the root, which takes no set yet.
fn move_there(
    rt: &impl Abort,
    alloc: Global,
    spine: &mut Spine,
    sector: u64,
    to: &[Ptr],
    disk: &mut MemDisk,
    buffer: &mut [u8],
) -> Result<(), Fail> {
    let mut plan = plan(rt, alloc, spine, sector, to)?;
    write_leaf(rt, spine, &mut plan, disk, buffer);
    write_above(rt, spine, &mut plan, disk, buffer);
    let _ = spine.install(plan);
    Ok(())
}

/// Cuts the leaf of a sector in two, by a further set of the root.
fn cut_there(
    rt: &impl Abort,
    alloc: Global,
    spine: &mut Spine,
    sector: u64,
    to: &[Ptr],
    disk: &mut MemDisk,
    buffer: &mut [u8],
) -> Result<(), Fail> {
    let mut plan = cut(rt, alloc, spine, sector, to)?;
    write_leaf(rt, spine, &mut plan, disk, buffer);
    write_second(rt, spine, &mut plan, disk, buffer);
    write_set(rt, spine, &plan, disk, buffer);
    let new = spine.install(plan);
    assert!(rt; new.second.is_some());
    Ok(())
}

/// Joins the leaves of two sectors, by a further set of the root.
fn join_there(
    rt: &impl Abort,
    alloc: Global,
    spine: &mut Spine,
    sectors: (u64, u64),
    to: &[Ptr],
    disk: &mut MemDisk,
    buffer: &mut [u8],
) -> Result<(), Fail> {
    let mut plan = join(rt, alloc, spine, sectors.0, sectors.1, to)?;
    write_leaf(rt, spine, &mut plan, disk, buffer);
    write_set(rt, spine, &plan, disk, buffer);
    let new = spine.install(plan);
    assert!(rt; new.second.is_none());
    Ok(())
}

/// Whether the leaves begin at these sectors, one behind the other, and stand at these places.
fn are_leaves(spine: &Spine, wanted: &[(u64, Ptr)]) -> bool {
    if spine.len() != wanted.len() {
        return false;
    }
    for (i, want) in wanted.iter().enumerate() {
        let range = spine.leaf(i);
        if (range.from, range.ptr) != *want {
            return false;
        }
    }
    true
}

/// Whether the children end at these sectors, one behind the other, and stand at these places.
fn are_children(children: &[Key], wanted: &[(u64, Ptr)]) -> bool {
    if children.len() != wanted.len() {
        return false;
    }
    for (child, want) in children.iter().zip(wanted) {
        if (child.end, child.ptrs[0]) != *want {
            return false;
        }
    }
    true
}

/// Whether the root at a place of the device has these children there.
fn has_root(
    rt: &impl Abort,
    alloc: Global,
    disk: &mut MemDisk,
    place: u64,
    wanted: &[(u64, Ptr)],
) -> bool {
    let key = child(2_048, place);
    let g = device();
    assert!(rt; key.count > 0);
    assert!(rt; key.ptrs[0].offset + u64::from(g.node_sectors) <= disk.sectors());
    match Inner::load(alloc, disk, &g, &key, 1, 0) {
        Ok(root) => are_children(root.children(), wanted),
        Err(_) => false,
    }
}

#[test]
fn leaves_are_cut_and_joined(rt: HostRuntime) -> Result<(), Fail> {
    let alloc = rt.alloc();
    let mut disk = MemDisk::new(alloc, vec![in alloc; 0u8; 512 * 8_192]?, 1_000)?;
    let mut buffer = vec![in alloc; 0u8; 512 * 64]?;
    let mut spine = tree(alloc, &device())?;
    let both = [at(30), at(31)];
    move_there(&rt, alloc, &mut spine, 600, &both, &mut disk, &mut buffer)?;
    // One leaf gives way to two.
    let two = [at(32), at(33)];
    cut_there(&rt, alloc, &mut spine, 1_024, &two, &mut disk, &mut buffer)?;
    let four = [(0, at(9)), (512, at(30)), (1_024, at(32)), (1_280, at(33))];
    assert!(rt; are_leaves(&spine, &four));
    // The first of them becomes one with the leaf before it.
    let sectors = (512, 1_024);
    join_there(
        &rt,
        alloc,
        &mut spine,
        sectors,
        &[at(34)],
        &mut disk,
        &mut buffer,
    )?;
    assert!(rt; are_leaves(&spine, &[(0, at(9)), (512, at(34)), (1_280, at(33))]));
    assert_eq!(rt; (spine.root().ptr(), spine.root().taken()), (at(31), 3));
    // What stands on the device.
    let wanted = [(512, at(9)), (1_280, at(34)), (2_048, at(33))];
    assert!(rt; has_root(&rt, alloc, &mut disk, 31, &wanted));
    Ok(())
}

/// Splits the last leaf of a tree until there are so many leaves.
fn grow(rt: &impl Abort, alloc: Global, spine: &mut Spine, count: u64) -> Result<(), Fail> {
    let to = [at(20), at(21), at(22), at(23), at(24)];
    for k in 1..count {
        let plan = cut(rt, alloc, spine, (k - 1).saturating_mul(256), &to)?;
        let _ = spine.install(plan);
    }
    Ok(())
}

/// Notes a leaf's number, and whether its first sector and its last one lead to it and no earlier
/// leaf has that number.
fn is_found(spine: &Spine, i: usize, seen: &mut Vec<bool>) -> bool {
    if i >= spine.len() {
        return false;
    }
    let leaf = spine.leaf(i);
    let end = spine.root().end();
    let number = leaf.number as usize;
    if leaf.from >= leaf.end || leaf.end > end || number >= seen.len() || seen[number] {
        return false;
    }
    seen[number] = true;
    spine.path(leaf.from) == leaf.number && spine.path(leaf.end - 1) == leaf.number
}

#[test]
fn each_of_1100_leaves_is_found(rt: HostRuntime) -> Result<(), Fail> {
    let alloc = rt.alloc();
    let mut spine = small_tree(alloc, &device())?;
    grow(&rt, alloc, &mut spine, 1_100)?;
    assert_eq!(rt; spine.len(), 1_100);
    let mut seen = vec![in alloc; false; 2_000]?;
    for i in 0..1_100 {
        assert!(rt; is_found(&spine, i, &mut seen));
    }
    Ok(())
}

#[test]
fn a_tree_grows_and_shrinks(rt: HostRuntime) -> Result<(), Fail> {
    let alloc = rt.alloc();
    let mut spine = small_tree(alloc, &device())?;
    let to = [at(20), at(21), at(22), at(23), at(24)];
    // As long as the root has room it is the only node, and later it has others below it.
    for k in 0..3_000 {
        let plan = cut(&rt, alloc, &mut spine, 256 * k, &to)?;
        let _ = spine.install(plan);
        assert_eq!(rt; spine.len() as u64, k + 2);
        assert_eq!(rt; spine.below().is_empty(), k < 1_363);
    }
    assert_eq!(rt; spine.root().level(), 2);
    assert!(rt; spine.below().len() > 3);
    for k in 0..3_000 {
        assert!(rt; 256 * k < spine.root().end());
        assert_eq!(rt; spine.find(256 * k).from, 256 * k);
    }
    Ok(())
}

/// A number below another that looks random, and the state behind it.
fn random(state: &mut u64, below: u64) -> u64
    requires { 0 < below }
    ensures { result < below }
{
    *state = state
        .wrapping_mul(6_364_136_223_846_793_005)
        .wrapping_add(1_442_695_040_888_963_407);
    (*state >> 33) % below
}

/// The children of the nodes above leaves, one node behind the other.
fn children_above(alloc: Global, spine: &Spine) -> Result<Vec<Key>, AllocError> {
    let mut all = Vec::new(alloc);
    if spine.below().is_empty() {
        all.extend_from_slice(spine.root().children())?;
        return Ok(all);
    }
    for node in spine.below() {
        all.extend_from_slice(node.children())?;
    }
    Ok(all)
}

/// Whether the root names the nodes below it.
fn root_names(spine: &Spine) -> bool {
    let keys = spine.root().children();
    if spine.below().is_empty() {
        return spine.root().level() == 1;
    }
    if keys.len() != spine.below().len() || spine.root().level() != 2 {
        return false;
    }
    let mut from = 0;
    for (key, node) in keys.iter().zip(spine.below()) {
        if node.from() != from || node.end() != key.end || node.ptr() != key.ptrs[0] {
            return false;
        }
        from = key.end;
    }
    true
}

/// Whether the leaves of a tree are these, each by its end and the place where it stands, and so are
/// the children of the nodes above them.
fn shows(alloc: Global, spine: &Spine, slow: &[(u64, Ptr)]) -> Result<bool, AllocError> {
    let children = children_above(alloc, spine)?;
    if spine.len() != slow.len() || children.len() != slow.len() {
        return Ok(false);
    }
    let mut from = 0;
    for (i, (leaf, child)) in slow.iter().zip(&children).enumerate() {
        if i >= spine.len() {
            return Ok(false);
        }
        let range = spine.leaf(i);
        if (range.from, range.end, range.ptr) != (from, leaf.0, leaf.1)
            || (child.end, child.ptrs[0]) != *leaf
        {
            return Ok(false);
        }
        from = leaf.0;
    }
    Ok(root_names(spine))
}

/// Changes a tree at a leaf, and the slow one: the leaf moves, is cut in two, or becomes one with
/// the next. A leaf that can't be cut, or has no next one, moves.
fn change(
    rt: &impl Abort,
    alloc: Global,
    spine: &mut Spine,
    slow: &mut Vec<(u64, Ptr)>,
    i: usize,
    kind: u64,
    to: &[Ptr],
) -> Result<(), Fail> {
    assert!(rt; i < spine.len() && i < slow.len() && to.len() == 6);
    let range = spine.leaf(i);
    let end = range.end;
    if kind == 1 && range.from < end && end - range.from > 256 {
        let plan = cut(rt, alloc, spine, range.from, to)?;
        let new = spine.install(plan);
        let at = new.leaves.first.end;
        slow[i] = (end, to[1]);
        slow.insert(i, (at, to[0]))?;
        return Ok(());
    }
    if kind == 2 && i + 1 < slow.len() {
        let next = slow[i + 1].0;
        let plan = join(rt, alloc, spine, range.from, end, to)?;
        let _ = spine.install(plan);
        slow[i] = (next, to[0]);
        let _ = slow.remove(i + 1);
        return Ok(());
    }
    let plan = rewrite(rt, alloc, spine, range.from, to)?;
    let _ = spine.install(plan);
    slow[i] = (end, to[0]);
    Ok(())
}

/// Plans that the leaf of a sector moves, with as many places as that needs.
fn rewrite(
    rt: &impl Abort,
    alloc: Global,
    spine: &mut Spine,
    sector: u64,
    to: &[Ptr],
) -> Result<Plan, Fail>
    ensures { IfOk result (Fits spine.new) }
{
    assert!(rt; sector < spine.root().end());
    let old = leaf(alloc, spine, sector);
    let needs = spine.rewrite_needs(&old);
    assert!(rt; needs.tree < 8 && needs.moving < 8);
    let count = (needs.tree + needs.moving) as usize;
    assert!(rt; count <= to.len());
    plan(rt, alloc, spine, sector, &to[..count])
}

/// Six places that were given to no node yet.
fn six(step: u64) -> [Ptr; 6] {
    let at = |n: u64| Ptr {
        dev: 0,
        offset: 8 * (6 * (step % 1_000_000) + n % 6),
        generation: 0,
    };
    [at(0), at(1), at(2), at(3), at(4), at(5)]
}

#[test]
fn trees_are_those_of_a_plain_list(rt: HostRuntime) -> Result<(), Fail> {
    let alloc = rt.alloc();
    let mut spine = small_tree(alloc, &device())?;
    let mut slow = Vec::new(alloc);
    slow.push((1_048_576, at(9)))?;
    let mut state = 1;
    let mut most = 0;
    // First it grows to many leaves, and then it shrinks.
    for step in 1..8_000 {
        let kind = match random(&mut state, 8) {
            0 => 0,
            1 => if step < 4_500 { 2 } else { 1 },
            _ => if step < 4_500 { 1 } else { 2 },
        };
        let count = slow.len() as u64;
        assert!(rt; count > 0);
        // The last leaf is the longest one.
        let i = if kind == 1 {
            count - 1
        } else {
            random(&mut state, count)
        } as usize;
        change(&rt, alloc, &mut spine, &mut slow, i, kind, &six(step))?;
        most = most.max(spine.below().len());
        if step % 64 == 0 {
            assert!(rt; shows(alloc, &spine, slow.as_slice())?);
        }
    }
    assert!(rt; shows(alloc, &spine, slow.as_slice())?);
    assert!(rt; spine.below().len() < most && most > 3);
    Ok(())
}
