//! Inner nodes, read again.
ghost use Rattle.std.specs.Prelude.{◌≡◌, ◌≢◌, ◌*◌, ◌<◌, ◌≤◌, ◌++◌, ◌∷◌, [], IfErr, IfOk, OnOk};
ghost use Rattle.bc_disk.specs.Disk.{IsKept};
ghost use Rattle.bc_inner.specs.Loading.{IsHeldInner};
ghost use Rattle.bc_replay.specs.Causes.{RisesWith};
ghost use Rattle.bc_regrow.specs.Held.{AreHeldBelow, AreUnder, IsBelowCause, IsInnerCause, open_node};

use bc_disk::disk::{Device, Disk};
use bc_disk::geometry::Geometry;
use bc_inner::Inner;
use bc_key::Key;
use bc_node::NodeError;
use bc_replay::OpenError;
use bc_walk::bucket_of;
use std::alloc::{AllocError, Global};

// The refusal of the node in a bucket as one of the pair.
fn open_node(bucket: u32, why: NodeError) -> OpenError
    ensures { result ≡ open_node bucket why }
{
    match why {
        NodeError::Fault => OpenError::Fault(Device::Cache),
        NodeError::Memory => OpenError::Memory,
        why => OpenError::Node { bucket, why },
    }
}

/// The inner node of a level that a key names, of which the range begins at a sector.
pub fn load_inner<C: Disk>(
    alloc: Global,
    cache: &mut C,
    g: &Geometry,
    level: u16,
    from: u64,
    key: &Key,
) -> Result<Inner, OpenError>
    requires room { g.now.bucket * g.now.nbuckets ≤ (C.facts cache.old).sectors }
    requires level { 0 < level }
    ensures found { IfOk result (IsHeldInner g.now key.now level from (C.facts cache.old)) }
    ensures refused { IfErr result (IsInnerCause g.now level from key.now (C.facts cache.old)) }
    ensures kept { IsKept (C.facts cache.old) (C.facts cache.new) }
    ensures faults { RisesWith result (C.facts cache.old).faults (C.facts cache.new).faults }
{
    let Some(bucket) = bucket_of(g, key) else {
        return Err(OpenError::PointerRange { word: 0 });
    };
    match Inner::load(alloc, cache, g, key, level, from) {
        Ok(inner) => Ok(inner),
        Err(why) => Err(open_node(bucket, why)),
    }
}

/// Adds a node behind others.
fn push_node(nodes: &mut Vec<Inner>, node: Inner) -> Result<(), AllocError>
    ensures { OnOk result (nodes.new.items ≡ nodes.old.items ++ node ∷ []) }
{
    nodes.push(node)?;
    Ok(())
}

/// The nodes of level 1 that are the children of a root of level 2.
fn nodes_below<C: Disk>(
    alloc: Global,
    cache: &mut C,
    g: &Geometry,
    root: &Inner,
) -> Result<Vec<Inner>, OpenError>
    requires room { g.now.bucket * g.now.nbuckets ≤ (C.facts cache.old).sectors }
    ensures found { IfOk result (λ nodes. AreHeldBelow g.now (C.facts cache.old) root.now.from
        root.now.children nodes.items) }
    ensures refused { IfErr result
        (IsBelowCause g.now root.now.from root.now.children (C.facts cache.old)) }
    ensures kept { IsKept (C.facts cache.old) (C.facts cache.new) }
    ensures faults { RisesWith result (C.facts cache.old).faults (C.facts cache.new).faults }
{
    let mut nodes = Vec::new(alloc);
    let mut from = root.from();
    for key in root.children() {
        let node = load_inner(alloc, cache, g, 1, from, key)?;
        push_node(&mut nodes, node)?;
        from = key.end;
    }
    Ok(nodes)
}

/// The nodes between a root of level 1 or 2 and the leaves: none, or the root's children.
pub fn below_root<C: Disk>(
    alloc: Global,
    cache: &mut C,
    g: &Geometry,
    root: &Inner,
) -> Result<Vec<Inner>, OpenError>
    requires room { g.now.bucket * g.now.nbuckets ≤ (C.facts cache.old).sectors }
    ensures found { IfOk result (λ nodes. AreUnder g.now (C.facts cache.old) root.now nodes.items) }
    ensures refused { IfErr result (λ e. (root.now.level ≢ 1)
        × IsBelowCause g.now root.now.from root.now.children (C.facts cache.old) e) }
    ensures kept { IsKept (C.facts cache.old) (C.facts cache.new) }
    ensures faults { RisesWith result (C.facts cache.old).faults (C.facts cache.new).faults }
{
    if root.level() == 1 {
        return Ok(Vec::new(alloc));
    }
    nodes_below(alloc, cache, g, root)
}
