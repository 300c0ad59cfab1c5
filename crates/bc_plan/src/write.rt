//! The new nodes of a plan, written.
ghost use Rattle.std.specs.Prelude.{◌≡◌, ◌*◌, ◌≤◌, Some, length, OnErr, OnOk};
ghost use Rattle.bc_inner.specs.Inner.{HasTaken, Inner, children_set};
ghost use Rattle.bc_node.specs.Leaf.{IsAppended, Leaf};
ghost use Rattle.bc_set.specs.Records.{set_sectors};
ghost use Rattle.bc_set.specs.SetBytes.{bytes_of};
ghost use Rattle.bc_tree.specs.Plan.{Fits};
ghost use Rattle.bc_tree.specs.Spine.{Spine};
ghost use Rattle.bc_plan.specs.Write.{CanWrite, FirstSet, HasFirstSet, HasMoved, HasNodeWritten, IsFirstWrite, IsUnwritten, IsUnwrittenInner, behind_of, inner_set, leaf_set, lowest_of, with_behind, with_lowest};
ghost use Rattle.bc_tree.specs.declared.change.NodeChange.{NodeChange};
ghost use Rattle.bc_tree.specs.declared.change.NodeChange.TheVariants as changes;

use bc_disk::disk::{Disk, Failed};
use bc_disk::geometry::Geometry;
use bc_inner::Inner;
use bc_node::Leaf;
use bc_tree::{Beside, NodeChange, Plan};

/// A new node that a plan brings.
#[derive(Clone, Copy, Debug, PartialEq, Eq)]
pub enum NewNode {
    /// The leaf that comes, or the one of the lower sectors.
    First,
    /// The leaf of the higher sectors, where two come.
    Second,
    /// The node above them, where it moves.
    Parent,
    /// The root, where it is another node and moves.
    Root,
    /// The node behind the one that moves, where it is new: it comes, or moves too.
    Behind,
    /// The node of the lower sectors, where two come below a new root.
    Lowest,
}

/// Writes the first set of a leaf that comes.
fn write_leaf<D: Disk>(
    leaf: &mut Leaf,
    disk: &mut D,
    g: &Geometry,
    buffer: &mut [u8],
) -> Result<(), Failed>
    requires unwritten { IsUnwritten g.now (D.facts disk.old).sectors leaf.old }
    requires whole { length buffer.old ≡ 512 * g.now.node_sectors }
    ensures node { IsFirstWrite g.now (leaf_set leaf.old) buffer.new (D.facts disk.old)
        (D.facts disk.new) result }
    ensures written { OnOk result (IsAppended g.now leaf.old leaf.new) }
    ensures kept { OnErr result (leaf.new ≡ leaf.old) }
{
    leaf.append(disk, g, buffer)
}

/// Writes the first set of a node that moves.
fn write_inner<D: Disk>(
    node: &mut Inner,
    disk: &mut D,
    g: &Geometry,
    buffer: &mut [u8],
) -> Result<(), Failed>
    requires unwritten { IsUnwrittenInner g.now (D.facts disk.old).sectors node.old }
    requires fits { bytes_of (children_set node.old) ≤ 512 * g.now.node_sectors }
    requires whole { length buffer.old ≡ 512 * g.now.node_sectors }
    ensures node { IsFirstWrite g.now (inner_set node.old) buffer.new (D.facts disk.old)
        (D.facts disk.new) result }
    ensures written { OnOk result
        (HasTaken (set_sectors g.now (children_set node.old)) node.old node.new) }
    ensures kept { OnErr result (node.new ≡ node.old) }
{
    node.write(disk, g, buffer)
}

/// Writes the first set of the leaf of the higher sectors.
fn write_second<D: Disk>(
    second: &mut Option<Leaf>,
    disk: &mut D,
    g: &Geometry,
    buffer: &mut [u8],
) -> Result<(), Failed>
    requires unwritten { (leaf : Leaf) × (second.old ≡ Some leaf)
        × IsUnwritten g.now (D.facts disk.old).sectors leaf }
    requires whole { length buffer.old ≡ 512 * g.now.node_sectors }
    ensures node { (leaf : Leaf) × (second.old ≡ Some leaf) × IsFirstWrite g.now (leaf_set leaf)
        buffer.new (D.facts disk.old) (D.facts disk.new) result }
    ensures written { OnOk result ((a : Leaf) × (b : Leaf) × (second.old ≡ Some a)
        × (second.new ≡ Some b) × IsAppended g.now a b) }
    ensures kept { OnErr result (second.new ≡ second.old) }
{
    match second {
        Some(leaf) => write_leaf(leaf, disk, g, buffer),
        None => Ok(()),
    }
}

/// Writes the first set of the node that a change brings.
fn write_moved<D: Disk>(
    change: &mut NodeChange,
    disk: &mut D,
    g: &Geometry,
    buffer: &mut [u8],
) -> Result<(), Failed>
    requires unwritten { (node : Inner) × (change.old ≡ changes.Move node)
        × IsUnwrittenInner g.now (D.facts disk.old).sectors node
        × (bytes_of (children_set node) ≤ 512 * g.now.node_sectors) }
    requires whole { length buffer.old ≡ 512 * g.now.node_sectors }
    ensures node { (node : Inner) × (change.old ≡ changes.Move node) × IsFirstWrite g.now
        (inner_set node) buffer.new (D.facts disk.old) (D.facts disk.new) result }
    ensures written { OnOk result (HasMoved g.now change.old change.new) }
    ensures kept { OnErr result (change.new ≡ change.old) }
{
    match change {
        NodeChange::Move(node) => write_inner(node, disk, g, buffer),
        NodeChange::Set(_) => Ok(()),
    }
}

/// Writes the first set of the root that a change brings.
fn write_root<D: Disk>(
    top: &mut Option<NodeChange>,
    disk: &mut D,
    g: &Geometry,
    buffer: &mut [u8],
) -> Result<(), Failed>
    requires unwritten { (node : Inner) × (top.old ≡ Some (changes.Move node))
        × IsUnwrittenInner g.now (D.facts disk.old).sectors node
        × (bytes_of (children_set node) ≤ 512 * g.now.node_sectors) }
    requires whole { length buffer.old ≡ 512 * g.now.node_sectors }
    ensures node { (node : Inner) × (top.old ≡ Some (changes.Move node)) × IsFirstWrite g.now
        (inner_set node) buffer.new (D.facts disk.old) (D.facts disk.new) result }
    ensures written { OnOk result ((a : NodeChange) × (b : NodeChange) × (top.old ≡ Some a)
        × (top.new ≡ Some b) × HasMoved g.now a b) }
    ensures kept { OnErr result (top.new ≡ top.old) }
{
    match top {
        Some(change) => write_moved(change, disk, g, buffer),
        None => Ok(()),
    }
}

/// Writes the first set of the node that comes behind another.
fn write_behind<D: Disk>(
    beside: &mut Beside,
    disk: &mut D,
    g: &Geometry,
    buffer: &mut [u8],
) -> Result<(), Failed>
    requires unwritten { (node : Inner) × (behind_of beside.old ≡ Some node)
        × IsUnwrittenInner g.now (D.facts disk.old).sectors node
        × (bytes_of (children_set node) ≤ 512 * g.now.node_sectors) }
    requires whole { length buffer.old ≡ 512 * g.now.node_sectors }
    ensures node { (node : Inner) × (behind_of beside.old ≡ Some node) × IsFirstWrite g.now
        (inner_set node) buffer.new (D.facts disk.old) (D.facts disk.new) result }
    ensures written { OnOk result ((a : Inner) × (b : Inner) × (behind_of beside.old ≡ Some a)
        × (beside.new ≡ with_behind beside.old b)
        × HasTaken (set_sectors g.now (children_set a)) a b) }
    ensures kept { OnErr result (beside.new ≡ beside.old) }
{
    match beside {
        Beside::Comes(node) => write_inner(node, disk, g, buffer),
        Beside::Moves(node) => write_inner(node, disk, g, buffer),
        Beside::Under(_, node) => write_inner(node, disk, g, buffer),
        Beside::Stays => Ok(()),
        Beside::Goes => Ok(()),
    }
}

/// Writes the first set of the lower one of two nodes that come below a new root.
fn write_lowest<D: Disk>(
    beside: &mut Beside,
    disk: &mut D,
    g: &Geometry,
    buffer: &mut [u8],
) -> Result<(), Failed>
    requires unwritten { (node : Inner) × (lowest_of beside.old ≡ Some node)
        × IsUnwrittenInner g.now (D.facts disk.old).sectors node
        × (bytes_of (children_set node) ≤ 512 * g.now.node_sectors) }
    requires whole { length buffer.old ≡ 512 * g.now.node_sectors }
    ensures node { (node : Inner) × (lowest_of beside.old ≡ Some node) × IsFirstWrite g.now
        (inner_set node) buffer.new (D.facts disk.old) (D.facts disk.new) result }
    ensures written { OnOk result ((a : Inner) × (b : Inner) × (lowest_of beside.old ≡ Some a)
        × (beside.new ≡ with_lowest beside.old b)
        × HasTaken (set_sectors g.now (children_set a)) a b) }
    ensures kept { OnErr result (beside.new ≡ beside.old) }
{
    if let Beside::Under(node, _) = beside {
        return write_inner(node, disk, g, buffer);
    }
    Ok(())
}

/// Writes a new node of a plan: its first set, with zeros over the rest of the node. After `Failed`
/// the plan is as it was. The buffer has what was written. Takes no memory.
pub fn write_node<D: Disk>(
    plan: &mut Plan,
    node: NewNode,
    disk: &mut D,
    g: &Geometry,
    buffer: &mut [u8],
) -> Result<(), Failed>
    requires fits { (spine : Spine) × (spine.geometry ≡ g.now) × Fits spine plan.old }
    requires node { CanWrite g.now (D.facts disk.old).sectors plan.old node }
    requires whole { length buffer.old ≡ 512 * g.now.node_sectors }
    ensures node { (first : FirstSet) × HasFirstSet plan.old node first
        × IsFirstWrite g.now first buffer.new (D.facts disk.old) (D.facts disk.new) result }
    ensures written { OnOk result (HasNodeWritten g.now node plan.old plan.new) }
    ensures kept { OnErr result (plan.new ≡ plan.old) }
    ensures fits { (spine : Spine) → Fits spine plan.old → Fits spine plan.new }
{
    match node {
        NewNode::First => write_leaf(&mut plan.first, disk, g, buffer),
        NewNode::Second => write_second(&mut plan.second, disk, g, buffer),
        NewNode::Parent => write_moved(&mut plan.bottom, disk, g, buffer),
        NewNode::Root => write_root(&mut plan.top, disk, g, buffer),
        NewNode::Behind => write_behind(&mut plan.beside, disk, g, buffer),
        NewNode::Lowest => write_lowest(&mut plan.beside, disk, g, buffer),
    }
}
