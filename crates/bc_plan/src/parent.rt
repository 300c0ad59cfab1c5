//! The set by which a planned change is made, written.
ghost use Rattle.std.specs.Prelude.{◌≡◌, ◌*◌, List, Some, length, slice_get, OnErr};
ghost use Rattle.bc_inner.specs.Inner.{Inner};
ghost use Rattle.bc_key.specs.declared.key.Key.{Key};
ghost use Rattle.bc_plan.specs.Parent.{HasMoreIn, TakesSet};
ghost use Rattle.bc_tree.specs.Append.{CanAppend, IsSetWrite};
ghost use Rattle.bc_tree.specs.Plan.{Fits};
ghost use Rattle.bc_tree.specs.Spine.{bottom};
ghost use Rattle.bc_tree.specs.declared.change.NodeChange.TheVariants as changes;
ghost use Rattle.bc_tree.specs.declared.plan.Plan.{Plan};

use bc_disk::disk::{Disk, Failed};
use bc_key::Key;
use bc_tree::{NodeChange, Plan, Spine};

/// Writes a further set of the node at a place above leaves.
fn append_at<D: Disk>(
    spine: &mut Spine,
    place: usize,
    disk: &mut D,
    keys: &[Key],
    buffer: &mut [u8],
) -> Result<(), Failed>
    requires can { (node : Inner)
        × (slice_get (bottom spine.old.root spine.old.below) place ≡ Some node)
        × CanAppend spine.old.geometry (D.facts disk.old).sectors node keys.now }
    requires whole { length buffer.old ≡ 512 * spine.old.geometry.node_sectors }
    ensures set { (node : Inner)
        × (slice_get (bottom spine.old.root spine.old.below) place ≡ Some node)
        × IsSetWrite spine.old.geometry node keys.now buffer.new (D.facts disk.old)
        (D.facts disk.new) result }
    ensures more { (node : Inner)
        × (slice_get (bottom spine.old.root spine.old.below) place ≡ Some node)
        × HasMoreIn result node keys.now spine.old spine.new }
    ensures kept { OnErr result (spine.new ≡ spine.old) }
    ensures fits { (plan : Plan) → Fits spine.old plan → Fits spine.new plan }
{
    if spine.below().is_empty() {
        return spine.append_root(disk, keys, buffer);
    }
    spine.append_below(place, disk, keys, buffer)
}

/// Writes the set that a change puts behind the others of the root.
fn append_top<D: Disk>(
    spine: &mut Spine,
    change: &NodeChange,
    disk: &mut D,
    buffer: &mut [u8],
) -> Result<(), Failed>
    requires can { (keys : List Key) × (change.now ≡ changes.Set keys)
        × CanAppend spine.old.geometry (D.facts disk.old).sectors spine.old.root keys }
    requires whole { length buffer.old ≡ 512 * spine.old.geometry.node_sectors }
    ensures set { (keys : List Key) × (change.now ≡ changes.Set keys)
        × IsSetWrite spine.old.geometry spine.old.root keys buffer.new (D.facts disk.old)
        (D.facts disk.new) result }
    ensures more { (keys : List Key) × (change.now ≡ changes.Set keys)
        × HasMoreIn result spine.old.root keys spine.old spine.new }
    ensures kept { OnErr result (spine.new ≡ spine.old) }
    ensures fits { (plan : Plan) → Fits spine.old plan → Fits spine.new plan }
{
    match change {
        NodeChange::Set(keys) => spine.append_root(disk, keys.as_slice(), buffer),
        NodeChange::Move(_) => Ok(()),
    }
}

/// Writes the set by which a planned change is made: that of the node above its leaves, or of the
/// root where this node moves. The new nodes stand on the device by then. The tree in memory stays
/// as it is until `install`, for which the plan still fits. After `Failed` the tree is as it was,
/// and the device may have any of the sectors of the set, which a reader then finds whole or not at
/// all. The buffer begins with what was written. Takes no memory.
pub fn write_parent<D: Disk>(
    spine: &mut Spine,
    plan: &Plan,
    disk: &mut D,
    buffer: &mut [u8],
) -> Result<(), Failed>
    requires set { (node : Inner) × (keys : List Key) × TakesSet spine.old plan.now node keys
        × CanAppend spine.old.geometry (D.facts disk.old).sectors node keys }
    requires whole { length buffer.old ≡ 512 * spine.old.geometry.node_sectors }
    ensures set { (node : Inner) × (keys : List Key) × TakesSet spine.old plan.now node keys
        × IsSetWrite spine.old.geometry node keys buffer.new (D.facts disk.old)
        (D.facts disk.new) result }
    ensures more { (node : Inner) × (keys : List Key) × TakesSet spine.old plan.now node keys
        × HasMoreIn result node keys spine.old spine.new }
    ensures kept { OnErr result (spine.new ≡ spine.old) }
    ensures fits { (plan : Plan) → Fits spine.old plan → Fits spine.new plan }
{
    match &plan.bottom {
        NodeChange::Set(keys) => append_at(spine, plan.place, disk, keys.as_slice(), buffer),
        NodeChange::Move(_) => match &plan.top {
            Some(change) => append_top(spine, change, disk, buffer),
            None => Ok(()),
        },
    }
}
