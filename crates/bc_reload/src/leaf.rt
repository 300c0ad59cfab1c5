//! A leaf is read again.
ghost use Rattle.std.specs.Prelude.{◌≡◌, ◌+◌, ◌≤◌, All, IfErr, IfOk, OnOk};
ghost use Rattle.bc_disk.specs.Disk.{IsCounted, IsKept};
ghost use Rattle.bc_node.specs.Loading.{good};
ghost use Rattle.bc_reload.specs.Added.{FitsLeaf, HasAdded};
ghost use Rattle.bc_reload.specs.Reload.{FitsRange, IsNotReloaded, IsReloaded, NamesLeaf};

use crate::add::add_keys;
use bc_disk::disk::Disk;
use bc_disk::geometry::Geometry;
use bc_key::Key;
use bc_node::{Leaf, NodeError};
use bc_pending::Numbered;
use bc_spine::LeafRange;
use std::alloc::Global;

/// A key by which the leaf of a range is found: it has one pointer, and the size of a node.
pub fn key_of(g: &Geometry, range: &LeafRange) -> Key
    ensures names { NamesLeaf range.now result }
    ensures size { result.size ≡ g.now.node_sectors }
    ensures count { result.count ≡ 1 }
{
    Key::new(range.end, g.node_sectors, false, Some(range.ptr))
}

/// The leaf with keys of its range.
fn with_keys(leaf: Leaf, keys: &[Numbered]) -> Result<Leaf, NodeError>
    requires { All (FitsLeaf leaf) keys.now }
    ensures added { IfOk result (HasAdded keys.now leaf) }
    ensures memory { IfErr result (λ e. e ≡ NodeError.Memory) }
{
    let mut leaf = leaf;
    match add_keys(&mut leaf, keys) {
        Ok(()) => Ok(leaf),
        Err(_) => Err(NodeError::Memory),
    }
}

/// Reads the leaf of a range in one read of the whole node, and adds keys of its range to it, the
/// oldest first, with the entries that hold them. What the device holds stays as it was.
///
/// The refusals are those of `Leaf::load`.
pub fn reload<D: Disk>(
    alloc: Global,
    disk: &mut D,
    g: &Geometry,
    range: &LeafRange,
    keys: &[Numbered],
) -> Result<Leaf, NodeError>
    requires room { range.now.ptr.offset + g.now.node_sectors ≤ (D.facts disk.old).sectors }
    requires fit { All (FitsRange range.now) keys.now }
    ensures found { IfOk result (IsReloaded g.now range.now keys.now (D.facts disk.old)) }
    ensures refused { IfErr result
        (IsNotReloaded g.now range.now (D.facts disk.old) (D.facts disk.new)) }
    ensures read { OnOk result (IsCounted good (D.facts disk.old) (D.facts disk.new)) }
    ensures kept { IsKept (D.facts disk.old) (D.facts disk.new) }
{
    let key = key_of(g, range);
    let leaf = match Leaf::load(alloc, disk, g, &key, range.from) {
        Ok(leaf) => leaf,
        Err(why) => return Err(why),
    };
    with_keys(leaf, keys)
}
