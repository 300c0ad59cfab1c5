//! Further sets of the nodes of a tree.
ghost use Rattle.std.specs.Prelude.{◌≡◌, ◌*◌, Some, length, slice_get};
ghost use Rattle.bc_inner.specs.Inner.{Inner};
ghost use Rattle.bc_tree.specs.Append.{CanAppend, HasBelowMore, HasMoreIf, HasRootMore, IsSetWrite};

use crate::spine::Spine;
use bc_disk::disk::{Disk, Failed};
use bc_disk::geometry::Geometry;
use bc_inner::Inner;
use bc_key::Key;

/// Writes a further set of a node, whose children in memory stay.
fn append<D: Disk>(
    node: &mut Inner,
    disk: &mut D,
    g: &Geometry,
    keys: &[Key],
    buffer: &mut [u8],
) -> Result<(), Failed>
    requires can { CanAppend g.now (D.facts disk.old).sectors node.old keys.now }
    requires whole { length buffer.old ≡ 512 * g.now.node_sectors }
    ensures set { IsSetWrite g.now node.old keys.now buffer.new (D.facts disk.old)
        (D.facts disk.new) result }
    ensures taken { HasMoreIf result g.now keys.now node.old node.new }
{
    node.append(disk, g, keys, buffer)
}

impl Spine {
    /// Writes a further set of the root, behind its others. The children in memory stay as they are
    /// until a plan is installed. After `Failed` the tree is as it was, and the device may have any
    /// of the sectors of the set, which a reader then finds whole or not at all. The buffer begins
    /// with what was written. Takes no memory.
    pub fn append_root<D: Disk>(
        &mut self,
        disk: &mut D,
        keys: &[Key],
        buffer: &mut [u8],
    ) -> Result<(), Failed>
        requires can { CanAppend self.old.geometry (D.facts disk.old).sectors self.old.root
            keys.now }
        requires whole { length buffer.old ≡ 512 * self.old.geometry.node_sectors }
        ensures set { IsSetWrite self.old.geometry self.old.root keys.now buffer.new
            (D.facts disk.old) (D.facts disk.new) result }
        ensures tree { HasRootMore result keys.now self.old self.new }
    {
        let g = self.g;
        append(&mut self.root, disk, &g, keys, buffer)
    }

    /// Writes a further set of the node at a place below the root, as `append_root` does of the
    /// root.
    pub fn append_below<D: Disk>(
        &mut self,
        place: usize,
        disk: &mut D,
        keys: &[Key],
        buffer: &mut [u8],
    ) -> Result<(), Failed>
        requires can { (node : Inner) × (slice_get self.old.below place ≡ Some node)
            × CanAppend self.old.geometry (D.facts disk.old).sectors node keys.now }
        requires whole { length buffer.old ≡ 512 * self.old.geometry.node_sectors }
        ensures set { (node : Inner) × (slice_get self.old.below place ≡ Some node)
            × IsSetWrite self.old.geometry node keys.now buffer.new (D.facts disk.old)
            (D.facts disk.new) result }
        ensures tree { HasBelowMore result place keys.now self.old self.new }
    {
        let g = self.g;
        append(&mut self.below[place], disk, &g, keys, buffer)
    }
}
