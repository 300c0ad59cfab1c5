//! The one call of the device by which a set goes behind the others of a leaf.
ghost use Rattle.std.specs.Prelude.{◌≡◌, ◌*◌, ◌+◌, ◌≤◌, ℕ, false, true, Some, length, slice_get, OnErr, OnOk};
ghost use Rattle.bc_append.specs.Append.{BeginWithSet, FitsOn, IsBehind, IsSent, place_in, values_in};
ghost use Rattle.bc_cache.specs.declared.slots.Cached.{Cached};
ghost use Rattle.bc_disk.specs.Disk.{IsCounted, IsFailedWrite, IsWritten};
ghost use Rattle.bc_node.specs.Leaf.{IsFull, pending_set};
ghost use Rattle.bc_node.specs.Writing.{put_sectors};

use bc_cache::NodeCache;
use bc_disk::disk::{Disk, Failed};
use bc_disk::geometry::Geometry;
use bc_node::{Leaf, in_blocks};

/// Writes the set of what is pending behind the leaf's other sets, or closes the leaf where that
/// fails.
fn append_or_close<D: Disk>(
    leaf: &mut Leaf,
    disk: &mut D,
    g: &Geometry,
    buffer: &mut [u8],
) -> Result<(), Failed>
    requires fresh { leaf.old.loaded ≡ false }
    requires fits { FitsOn g.now leaf.old (D.facts disk.old).sectors }
    requires whole { length buffer.old ≡ 512 * g.now.node_sectors }
    ensures set { BeginWithSet g.now leaf.old buffer.new }
    ensures good { OnOk result (IsWritten (place_in leaf.old) (values_in g.now leaf.old buffer.new)
        (D.facts disk.old) (D.facts disk.new)) }
    ensures failed { OnErr result (IsFailedWrite (place_in leaf.old)
        (values_in g.now leaf.old buffer.new) (D.facts disk.old) (D.facts disk.new)) }
    ensures counted { IsCounted result (D.facts disk.old) (D.facts disk.new) }
    ensures behind { IsBehind g.now result leaf.old leaf.new }
{
    let done = leaf.append(disk, g, buffer);
    if done.is_err() {
        leaf.close();
    }
    done
}

/// The same, of the leaf in a slot.
pub(crate) fn write_set<D: Disk>(
    cache: &mut NodeCache,
    slot: u32,
    disk: &mut D,
    buffer: &mut [u8],
) -> Result<(), Failed>
    requires leaf { (cached : Cached) × (slice_get cache.old.slots slot ≡ Some (Some cached))
        × (cached.leaf.loaded ≡ false)
        × FitsOn cache.old.geometry cached.leaf (D.facts disk.old).sectors }
    requires whole { length buffer.old ≡ 512 * cache.old.geometry.node_sectors }
    ensures { (cached : Cached) → slice_get cache.old.slots slot ≡ Some (Some cached)
        → IsSent slot cached result buffer.new (D.facts disk.old) (D.facts disk.new) cache.old
        cache.new }
{
    let g = *cache.geometry();
    append_or_close(cache.node(slot), disk, &g, buffer)
}

/// How many sectors are written for the set: those of the set, or of the whole node where it is the
/// first one.
pub(crate) fn written_sectors(g: &Geometry, leaf: &Leaf) -> usize
    requires { ¬ (IsFull g.now leaf.now) }
    ensures count { result ≡ put_sectors g.now leaf.now.taken (pending_set leaf.now) }
    ensures within { result ≤ g.now.node_sectors }
{
    if leaf.taken() == 0 {
        usize::from(g.node_sectors)
    } else {
        in_blocks(g.block, leaf.pending_length())
    }
}
