//! The nodes of a new pair.
ghost use Rattle.std.specs.Prelude.{◌≡◌, ◌*◌, ◌<◌, ◌≤◌, [], length};
ghost use Rattle.bc_image.specs.Formatted.{leaf_bucket, root_bucket};
ghost use Rattle.bc_keys.specs.Spelling.{words_of_all};
ghost use Rattle.bc_set.specs.declared.set.SetKind.{SetKind};
ghost use Rattle.bc_set.specs.SetBytes.{AreSetKeys};
ghost use Rattle.bc_pair.specs.Records.{AreNodes, IsFirstSet, IsNodeAt, IsNodeSector, IsRecordSector, IsRoot};
ghost use Rattle.bc_pair.specs.Steps.{HasRoom, NamesBuckets, Wrote};

use crate::records::Records;
use bc_disk::disk::{Disk, Failed};
use bc_disk::geometry::Geometry;
use bc_set::{Set, write_set};
use bc_super::layout::Layout;

// Writes a node's first set into a buffer of its length, with zeros behind it, and then into its
// bucket.
fn write_node<C: Disk>(
    cache: &mut C,
    g: &Geometry,
    bucket: u32,
    set: &Set,
    node: &mut [u8],
) -> Result<(), Failed>
    requires room { g.now.bucket * g.now.nbuckets ≤ (C.facts cache.old).sectors }
    requires bucket { bucket < g.now.nbuckets }
    requires whole { length node.old ≡ 512 * g.now.node_sectors }
    requires small { length (words_of_all set.now.keys) ≤ 8 }
    requires version { set.now.version ≡ 1 }
    requires keys { (kind : SetKind) × AreSetKeys kind set.now.keys }
    ensures { (kind : SetKind) → AreSetKeys kind set.now.keys → Wrote (IsNodeSector g.now bucket) 1 (IsNodeAt g.now bucket kind set.now) result (C.facts cache.old) (C.facts cache.new) }
{
    node.fill(0);
    let at = u64::from(g.bucket) * u64::from(bucket);
    write_set(set, 256 * at, g.set_magic, node);
    cache.write(at, node)
}

/// Writes the root and then the leaf. The buffer has a bucket's length; what it holds afterwards isn't
/// said.
pub(crate) fn write_nodes<C: Disk>(
    cache: &mut C,
    g: &Geometry,
    l: &Layout,
    r: &Records,
    buffer: &mut [u8],
) -> Result<(), Failed>
    requires names { NamesBuckets l.now g.now }
    requires room { HasRoom g.now (C.facts cache.old).sectors }
    requires root { IsRoot g.now r.now.root }
    requires leaf { IsFirstSet 65536 [] r.now.leaf }
    requires whole { length buffer.old ≡ 512 * g.now.bucket }
    ensures { Wrote (IsRecordSector g.now) 2 (AreNodes g.now r.now) result (C.facts cache.old) (C.facts cache.new) }
{
    let node = &mut buffer[..512 * usize::from(g.node_sectors)];
    write_node(cache, g, l.root, &r.root, node)?;
    write_node(cache, g, l.leaf, &r.leaf, node)
}
