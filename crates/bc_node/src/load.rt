//! Reads a node's sets from a device.
ghost use Rattle.std.specs.Prelude.{◌≡◌, ◌+◌, ◌*◌, ◌≤◌, length, IfOk, IfErr, OnOk};
ghost use Rattle.bc_disk.specs.Disk.{IsKept, IsCounted};
ghost use Rattle.bc_key.specs.Words.{ptr_word};
ghost use Rattle.bc_node.specs.Sets.{AreProper, taken_by};
ghost use Rattle.bc_node.specs.Loading.{AreHeldSets, IsUnread, good};

use crate::error::NodeError;
use crate::read::read_sets;
use bc_disk::disk::Disk;
use bc_disk::geometry::Geometry;
use bc_key::Ptr;
use bc_set::{Set, SetKind};
use std::alloc::Global;

/// The word of a pointer, from which the checksums of a node's sets start.
pub fn word_of(ptr: &Ptr) -> u64
    ensures { result ≡ ptr_word ptr.now }
{
    u64::from(ptr.dev) * (1 << 51) + ptr.offset * (1 << 8) + u64::from(ptr.generation)
}

/// Reads a node's bytes, and the sets in them.
fn read_node<D: Disk>(
    alloc: Global,
    disk: &mut D,
    g: &Geometry,
    at: u64,
    word: u64,
    kind: SetKind,
    bytes: &mut [u8],
) -> Result<Vec<Set>, NodeError>
    requires room { at + g.now.node_sectors ≤ (D.facts disk.old).sectors }
    requires whole { length bytes.old ≡ 512 * g.now.node_sectors }
    ensures found { IfOk result
        (λ sets. AreHeldSets g.now word kind at (D.facts disk.old) sets.items) }
    ensures proper { IfOk result (λ sets. AreProper kind sets.items) }
    ensures short { IfOk result (λ sets. taken_by g.now sets.items ≤ g.now.node_sectors) }
    ensures refused { IfErr result
        (IsUnread g.now word kind at (D.facts disk.old) (D.facts disk.new)) }
    ensures read { OnOk result (IsCounted good (D.facts disk.old) (D.facts disk.new)) }
    ensures kept { IsKept (D.facts disk.old) (D.facts disk.new) }
{
    disk.read(at, bytes)?;
    read_sets(alloc, g, word, kind, bytes)
}

/// Reads the sets of the node that begins at a sector, oldest first, in one read of the whole node.
/// What the device holds stays as it was.
///
/// `word` is the word of the pointer to the node, from which the checksums start.
pub fn load_sets<D: Disk>(
    alloc: Global,
    disk: &mut D,
    g: &Geometry,
    at: u64,
    word: u64,
    kind: SetKind,
) -> Result<Vec<Set>, NodeError>
    requires { at + g.now.node_sectors ≤ (D.facts disk.old).sectors }
    ensures found { IfOk result
        (λ sets. AreHeldSets g.now word kind at (D.facts disk.old) sets.items) }
    ensures proper { IfOk result (λ sets. AreProper kind sets.items) }
    ensures short { IfOk result (λ sets. taken_by g.now sets.items ≤ g.now.node_sectors) }
    ensures refused { IfErr result
        (IsUnread g.now word kind at (D.facts disk.old) (D.facts disk.new)) }
    ensures read { OnOk result (IsCounted good (D.facts disk.old) (D.facts disk.new)) }
    ensures kept { IsKept (D.facts disk.old) (D.facts disk.new) }
{
    let mut bytes = vec![in alloc; 0u8; 512 * g.node_sectors as usize]?;
    read_node(alloc, disk, g, at, word, kind, &mut bytes)
}
