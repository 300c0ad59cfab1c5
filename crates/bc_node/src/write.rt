//! Writes the sets of a node.
ghost use Rattle.std.specs.Prelude.{◌≡◌, ◌+◌, ◌*◌, ◌≤◌, length, OnOk, OnErr};
ghost use Rattle.bc_disk.specs.Disk.{IsWritten, IsFailedWrite, IsCounted};
ghost use Rattle.bc_set.specs.declared.set.Set.{Set};
ghost use Rattle.bc_set.specs.Records.{set_sectors};
ghost use Rattle.bc_set.specs.SetBytes.{bytes_of};
ghost use Rattle.bc_node.specs.Writing.{HasSet, put_sectors, put_values, set_of};

use crate::keys::put_keys;
use crate::read::in_blocks;
use bc_disk::disk::{Disk, Failed};
use bc_disk::geometry::Geometry;
use bc_extent::Extents;
use bc_key::Key;
use bc_keys::write_keys;
use bc_set::write_header;

/// Fills a node's bytes with the set of a map's keys at their front and zeros behind it. Says how
/// many bytes the set takes in whole blocks.
fn fill_map(g: &Geometry, word: u64, seq: u64, keys: &Extents, bytes: &mut [u8]) -> usize
    requires whole { length bytes.old ≡ 512 * g.now.node_sectors }
    requires fits { bytes_of (set_of seq keys.now.keys) ≤ 512 * g.now.node_sectors }
    ensures set { HasSet g.now word (set_of seq keys.now.keys) bytes.new }
    ensures size { result ≡ 512 * set_sectors g.now (set_of seq keys.now.keys) }
    ensures within { result ≤ 512 * g.now.node_sectors }
{
    bytes.fill(0);
    let count = put_keys(keys, bytes, 32);
    let end = write_header(seq, count, word, g.set_magic, bytes);
    512 * in_blocks(g.block, end)
}

/// Fills a node's bytes with the set of these keys at their front and zeros behind it. Says how many
/// bytes the set takes in whole blocks.
fn fill_slice(g: &Geometry, word: u64, seq: u64, keys: &[Key], buffer: &mut [u8]) -> usize
    requires whole { length buffer.old ≡ 512 * g.now.node_sectors }
    requires fits { bytes_of (set_of seq keys.now) ≤ 512 * g.now.node_sectors }
    ensures set { HasSet g.now word (set_of seq keys.now) buffer.new }
    ensures size { result ≡ 512 * set_sectors g.now (set_of seq keys.now) }
    ensures within { result ≤ 512 * g.now.node_sectors }
{
    buffer.fill(0);
    let count = write_keys(keys, buffer, 32);
    let end = write_header(seq, count, word, g.set_magic, buffer);
    512 * in_blocks(g.block, end)
}

/// How many bytes of a node are written for a set that takes so many in whole blocks, behind others
/// that take so many sectors: for the first one the whole node.
fn put_length(g: &Geometry, taken: u16, size: usize) -> usize
    requires { size ≤ 512 * g.now.node_sectors }
    ensures is { (s : Set) → size ≡ 512 * set_sectors g.now s
        → result ≡ 512 * put_sectors g.now taken s }
    ensures within { result ≤ 512 * g.now.node_sectors }
{
    if taken == 0 {
        512 * usize::from(g.node_sectors)
    } else {
        size
    }
}

/// Writes the set of a map's keys from a sector on, behind others of a node that take so many sectors.
/// The first one of a node is written with zeros over the rest of it. Takes no memory.
pub(crate) fn write_map<D: Disk>(
    disk: &mut D,
    g: &Geometry,
    at: u64,
    taken: u16,
    word: u64,
    seq: u64,
    keys: &Extents,
    buffer: &mut [u8],
) -> Result<(), Failed>
    requires room { at + put_sectors g.now taken (set_of seq keys.now.keys)
        ≤ (D.facts disk.old).sectors }
    requires whole { length buffer.old ≡ 512 * g.now.node_sectors }
    requires fits { bytes_of (set_of seq keys.now.keys) ≤ 512 * g.now.node_sectors }
    ensures bytes { HasSet g.now word (set_of seq keys.now.keys) buffer.new }
    ensures ok { OnOk result (IsWritten at
        (put_values g.now taken (set_of seq keys.now.keys) buffer.new)
        (D.facts disk.old) (D.facts disk.new)) }
    ensures failed { OnErr result (IsFailedWrite at
        (put_values g.now taken (set_of seq keys.now.keys) buffer.new)
        (D.facts disk.old) (D.facts disk.new)) }
    ensures counted { IsCounted result (D.facts disk.old) (D.facts disk.new) }
{
    let size = fill_map(g, word, seq, keys, buffer);
    let length = put_length(g, taken, size);
    disk.write(at, &buffer[..length])
}

/// Writes the set of these keys from a sector on, behind others of a node that take so many sectors.
/// The first one of a node is written with zeros over the rest of it, so that no set of an
/// earlier use of its bucket can follow. The buffer begins with what was written. Takes no memory.
///
/// `word` is the word of the pointer to the node, from which the checksums start.
pub fn write_slice<D: Disk>(
    disk: &mut D,
    g: &Geometry,
    at: u64,
    taken: u16,
    word: u64,
    seq: u64,
    keys: &[Key],
    buffer: &mut [u8],
) -> Result<(), Failed>
    requires room { at + put_sectors g.now taken (set_of seq keys.now)
        ≤ (D.facts disk.old).sectors }
    requires whole { length buffer.old ≡ 512 * g.now.node_sectors }
    requires fits { bytes_of (set_of seq keys.now) ≤ 512 * g.now.node_sectors }
    ensures bytes { HasSet g.now word (set_of seq keys.now) buffer.new }
    ensures ok { OnOk result (IsWritten at
        (put_values g.now taken (set_of seq keys.now) buffer.new)
        (D.facts disk.old) (D.facts disk.new)) }
    ensures failed { OnErr result (IsFailedWrite at
        (put_values g.now taken (set_of seq keys.now) buffer.new)
        (D.facts disk.old) (D.facts disk.new)) }
    ensures counted { IsCounted result (D.facts disk.old) (D.facts disk.new) }
{
    let size = fill_slice(g, word, seq, keys, buffer);
    let length = put_length(g, taken, size);
    disk.write(at, &buffer[..length])
}
