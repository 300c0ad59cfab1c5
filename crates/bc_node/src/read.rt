//! Reads the sets of a node.
ghost use Rattle.std.specs.Prelude.{◌≡◌, ◌≢◌, ◌⊎◌, ◌^◌, ◌+◌, ◌*◌, ◌<◌, ◌≤◌, ◌++◌, ℕ, List, length, Err, IfOk, IfErr, MatchOption};
ghost use Rattle.bc_disk.specs.Bytes.{image_of};
ghost use Rattle.bc_record.specs.Sectors.{in_blocks};
ghost use Rattle.bc_record.specs.Kind.{IsFound, NoneFound, AreFound};
ghost use Rattle.bc_set.specs.declared.error.SetError.{SetError};
ghost use Rattle.bc_set.specs.declared.set.Set.{Set};
ghost use Rattle.bc_set.specs.Records.{set_sectors, numbered_kind};
ghost use Rattle.bc_set.specs.SetBytes.{IsRefused, IsSet};
ghost use Rattle.bc_node.specs.Cause.{IsCause};
ghost use Rattle.bc_node.specs.Sets.{AreSetsOf, AreProper, taken_by};

use crate::error::NodeError;
use bc_disk::geometry::Geometry;
use bc_set::{Set, SetError, SetKind, read_set};
use std::alloc::{AllocError, Global};

/// How many sectors so many bytes take, in whole blocks.
pub fn in_blocks(block: u16, bytes: usize) -> usize
    requires block { 0 < block }
    requires bytes { bytes ≤ 2 ^ 62 }
    ensures { result ≡ in_blocks block bytes }
{
    let block = block as usize;
    block * ((bytes + (512 * block - 1)) / (512 * block))
}

/// Nothing where bytes were refused as no set; want of memory stays an error.
fn refused(error: SetError) -> Result<(), AllocError>
    ensures { IfOk result (λ _. error ≢ SetError.Memory) }
{
    match error {
        SetError::Memory => Err(AllocError),
        _ => Ok(()),
    }
}

/// The set with this number at a place in the bytes of a node, in sectors, and how many sectors it
/// takes.
fn set_at(
    alloc: Global,
    g: &Geometry,
    word: u64,
    kind: SetKind,
    bytes: &[u8],
    seq: u64,
    place: usize,
) -> Result<Option<(Set, usize)>, AllocError>
    requires whole { length bytes.now ≡ 512 * g.now.node_sectors }
    requires within { place ≤ g.now.node_sectors }
    ensures { IfOk result (λ o. MatchOption o
        (NoneFound (numbered_kind g.now word kind seq) (image_of bytes.now) g.now.node_sectors place)
        (λ r. IsFound (numbered_kind g.now word kind seq) (image_of bytes.now) g.now.node_sectors
        place r.0 × (r.1 ≡ set_sectors g.now r.0))) }
{
    match read_set(alloc, &bytes[512 * place..], word, g.set_magic, kind) {
        Ok(set) => {
            if set.seq != seq {
                return Ok(None);
            }
            let sectors = in_blocks(g.block, set.bytes());
            Ok(Some((set, sectors)))
        }
        Err(error) => {
            refused(error)?;
            Ok(None)
        }
    }
}

/// Adds the sets with this number that follow from a place in the bytes of a node, in sectors.
fn add_further(
    alloc: Global,
    g: &Geometry,
    word: u64,
    kind: SetKind,
    bytes: &[u8],
    seq: u64,
    from: usize,
    sets: &mut Vec<Set>,
) -> Result<(), AllocError>
    requires whole { length bytes.now ≡ 512 * g.now.node_sectors }
    requires blocks { (k : ℕ) × (g.now.node_sectors ≡ from + g.now.block * k) }
    ensures { IfOk result (λ _. (more : List Set)
        × AreFound (numbered_kind g.now word kind seq) (image_of bytes.now) g.now.node_sectors from more
        × (sets.new.items ≡ sets.old.items ++ more)) }
{
    let mut place = from;
    while let Some((set, sectors)) = set_at(alloc, g, word, kind, bytes, seq, place)? {
        sets.push(set)?;
        place += sectors;
    }
    Ok(())
}

/// The first set of a node and those that follow it in the node's bytes.
fn with_further(
    alloc: Global,
    g: &Geometry,
    word: u64,
    kind: SetKind,
    bytes: &[u8],
    first: Set,
) -> Result<Vec<Set>, AllocError>
    requires whole { length bytes.now ≡ 512 * g.now.node_sectors }
    requires first { IsSet word g.now.set_magic kind bytes.now first }
    ensures sets { IfOk result (λ sets. AreSetsOf g.now word kind bytes.now sets.items) }
    ensures proper { IfOk result (λ sets. AreProper kind sets.items) }
    ensures short { IfOk result (λ sets. taken_by g.now sets.items ≤ g.now.node_sectors) }
{
    let seq = first.seq;
    let from = in_blocks(g.block, first.bytes());
    let mut sets = Vec::new(alloc);
    sets.push(first)?;
    add_further(alloc, g, word, kind, bytes, seq, from, &mut sets)?;
    Ok(sets)
}

/// Reads the sets of a node, oldest first, from its bytes: the one at its front, and those behind
/// it at the next block each that have its number. A set with another number, or bytes that are
/// none, end the node, since they are left from an earlier use of the bucket.
///
/// `word` is the word of the pointer to the node, from which the checksums start.
pub fn read_sets(
    alloc: Global,
    g: &Geometry,
    word: u64,
    kind: SetKind,
    bytes: &[u8],
) -> Result<Vec<Set>, NodeError>
    requires { length bytes.now ≡ 512 * g.now.node_sectors }
    ensures found { IfOk result (λ sets. AreSetsOf g.now word kind bytes.now sets.items) }
    ensures proper { IfOk result (λ sets. AreProper kind sets.items) }
    ensures short { IfOk result (λ sets. taken_by g.now sets.items ≤ g.now.node_sectors) }
    ensures refused { IfErr result (IsCause word g.now.set_magic kind bytes.now) }
    ensures exact { (cause : SetError) → IsRefused word g.now.set_magic kind bytes.now cause
        → (result ≡ Err (NodeError.First cause)) ⊎ (result ≡ Err NodeError.Memory) }
{
    let first = read_set(alloc, bytes, word, g.set_magic, kind)?;
    let sets = with_further(alloc, g, word, kind, bytes, first)?;
    Ok(sets)
}

/// How many sectors these sets take, each in whole blocks.
pub fn sectors_of(g: &Geometry, sets: &[Set]) -> usize
    requires { taken_by g.now sets.now ≤ g.now.node_sectors }
    ensures { result ≡ taken_by g.now sets.now }
{
    let mut sectors = 0;
    for set in sets {
        sectors += in_blocks(g.block, set.bytes());
    }
    sectors
}
