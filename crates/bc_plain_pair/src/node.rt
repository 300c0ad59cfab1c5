//! The nodes of the tree.
ghost use Rattle.std.specs.Prelude.{◌≡◌, ◌≢◌, ◌+◌, ◌*◌, ◌<◌, ◌≤◌, ◌^◌, ◌++◌, ℕ, List, [], ◌∷◌, IfOk, MatchOption};
ghost use Rattle.std.specs.Bool.{MatchBool};
ghost use Rattle.bc_disk.specs.Bytes.{image_of};
ghost use Rattle.bc_key.specs.Words.{ptr_word};
ghost use Rattle.bc_record.specs.Kind.{IsFound, NoneFound, AreFound};
ghost use Rattle.bc_record.specs.Sectors.{in_blocks};
ghost use Rattle.bc_set.specs.declared.error.SetError.{SetError};
ghost use Rattle.bc_set.specs.declared.set.Set.{Set};
ghost use Rattle.bc_set.specs.Records.{set_kind, set_sectors, numbered_kind};
ghost use Rattle.bc_image.specs.Tree.{Node, kind_at, node_of, set_keys, tree_keys, AreSetsAt, AreWalks, IsWalk};
ghost use Rattle.bc_plain_pair.specs.PairBytes.{Finds};

use crate::bytes::bytes_in;
use crate::children::children_of;
use bc_disk::geometry::Geometry;
use bc_key::{Key, Ptr};
use bc_set::{Set, SetError, SetKind, read_set};
use std::alloc::{AllocError, Global};
use std::marker::Model;

/// A node that a walk meets.
#[derive(Drop)]
pub struct Node {
    level: u16,
    from: u64,
    key: Key,
    sets: Vec<Set>,
}

impl Model for Node {
    ghost use Rattle.bc_image.specs.Tree.{Node};

    ghost Value = { Node };

    ghost view = { λ n. record { level = n.level; from = n.from; key = n.key; sets = n.sets.items } };
}

impl Node {
    /// Its level, 0 for a leaf.
    pub fn level(&self) -> u16
        ensures { result ≡ self.now.level }
    {
        self.level
    }

    /// The first sector of its range.
    pub fn from(&self) -> u64
        ensures { result ≡ self.now.from }
    {
        self.from
    }

    /// The key that points to it and ends its range.
    pub fn key(&self) -> &Key
        ensures { result.now ≡ self.now.key }
    {
        &self.key
    }

    /// Its sets, the oldest first.
    pub fn sets(&self) -> &[Set]
        ensures { result.now ≡ self.now.sets }
    {
        &self.sets
    }
}

// The kind of a node's sets by its level.
fn kind_at(level: u16) -> SetKind
    ensures { result ≡ kind_at level }
{
    if level == 0 {
        SetKind::Extents
    } else {
        SetKind::Children
    }
}

// The word of a pointer, from which the checksums of a node's sets start.
fn word_of(ptr: &Ptr) -> u64
    ensures { result ≡ ptr_word ptr.now }
{
    u64::from(ptr.dev) * (1 << 51) + ptr.offset * (1 << 8) + u64::from(ptr.generation)
}

// How many sectors so many bytes take, in whole blocks.
fn sectors_of(block: u16, bytes: usize) -> u64
    requires block { 0 < block }
    requires bytes { bytes ≤ 2 ^ 60 }
    ensures { result ≡ in_blocks block bytes }
{
    let block = u64::from(block);
    block * ((bytes as u64 + (512 * block - 1)) / (512 * block))
}

// Nothing where bytes were refused as no set; want of memory stays an error.
fn refused(error: SetError) -> Result<(), AllocError>
    ensures { IfOk result (λ _. error ≢ SetError.Memory) }
{
    match error {
        SetError::Memory => Err(AllocError),
        _ => Ok(()),
    }
}

// The set of a kind that is found at a place before an end, both in sectors.
fn set_at(
    alloc: Global,
    image: &[u8],
    g: &Geometry,
    word: u64,
    kind: SetKind,
    end: u64,
    place: u64,
) -> Result<Option<Set>, AllocError>
    requires { place ≤ end }
    ensures { IfOk result (Finds
        (IsFound (set_kind g.now word kind) (image_of image.now) end place)) }
{
    let part = bytes_in(alloc, image, place, end - place)?;
    match read_set(alloc, &part, word, g.set_magic, kind) {
        Ok(set) => Ok(Some(set)),
        Err(error) => {
            refused(error)?;
            Ok(None)
        }
    }
}

// The same where it has this number.
fn numbered_at(
    alloc: Global,
    image: &[u8],
    g: &Geometry,
    word: u64,
    kind: SetKind,
    end: u64,
    place: u64,
    seq: u64,
) -> Result<Option<Set>, AllocError>
    requires { place ≤ end }
    ensures { IfOk result (Finds
        (IsFound (numbered_kind g.now word kind seq) (image_of image.now) end place)) }
{
    let Some(set) = set_at(alloc, image, g, word, kind, end, place)? else {
        return Ok(None);
    };
    if set.seq != seq {
        return Ok(None);
    }
    Ok(Some(set))
}

// Adds the sets with this number that are found from a place on, one behind the other.
fn add_further(
    alloc: Global,
    image: &[u8],
    g: &Geometry,
    word: u64,
    kind: SetKind,
    end: u64,
    from: u64,
    seq: u64,
    sets: &mut Vec<Set>,
) -> Result<(), AllocError>
    requires small { end ≤ 2 ^ 44 }
    requires blocks { (k : ℕ) × (end ≡ from + g.now.block * k) }
    ensures { IfOk result (λ _. (more : List Set)
        × AreFound (numbered_kind g.now word kind seq) (image_of image.now) end from more
        × (sets.new.items ≡ sets.old.items ++ more)) }
{
    let mut place = from;
    while let Some(set) = numbered_at(alloc, image, g, word, kind, end, place, seq)? {
        let sectors = sectors_of(g.block, set.bytes());
        sets.push(set)?;
        place += sectors;
    }
    Ok(())
}

/// The sets of the node of a level that a key points to; nothing where the key has no pointer, or
/// no set stands at its first sector.
pub fn node_sets(
    alloc: Global,
    image: &[u8],
    g: &Geometry,
    level: u16,
    key: &Key,
) -> Result<Option<Vec<Set>>, AllocError>
    ensures { IfOk result (λ o. MatchOption o
        ((sets : List Set) → AreSetsAt g.now (image_of image.now) level key.now sets → ⊥)
        (λ sets. AreSetsAt g.now (image_of image.now) level key.now sets.items)) }
{
    let Some(ptr) = key.pointer() else {
        return Ok(None);
    };
    let word = word_of(&ptr);
    let kind = kind_at(level);
    let end = ptr.offset + u64::from(g.node_sectors);
    let Some(first) = set_at(alloc, image, g, word, kind, end, ptr.offset)? else {
        return Ok(None);
    };
    let seq = first.seq;
    let mut sets = Vec::new(alloc);
    add_further(alloc, image, g, word, kind, end, ptr.offset, seq, &mut sets)?;
    Ok(Some(sets))
}

/// The node of a level that a key points to; nothing where there is none.
pub fn node_at(
    alloc: Global,
    image: &[u8],
    g: &Geometry,
    level: u16,
    from: u64,
    key: &Key,
) -> Result<Option<Node>, AllocError>
    ensures { IfOk result (λ o. MatchOption o
        ((sets : List Set) → AreSetsAt g.now (image_of image.now) level key.now sets → ⊥)
        (λ n. (n ≡ node_of level from key.now n.sets)
        × AreSetsAt g.now (image_of image.now) level key.now n.sets)) }
{
    let Some(sets) = node_sets(alloc, image, g, level, key)? else {
        return Ok(None);
    };
    Ok(Some(Node {
        level,
        from,
        key: *key,
        sets,
    }))
}

/// The keys of sets, set after set.
pub fn set_keys(alloc: Global, sets: &[Set]) -> Result<Vec<Key>, AllocError>
    ensures { IfOk result (λ v. v.items ≡ set_keys sets.now) }
{
    let mut keys = Vec::new(alloc);
    for set in sets {
        keys.extend_from_slice(set.keys.as_slice())?;
    }
    Ok(keys)
}

/// Adds the nodes that a walk from a key on meets, and says whether it meets a node at each key. A
/// node of a level stands before its children, and these stand by their ends.
#[cycle(walk)]
pub fn add_walk(
    alloc: Global,
    image: &[u8],
    g: &Geometry,
    level: u16,
    from: u64,
    key: &Key,
    nodes: &mut Vec<Node>,
) -> Result<bool, AllocError>
    ensures { IfOk result (λ met. MatchBool met
        ((here : List Node) × IsWalk g.now (image_of image.now) level from key.now here
        × (nodes.new.items ≡ nodes.old.items ++ here))
        ((here : List Node) → IsWalk g.now (image_of image.now) level from key.now here → ⊥)) }
{
    let Some(sets) = node_sets(alloc, image, g, level, key)? else {
        return Ok(false);
    };
    let keys = set_keys(alloc, &sets)?;
    nodes.push(Node {
        level,
        from,
        key: *key,
        sets,
    })?;
    if level == 0 {
        return Ok(true);
    }
    let children = children_of(alloc, &keys)?;
    add_walks(alloc, image, g, level - 1, from, &children, nodes)
}

// The same for each child, each from the end of the one before on.
#[cycle(walk)]
fn add_walks(
    alloc: Global,
    image: &[u8],
    g: &Geometry,
    level: u16,
    from: u64,
    children: &[Key],
    nodes: &mut Vec<Node>,
) -> Result<bool, AllocError>
    ensures { IfOk result (λ met. MatchBool met
        ((here : List Node)
        × AreWalks (IsWalk g.now (image_of image.now) level) from children.now here
        × (nodes.new.items ≡ nodes.old.items ++ here))
        ((here : List Node)
        → AreWalks (IsWalk g.now (image_of image.now) level) from children.now here → ⊥)) }
{
    let mut low = from;
    for child in children {
        if !add_walk(alloc, image, g, level, low, child, nodes)? {
            return Ok(false);
        }
        low = child.end;
    }
    Ok(true)
}

/// The keys of the tree: those of its leaves, leaf after leaf.
pub fn tree_keys(alloc: Global, nodes: &[Node]) -> Result<Vec<Key>, AllocError>
    ensures { IfOk result (λ v. v.items ≡ tree_keys nodes.now) }
{
    let mut all = Vec::new(alloc);
    for node in nodes {
        if node.level == 0 {
            let keys = set_keys(alloc, &node.sets)?;
            all.extend_from_slice(&keys)?;
        }
    }
    Ok(all)
}
