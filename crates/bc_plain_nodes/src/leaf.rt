//! A leaf as its sets and the keys that were added since.
ghost use Rattle.std.specs.Prelude.{◌≡◌, ◌↔◌, ℕ, ◌+◌, ◌<◌, ◌++◌, [], ◌∷◌, false, true, IfOk, OnOk, IsTrue, MatchOption};
ghost use Rattle.bc_image.specs.Tree.{set_keys};
ghost use Rattle.bc_node.specs.Sets.{taken_by};
ghost use Rattle.bc_node.specs.Writing.{set_of};
ghost use Rattle.bc_plain_nodes.specs.Entries.{entries_of};
ghost use Rattle.bc_set.specs.Records.{set_sectors};
ghost use Rattle.bc_set.specs.SetBytes.{bytes_of};

use bc_disk::geometry::Geometry;
use bc_key::Key;
use bc_keys::{Keys, word_count};
use bc_node::in_blocks;
use bc_set::Set;
use std::alloc::{AllocError, Global};

/// A leaf as plain lists.
#[derive(Drop)]
pub struct PlainLeaf {
    /// The number of its sets.
    pub seq: u64,
    /// Its sets, oldest first, each with the keys that it was written with.
    pub sets: Vec<Set>,
    /// The keys that were added since the last set, oldest first.
    pub pending: Vec<Key>,
    /// The entries of the journal that hold these keys, in the order in which they came.
    pub entries: Vec<u64>,
    /// Whether it was read from a device and not rewritten since.
    pub loaded: bool,
}

/// The keys of sets, set after set.
pub fn set_keys(alloc: Global, sets: &[Set]) -> Result<Vec<Key>, AllocError>
    ensures { IfOk result (λ keys. keys.items ≡ set_keys sets.now) }
{
    let mut keys = Vec::new(alloc);
    for set in sets {
        keys.extend_from_slice(set.keys.as_slice())?;
    }
    Ok(keys)
}

/// How many bytes a set of these keys takes.
pub fn bytes(keys: &[Key]) -> usize
    ensures { (seq : ℕ) → result ≡ bytes_of (set_of seq keys.now) }
{
    32 + 8 * word_count(keys)
}

/// How many sectors sets leave of a node; nothing where they don't fit into one.
fn left(g: &Geometry, sets: &[Set]) -> Option<usize>
    ensures { MatchOption result (g.now.node_sectors < taken_by g.now sets.now)
        (λ left. left + taken_by g.now sets.now ≡ g.now.node_sectors) }
{
    let mut left = usize::from(g.node_sectors);
    for set in sets {
        let sectors = in_blocks(g.block, 32 + 8 * word_count(set.keys.as_slice()));
        if left < sectors {
            return None;
        }
        left -= sectors;
    }
    Some(left)
}

impl PlainLeaf {
    /// A leaf without sets and keys.
    pub fn new(alloc: Global, seq: u64) -> PlainLeaf
        ensures seq { result.seq ≡ seq }
        ensures sets { result.sets.items ≡ [] }
        ensures pending { result.pending.items ≡ [] }
        ensures entries { result.entries.items ≡ [] }
        ensures loaded { result.loaded ≡ false }
    {
        PlainLeaf {
            seq,
            sets: Vec::new(alloc),
            pending: Vec::new(alloc),
            entries: Vec::new(alloc),
            loaded: false,
        }
    }

    /// All its keys, oldest first: those of its sets, and those that were added since.
    pub fn keys(&self, alloc: Global) -> Result<Vec<Key>, AllocError>
        ensures { IfOk result (λ keys.
            keys.items ≡ set_keys self.now.sets.items ++ self.now.pending.items) }
    {
        let mut keys = set_keys(alloc, &self.sets)?;
        keys.extend_from_slice(&self.pending)?;
        Ok(keys)
    }

    /// Whether a further set of these keys doesn't fit behind its sets.
    pub fn is_full(&self, g: &Geometry, further: &[Key]) -> bool
        ensures { IsTrue result ↔ (g.now.node_sectors < taken_by g.now self.now.sets.items
            + set_sectors g.now (set_of self.now.seq further.now)) }
    {
        let Some(left) = left(g, &self.sets) else {
            return true;
        };
        left < in_blocks(g.block, 32 + 8 * word_count(further))
    }

    /// Adds keys that an entry of the journal holds.
    pub fn add(&mut self, keys: &[Key], entry: u64) -> Result<(), AllocError>
        ensures seq { self.new.seq ≡ self.old.seq }
        ensures sets { self.new.sets.items ≡ self.old.sets.items }
        ensures pending { OnOk result
            (self.new.pending.items ≡ self.old.pending.items ++ keys.now) }
        ensures entries { OnOk result (self.new.entries.items
            ≡ self.old.entries.items ++ entries_of keys.now entry) }
        ensures loaded { self.new.loaded ≡ self.old.loaded }
    {
        self.pending.extend_from_slice(keys)?;
        if !keys.is_empty() {
            self.entries.push(entry)?;
        }
        Ok(())
    }

    /// Puts a further set of these keys behind its sets. Then nothing is pending.
    pub fn append(&mut self, further: Vec<Key>) -> Result<(), AllocError>
        ensures seq { self.new.seq ≡ self.old.seq }
        ensures sets { OnOk result (self.new.sets.items
            ≡ self.old.sets.items ++ set_of self.old.seq further.items ∷ []) }
        ensures pending { OnOk result (self.new.pending.items ≡ []) }
        ensures entries { OnOk result (self.new.entries.items ≡ []) }
        ensures loaded { self.new.loaded ≡ self.old.loaded }
    {
        let set = Set {
            seq: self.seq,
            version: 1,
            keys: Keys::from_vec(further),
        };
        self.sets.push(set)?;
        self.forget();
        Ok(())
    }

    /// Makes these keys its only set, with another number. Then nothing is pending.
    pub fn rewrite(&mut self, seq: u64, keys: Vec<Key>) -> Result<(), AllocError>
        ensures seq { self.new.seq ≡ seq }
        ensures sets { OnOk result (self.new.sets.items ≡ set_of seq keys.items ∷ []) }
        ensures pending { OnOk result (self.new.pending.items ≡ []) }
        ensures entries { OnOk result (self.new.entries.items ≡ []) }
        ensures loaded { self.new.loaded ≡ false }
    {
        self.sets.clear();
        self.seq = seq;
        self.loaded = false;
        self.append(keys)
    }

    /// What a load gives: its sets, and nothing pending.
    pub fn load(&mut self)
        ensures seq { self.new.seq ≡ self.old.seq }
        ensures sets { self.new.sets.items ≡ self.old.sets.items }
        ensures pending { self.new.pending.items ≡ [] }
        ensures entries { self.new.entries.items ≡ [] }
        ensures loaded { self.new.loaded ≡ true }
    {
        self.forget();
        self.loaded = true;
    }

    /// Nothing is pending.
    fn forget(&mut self)
        ensures seq { self.new.seq ≡ self.old.seq }
        ensures sets { self.new.sets.items ≡ self.old.sets.items }
        ensures pending { self.new.pending.items ≡ [] }
        ensures entries { self.new.entries.items ≡ [] }
        ensures loaded { self.new.loaded ≡ self.old.loaded }
    {
        self.pending.clear();
        self.entries.clear();
    }
}
