//! The index, read into memory.
ghost use Rattle.std.specs.Prelude.{◌≡◌, ◌*◌, ◌≤◌, All, IfOk, IfErr};
ghost use Rattle.bc_disk.specs.Disk.{IsKept};
ghost use Rattle.bc_image.specs.Tree.{set_keys};
ghost use Rattle.bc_key.specs.Key.{IsExtent};
ghost use Rattle.bc_node.specs.Leaf.{AreAdded};
ghost use Rattle.bc_node.specs.Sets.{AreProper};
ghost use Rattle.bc_set.specs.declared.set.SetKind.{SetKind};
ghost use Rattle.bc_replay.specs.Causes.{RisesWith};
ghost use Rattle.bc_replay.specs.Index.{HasTree, IsTreeCause, open_walk, rule_by};
ghost use Rattle.bc_replay.specs.Limits.{rule_in};

use crate::error::OpenError;
use crate::pointers::{Limits, word_with_sets};
use bc_disk::disk::{Device, Disk};
use bc_disk::geometry::Geometry;
use bc_extent::Extents;
use bc_key::Key;
use bc_set::Set;
use bc_walk::{Gather, Visit, WalkError, walk};
use std::alloc::{AllocError, Global};

/// For each sector of the backing device the last of the keys that were taken, and the first pointer
/// in all of these that may not be as it is.
#[derive(Drop)]
pub struct Index {
    /// The last keys. A key without pointers is kept like any other.
    pub keys: Extents,
    /// The word of the first pointer that leads elsewhere than into the data, or whose key ends
    /// behind the backing device.
    pub word: Option<u64>,
    /// By what the pointers are judged.
    pub limits: Limits,
}

/// Adds keys behind those whose last ones there are.
pub fn add_keys(map: &mut Extents, keys: &[Key]) -> Result<(), AllocError>
    requires { All IsExtent keys.now }
    ensures { IfOk result (λ _. AreAdded keys.now map.old.keys map.new.keys) }
{
    for key in keys {
        map.reserve(2)?;
        map.insert(key);
    }
    Ok(())
}

/// Adds the keys of sets, set after set.
fn add_sets(map: &mut Extents, sets: &[Set]) -> Result<(), AllocError>
    requires { AreProper SetKind.Extents sets.now }
    ensures { IfOk result (λ _. AreAdded (set_keys sets.now) map.old.keys map.new.keys) }
{
    for set in sets {
        add_keys(map, set.keys.as_slice())?;
    }
    Ok(())
}

impl Gather for Index {
    ghost use Rattle.std.specs.Prelude.{Some};
    ghost use Rattle.bc_replay.specs.Index.{IsIndexed};
    ghost use Rattle.bc_replay.specs.Limits.{rule_in};

    ghost took = { λ index keys. IsIndexed (rule_in index.limits) keys index.keys.keys index.word };

    ghost rule = { λ index. Some (rule_in index.limits) };

    fn take(&mut self, sets: &[Set]) -> Result<(), AllocError> {
        add_sets(&mut self.keys, sets)?;
        self.word = word_with_sets(&self.limits, self.word, sets);
        Ok(())
    }
}

// The end of a walk as a refusal of the pair.
fn open_walk(why: WalkError) -> OpenError
    ensures { result ≡ open_walk why }
{
    match why {
        WalkError::Node { bucket, why } => OpenError::Node { bucket, why },
        WalkError::Fault => OpenError::Fault(Device::Cache),
        WalkError::Memory => OpenError::Memory,
    }
}

/// Walks through the tree from the key of its root, which has this level, and takes the keys of its
/// leaves; `size` is how many sectors of data the backing device has. Nothing is written.
///
/// The error is `Node` for the first node on the way that has a fault; `Fault` and `Memory` come
/// wherever they happen.
pub fn read_tree<C: Disk>(
    alloc: Global,
    cache: &mut C,
    g: &Geometry,
    level: u16,
    root: &Key,
    size: u64,
) -> Result<(Vec<Visit>, Index), OpenError>
    requires { g.now.bucket * g.now.nbuckets ≤ (C.facts cache.old).sectors }
    ensures found { IfOk result (λ r. HasTree (C.facts cache.old) (rule_by g.now size) level root.now
        r.0.items r.1.keys.keys r.1.word) }
    ensures limits { IfOk result (λ r. rule_in r.1.limits ≡ rule_by g.now size) }
    ensures refused { IfErr result (IsTreeCause (C.facts cache.old) g.now level root.now) }
    ensures kept { IsKept (C.facts cache.old) (C.facts cache.new) }
    ensures faults { RisesWith result (C.facts cache.old).faults (C.facts cache.new).faults }
{
    let mut index = Index {
        keys: Extents::new(alloc),
        word: None,
        limits: Limits { geometry: *g, size },
    };
    match walk(alloc, cache, g, level, root, &mut index) {
        Ok(visits) => Ok((visits, index)),
        Err(why) => Err(open_walk(why)),
    }
}
