//! The index with what the journal has added to it.
ghost use Rattle.std.specs.Prelude.{◌≡◌, ◌*◌, ◌≤◌, ◌++◌, All, List, IfOk, IfErr};
ghost use Rattle.bc_disk.specs.Disk.{IsKept};
ghost use Rattle.bc_key.specs.Key.{IsExtent};
ghost use Rattle.bc_key.specs.declared.key.Key.{Key};
ghost use Rattle.bc_node.specs.Leaf.{AreAdded};
ghost use Rattle.bc_replay.specs.Causes.{RisesWith};
ghost use Rattle.bc_replay.specs.Index.{rule_by};
ghost use Rattle.bc_replay.specs.Limits.{rule_in};
ghost use Rattle.bc_replay.specs.Refused.{KeepsWord};
ghost use Rattle.bc_replay.specs.Replay.{AddsEntries, HasIndex, IsIndexCause, entry_keys};

use crate::error::OpenError;
use crate::index::{Index, add_keys, read_tree};
use crate::pointers::{Limits, word_with};
use bc_disk::disk::Disk;
use bc_disk::geometry::Geometry;
use bc_entries::Journal;
use bc_extent::Extents;
use bc_key::Key;
use bc_keys::are_extents;
use bc_walk::Visit;
use std::alloc::{AllocError, Global};

/// Adds the keys of an entry behind those whose last ones there are. An entry that was read has
/// extents alone.
fn add_extents(map: &mut Extents, keys: &[Key]) -> Result<(), AllocError>
    ensures { IfOk result
        (λ _. All IsExtent keys.now → AreAdded keys.now map.old.keys map.new.keys) }
{
    if !are_extents(keys) {
        return Ok(());
    }
    add_keys(map, keys)
}

/// The word that is kept, with the keys of the entries that count, the oldest first.
fn word_with_entries(limits: &Limits, word: Option<u64>, journal: &Journal) -> Option<u64>
    ensures { (seen : List Key) → KeepsWord (rule_in limits.now) seen word
        → KeepsWord (rule_in limits.now) (seen ++ entry_keys journal.now.entries) result }
{
    let mut word = word;
    let count = journal.len();
    for i in 0..count {
        word = word_with(limits, word, journal.entry(i).item.keys.as_slice());
    }
    word
}

/// Adds the keys of the entries that count, the oldest first.
fn add_entries(map: &mut Extents, journal: &Journal) -> Result<(), AllocError>
    ensures { IfOk result (λ _. AddsEntries journal.now.entries map.old.keys map.new.keys) }
{
    for i in 0..journal.len() {
        add_extents(map, journal.entry(i).item.keys.as_slice())?;
    }
    Ok(())
}

/// Reads the index of a cache device whose journal was read: walks through the tree that the newest
/// entry names, and adds to its keys those of the entries, which may not be in it yet; `size` is how
/// many sectors of data the backing device has. Nothing is written.
///
/// The error is `Node` for the first node on the way that has a fault; `Fault` and `Memory` come
/// wherever they happen.
pub fn read_index<C: Disk>(
    alloc: Global,
    cache: &mut C,
    g: &Geometry,
    journal: &Journal,
    size: u64,
) -> Result<(Vec<Visit>, Index), OpenError>
    requires { g.now.bucket * g.now.nbuckets ≤ (C.facts cache.old).sectors }
    ensures found { IfOk result (λ r. HasIndex (C.facts cache.old) (rule_by g.now size) journal.now
        r.0.items r.1.keys.keys r.1.word) }
    ensures limits { IfOk result (λ r. rule_in r.1.limits ≡ rule_by g.now size) }
    ensures refused { IfErr result (IsIndexCause (C.facts cache.old) g.now journal.now) }
    ensures kept { IsKept (C.facts cache.old) (C.facts cache.new) }
    ensures faults { RisesWith result (C.facts cache.old).faults (C.facts cache.new).faults }
{
    let count = journal.len();
    if count == 0 {
        return Err(OpenError::NoJournal);
    }
    let newest = &journal.entry(count - 1).item;
    let (visits, mut index) = read_tree(alloc, cache, g, newest.level, &newest.root, size)?;
    add_entries(&mut index.keys, journal)?;
    index.word = word_with_entries(&index.limits, index.word, journal);
    Ok((visits, index))
}
