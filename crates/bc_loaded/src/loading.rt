//! The parts of a pair are read into memory.
ghost use Rattle.std.specs.Prelude.{◌≡◌, ◌*◌, ◌<◌, ◌≤◌, replicate, IfErr, IfOk};
ghost use Rattle.bc_alloc.specs.Buckets.{AreFor};
ghost use Rattle.bc_bucket.specs.Walk.{none_found};
ghost use Rattle.bc_disk.specs.Disk.{IsKept};
ghost use Rattle.bc_image.specs.Pair.{Pair};
ghost use Rattle.bc_loaded.specs.Loaded.{AreLoaded, HasLeaves, IsLoadCause};
ghost use Rattle.bc_recover.specs.Known.{AreKnown};
ghost use Rattle.bc_recover.specs.Read.{HasParts, IsReadOf};
ghost use Rattle.bc_recover.specs.Spare.{HasReserves};
ghost use Rattle.bc_regrow.specs.Tree.{IsTreeCause, IsTreeOf, OfRead};
ghost use Rattle.bc_replay.specs.Causes.{RisesWith};
ghost use Rattle.bc_spine.specs.Leaves.{AreCounted};

use bc_alloc::Reserves;
use bc_bucket::{Buckets, Walk};
use bc_cache::NodeCache;
use bc_disk::disk::{Device, Disk};
use bc_journal::Journal;
use bc_pending::pending_of;
use bc_recover::{buckets_of, reserves_of};
use bc_regrow::tree_of;
use bc_replay::{OpenError, Survey};
use bc_resume::resume;
use bc_slots::{leaf_parts, leaves_of};
use bc_tree::Spine;
use std::alloc::{AllocError, Global};

/// The parts of a pair in memory.
#[derive(Drop)]
pub struct Loaded {
    /// The tree, without its leaves' keys.
    pub tree: Spine,
    /// The leaves of which the journal has keys, with these keys. Of n such parts, the leaf of number
    /// i lies in the one of number i modulo n.
    pub leaves: Vec<NodeCache>,
    /// What is known of each bucket.
    pub buckets: Buckets,
    /// The buckets that are ready to be taken.
    pub reserves: Reserves,
    /// The buckets of the chain of priority sets, the first one first.
    pub chain: Vec<u32>,
    /// What a walk that saw no leaf found for each bucket.
    pub walk: Walk,
    /// The journal, behind the entries that were read.
    pub journal: Journal,
}

// Buckets, their lists and their chain.
#[derive(Drop)]
struct Lists {
    buckets: Buckets,
    reserves: Reserves,
    chain: Vec<u32>,
    walk: Walk,
}

// What is known of the buckets, lists of those that nothing uses, and the chain.
fn lists_of(alloc: Global, s: &Survey) -> Result<Lists, AllocError>
    requires parts { HasParts s.now }
    ensures known { IfOk result (λ l. (p : Pair) → (h : IsReadOf s.now p)
        → AreKnown h.view.geometry h.view.reading l.buckets) }
    ensures spare { IfOk result (λ l. (p : Pair) → (h : IsReadOf s.now p)
        → HasReserves h.view.geometry h.view.reading l.reserves) }
    ensures fit { IfOk result (λ l. AreFor l.reserves l.buckets) }
    ensures chain { IfOk result (λ l. l.chain.items ≡ s.now.gens.chain) }
    ensures walk { IfOk result (λ l. l.walk ≡ replicate s.now.supers.geometry.nbuckets none_found) }
{
    let buckets = buckets_of(alloc, s)?;
    let reserves = reserves_of(alloc, s)?;
    // That lists are in order is known once they are read.
    let _raised = reserves.raised_len();
    let chain = Vec::from_slice(alloc, s.gens.chain())?;
    let walk = Walk::new(alloc, &s.supers.geometry)?;
    Ok(Lists {
        buckets,
        reserves,
        chain,
        walk,
    })
}

// So many parts with leaves of a tree, of which the journal has keys.
fn load_leaves<C: Disk>(
    alloc: Global,
    cache: &mut C,
    s: &Survey,
    tree: &Spine,
    count: u32,
) -> Result<Vec<NodeCache>, OpenError>
    requires room { s.now.supers.geometry.bucket * s.now.supers.geometry.nbuckets
        ≤ (C.facts cache.old).sectors }
    requires some { 0 < count }
    requires counted { AreCounted 0 tree.now.leaves }
    requires grown { OfRead s.now (C.facts cache.old)
        (λ p h. IsTreeOf h.view.geometry h.view.reading.nodes tree.now) }
    ensures found { IfOk result
        (λ parts. HasLeaves s.now tree.now.leaves count (C.facts cache.old) parts.items) }
    ensures refused { IfErr result (IsTreeCause s.now (C.facts cache.old)) }
    ensures kept { IsKept (C.facts cache.old) (C.facts cache.new) }
    ensures faults { RisesWith result (C.facts cache.old).faults (C.facts cache.new).faults }
{
    let leaves = leaves_of(alloc, tree)?;
    let pending = pending_of(alloc, &leaves, &s.journal)?;
    leaf_parts(alloc, cache, &s.supers.geometry, &leaves, &pending, count)
}

// All parts of a pair that was surveyed, with so many parts for leaves.
fn load_parts<C: Disk>(
    alloc: Global,
    cache: &mut C,
    s: &Survey,
    count: u32,
) -> Result<Loaded, OpenError>
    requires parts { HasParts s.now }
    requires room { s.now.supers.geometry.bucket * s.now.supers.geometry.nbuckets
        ≤ (C.facts cache.old).sectors }
    requires some { 0 < count }
    ensures loaded { IfOk result (AreLoaded C.facts s.now count cache.new) }
    ensures refused { IfErr result (IsTreeCause s.now (C.facts cache.old)) }
    ensures kept { IsKept (C.facts cache.old) (C.facts cache.new) }
    ensures faults { RisesWith result (C.facts cache.old).faults (C.facts cache.new).faults }
{
    let Some(journal) = resume(alloc, &s.supers.geometry, &s.journal)? else {
        return Err(OpenError::NoJournal);
    };
    let tree = tree_of(alloc, cache, s)?;
    let leaves = load_leaves(alloc, cache, s, &tree, count)?;
    let Lists {
        buckets,
        reserves,
        chain,
        walk,
    } = lists_of(alloc, s)?;
    Ok(Loaded {
        tree,
        leaves,
        buckets,
        reserves,
        chain,
        walk,
        journal,
    })
}

/// Reads all parts of a pair that was surveyed, with so many parts for leaves: its inner nodes once
/// more, each by one call, and so each leaf of which the journal has keys. What the device holds
/// stays. The time is linear in the keys and buckets that were read, but for a logarithm.
///
/// Where the device holds the pair that was surveyed, the error is `Fault` of it or `Memory`.
pub fn load<C: Disk>(
    alloc: Global,
    cache: &mut C,
    s: &Survey,
    count: u32,
) -> Result<Loaded, OpenError>
    requires parts { HasParts s.now }
    requires room { s.now.supers.geometry.bucket * s.now.supers.geometry.nbuckets
        ≤ (C.facts cache.old).sectors }
    requires some { 0 < count }
    ensures loaded { IfOk result (AreLoaded C.facts s.now count cache.new) }
    ensures refused { IfErr result (IsLoadCause s.now (C.facts cache.old)) }
    ensures kept { IsKept (C.facts cache.old) (C.facts cache.new) }
    ensures faults { RisesWith result (C.facts cache.old).faults (C.facts cache.new).faults }
{
    match load_parts(alloc, cache, s, count) {
        Ok(loaded) => Ok(loaded),
        Err(OpenError::Fault(_)) => Err(OpenError::Fault(Device::Cache)),
        Err(why) => Err(why),
    }
}
