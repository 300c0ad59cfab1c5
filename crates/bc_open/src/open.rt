//! A pair is opened.
ghost use Rattle.std.specs.Prelude.{◌≡◌, ◌*◌, ◌<◌, ◌≤◌, IfErr, IfOk, OnOk, length};
ghost use Rattle.bc_disk.specs.Disk.{IsKept};
ghost use Rattle.bc_entered.specs.Enter.{HasEntered, KeepsThePair};
ghost use Rattle.bc_recover.specs.Read.{HasParts, IsReadOf};
ghost use Rattle.bc_replay.specs.Causes.{OfHeld};
ghost use Rattle.bc_replay.specs.Parts.{IsOfEntries};
ghost use Rattle.bc_super.specs.Reading.{ReadsSuper};
ghost use Rattle.bc_open.specs.Left.{ChangesState, IsStill, LeavesThePair};
ghost use Rattle.bc_open.specs.Open.{AreParts, HasOpened, IsEntryStop, IsNewestNumber, IsOpenStop, IsReadStop};

use bc_alloc::Reserves;
use bc_bucket::Buckets;
use bc_disk::disk::{Device, Disk};
use bc_disk::geometry::Geometry;
use bc_entered::{EnterError, enter};
use bc_entries::Journal as Entries;
use bc_journal::Journal;
use bc_recover::{buckets_of, reserves_of};
use bc_regrow::tree_of;
use bc_replay::{OpenError, Survey};
use bc_state::write_state;
use bc_super::backing::BackingSuper;
use bc_super::state::BackingState;
use bc_tree::Spine;
use std::alloc::Global;

/// The parts of a pair that is opened.
#[derive(Drop)]
pub struct Opened {
    /// The tree, without its leaves' keys.
    pub tree: Spine,
    /// What is known of each bucket.
    pub buckets: Buckets,
    /// The buckets that are ready to be taken.
    pub reserves: Reserves,
    /// The journal, which goes on behind the entry of the opening.
    pub journal: Journal,
}

/// Those that are read without anything being written.
#[derive(Drop)]
struct Parts {
    tree: Spine,
    buckets: Buckets,
    reserves: Reserves,
}

/// Reads the parts of a pair. Nothing is written.
fn read_parts<C: Disk>(alloc: Global, cache: &mut C, s: &Survey) -> Result<Parts, OpenError>
    requires parts { HasParts s.now }
    requires room { s.now.supers.geometry.bucket * s.now.supers.geometry.nbuckets
        ≤ (C.facts cache.old).sectors }
    ensures found { IfOk result
        (λ r. AreParts s.now (C.facts cache.old) r.tree r.buckets r.reserves) }
    ensures stop { IfErr result (IsReadStop s.now (C.facts cache.old) (C.facts cache.new)) }
    ensures kept { IsKept (C.facts cache.old) (C.facts cache.new) }
    ensures good { OnOk result ((C.facts cache.new).faults ≡ (C.facts cache.old).faults) }
{
    let tree = match tree_of(alloc, cache, s) {
        Ok(tree) => tree,
        Err(OpenError::Fault(_)) => return Err(OpenError::Fault(Device::Cache)),
        Err(why) => return Err(why),
    };
    let buckets = buckets_of(alloc, s)?;
    let reserves = reserves_of(alloc, s)?;
    Ok(Parts {
        tree,
        buckets,
        reserves,
    })
}

/// The number of the newest entry that counts.
fn newest_number(read: &Entries) -> u64
    requires { 0 < length read.now.entries }
    ensures { IsNewestNumber read.now result }
{
    let count = read.len();
    read.entry(count - 1).item.seq
}

/// Writes the entry of the opening behind those that were read.
fn write_entry<C: Disk>(
    alloc: Global,
    cache: &mut C,
    g: &Geometry,
    read: &Entries,
) -> Result<Journal, OpenError>
    requires entries { IsOfEntries g.now read.now }
    requires division { g.now.bucket * g.now.nbuckets ≤ (C.facts cache.old).sectors }
    ensures ok { IfOk result (HasEntered g.now read.now (C.facts cache.old) (C.facts cache.new)) }
    ensures cause { IfErr result (IsEntryStop C.facts read.now cache.old cache.new) }
    ensures left { KeepsThePair g.now read.now (C.facts cache.old) (C.facts cache.new) }
{
    match enter(alloc, cache, g, read) {
        Ok(journal) => Ok(journal),
        Err(EnterError::Fault) => Err(OpenError::Fault(Device::Cache)),
        Err(EnterError::Memory) => Err(OpenError::Memory),
        Err(EnterError::Odd) => Err(OpenError::JournalEnd {
            seq: newest_number(read),
        }),
    }
}

/// Opens a pair that was read: reads its inner nodes once more, works out what is known of its
/// buckets, writes the entry of the opening, and says in the superblock of the backing device that
/// its cache may have what it lacks. Both are stable then. The superblock is the one that the backing
/// device holds. The time is linear in the keys and buckets that were read, but for a logarithm.
///
/// The error is `Fault` where a call of a device failed, or `Memory`, before which nothing was
/// written; a pair whose newest entry is one behind which none can come is refused as `JournalEnd`
/// with that entry's number. Of devices that hold what was read no other error comes. Whatever is
/// answered, and wherever a device stops, also within a write, a crash leaves a sound pair that shows
/// what the pair showed, and the backing device as it was or with `dirty` in its superblock.
pub fn open_pair<C: Disk, B: Disk>(
    alloc: Global,
    cache: &mut C,
    backing: &mut B,
    superblock: &BackingSuper,
    s: &Survey,
) -> Result<Opened, OpenError>
    requires reads { ReadsSuper (B.facts backing.old) superblock.now }
    requires parts { HasParts s.now }
    requires room { s.now.supers.geometry.bucket * s.now.supers.geometry.nbuckets
        ≤ (C.facts cache.old).sectors }
    requires read { OfHeld (IsReadOf s.now) (C.facts cache.old) (B.facts backing.old) }
    ensures opened { IfOk result (HasOpened C.facts s.now superblock.now cache.old cache.new
        (B.facts backing.old) (B.facts backing.new)) }
    ensures cause { IfErr result (IsOpenStop B.facts s.now 2 (C.facts cache.old) (C.facts cache.new)
        backing.old backing.new) }
    ensures state { IsStill (B.facts backing.old)
        → ChangesState (λ state. state ≡ BackingState.Dirty) superblock.now
        (B.facts backing.old) (B.facts backing.new) }
    ensures left { LeavesThePair (C.facts cache.old) (C.facts cache.new)
        (B.facts backing.old) (B.facts backing.new) }
{
    let parts = read_parts(alloc, cache, s)?;
    let journal = write_entry(alloc, cache, &s.supers.geometry, &s.journal)?;
    if write_state(backing, superblock, BackingState::Dirty).is_err() {
        return Err(OpenError::Fault(Device::Backing));
    }
    let Parts {
        tree,
        buckets,
        reserves,
    } = parts;
    Ok(Opened {
        tree,
        buckets,
        reserves,
        journal,
    })
}
