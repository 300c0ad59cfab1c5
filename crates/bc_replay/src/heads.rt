//! What a pair holds before its index.
ghost use Rattle.std.specs.Prelude.{◌≡◌, ◌*◌, ◌≤◌, length, IfOk, IfErr};
ghost use Rattle.bc_disk.specs.Disk.{IsKept, IfTold};
ghost use Rattle.bc_entries.specs.Reading.{HoldsJournal};
ghost use Rattle.bc_prio.specs.Records.{ChainIn};
ghost use Rattle.bc_replay.specs.Stages.{open_of};
ghost use Rattle.bc_replay.specs.Behind.{open_chain, HasBehind, IsBehindCause, IsChainCause, IsTableCause};
ghost use Rattle.bc_replay.specs.Causes.{DecidesNames, RisesWith};
ghost use Rattle.bc_replay.specs.Parts.{AreHeads, IsOfEntries};

use crate::error::OpenError;
use crate::uuids::names_device;
use bc_disk::disk::{Device, Disk};
use bc_disk::gens::Gens;
use bc_disk::geometry::Geometry;
use bc_entries::{Journal, JournalError, read_journal};
use bc_key::Key;
use bc_prio::{PrioError, read_chain};
use bc_uuid::UuidError;
use std::alloc::Global;

// The refusal of a journal as one of the pair.
fn open_of(why: JournalError) -> OpenError
    ensures { result ≡ open_of why }
{
    match why {
        JournalError::NoJournal => OpenError::NoJournal,
        JournalError::Gap { from, to } => OpenError::JournalGap { from, to },
        JournalError::End { seq } => OpenError::JournalEnd { seq },
        JournalError::Fault => OpenError::Fault(Device::Cache),
        JournalError::Memory => OpenError::Memory,
    }
}

// The refusal of a chain of generations as one of the pair.
fn open_chain(why: PrioError) -> OpenError
    ensures { result ≡ open_chain why }
{
    match why {
        PrioError::Fault => OpenError::Fault(Device::Cache),
        PrioError::Memory => OpenError::Memory,
        why => OpenError::Prio(why),
    }
}

/// Reads the journal.
pub fn journal_of<C: Disk>(
    alloc: Global,
    cache: &mut C,
    g: &Geometry,
    uuid: &[u8; 16],
) -> Result<Journal, OpenError>
    requires { g.now.bucket * g.now.nbuckets ≤ (C.facts cache.old).sectors }
    ensures found { IfOk result (λ j. HoldsJournal g.now (C.facts cache.old) j) }
    ensures part { IfOk result (IsOfEntries g.now) }
    ensures refused { IfErr result (IsBehindCause (C.facts cache.old) g.now uuid.now) }
    ensures kept { IsKept (C.facts cache.old) (C.facts cache.new) }
    ensures faults { RisesWith result (C.facts cache.old).faults (C.facts cache.new).faults }
{
    match read_journal(alloc, cache, g) {
        Ok(journal) => Ok(journal),
        Err(why) => Err(open_of(why)),
    }
}

/// Reads the generations, from the chain of sets that begins in a bucket.
pub fn gens_of<C: Disk>(
    alloc: Global,
    cache: &mut C,
    g: &Geometry,
    first: u64,
) -> Result<Gens, OpenError>
    requires { g.now.bucket * g.now.nbuckets ≤ (C.facts cache.old).sectors }
    ensures found { IfOk result
        (λ gens. IfTold (C.facts cache.old).holds (λ image. ChainIn g.now image first gens)) }
    ensures records { IfOk result (λ gens. length gens.records ≡ g.now.nbuckets) }
    ensures refused { IfErr result (IsChainCause (C.facts cache.old) g.now first) }
    ensures kept { IsKept (C.facts cache.old) (C.facts cache.new) }
    ensures faults { RisesWith result (C.facts cache.old).faults (C.facts cache.new).faults }
{
    match read_chain(alloc, cache, g, first) {
        Ok(gens) => Ok(gens),
        Err(why) => Err(open_chain(why)),
    }
}

/// Whether the table of uuids that a key points to names this device first.
fn named<C: Disk>(
    alloc: Global,
    cache: &mut C,
    g: &Geometry,
    key: &Key,
    uuid: &[u8; 16],
) -> Result<bool, OpenError>
    requires { g.now.bucket * g.now.nbuckets ≤ (C.facts cache.old).sectors }
    ensures names { IfOk result (DecidesNames (C.facts cache.old) g.now key.now uuid.now) }
    ensures refused { IfErr result IsTableCause }
    ensures kept { IsKept (C.facts cache.old) (C.facts cache.new) }
    ensures faults { RisesWith result (C.facts cache.old).faults (C.facts cache.new).faults }
{
    match names_device(alloc, cache, g, key, uuid) {
        Ok(named) => Ok(named),
        Err(UuidError::Fault) => Err(OpenError::Fault(Device::Cache)),
        Err(UuidError::Memory) => Err(OpenError::Memory),
    }
}

/// Reads what stands on the cache device behind the superblocks, up to the table of uuids: the
/// journal, the generations that its newest entry names, and whether the table that it names has
/// this uuid first. Nothing is written.
///
/// The error is the first of `NoJournal`, `JournalGap`, `JournalEnd`, `Prio` and `Uuid` that holds;
/// `Fault` and `Memory` come wherever they happen.
pub fn read_behind<C: Disk>(
    alloc: Global,
    cache: &mut C,
    g: &Geometry,
    uuid: &[u8; 16],
) -> Result<(Journal, Gens), OpenError>
    requires { g.now.bucket * g.now.nbuckets ≤ (C.facts cache.old).sectors }
    ensures found { IfOk result (λ r. IfTold (C.facts cache.old).holds
        (λ image. HasBehind g.now image uuid.now r.0 r.1)) }
    ensures parts { IfOk result (λ r. AreHeads g.now r.0 r.1) }
    ensures refused { IfErr result (IsBehindCause (C.facts cache.old) g.now uuid.now) }
    ensures kept { IsKept (C.facts cache.old) (C.facts cache.new) }
    ensures faults { RisesWith result (C.facts cache.old).faults (C.facts cache.new).faults }
{
    let journal = journal_of(alloc, cache, g, uuid)?;
    let count = journal.len();
    if count == 0 {
        return Err(OpenError::NoJournal);
    }
    let newest = journal.entry(count - 1);
    let gens = gens_of(alloc, cache, g, newest.item.prio)?;
    if !named(alloc, cache, g, &newest.item.uuid_bucket, uuid)? {
        return Err(OpenError::Uuid);
    }
    Ok((journal, gens))
}
