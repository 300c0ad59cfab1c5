//! Reads the journal.
ghost use Rattle.std.specs.Prelude.{◌≡◌, ◌+◌, ◌*◌, ◌<◌, ◌≤◌, length, All, IfOk, IfErr, OnOk};
ghost use Rattle.bc_disk.specs.Disk.{IsKept};
ghost use Rattle.bc_entries.specs.Reading.{AddsOn, StandOn, EndsWithin, StandsWithin, HoldsJournal};
ghost use Rattle.bc_entries.specs.Reading.{IsCause, IsWant, FaultCounted};
ghost use Rattle.bc_entries.specs.Lists.{IsFit, IsUnfit};

use crate::bucket::add_entries;
use crate::error::JournalError;
use crate::journal::Journal;
use crate::list::list;
use crate::room::has_room;
use bc_disk::disk::Disk;
use bc_disk::geometry::Geometry;
use bc_jset::JEntry;
use bc_record::Placed;
use std::alloc::Global;

/// The numbers from here on are kept for the end.
const LAST_NUMBERS: u64 = (1 << 63) - 2;

/// Reads a journal bucket, and adds what is found in it.
fn read_bucket<D: Disk>(
    alloc: Global,
    disk: &mut D,
    g: &Geometry,
    i: u16,
    bytes: &mut [u8],
    all: &mut Vec<Placed<JEntry>>,
) -> Result<(), JournalError>
    requires room { g.now.bucket * g.now.nbuckets ≤ (D.facts disk.old).sectors }
    requires journal { i < g.now.journal }
    requires whole { length bytes.old ≡ 512 * g.now.bucket }
    requires ends { All (EndsWithin g.now) all.old.items }
    requires places { All (StandsWithin g.now) all.old.items }
    ensures adds { IfOk result (λ _. AddsOn g.now (D.facts disk.old) i all.old.items all.new.items) }
    ensures ends { IfOk result (λ _. All (EndsWithin g.now) all.new.items) }
    ensures places { IfOk result (λ _. All (StandsWithin g.now) all.new.items) }
    ensures want { IfErr result IsWant }
    ensures kept { IsKept (D.facts disk.old) (D.facts disk.new) }
    ensures faults { IfErr result
        (λ e. FaultCounted e (D.facts disk.old).faults (D.facts disk.new).faults) }
    ensures good { OnOk result ((D.facts disk.new).faults ≡ (D.facts disk.old).faults) }
{
    let start = u64::from(g.bucket) * (u64::from(g.first_bucket) + u64::from(i));
    disk.read(start, bytes)?;
    add_entries(alloc, g, bytes, start, all)?;
    Ok(())
}

/// Reads all journal buckets.
fn read_all<D: Disk>(
    alloc: Global,
    disk: &mut D,
    g: &Geometry,
) -> Result<Vec<Placed<JEntry>>, JournalError>
    requires { g.now.bucket * g.now.nbuckets ≤ (D.facts disk.old).sectors }
    ensures stand { IfOk result (λ v. StandOn g.now (D.facts disk.old) g.now.journal v.items) }
    ensures ends { IfOk result (λ v. All (EndsWithin g.now) v.items) }
    ensures places { IfOk result (λ v. All (StandsWithin g.now) v.items) }
    ensures want { IfErr result IsWant }
    ensures kept { IsKept (D.facts disk.old) (D.facts disk.new) }
    ensures faults { IfErr result
        (λ e. FaultCounted e (D.facts disk.old).faults (D.facts disk.new).faults) }
    ensures good { OnOk result ((D.facts disk.new).faults ≡ (D.facts disk.old).faults) }
{
    let mut bytes = vec![in alloc; 0u8; 512 * g.bucket as usize]?;
    let mut all = Vec::new(alloc);
    for i in 0..g.journal {
        read_bucket(alloc, disk, g, i, &mut bytes, &mut all)?;
    }
    Ok(all)
}

/// The journal of the entries that are found.
fn journal_of(
    alloc: Global,
    g: &Geometry,
    all: Vec<Placed<JEntry>>,
) -> Result<Journal, JournalError>
    requires ends { All (EndsWithin g.now) all.items }
    requires places { All (StandsWithin g.now) all.items }
    ensures fit { IfOk result (λ j. (j.all ≡ all.items) × IsFit g.now j.all j.entries) }
    ensures counts { IfOk result (λ j. IsFit g.now j.all j.entries) }
    ensures places { IfOk result (λ j. All (StandsWithin g.now) j.all) }
    ensures unfit { IfErr result (IsUnfit g.now all.items) }
{
    let (order, newest) = list(alloc, &all)?;
    let seq = all[newest].item.seq;
    if seq >= LAST_NUMBERS || !has_room(g, &all, &order, &all[newest]) {
        return Err(JournalError::End { seq });
    }
    Ok(Journal { all, order })
}

/// Reads the journal: all its buckets, each by one call. Nothing is written.
///
/// The refusal is the first by the order of `JournalError`; `Fault` and `Memory` come wherever they
/// happen, and after them nothing is said of the journal.
pub fn read_journal<D: Disk>(
    alloc: Global,
    disk: &mut D,
    g: &Geometry,
) -> Result<Journal, JournalError>
    requires { g.now.bucket * g.now.nbuckets ≤ (D.facts disk.old).sectors }
    ensures found { IfOk result (λ j. HoldsJournal g.now (D.facts disk.old) j) }
    ensures counts { IfOk result (λ j. IsFit g.now j.all j.entries) }
    ensures places { IfOk result (λ j. All (StandsWithin g.now) j.all) }
    ensures refused { IfErr result (IsCause g.now (D.facts disk.old)) }
    ensures kept { IsKept (D.facts disk.old) (D.facts disk.new) }
    ensures faults { IfErr result
        (λ e. FaultCounted e (D.facts disk.old).faults (D.facts disk.new).faults) }
    ensures good { OnOk result ((D.facts disk.new).faults ≡ (D.facts disk.old).faults) }
{
    let all = read_all(alloc, disk, g)?;
    journal_of(alloc, g, all)
}
