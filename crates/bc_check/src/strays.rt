//! Whole entries in the journal's buckets that could be taken for live or coming ones.
//!
//! The ring goes on behind the newest entry, and what a reader finds behind that one it takes by
//! its number alone. So an entry that stands there whole, with the number of one that is to come,
//! would be read as soon as the ring reaches it, though nobody put it there.
ghost use Rattle.std.specs.Prelude.{◌≡◌, ℕ, ◌+◌, ◌*◌, ◌<◌, ◌≤◌, ◌^◌, ◌≢◌, length, IfOk, IfErr, OnOk, MatchOption};
ghost use Rattle.std.specs.Bool.{MatchBool};
ghost use Rattle.bc_disk.specs.Disk.{IsKept, IfTold};
ghost use Rattle.bc_disk.specs.declared.disk.Device.TheVariants as device;
ghost use Rattle.bc_jset.specs.EntryBytes.{StandsAt};
ghost use Rattle.bc_jset.specs.declared.entry.JEntry.{JEntry};
ghost use Rattle.bc_jset.specs.declared.error.JsetError.{JsetError};
ghost use Rattle.bc_check.specs.Calls.{IsWantOf};
ghost use Rattle.bc_check.specs.Strays.{HasOther, HasOtherIn, IsListedAt, IsOtherAt, TellsStray};

use crate::read::{buffer, read_of};
use crate::verdict::CheckError;
use bc_disk::disk::{Device, Disk};
use bc_disk::geometry::Geometry;
use bc_entries::Journal;
use bc_jset::{JsetError, read_entry};
use std::alloc::{AllocError, Global};

/// Nothing where bytes were refused as no entry; want of memory stays an error.
fn refused(why: JsetError) -> Result<Option<u64>, AllocError>
    ensures { IfOk result (λ o. (o ≡ None) × (why ≢ JsetError.Memory)) }
{
    match why {
        JsetError::Memory => Err(AllocError),
        _ => Ok(None),
    }
}

/// The number of the whole entry that begins at a sector of these bytes.
fn number_at(
    alloc: Global,
    magic: u64,
    bytes: &[u8],
    sector: usize,
) -> Result<Option<u64>, AllocError>
    requires { 512 * sector ≤ length bytes.now }
    ensures { IfOk result (λ o. MatchOption o
        ((entry : JEntry) → ¬ (StandsAt magic bytes.now (512 * sector) entry))
        (λ seq. (entry : JEntry) × StandsAt magic bytes.now (512 * sector) entry
        × (entry.seq ≡ seq))) }
{
    match read_entry(alloc, &bytes[512 * sector..], magic) {
        Ok((entry, _length)) => Ok(Some(entry.seq)),
        Err(why) => refused(why),
    }
}

/// Whether the entry of this number that counts stands at this place. Those that count are numbered
/// from `low` on.
fn is_listed(journal: &Journal, low: u64, seq: u64, place: u64) -> bool
    requires { low ≤ seq }
    ensures { MatchBool result (IsListedAt journal.now.entries low seq place)
        (¬ (IsListedAt journal.now.entries low seq place)) }
{
    let i = seq - low;
    if i >= journal.len() as u64 {
        return false;
    }
    journal.entry(i as usize).place == place
}

/// Whether an entry at a sector of the bytes of a bucket doesn't count, though it has a number from
/// `low` on. The bucket begins at a sector of the device.
fn is_other(
    alloc: Global,
    magic: u64,
    journal: &Journal,
    low: u64,
    bytes: &[u8],
    start: u64,
    sector: usize,
) -> Result<bool, AllocError>
    requires within { 512 * sector ≤ length bytes.now }
    requires start { start + sector < 2 ^ 64 }
    ensures { IfOk result (λ other. MatchBool other
        (IsOtherAt magic bytes.now journal.now.entries low start sector)
        (¬ (IsOtherAt magic bytes.now journal.now.entries low start sector))) }
{
    let Some(seq) = number_at(alloc, magic, bytes, sector)? else {
        return Ok(false);
    };
    if seq < low {
        return Ok(false);
    }
    Ok(!is_listed(journal, low, seq, start + sector as u64))
}

/// Whether at some block of the bytes of a bucket there is such an entry.
fn has_other(
    alloc: Global,
    g: &Geometry,
    journal: &Journal,
    low: u64,
    bytes: &[u8],
    start: u64,
) -> Result<bool, AllocError>
    requires whole { length bytes.now ≡ 512 * g.now.bucket }
    requires start { start ≤ 2 ^ 60 }
    ensures { IfOk result (λ other. MatchBool other
        (HasOther g.now bytes.now journal.now.entries low start)
        (¬ (HasOther g.now bytes.now journal.now.entries low start))) }
{
    let mut sector = 0;
    while sector < g.bucket {
        if is_other(
            alloc,
            g.set_magic,
            journal,
            low,
            bytes,
            start,
            sector as usize,
        )? {
            return Ok(true);
        }
        sector += g.block;
    }
    Ok(false)
}

/// Reads a journal bucket, and says whether there is such an entry in it.
fn bucket_has_other<C: Disk>(
    alloc: Global,
    cache: &mut C,
    g: &Geometry,
    journal: &Journal,
    low: u64,
    i: u16,
    bytes: &mut [u8],
) -> Result<bool, CheckError>
    requires room { g.now.bucket * g.now.nbuckets ≤ (C.facts cache.old).sectors }
    requires journal { i < g.now.journal }
    requires whole { length bytes.old ≡ 512 * g.now.bucket }
    ensures found { IfOk result (λ other. IfTold (C.facts cache.old).holds (λ image. MatchBool other
        (HasOtherIn g.now image journal.now.entries low i)
        (¬ (HasOtherIn g.now image journal.now.entries low i)))) }
    ensures kept { IsKept (C.facts cache.old) (C.facts cache.new) }
    ensures want { IfErr result
        (λ e. IsWantOf device.Cache e (C.facts cache.old).faults (C.facts cache.new).faults) }
    ensures good { OnOk result ((C.facts cache.new).faults ≡ (C.facts cache.old).faults) }
{
    let start = u64::from(g.bucket) * (u64::from(g.first_bucket) + u64::from(i));
    read_of(Device::Cache, cache, start, bytes)?;
    let other = has_other(alloc, g, journal, low, bytes, start)?;
    Ok(other)
}

/// The first bucket of the journal in which a whole entry stands at a block that isn't one of those
/// that count, though its number isn't below that of the oldest one that the newest needs. Each
/// bucket is read by one call; nothing is written. The error is `Fault` of the cache device or
/// `Memory`.
pub fn first_stray<C: Disk>(
    alloc: Global,
    cache: &mut C,
    g: &Geometry,
    journal: &Journal,
) -> Result<Option<u32>, CheckError>
    requires { g.now.bucket * g.now.nbuckets ≤ (C.facts cache.old).sectors }
    ensures found { IfOk result (λ o.
        IfTold (C.facts cache.old).holds (λ image. TellsStray g.now image journal.now o)) }
    ensures kept { IsKept (C.facts cache.old) (C.facts cache.new) }
    ensures want { IfErr result
        (λ e. IsWantOf device.Cache e (C.facts cache.old).faults (C.facts cache.new).faults) }
    ensures good { OnOk result ((C.facts cache.new).faults ≡ (C.facts cache.old).faults) }
{
    let count = journal.len();
    if count == 0 {
        return Ok(None);
    }
    let low = journal.entry(count - 1).item.last_seq;
    let mut bytes = buffer(alloc, g.bucket as usize)?;
    for i in 0..g.journal {
        if bucket_has_other(alloc, cache, g, journal, low, i, &mut bytes)? {
            return Ok(Some(u32::from(g.first_bucket) + u32::from(i)));
        }
    }
    Ok(None)
}
