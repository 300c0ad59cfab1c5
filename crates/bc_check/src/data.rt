//! The data of an index's rows, on both devices.
ghost use Rattle.std.specs.Prelude.{◌≡◌, ◌*◌, ◌+◌, ◌<◌, ◌≤◌, ◌↔◌, length, IfOk, IfErr, OnOk, IsTrue};
ghost use Rattle.bc_replay.specs.Causes.{OfHeld};
ghost use Rattle.bc_check.specs.Apart.{RowFitsOn, TellsRow, TellsRows};
ghost use Rattle.bc_check.specs.Calls.{BothKept, CountsFault, IsWant, NoneFailed};

use crate::apart::{AT_ONCE, run_apart};
use crate::read::buffer;
use crate::verdict::CheckError;
use bc_disk::disk::Disk;
use bc_key::Key;
use bc_replay::{Survey, is_live};
use std::alloc::Global;

/// Whether devices of so many sectors have each of a row's sectors. The data of the backing device
/// begins at an offset.
fn row_fits(row: &Key, offset: u64, cache_sectors: u64, backing_sectors: u64) -> bool
    requires some { 0 < row.now.size }
    requires extent { row.now.size ≤ row.now.end }
    ensures { IsTrue result ↔ RowFitsOn cache_sectors backing_sectors offset row.now }
{
    row.ptrs[0].offset + u64::from(row.size) <= cache_sectors
        && row.end <= backing_sectors.saturating_sub(offset)
}

/// The first sector of a row that the devices have different, where the row is live and clean. A
/// row that doesn't fit on the devices has its first one so.
fn row_apart<C: Disk, B: Disk>(
    cache: &mut C,
    backing: &mut B,
    s: &Survey,
    row: &Key,
    one: &mut [u8],
    other: &mut [u8],
) -> Result<Option<u64>, CheckError>
    requires some { 0 < row.now.size }
    requires extent { row.now.size ≤ row.now.end }
    requires one { length one.old ≡ 512 * 256 }
    requires other { length other.old ≡ 512 * 256 }
    ensures found { IfOk result (λ o. OfHeld (λ p. TellsRow s.now.supers.geometry s.now.gens p
        s.now.supers.backing.data_offset row.now o) (C.facts cache.old) (B.facts backing.old)) }
    ensures want { IfErr result IsWant }
    ensures kept { BothKept (C.facts cache.old) (C.facts cache.new) (B.facts backing.old)
        (B.facts backing.new) }
    ensures faults { IfErr result (λ e. CountsFault e (C.facts cache.old) (C.facts cache.new)
        (B.facts backing.old) (B.facts backing.new)) }
    ensures good { OnOk result (NoneFailed (C.facts cache.old) (C.facts cache.new)
        (B.facts backing.old) (B.facts backing.new)) }
{
    let offset = s.supers.backing.data_offset;
    if row.dirty || !is_live(&s.supers.geometry, &s.gens, row) {
        return Ok(None);
    }
    if !row_fits(row, offset, cache.sectors(), backing.sectors()) {
        return Ok(Some(row.start()));
    }
    let place = row.ptrs[0].offset;
    let at = offset + row.start();
    match run_apart(cache, backing, place, at, u64::from(row.size), one, other)? {
        Some(k) => Ok(Some(row.start() + k)),
        None => Ok(None),
    }
}

/// The least sector with live clean data that the devices have different. The data of each live
/// clean row of the index is read of both devices, 256 sectors by a call at most; nothing is
/// written. The error is `Fault` or `Memory`.
pub fn first_apart<C: Disk, B: Disk>(
    alloc: Global,
    cache: &mut C,
    backing: &mut B,
    s: &Survey,
) -> Result<Option<u64>, CheckError>
    ensures found { IfOk result (λ o. OfHeld (λ p. TellsRows s.now.supers.geometry s.now.gens p
        s.now.supers.backing.data_offset s.now.index.keys o) (C.facts cache.old)
        (B.facts backing.old)) }
    ensures want { IfErr result IsWant }
    ensures kept { BothKept (C.facts cache.old) (C.facts cache.new) (B.facts backing.old)
        (B.facts backing.new) }
    ensures faults { IfErr result (λ e. CountsFault e (C.facts cache.old) (C.facts cache.new)
        (B.facts backing.old) (B.facts backing.new)) }
    ensures good { OnOk result (NoneFailed (C.facts cache.old) (C.facts cache.new)
        (B.facts backing.old) (B.facts backing.new)) }
{
    let mut one = buffer(alloc, AT_ONCE as usize)?;
    let mut other = buffer(alloc, AT_ONCE as usize)?;
    for i in 0..s.index.len() {
        let row = s.index.key(i);
        if let Some(sector) = row_apart(cache, backing, s, &row, &mut one, &mut other)? {
            return Ok(Some(sector));
        }
    }
    Ok(None)
}
