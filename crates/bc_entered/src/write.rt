//! The entry of an opening, written.
ghost use Rattle.std.specs.Prelude.{◌*◌, ◌≤◌, All, IfErr, IfOk};
ghost use Rattle.bc_entries.specs.Lists.{IsFit};
ghost use Rattle.bc_entries.specs.Reading.{StandsWithin};
ghost use Rattle.bc_entered.specs.Enter.{HasEntered, IsEnterCause, KeepsThePair};

use bc_disk::disk::Disk;
use bc_disk::geometry::Geometry;
use bc_enter::{Next, next_entry, write_entry};
use bc_entries::Journal as Entries;
use bc_journal::Journal;
use std::alloc::Global;

/// Why an opening's entry isn't written.
#[derive(Clone, Copy, Debug, PartialEq, Eq, Drop)]
pub enum EnterError {
    /// The device failed.
    Fault,
    /// There was no memory. The device wasn't called.
    Memory,
    /// The newest entry tells no level of a root, or still needs an entry of number 0. The device
    /// wasn't called.
    Odd,
}

/// Writes the entry of an opening behind those that were read of this device, and answers the
/// journal, which goes on behind it. Three calls are made: a barrier, the write, a barrier; a failed
/// one is the last. Takes the memory of two entries and of a number for each journal bucket.
///
/// Wherever the device stops, also within the write, and whatever is answered, the pair that a crash
/// leaves is sound and shows what it showed, where no torn entry is read as a whole one by chance.
pub fn enter<C: Disk>(
    alloc: Global,
    cache: &mut C,
    g: &Geometry,
    read: &Entries,
) -> Result<Journal, EnterError>
    requires fit { IsFit g.now read.now.all read.now.entries }
    requires places { All (StandsWithin g.now) read.now.all }
    requires division { g.now.bucket * g.now.nbuckets ≤ (C.facts cache.old).sectors }
    ensures ok { IfOk result (HasEntered g.now read.now (C.facts cache.old) (C.facts cache.new)) }
    ensures cause { IfErr result (IsEnterCause C.facts read.now cache.old cache.new) }
    ensures left { KeepsThePair g.now read.now (C.facts cache.old) (C.facts cache.new) }
{
    let next = match next_entry(alloc, g, read) {
        Ok(Some(next)) => next,
        Ok(None) => return Err(EnterError::Odd),
        Err(_) => return Err(EnterError::Memory),
    };
    let Next {
        mut journal,
        sealed,
    } = next;
    if write_entry(cache, sealed.sector(), sealed.bytes()).is_err() {
        return Err(EnterError::Fault);
    }
    journal.written(sealed);
    Ok(journal)
}
