//! The entry that comes next.
ghost use Rattle.std.specs.Prelude.{All, IfNone, IfOk, IfSome};
ghost use Rattle.bc_entries.specs.Lists.{IsFit};
ghost use Rattle.bc_entries.specs.Reading.{StandsWithin};
ghost use Rattle.bc_enter.specs.Next.{IsOdd};
ghost use Rattle.bc_enter.specs.Begun.{IsBegun, IsUnsealed};

use crate::needed::oldest_needed;
use bc_disk::geometry::Geometry;
use bc_entries::Journal as Entries;
use bc_journal::{Journal, Sealed};
use bc_resume::resume;
use std::alloc::{AllocError, Global};

/// The entry that comes next, which is to be written, and the journal that waits for it.
#[derive(Drop)]
pub struct Next {
    pub journal: Journal,
    pub sealed: Sealed,
}

/// A journal that goes on behind the entries that were read of a device, before the entry that an
/// opening writes is sealed. `None` comes only where the newest of these tells no level of a root,
/// or still needs an entry of number 0. Takes the memory of two entries and of a number for each
/// journal bucket. The time is linear in the number of entries.
pub fn next_journal(
    alloc: Global,
    g: &Geometry,
    read: &Entries,
) -> Result<Option<Journal>, AllocError>
    requires fit { IsFit g.now read.now.all read.now.entries }
    requires places { All (StandsWithin g.now) read.now.all }
    ensures some { IfOk result (λ o. IfSome o (IsUnsealed g.now read.now)) }
    ensures none { IfOk result (λ o. IfNone o (IsOdd read.now)) }
{
    let Some(mut journal) = resume(alloc, g, read)? else {
        return Ok(None);
    };
    if !journal.room(0) {
        return Ok(None);
    }
    journal.reclaim_to(oldest_needed(read, journal.number()));
    Ok(Some(journal))
}

/// The entry that an opening writes behind those that were read of a device, sealed, with its place
/// in the journal's ring. It names what the newest of these names. `None`, memory and time are as of
/// `next_journal`.
pub fn next_entry(alloc: Global, g: &Geometry, read: &Entries) -> Result<Option<Next>, AllocError>
    requires fit { IsFit g.now read.now.all read.now.entries }
    requires places { All (StandsWithin g.now) read.now.all }
    ensures some { IfOk result (λ o. IfSome o (IsBegun g.now read.now)) }
    ensures none { IfOk result (λ o. IfNone o (IsOdd read.now)) }
{
    let Some(mut journal) = next_journal(alloc, g, read)? else {
        return Ok(None);
    };
    let heads = *journal.heads();
    let Ok(sealed) = journal.seal(&heads) else {
        unreachable!()
    };
    Ok(Some(Next { journal, sealed }))
}
