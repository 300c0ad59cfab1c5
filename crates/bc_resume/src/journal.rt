//! A journal that goes on.
ghost use Rattle.std.specs.Prelude.{◌≡◌, ℕ, ◌∷◌, ◌++◌, ◌<◌, [], All, List, length, IfNone, IfOk, IfSome, IsTrue, ◌↔◌};
ghost use Rattle.bc_entries.specs.Lists.{IsFit};
ghost use Rattle.bc_entries.specs.Reading.{StandsWithin};
ghost use Rattle.bc_journal.specs.Sealed.{heads_of};
ghost use Rattle.bc_jset.specs.EntryBytes.{IsLevel};
ghost use Rattle.bc_jset.specs.Entries.{FoundEntry};
ghost use Rattle.bc_jset.specs.Ring.{IsNextPlace, bucket_of};
ghost use Rattle.bc_resume.specs.Behind.{IsAt};
ghost use Rattle.bc_resume.specs.Resume.{HasNoLevel, IsResumed};

use crate::behind::{bucket_of, next_place, place_in};
use crate::numbers::newest_numbers;
use bc_disk::geometry::Geometry;
use bc_entries::Journal as Entries;
use bc_journal::{Heads, Journal, Place};
use bc_jset::JEntry;
use bc_record::Placed;
use std::alloc::{AllocError, Global};

/// The last of the entries that count.
fn last_entry(read: &Entries) -> &Placed<JEntry>
    requires { 0 < length read.now.entries }
    ensures { (older : List FoundEntry) × (read.now.entries ≡ older ++ result.now ∷ []) }
{
    let count = read.len();
    read.entry(count - 1)
}

/// The place behind the newest entry.
fn place_behind(g: &Geometry, read: &Entries, newest: &Placed<JEntry>) -> Place
    requires last { (older : List FoundEntry) × (read.now.entries ≡ older ++ newest.now ∷ []) }
    requires places { All (StandsWithin g.now) read.now.entries }
    ensures { (next : ℕ) × IsNextPlace g.now read.now.entries newest.now next
        × IsAt g.now (bucket_of g.now newest.now) next result }
{
    let next = next_place(g, read, newest);
    place_in(g, bucket_of(g, newest), next)
}

/// Whether an entry tells of a root that may have nodes below it: of level 1 or 2.
fn has_level(e: &JEntry) -> bool
    ensures { IsTrue result ↔ IsLevel e.now.level }
{
    e.level == 1 || e.level == 2
}

/// What an entry names beside its keys.
fn heads_of(e: &JEntry) -> Heads
    ensures { result ≡ heads_of e.now }
{
    Heads {
        uuid_bucket: e.uuid_bucket,
        root: e.root,
        level: e.level,
        prio: e.prio,
    }
}

/// A journal that goes on behind the entries that were read of a device, the last of which is
/// durable: what that names, the next ones name too. `None` comes only where it tells no level of a
/// root. Takes the memory of two entries and of a number for each journal bucket. The time is
/// linear in the number of entries.
pub fn resume(alloc: Global, g: &Geometry, read: &Entries) -> Result<Option<Journal>, AllocError>
    requires fit { IsFit g.now read.now.all read.now.entries }
    requires places { All (StandsWithin g.now) read.now.all }
    ensures some { IfOk result (λ o. IfSome o (IsResumed g.now read.now)) }
    ensures none { IfOk result (λ o. IfNone o (HasNoLevel read.now)) }
{
    let newest = last_entry(read);
    if !has_level(&newest.item) {
        return Ok(None);
    }
    let heads = heads_of(&newest.item);
    let at = place_behind(g, read, newest);
    let numbers = newest_numbers(alloc, g, read.all())?;
    let low = newest.item.last_seq;
    let next = newest.item.seq + 1;
    let journal = Journal::new(alloc, g, at, &numbers, low, next, &heads)?;
    Ok(Some(journal))
}
