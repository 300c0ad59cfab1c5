//! The ring of the journal: whole entries that don't count, and room for one more.
ghost use Rattle.std.specs.Prelude.{◌≡◌, ◌++◌, ◌+◌, ◌*◌, ◌^◌, ◌<◌, ◌≤◌, ◌∷◌, [], List, length, IfOk, MatchOption};
ghost use Rattle.std.specs.Bool.{MatchBool};
ghost use Rattle.bc_disk.specs.Bytes.{image_of};
ghost use Rattle.bc_image.specs.Reading.{Reading};
ghost use Rattle.bc_image.specs.Sound.{HasNoStrayEntry, HasRoomForEntry};
ghost use Rattle.bc_jset.specs.Entries.{AreEntries, FoundEntry};
ghost use Rattle.bc_jset.specs.Records.{entry_kind, entry_sectors};
ghost use Rattle.bc_jset.specs.Ring.{HasRoom, bucket_after};
ghost use Rattle.bc_record.specs.Places.{end_of};
ghost use Rattle.bc_plain_pair.specs.Ring.{HasNoStray, HasStray, IsNoneAt, IsStrayAt, StandsAmong};
ghost use Rattle.bc_plain_pair.specs.Rooms.{AreOld, IsBehind, later};

use crate::shown::bucket_at;
use bc_disk::geometry::Geometry;
use bc_jset::JEntry;
use bc_plain::journal::{all_entries, entry_at};
use bc_record::Placed;
use std::alloc::{AllocError, Global};

/// The number behind the last one that the newest entry may have.
const LAST_SEQ: u64 = (1 << 63) - 2;

// Whether one of the entries stands at a place.
fn stands_at(entries: &[Placed<JEntry>], place: u64) -> bool
    ensures { MatchBool result (StandsAmong entries.now place) (¬ (StandsAmong entries.now place)) }
{
    for entry in entries {
        if entry.place == place {
            return true;
        }
    }
    false
}

// Whether a whole entry at a place, before the end of its bucket, has a number from `low` on and
// isn't one of these.
fn is_stray(
    alloc: Global,
    image: &[u8],
    g: &Geometry,
    entries: &[Placed<JEntry>],
    low: u64,
    end: usize,
    place: usize,
) -> Result<bool, AllocError>
    requires order { place ≤ end }
    requires within { 512 * end ≤ length image.now }
    ensures { IfOk result (λ stray. MatchBool stray
        (IsStrayAt g.now (image_of image.now) entries.now low end place)
        (IsNoneAt g.now (image_of image.now) entries.now low end place)) }
{
    let Some((entry, _sectors)) = entry_at(alloc, image, g, end, place)? else {
        return Ok(false);
    };
    if entry.seq < low {
        return Ok(false);
    }
    Ok(!stands_at(entries, place as u64))
}

// Whether such an entry stands at a block of the journal bucket with this number.
fn has_stray(
    alloc: Global,
    image: &[u8],
    g: &Geometry,
    entries: &[Placed<JEntry>],
    low: u64,
    i: u16,
) -> Result<bool, AllocError>
    requires bucket { i < g.now.journal }
    requires within { 512 * (g.now.bucket * g.now.nbuckets) ≤ length image.now }
    ensures { IfOk result (λ stray. MatchBool stray
        (HasStray g.now (image_of image.now) entries.now low i)
        (HasNoStray g.now (image_of image.now) entries.now low i)) }
{
    let mut place = g.bucket as usize * (g.first_bucket as usize + i as usize);
    let end = place + g.bucket as usize;
    while place < end {
        if is_stray(alloc, image, g, entries, low, end, place)? {
            return Ok(true);
        }
        place += g.block as usize;
    }
    Ok(false)
}

/// The first journal bucket in which a whole entry stands at a block that isn't one of these,
/// though it has no lower number than the newest one needs.
pub fn first_stray(
    alloc: Global,
    image: &[u8],
    g: &Geometry,
    entries: &[Placed<JEntry>],
    newest: &Placed<JEntry>,
) -> Result<Option<u32>, AllocError>
    requires within { 512 * (g.now.bucket * g.now.nbuckets) ≤ length image.now }
    requires listed { AreEntries g.now (image_of image.now) entries.now }
    ensures { IfOk result (λ found. (r : Reading) → r.entries ≡ entries.now
        → r.newest ≡ newest.now → MatchOption found
        (HasNoStrayEntry g.now (image_of image.now) r)
        (λ _. ¬ (HasNoStrayEntry g.now (image_of image.now) r))) }
{
    for i in 0..g.journal {
        if has_stray(alloc, image, g, entries, newest.item.last_seq, i)? {
            return Ok(Some(u32::from(g.first_bucket) + u32::from(i)));
        }
    }
    Ok(None)
}

// How many sectors an entry takes.
fn sectors_of(g: &Geometry, entry: &JEntry) -> u128
    ensures is { result ≡ entry_sectors g.now entry.now }
    ensures few { result ≤ 2 ^ 100 }
{
    let block = u128::from(g.block);
    block * ((entry.bytes() as u128 + (512 * block - 1)) / (512 * block))
}

// The first sector behind an entry.
fn end_of(g: &Geometry, entry: &Placed<JEntry>) -> u128
    ensures { result ≡ end_of (entry_kind g.now) entry.now }
{
    u128::from(entry.place) + sectors_of(g, &entry.item)
}

// The later of an end and one that is there.
fn later_of(next: Option<u128>, end: u128) -> u128
    ensures { result ≡ later next end }
{
    match next {
        Some(next) => next.max(end),
        None => end,
    }
}

// The first sector behind all of some entries in a bucket and one more, by that behind these.
fn with_end(g: &Geometry, next: Option<u128>, entry: &Placed<JEntry>, bucket: u64) -> Option<u128>
    ensures { (es : List FoundEntry) → IsBehind g.now es bucket next
        → IsBehind g.now (es ++ entry.now ∷ []) bucket result }
{
    let here = bucket_at(g, entry.place);
    if here == bucket {
        return Some(later_of(next, end_of(g, entry)));
    }
    next
}

// The first sector behind all of the entries in a bucket; nothing where none is there.
fn place_behind(g: &Geometry, entries: &[Placed<JEntry>], bucket: u64) -> Option<u128>
    ensures { IsBehind g.now entries.now bucket result }
{
    let mut next = None;
    for entry in entries {
        next = with_end(g, next, entry, bucket);
    }
    next
}

// The journal bucket that is used after another one.
fn bucket_after(g: &Geometry, bucket: u64) -> u128
    ensures { result ≡ bucket_after g.now bucket }
{
    let first = u128::from(g.first_bucket);
    let next = u128::from(bucket) + 1;
    if next == first + u128::from(g.journal) {
        first
    } else {
        next
    }
}

// Whether none of the entries in a bucket has a number from `low` on.
fn is_free(g: &Geometry, all: &[Placed<JEntry>], low: u64, bucket: u128) -> bool
    ensures { MatchBool result (AreOld g.now all.now low bucket)
        (¬ (AreOld g.now all.now low bucket)) }
{
    for entry in all {
        if u128::from(bucket_at(g, entry.place)) == bucket && entry.item.seq >= low {
            return false;
        }
    }
    true
}

// The last sector of a bucket at which a block begins.
fn last_block(g: &Geometry, bucket: u64) -> u128
    ensures { result + g.now.block ≡ g.now.bucket * (bucket + 1) }
{
    u128::from(g.bucket) * (u128::from(bucket) + 1) - u128::from(g.block)
}

// Whether one more entry without keys fits behind those that count, or into the next bucket of the
// ring, where these are all that are found.
fn has_room(
    g: &Geometry,
    all: &[Placed<JEntry>],
    entries: &[Placed<JEntry>],
    newest: &Placed<JEntry>,
) -> bool
    ensures { MatchBool result (HasRoom g.now all.now entries.now newest.now)
        (¬ (HasRoom g.now all.now entries.now newest.now)) }
{
    let bucket = bucket_at(g, newest.place);
    let Some(next) = place_behind(g, entries, bucket) else {
        return false;
    };
    let last = last_block(g, bucket);
    if next <= last {
        return true;
    }
    is_free(g, all, newest.item.last_seq, bucket_after(g, bucket))
}

/// Whether there are numbers left behind the newest of the entries, and room for an entry without
/// keys.
pub fn has_room_for_entry(
    alloc: Global,
    image: &[u8],
    g: &Geometry,
    entries: &[Placed<JEntry>],
    newest: &Placed<JEntry>,
) -> Result<bool, AllocError>
    requires { 512 * (g.now.bucket * g.now.nbuckets) ≤ length image.now }
    ensures { IfOk result (λ so. (r : Reading) → r.entries ≡ entries.now
        → r.newest ≡ newest.now → MatchBool so
        (HasRoomForEntry g.now (image_of image.now) r)
        (¬ (HasRoomForEntry g.now (image_of image.now) r))) }
{
    let seq = newest.item.seq;
    if seq >= LAST_SEQ {
        return Ok(false);
    }
    let all = all_entries(alloc, image, g)?;
    Ok(has_room(g, &all, entries, newest))
}
