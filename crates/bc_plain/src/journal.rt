//! The entries of a journal, found place by place in the bytes of a cache device.
ghost use Rattle.std.specs.Prelude.{◌≡◌, ◌≢◌, ◌+◌, ◌*◌, ◌<◌, ◌≤◌, ◌^◌, ◌++◌, ℕ, List, suc, length, All, None, Some, IfOk, MatchOption};
ghost use Rattle.bc_disk.specs.Bytes.{image_of};
ghost use Rattle.bc_record.specs.Sectors.{in_blocks};
ghost use Rattle.bc_record.specs.Kind.{NoneFound, AreFound};
ghost use Rattle.bc_record.specs.Places.{placed};
ghost use Rattle.bc_jset.specs.declared.entry.JEntry.{JEntry};
ghost use Rattle.bc_jset.specs.declared.error.JsetError.{JsetError};
ghost use Rattle.bc_jset.specs.Records.{entry_kind, entry_sectors, EntryFound};
ghost use Rattle.bc_jset.specs.Entries.{FoundEntry, bucket_start, bucket_end, StandIn, first_with, AreNumbered, AreEntries};

use bc_disk::geometry::Geometry;
use bc_jset::{JEntry, JsetError, read_entry};
use bc_keys::Keys;
use bc_record::Placed;
use std::alloc::{AllocError, Global};

/// How many sectors so many bytes take, in whole blocks.
fn sectors_of(block: u16, bytes: usize) -> usize
    requires block { 0 < block }
    requires bytes { bytes ≤ 2 ^ 60 }
    ensures { result ≡ in_blocks block bytes }
{
    let block = block as usize;
    block * ((bytes + (512 * block - 1)) / (512 * block))
}

/// Nothing where bytes were refused as no entry; want of memory stays an error.
fn refused(error: JsetError) -> Result<(), AllocError>
    ensures { IfOk result (λ _. error ≢ JsetError.Memory) }
{
    match error {
        JsetError::Memory => Err(AllocError),
        _ => Ok(()),
    }
}

/// The entry that is found at a place before an end, both in sectors, and how many sectors it takes.
pub fn entry_at(
    alloc: Global,
    image: &[u8],
    g: &Geometry,
    end: usize,
    place: usize,
) -> Result<Option<(JEntry, usize)>, AllocError>
    requires order { place ≤ end }
    requires within { 512 * end ≤ length image.now }
    ensures { IfOk result (λ o. MatchOption o
        (NoneFound (entry_kind g.now) (image_of image.now) end place)
        (λ r. EntryFound g.now (image_of image.now) end place r.0
        × (r.1 ≡ entry_sectors g.now r.0))) }
{
    let part = &image[512 * place..512 * end];
    match read_entry(alloc, part, g.set_magic) {
        Ok((entry, bytes)) => {
            let sectors = sectors_of(g.block, bytes);
            Ok(Some((entry, sectors)))
        }
        Err(error) => {
            refused(error)?;
            Ok(None)
        }
    }
}

/// Adds the entries of journal bucket `i`: those from its first sector on, up to the first place that
/// has none.
fn add_bucket(
    alloc: Global,
    image: &[u8],
    g: &Geometry,
    i: u16,
    all: &mut Vec<Placed<JEntry>>,
) -> Result<(), AllocError>
    requires bucket { i < g.now.journal }
    requires within { 512 * (g.now.bucket * g.now.nbuckets) ≤ length image.now }
    ensures { IfOk result (λ _. (here : List JEntry)
        × AreFound (entry_kind g.now) (image_of image.now)
        (bucket_end g.now i) (bucket_start g.now i) here
        × (all.new.items
        ≡ all.old.items ++ placed (entry_kind g.now) (bucket_start g.now i) here)) }
{
    let bucket = g.bucket as usize;
    let start = bucket * (g.first_bucket as usize + i as usize);
    let end = start + bucket;
    let mut place = start;
    while let Some((entry, sectors)) = entry_at(alloc, image, g, end, place)? {
        all.push(Placed {
            place: place as u64,
            item: entry,
        })?;
        place += sectors;
    }
    Ok(())
}

/// The entries that stand in the journal buckets, those in a lower place first.
pub fn all_entries(
    alloc: Global,
    image: &[u8],
    g: &Geometry,
) -> Result<Vec<Placed<JEntry>>, AllocError>
    requires { 512 * (g.now.bucket * g.now.nbuckets) ≤ length image.now }
    ensures { IfOk result (λ all. StandIn g.now (image_of image.now) g.now.journal all.items) }
{
    let mut all = Vec::new(alloc);
    for i in 0..g.journal {
        add_bucket(alloc, image, g, i, &mut all)?;
    }
    Ok(all)
}

/// The greatest number that one of the entries has; 0 where there are none.
fn greatest(all: &[Placed<JEntry>]) -> u64
    ensures above { All (λ e. e.item.seq ≤ result) all.now }
    ensures least { (n : ℕ) → All (λ e. e.item.seq ≤ n) all.now → result ≤ n }
{
    let mut number = 0;
    for entry in all {
        number = number.max(entry.item.seq);
    }
    number
}

/// Of the entries with this number the one in the lowest place.
fn first_with(all: &[Placed<JEntry>], number: u64) -> Option<&Placed<JEntry>>
    ensures { MatchOption result (first_with number all.now ≡ None)
        (λ e. first_with number all.now ≡ Some e.now) }
{
    for entry in all {
        if entry.item.seq == number {
            return Some(entry);
        }
    }
    None
}

/// The same entry once more.
fn copy(alloc: Global, found: &Placed<JEntry>) -> Result<Placed<JEntry>, AllocError>
    ensures { IfOk result (λ e. e ≡ found.now) }
{
    let entry = &found.item;
    let keys = entry.keys.as_slice().to_vec(alloc)?;
    Ok(Placed {
        place: found.place,
        item: JEntry {
            seq: entry.seq,
            last_seq: entry.last_seq,
            uuid_bucket: entry.uuid_bucket,
            root: entry.root,
            level: entry.level,
            prio: entry.prio,
            keys: Keys::from_vec(keys),
        },
    })
}

/// The entries with the numbers from `low` up to `high`, or nothing where one is missing.
fn numbered(
    alloc: Global,
    all: &[Placed<JEntry>],
    low: u64,
    high: u64,
) -> Result<Option<Vec<Placed<JEntry>>>, AllocError>
    requires { low ≤ high }
    ensures { IfOk result (λ o. MatchOption o
        ((es : List FoundEntry) → AreNumbered all.now low es (suc high) → ⊥)
        (λ list. AreNumbered all.now low list.items (suc high))) }
{
    let mut list = Vec::new(alloc);
    let mut number = low;
    loop {
        let Some(entry) = first_with(all, number) else {
            return Ok(None);
        };
        list.push(copy(alloc, entry)?)?;
        if number == high {
            return Ok(Some(list));
        }
        number += 1;
    }
}

/// The entries of the device whose bytes these are, oldest first and each with its place; nothing where it has none, where a
/// number is missing, or where the newest entry needs one that is newer.
///
/// Each journal bucket is read from its first sector, an entry at the first block behind the one
/// before, up to the first place that has none. The list goes from the number that the newest entry
/// names as the oldest one still needed up to its own; of two entries with one number the one in the
/// lower place counts. The bytes hold all buckets.
pub fn entries_of(
    alloc: Global,
    image: &[u8],
    g: &Geometry,
) -> Result<Option<Vec<Placed<JEntry>>>, AllocError>
    requires { 512 * (g.now.bucket * g.now.nbuckets) ≤ length image.now }
    ensures { IfOk result (λ o. MatchOption o
        ((es : List FoundEntry) → AreEntries g.now (image_of image.now) es → ⊥)
        (λ list. AreEntries g.now (image_of image.now) list.items)) }
{
    let all = all_entries(alloc, image, g)?;
    let number = greatest(&all);
    let Some(newest) = first_with(&all, number) else {
        return Ok(None);
    };
    if newest.item.last_seq > newest.item.seq {
        return Ok(None);
    }
    numbered(alloc, &all, newest.item.last_seq, newest.item.seq)
}
