//! The place behind the newest entry.
ghost use Rattle.std.specs.Prelude.{◌≡◌, ◌^◌, ◌<◌, ◌≤◌, All, Contains};
ghost use Rattle.bc_entries.specs.Reading.{EndsWithin};
ghost use Rattle.bc_jset.specs.Records.{entry_kind};
ghost use Rattle.bc_jset.specs.Ring.{IsNextPlace, bucket_of};
ghost use Rattle.bc_record.specs.Places.{end_of};
ghost use Rattle.bc_record.specs.Sectors.{in_blocks};
ghost use Rattle.bc_resume.specs.Behind.{IsAt, LiesInRing};

use bc_disk::geometry::Geometry;
use bc_entries::Journal;
use bc_journal::Place;
use bc_jset::JEntry;
use bc_record::Placed;

/// How many sectors so many bytes take, in whole blocks.
fn in_blocks(block: u16, bytes: usize) -> usize
    requires block { 0 < block }
    requires bytes { bytes ≤ 2 ^ 60 }
    ensures { result ≡ in_blocks block bytes }
{
    let block = block as usize;
    block * ((bytes + (512 * block - 1)) / (512 * block))
}

/// The first sector behind an entry.
fn end_of(g: &Geometry, e: &Placed<JEntry>) -> u64
    requires { EndsWithin g.now e.now }
    ensures { result ≡ end_of (entry_kind g.now) e.now }
{
    e.place + in_blocks(g.block, e.item.bytes()) as u64
}

/// The bucket in which an entry was found.
pub fn bucket_of(g: &Geometry, e: &Placed<JEntry>) -> u64
    ensures { result ≡ bucket_of g.now e.now }
{
    e.place / u64::from(g.bucket)
}

/// The first sector behind the last one, in the newest entry's bucket, of the entries that count.
pub fn next_place(g: &Geometry, journal: &Journal, newest: &Placed<JEntry>) -> u64
    requires ends { All (EndsWithin g.now) journal.now.entries }
    requires within { EndsWithin g.now newest.now }
    requires counts { Contains journal.now.entries newest.now }
    ensures { IsNextPlace g.now journal.now.entries newest.now result }
{
    let bucket = bucket_of(g, newest);
    let mut next = end_of(g, newest);
    for i in 0..journal.len() {
        let e = journal.entry(i);
        if bucket_of(g, e) == bucket {
            next = next.max(end_of(g, e));
        }
    }
    next
}

/// A sector at or behind a block of a journal bucket, as a place of the ring.
pub fn place_in(g: &Geometry, bucket: u64, sector: u64) -> Place
    requires { LiesInRing g.now bucket sector }
    ensures { IsAt g.now bucket sector result }
{
    let from = u64::from(g.bucket) * bucket;
    Place {
        bucket: (bucket - u64::from(g.first_bucket)) as u32,
        sector: (sector - from) as u16,
    }
}
