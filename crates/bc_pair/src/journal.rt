//! The journal of a new pair.
ghost use Rattle.std.specs.Prelude.{◌≡◌, ◌+◌, ◌*◌, ◌<◌, ◌≤◌, length, replicate, OnOk};
ghost use Rattle.bc_super.specs.Writing.{AreCounted};
ghost use Rattle.bc_pair.specs.Found.{IsJournalSector};
ghost use Rattle.bc_pair.specs.Records.{IsEntryAt, IsFirstEntry, IsJournal};
ghost use Rattle.bc_pair.specs.Runs.{over, zeros};
ghost use Rattle.bc_pair.specs.Steps.{Becomes, WritesOnly, Wrote};

use bc_disk::disk::{Disk, Failed};
use bc_disk::geometry::Geometry;
use bc_jset::{JEntry, write_entry};

// Writes zeros over the journal's buckets, one call for each.
fn zero_journal<C: Disk>(cache: &mut C, g: &Geometry, blank: &[u8]) -> Result<(), Failed>
    requires room { g.now.bucket * g.now.nbuckets ≤ (C.facts cache.old).sectors }
    requires blank { blank.now ≡ replicate (512 * g.now.bucket) 0 }
    ensures ok { OnOk result (Becomes (over (g.now.bucket * g.now.first_bucket) (zeros (g.now.bucket * g.now.journal))) (C.facts cache.old) (C.facts cache.new)) }
    ensures others { WritesOnly (IsJournalSector g.now) (C.facts cache.old) (C.facts cache.new) }
    ensures counted { AreCounted g.now.journal result (C.facts cache.old) (C.facts cache.new) }
{
    for i in 0..g.journal {
        let bucket = u64::from(g.first_bucket) + u64::from(i);
        cache.write(u64::from(g.bucket) * bucket, blank)?;
    }
    Ok(())
}

// Writes entry 1, where the buffer has a block of zeros.
fn write_first<C: Disk>(
    cache: &mut C,
    g: &Geometry,
    entry: &JEntry,
    block: &mut [u8],
) -> Result<(), Failed>
    requires room { g.now.bucket * g.now.nbuckets ≤ (C.facts cache.old).sectors }
    requires some { 0 < g.now.journal }
    requires entry { IsFirstEntry g.now entry.now }
    requires blank { block.old ≡ replicate (512 * g.now.block) 0 }
    ensures { Wrote (IsJournalSector g.now) 1 (IsEntryAt g.now entry.now) result (C.facts cache.old) (C.facts cache.new) }
{
    write_entry(entry, g.set_magic, block);
    cache.write(u64::from(g.bucket) * u64::from(g.first_bucket), block)
}

/// Writes zeros over the journal, and then entry 1 at its beginning, where the buffer has a bucket of
/// zeros. What it holds afterwards isn't said.
pub(crate) fn write_journal<C: Disk>(
    cache: &mut C,
    g: &Geometry,
    entry: &JEntry,
    buffer: &mut [u8],
) -> Result<(), Failed>
    requires room { g.now.bucket * g.now.nbuckets ≤ (C.facts cache.old).sectors }
    requires some { 0 < g.now.journal }
    requires entry { IsFirstEntry g.now entry.now }
    requires blank { buffer.old ≡ replicate (512 * g.now.bucket) 0 }
    ensures wrote { Wrote (IsJournalSector g.now) (g.now.journal + 1) (IsJournal g.now entry.now) result (C.facts cache.old) (C.facts cache.new) }
    ensures whole { length buffer.new ≡ length buffer.old }
{
    zero_journal(cache, g, buffer)?;
    write_first(cache, g, entry, &mut buffer[..512 * usize::from(g.block)])
}
