//! Journals of a few entries, whose bytes are made apart from the writer's crate, and each refusal.
ghost use Rattle.std.specs.Prelude.{◌≡◌, ◌+◌, ◌*◌};

use bc_bytes::{crc64, put_u16, put_u32, put_u64};
use bc_disk::disk::Disk;
use bc_disk::geometry::Geometry;
use bc_disk::mem_disk::MemDisk;
use bc_entries::{Journal, JournalError, read_journal};
use std::alloc::{AllocError, Global};
use std::process::Abort;
use std::test::Fail;

/// The sectors of the device: 128 buckets of 64.
const SECTORS: usize = 8192;

/// How many keys of two words fill a bucket of 64 sectors with one entry.
const FULL: usize = 2033;

/// The first of the numbers that are kept for the end.
const LAST: u64 = (1 << 63) - 2;

/// An entry: its first sector, its number, the oldest one that it needs, and how many keys it has.
type Put = (usize, u64, u64, usize);

// How the device is divided. The journal has the buckets 1 to 8, sectors 64 to 575.
fn device() -> Geometry
    ensures { result.bucket * result.nbuckets ≡ 8192 }
{
    Geometry {
        block: 1,
        bucket: 64,
        nbuckets: 128,
        first_bucket: 1,
        journal: 8,
        set_magic: 1,
        node_sectors: 64,
    }
}

// Puts an entry into the bytes of the device. Its keys are of eight sectors and have no pointer.
fn put(rt: &impl Abort, bytes: &mut [u8], entry: Put) {
    let (sector, seq, last_seq, keys) = entry;
    assert!(rt; bytes.len() == 512 * SECTORS && sector < SECTORS - 64 && keys <= FULL);
    let at = 512 * sector;
    let end = at + 240 + 16 * keys;
    put_u64(bytes, at + 8, 1 ^ 0x2452_35c1_a362_5032);
    put_u64(bytes, at + 16, seq);
    put_u32(bytes, at + 24, 1);
    put_u32(bytes, at + 28, 2 * keys as u32);
    put_u64(bytes, at + 32, last_seq);
    put_u16(bytes, at + 168, 1);
    for i in 0..keys {
        put_u64(bytes, at + 240 + 16 * i, 8 << 20);
        put_u64(bytes, at + 248 + 16 * i, 8 * (i as u64 + 1));
    }
    let checksum = crc64(u64::MAX, &bytes[at + 8..end]);
    put_u64(bytes, at, checksum);
}

// A device that has these entries, of which the sector with this number was lost again.
fn disk(
    rt: &impl Abort,
    alloc: Global,
    entries: &[Put],
    lost: usize,
) -> Result<MemDisk, AllocError> {
    let mut bytes = vec![in alloc; 0u8; 512 * SECTORS]?;
    for entry in entries {
        put(rt, &mut bytes, *entry);
    }
    assert!(rt; bytes.len() == 512 * SECTORS && lost < SECTORS);
    bytes[512 * lost..512 * lost + 512].fill(0);
    MemDisk::new(alloc, bytes, 0)
}

// The places and numbers of the entries that count.
fn listed(alloc: Global, journal: &Journal) -> Result<Vec<(u64, u64)>, AllocError> {
    let mut entries = Vec::new(alloc);
    for i in 0..journal.len() {
        let entry = journal.entry(i);
        entries.push((entry.place, entry.item.seq))?;
    }
    Ok(entries)
}

#[test]
fn journals(rt: HostRuntime) -> Result<(), Fail> {
    for (entries, lost, counting, found) in [
        // Three in two buckets, the first of two sectors; the newest needs all, or the last two.
        (
            [(64, 5, 5, 20), (66, 6, 5, 0), (128, 7, 5, 0)],
            0,
            [(64, 5), (66, 6), (128, 7)].as_slice(),
            3,
        ),
        (
            [(64, 5, 5, 20), (66, 6, 5, 0), (128, 7, 6, 0)],
            0,
            [(66, 6), (128, 7)].as_slice(),
            3,
        ),
        // The newest is torn, and then the one before it, behind which nothing is found.
        (
            [(64, 5, 5, 0), (128, 6, 5, 0), (129, 7, 6, 20)],
            130,
            [(64, 5), (128, 6)].as_slice(),
            2,
        ),
        (
            [(64, 5, 5, 0), (65, 6, 6, 20), (67, 7, 7, 0)],
            66,
            [(64, 5)].as_slice(),
            1,
        ),
        // The ring went on in the first bucket, an older turn left an entry, and one stands twice.
        (
            [(64, 7, 6, 0), (512, 6, 5, 0), (448, 3, 3, 0)],
            0,
            [(512, 6), (64, 7)].as_slice(),
            3,
        ),
        (
            [(64, 6, 5, 0), (128, 5, 5, 0), (192, 6, 6, 0)],
            0,
            [(128, 5), (64, 6)].as_slice(),
            3,
        ),
        // The newest fills its bucket, and no entry in the next one is needed.
        (
            [(64, 5, 5, 0), (512, 6, 6, FULL), (128, 4, 4, 0)],
            0,
            [(512, 6)].as_slice(),
            3,
        ),
        // One number is left.
        (
            [(64, 1, 1, 0), (65, LAST - 1, LAST - 1, 0), (66, 2, 1, 0)],
            0,
            [(65, LAST - 1)].as_slice(),
            3,
        ),
    ] {
        let g = device();
        let mut disk = disk(&rt, rt.alloc(), &entries, lost)?;
        assert_eq!(rt; disk.sectors(), 8192);
        let journal = read_journal(rt.alloc(), &mut disk, &g)?;
        assert_eq!(rt; listed(rt.alloc(), &journal)?.as_slice(), counting);
        assert_eq!(rt; (journal.all().len(), disk.calls()), (found, 8));
    }
    Ok(())
}

#[test]
fn refused_journals(rt: HostRuntime) -> Result<(), Fail> {
    for (entries, lost, error) in [
        // The only entry is torn; it stands outside the journal's buckets, or not at its first sector.
        ([(64, 5, 5, 0); 3], 64, JournalError::NoJournal),
        ([(576, 5, 5, 0); 3], 0, JournalError::NoJournal),
        ([(65, 5, 5, 0); 3], 0, JournalError::NoJournal),
        (
            [(64, 5, 5, 0), (128, 9, 5, 0), (192, 7, 5, 0)],
            0,
            JournalError::Gap { from: 6, to: 6 },
        ),
        (
            [(64, 5, 5, 0), (128, 9, 4, 0), (192, 3, 3, 0)],
            0,
            JournalError::Gap { from: 4, to: 4 },
        ),
        (
            [(64, 5, 5, 0), (65, 9, 5, 0), (192, 3, 3, 0)],
            0,
            JournalError::Gap { from: 6, to: 8 },
        ),
        (
            [(64, 5, 5, 0), (65, 6, 8, 0), (66, 3, 3, 0)],
            0,
            JournalError::Gap { from: 6, to: 8 },
        ),
        ([(64, LAST, LAST, 0); 3], 0, JournalError::End { seq: LAST }),
        // The newest fills its bucket, and one in the next one is needed.
        (
            [(64, 5, 5, 0), (512, 6, 5, FULL), (128, 4, 4, 0)],
            0,
            JournalError::End { seq: 6 },
        ),
    ] {
        let g = device();
        let mut disk = disk(&rt, rt.alloc(), &entries, lost)?;
        assert_eq!(rt; disk.sectors(), 8192);
        let refused = read_journal(rt.alloc(), &mut disk, &g).err();
        assert_eq!(rt; refused, Some(error));
        disk.fail(10)?;
        let failed = read_journal(rt.alloc(), &mut disk, &g).err();
        assert_eq!(rt; (failed, disk.calls()), (Some(JournalError::Fault), 10));
    }
    Ok(())
}
