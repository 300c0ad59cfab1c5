//! A device that is opened over and over, and calls that fail on the way.
ghost use Rattle.std.specs.Prelude.{◌≡◌, ◌*◌};

use crate::{EnterError, enter};
use bc_bytes::{crc64, put_u16, put_u32, put_u64};
use bc_disk::crash::Pick;
use bc_disk::disk::Disk;
use bc_disk::geometry::Geometry;
use bc_disk::mem_disk::MemDisk;
use bc_entries::read_journal;
use std::alloc::{AllocError, Global};
use std::process::Abort;
use std::test::Fail;

/// The sectors of the device: 128 buckets of 64.
const SECTORS: usize = 8192;

/// How often the device is called as its journal is read.
const READS: u64 = 8;

// How the device is divided. The journal has the buckets 1 to 8, sectors 64 to 575.
fn device() -> Geometry
    ensures { result.bucket * result.nbuckets ≡ 8192 }
{
    Geometry {
        block: 1,
        bucket: 64,
        nbuckets: 128,
        first_bucket: 1,
        journal: 8,
        set_magic: 1,
        node_sectors: 64,
    }
}

// Puts an entry of number 5, which needs itself, into the bytes of the device. It has so many keys of
// eight sectors without a pointer.
fn put(rt: &impl Abort, bytes: &mut [u8], keys: usize) {
    assert!(rt; bytes.len() == 512 * SECTORS && keys <= 9);
    let at = 512 * 64;
    let end = at + 240 + 16 * keys;
    put_u64(bytes, at + 8, 1 ^ 0x2452_35c1_a362_5032);
    put_u64(bytes, at + 16, 5);
    put_u32(bytes, at + 24, 1);
    put_u32(bytes, at + 28, 2 * keys as u32);
    put_u64(bytes, at + 32, 5);
    put_u16(bytes, at + 168, 1);
    for i in 0..keys {
        put_u64(bytes, at + 240 + 16 * i, 8 << 20);
        put_u64(bytes, at + 248 + 16 * i, 8 * (i as u64 + 1));
    }
    let checksum = crc64(u64::MAX, &bytes[at + 8..end]);
    put_u64(bytes, at, checksum);
}

// A device with that entry.
fn disk(rt: &impl Abort, alloc: Global, keys: usize) -> Result<MemDisk, AllocError> {
    let mut bytes = vec![in alloc; 0u8; 512 * SECTORS]?;
    put(rt, &mut bytes, keys);
    assert!(rt; bytes.len() == 512 * SECTORS);
    MemDisk::new(alloc, bytes, 8)
}

// Opens the device once, and answers the numbers of the new entry and of the oldest one that it needs.
fn open(rt: &impl Abort, alloc: Global, disk: &mut MemDisk) -> Result<(u64, u64), Fail> {
    let g = device();
    assert_eq!(rt; disk.sectors(), 8192);
    let read = read_journal(alloc, disk, &g)?;
    assert_eq!(rt; disk.sectors(), 8192);
    let journal = enter(alloc, disk, &g, &read)?;
    Ok((journal.durable(), journal.needed()))
}

// The number of the newest entry on the device.
fn newest(rt: &impl Abort, alloc: Global, disk: &mut MemDisk) -> Result<u64, Fail> {
    assert_eq!(rt; disk.sectors(), 8192);
    let read = read_journal(alloc, disk, &device())?;
    let count = read.len();
    assert!(rt; 0 < count);
    Ok(read.entry(count - 1).item.seq)
}

#[test]
fn ring_goes_around(rt: HostRuntime) -> Result<(), Fail> {
    let mut disk = disk(&rt, rt.alloc(), 0)?;
    for number in 6..1100u64 {
        assert_eq!(rt; open(&rt, rt.alloc(), &mut disk)?, (number, number));
    }
    Ok(())
}

#[test]
fn keys_stay_needed(rt: HostRuntime) -> Result<(), Fail> {
    let mut disk = disk(&rt, rt.alloc(), 3)?;
    assert_eq!(rt; open(&rt, rt.alloc(), &mut disk)?, (6, 5));
    assert_eq!(rt; open(&rt, rt.alloc(), &mut disk)?, (7, 5));
    Ok(())
}

#[test]
fn each_call_fails(rt: HostRuntime) -> Result<(), Fail> {
    let g = device();
    for call in READS + 1..READS + 4 {
        for pick in [Pick::Stable, Pick::Newest] {
            let mut disk = disk(&rt, rt.alloc(), 3)?;
            disk.fail(call)?;
            assert_eq!(rt; disk.sectors(), 8192);
            let read = read_journal(rt.alloc(), &mut disk, &g)?;
            assert_eq!(rt; disk.sectors(), 8192);
            let entered = enter(rt.alloc(), &mut disk, &g, &read);
            assert!(rt; matches!(entered, Err(EnterError::Fault)));
            assert_eq!(rt; (disk.calls(), disk.faults()), (call, 1));
            let number = newest(&rt, rt.alloc(), &mut disk.crash(pick)?)?;
            assert!(rt; number == 5 || number == 6 && READS + 1 < call && pick == Pick::Newest);
        }
    }
    Ok(())
}
