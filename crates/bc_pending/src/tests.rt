//! Two entries whose keys reach over the end of a leaf.
ghost use Rattle.std.specs.Prelude.{◌≡◌, ◌*◌};
ghost use Rattle.bc_pending.specs.Pieces.{AreInRow};

use crate::{Pending, pending_of};
use bc_bytes::{crc64, put_u16, put_u32, put_u64};
use bc_disk::disk::Disk;
use bc_disk::geometry::Geometry;
use bc_disk::mem_disk::MemDisk;
use bc_entries::read_journal;
use bc_key::Ptr;
use bc_spine::LeafRange;
use std::alloc::{AllocError, Global};
use std::process::Abort;
use std::test::Fail;

/// The sectors of the device: 128 buckets of 64.
const SECTORS: usize = 8192;

// How the device is divided. The journal has the buckets 1 to 8, sectors 64 to 575.
fn device() -> Geometry
    ensures { result.bucket * result.nbuckets ≡ 8192 }
{
    Geometry {
        block: 1,
        bucket: 64,
        nbuckets: 128,
        first_bucket: 1,
        journal: 8,
        set_magic: 1,
        node_sectors: 64,
    }
}

// Puts an entry into the bytes of the device. Its keys are of eight sectors, one behind the other from
// sector 0 on, and have no pointer.
fn put(rt: &impl Abort, bytes: &mut [u8], sector: usize, seq: u64, keys: usize) {
    assert!(rt; bytes.len() == 512 * SECTORS && sector < SECTORS - 64 && keys <= 9);
    let at = 512 * sector;
    let end = at + 240 + 16 * keys;
    put_u64(bytes, at + 8, 1 ^ 0x2452_35c1_a362_5032);
    put_u64(bytes, at + 16, seq);
    put_u32(bytes, at + 24, 1);
    put_u32(bytes, at + 28, 2 * keys as u32);
    put_u64(bytes, at + 32, 5);
    put_u16(bytes, at + 168, 1);
    for i in 0..keys {
        put_u64(bytes, at + 240 + 16 * i, 8 << 20);
        put_u64(bytes, at + 248 + 16 * i, 8 * (i as u64 + 1));
    }
    let checksum = crc64(u64::MAX, &bytes[at + 8..end]);
    put_u64(bytes, at, checksum);
}

fn disk(rt: &impl Abort, alloc: Global) -> Result<MemDisk, AllocError> {
    let mut bytes = vec![in alloc; 0u8; 512 * SECTORS]?;
    put(rt, &mut bytes, 64, 5, 3);
    put(rt, &mut bytes, 65, 6, 2);
    assert!(rt; bytes.len() == 512 * SECTORS);
    MemDisk::new(alloc, bytes, 0)
}

// Two leaves, of which the first ends at sector 12.
fn leaves() -> [LeafRange; 2]
    ensures { AreInRow result }
{
    let first = LeafRange {
        number: 0,
        from: 0,
        end: 12,
        ptr: Ptr::ZERO,
    };
    let second = LeafRange {
        number: 1,
        from: 12,
        end: 1 << 40,
        ptr: Ptr::ZERO,
    };
    [first, second]
}

// The end, the size and the entry of each key, list after list.
fn listed(alloc: Global, lists: &[Pending]) -> Result<Vec<(usize, u64, u16, u64)>, AllocError> {
    let mut keys = Vec::new(alloc);
    for (leaf, list) in lists.iter().enumerate() {
        for key in list.as_slice() {
            keys.push((leaf, key.key.end, key.key.size, key.entry))?;
        }
    }
    Ok(keys)
}

#[test]
fn pieces(rt: HostRuntime) -> Result<(), Fail> {
    let g = device();
    let mut disk = disk(&rt, rt.alloc())?;
    assert_eq!(rt; disk.sectors(), 8192);
    let journal = read_journal(rt.alloc(), &mut disk, &g)?;
    let lists = pending_of(rt.alloc(), &leaves(), &journal)?;
    let expected = [
        (0, 8, 8, 5),
        (0, 12, 4, 5),
        (0, 8, 8, 6),
        (0, 12, 4, 6),
        (1, 16, 4, 5),
        (1, 24, 8, 5),
        (1, 16, 4, 6),
    ];
    assert_eq!(rt; listed(rt.alloc(), &lists)?.as_slice(), expected.as_slice());
    Ok(())
}
