//! Walks through trees of two and of three levels, whose bytes are made apart from the writers'
//! crates, and through what is no tree.
ghost use Rattle.std.specs.Prelude.{◌≡◌, ◌*◌};

use bc_bytes::{crc64, put_u32, put_u64};
use bc_disk::disk::Disk;
use bc_disk::geometry::Geometry;
use bc_disk::mem_disk::MemDisk;
use bc_key::{Key, Ptr};
use bc_node::NodeError;
use bc_set::{Set, SetError};
use bc_walk::{Gather, Visit, WalkError, walk};
use std::alloc::{AllocError, Global};
use std::process::Abort;
use std::test::Fail;

/// The sectors of the device: 128 buckets of 64.
const SECTORS: usize = 8192;

/// Behind the last sector that there may be.
const END: u64 = 1 << 40;

/// Keys with one pointer, of a set that begins at a sector: the end, the size, and where it points.
type Put<'a> = (usize, &'a [(u64, u16, u64)]);

/// A set in a bucket that no key points to.
const OTHER: Put<'static> = (8000, &[]);

// How the device is divided. The data buckets are those from 9 on.
fn device() -> Geometry
    ensures { result.bucket * result.nbuckets ≡ 8192 }
{
    Geometry {
        block: 1,
        bucket: 64,
        nbuckets: 128,
        first_bucket: 1,
        journal: 8,
        set_magic: 1,
        node_sectors: 64,
    }
}

// Puts a set into the bytes of the device, one of the node in the bucket of its first sector.
fn put(rt: &impl Abort, bytes: &mut [u8], sector: usize, keys: &[(u64, u16, u64)]) {
    assert!(rt; bytes.len() == 512 * SECTORS && sector < SECTORS - 64 && keys.len() <= 4);
    let at = 512 * sector;
    put_u64(bytes, at + 8, 1 ^ 0x9013_5c78_b99e_07f5);
    put_u64(bytes, at + 16, 7);
    put_u32(bytes, at + 24, 1);
    put_u32(bytes, at + 28, 3 * keys.len() as u32);
    for i in 0..keys.len() {
        let (end, size, place) = keys[i];
        put_u64(bytes, at + 32 + 24 * i, (1 << 60) | (u64::from(size) << 20));
        put_u64(bytes, at + 40 + 24 * i, end);
        put_u64(bytes, at + 48 + 24 * i, place << 8);
    }
    let start = (sector as u64 - sector as u64 % 64) << 8;
    let checksum = crc64(start, &bytes[at + 8..at + 32 + 24 * keys.len()]);
    put_u64(bytes, at, checksum);
}

// A device that has these sets.
fn disk(rt: &impl Abort, alloc: Global, sets: &[Put]) -> Result<MemDisk, AllocError> {
    let mut bytes = vec![in alloc; 0u8; 512 * SECTORS]?;
    for (sector, keys) in sets {
        put(rt, &mut bytes, *sector, keys);
    }
    assert!(rt; bytes.len() == 512 * SECTORS);
    MemDisk::new(alloc, bytes, 0)
}

/// The keys that a walk handed on.
#[derive(Drop)]
struct Taken {
    keys: Vec<Key>,
}

impl Gather for Taken {
    ghost took = { λ _ _. Unit {0} };

    fn take(&mut self, sets: &[Set]) -> Result<(), AllocError> {
        for set in sets {
            self.keys.extend_from_slice(set.keys.as_slice())?;
        }
        Ok(())
    }
}

// The key of this end and size that points to a sector.
fn key(end: u64, size: u16, sector: u32) -> Key {
    let ptr = Ptr {
        dev: 0,
        offset: u64::from(sector),
        generation: 0,
    };
    Key::new(end, size, false, Some(ptr))
}

// A node of this level and range was read in a bucket.
fn met(level: u16, from: u64, end: u64, bucket: u16) -> Visit {
    Visit::Met {
        level,
        from,
        key: key(end, 64, 64 * u32::from(bucket)),
    }
}

// None was read there: one was before, or no node has a key like this.
fn again(end: u64, bucket: u16) -> Visit {
    Visit::Again {
        key: key(end, 64, 64 * u32::from(bucket)),
    }
}

fn barred(end: u64, size: u16, sector: u32) -> Visit {
    Visit::Barred {
        key: key(end, size, sector),
    }
}

#[test]
fn trees(rt: HostRuntime) -> Result<(), Fail> {
    for (level, sets, visits, keys) in [
        // The root in bucket 11 with two leaves, of which the first has two sets.
        (
            1,
            [
                (704, [(256, 64, 768), (END, 64, 832)].as_slice()),
                (768, [(8, 8, 4096), (200, 8, 4104)].as_slice()),
                (769, [(12, 8, 4112)].as_slice()),
                (832, [(264, 8, 4120)].as_slice()),
                OTHER,
                OTHER,
            ],
            [met(1, 0, END, 11), met(0, 0, 256, 12), met(0, 256, END, 13)].as_slice(),
            [(8, 4096), (200, 4104), (12, 4112), (264, 4120)].as_slice(),
        ),
        // A level more: the root has two inner nodes, of which the first has two leaves, one of them
        // empty.
        (
            2,
            [
                (704, [(512, 64, 768), (END, 64, 832)].as_slice()),
                (768, [(256, 64, 896), (512, 64, 960)].as_slice()),
                (832, [(END, 64, 1024)].as_slice()),
                (896, [].as_slice()),
                (960, [(264, 8, 4096)].as_slice()),
                (1024, [(520, 8, 4104), (END, 8, 4112)].as_slice()),
            ],
            [
                met(2, 0, END, 11),
                met(1, 0, 512, 12),
                met(0, 0, 256, 14),
                met(0, 256, 512, 15),
                met(1, 512, END, 13),
                met(0, 512, END, 16),
            ]
            .as_slice(),
            [(264, 4096), (520, 4104), (END, 4112)].as_slice(),
        ),
        // A leaf that has two keys, and nodes whose key leads back to the root, or nowhere.
        (
            1,
            [
                (
                    704,
                    [(256, 64, 768), (512, 64, 768), (END, 64, 704)].as_slice(),
                ),
                (768, [(8, 8, 4096)].as_slice()),
                OTHER,
                OTHER,
                OTHER,
                OTHER,
            ],
            [
                met(1, 0, END, 11),
                met(0, 0, 256, 12),
                again(512, 12),
                again(END, 11),
            ]
            .as_slice(),
            [(8, 4096)].as_slice(),
        ),
        (
            1,
            [
                (
                    704,
                    [(256, 64, 512), (512, 63, 768), (END, 64, 769)].as_slice(),
                ),
                (768, [(8, 8, 4096)].as_slice()),
                OTHER,
                OTHER,
                OTHER,
                OTHER,
            ],
            [
                met(1, 0, END, 11),
                barred(256, 64, 512),
                barred(512, 63, 768),
                barred(END, 64, 769),
            ]
            .as_slice(),
            [].as_slice(),
        ),
    ] {
        let g = device();
        let mut disk = disk(&rt, rt.alloc(), &sets)?;
        assert_eq!(rt; disk.sectors(), 8192);
        let mut taken = Taken {
            keys: Vec::new(rt.alloc()),
        };
        let root = key(END, 64, 704);
        let found = walk(rt.alloc(), &mut disk, &g, level, &root, &mut taken)?;
        assert_eq!(rt; found.as_slice(), visits);
        assert_eq!(rt; taken.keys.len(), keys.len());
        for (got, (end, place)) in taken.keys.iter().zip(keys) {
            assert_eq!(rt; *got, key(*end, 8, *place));
        }
    }
    Ok(())
}

#[test]
fn walks_that_end(rt: HostRuntime) -> Result<(), Fail> {
    for (sets, bucket, why) in [
        // No set at the second leaf's place; a key of it behind its range; the root ends early, or
        // not at a multiple of 256 sectors.
        (
            [
                (704, [(256, 64, 768), (END, 64, 832)].as_slice()),
                (768, [(8, 8, 4096)].as_slice()),
            ],
            13,
            NodeError::First(SetError::Magic),
        ),
        (
            [
                (704, [(256, 64, 768), (END, 64, 832)].as_slice()),
                (768, [(264, 8, 4096)].as_slice()),
            ],
            12,
            NodeError::Ranges,
        ),
        (
            [
                (704, [(256, 64, 768), (512, 64, 832)].as_slice()),
                (768, [(8, 8, 4096)].as_slice()),
            ],
            11,
            NodeError::Ranges,
        ),
        (
            [
                (704, [(250, 64, 768), (END, 64, 832)].as_slice()),
                (768, [(8, 8, 4096)].as_slice()),
            ],
            11,
            NodeError::Ranges,
        ),
    ] {
        let g = device();
        let mut disk = disk(&rt, rt.alloc(), &sets)?;
        assert_eq!(rt; disk.sectors(), 8192);
        let mut taken = Taken {
            keys: Vec::new(rt.alloc()),
        };
        let root = key(END, 64, 704);
        let ended = walk(rt.alloc(), &mut disk, &g, 1, &root, &mut taken).err();
        assert_eq!(rt; ended, Some(WalkError::Node { bucket, why }));
        // A root that ends elsewhere isn't read, and the next read fails.
        let early = key(512, 64, 704);
        let calls = disk.calls();
        let found = walk(rt.alloc(), &mut disk, &g, 1, &early, &mut taken)?;
        assert_eq!(rt; found.as_slice(), [barred(512, 64, 704)].as_slice());
        assert_eq!(rt; disk.calls(), calls);
        disk.stop_after(calls);
        let failed = walk(rt.alloc(), &mut disk, &g, 1, &root, &mut taken).err();
        assert_eq!(rt; failed, Some(WalkError::Fault));
    }
    Ok(())
}
