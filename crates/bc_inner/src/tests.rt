//! Inner nodes whose bytes are made apart from the writers, one that is written and read again, and
//! each refusal.
use crate::Inner;
use bc_bytes::{crc64, put_u32, put_u64};
use bc_disk::disk::Disk;
use bc_disk::geometry::Geometry;
use bc_disk::mem_disk::MemDisk;
use bc_key::{Key, Ptr};
use bc_keys::Keys;
use bc_node::NodeError;
use bc_set::SetError;
use std::alloc::{AllocError, Global};
use std::process::Abort;
use std::test::Fail;

/// The sectors of the device: 128 buckets of 64.
const SECTORS: usize = 8192;

/// The bytes of a node.
const NODE: usize = 32_768;

/// Where the range of a node begins and ends.
const RANGE: (u64, u64) = (256, 1024);

/// A child: the end of its range and its bucket, or 0 for a key without pointers.
type Child = (u64, u64);

/// A set: its first sector, its number, and its keys.
type Put<'a> = (usize, u64, &'a [Child]);

// How the device is divided.
fn device() -> Geometry {
    Geometry {
        block: 1,
        bucket: 64,
        nbuckets: 128,
        first_bucket: 1,
        journal: 8,
        set_magic: 1,
        node_sectors: 64,
    }
}

// Puts a set into the bytes of the device, one of the node in the bucket of its first sector.
fn put(rt: &impl Abort, bytes: &mut [u8], set: Put) {
    let (sector, seq, children) = set;
    assert!(rt; bytes.len() == 512 * SECTORS && sector < SECTORS - 64);
    let at = 512 * sector;
    let mut end = at + 32;
    for (child_end, bucket) in children {
        assert!(rt; end < at + NODE - 24 && *bucket < 128);
        let pointers = u64::from(*bucket > 0);
        put_u64(bytes, end, (pointers << 60) | (64 << 20));
        put_u64(bytes, end + 8, *child_end);
        put_u64(bytes, end + 16, (64 * *bucket) << 8);
        end += 16 + 8 * pointers as usize;
    }
    assert!(rt; at + 32 <= end && end <= bytes.len());
    put_u64(bytes, at + 8, 1 ^ 0x9013_5c78_b99e_07f5);
    put_u64(bytes, at + 16, seq);
    put_u32(bytes, at + 24, 1);
    put_u32(bytes, at + 28, ((end - at - 32) / 8) as u32);
    let start = (sector as u64 - sector as u64 % 64) << 8;
    let checksum = crc64(start, &bytes[at + 8..end]);
    put_u64(bytes, at, checksum);
}

// A device that has these sets.
fn disk(rt: &impl Abort, alloc: Global, sets: &[Put]) -> Result<MemDisk, AllocError> {
    let mut bytes = vec![in alloc; 0u8; 512 * SECTORS]?;
    for set in sets {
        put(rt, &mut bytes, *set);
    }
    assert!(rt; bytes.len() == 512 * SECTORS);
    MemDisk::new(alloc, bytes, 200)
}

// The key of a child.
fn key((end, bucket): Child) -> Key {
    if bucket == 0 {
        return Key::new(end, 64, false, None);
    }
    let ptr = Ptr {
        dev: 0,
        offset: (bucket % 128) * 64,
        generation: 0,
    };
    Key::new(end, 64, false, Some(ptr))
}

// Whether these are the keys of the children.
fn are(keys: &[Key], children: &[Child]) -> bool {
    if keys.len() != children.len() {
        return false;
    }
    for (got, child) in keys.iter().zip(children) {
        if *got != key(*child) {
            return false;
        }
    }
    true
}

// The inner node of this range and of level 1 in a bucket.
fn load(
    rt: &impl Abort,
    alloc: Global,
    disk: &mut MemDisk,
    bucket: u64,
) -> Result<Inner, NodeError> {
    let key = key((RANGE.1, bucket));
    let g = device();
    assert!(rt; key.count > 0);
    assert!(rt; key.ptrs[0].offset + u64::from(g.node_sectors) <= disk.sectors());
    Inner::load(alloc, disk, &g, &key, 1, RANGE.0)
}

#[test]
fn children(rt: HostRuntime) -> Result<(), Fail> {
    let first = (704, 7, [(512, 20), (768, 21), (1024, 22)].as_slice());
    for (set, wanted, places, taken) in [
        // A later set takes the first child away, puts another in the place of the last, or one
        // between two.
        (
            (705, 7, [(512, 0)].as_slice()),
            [(768, 21), (1024, 22)].as_slice(),
            (0, 0, 1),
            2,
        ),
        (
            (705, 7, [(1024, 30)].as_slice()),
            [(512, 20), (768, 21), (1024, 30)].as_slice(),
            (0, 1, 2),
            2,
        ),
        (
            (705, 7, [(512, 30), (768, 0), (1024, 31)].as_slice()),
            [(512, 30), (1024, 31)].as_slice(),
            (0, 1, 1),
            2,
        ),
        // It has another number.
        ((705, 8, [(512, 0)].as_slice()), first.2, (0, 1, 2), 1),
    ] {
        let mut disk = disk(&rt, rt.alloc(), &[first, set])?;
        let node = load(&rt, rt.alloc(), &mut disk, 11)?;
        assert!(rt; are(node.children(), wanted));
        assert_eq!(rt; (node.level(), node.from(), node.end()), (1, 256, 1024));
        assert_eq!(rt;
            (node.seq(), node.taken(), node.is_loaded()),
            (7, taken, true)
        );
        assert!(rt; node.from() == 256 && node.end() == 1024);
        let found = (node.place_of(256), node.place_of(512), node.place_of(1023));
        assert_eq!(rt; found, places);
    }
    Ok(())
}

#[test]
fn refused_nodes(rt: HostRuntime) -> Result<(), Fail> {
    let whole = [(512, 20), (1024, 21)].as_slice();
    for (first, second, error) in [
        // Out of order, in the set or behind the node; a range that isn't covered up to its end, by
        // any set or by all; an end that is no multiple of 256 sectors, one below, or one behind.
        (
            [(1024, 20), (512, 21)].as_slice(),
            whole,
            NodeError::First(SetError::Order),
        ),
        (
            [(512, 20), (512, 21)].as_slice(),
            whole,
            NodeError::First(SetError::Order),
        ),
        (
            [(512, 20), (768, 21)].as_slice(),
            [].as_slice(),
            NodeError::Ranges,
        ),
        (whole, [(1024, 0)].as_slice(), NodeError::Ranges),
        (whole, [(600, 22)].as_slice(), NodeError::Ranges),
        (whole, [(256, 22)].as_slice(), NodeError::Ranges),
        (whole, [(1280, 0)].as_slice(), NodeError::Ranges),
        ([].as_slice(), [].as_slice(), NodeError::Ranges),
    ] {
        let mut disk = disk(&rt, rt.alloc(), &[(704, 7, first), (705, 7, second)])?;
        let refused = load(&rt, rt.alloc(), &mut disk, 11).err();
        assert_eq!(rt; refused, Some(error));
        let empty = load(&rt, rt.alloc(), &mut disk, 12).err();
        assert_eq!(rt; empty, Some(NodeError::First(SetError::Magic)));
        disk.fail(3)?;
        let failed = load(&rt, rt.alloc(), &mut disk, 11).err();
        assert_eq!(rt; (failed, disk.calls()), (Some(NodeError::Fault), 3));
    }
    Ok(())
}

// A buffer of a node.
fn buffer(alloc: Global) -> Result<Vec<u8>, AllocError> {
    vec![in alloc; 0xaau8; NODE]
}

// A node in a bucket that has nothing, with the range and the children of another.
fn empty(
    rt: &impl Abort,
    alloc: Global,
    like: &Inner,
    bucket: u64,
    seq: u64,
) -> Result<Inner, Fail> {
    let children = Keys::from_vec(Vec::from_slice(alloc, like.children())?);
    let at = key((RANGE.1, bucket));
    assert!(rt; at.count > 0 && at.end == like.end());
    Ok(Inner::new(alloc, &at, 1, like.from(), seq, children))
}

// Writes its first set.
fn write(rt: &impl Abort, alloc: Global, node: &mut Inner, disk: &mut MemDisk) -> Result<(), Fail> {
    let g = device();
    let mut buffer = buffer(alloc)?;
    assert!(rt; buffer.len() == 512 * usize::from(g.node_sectors));
    assert!(rt; node.length() <= 512 * usize::from(g.node_sectors));
    assert!(rt; node.ptr().offset + u64::from(g.node_sectors) <= disk.sectors());
    assert!(rt; node.taken() == 0);
    assert!(rt; node.write(disk, &g, &mut buffer).is_ok());
    Ok(())
}

// Writes a further one.
fn append(
    rt: &impl Abort,
    alloc: Global,
    node: &mut Inner,
    disk: &mut MemDisk,
    keys: &[Key],
) -> Result<(), Fail> {
    let g = device();
    let mut buffer = buffer(alloc)?;
    assert!(rt; buffer.len() == 512 * usize::from(g.node_sectors));
    assert!(rt; node.ptr().offset + u64::from(g.node_sectors) <= disk.sectors());
    assert!(rt; node.fits(&g, keys) && !node.is_loaded() && node.taken() > 0);
    assert!(rt; node.append(disk, &g, keys, &mut buffer).is_ok());
    Ok(())
}

#[test]
fn written_nodes(rt: HostRuntime) -> Result<(), Fail> {
    let alloc = rt.alloc();
    // Behind the new node's place is a set of an earlier use of the bucket, of its number. It is gone
    // when the first set is written.
    let old = [(512, 20), (1024, 21)].as_slice();
    let mut disk = disk(&rt, alloc, &[(704, 7, old), (769, 9, old)])?;
    let like = load(&rt, alloc, &mut disk, 11)?;
    let mut node = empty(&rt, alloc, &like, 12, 9)?;
    write(&rt, alloc, &mut node, &mut disk)?;
    let found = load(&rt, alloc, &mut disk, 12)?;
    assert!(rt; are(found.children(), old));
    assert_eq!(rt; (found.seq(), found.taken(), node.taken()), (9, 1, 1));

    append(
        &rt,
        alloc,
        &mut node,
        &mut disk,
        &[key((512, 0)), key((768, 30))],
    )?;
    let found = load(&rt, alloc, &mut disk, 12)?;
    assert!(rt; are(found.children(), &[(768, 30), (1024, 21)]));
    // Those in memory stay until they are put.
    assert!(rt; are(node.children(), old));
    assert_eq!(rt; (found.taken(), node.taken()), (2, 2));
    Ok(())
}
