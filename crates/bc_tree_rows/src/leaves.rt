//! Leaves whose bytes are made apart from the writers, leaves that are written and read again, and
//! each refusal.
ghost use Rattle.std.specs.Prelude.{◌<◌, length};

use bc_bytes::{crc64, put_u32, put_u64};
use bc_disk::disk::Disk;
use bc_disk::geometry::Geometry;
use bc_disk::mem_disk::MemDisk;
use bc_extent::Extents;
use bc_key::{Key, Ptr};
use bc_keys::are_extents;
use bc_node::{Leaf, NodeError, are_within};
use bc_set::SetError;
use std::alloc::{AllocError, Global};
use std::process::Abort;
use std::test::Fail;

/// The sectors of the device: 128 buckets of 64.
const SECTORS: usize = 8192;

/// The bytes of a node.
const NODE: usize = 32_768;

/// Where a leaf's range begins and ends.
const RANGE: (u64, u64) = (256, 512);

/// A range of sectors up to one, and where its data lies, or 0 for a key without pointers.
type Extent = (u64, u16, u64);

/// A set: its first sector, its number, and its keys.
type Put<'a> = (usize, u64, &'a [Extent]);

// How the device is divided.
fn device() -> Geometry {
    Geometry {
        block: 1,
        bucket: 64,
        nbuckets: 128,
        first_bucket: 1,
        journal: 8,
        set_magic: 1,
        node_sectors: 64,
    }
}

// Puts a set into the bytes of the device, one of the node in the bucket of its first sector.
fn put(rt: &impl Abort, bytes: &mut [u8], set: Put) {
    let (sector, seq, keys) = set;
    assert!(rt; bytes.len() == 512 * SECTORS && sector < SECTORS - 64);
    let at = 512 * sector;
    let mut end = at + 32;
    for (key_end, size, place) in keys {
        assert!(rt; end < at + NODE - 24);
        let pointers = u64::from(*place > 0);
        put_u64(bytes, end, (pointers << 60) | (u64::from(*size) << 20));
        put_u64(bytes, end + 8, *key_end);
        put_u64(bytes, end + 16, *place << 8);
        end += 16 + 8 * pointers as usize;
    }
    assert!(rt; at + 32 <= end && end <= bytes.len());
    put_u64(bytes, at + 8, 1 ^ 0x9013_5c78_b99e_07f5);
    put_u64(bytes, at + 16, seq);
    put_u32(bytes, at + 24, 1);
    put_u32(bytes, at + 28, ((end - at - 32) / 8) as u32);
    let start = (sector as u64 - sector as u64 % 64) << 8;
    let checksum = crc64(start, &bytes[at + 8..end]);
    put_u64(bytes, at, checksum);
}

// Changes a bit of a byte.
fn flip(bytes: &mut [u8], place: usize)
    requires { place < length bytes.old }
{
    bytes[place] ^= 2;
}

// A device that has these sets, and of which one byte was changed.
fn disk(
    rt: &impl Abort,
    alloc: Global,
    sets: &[Put],
    changed: usize,
) -> Result<MemDisk, AllocError> {
    let mut bytes = vec![in alloc; 0u8; 512 * SECTORS]?;
    for set in sets {
        put(rt, &mut bytes, *set);
    }
    assert!(rt; changed < bytes.len());
    flip(&mut bytes, changed);
    assert!(rt; bytes.len() == 512 * SECTORS);
    MemDisk::new(alloc, bytes, 200)
}

// Where a bucket begins.
fn place(bucket: u16) -> Ptr {
    Ptr {
        dev: 0,
        offset: 64 * u64::from(bucket),
        generation: 0,
    }
}

// The leaf of this range in a bucket.
fn load(
    rt: &impl Abort,
    alloc: Global,
    disk: &mut MemDisk,
    bucket: u16,
) -> Result<Leaf, NodeError> {
    let key = Key::new(RANGE.1, 64, false, Some(place(bucket)));
    let g = device();
    assert!(rt; key.count > 0);
    assert!(rt; key.ptrs[0].offset + u64::from(g.node_sectors) <= disk.sectors());
    Leaf::load(alloc, disk, &g, &key, RANGE.0)
}

// The key of an extent.
fn key((end, size, at): Extent) -> Key {
    if at == 0 {
        return Key::new(end, size, false, None);
    }
    let ptr = Ptr {
        dev: 0,
        offset: at % (1 << 43),
        generation: 0,
    };
    Key::new(end, size, false, Some(ptr))
}

// Whether these are the keys.
fn are(keys: &Extents, wanted: &[Extent]) -> bool {
    if keys.len() != wanted.len() {
        return false;
    }
    for i in 0..keys.len() {
        if i >= wanted.len() || keys.key(i) != key(wanted[i]) {
            return false;
        }
    }
    true
}

#[test]
fn last_keys(rt: HostRuntime) -> Result<(), Fail> {
    let first = (704, 7, [(264, 8, 4096), (288, 16, 4104)].as_slice());
    for (sets, changed, keys, taken) in [
        // A later set lies over the end of one key and the begin of the other, or hides them there.
        (
            [first, (705, 7, [(276, 16, 5000)].as_slice())],
            0,
            [(260, 4, 4096), (276, 16, 5000), (288, 12, 4108)].as_slice(),
            2,
        ),
        (
            [first, (705, 7, [(276, 16, 0)].as_slice())],
            0,
            [(260, 4, 4096), (288, 12, 4108)].as_slice(),
            2,
        ),
        // It has another number, isn't at the next block, or is torn.
        (
            [first, (705, 8, [(276, 16, 5000)].as_slice())],
            0,
            first.2,
            1,
        ),
        (
            [first, (706, 7, [(276, 16, 5000)].as_slice())],
            0,
            first.2,
            1,
        ),
        (
            [first, (705, 7, [(276, 16, 5000)].as_slice())],
            705 * 512 + 40,
            first.2,
            1,
        ),
    ] {
        let mut disk = disk(&rt, rt.alloc(), &sets, changed)?;
        let leaf = load(&rt, rt.alloc(), &mut disk, 11)?;
        assert!(rt; are(leaf.keys(), keys));
        assert_eq!(rt;
            (leaf.from(), leaf.end(), leaf.ptr()),
            (256, 512, place(11))
        );
        assert_eq!(rt;
            (leaf.seq(), leaf.taken(), leaf.is_loaded()),
            (7, taken, true)
        );
        assert!(rt; leaf.pending().is_empty() && leaf.entries().is_none());
    }
    Ok(())
}

#[test]
fn refused_leaves(rt: HostRuntime) -> Result<(), Fail> {
    let good = (704, 7, [(264, 8, 4096)].as_slice());
    for (sets, changed, error) in [
        (
            [(703, 7, good.2), good],
            704 * 512 + 8,
            NodeError::First(SetError::Magic),
        ),
        (
            [(703, 7, good.2), good],
            704 * 512 + 24,
            NodeError::First(SetError::Version),
        ),
        (
            [(703, 7, good.2), good],
            704 * 512 + 40,
            NodeError::First(SetError::Checksum),
        ),
        (
            [(703, 7, good.2), (704, 7, [(264, 300, 4096)].as_slice())],
            0,
            NodeError::First(SetError::Key),
        ),
        (
            [good, (704, 7, [(264, 8, 4096), (264, 8, 4104)].as_slice())],
            0,
            NodeError::First(SetError::Order),
        ),
        // A key begins below the range, or ends behind it, in any set, or has no pointer.
        (
            [good, (705, 7, [(260, 8, 4096)].as_slice())],
            0,
            NodeError::Ranges,
        ),
        (
            [good, (705, 7, [(513, 8, 4096)].as_slice())],
            0,
            NodeError::Ranges,
        ),
        (
            [good, (704, 7, [(520, 8, 0)].as_slice())],
            0,
            NodeError::Ranges,
        ),
    ] {
        let mut disk = disk(&rt, rt.alloc(), &sets, changed)?;
        let refused = load(&rt, rt.alloc(), &mut disk, 11).err();
        assert_eq!(rt; refused, Some(error));
        disk.fail(2)?;
        let failed = load(&rt, rt.alloc(), &mut disk, 11).err();
        assert_eq!(rt; (failed, disk.calls()), (Some(NodeError::Fault), 2));
    }
    Ok(())
}

// Adds keys that this entry of the journal holds.
fn add(rt: &impl Abort, leaf: &mut Leaf, extents: &[Extent], entry: u64) -> Result<(), Fail> {
    for extent in extents {
        let keys = [key(*extent)];
        leaf.reserve(1)?;
        assert!(rt; keys.len() <= leaf.spare());
        assert!(rt; are_extents(&keys) && are_within(leaf.from(), leaf.end(), &keys));
        leaf.add(&keys, entry);
    }
    Ok(())
}

// A buffer of a node.
fn buffer(alloc: Global) -> Result<Vec<u8>, AllocError> {
    vec![in alloc; 0xaau8; NODE]
}

// Writes what is pending.
fn append(rt: &impl Abort, alloc: Global, leaf: &mut Leaf, disk: &mut MemDisk) -> Result<(), Fail> {
    let g = device();
    let mut buffer = buffer(alloc)?;
    assert!(rt; buffer.len() == 512 * usize::from(g.node_sectors));
    assert!(rt; leaf.ptr().offset + u64::from(g.node_sectors) <= disk.sectors());
    assert!(rt; !leaf.is_full(&g) && !leaf.is_loaded());
    assert!(rt; leaf.append(disk, &g, &mut buffer).is_ok());
    Ok(())
}

// Writes it anew into a bucket, with this number.
fn rewrite(
    rt: &impl Abort,
    alloc: Global,
    leaf: &mut Leaf,
    disk: &mut MemDisk,
    bucket: u16,
    seq: u64,
) -> Result<(), Fail> {
    let g = device();
    let to = place(bucket);
    let mut buffer = buffer(alloc)?;
    assert!(rt; buffer.len() == 512 * usize::from(g.node_sectors));
    assert!(rt; leaf.length() <= 512 * usize::from(g.node_sectors));
    assert!(rt; to.offset + u64::from(g.node_sectors) <= disk.sectors());
    assert!(rt; leaf.rewrite(disk, &g, &to, seq, &mut buffer).is_ok());
    Ok(())
}

// A leaf in a bucket that has nothing.
fn empty(rt: &impl Abort, alloc: Global, bucket: u16, seq: u64) -> Leaf {
    let key = Key::new(RANGE.1, 64, false, Some(place(bucket)));
    assert!(rt; key.count > 0);
    Leaf::new(alloc, &key, RANGE.0, seq)
}

// The leaf that the device has in a bucket, of this number, keys and sectors.
fn read(
    rt: &impl Abort,
    alloc: Global,
    disk: &mut MemDisk,
    bucket: u16,
    told: (u64, u16),
    keys: &[Extent],
) -> Result<Leaf, Fail> {
    let leaf = load(rt, alloc, disk, bucket)?;
    assert!(rt; are(leaf.keys(), keys));
    assert_eq!(rt; (leaf.seq(), leaf.taken()), told);
    Ok(leaf)
}

// Adds keys that this entry of the journal holds, writes them, and reads the leaf: it has these keys
// in so many sectors.
fn test_append(
    rt: &impl Abort,
    alloc: Global,
    disk: &mut MemDisk,
    leaf: &mut Leaf,
    added: &[Extent],
    entry: u64,
    keys: &[Extent],
    taken: u16,
) -> Result<(), Fail> {
    add(rt, leaf, added, entry)?;
    append(rt, alloc, leaf, disk)?;
    assert!(rt; are(leaf.keys(), keys) && leaf.pending().is_empty());
    let bucket = (leaf.ptr().offset / 64 % 128) as u16;
    read(rt, alloc, disk, bucket, (leaf.seq(), taken), keys)?;
    Ok(())
}

/// What is added to a leaf in three steps, and its last keys behind each. A key without pointers is
/// carried by the set of the second.
const FIRST: [Extent; 2] = [(264, 8, 5000), (300, 4, 5008)];

const SECOND: [Extent; 2] = [(262, 2, 0), (400, 8, 5100)];

const THIRD: [Extent; 1] = [(264, 2, 6000)];

const BEHIND_SECOND: [Extent; 4] = [
    (260, 4, 5000),
    (264, 2, 5006),
    (300, 4, 5008),
    (400, 8, 5100),
];

const BEHIND_THIRD: [Extent; 4] = [
    (260, 4, 5000),
    (264, 2, 6000),
    (300, 4, 5008),
    (400, 8, 5100),
];

#[test]
fn written_leaves(rt: HostRuntime) -> Result<(), Fail> {
    let alloc = rt.alloc();
    // In the bucket are two sets of an earlier use of it, of which the second has the number of the
    // new leaf. It is gone when the first set is written.
    let old = [(264, 8, 4096)].as_slice();
    let mut disk = disk(&rt, alloc, &[(768, 3, old), (769, 9, old)], 0)?;
    let mut leaf = empty(&rt, alloc, 12, 9);
    test_append(&rt, alloc, &mut disk, &mut leaf, &FIRST, 20, &FIRST, 1)?;
    test_append(
        &rt,
        alloc,
        &mut disk,
        &mut leaf,
        &SECOND,
        21,
        &BEHIND_SECOND,
        2,
    )
}

#[test]
fn rewritten_leaves(rt: HostRuntime) -> Result<(), Fail> {
    let alloc = rt.alloc();
    let mut disk = disk(&rt, alloc, &[(704, 7, BEHIND_SECOND.as_slice())], 0)?;
    let mut leaf = load(&rt, alloc, &mut disk, 11)?;
    rewrite(&rt, alloc, &mut leaf, &mut disk, 13, 10)?;
    test_append(
        &rt,
        alloc,
        &mut disk,
        &mut leaf,
        &THIRD,
        22,
        &BEHIND_THIRD,
        2,
    )
}
