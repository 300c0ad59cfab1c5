//! Leaves whose sets are of version 0, made apart from the writers, which write version 1 alone.
use bc_bytes::{crc64, put_u32, put_u64};
use bc_disk::disk::Disk;
use bc_disk::geometry::Geometry;
use bc_disk::mem_disk::MemDisk;
use bc_key::{Key, Ptr};
use bc_node::{Leaf, NodeError};
use bc_set::SetError;
use std::alloc::Global;
use std::process::Abort;
use std::test::Fail;

/// Buckets of 64 sectors, of which a node takes one. The tests make the first two of them.
const DEVICE: Geometry = Geometry {
    block: 1,
    bucket: 64,
    nbuckets: 128,
    first_bucket: 1,
    journal: 8,
    set_magic: 1,
    node_sectors: 64,
};

/// What the checksum of a set begins with: all ones by version 0, and by version 1 the word of the
/// pointer to the node.
const ONES: u64 = u64::MAX;

const WORD: u64 = 64 << 8;

// The leaf from sector 256 up to 512, of one set in sector 64 that has one key.
fn load(
    rt: &impl Abort,
    alloc: Global,
    version: u32,
    start: u64,
) -> Result<Result<Leaf, NodeError>, Fail> {
    let mut set = [0u8; 56];
    put_u64(&mut set, 8, 1 ^ 0x9013_5c78_b99e_07f5);
    put_u64(&mut set, 16, 7);
    put_u32(&mut set, 24, version);
    put_u32(&mut set, 28, 3);
    put_u64(&mut set, 32, (1 << 60) | (8 << 20));
    put_u64(&mut set, 40, 264);
    put_u64(&mut set, 48, 4096 << 8);
    let checksum = crc64(start, &set[8..]);
    put_u64(&mut set, 0, checksum);
    let mut bytes = vec![in alloc; 0u8; 65_536]?;
    assert!(rt; bytes.len() == 65_536);
    bytes[32_768..32_824].copy_from_slice(&set);
    let mut disk = MemDisk::new(alloc, bytes, 10)?;
    let place = Ptr {
        dev: 0,
        offset: 64,
        generation: 0,
    };
    let key = Key::new(512, 64, false, Some(place));
    assert!(rt; key.count > 0);
    assert!(rt; key.ptrs[0].offset + 64 <= disk.sectors());
    Ok(Leaf::load(alloc, &mut disk, &DEVICE, &key, 256))
}

#[test]
fn sets_of_version_0_are_read(rt: HostRuntime) -> Result<(), Fail> {
    for (version, start) in [(0, ONES), (1, WORD)] {
        let leaf = load(&rt, rt.alloc(), version, start)??;
        assert_eq!(rt; (leaf.seq(), leaf.taken(), leaf.keys().len()), (7, 1, 1));
        assert!(rt; leaf.keys().len() > 0);
        let key = leaf.keys().key(0);
        assert_eq!(rt; (key.end, key.size, key.ptrs[0].offset), (264, 8, 4096));
    }
    for (version, start, error) in [
        (0, WORD, SetError::Checksum),
        (1, ONES, SetError::Checksum),
        (2, ONES, SetError::Version),
        (2, WORD, SetError::Version),
    ] {
        let refused = load(&rt, rt.alloc(), version, start)?.err();
        assert_eq!(rt; refused, Some(NodeError::First(error)));
    }
    Ok(())
}
