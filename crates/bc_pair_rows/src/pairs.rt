//! A pair that is made, one that another tool made, and what is refused.
ghost use Rattle.std.specs.Prelude.{◌<◌};

use bc_disk::disk::{Device, Disk};
use bc_disk::mem_disk::MemDisk;
use bc_mode::Mode;
use bc_pair::adopt::adopt;
use bc_pair::error::PairError;
use bc_pair::format::{NewPair, format};
use bc_pair::show::show_pair;
use bc_super::backing::{BackingSuper, read_backing};
use bc_super::cache::{CacheSuper, read_cache};
use bc_super::error::SuperError;
use bc_super::state::BackingState;
use std::alloc::{AllocError, Global};
use std::process::Abort;
use std::test::Fail;

/// The first bytes, and all that aren't zero, that `make-bcache --bucket 32k --block 512 -C` wrote.
const SMALL_CACHE: [u8; 208] = [
    0xfd, 0x65, 0x90, 0x1f, 0x9f, 0xa2, 0x5f, 0x2e, 0x08, 0x00, 0x00, 0x00, 0x00, 0x00, 0x00, 0x00,
    0x00, 0x00, 0x00, 0x00, 0x00, 0x00, 0x00, 0x00, 0xc6, 0x85, 0x73, 0xf6, 0x4e, 0x1a, 0x45, 0xca,
    0x82, 0x65, 0xf5, 0x7f, 0x48, 0xba, 0x6d, 0x81, 0xa1, 0xf4, 0x20, 0x89, 0x54, 0xbb, 0x49, 0xb9,
    0xbd, 0x5b, 0x87, 0x65, 0xe1, 0xfb, 0x7f, 0xb5, 0xa9, 0x9a, 0x46, 0xba, 0xf4, 0x7a, 0x42, 0xe1,
    0x92, 0x74, 0x9f, 0x9d, 0xeb, 0x92, 0x0f, 0xf0, 0x00, 0x00, 0x00, 0x00, 0x00, 0x00, 0x00, 0x00,
    0x00, 0x00, 0x00, 0x00, 0x00, 0x00, 0x00, 0x00, 0x00, 0x00, 0x00, 0x00, 0x00, 0x00, 0x00, 0x00,
    0x00, 0x00, 0x00, 0x00, 0x00, 0x00, 0x00, 0x00, 0x00, 0x00, 0x00, 0x00, 0x00, 0x00, 0x00, 0x00,
    0x00, 0x00, 0x00, 0x00, 0x00, 0x00, 0x00, 0x00, 0x00, 0x00, 0x00, 0x00, 0x00, 0x00, 0x00, 0x00,
    0x00, 0x00, 0x00, 0x00, 0x00, 0x00, 0x00, 0x00, 0x00, 0x00, 0x00, 0x00, 0x00, 0x00, 0x00, 0x00,
    0x00, 0x00, 0x00, 0x00, 0x00, 0x00, 0x00, 0x00, 0x00, 0x00, 0x00, 0x00, 0x00, 0x00, 0x00, 0x00,
    0x00, 0x00, 0x00, 0x00, 0x00, 0x00, 0x00, 0x00, 0x00, 0x00, 0x00, 0x00, 0x00, 0x00, 0x00, 0x00,
    0x00, 0x00, 0x00, 0x00, 0x00, 0x00, 0x00, 0x00, 0x80, 0x00, 0x00, 0x00, 0x00, 0x00, 0x00, 0x00,
    0x01, 0x00, 0x40, 0x00, 0x01, 0x00, 0x00, 0x00, 0x00, 0x00, 0x00, 0x00, 0x01, 0x00, 0x00, 0x00,
];

/// Those of `make-bcache --block 512 -B`.
const SMALL_BACKING: [u8; 208] = [
    0xd2, 0xa3, 0x20, 0xc1, 0xd9, 0xfe, 0xfb, 0xc3, 0x08, 0x00, 0x00, 0x00, 0x00, 0x00, 0x00, 0x00,
    0x01, 0x00, 0x00, 0x00, 0x00, 0x00, 0x00, 0x00, 0xc6, 0x85, 0x73, 0xf6, 0x4e, 0x1a, 0x45, 0xca,
    0x82, 0x65, 0xf5, 0x7f, 0x48, 0xba, 0x6d, 0x81, 0x78, 0x15, 0xea, 0xcc, 0x9b, 0xce, 0x47, 0x3c,
    0xbe, 0xed, 0xbc, 0x10, 0xd9, 0x42, 0x85, 0x58, 0xa9, 0x9a, 0x46, 0xba, 0xf4, 0x7a, 0x42, 0xe1,
    0x92, 0x74, 0x9f, 0x9d, 0xeb, 0x92, 0x0f, 0xf0, 0x00, 0x00, 0x00, 0x00, 0x00, 0x00, 0x00, 0x00,
    0x00, 0x00, 0x00, 0x00, 0x00, 0x00, 0x00, 0x00, 0x00, 0x00, 0x00, 0x00, 0x00, 0x00, 0x00, 0x00,
    0x00, 0x00, 0x00, 0x00, 0x00, 0x00, 0x00, 0x00, 0x00, 0x00, 0x00, 0x00, 0x00, 0x00, 0x00, 0x00,
    0x00, 0x00, 0x00, 0x00, 0x00, 0x00, 0x00, 0x00, 0x00, 0x00, 0x00, 0x00, 0x00, 0x00, 0x00, 0x00,
    0x00, 0x00, 0x00, 0x00, 0x00, 0x00, 0x00, 0x00, 0x00, 0x00, 0x00, 0x00, 0x00, 0x00, 0x00, 0x00,
    0x00, 0x00, 0x00, 0x00, 0x00, 0x00, 0x00, 0x00, 0x00, 0x00, 0x00, 0x00, 0x00, 0x00, 0x00, 0x00,
    0x00, 0x00, 0x00, 0x00, 0x00, 0x00, 0x00, 0x00, 0x00, 0x00, 0x00, 0x00, 0x00, 0x00, 0x00, 0x00,
    0x00, 0x00, 0x00, 0x00, 0x00, 0x00, 0x00, 0x00, 0x00, 0x00, 0x00, 0x00, 0x00, 0x00, 0x00, 0x00,
    0x01, 0x00, 0x00, 0x04, 0x00, 0x00, 0x00, 0x00, 0x00, 0x00, 0x00, 0x00, 0x00, 0x00, 0x00, 0x00,
];

/// What a sector is full of that no call has written.
const OTHER: u8 = 0xaa;

/// The sectors of a bucket, as bytes.
const BUCKET: usize = 64 * 512;

// A pair of the set whose uuid is full of this byte.
fn pair_of(set: u8) -> NewPair {
    NewPair {
        set_uuid: [set; 16],
        cache_uuid: [2; 16],
        backing_uuid: [3; 16],
        block: 1,
        bucket: 64,
        mode: Mode::Writethrough,
        offset: 16,
    }
}

// A disk of so many sectors, full of `OTHER` but for the superblock.
fn disk(
    rt: &impl Abort,
    alloc: Global,
    sectors: usize,
    superblock: &[u8],
) -> Result<MemDisk, AllocError> {
    assert!(rt; sectors <= 65536 && superblock.len() <= 2560);
    let mut bytes = vec![in alloc; OTHER; 512 * sectors]?;
    let end = 4096 + superblock.len();
    if end <= bytes.len() {
        bytes[4096..end].copy_from_slice(superblock);
    }
    MemDisk::new(alloc, bytes, 1000)
}

// Whether these bytes are all the same one.
fn is_full(bytes: &[u8], from: usize, to: usize, byte: u8) -> bool {
    match bytes.get(from..to) {
        Some(part) => part.iter().all(|b| *b == byte),
        None => false,
    }
}

// A superblock and zeros behind it, five sectors in all.
fn padded(superblock: &[u8; 208]) -> [u8; 2560] {
    let mut bytes = [0; 2560];
    bytes[..208].copy_from_slice(superblock);
    bytes
}

// Whether no sector but the eighth was written of a backing device with 4,112.
fn keeps_data(backing: &MemDisk) -> bool {
    is_full(backing.bytes(), 0, 4096, OTHER) && is_full(backing.bytes(), 4608, 4112 * 512, OTHER)
}

#[test]
fn new_pair(rt: HostRuntime) -> Result<(), Fail> {
    let mut cache = disk(&rt, rt.alloc(), 8192, &[])?;
    let mut backing = disk(&rt, rt.alloc(), 4112, &[])?;
    format(rt.alloc(), &mut cache, &mut backing, &pair_of(1))?;
    assert_eq!(rt; (cache.calls(), backing.calls()), (18, 2));
    let c = read_cache(&mut cache)?;
    assert_eq!(rt;
        c,
        CacheSuper {
            version: 3,
            uuid: [2; 16],
            set_uuid: [1; 16],
            label: [0; 32],
            flags: 1,
            seq: 0,
            nbuckets: 128,
            block: 1,
            bucket: 64,
            last_mount: 0,
            first_bucket: 1,
            journal: 8,
        }
    );
    let b = read_backing(&mut backing)?;
    assert_eq!(rt;
        b,
        BackingSuper {
            version: 1,
            uuid: [3; 16],
            set_uuid: [1; 16],
            label: [0; 32],
            flags: 1 << 61,
            seq: 0,
            block: 1,
            last_mount: 0,
            data_offset: 16,
        }
    );

    // Buckets 1 to 12 were written, and no others.
    assert!(rt; is_full(cache.bytes(), 0, 4096, OTHER));
    assert!(rt; is_full(cache.bytes(), 6656, BUCKET, OTHER));
    assert!(rt; is_full(cache.bytes(), BUCKET + 512, 9 * BUCKET, 0));
    assert!(rt; is_full(cache.bytes(), 10 * BUCKET, 10 * BUCKET + 16, 3));
    assert!(rt; is_full(cache.bytes(), 10 * BUCKET + 16, 11 * BUCKET, 0));
    assert!(rt; is_full(cache.bytes(), 13 * BUCKET, 128 * BUCKET, OTHER));
    assert!(rt; keeps_data(&backing));

    let again = adopt(rt.alloc(), &mut cache, &mut backing);
    let refused = PairError::Superblock {
        device: Device::Cache,
        why: SuperError::Initialised,
    };
    assert_eq!(rt; again, Err(refused));
    assert_eq!(rt;
        show_pair(rt.alloc(), &mut cache, &mut backing)?.as_str(),
        "cache version 3 block 1 bucket 64 buckets 128 first 1 journal 8 replacement lru sync 1 discard 0\n\
         cache uuid 02020202020202020202020202020202 set 01010101010101010101010101010101\n\
         backing version 1 offset 16 size 4096 mode writethrough state clean\n\
         backing uuid 03030303030303030303030303030303 set 01010101010101010101010101010101\n"
    );
    Ok(())
}

// Whether these bytes stand there.
fn has(device: &MemDisk, at: usize, bytes: &[u8; 8]) -> bool
    requires { at < 10000000 }
{
    device.bytes().get(at..at + 8) == Some(bytes.as_slice())
}

// The checksums of the records are those that an encoder of its own computed.
#[test]
fn worked_layout(rt: HostRuntime) -> Result<(), Fail> {
    let mut cache = disk(&rt, rt.alloc(), 8192, &[])?;
    let mut backing = disk(&rt, rt.alloc(), 4112, &[])?;
    let pair = NewPair {
        set_uuid: [1, 0, 0, 0, 0, 0, 0, 0, 0, 0, 0, 0, 0, 0, 0, 0],
        cache_uuid: [2; 16],
        backing_uuid: [3; 16],
        block: 1,
        bucket: 64,
        mode: Mode::Writethrough,
        offset: 16,
    };
    format(rt.alloc(), &mut cache, &mut backing, &pair)?;
    assert!(rt;
        has(
            &cache,
            BUCKET,
            &[0x70, 0x8e, 0xdf, 0x8f, 0x3a, 0x64, 0xed, 0xe7]
        )
    );
    assert!(rt;
        has(
            &cache,
            11 * BUCKET,
            &[0x8d, 0x82, 0x3e, 0x0f, 0xd2, 0xff, 0xf4, 0x86]
        )
    );
    assert!(rt;
        has(
            &cache,
            12 * BUCKET,
            &[0xb6, 0x56, 0x8a, 0x6d, 0x31, 0xf2, 0xe5, 0x79]
        )
    );
    assert!(rt;
        has(
            &cache,
            9 * BUCKET + 40 + 3 * 12,
            &[255, 255, 0, 0, 0, 0, 0, 0]
        )
    );
    assert!(rt; is_full(cache.bytes(), 9 * BUCKET + 79, 10 * BUCKET, 0));
    assert!(rt; is_full(cache.bytes(), 11 * BUCKET + 56, 12 * BUCKET, 0));
    assert!(rt; is_full(cache.bytes(), 12 * BUCKET + 32, 13 * BUCKET, 0));
    Ok(())
}

#[test]
fn adopted_pair(rt: HostRuntime) -> Result<(), Fail> {
    let mut cache = disk(&rt, rt.alloc(), 8192, &padded(&SMALL_CACHE))?;
    let mut backing = disk(&rt, rt.alloc(), 4112, &padded(&SMALL_BACKING))?;
    let (c, b) = (read_cache(&mut cache)?, read_backing(&mut backing)?);
    adopt(rt.alloc(), &mut cache, &mut backing)?;
    let set_up = CacheSuper {
        version: 3,
        flags: 1,
        first_bucket: 1,
        journal: 8,
        ..c
    };
    let clean = BackingSuper {
        flags: 1 << 61,
        ..b
    };
    assert_eq!(rt; read_cache(&mut cache)?, set_up);
    assert_eq!(rt; read_backing(&mut backing)?, clean);
    assert_eq!(rt;
        cache.bytes().get(10 * BUCKET..10 * BUCKET + 16),
        Some(b.uuid.as_slice())
    );
    assert_eq!(rt;
        show_pair(rt.alloc(), &mut cache, &mut backing)?.as_str(),
        "cache version 3 block 1 bucket 64 buckets 128 first 1 journal 8 replacement lru sync 1 discard 0\n\
         cache uuid a1f4208954bb49b9bd5b8765e1fb7fb5 set a99a46baf47a42e192749f9deb920ff0\n\
         backing version 1 offset 16 size 4096 mode writethrough state clean\n\
         backing uuid 7815eacc9bce473cbeedbc10d9428558 set a99a46baf47a42e192749f9deb920ff0\n"
    );
    Ok(())
}

// A pair whose backing device names a mode, and whose data begins at a sector.
#[test]
fn modes_and_offsets(rt: HostRuntime) -> Result<(), Fail> {
    for (mode, number, offset, version, wanted) in [
        (
            Mode::Writeback,
            1,
            16,
            1,
            "version 1 offset 16 size 4096 mode writeback",
        ),
        (
            Mode::Writearound,
            2,
            17,
            4,
            "version 4 offset 17 size 4095 mode writearound",
        ),
        (
            Mode::None,
            3,
            4111,
            4,
            "version 4 offset 4111 size 1 mode none",
        ),
        (
            Mode::Writethrough,
            0,
            2064,
            4,
            "version 4 offset 2064 size 2048 mode writethrough",
        ),
    ] {
        let mut cache = disk(&rt, rt.alloc(), 8192, &[])?;
        let mut backing = disk(&rt, rt.alloc(), 4112, &[])?;
        let mut pair = pair_of(1);
        pair.mode = mode;
        pair.offset = offset;
        format(rt.alloc(), &mut cache, &mut backing, &pair)?;
        let b = read_backing(&mut backing)?;
        assert_eq!(rt;
            (b.version, b.flags, b.data_offset),
            (version, number | (1 << 61), offset)
        );
        assert_eq!(rt; (b.mode(), b.state()), (mode, BackingState::Clean));
        let text = show_pair(rt.alloc(), &mut cache, &mut backing)?;
        assert!(rt; text.as_str().contains(wanted), "{text}");
        assert!(rt; keeps_data(&backing));
    }
    Ok(())
}

#[test]
fn refused_pairs(rt: HostRuntime) -> Result<(), Fail> {
    for (sectors, others, offset, set, device, why) in [
        (8191, 15, 15, 0, Device::Cache, SuperError::FewBuckets),
        (8192, 15, 15, 0, Device::Cache, SuperError::ZeroUuid),
        (8192, 15, 15, 1, Device::Backing, SuperError::DeviceSmall),
        (8192, 16, 16, 1, Device::Backing, SuperError::DataOffset),
        (8192, 17, 15, 1, Device::Backing, SuperError::DataOffset),
        (8192, 2048, 2048, 1, Device::Backing, SuperError::DataOffset),
    ] {
        let mut cache = disk(&rt, rt.alloc(), sectors, &[])?;
        let mut backing = disk(&rt, rt.alloc(), others, &[])?;
        let mut pair = pair_of(set);
        pair.offset = offset;
        let made = format(rt.alloc(), &mut cache, &mut backing, &pair);
        assert_eq!(rt; made, Err(PairError::Superblock { device, why }));
        assert_eq!(rt; (cache.calls(), backing.calls()), (0, 0));
    }
    Ok(())
}

#[test]
fn failed_calls(rt: HostRuntime) -> Result<(), Fail> {
    for (device, call) in [
        (Device::Cache, 1),
        (Device::Cache, 9),
        (Device::Cache, 18),
        (Device::Backing, 1),
        (Device::Backing, 2),
    ] {
        let mut cache = disk(&rt, rt.alloc(), 8192, &[])?;
        let mut backing = disk(&rt, rt.alloc(), 4112, &[])?;
        match device {
            Device::Cache => cache.fail(call)?,
            Device::Backing => backing.fail(call)?,
        }
        let made = format(rt.alloc(), &mut cache, &mut backing, &pair_of(1));
        assert_eq!(rt; made, Err(PairError::Fault(device)), "call {call}");
        assert!(rt; keeps_data(&backing));
        let calls = match device {
            Device::Cache => (call, 0),
            Device::Backing => (18, call),
        };
        assert_eq!(rt; (cache.calls(), backing.calls()), calls);
    }
    Ok(())
}
