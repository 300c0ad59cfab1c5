//! Sets whose bytes were made apart from this crate, and each refusal.
use crate::{SetError, SetKind, read_set, write_set};
use bc_bytes::{crc64, put_u32, put_u64};
use bc_key::{Key, Ptr};
use std::alloc::Global;
use std::test::Fail;

/// The first word of the cache set's uuid.
const MAGIC: u64 = 1;

/// The first pointer's word of the key that points to the node.
const START: u64 = 0x8_0003;

/// A set of sectors 16 to 23, dirty, at sector 2,048 of the cache device. The checksum comes from a
/// division bit by bit.
const EXAMPLE: [u8; 56] = [
    0x91, 0x4c, 0xa6, 0xe5, 0x5b, 0xf7, 0x07, 0x09, 0xf4, 0x07, 0x9e, 0xb9, 0x78, 0x5c, 0x13, 0x90,
    0x01, 0x00, 0x01, 0x00, 0x00, 0x00, 0x00, 0x00, 0x01, 0x00, 0x00, 0x00, 0x03, 0x00, 0x00, 0x00,
    0x00, 0x00, 0x80, 0x00, 0x10, 0x00, 0x00, 0x90, 0x18, 0x00, 0x00, 0x00, 0x00, 0x00, 0x00, 0x00,
    0x03, 0x00, 0x08, 0x00, 0x00, 0x00, 0x00, 0x00,
];

fn refusal(alloc: Global, bytes: &[u8], kind: SetKind) -> Option<SetError> {
    read_set(alloc, bytes, START, MAGIC, kind).err()
}

#[test]
fn an_extent(rt: HostRuntime) -> Result<(), Fail> {
    let pointer = Ptr {
        dev: 0,
        offset: 2048,
        generation: 3,
    };
    let extent = Key::new(24, 8, true, Some(pointer));
    match read_set(rt.alloc(), &EXAMPLE, START, MAGIC, SetKind::Extents) {
        Ok(set) => {
            assert_eq!(rt; (set.seq, set.version), (65_537, 1));
            assert_eq!(rt; set.keys.as_slice(), [extent].as_slice());
            let mut into = [7; 60];
            assert_eq!(rt; set.bytes(), 56);
            assert_eq!(rt; write_set(&set, START, MAGIC, &mut into), 56);
            let mut whole = [7; 60];
            whole[..56].copy_from_slice(&EXAMPLE);
            assert_eq!(rt; into, whole);
        }
        Err(error) => assert!(rt; false, "{error:?}"),
    }
    Ok(())
}

#[test]
fn headers(rt: HostRuntime) {
    let alloc = rt.alloc();
    assert_eq!(rt;
        refusal(alloc, &EXAMPLE[..31], SetKind::Extents),
        Some(SetError::Short)
    );
    assert_eq!(rt;
        refusal(alloc, &EXAMPLE[..55], SetKind::Extents),
        Some(SetError::Short)
    );
    for (place, value, error) in [
        (8, 0, SetError::Magic),
        (24, 2, SetError::Version),
        (24, 0, SetError::Checksum),
        (28, 4, SetError::Short),
        (28, 2, SetError::Checksum),
        (0, 0, SetError::Checksum),
        (55, 1, SetError::Checksum),
    ] {
        let mut bytes = EXAMPLE;
        bytes[place] = value;
        assert_eq!(rt;
            refusal(alloc, &bytes, SetKind::Extents),
            Some(error),
            "at {place}"
        );
    }
    assert!(rt; read_set(alloc, &EXAMPLE, u64::MAX, MAGIC, SetKind::Extents).is_err());
}

/// A set of four words.
fn set_of(words: [u64; 4]) -> [u8; 64] {
    let mut bytes = [0; 64];
    put_u64(&mut bytes, 8, MAGIC ^ 0x9013_5c78_b99e_07f5);
    put_u32(&mut bytes, 24, 1);
    put_u32(&mut bytes, 28, 4);
    for i in 0..4 {
        put_u64(&mut bytes, 32 + 8 * i, words[i]);
    }
    let checksum = crc64(START, &bytes[8..]);
    put_u64(&mut bytes, 0, checksum);
    bytes
}

#[test]
fn keys(rt: HostRuntime) {
    // Keys of eight sectors without pointers.
    const EIGHT: u64 = 8 << 20;
    for (words, as_extents, as_children) in [
        ([EIGHT, 24, EIGHT, 32], None, None),
        ([EIGHT, 24, EIGHT, 31], Some(SetError::Order), None),
        ([EIGHT, 24, 0, 24], None, Some(SetError::Order)),
        ([EIGHT, 7, EIGHT, 32], Some(SetError::Key), None),
        (
            [EIGHT, 24, EIGHT | (1 << 60), 32],
            Some(SetError::Key),
            Some(SetError::Key),
        ),
        (
            [7 << 60, 0, EIGHT, 32],
            Some(SetError::Key),
            Some(SetError::Key),
        ),
    ] {
        let bytes = set_of(words);
        assert_eq!(rt;
            refusal(rt.alloc(), &bytes, SetKind::Extents),
            as_extents,
            "{words:?}"
        );
        assert_eq!(rt;
            refusal(rt.alloc(), &bytes, SetKind::Children),
            as_children,
            "{words:?}"
        );
    }
}
