//! Entries whose bytes were made apart from this crate, and each refusal.
ghost use Rattle.std.specs.Prelude.{◌≡◌, ◌+◌, ◌≤◌, length};

use bc_bytes::{crc64, put_u16, put_u32, put_u64};
use bc_jset::{JsetError, read_entry, write_entry};
use std::alloc::Global;
use std::test::Fail;

/// The first word of the cache set's uuid.
const MAGIC: u64 = 1;

/// How many bytes an entry of 80 extents with one pointer takes: five sectors hold it.
const LENGTH: usize = 2160;

/// The words of a key with one pointer.
const POINTER: u64 = 0x9000_0000_0000_0000;

/// Writes the entry with number 7 of 80 extents of eight dirty sectors each, which lie one behind the
/// other from sector 2,048 of the cache device on. The checksum comes from a division bit by bit.
fn put_eighty(bytes: &mut [u8])
    requires { length bytes.old ≡ 2160 }
{
    put_u64(bytes, 0, 0xee3d_7ab6_39c7_c9be);
    put_u64(bytes, 8, 0x2452_35c1_a362_5033);
    put_u64(bytes, 16, 7);
    put_u32(bytes, 24, 1);
    put_u32(bytes, 28, 240);
    put_u64(bytes, 32, 7);
    for (place, end, offset) in [(40, 64, 640), (104, 1 << 40, 704)] {
        put_u64(bytes, place, POINTER | (64 << 20));
        put_u64(bytes, place + 8, end);
        put_u64(bytes, place + 16, offset << 8);
    }
    put_u16(bytes, 168, 1);
    put_u64(bytes, 176, 9);
    for i in 0..80 {
        let place = 240 + 24 * i;
        put_u64(bytes, place, POINTER | (1 << 36) | (8 << 20));
        put_u64(bytes, place + 8, 8 * (i as u64 + 1));
        put_u64(bytes, place + 16, (2048 + 8 * i as u64) << 8);
    }
}

fn refusal(alloc: Global, bytes: &[u8]) -> Option<JsetError> {
    read_entry(alloc, bytes, MAGIC).err()
}

/// The refusal of the bytes up to this place.
fn refusal_of_front(alloc: Global, bytes: &[u8], end: usize) -> Option<JsetError>
    requires { end ≤ length bytes.now }
{
    refusal(alloc, &bytes[..end])
}

/// Makes the bytes of the last sector zeros, as if it had not been written.
fn lose_the_last_sector(bytes: &mut [u8])
    requires { length bytes.old ≡ 2160 }
{
    bytes[2048..].copy_from_slice(&[0; 112]);
}

#[test]
fn eighty_extents(rt: HostRuntime) -> Result<(), Fail> {
    let mut bytes = [0; LENGTH];
    put_eighty(&mut bytes);
    match read_entry(rt.alloc(), &bytes, MAGIC) {
        Ok((entry, length)) => {
            assert_eq!(rt; length, LENGTH);
            assert_eq!(rt; entry.bytes(), LENGTH);
            assert_eq!(rt;
                (entry.seq, entry.last_seq, entry.level, entry.prio),
                (7, 7, 1, 9)
            );
            assert_eq!(rt; (entry.uuid_bucket.end, entry.root.end), (64, 1 << 40));
            assert_eq!(rt; entry.keys.len(), 80);
            let mut into = [0; LENGTH];
            assert_eq!(rt; write_entry(&entry, MAGIC, &mut into), LENGTH);
            assert!(rt; into == bytes);
        }
        Err(error) => assert!(rt; false, "{error:?}"),
    }
    // The last sector wasn't written.
    lose_the_last_sector(&mut bytes);
    assert_eq!(rt; refusal(rt.alloc(), &bytes), Some(JsetError::Checksum));
    Ok(())
}

/// Changes a number of 16 bits, and makes the checksum right.
fn change(bytes: &mut [u8], place: usize, value: u16)
    requires length { length bytes.old ≡ 2160 }
    requires place { place + 2 ≤ 2160 }
{
    put_u16(bytes, place, value);
    let checksum = crc64(u64::MAX, &bytes[8..]);
    put_u64(bytes, 0, checksum);
}

#[test]
fn refusals(rt: HostRuntime) {
    let alloc = rt.alloc();
    let mut bytes = [0; LENGTH];
    put_eighty(&mut bytes);
    for end in [239, LENGTH - 1] {
        assert_eq!(rt;
            refusal_of_front(alloc, &bytes, end),
            Some(JsetError::Short)
        );
    }
    for (place, value, error) in [
        (8, 0, JsetError::Magic),
        (24, 0, JsetError::Version),
        (28, 4067, JsetError::Short),
        (28, 241, JsetError::Short),
        (168, 0, JsetError::Level),
        (168, 3, JsetError::Level),
        // Pointer counts of 7 and, in the last key, of 2; a size above the end.
        (46, 0xf000, JsetError::Key),
        (110, 0xf000, JsetError::Key),
        (2142, 0xa000, JsetError::Key),
        (248, 7, JsetError::Key),
    ] {
        assert!(rt; place <= LENGTH - 2);
        let mut entry = bytes;
        change(&mut entry, place, value);
        assert_eq!(rt; refusal(alloc, &entry), Some(error), "at {place}");
    }
    // Bytes that are ignored.
    for place in [64, 174, 184, 238] {
        assert!(rt; place <= LENGTH - 2);
        let mut entry = bytes;
        change(&mut entry, place, 0xffff);
        assert_eq!(rt; refusal(alloc, &entry), None, "at {place}");
    }
}
