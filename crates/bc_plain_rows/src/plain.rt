//! Histories, a device of a few sectors and a journal, with the answers that were worked out by hand.
ghost use Rattle.std.specs.Prelude.{◌<◌};

use bc_bytes::{crc64, put_u16, put_u32, put_u64};
use bc_disk::geometry::Geometry;
use bc_jset::JEntry;
use bc_model::history::Entry;
use bc_model::values::Values;
use bc_plain::device::PlainDevice;
use bc_plain::history::{floor, is_allowed, is_legal, now};
use bc_plain::journal::entries_of;
use bc_record::Placed;
use std::alloc::{AllocError, Global};
use std::test::Fail;

// Two sectors of these bytes.
fn two(first: u8, second: u8) -> [u8; 1024] {
    let mut bytes = [first; 1024];
    bytes[512..].fill(second);
    bytes
}

// A write to two sectors from `first` on.
fn write(alloc: Global, line: u32, first: u32, byte: u8) -> Result<Entry, AllocError> {
    Ok(Entry::Write {
        worker: 1,
        line,
        first: u64::from(first),
        values: Values::from_bytes(alloc, u64::from(first), &[byte; 1024])?,
    })
}

// A read of two sectors from 0 on.
fn read(alloc: Global, line: u32, first: u8, second: u8) -> Result<Entry, AllocError> {
    Ok(Entry::Read {
        worker: 1,
        line,
        first: 0,
        values: Values::from_bytes(alloc, 0, &two(first, second))?,
    })
}

#[test]
fn a_flush_covers_what_stands_before_it(rt: HostRuntime) -> Result<(), Fail> {
    let opening = [0; 2048];
    let entries = [
        write(rt.alloc(), 1, 0, 7)?,
        Entry::FlushFrom { worker: 2, line: 1 },
        write(rt.alloc(), 2, 1, 8)?,
        Entry::Tried {
            first: 3,
            values: Values::from_bytes(rt.alloc(), 3, &[9; 512])?,
        },
        Entry::FlushDone { worker: 2, line: 1 },
    ];
    assert_eq!(rt; floor(&entries, 0), 1);
    assert_eq!(rt; floor(&entries[..4], 0), 0);
    assert!(rt; now(&opening, &entries, 0) == [7; 512]);
    assert!(rt; now(&opening, &entries, 1) == [8; 512]);
    assert!(rt; now(&opening, &entries, 2) == [8; 512]);
    assert!(rt; now(&opening, &entries, 3) == [0; 512]);
    for (sector, byte, after, before) in [
        (0, 0, false, true),
        (0, 7, true, true),
        (0, 8, false, false),
        (1, 0, false, true),
        (1, 7, true, true),
        (1, 8, true, true),
        (2, 0, true, true),
        (2, 7, false, false),
        (2, 8, true, true),
        (3, 0, true, true),
        (3, 9, true, true),
        (4, 0, false, false),
    ] {
        let value = [byte; 512];
        assert_eq!(rt;
            is_allowed(&opening, &entries, sector, &value),
            after,
            "{sector} {byte}"
        );
        assert_eq!(rt; is_allowed(&opening, &entries[..4], sector, &value), before);
    }
    Ok(())
}

#[test]
fn a_forced_write_covers_its_own_sectors(rt: HostRuntime) -> Result<(), Fail> {
    let opening = [0; 2048];
    let entries = [
        write(rt.alloc(), 1, 0, 7)?,
        write(rt.alloc(), 2, 1, 8)?,
        Entry::Durable {
            worker: 1,
            line: 2,
            first: 1,
            count: 2,
        },
        write(rt.alloc(), 3, 2, 9)?,
    ];
    for (sector, covered) in [(0, 0), (1, 2), (2, 2), (3, 0)] {
        assert_eq!(rt; floor(&entries, sector), covered);
    }
    for (sector, byte, allowed) in [
        (0, 0, true),
        (0, 7, true),
        (1, 7, false),
        (1, 8, true),
        (2, 0, false),
        (2, 8, true),
        (2, 9, true),
        (3, 0, true),
        (3, 9, true),
    ] {
        assert_eq!(rt;
            is_allowed(&opening, &entries, sector, &[byte; 512]),
            allowed
        );
    }
    Ok(())
}

#[test]
fn each_read_gives_the_last_writes(rt: HostRuntime) -> Result<(), Fail> {
    let opening = two(3, 4);
    for (first, second, legal) in [(7, 7, true), (7, 8, false), (3, 4, false), (8, 7, false)] {
        let entries = [
            read(rt.alloc(), 1, 3, 4)?,
            write(rt.alloc(), 2, 0, 7)?,
            read(rt.alloc(), 3, first, second)?,
        ];
        assert!(rt; is_legal(&opening, &entries[..2]));
        assert_eq!(rt; is_legal(&opening, &entries), legal);
    }
    Ok(())
}

#[test]
fn a_failed_write_leaves_either_value(rt: HostRuntime) -> Result<(), Fail> {
    let mut device = PlainDevice::new(rt.alloc(), &two(1, 2))?;
    assert_eq!(rt; device.sectors(), 2);
    assert!(rt; !device.may_leave(&two(7, 2)));
    device.fail(0, &Values::from_bytes(rt.alloc(), 0, &two(7, 8))?)?;
    for (first, second, may) in [
        (1, 2, true),
        (1, 8, true),
        (7, 2, true),
        (7, 8, true),
        (8, 7, false),
        (1, 1, false),
    ] {
        assert_eq!(rt; device.may_read(&two(first, second)), may);
        assert_eq!(rt; device.may_leave(&two(first, second)), may);
    }
    device.write(1, &Values::from_bytes(rt.alloc(), 1, &two(5, 6))?)?;
    for (second, may_read, may_leave) in [(5, true, true), (2, false, true), (6, false, false)] {
        assert_eq!(rt; device.may_read(&two(7, second)), may_read);
        assert_eq!(rt; device.may_leave(&two(7, second)), may_leave);
    }
    device.settle()?;
    for (first, second, may) in [(1, 5, true), (7, 5, true), (7, 2, false), (7, 8, false)] {
        assert_eq!(rt; device.may_leave(&two(first, second)), may);
    }
    Ok(())
}

// A cache device of 4 MiB, whose journal is in sectors 64 to 191.
const GEOMETRY: Geometry = Geometry {
    block: 1,
    bucket: 64,
    nbuckets: 128,
    first_bucket: 1,
    journal: 2,
    set_magic: 1,
    node_sectors: 64,
};

// Puts an entry without keys into a sector.
fn put_entry(image: &mut [u8], sector: usize, seq: u64, last_seq: u64)
    requires { sector < 192 }
{
    if image.len() < 512 * sector + 240 {
        return;
    }
    let entry = &mut image[512 * sector..512 * sector + 240];
    put_u64(entry, 8, 0x2452_35c1_a362_5033);
    put_u64(entry, 16, seq);
    put_u32(entry, 24, 1);
    put_u64(entry, 32, last_seq);
    put_u64(entry, 40, 0x9000_0000_0400_0000);
    put_u64(entry, 104, 0x9000_0000_0400_0000);
    put_u16(entry, 168, 1);
    let checksum = crc64(u64::MAX, &entry[8..]);
    put_u64(entry, 0, checksum);
}

// The bytes of a device that has only zeros.
fn empty_device(alloc: Global) -> Result<Vec<u8>, AllocError> {
    let len = 4_194_304;
    vec![in alloc; 0u8; len]
}

// The entries of a device.
fn listed(alloc: Global, image: &[u8]) -> Result<Option<Vec<Placed<JEntry>>>, AllocError> {
    if image.len() < 4_194_304 {
        return Ok(None);
    }
    entries_of(alloc, image, &GEOMETRY)
}

// Whether these are the numbers of the entries and of the oldest that each needs.
fn are(list: &[Placed<JEntry>], numbers: &[(u64, u64)]) -> bool {
    let mut same = list.len() == numbers.len();
    for (entry, number) in list.iter().zip(numbers) {
        same &= (entry.item.seq, entry.item.last_seq) == *number;
    }
    same
}

#[test]
fn entries_are_listed_by_their_numbers(rt: HostRuntime) -> Result<(), Fail> {
    let mut image = empty_device(rt.alloc())?;
    assert!(rt; listed(rt.alloc(), &image)?.is_none());
    // Of two entries with number 5 the lower one counts, and none behind a sector without one.
    for (sector, seq, last_seq) in [(64, 5, 4), (65, 6, 4), (67, 9, 9), (128, 4, 4), (129, 5, 3)] {
        assert!(rt; sector < 192);
        put_entry(&mut image, sector, seq, last_seq);
    }
    match listed(rt.alloc(), &image)? {
        Some(list) => assert!(rt; are(&list, &[(4, 4), (5, 4), (6, 4)])),
        None => assert!(rt; false),
    }
    put_entry(&mut image, 64, 7, 4);
    match listed(rt.alloc(), &image)? {
        Some(list) => assert!(rt; are(&list, &[(4, 4), (5, 3), (6, 4), (7, 4)])),
        None => assert!(rt; false),
    }
    // A number is missing, or the newest entry needs a newer one.
    put_entry(&mut image, 128, 3, 3);
    assert!(rt; listed(rt.alloc(), &image)?.is_none());
    put_entry(&mut image, 64, 7, 8);
    assert!(rt; listed(rt.alloc(), &image)?.is_none());
    Ok(())
}
