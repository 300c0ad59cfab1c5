//! An entry of 80 keys, and a ring that is turned three times.
ghost use Rattle.std.specs.Prelude.{◌≡◌, ◌<◌, ◌^◌, Some};
ghost use Rattle.bc_journal.specs.Sealed.{numbers_of};

use bc_disk::geometry::Geometry;
use bc_journal::{Heads, Journal, Place, Sealed};
use bc_jset::read_entry;
use bc_key::{Key, Ptr};
use bc_keys::{are_extents, word_count};
use std::alloc::Global;
use std::process::Abort;
use std::test::Fail;

/// 128 buckets of 64 sectors, of which eight are the journal.
const GEOMETRY: Geometry = Geometry {
    block: 1,
    bucket: 64,
    nbuckets: 128,
    first_bucket: 1,
    journal: 8,
    set_magic: 1,
    node_sectors: 64,
};

/// Eight dirty sectors.
fn key_at(end: u64, offset: u64) -> Key
    requires { offset < 2 ^ 43 }
{
    let pointer = Ptr {
        dev: 0,
        offset,
        generation: 0,
    };
    Key::new(end, 8, true, Some(pointer))
}

fn heads() -> Heads
    ensures { result.level ≡ 1 }
{
    Heads {
        uuid_bucket: key_at(64, 640),
        root: key_at(1 << 40, 704),
        level: 1,
        prio: 9,
    }
}

/// Adds the keys, and seals them into an entry.
fn sealed_with(rt: &impl Abort, journal: &mut Journal, keys: &[Key]) -> Sealed
    ensures { journal.new.sealed ≡ Some (numbers_of result.entry) }
{
    assert!(rt; journal.number() < 1 << 63);
    assert!(rt; are_extents(keys));
    assert!(rt; journal.room(word_count(keys)));
    let number = journal.add(keys);
    assert!(rt; journal.sealed() == None);
    assert!(rt; journal.room(0));
    let sealed = journal.seal(&heads()).ok().expect(rt, "a number is left");
    assert!(rt; sealed.number() == number);
    sealed
}

/// Writes an entry with these keys, which is taken back at once; says where it went.
fn write(rt: &impl Abort, journal: &mut Journal, keys: &[Key]) -> Place {
    let sealed = sealed_with(rt, journal, keys);
    let place = sealed.place();
    journal.written(sealed);
    place
}

fn eighty() -> [Key; 80] {
    let mut keys = [key_at(8, 2048); 80];
    for i in 0..80 {
        keys[i] = key_at(8 * (i as u64 + 1), 2048 + 8 * i as u64);
    }
    keys
}

/// An entry of these 80 keys with number 7, behind sector 60 of a bucket, where five sectors don't
/// fit.
fn has_five_sectors(rt: &impl Abort, alloc: Global, sealed: &Sealed, keys: &[Key]) {
    let place = sealed.place();
    assert_eq!(rt; (place.bucket, place.sector), (3, 0));
    assert_eq!(rt; (sealed.sector(), sealed.bytes().len()), (64 * 4, 2560));
    match read_entry(alloc, sealed.bytes(), 1) {
        Ok((entry, length)) => {
            assert_eq!(rt; (entry.seq, entry.last_seq, length), (7, 5, 2160));
            assert!(rt; entry.keys.as_slice() == keys);
        }
        Err(error) => assert!(rt; false, "{error:?}"),
    }
}

#[test]
fn eighty_keys(rt: HostRuntime) -> Result<(), Fail> {
    let first = Place {
        bucket: 2,
        sector: 60,
    };
    let newest = [6, 5, 6, 0, 1, 2, 3, 4];
    let before = Heads { prio: 8, ..heads() };
    let mut journal = Journal::new(rt.alloc(), &GEOMETRY, first, &newest, 5, 7, &before)?;
    let keys = eighty();
    let sealed = sealed_with(&rt, &mut journal, &keys);
    has_five_sectors(&rt, rt.alloc(), &sealed, &keys);
    assert!(rt; *journal.heads() == before);
    journal.written(sealed);
    assert_eq!(rt; journal.durable(), 7);
    assert!(rt; *journal.heads() == heads());
    Ok(())
}

#[test]
fn three_turns(rt: HostRuntime) -> Result<(), Fail> {
    // Entry 1 stands in the last bucket, whose end is the place behind it.
    let end = Place {
        bucket: 7,
        sector: 64,
    };
    let newest = [0, 0, 0, 0, 0, 0, 0, 1];
    let mut journal = Journal::new(rt.alloc(), &GEOMETRY, end, &newest, 1, 2, &heads())?;
    // An entry of these takes 43 sectors.
    let keys = vec![in rt.alloc(); key_at(8, 2048); 900]?;
    for i in 0..24 {
        let place = write(&rt, &mut journal, &keys);
        assert_eq!(rt; (place.bucket, place.sector), (i % 8, 0));
        let number = journal.durable();
        assert!(rt; journal.needed() <= number && number <= journal.number());
        journal.reclaim_to(number);
    }
    // From now on entry 25 is needed, and its bucket isn't free: the one before it is the last.
    for i in 0..6 {
        assert_eq!(rt; write(&rt, &mut journal, &keys).bucket, i);
    }
    assert!(rt; !journal.room(word_count(&keys)));
    assert!(rt; journal.room(0));
    Ok(())
}
