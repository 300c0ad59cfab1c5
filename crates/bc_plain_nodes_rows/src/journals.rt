//! Journals beside plain lists, on random calls, and an entry of which a part was written.
ghost use Rattle.std.specs.Prelude.{◌≡◌, ◌*◌, ◌≤◌, Some, length, IsTrue};

use crate::random::Random;
use bc_disk::disk::Disk;
use bc_disk::geometry::Geometry;
use bc_disk::mem_disk::MemDisk;
use bc_journal::{Heads, Journal, Numbers, Place, Sealed};
use bc_jset::{JEntry, read_entry};
use bc_key::{Key, Ptr};
use bc_keys::{are_extents, word_count};
use bc_plain::journal::entries_of;
use bc_plain_nodes::journal::{PlainJournal, PlainSealed};
use bc_record::Placed;
use std::alloc::{AllocError, Global};
use std::process::Abort;
use std::test::Fail;

/// The sectors of the device: 128 buckets of 64, of which four are the journal.
const SECTORS: usize = 8192;

/// How the device is divided, in blocks of one sector.
const NARROW: Geometry = Geometry {
    block: 1,
    bucket: 64,
    nbuckets: 128,
    first_bucket: 1,
    journal: 4,
    set_magic: 1,
    node_sectors: 64,
};

/// How it is divided in blocks of two.
const WIDE: Geometry = Geometry {
    block: 2,
    bucket: 64,
    nbuckets: 128,
    first_bucket: 1,
    journal: 4,
    set_magic: 1,
    node_sectors: 64,
};

/// The front of the journal's first bucket.
const FRONT: Place = Place {
    bucket: 0,
    sector: 0,
};

/// Eight dirty sectors.
fn key_at(end: u64, offset: u64) -> Key {
    let pointer = Ptr {
        dev: 0,
        offset: offset % (1 << 43),
        generation: 0,
    };
    Key::new(end, 8, true, Some(pointer))
}

/// What an entry of a root in this bucket names.
fn heads_at(sector: u64) -> Heads
    ensures { result.level ≡ 1 }
{
    Heads {
        uuid_bucket: key_at(64, 640),
        root: key_at(1 << 40, sector),
        level: 1,
        prio: 9,
    }
}

/// What the first entries name.
fn heads() -> Heads
    ensures { result.level ≡ 1 }
{
    heads_at(704)
}

/// What came in a run.
#[derive(Drop)]
struct Seen {
    /// How often the ring was begun again.
    turns: u32,
    /// How often keys had no room.
    full: u32,
    /// How often no number was left.
    ended: u32,
}

/// The journal and the lists have the same numbers, keys and ring, and room for the same.
fn agree(rt: &impl Abort, journal: &Journal, plain: &PlainJournal, words: usize) {
    assert_eq!(rt;
        (journal.durable(), journal.needed()),
        (plain.durable().seq, plain.needed())
    );
    assert_eq!(rt;
        (journal.sealed(), journal.number()),
        (plain.sealed(), plain.number())
    );
    assert!(rt; journal.heads() == plain.heads());
    assert!(rt; journal.waiting() == plain.waiting());
    assert_eq!(rt; journal.ring().next(), plain.next());
    assert!(rt; journal.ring().newest() == plain.newest());
    for words in [0, 1, words] {
        assert_eq!(rt; journal.room(words), plain.room(words));
    }
}

/// Adds some random keys where they have room.
fn add(
    rt: &impl Abort,
    alloc: Global,
    random: &mut Random,
    journal: &mut Journal,
    plain: &mut PlainJournal,
    seen: &mut Seen,
) -> Result<(), Fail> {
    let mut keys = Vec::new(alloc);
    for _ in 0..random.below(400) {
        keys.push(key_at(8 + random.below(1 << 30), random.below(1 << 30)))?;
    }
    assert!(rt; are_extents(&keys));
    if !journal.room(word_count(&keys)) {
        seen.full = seen.full.saturating_add(1);
    } else if journal.number() < 1 << 63 {
        let number = journal.add(&keys);
        assert_eq!(rt; plain.add(&keys)?, number);
    }
    Ok(())
}

/// Whether two entries say the same.
fn are_same(one: &JEntry, other: &JEntry) -> bool {
    (one.seq, one.last_seq, one.level, one.prio)
        == (other.seq, other.last_seq, other.level, other.prio)
        && (one.uuid_bucket, one.root) == (other.uuid_bucket, other.root)
        && one.keys.as_slice() == other.keys.as_slice()
}

/// The bytes of the sealed entry are those of the other, and zeros.
fn is_written_as(rt: &impl Abort, alloc: Global, sealed: &Sealed, plain: &PlainSealed) {
    assert_eq!(rt; sealed.place(), plain.place);
    match read_entry(alloc, sealed.bytes(), 1) {
        Ok((entry, length)) => {
            assert!(rt; are_same(&entry, &plain.entry));
            for (i, byte) in sealed.bytes().iter().enumerate() {
                assert!(rt; i < length || *byte == 0);
            }
        }
        Err(error) => assert!(rt; false, "{error:?}"),
    }
}

/// Writes a sector.
fn put(rt: &impl Abort, disk: &mut MemDisk, at: u64, part: &[u8])
    requires { length part.now ≡ 512 }
{
    assert!(rt; at < disk.sectors());
    assert!(rt; disk.write(at, part).is_ok());
}

/// Writes one of the sectors of an entry.
fn write_sector(rt: &impl Abort, disk: &mut MemDisk, sealed: &Sealed, sector: usize) {
    let bytes = sealed.bytes();
    assert!(rt; sector < 64 && 512 * sector + 512 <= bytes.len());
    let at = sealed.sector().saturating_add(sector as u64);
    put(rt, disk, at, &bytes[512 * sector..512 * sector + 512]);
}

/// Writes the sectors of an entry but for one that has bytes of it, and for some others.
fn write_part(
    rt: &impl Abort,
    random: &mut Random,
    disk: &mut MemDisk,
    sealed: &Sealed,
    size: usize,
) {
    assert!(rt; 0 < size && size <= 32768);
    let lost = random.below(((size - 1) / 512 + 1) as u64) as usize;
    for sector in 0..sealed.bytes().len() / 512 {
        if sector != lost && random.below(3) > 0 {
            write_sector(rt, disk, sealed, sector);
        }
    }
}

/// The entries that the bytes have, found place by place, are those of the list from a number on.
fn are_read(
    rt: &impl Abort,
    alloc: Global,
    disk: &MemDisk,
    g: &Geometry,
    entries: &[PlainSealed],
    low: u64,
) -> Result<(), Fail>
    requires { g.now.bucket * g.now.nbuckets ≡ 8192 }
{
    assert!(rt; disk.bytes().len() == 512 * SECTORS);
    let found = entries_of(alloc, disk.bytes(), g)?;
    let mut place = 0;
    if let Some(found) = &found {
        for entry in entries {
            if entry.entry.seq >= low {
                assert!(rt; place < found.len());
                assert!(rt; stands_as(&found[place], g, entry));
                place += 1;
            }
        }
        assert_eq!(rt; place, found.len());
    }
    assert_eq!(rt; found.is_none(), entries.is_empty());
    Ok(())
}

/// Whether the entry that was found is this one, at its place.
fn stands_as(found: &Placed<JEntry>, g: &Geometry, entry: &PlainSealed) -> bool {
    let bucket = u64::from(g.first_bucket) + u64::from(entry.place.bucket);
    let first = u64::from(g.bucket).saturating_mul(bucket);
    let place = first.saturating_add(u64::from(entry.place.sector));
    found.place == place && are_same(&found.item, &entry.entry)
}

/// Seals an entry, and writes it: a part first, which a reader doesn't take for one, and then the
/// whole.
fn seal(
    rt: &impl Abort,
    alloc: Global,
    random: &mut Random,
    journal: &mut Journal,
    plain: &mut PlainJournal,
    disk: &mut MemDisk,
    g: &Geometry,
    entries: &mut Vec<PlainSealed>,
    seen: &mut Seen,
) -> Result<Option<Sealed>, Fail>
    requires { g.now.bucket * g.now.nbuckets ≡ 8192 }
{
    assert!(rt; journal.sealed() == None && plain.sealed() == None);
    if !journal.room(0) || !plain.room(0) {
        return Ok(None);
    }
    let bucket = journal.ring().next().bucket;
    let low = plain.durable().last_seq;
    let heads = heads_at(random.below(1 << 30));
    let Ok(sealed) = journal.seal(&heads) else {
        assert!(rt; plain.seal(&heads).is_err());
        seen.ended = seen.ended.saturating_add(1);
        return Ok(None);
    };
    let Ok(other) = plain.seal(&heads) else {
        assert!(rt; false);
        return Ok(None);
    };
    is_written_as(rt, alloc, &sealed, &other);
    if sealed.place().bucket < bucket {
        seen.turns = seen.turns.saturating_add(1);
    }
    write_part(rt, random, disk, &sealed, other.entry.bytes());
    are_read(rt, alloc, disk, g, entries, low)?;
    for sector in 0..sealed.bytes().len() / 512 {
        write_sector(rt, disk, &sealed, sector);
    }
    entries.push(other)?;
    assert!(rt; disk.barrier().is_ok());
    Ok(Some(sealed))
}

/// Whether these are the numbers.
fn are_numbers(found: Option<Numbers>, numbers: Numbers) -> bool
    ensures { IsTrue result → (found ≡ Some numbers) }
{
    match found {
        Some(one) => one.seq == numbers.seq && one.last_seq == numbers.last_seq,
        None => false,
    }
}

/// The entry that was being written is durable.
fn written(rt: &impl Abort, journal: &mut Journal, plain: &mut PlainJournal, sealed: Sealed) {
    let numbers = sealed.numbers();
    assert!(rt; are_numbers(journal.sealed(), numbers));
    assert!(rt; are_numbers(plain.sealed(), numbers));
    plain.written(numbers, sealed.heads());
    journal.written(sealed);
}

/// Gives up some of the entries that are needed, all but the newest at most.
fn reclaim(rt: &impl Abort, random: &mut Random, journal: &mut Journal, plain: &mut PlainJournal) {
    let (low, high) = (journal.needed(), journal.number());
    assert!(rt; low <= high && high <= 1 << 63);
    let number = low + random.below(high - low + 1);
    journal.reclaim_to(number);
    plain.reclaim_to(number);
}

/// Makes a random call. There may be an entry that is being written.
fn step(
    rt: &impl Abort,
    alloc: Global,
    random: &mut Random,
    journal: &mut Journal,
    plain: &mut PlainJournal,
    disk: &mut MemDisk,
    g: &Geometry,
    entries: &mut Vec<PlainSealed>,
    held: Option<Sealed>,
    seen: &mut Seen,
) -> Result<Option<Sealed>, Fail>
    requires { g.now.bucket * g.now.nbuckets ≡ 8192 }
{
    match random.below(8) {
        0..=3 => add(rt, alloc, random, journal, plain, seen)?,
        4..=6 => {
            let Some(sealed) = held else {
                return seal(rt, alloc, random, journal, plain, disk, g, entries, seen);
            };
            written(rt, journal, plain, sealed);
            return Ok(None);
        }
        _ => reclaim(rt, random, journal, plain),
    }
    Ok(held)
}

/// Makes random calls on a journal without entries, and behind each it agrees with the lists.
fn run(
    rt: &impl Abort,
    alloc: Global,
    g: &Geometry,
    seed: u64,
    journals: (Journal, PlainJournal),
) -> Result<Seen, Fail>
    requires { g.now.bucket * g.now.nbuckets ≡ 8192 }
{
    let mut random = Random(seed);
    let mut disk = MemDisk::new(alloc, vec![in alloc; 0u8; 512 * SECTORS]?, 200)?;
    let (mut journal, mut plain) = journals;
    // The first entry needs itself.
    let first = journal.number();
    assert!(rt; journal.needed() <= first);
    journal.reclaim_to(first);
    plain.reclaim_to(first);
    let mut entries = Vec::new(alloc);
    let mut held = None;
    let mut seen = Seen {
        turns: 0,
        full: 0,
        ended: 0,
    };
    for _ in 0..300 {
        held = step(
            rt,
            alloc,
            &mut random,
            &mut journal,
            &mut plain,
            &mut disk,
            g,
            &mut entries,
            held,
            &mut seen,
        )?;
        agree(rt, &journal, &plain, random.below(4100) as usize);
    }
    Ok(seen)
}

/// Journals of which the first entry gets the number 1.
fn narrow(alloc: Global) -> Result<(Journal, PlainJournal), AllocError> {
    let newest = [0, 0, 0, 0];
    let journal = Journal::new(alloc, &NARROW, FRONT, &newest, 0, 1, &heads())?;
    let plain = PlainJournal::new(alloc, &NARROW, FRONT, &newest, 0, 1, &heads())?;
    Ok((journal, plain))
}

/// The same in blocks of two sectors.
fn wide(alloc: Global) -> Result<(Journal, PlainJournal), AllocError> {
    let newest = [0, 0, 0, 0];
    let journal = Journal::new(alloc, &WIDE, FRONT, &newest, 0, 1, &heads())?;
    let plain = PlainJournal::new(alloc, &WIDE, FRONT, &newest, 0, 1, &heads())?;
    Ok((journal, plain))
}

/// Journals that have numbers for 30 entries.
fn ending(alloc: Global) -> Result<(Journal, PlainJournal), AllocError> {
    let newest = [0, 0, 0, 0];
    let next = (1 << 63) - 30;
    let journal = Journal::new(alloc, &NARROW, FRONT, &newest, next - 1, next, &heads())?;
    let plain = PlainJournal::new(alloc, &NARROW, FRONT, &newest, next - 1, next, &heads())?;
    Ok((journal, plain))
}

#[test]
fn journals_are_those_of_plain_lists(rt: HostRuntime) -> Result<(), Fail> {
    let alloc = rt.alloc();
    let seen = run(&rt, alloc, &NARROW, 3, narrow(alloc)?)?;
    assert!(rt; seen.turns > 3 && seen.full > 0 && seen.ended == 0);
    let seen = run(&rt, alloc, &WIDE, 4, wide(alloc)?)?;
    assert!(rt; seen.turns > 3 && seen.full > 0 && seen.ended == 0);
    let seen = run(&rt, alloc, &NARROW, 5, ending(alloc)?)?;
    assert!(rt; seen.ended > 0);
    Ok(())
}

/// The bytes of an entry of 80 keys, of which the first begins at a sector.
fn eighty(rt: &impl Abort, alloc: Global, journal: Journal, first: u64) -> Result<Vec<u8>, Fail>
    requires { first ≤ 800 }
{
    let mut journal = journal;
    let mut keys = Vec::new(alloc);
    for i in 0..80 {
        keys.push(key_at(first + 8 + 8 * i, 2048 + 8 * i))?;
    }
    assert!(rt; are_extents(&keys) && journal.number() < 1 << 63);
    assert!(rt; journal.room(word_count(&keys)));
    journal.add(&keys);
    assert!(rt; journal.sealed() == None);
    assert!(rt; journal.room(0));
    let Ok(sealed) = journal.seal(&heads()) else {
        return Err(Fail::new("no number is left"));
    };
    let bytes = Vec::from_slice(alloc, sealed.bytes())?;
    Ok(bytes)
}

/// The sectors of which `mask` has a bit are new, and the others old.
fn mixed(bytes: &mut [u8], new: &[u8], mask: u32)
    requires { length bytes.old ≡ length new.now }
{
    for (i, byte) in bytes.iter_mut().enumerate() {
        if i < new.len() && mask >> (i / 512 % 32) as u32 & 1 == 1 {
            *byte = new[i];
        }
    }
}

/// The number of the entry at the front of the bytes.
fn number_in(alloc: Global, bytes: &[u8]) -> Option<u64> {
    let (entry, _) = read_entry(alloc, bytes, 1).ok()?;
    Some(entry.seq)
}

#[test]
fn each_torn_form_of_eighty_keys(rt: HostRuntime) -> Result<(), Fail> {
    let alloc = rt.alloc();
    let newest = [0, 0, 0, 0];
    let journal = Journal::new(alloc, &NARROW, FRONT, &newest, 6, 7, &heads())?;
    let new = eighty(&rt, alloc, journal, 640)?;
    assert_eq!(rt; new.len(), 2560);
    // Over zeros, and over an older entry of as many keys.
    let journal = Journal::new(alloc, &NARROW, FRONT, &newest, 2, 3, &heads())?;
    for (old, number) in [
        (vec![in alloc; 0u8; 2560]?, None),
        (eighty(&rt, alloc, journal, 0)?, Some(3)),
    ] {
        for mask in 0..32 {
            let mut bytes = Vec::from_slice(alloc, &old)?;
            assert!(rt; bytes.len() == new.len());
            mixed(&mut bytes, &new, mask);
            let wanted = match mask {
                0 => number,
                31 => Some(7),
                _ => None,
            };
            assert_eq!(rt; number_in(alloc, &bytes), wanted, "{mask}");
        }
    }
    Ok(())
}
