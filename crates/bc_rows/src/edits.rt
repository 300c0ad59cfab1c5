//! Pairs with a record that was edited, and why they are refused.
//!
//! An edit puts a few words into the cache device of a formatted pair. Most times it makes the
//! checksum of their record right again, as a writer that is wrong would, or one that means harm: what
//! is then said of the pair can't rest on a checksum.
use crate::pair::{CACHE_SECTORS, Pair, formatted, test_run};
use bc_bytes::{crc64, put_u64};
use bc_disk::mem_disk::MemDisk;
use bc_output::status::Status;
use bc_top::exit::Exit;
use std::alloc::Global;
use std::process::Abort;
use std::sync::Wait;
use std::test::Fail;

/// The bytes of a bucket, and those at which the records begin.
const BUCKET: usize = 32_768;

const SUPER: usize = 4096;

const ENTRY: usize = BUCKET;

const GENERATIONS: usize = 9 * BUCKET;

const TABLE: usize = 10 * BUCKET;

const ROOT: usize = 11 * BUCKET;

const LEAF: usize = 12 * BUCKET;

/// What a checksum starts from: all ones, or the word of the pointer to a node.
const ONES: u64 = u64::MAX;

const TO_ROOT: u64 = 704 << 8;

const TO_LEAF: u64 = 768 << 8;

/// The first word of a key with one pointer, of a node of 64 sectors and of one sector.
const NODE: u64 = (1 << 60) | (64 << 20);

const SECTOR: u64 = (1 << 60) | (1 << 20);

/// The word behind the number of a set: version 1, and how many words follow.
const SIX_WORDS: u64 = 1 | (6 << 32);

const THREE_WORDS: u64 = 1 | (3 << 32);

const TOO_MANY_WORDS: u64 = 1 | (0xffff_ffff << 32);

/// A word, and the byte at which it is put.
type Put = (usize, u64);

/// A record whose checksum is made right: where it begins, where it ends, and what the checksum starts
/// from. It has no bytes where none is.
type Record = (usize, usize, u64);

const NONE: Record = (0, 0, 0);

/// What `check` prints of a pair without data on its cache device.
const SOUND: &str = "check sound dirty 0 clean 0\n";

/// Why an edited pair is refused, by its number.
#[derive(Clone, Copy, Debug, PartialEq, Eq, Drop)]
enum Refusal {
    /// The superblock of the cache device is.
    Superblock(u8),
    /// What stands behind the superblocks is.
    Image(u8),
}

// What a command that reads the whole of a pair prints of it, and its status.
fn answer(alloc: Global, refusal: Refusal) -> Result<(String, u8), Fail> {
    Ok(match refusal {
        Refusal::Superblock(number) => (format!(in alloc; "superblock cache {number}\n")?, 4),
        Refusal::Image(number) => (format!(in alloc; "image {number}\n")?, 5),
    })
}

// Puts the words, and makes the checksum right.
fn edit<R: Abort>(rt: &R, bytes: &mut [u8], words: &[Put], record: Record) {
    for (place, word) in words {
        assert!(rt; 8 <= bytes.len() && *place <= bytes.len() - 8);
        put_u64(bytes, *place, *word);
    }
    let (begin, end, start) = record;
    assert!(rt; begin <= end && end <= bytes.len());
    if end - begin > 8 {
        let sum = crc64(start, &bytes[begin + 8..end]);
        put_u64(bytes, begin, sum);
    }
}

// A copy of a formatted pair that was edited so, and of whose cache device so many sectors are left.
fn edited<R: Abort>(
    rt: &R,
    alloc: Global,
    pair: &Pair,
    words: &[Put],
    record: Record,
    sectors: usize,
) -> Result<Pair, Fail> {
    let mut bytes = Vec::from_slice(alloc, pair.cache.bytes())?;
    edit(rt, &mut bytes, words, record);
    assert!(rt; sectors <= CACHE_SECTORS);
    bytes.truncate(512 * sectors);
    assert!(rt; bytes.len() % 512 == 0 && bytes.len() < 20000 * 512);
    let cache = MemDisk::new(alloc, bytes, 0)?;
    let backing = Vec::from_slice(alloc, pair.backing.bytes())?;
    assert!(rt; backing.len() % 512 == 0 && backing.len() < 20000 * 512);
    Ok(Exit {
        status: Status::Done,
        cache,
        backing: MemDisk::new(alloc, backing, 0)?,
        pass: None,
    })
}

// Runs the command over the edited pair. It is refused, and nothing is written.
fn test_edit<R: Abort + Wait>(
    rt: &R,
    alloc: Global,
    command: &str,
    pair: Pair,
    answer: (String, u8),
) -> Result<(), Fail> {
    let ran = test_run(rt, alloc, pair, command, answer.0.as_str(), answer.1)?;
    assert!(rt; ran.pass.is_none());
    // The devices have no room for a write, and no call failed.
    assert_eq!(rt; (ran.cache.faults(), ran.backing.faults()), (0, 0));
    Ok(())
}

// Runs a command that reads the whole of a pair over each edited one.
fn test_edits<R: Abort + Wait>(rt: &R, alloc: Global, command: &str) -> Result<(), Fail> {
    let formatted = formatted(rt, alloc)?;
    let superblock = (SUPER, SUPER + 272, ONES);
    let entry = (ENTRY, ENTRY + 240, ONES);
    for (words, record, sectors, refusal) in [
        // The superblock: its magic; the last bucket of its list, also with the checksum made right; a
        // version that isn't a cache device's, and one with feature words of which one is set.
        (
            [(SUPER + 24, 0)].as_slice(),
            NONE,
            8192,
            Refusal::Superblock(1),
        ),
        (
            [(SUPER + 264, 9)].as_slice(),
            NONE,
            8192,
            Refusal::Superblock(2),
        ),
        (
            [(SUPER + 264, 9)].as_slice(),
            superblock,
            8192,
            Refusal::Superblock(13),
        ),
        (
            [(SUPER + 16, 4)].as_slice(),
            superblock,
            8192,
            Refusal::Superblock(3),
        ),
        (
            [(SUPER + 16, 5), (SUPER + 128, 1)].as_slice(),
            superblock,
            8192,
            Refusal::Superblock(20),
        ),
        // Entry 1: the oldest entry that it needs, also with the checksum made right; the bucket of the
        // generations; its number, from which on no other one is left.
        ([(ENTRY + 32, 0)].as_slice(), NONE, 8192, Refusal::Image(2)),
        ([(ENTRY + 32, 0)].as_slice(), entry, 8192, Refusal::Image(3)),
        (
            [(ENTRY + 176, 8)].as_slice(),
            entry,
            8192,
            Refusal::Image(4),
        ),
        (
            [(ENTRY + 16, (1 << 63) - 2), (ENTRY + 32, (1 << 63) - 2)].as_slice(),
            entry,
            8192,
            Refusal::Image(9),
        ),
        // The generations' next bucket is their own; the uuid table's first uuid is another.
        (
            [(GENERATIONS + 32, 9)].as_slice(),
            (GENERATIONS, GENERATIONS + BUCKET, ONES),
            8192,
            Refusal::Image(4),
        ),
        ([(TABLE, 0)].as_slice(), NONE, 8192, Refusal::Image(11)),
        // The root: more words than there are; a child in the generations' bucket; two children in one
        // bucket.
        (
            [(ROOT + 24, TOO_MANY_WORDS)].as_slice(),
            NONE,
            8192,
            Refusal::Image(5),
        ),
        (
            [(ROOT + 48, 576 << 8)].as_slice(),
            (ROOT, ROOT + 56, TO_ROOT),
            8192,
            Refusal::Image(5),
        ),
        (
            [
                (ROOT + 24, SIX_WORDS),
                (ROOT + 32, NODE),
                (ROOT + 40, 256),
                (ROOT + 56, NODE),
                (ROOT + 64, 1 << 40),
                (ROOT + 72, TO_LEAF),
            ]
            .as_slice(),
            (ROOT, ROOT + 80, TO_ROOT),
            8192,
            Refusal::Image(10),
        ),
        // The leaf has the key of a sector on another device.
        (
            [
                (LEAF + 24, THREE_WORDS),
                (LEAF + 32, SECTOR),
                (LEAF + 40, 1),
                (LEAF + 48, (1 << 51) | (832 << 8)),
            ]
            .as_slice(),
            (LEAF, LEAF + 56, TO_LEAF),
            8192,
            Refusal::Image(6),
        ),
        // The leaf's set is of a version that there isn't.
        (
            [(LEAF + 24, 2)].as_slice(),
            (LEAF, LEAF + 32, TO_LEAF),
            8192,
            Refusal::Image(5),
        ),
        // The device ends before its superblock may.
        ([].as_slice(), NONE, 15, Refusal::Superblock(9)),
        ([].as_slice(), NONE, 8191, Refusal::Superblock(9)),
    ] {
        let pair = edited(rt, alloc, &formatted, words, record, sectors)?;
        test_edit(rt, alloc, command, pair, answer(alloc, refusal)?)?;
    }
    Ok(())
}

#[test]
fn edited_pairs_are_refused(rt: HostRuntime) -> Result<(), Fail> {
    test_edits(&rt, rt.alloc(), "serve")
}

#[test]
fn a_check_refuses_edited_pairs(rt: HostRuntime) -> Result<(), Fail> {
    test_edits(&rt, rt.alloc(), "check")
}

#[test]
fn a_version_with_feature_words(rt: HostRuntime) -> Result<(), Fail> {
    let alloc = rt.alloc();
    let superblock = (SUPER, SUPER + 272, ONES);
    let formatted = formatted(&rt, alloc)?;
    let words = [(SUPER + 16, 5)];
    let pair = edited(&rt, alloc, &formatted, &words, superblock, CACHE_SECTORS)?;
    let text =
        "cache version 5 block 1 bucket 64 buckets 128 first 1 journal 8 replacement lru sync 1 discard 0
cache uuid ca000000000000000000000000000ca0 set 5e70000000000000000000000000005e
backing version 1 offset 16 size 4096 mode writethrough state clean
backing uuid ba0000000000000000000000000000ba set 5e70000000000000000000000000005e
";
    let pair = test_run(&rt, alloc, pair, "show", text, 0)?;
    let pair = test_run(&rt, alloc, pair, "check", SOUND, 0)?;
    test_run(&rt, alloc, pair, "serve", "unserved\n", 5)?;
    Ok(())
}

#[test]
fn a_set_of_version_0(rt: HostRuntime) -> Result<(), Fail> {
    let alloc = rt.alloc();
    let formatted = formatted(&rt, alloc)?;
    let leaf = (LEAF, LEAF + 32, ONES);
    let pair = edited(
        &rt,
        alloc,
        &formatted,
        &[(LEAF + 24, 0)],
        leaf,
        CACHE_SECTORS,
    )?;
    let pair = test_run(&rt, alloc, pair, "check", SOUND, 0)?;
    test_run(&rt, alloc, pair, "serve", "unserved\n", 5)?;
    Ok(())
}
