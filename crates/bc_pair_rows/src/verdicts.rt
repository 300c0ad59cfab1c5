//! A pair by its bytes, what is said of its buckets, and whether it is sound.

ghost use Rattle.std.specs.Prelude.{◌≡◌, ◌≤◌, length};

use bc_bytes::{crc64, put_u32, put_u64};
use bc_check::{
    BucketLine, CheckError, Verdict, check_pair, count_sectors, first_aged, list_buckets,
};
use bc_disk::disk::Device;
use bc_disk::mem_disk::MemDisk;
use bc_keys::put_words;
use bc_mode::Mode;
use bc_pair::error::PairError;
use bc_pair::format::{NewPair, format};
use bc_replay::{OpenError, Survey, Use, survey};
use std::alloc::{AllocError, Global};
use std::process::Abort;
use std::test::Fail;

/// The bytes of the cache device: 128 buckets of 64 sectors.
const CACHE: usize = 128 * 64 * 512;

/// The first word of a key of four sectors with one pointer.
const CLEAN: u64 = (1 << 63) + (1 << 60) + (4 << 20);

/// The same of a dirty key.
const DIRTY: u64 = CLEAN + (1 << 36);

/// What is done to a pair that is sound.
#[derive(Clone, Copy, Debug, Drop)]
enum Edit {
    /// Nothing.
    None,
    /// Another byte of the backing device, at this place.
    Flip(usize),
    /// One more key, of sectors 20 to 23, with this first word and this pointer.
    Key(u64, u64),
    /// Its first entry once more, at this sector, with this number.
    Entry(usize, u64),
    /// The backing device asks for no cache.
    Alone,
}

// A disk of so many zeros, in sectors.
fn blank(alloc: Global, sectors: usize) -> Result<MemDisk, AllocError>
    requires { sectors ≤ 65536 }
{
    MemDisk::new(alloc, vec![in alloc; 0u8; 512 * sectors]?, 1000)
}

// A new pair, with 48 sectors of data.
fn new_pair(alloc: Global) -> Result<(MemDisk, MemDisk), PairError> {
    let mut cache = blank(alloc, CACHE / 512)?;
    let mut backing = blank(alloc, 64)?;
    let pair = NewPair {
        set_uuid: [1; 16],
        cache_uuid: [2; 16],
        backing_uuid: [3; 16],
        block: 1,
        bucket: 64,
        mode: Mode::Writethrough,
        offset: 16,
    };
    format(alloc, &mut cache, &mut backing, &pair)?;
    Ok((cache, backing))
}

// The word of a pointer.
fn word(sector: u64, generation: u8) -> u64
    requires { sector ≤ 10000 }
{
    (sector << 8) + u64::from(generation)
}

// Puts keys into the leaf, each by its first word, its end and its pointer.
fn put_leaf(bytes: &mut [u8], keys: &[[u64; 3]])
    requires large { 4194304 ≤ length bytes.old }
    requires few { length keys.now ≤ 3 }
    ensures { length bytes.new ≡ length bytes.old }
{
    let at = 768 * 512;
    put_u32(bytes, at + 28, 3 * keys.len() as u32);
    for i in 0..keys.len() {
        put_words(bytes, at + 32 + 24 * i, &keys[i]);
    }
    let sum = crc64(768 << 8, &bytes[at + 8..at + 32 + 24 * keys.len()]);
    put_u64(bytes, at, sum);
}

// What is read of a pair with these three pointers.
fn surveyed(
    rt: &impl Abort,
    alloc: Global,
    first: u64,
    second: u64,
    third: u64,
) -> Result<Result<Survey, OpenError>, PairError> {
    let (made, mut backing) = new_pair(alloc)?;
    let mut bytes = Vec::from_slice(alloc, made.bytes())?;
    assert_eq!(rt; bytes.len(), CACHE);
    let keys = [[CLEAN, 8, first], [DIRTY, 12, second], [DIRTY, 20, third]];
    put_leaf(&mut bytes, &keys);
    let mut cache = MemDisk::new(alloc, bytes, 1000)?;
    Ok(survey(alloc, &mut cache, &mut backing))
}

#[test]
fn lists(rt: HostRuntime) -> Result<(), Fail> {
    let alloc = rt.alloc();
    let (mut cache, mut backing) = new_pair(alloc)?;
    let new = list_buckets(alloc, &survey(alloc, &mut cache, &mut backing)?)?;
    assert_eq!(rt; new.len(), 13);
    // Two keys point into bucket 100, and a stale one into bucket 101.
    let s = surveyed(&rt, alloc, word(6400, 0), word(6404, 0), word(6464, 200))??;
    let lines = list_buckets(alloc, &s)?;
    assert_eq!(rt; lines.len(), 14);
    for i in 0..14u32 {
        let kind = match i {
            0 => Use::Super,
            1..=8 => Use::Journal,
            9 => Use::Priority,
            10 => Use::Uuid,
            11 | 12 => Use::Node,
            _ => Use::Data,
        };
        let (bucket, live, dirty) = if i == 13 { (100, 8, 4) } else { (i, 0, 0) };
        let line = BucketLine {
            bucket,
            kind,
            generation: 0,
            live,
            dirty,
        };
        assert_eq!(rt; lines.get(i as usize), Some(&line), "line {i}");
    }
    let totals = count_sectors(&s);
    assert_eq!(rt; (totals.dirty, totals.clean), (4, 4));
    Ok(())
}

#[test]
fn ages(rt: HostRuntime) -> Result<(), Fail> {
    // The generation of a pointer for each key: how far it lies behind is 256 less that.
    for (generations, aged) in [
        ((0, 0, 0), None),
        ((160, 0, 0), None),
        ((159, 0, 0), Some(4)),
        ((0, 255, 0), Some(8)),
        ((0, 0, 1), Some(16)),
        ((160, 0, 200), Some(16)),
    ] {
        let (a, b, c) = generations;
        let s = surveyed(&rt, rt.alloc(), word(6400, a), word(6464, b), word(6528, c))??;
        assert_eq!(rt; first_aged(&s), aged, "{generations:?}");
    }
    Ok(())
}

// Puts the first entry once more, at a sector, with a number.
fn put_entry(bytes: &mut [u8], sector: usize, seq: u64)
    requires large { 4194304 ≤ length bytes.old }
    requires sector { sector ≤ 8000 }
    ensures { length bytes.new ≡ length bytes.old }
{
    let at = 512 * sector;
    for k in 0..240 {
        bytes[at + k] = bytes[64 * 512 + k];
    }
    put_u64(bytes, at + 16, seq);
    let sum = crc64(u64::MAX, &bytes[at + 8..at + 240]);
    put_u64(bytes, at, sum);
}

// Lets the backing device ask for no cache: its mode is none, and it has no state.
fn put_alone(bytes: &mut [u8])
    requires { 8192 ≤ length bytes.old }
    ensures { length bytes.new ≡ length bytes.old }
{
    let at = 8 * 512;
    put_u64(bytes, at + 104, 3);
    let sum = crc64(u64::MAX, &bytes[at + 8..at + 208]);
    put_u64(bytes, at, sum);
}

// A sound pair, after an edit. Of sectors 8 to 15 both devices have the same data, no zeros.
fn edited(rt: &impl Abort, alloc: Global, edit: Edit) -> Result<(MemDisk, MemDisk), PairError> {
    let (made, old) = new_pair(alloc)?;
    let mut cache = Vec::from_slice(alloc, made.bytes())?;
    let mut backing = Vec::from_slice(alloc, old.bytes())?;
    assert_eq!(rt; (cache.len(), backing.len()), (CACHE, 64 * 512));
    for k in 0..4096 {
        cache[6400 * 512 + k] = (k / 16) as u8;
        backing[24 * 512 + k] = (k / 16) as u8;
    }
    let clean = [CLEAN + (4 << 20), 16, word(6400, 0)];
    put_leaf(&mut cache, &[clean]);
    match edit {
        Edit::None => {}
        Edit::Flip(at) => {
            if at < backing.len() {
                backing[at] ^= 1;
            }
        }
        Edit::Key(head, pointer) => put_leaf(&mut cache, &[clean, [head, 24, pointer]]),
        Edit::Entry(sector, seq) => {
            if sector <= 8000 {
                put_entry(&mut cache, sector, seq);
            }
        }
        Edit::Alone => put_alone(&mut backing),
    }
    let cache = MemDisk::new(alloc, cache, 1000)?;
    let backing = MemDisk::new(alloc, backing, 1000)?;
    Ok((cache, backing))
}

#[test]
fn verdicts(rt: HostRuntime) -> Result<(), Fail> {
    let sound = Verdict::Sound { dirty: 0, clean: 8 };
    for (edit, verdict) in [
        (Edit::None, sound),
        // Another byte of the fourth of these sectors, of the last one, and of an uncached one.
        (Edit::Flip(27 * 512 + 5), Verdict::Agree { sector: 11 }),
        (Edit::Flip(31 * 512 + 511), Verdict::Agree { sector: 15 }),
        (Edit::Flip(32 * 512), sound),
        (
            Edit::Key(DIRTY, word(6464, 0)),
            Verdict::Sound { dirty: 4, clean: 8 },
        ),
        (Edit::Key(CLEAN, word(6464, 160)), sound),
        (
            Edit::Key(CLEAN, word(6464, 159)),
            Verdict::Age { sector: 20 },
        ),
        // A later number behind the entry, an equal one in the next bucket, the next one where the
        // ring goes on, and one that is no longer needed.
        (Edit::Entry(72, 5), Verdict::Journal { bucket: 1 }),
        (Edit::Entry(191, 1), Verdict::Journal { bucket: 2 }),
        (Edit::Entry(128, 2), sound),
        (Edit::Entry(130, 0), sound),
        (Edit::Alone, Verdict::PassThrough),
    ] {
        let (mut cache, mut backing) = edited(&rt, rt.alloc(), edit)?;
        let said = check_pair(rt.alloc(), &mut cache, &mut backing);
        assert_eq!(rt; said, Ok(verdict), "{edit:?}");
    }
    let (mut cache, mut backing) = new_pair(rt.alloc())?;
    let said = check_pair(rt.alloc(), &mut cache, &mut backing);
    assert_eq!(rt; said, Ok(Verdict::Sound { dirty: 0, clean: 0 }));
    let mut other = blank(rt.alloc(), CACHE / 512)?;
    let said = check_pair(rt.alloc(), &mut other, &mut backing);
    assert!(rt; matches!(&said, Err(CheckError::Open(OpenError::Super { .. }))));
    Ok(())
}

#[test]
fn faults(rt: HostRuntime) -> Result<(), Fail> {
    let alloc = rt.alloc();
    let (mut cache, mut backing) = edited(&rt, alloc, Edit::None)?;
    let said = check_pair(alloc, &mut cache, &mut backing);
    assert!(rt; said.is_ok());
    assert_eq!(rt; (cache.calls(), backing.calls()), (22, 3));
    for call in 1..=22 {
        cache.fail(cache.calls().saturating_add(call))?;
        let said = check_pair(alloc, &mut cache, &mut backing);
        let fault = CheckError::Fault(Device::Cache);
        assert_eq!(rt; said, Err(fault), "call {call}");
    }
    for call in 1..=3 {
        backing.fail(backing.calls().saturating_add(call))?;
        let said = check_pair(alloc, &mut cache, &mut backing);
        let fault = CheckError::Fault(Device::Backing);
        assert_eq!(rt; said, Err(fault), "call {call}");
    }
    Ok(())
}
