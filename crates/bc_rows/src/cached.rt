//! Traces that read or flush, over pairs with a cache: data from both devices, and calls that fail
//! on the way.
ghost use Rattle.std.specs.Prelude.{◌≡◌, ◌+◌, ◌*◌, ◌<◌, ◌≤◌, length};

use crate::calls::{source, test_end};
use crate::pair::{BACKING_SECTORS, CACHE_SECTORS, Pair, formatted, test_run};
use bc_bytes::{crc64, put_u64};
use bc_disk::crash::Pick;
use bc_disk::mem_disk::MemDisk;
use bc_disk::mem_sink::MemSink;
use bc_model::sector::pattern;
use bc_output::status::Status;
use bc_top::exit::Exit;
use bc_top::top::bcache;
use std::alloc::Global;
use std::process::Abort;
use std::sync::Wait;
use std::test::Fail;

/// The bytes of a bucket. The journal's entry stands in bucket 1, and the tree's leaf in bucket 12.
const BUCKET: usize = 32_768;

const ENTRY: usize = BUCKET;

const LEAF: usize = 12 * BUCKET;

/// The first word of a key of 8 sectors with one pointer, clean and dirty.
const CLEAN: u64 = (1 << 63) | (1 << 60) | (8 << 20);

const DIRTY: u64 = CLEAN | (1 << 36);

/// A trace of what the pair has, and what it is answered: clean and dirty data of the leaf, dirty
/// data of the journal, and sectors that are zero on the backing device.
const TRACE: &str = "1 r 0 40\n# nothing\n1 r 20 8\n1 r 4096 1\n";

const TEXT: &str = "7x8 zerox8 9x8 6x8 zerox8\n9x4 6x4\nout-of-range\n";

// Puts so many sectors with the patterns of a stamp, for the sectors of the data from `first` on.
fn put_patterns<R: Abort>(rt: &R, bytes: &mut [u8], at: usize, stamp: u64, first: u64) {
    assert!(rt; at < 1 << 30 && first < 1 << 30 && 1 <= stamp);
    for i in 0..8 {
        let begin = 512 * (at + i);
        assert!(rt; begin + 512 <= bytes.len());
        bytes[begin..begin + 512].copy_from_slice(&pattern(stamp, first + i as u64));
    }
}

// Puts the words from this byte on, and makes the checksum of their record right.
fn put_keys<R: Abort>(
    rt: &R,
    bytes: &mut [u8],
    at: usize,
    place: usize,
    words: &[u64],
    start: u64,
) {
    assert!(rt; at < 1 << 30 && place < 1 << 10 && words.len() < 100);
    let end = at + place + 8 * words.len();
    assert!(rt; at + 32 <= end && end <= bytes.len());
    put_u64(bytes, at + 24, 1 | ((words.len() as u64) << 32));
    for (i, word) in words.iter().enumerate() {
        put_u64(bytes, at + place + 8 * i, *word);
    }
    let sum = crc64(start, &bytes[at + 8..end]);
    put_u64(bytes, at, sum);
}

// A disk of these bytes.
fn disk<R: Abort>(rt: &R, alloc: Global, bytes: Vec<u8>) -> Result<MemDisk, Fail> {
    assert!(rt; bytes.len() % 512 == 0 && bytes.len() < 20000 * 512);
    Ok(MemDisk::new(alloc, bytes, 1000)?)
}

// A formatted pair of which the first 40 sectors of data are zero.
fn fresh<R: Abort + Wait>(rt: &R, alloc: Global) -> Result<Pair, Fail> {
    let pair = formatted(rt, alloc)?;
    let mut backing = Vec::from_slice(alloc, pair.backing.bytes())?;
    assert_eq!(rt; backing.len(), 512 * BACKING_SECTORS);
    backing[512 * 16..512 * 56].fill(0);
    Ok(Exit {
        status: Status::Done,
        cache: disk(rt, alloc, Vec::from_slice(alloc, pair.cache.bytes())?)?,
        backing: disk(rt, alloc, backing)?,
        pass: None,
    })
}

// The same with data: sectors 0 to 7, clean, and 16 to 23, dirty, of which the leaf has the keys,
// and 24 to 31, dirty, of which the journal has it.
fn with_data<R: Abort + Wait>(rt: &R, alloc: Global) -> Result<Pair, Fail> {
    let pair = fresh(rt, alloc)?;
    let mut cache = Vec::from_slice(alloc, pair.cache.bytes())?;
    assert_eq!(rt; cache.len(), 512 * CACHE_SECTORS);
    let leaf = [CLEAN, 8, (100 * 64) << 8, DIRTY, 24, (101 * 64) << 8];
    put_keys(rt, &mut cache, LEAF, 32, &leaf, 768 << 8);
    put_keys(
        rt,
        &mut cache,
        ENTRY,
        240,
        &[DIRTY, 32, (102 * 64) << 8],
        u64::MAX,
    );
    put_patterns(rt, &mut cache, 6400, 7, 0);
    put_patterns(rt, &mut cache, 6464, 9, 16);
    put_patterns(rt, &mut cache, 6528, 6, 24);
    let mut backing = Vec::from_slice(alloc, pair.backing.bytes())?;
    put_patterns(rt, &mut backing, 16, 7, 0);
    put_patterns(rt, &mut backing, 32, 8, 16);
    put_patterns(rt, &mut backing, 40, 5, 24);
    Ok(Exit {
        status: Status::Done,
        cache: disk(rt, alloc, cache)?,
        backing: disk(rt, alloc, backing)?,
        pass: None,
    })
}

// Serves the trace over the pair: what is printed, and the status.
fn test_trace<R: Abort + Wait>(
    rt: &R,
    alloc: Global,
    pair: Pair,
    trace: &str,
    text: &str,
    status: u8,
) -> Result<Pair, Fail> {
    let words = [String::from_str(alloc, "serve")?];
    let mut source = source(alloc, trace)?;
    let mut out = MemSink::new(alloc, 1000)?;
    let ran = bcache(
        rt,
        alloc,
        &words,
        &mut source,
        pair.cache,
        pair.backing,
        &mut out,
    );
    test_end(rt, &ran, out.bytes(), text.as_bytes(), status);
    Ok(ran)
}

// Serves the trace over what this crash leaves of the pair.
fn test_crash<R: Abort + Wait>(
    rt: &R,
    alloc: Global,
    pair: &Pair,
    pick: Pick,
    trace: &str,
    text: &str,
) -> Result<(), Fail> {
    let left = Exit {
        status: Status::Done,
        cache: pair.cache.crash(pick)?,
        backing: pair.backing.crash(pick)?,
        pass: None,
    };
    test_trace(rt, alloc, left, trace, text, 0)?;
    Ok(())
}

#[test]
fn a_fresh_pair_is_read(rt: HostRuntime) -> Result<(), Fail> {
    let alloc = rt.alloc();
    let pair = fresh(&rt, alloc)?;
    let text = "zerox2\nout-of-range\n";
    let ran = test_trace(&rt, alloc, pair, "1 r 0 2\n-\n1 r 4095 2\n", text, 0)?;
    assert!(rt; ran.pass.is_some());
    let sound = "check sound dirty 0 clean 0\n";
    test_run(&rt, alloc, ran, "check", sound, 0)?;
    Ok(())
}

#[test]
fn both_devices_are_read(rt: HostRuntime) -> Result<(), Fail> {
    let alloc = rt.alloc();
    let pair = with_data(&rt, alloc)?;
    let ran = test_trace(&rt, alloc, pair, TRACE, TEXT, 0)?;
    for pick in [Pick::Stable, Pick::Newest, Pick::Mixed(1)] {
        test_crash(&rt, alloc, &ran, pick, TRACE, TEXT)?;
    }
    let ran = test_trace(&rt, alloc, ran, TRACE, TEXT, 0)?;
    test_run(
        &rt,
        alloc,
        ran,
        "check",
        "check sound dirty 16 clean 8\n",
        0,
    )?;
    Ok(())
}

#[test]
fn writes_and_rounds_are_unserved(rt: HostRuntime) -> Result<(), Fail> {
    let alloc = rt.alloc();
    for more in ["1 w 0 1 7", "1 W 0 1 7", "1 b", "1 c", "1 m"] {
        let pair = fresh(&rt, alloc)?;
        let before = Vec::from_slice(alloc, pair.backing.bytes())?;
        let trace = format!(in alloc; "1 r 0 1\n1 f\n{more}\n")?;
        let ran = test_trace(&rt, alloc, pair, trace.as_str(), "unserved\n", 5)?;
        assert!(rt; ran.pass.is_none());
        assert!(rt; *ran.backing.bytes() == *before);
    }
    Ok(())
}

// How often both devices are called where the trace is served and nothing fails.
fn calls<R: Abort + Wait>(
    rt: &R,
    alloc: Global,
    trace: &str,
    text: &str,
) -> Result<(u64, u64), Fail> {
    let pair = with_data(rt, alloc)?;
    let ran = test_trace(rt, alloc, pair, trace, text, 0)?;
    Ok((ran.cache.calls(), ran.backing.calls()))
}

#[test]
fn clean_data_outlives_a_failed_read(rt: HostRuntime) -> Result<(), Fail> {
    let alloc = rt.alloc();
    let (last, _) = calls(&rt, alloc, "1 r 0 8\n", "7x8\n")?;
    let mut pair = with_data(&rt, alloc)?;
    pair.cache.fail(last)?;
    let ran = test_trace(&rt, alloc, pair, "1 r 0 8\n1 r 16 8\n", "7x8\n9x8\n", 0)?;
    assert_eq!(rt; ran.cache.faults(), 1);
    Ok(())
}

#[test]
fn dirty_data_does_not(rt: HostRuntime) -> Result<(), Fail> {
    let alloc = rt.alloc();
    let (last, _) = calls(&rt, alloc, "1 r 16 8\n", "9x8\n")?;
    let mut pair = with_data(&rt, alloc)?;
    pair.cache.fail(last)?;
    let ran = test_trace(
        &rt,
        alloc,
        pair,
        "1 r 16 8\n1 r 0 8\n",
        "fault cache\n7x8\n",
        6,
    )?;
    assert!(rt; ran.pass.is_some());
    test_crash(&rt, alloc, &ran, Pick::Newest, TRACE, TEXT)
}

#[test]
fn flushes_are_done(rt: HostRuntime) -> Result<(), Fail> {
    let alloc = rt.alloc();
    let trace = "1 r 16 8\n1 f\n1 r 0 8\n1 f\n";
    let text = "9x8\ndone\n7x8\ndone\n";
    let pair = with_data(&rt, alloc)?;
    let ran = test_trace(&rt, alloc, pair, trace, text, 0)?;
    for pick in [Pick::Stable, Pick::Newest, Pick::Mixed(1)] {
        test_crash(&rt, alloc, &ran, pick, TRACE, TEXT)?;
    }
    // A flush is one call of the backing device.
    let (_, without) = calls(&rt, alloc, "1 r 16 8\n1 r 0 8\n", "9x8\n7x8\n")?;
    assert_eq!(rt; ran.backing.calls(), without.saturating_add(2));
    Ok(())
}

#[test]
fn the_barrier_of_a_flush_fails(rt: HostRuntime) -> Result<(), Fail> {
    let alloc = rt.alloc();
    // It comes where without it that of the closing does.
    let (_, closing) = calls(&rt, alloc, "1 r 16 8\n", "9x8\n")?;
    let mut pair = with_data(&rt, alloc)?;
    pair.backing.fail(closing)?;
    let trace = "1 r 16 8\n1 f\n1 r 16 8\n1 f\n";
    let text = "9x8\nfault backing\nhalted backing\nhalted backing\n";
    let ran = test_trace(&rt, alloc, pair, trace, text, 6)?;
    assert_eq!(rt; ran.backing.faults(), 1);
    test_crash(&rt, alloc, &ran, Pick::Newest, TRACE, TEXT)
}

#[test]
fn the_closing_fails(rt: HostRuntime) -> Result<(), Fail> {
    let alloc = rt.alloc();
    let (_, last) = calls(&rt, alloc, "1 r 16 8\n", "9x8\n")?;
    let mut pair = with_data(&rt, alloc)?;
    pair.backing.fail(last)?;
    let ran = test_trace(&rt, alloc, pair, "1 r 16 8\n", "9x8\nfault backing\n", 6)?;
    test_crash(&rt, alloc, &ran, Pick::Newest, TRACE, TEXT)
}

// The same pair once more, as it is.
fn copied(pair: &Pair) -> Result<Pair, Fail> {
    Ok(Exit {
        status: Status::Done,
        cache: pair.cache.crash(Pick::Newest)?,
        backing: pair.backing.crash(Pick::Newest)?,
        pass: None,
    })
}

#[test]
fn each_call_of_an_opening_fails(rt: HostRuntime) -> Result<(), Fail> {
    let alloc = rt.alloc();
    let trace = "1 r 16 8\n";
    let (cache, backing) = calls(&rt, alloc, trace, "9x8\n")?;
    assert!(rt; 5 <= cache && cache < 100 && backing < 100);
    let pair = with_data(&rt, alloc)?;
    // The last five of the cache device are the entry's three, that of the leaf and that of the
    // data.
    for call in cache - 4..cache + 1 {
        let mut failing = copied(&pair)?;
        failing.cache.fail(call)?;
        let ran = test_trace(&rt, alloc, failing, trace, "fault cache\n", 6)?;
        test_crash(&rt, alloc, &ran, Pick::Mixed(call), trace, "9x8\n")?;
    }
    for call in 1..backing {
        let mut failing = copied(&pair)?;
        failing.backing.fail(call)?;
        let ran = test_trace(&rt, alloc, failing, trace, "fault backing\n", 6)?;
        test_crash(&rt, alloc, &ran, Pick::Mixed(call), trace, "9x8\n")?;
    }
    Ok(())
}
