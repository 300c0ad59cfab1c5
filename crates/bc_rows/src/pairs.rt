//! The rows of the commands that make, show and check a pair.
ghost use Rattle.std.specs.Prelude.{◌<◌, ◌≤◌};

use crate::calls::{seal, test_calls, test_end};
use crate::pair::{
    BACKING_SECTORS, CACHE_SECTORS, FORMAT, Pair, blank, formatted, made, run, test_run,
};
use bc_disk::crash::Pick;
use bc_disk::mem_disk::MemDisk;
use bc_disk::mem_sink::MemSink;
use std::alloc::Global;
use std::process::Abort;
use std::sync::Wait;
use std::test::Fail;

/// What `show` prints of a pair that was formatted.
const SHOWN: &str =
    "cache version 3 block 1 bucket 64 buckets 128 first 1 journal 8 replacement lru sync 1 discard 0
cache uuid ca000000000000000000000000000ca0 set 5e70000000000000000000000000005e
backing version 1 offset 16 size 4096 mode writethrough state clean
backing uuid ba0000000000000000000000000000ba set 5e70000000000000000000000000005e
";

/// What `check --list` prints of it.
const LISTED: &str = "bucket 0 super gen 0 live 0 dirty 0
bucket 1 journal gen 0 live 0 dirty 0
bucket 2 journal gen 0 live 0 dirty 0
bucket 3 journal gen 0 live 0 dirty 0
bucket 4 journal gen 0 live 0 dirty 0
bucket 5 journal gen 0 live 0 dirty 0
bucket 6 journal gen 0 live 0 dirty 0
bucket 7 journal gen 0 live 0 dirty 0
bucket 8 journal gen 0 live 0 dirty 0
bucket 9 priority gen 0 live 0 dirty 0
bucket 10 uuid gen 0 live 0 dirty 0
bucket 11 node gen 0 live 0 dirty 0
bucket 12 node gen 0 live 0 dirty 0
check sound dirty 0 clean 0
";

/// What `show` prints of the pair that make-bcache wrote, before and after it is adopted.
const SHOWN_MADE: &str =
    "cache version 0 block 1 bucket 64 buckets 128 first 1 journal 0 replacement lru sync 0 discard 0
cache uuid a1f4208954bb49b9bd5b8765e1fb7fb5 set a99a46baf47a42e192749f9deb920ff0
backing version 1 offset 16 size 4096 mode writethrough state none
backing uuid 7815eacc9bce473cbeedbc10d9428558 set a99a46baf47a42e192749f9deb920ff0
";

const SHOWN_ADOPTED: &str =
    "cache version 3 block 1 bucket 64 buckets 128 first 1 journal 8 replacement lru sync 1 discard 0
cache uuid a1f4208954bb49b9bd5b8765e1fb7fb5 set a99a46baf47a42e192749f9deb920ff0
backing version 1 offset 16 size 4096 mode writethrough state clean
backing uuid 7815eacc9bce473cbeedbc10d9428558 set a99a46baf47a42e192749f9deb920ff0
";

// Whether the two images have the same bytes in each sector but the superblock's.
fn same_data(left: &[u8], before: &[u8]) -> bool {
    left.len() == before.len()
        && 4608 <= left.len()
        && left.get(..4096) == before.get(..4096)
        && left.get(4608..) == before.get(4608..)
}

// Runs a command over the pair that the last one left: the words, what is printed, and the status.
// Tests that no data sector of the backing device changes.
fn test_command<R: Abort + Wait>(
    rt: &R,
    alloc: Global,
    pair: Pair,
    words: &str,
    text: &str,
    status: u8,
) -> Result<Pair, Fail> {
    let opening = Vec::from_slice(alloc, pair.backing.bytes())?;
    let ran = test_run(rt, alloc, pair, words, text, status)?;
    assert!(rt; ran.pass.is_none());
    assert!(rt; same_data(ran.backing.bytes(), &opening));
    Ok(ran)
}

#[test]
fn a_pair_is_formatted(rt: HostRuntime) -> Result<(), Fail> {
    let alloc = rt.alloc();
    let no_backing = "superblock backing 1\n";
    let ran = blank(alloc, CACHE_SECTORS, BACKING_SECTORS)?;
    let ran = test_command(&rt, alloc, ran, "show", no_backing, 4)?;
    let ran = test_command(&rt, alloc, ran, "adopt", no_backing, 4)?;
    let ran = test_command(&rt, alloc, ran, FORMAT, "", 0)?;
    let ran = test_command(&rt, alloc, ran, "show", SHOWN, 0)?;
    let ran = test_command(&rt, alloc, ran, "check --list", LISTED, 0)?;
    let ran = test_command(&rt, alloc, ran, "adopt", "superblock cache 18\n", 4)?;
    let ran = test_command(&rt, alloc, ran, "serve", "unserved\n", 5)?;
    let ran = test_command(&rt, alloc, ran, FORMAT, "", 0)?;
    test_command(&rt, alloc, ran, "format", "usage\n", 2)?;
    Ok(())
}

#[test]
fn a_pair_is_adopted(rt: HostRuntime) -> Result<(), Fail> {
    let alloc = rt.alloc();
    let ran = made(alloc, BACKING_SECTORS)?;
    let ran = test_command(&rt, alloc, ran, "show", SHOWN_MADE, 0)?;
    let ran = test_command(&rt, alloc, ran, "serve", "superblock cache 15\n", 4)?;
    let ran = test_command(&rt, alloc, ran, "check", "superblock cache 15\n", 4)?;
    let ran = test_command(&rt, alloc, ran, "adopt", "", 0)?;
    let ran = test_command(&rt, alloc, ran, "check", "check sound dirty 0 clean 0\n", 0)?;
    let ran = test_command(&rt, alloc, ran, "show", SHOWN_ADOPTED, 0)?;
    let ran = test_command(&rt, alloc, ran, "adopt", "superblock cache 18\n", 4)?;
    test_command(&rt, alloc, ran, "serve", "unserved\n", 5)?;
    Ok(())
}

// What `show` prints of a pair that was formatted so: the same but for this of the backing device.
fn shown(alloc: Global, backing: &str) -> Result<String, Fail> {
    Ok(format!(in alloc;
        "cache version 3 block 1 bucket 64 buckets 128 first 1 journal 8 replacement lru sync 1 discard 0\n\
         cache uuid ca000000000000000000000000000ca0 set 5e70000000000000000000000000005e\n\
         backing {backing} state clean\n\
         backing uuid ba0000000000000000000000000000ba set 5e70000000000000000000000000005e\n"
    )?)
}

#[test]
fn a_pair_has_a_mode_and_an_offset(rt: HostRuntime) -> Result<(), Fail> {
    let alloc = rt.alloc();
    let mut ran = blank(alloc, CACHE_SECTORS, BACKING_SECTORS)?;
    for (more, backing) in [
        (
            "--offset 16 --mode=none",
            "version 1 offset 16 size 4096 mode none",
        ),
        (
            "--mode writeback --offset=4111",
            "version 4 offset 4111 size 1 mode writeback",
        ),
    ] {
        let words = format!(in alloc; "{FORMAT} {more}")?;
        ran = test_command(&rt, alloc, ran, words.as_str(), "", 0)?;
        let text = shown(alloc, backing)?;
        ran = test_command(&rt, alloc, ran, "show", text.as_str(), 0)?;
        ran = test_command(&rt, alloc, ran, "serve", "unserved\n", 5)?;
    }
    // What is refused leaves the pair as it was.
    for (more, text, status) in [
        ("--offset 4112", "superblock backing 14\n", 4),
        ("--offset 15", "usage\n", 2),
        ("--mode fast", "usage\n", 2),
    ] {
        let words = format!(in alloc; "{FORMAT} {more}")?;
        ran = test_command(&rt, alloc, ran, words.as_str(), text, status)?;
    }
    let text = shown(alloc, "version 4 offset 4111 size 1 mode writeback")?;
    test_command(&rt, alloc, ran, "show", text.as_str(), 0)?;
    Ok(())
}

// Formats devices of so many sectors, of which one is too small. Tests that no call is made.
fn test_too_small<R: Abort + Wait>(
    rt: &R,
    alloc: Global,
    cache: usize,
    backing: usize,
    text: &str,
) -> Result<(), Fail>
    requires { (8 ≤ cache) × (cache < 20000) × (8 ≤ backing) × (backing < 20000) }
{
    let pair = blank(alloc, cache, backing)?;
    let ran = test_run(rt, alloc, pair, FORMAT, text, 4)?;
    test_calls(rt, &ran, 0, 0);
    Ok(())
}

#[test]
fn devices_are_too_small(rt: HostRuntime) -> Result<(), Fail> {
    let alloc = rt.alloc();
    test_too_small(&rt, alloc, 8191, 4112, "superblock cache 7\n")?;
    test_too_small(&rt, alloc, 8191, 15, "superblock cache 7\n")?;
    test_too_small(&rt, alloc, 8192, 15, "superblock backing 9\n")?;
    test_too_small(&rt, alloc, 8192, 16, "superblock backing 14\n")
}

// The device with one bit changed of the superblock's byte at this place. Among the bytes of the set's
// uuid, the checksum is made right again.
fn flip<R: Abort>(rt: &R, alloc: Global, device: &MemDisk, place: usize) -> Result<MemDisk, Fail>
    requires { place < 512 }
{
    let mut bytes = Vec::from_slice(alloc, device.bytes())?;
    assert!(rt; 4608 <= bytes.len());
    bytes[4096 + place] ^= 4;
    if place == 60 {
        seal(&mut bytes);
    }
    assert!(rt; bytes.len() % 512 == 0 && bytes.len() < 20000 * 512);
    Ok(MemDisk::new(alloc, bytes, 0)?)
}

// Runs a command over a formatted pair with one bit changed of the cache device's superblock, which is
// refused.
fn test_cache<R: Abort + Wait>(
    rt: &R,
    alloc: Global,
    place: usize,
    words: &str,
    text: &str,
) -> Result<(), Fail>
    requires { place < 512 }
{
    let mut pair = formatted(rt, alloc)?;
    pair.cache = flip(rt, alloc, &pair.cache, place)?;
    test_run(rt, alloc, pair, words, text, 4)?;
    Ok(())
}

// The same of the backing device's.
fn test_backing<R: Abort + Wait>(
    rt: &R,
    alloc: Global,
    place: usize,
    words: &str,
    text: &str,
) -> Result<(), Fail>
    requires { place < 512 }
{
    let mut pair = formatted(rt, alloc)?;
    pair.backing = flip(rt, alloc, &pair.backing, place)?;
    test_run(rt, alloc, pair, words, text, 4)?;
    Ok(())
}

#[test]
fn superblocks_with_a_fault(rt: HostRuntime) -> Result<(), Fail> {
    let alloc = rt.alloc();
    for words in ["serve", "show"] {
        test_cache(&rt, alloc, 24, words, "superblock cache 1\n")?;
        test_backing(&rt, alloc, 24, words, "superblock backing 1\n")?;
        test_cache(&rt, alloc, 192, words, "superblock cache 2\n")?;
        test_backing(&rt, alloc, 104, words, "superblock backing 2\n")?;
    }
    test_backing(&rt, alloc, 60, "serve", "superblock backing 17\n")
}

// Tests that this crash leaves each sector but the superblock's as it was.
fn test_crash<R: Abort>(rt: &R, backing: &MemDisk, opening: &[u8], pick: Pick) -> Result<(), Fail> {
    let left = backing.crash(pick)?;
    assert!(rt; same_data(left.bytes(), opening));
    Ok(())
}

// The same of each crash.
fn test_crashes<R: Abort>(rt: &R, backing: &MemDisk, opening: &[u8]) -> Result<(), Fail> {
    test_crash(rt, backing, opening, Pick::Stable)?;
    test_crash(rt, backing, opening, Pick::Newest)?;
    test_crash(rt, backing, opening, Pick::Mixed(1))?;
    test_crash(rt, backing, opening, Pick::Mixed(2))?;
    test_crash(rt, backing, opening, Pick::Mixed(3))
}

// The pair that make-bcache wrote, where these calls of the two devices fail, or none where the number
// is 0.
fn failing(alloc: Global, calls: (u64, u64)) -> Result<Pair, Fail> {
    let mut pair = made(alloc, 32)?;
    pair.cache.fail(calls.0)?;
    pair.backing.fail(calls.1)?;
    Ok(pair)
}

// Runs the command over such a pair. The backing device is written last.
fn test_call<R: Abort + Wait>(
    rt: &R,
    alloc: Global,
    words: &str,
    calls: (u64, u64),
    text: &str,
    status: u8,
) -> Result<Pair, Fail> {
    let pair = failing(alloc, calls)?;
    let opening = Vec::from_slice(alloc, pair.backing.bytes())?;
    let ran = test_run(rt, alloc, pair, words, text, status)?;
    test_crashes(rt, &ran.backing, &opening)?;
    assert!(rt; calls.0 == 0 || ran.backing.bytes() == opening.as_slice());
    Ok(ran)
}

// Runs the command that makes so many calls of each device, where each call fails in turn, and where
// none does.
fn test_faults<R: Abort + Wait>(
    rt: &R,
    alloc: Global,
    words: &str,
    cache_calls: u64,
    backing_calls: u64,
) -> Result<(), Fail>
    requires { (cache_calls < 100) × (backing_calls < 100) }
{
    for call in 1..cache_calls + 1 {
        test_call(rt, alloc, words, (call, 0), "fault cache\n", 6)?;
    }
    for call in 1..backing_calls + 1 {
        test_call(rt, alloc, words, (0, call), "fault backing\n", 6)?;
    }
    let ran = test_call(rt, alloc, words, (0, 0), "", 0)?;
    test_calls(rt, &ran, cache_calls, backing_calls);
    Ok(())
}

#[test]
fn each_call_fails(rt: HostRuntime) -> Result<(), Fail> {
    let alloc = rt.alloc();
    // Formatting makes 8 calls for the journal, one each for entry 1, the priority set, the table and
    // two nodes, a barrier and four for the superblock of the cache device, and two of the backing
    // device. Adopting reads both first.
    test_faults(&rt, alloc, FORMAT, 18, 2)?;
    test_faults(&rt, alloc, "adopt", 19, 3)
}

// Shows the pair that make-bcache wrote to a sink with so much room.
fn test_room<R: Abort + Wait>(rt: &R, alloc: Global, room: usize, status: u8) -> Result<(), Fail> {
    let pair = made(alloc, BACKING_SECTORS)?;
    let mut out = MemSink::new(alloc, room)?;
    let ran = run(rt, alloc, "show", pair, &mut out)?;
    let text = SHOWN_MADE.as_bytes();
    assert!(rt; room <= text.len());
    test_end(rt, &ran, out.bytes(), &text[..room], status);
    test_calls(rt, &ran, 1, 1);
    Ok(())
}

#[test]
fn shown_to_a_sink_that_is_full(rt: HostRuntime) -> Result<(), Fail> {
    let alloc = rt.alloc();
    test_room(&rt, alloc, 0, 8)?;
    test_room(&rt, alloc, 100, 8)?;
    test_room(&rt, alloc, SHOWN_MADE.len(), 0)
}
