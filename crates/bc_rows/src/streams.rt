//! Sources and sinks that fail, that are slow and that are full.
use crate::calls::{image, serve, source, test_end, test_serve};
use crate::slow::{SlowSink, SlowSource};
use bc_disk::mem_disk::MemDisk;
use bc_disk::mem_sink::MemSink;
use bc_disk::stream::Sink;
use bc_top::exit::Exit;
use std::alloc::Global;
use std::process::Abort;
use std::sync::Wait;
use std::test::Fail;

/// Three lines, the last without its newline.
const TRACE: &str = "1 w 0 8 7\n1 r 0 10\n1 f";

/// What is printed of them.
const LINES: &str = "done\n7x8 zerox2\ndone\n";

// A device of 64 data sectors of zeros.
fn device(alloc: Global) -> Result<MemDisk, Fail> {
    Ok(MemDisk::new(alloc, image(alloc, 80, false)?, 80)?)
}

// Serves the trace over such a device, to this sink.
fn serve_to<R: Wait, K: Sink>(
    rt: &R,
    alloc: Global,
    word: &str,
    trace: &str,
    out: &mut K,
) -> Result<Exit<MemDisk, MemDisk>, Fail> {
    let trace = source(alloc, trace)?;
    serve(rt, alloc, word, trace, device(alloc)?, out)
}

// A source that gives one byte in each call, of which this one fails, or none where its number is 0.
fn slow(alloc: Global, call: u64) -> Result<SlowSource, Fail> {
    let mut inner = source(alloc, TRACE)?;
    inner.fail(call)?;
    Ok(SlowSource { inner })
}

#[test]
fn one_byte_at_a_time(rt: HostRuntime) -> Result<(), Fail> {
    let alloc = rt.alloc();
    let mut out = SlowSink {
        inner: MemSink::new(alloc, 100)?,
    };
    let slow = slow(alloc, 0)?;
    let ran = serve(&rt, alloc, "serve", slow, device(alloc)?, &mut out)?;
    test_end(&rt, &ran, out.inner.bytes(), LINES.as_bytes(), 0);
    assert_eq!(rt; out.inner.calls(), LINES.len() as u64);
    Ok(())
}

// Tests that no run began, and that the device is as it was.
fn test_unchanged<R: Abort>(
    rt: &R,
    alloc: Global,
    ran: &Exit<MemDisk, MemDisk>,
) -> Result<(), Fail> {
    let opening = image(alloc, 80, false)?;
    assert!(rt; ran.pass.is_none());
    assert!(rt; ran.backing.bytes() == opening.as_slice());
    Ok(())
}

// Serves from a source of which this call fails: no line is served.
fn test_source<R: Abort + Wait>(rt: &R, alloc: Global, call: u64) -> Result<(), Fail> {
    let mut out = MemSink::new(alloc, 100)?;
    let slow = slow(alloc, call)?;
    let ran = serve(rt, alloc, "serve", slow, device(alloc)?, &mut out)?;
    test_end(rt, &ran, out.bytes(), b"fault source\n", 7);
    test_unchanged(rt, alloc, &ran)
}

#[test]
fn a_source_that_fails_at_each_byte(rt: HostRuntime) -> Result<(), Fail> {
    let alloc = rt.alloc();
    for call in 1..TRACE.len() as u64 + 2 {
        test_source(&rt, alloc, call)?;
    }
    Ok(())
}

// Serves to a sink with so much room, which is all that is printed.
fn test_room<R: Abort + Wait>(rt: &R, alloc: Global, room: usize) -> Result<(), Fail> {
    let mut out = MemSink::new(alloc, room)?;
    let ran = serve_to(rt, alloc, "serve", TRACE, &mut out)?;
    let text = LINES.as_bytes();
    assert!(rt; room <= text.len());
    let status = if room < text.len() { 8 } else { 0 };
    test_end(rt, &ran, out.bytes(), &text[..room], status);
    assert!(rt; ran.pass.is_some());
    Ok(())
}

#[test]
fn a_sink_with_little_room(rt: HostRuntime) -> Result<(), Fail> {
    let alloc = rt.alloc();
    for room in 0..LINES.len() + 1 {
        test_room(&rt, alloc, room)?;
    }
    Ok(())
}

// Serves to a sink that takes one byte in each call, and fails in the call behind so many.
fn test_sink<R: Abort + Wait>(rt: &R, alloc: Global, taken: usize) -> Result<(), Fail> {
    let text = LINES.as_bytes();
    assert!(rt; taken < 100 && taken <= text.len());
    let mut out = SlowSink {
        inner: MemSink::new(alloc, 100)?,
    };
    out.inner.fail(taken as u64 + 1)?;
    let ran = serve_to(rt, alloc, "serve", TRACE, &mut out)?;
    test_end(rt, &ran, out.inner.bytes(), &text[..taken], 8);
    Ok(())
}

// Runs this word over a sink with room for four bytes. A message that isn't taken leaves the status
// as it was.
fn test_message<R: Abort + Wait>(
    rt: &R,
    alloc: Global,
    word: &str,
    trace: &str,
    status: u8,
) -> Result<(), Fail> {
    let mut out = MemSink::new(alloc, 4)?;
    let ran = serve_to(rt, alloc, word, trace, &mut out)?;
    assert_eq!(rt; ran.status.number(), status);
    assert_eq!(rt; out.bytes().len(), 4);
    Ok(())
}

#[test]
fn a_sink_that_fails(rt: HostRuntime) -> Result<(), Fail> {
    let alloc = rt.alloc();
    for taken in 0..LINES.len() {
        test_sink(&rt, alloc, taken)?;
    }
    test_message(&rt, alloc, "load", TRACE, 2)?;
    test_message(&rt, alloc, "serve", "1 w 0 0 7\n", 3)
}

// Serves a write over a device of which this call fails.
fn test_fault<R: Abort + Wait>(rt: &R, alloc: Global, call: u64, text: &str) -> Result<(), Fail> {
    let mut backing = device(alloc)?;
    backing.fail(call)?;
    test_serve(rt, alloc, ("serve", "1 w 0 8 7\n"), backing, text, 6)?;
    Ok(())
}

#[test]
fn messages_behind_lines(rt: HostRuntime) -> Result<(), Fail> {
    let alloc = rt.alloc();
    // The calls are a barrier, the superblock, a write and the last barrier.
    test_fault(&rt, alloc, 1, "fault backing\n")?;
    test_fault(&rt, alloc, 2, "fault backing\n")?;
    test_fault(&rt, alloc, 3, "fault backing\n")?;
    test_fault(&rt, alloc, 4, "done\nfault backing\n")
}
