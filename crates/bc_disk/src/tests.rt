//! What a test of the crates above relies on: which calls fail, and what a crash picks.
use crate::crash::Pick;
use crate::disk::Disk;
use crate::mem_disk::MemDisk;
use crate::mem_sink::MemSink;
use crate::mem_source::MemSource;
use crate::modelled;
use crate::stream::{Sink, Source};
use std::alloc::AllocError;
use std::process::Abort;
use std::test::Fail;

// Writes a sector of this byte.
fn put(rt: &impl Abort, disk: &mut MemDisk, at: u64, byte: u8) -> bool {
    assert!(rt; at < disk.sectors());
    disk.write(at, &[byte; 512]).is_ok()
}

// The byte that this sector is full of.
fn get(rt: &impl Abort, disk: &mut MemDisk, at: u64) -> Option<u8> {
    assert!(rt; at < disk.sectors());
    let mut bytes = [0; 512];
    disk.read(at, &mut bytes).ok()?;
    assert!(rt; bytes.iter().all(|byte| *byte == bytes[0]));
    Some(bytes[0])
}

// The bytes that the three sectors of this disk are full of.
fn three(rt: &impl Abort, disk: &MemDisk) -> [u8; 3] {
    let bytes = disk.bytes();
    assert_eq!(rt; bytes.len(), 1536);
    for (i, byte) in bytes.iter().enumerate() {
        assert_eq!(rt; *byte, bytes[i / 512 * 512]);
    }
    [bytes[0], bytes[512], bytes[1024]]
}

// What the three sectors are full of after a crash.
fn crashed(rt: &impl Abort, disk: &MemDisk, pick: Pick) -> Result<[u8; 3], AllocError> {
    let left = disk.crash(pick)?;
    Ok(three(rt, &left))
}

// A barrier through the bound.
fn settle<D: Disk + Drop + Send>(disk: &mut D) -> bool {
    modelled::settle(disk).is_ok()
}

// Makes a call of this kind: a write, a read or a barrier.
fn call(rt: &impl Abort, disk: &mut MemDisk, kind: usize) -> bool {
    match kind {
        0 => put(rt, disk, 0, 1),
        1 => get(rt, disk, 0).is_some(),
        _ => disk.barrier().is_ok(),
    }
}

#[test]
fn named_calls_fail(rt: HostRuntime) -> Result<(), Fail> {
    let zeros = vec![in rt.alloc(); 0u8; 1024]?;
    let mut disk = MemDisk::new(rt.alloc(), zeros, 8)?;
    disk.fail(2)?;
    disk.fail(4)?;
    disk.stop_after(5);
    for (i, good) in [true, false, true, false, true, false, false, false]
        .iter()
        .enumerate()
    {
        assert_eq!(rt; call(&rt, &mut disk, i % 3), *good, "at {i}");
    }
    assert_eq!(rt; disk.calls(), 8);
    assert_eq!(rt; disk.faults(), 5);
    Ok(())
}

#[test]
fn a_crash_picks(rt: HostRuntime) -> Result<(), Fail> {
    let zeros = vec![in rt.alloc(); 0u8; 1536]?;
    let mut disk = MemDisk::new(rt.alloc(), zeros, 3)?;
    disk.fail(3)?;
    assert!(rt; put(&rt, &mut disk, 0, 1));
    assert!(rt; put(&rt, &mut disk, 0, 2));
    assert!(rt; !put(&rt, &mut disk, 1, 3));
    assert_eq!(rt; three(&rt, &disk), [2, 0, 0]);
    for (pick, left) in [
        (Pick::Stable, [0, 0, 0]),
        (Pick::Newest, [2, 3, 0]),
        (Pick::Mixed(1), [1, 0, 0]),
        (Pick::Mixed(2), [2, 3, 0]),
        (Pick::Mixed(u64::MAX), [0, 0, 0]),
    ] {
        assert_eq!(rt; crashed(&rt, &disk, pick)?, left, "at {pick:?}");
    }
    Ok(())
}

#[test]
fn room_is_used_up(rt: HostRuntime) -> Result<(), Fail> {
    let zeros = vec![in rt.alloc(); 0u8; 1536]?;
    let mut disk = MemDisk::new(rt.alloc(), zeros, 2)?;
    for (at, byte, good) in [(0, 1, true), (0, 2, true), (1, 3, false)] {
        assert_eq!(rt; put(&rt, &mut disk, at, byte), good);
    }
    assert_eq!(rt; crashed(&rt, &disk, Pick::Newest)?, [2, 0, 0]);
    assert!(rt; settle(&mut disk));
    assert!(rt; put(&rt, &mut disk, 1, 3));
    assert_eq!(rt; crashed(&rt, &disk, Pick::Stable)?, [2, 0, 0]);
    assert_eq!(rt; crashed(&rt, &disk, Pick::Newest)?, [2, 3, 0]);
    Ok(())
}

#[test]
fn a_source_comes_in_pieces(rt: HostRuntime) -> Result<(), Fail> {
    let bytes = vec![in rt.alloc(); 1u8, 2, 3, 4, 5]?;
    let mut source = MemSource::new(rt.alloc(), bytes);
    source.fail(2)?;
    let mut into = [0; 2];
    for (many, left) in [
        (Some(2), [1, 2]),
        (None, [1, 2]),
        (Some(2), [3, 4]),
        (Some(1), [5, 4]),
        (Some(0), [5, 4]),
    ] {
        assert_eq!(rt; source.next(&mut into).ok(), many);
        assert_eq!(rt; into, left);
    }
    assert_eq!(rt; source.faults(), 1);
    Ok(())
}

#[test]
fn a_sink_is_full(rt: HostRuntime) -> Result<(), Fail> {
    let mut sink = MemSink::new(rt.alloc(), 3)?;
    sink.fail(2)?;
    for many in [Some(2), None, Some(1), Some(0)] {
        assert_eq!(rt; sink.put(&[7, 8]).ok(), many);
    }
    assert_eq!(rt; sink.bytes(), [7, 8, 7].as_slice());
    assert_eq!(rt; sink.faults(), 1);
    Ok(())
}
