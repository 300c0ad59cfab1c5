//! Reads of pieces in a run with a cache: from both devices, of clean data that the cache device
//! doesn't give, and of dirty data that it doesn't.
ghost use Rattle.std.specs.Prelude.{◌≡◌, ◌≤◌, length};
ghost use Rattle.bc_cached.specs.bc_deed.Asked.{size_of};
ghost use Rattle.bc_request.specs.Asked.{IsIdle};

use crate::pair::{DATA, DIRTY, marked, pair};
use crate::run::{begun, reads, ready};
use bc_cached::bc_hand::error::StepError;
use bc_cached::bc_machine::machine::{CoreParts, CoreSeat};
use bc_cached::bc_regrow::tree_of;
use bc_cached::run::{Ended, end};
use bc_disk::disk::{Device, Disk};
use bc_disk::mem_disk::MemDisk;
use bc_events::event::LineNumber;
use bc_replay::survey;
use bc_request::bc_fetch::error::LeafError;
use bc_request::bc_reader::error::ReadError;
use bc_request::piece::read_piece;
use bc_worker::gate::NoGate;
use std::alloc::Global;
use std::process::Abort;
use std::sync::Wait;
use std::test::Fail;

/// The first byte of each of 32 sectors; or why they weren't read.
type Read = Result<[u8; 32], ReadError>;

// The first bytes of 32 sectors.
fn firsts(bytes: &[u8]) -> [u8; 32]
    requires { length bytes.now ≡ 16384 }
{
    let mut firsts = [0; 32];
    for i in 0..32 {
        firsts[i] = bytes[512 * i];
    }
    firsts
}

// The read of 32 sectors by the first seat, which is that of worker 0.
fn try_read<C: Disk + Drop, B: Disk + Drop, R: Wait>(
    rt: &R,
    alloc: Global,
    parts: &CoreParts<C, B>,
    seat: &mut CoreSeat<C, B>,
    line: u32,
    first: u64,
) -> Read
    requires idle { IsIdle C.facts B.facts parts.now seat.old }
    requires all { (seat.old.first ≡ 0) × (seat.old.end ≡ parts.now.seats) }
    requires size { size_of C.facts B.facts seat.old.run.start ≡ 1024 }
    requires near { first ≤ 992 }
    ensures idle { IsIdle C.facts B.facts parts.now seat.new }
    ensures all { (seat.new.first ≡ 0) × (seat.new.end ≡ parts.now.seats) }
    ensures size { size_of C.facts B.facts seat.new.run.start ≡ 1024 }
{
    let Ok(mut bytes) = vec![in alloc; 0u8; 16384] else {
        return Err(ReadError::Leaf(LeafError::Step(StepError::Memory)));
    };
    let of = LineNumber { worker: 0, line };
    match read_piece(rt, alloc, parts, seat, of, first, 32, &mut bytes, &NoGate) {
        Ok(()) => Ok(firsts(&bytes)),
        Err(error) => Err(error),
    }
}

// A run over both devices, in which these sectors are read one after another.
fn tries<C: Disk + Drop, B: Disk + Drop, R: Abort + Wait>(
    rt: &R,
    alloc: Global,
    cache: C,
    backing: B,
) -> Result<([Read; 4], Ended<C, B>), Fail> {
    let ready = ready(rt, alloc, cache, backing)?;
    let (parts, mut seat) = begun(alloc, ready)?;
    let tries = [
        try_read(rt, alloc, &parts, &mut seat, 1, 0),
        try_read(rt, alloc, &parts, &mut seat, 2, 0),
        try_read(rt, alloc, &parts, &mut seat, 3, 248),
        try_read(rt, alloc, &parts, &mut seat, 4, 256),
    ];
    Ok((tries, end(parts, seat)))
}

/// A pair of which the cache has sectors 0 to 7, clean, 16 to 23, dirty, and 256 to 263, clean. Each
/// of the first 32 sectors of the backing device's data begins with its number, and what the cache
/// has of these with 100 and 140 more.
pub(crate) fn pair_with_data(rt: &impl Abort, alloc: Global) -> Result<(MemDisk, MemDisk), Fail> {
    let low = [(DATA, 8, 6400), (DIRTY, 24, 6464)];
    let high = [(DATA, 264, 6528)];
    let (cache, backing) = pair(rt, alloc, &low, &high)?;
    let cache = marked(rt, alloc, &cache, 6400, 100)?;
    let cache = marked(rt, alloc, &cache, 6464, 140)?;
    let backing = marked(rt, alloc, &backing, 16, 0)?;
    Ok((cache, backing))
}

/// Of the first 32 sectors what the cache has, where it gives that, and else the backing device.
pub(crate) const LOW: [u8; 32] = [
    100, 101, 102, 103, 104, 105, 106, 107, 8, 9, 10, 11, 12, 13, 14, 15, 140, 141, 142, 143, 144,
    145, 146, 147, 24, 25, 26, 27, 28, 29, 30, 31,
];

// The same with the first eight from the backing device.
const BACKED: [u8; 32] = [
    0, 1, 2, 3, 4, 5, 6, 7, 8, 9, 10, 11, 12, 13, 14, 15, 140, 141, 142, 143, 144, 145, 146, 147,
    24, 25, 26, 27, 28, 29, 30, 31,
];

/// Makes the cache device fail at one of its calls in the run: the first two are the barrier of the
/// opening and the read of the first leaf.
pub(crate) fn fail_in_run(
    alloc: Global,
    cache: &mut MemDisk,
    backing: &mut MemDisk,
    nth: u64,
) -> Result<(), Fail> {
    let s = survey(alloc, cache, backing)?;
    let _tree = tree_of(alloc, cache, &s)?;
    // What the opening calls it calls once more.
    let failing = cache.calls().saturating_mul(2).saturating_add(nth);
    cache.fail(failing)?;
    Ok(())
}

// The pair with such a cache device.
fn failing_pair(rt: &impl Abort, alloc: Global, nth: u64) -> Result<(MemDisk, MemDisk), Fail> {
    let (mut cache, mut backing) = pair_with_data(rt, alloc)?;
    fail_in_run(alloc, &mut cache, &mut backing, nth)?;
    Ok((cache, backing))
}

#[test]
fn both_devices_are_read(rt: HostRuntime) -> Result<(), Fail> {
    let alloc = rt.alloc();
    let (cache, backing) = pair_with_data(&rt, alloc)?;
    let (tries, ended) = tries(&rt, alloc, cache, backing)?;
    let wanted = [
        Ok(LOW),
        Ok(LOW),
        // No leaf has all of them.
        Err(ReadError::Leaf(LeafError::Missing)),
        Ok([0; 32]),
    ];
    assert_eq!(rt; tries.as_slice(), wanted.as_slice());
    // The first leaf is read once, and is in its slot for the second read; the last one is read in
    // its place.
    assert_eq!(rt;
        reads(alloc, &ended.pass)?.as_slice(),
        [768, 6400, 6464, 6400, 6464, 832, 6528].as_slice()
    );
    Ok(())
}

#[test]
fn clean_data_outlives_a_failed_read(rt: HostRuntime) -> Result<(), Fail> {
    let alloc = rt.alloc();
    let (cache, backing) = failing_pair(&rt, alloc, 3)?;
    let (tries, ended) = tries(&rt, alloc, cache, backing)?;
    let wanted = [
        Ok(BACKED),
        Ok(LOW),
        Err(ReadError::Leaf(LeafError::Missing)),
        Ok([0; 32]),
    ];
    assert_eq!(rt; tries.as_slice(), wanted.as_slice());
    assert_eq!(rt; ended.cache.faults(), 1);
    assert_eq!(rt;
        reads(alloc, &ended.pass)?.as_slice(),
        [768, 6464, 6400, 6464, 832, 6528].as_slice()
    );
    Ok(())
}

#[test]
fn dirty_data_does_not(rt: HostRuntime) -> Result<(), Fail> {
    let alloc = rt.alloc();
    let (cache, backing) = failing_pair(&rt, alloc, 4)?;
    let (tries, ended) = tries(&rt, alloc, cache, backing)?;
    let wanted = [
        Err(ReadError::Leaf(LeafError::Step(StepError::Fault(Device::Cache)))),
        Ok(LOW),
        Err(ReadError::Leaf(LeafError::Missing)),
        Ok([0; 32]),
    ];
    assert_eq!(rt; tries.as_slice(), wanted.as_slice());
    assert_eq!(rt; ended.cache.faults(), 1);
    assert_eq!(rt;
        reads(alloc, &ended.pass)?.as_slice(),
        [768, 6400, 6400, 6464, 832, 6528].as_slice()
    );
    Ok(())
}
