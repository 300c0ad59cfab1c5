//! Reads of lines in a run with a cache: of two pieces, whose sectors are in two leaves, and of
//! one.
ghost use Rattle.std.specs.Prelude.{◌≡◌, ◌≤◌, length};
ghost use Rattle.bc_cached.specs.bc_deed.Asked.{size_of};
ghost use Rattle.bc_request.specs.Asked.{IsIdle};

use crate::pair::marked;
use crate::reads::{LOW, fail_in_run, pair_with_data};
use crate::run::{begun, reads, ready};
use bc_cached::bc_machine::machine::{CoreParts, CoreSeat};
use bc_cached::run::{Ended, end};
use bc_disk::disk::{Device, Disk};
use bc_disk::mem_disk::MemDisk;
use bc_model::values::Values;
use bc_request::bc_job::job::Job;
use bc_request::error::RequestError;
use bc_request::read::read;
use bc_worker::gate::NoGate;
use std::alloc::Global;
use std::process::Abort;
use std::sync::Wait;
use std::test::Fail;

/// The first byte of each of 32 sectors; or why the line was refused.
type Line = Result<[u8; 32], RequestError>;

// The first bytes of 32 values.
fn firsts_of(values: &Values) -> [u8; 32]
    requires { length values.now ≡ 32 }
{
    let mut firsts = [0; 32];
    for i in 0..32 {
        let value = values.get(i as u32);
        firsts[i] = value[0];
    }
    firsts
}

// The read of a line of 32 sectors by the first seat, which is that of worker 0.
fn try_line<C: Disk + Drop, B: Disk + Drop, R: Wait>(
    rt: &R,
    alloc: Global,
    parts: &CoreParts<C, B>,
    seat: &mut CoreSeat<C, B>,
    line: u32,
    first: u64,
) -> Line
    requires idle { IsIdle C.facts B.facts parts.now seat.old }
    requires all { (seat.old.first ≡ 0) × (seat.old.end ≡ parts.now.seats) }
    requires size { size_of C.facts B.facts seat.old.run.start ≡ 1024 }
    requires near { first ≤ 1024 }
    ensures idle { IsIdle C.facts B.facts parts.now seat.new }
    ensures all { (seat.new.first ≡ 0) × (seat.new.end ≡ parts.now.seats) }
    ensures size { size_of C.facts B.facts seat.new.run.start ≡ 1024 }
{
    let job = Job {
        worker: 0,
        line,
        first,
        count: 32,
        size: 1024,
        force: false,
    };
    match read(rt, alloc, parts, seat, &job, &NoGate) {
        Ok(values) => Ok(firsts_of(&values)),
        Err(error) => Err(error),
    }
}

// A run over both devices, in which these lines are read one after another.
fn tries<C: Disk + Drop, B: Disk + Drop, R: Abort + Wait>(
    rt: &R,
    alloc: Global,
    cache: C,
    backing: B,
) -> Result<([Line; 4], Ended<C, B>), Fail> {
    let ready = ready(rt, alloc, cache, backing)?;
    let (parts, mut seat) = begun(alloc, ready)?;
    let tries = [
        try_line(rt, alloc, &parts, &mut seat, 1, 240),
        try_line(rt, alloc, &parts, &mut seat, 2, 240),
        try_line(rt, alloc, &parts, &mut seat, 3, 993),
        try_line(rt, alloc, &parts, &mut seat, 4, 0),
    ];
    Ok((tries, end(parts, seat)))
}

// The pair of which sectors 240 to 271 of the backing device's data begin with 1 to 32, and what
// the cache has of sector 256 and the next seven with 50 to 57.
fn pair_of_lines(rt: &impl Abort, alloc: Global) -> Result<(MemDisk, MemDisk), Fail> {
    let (cache, backing) = pair_with_data(rt, alloc)?;
    let cache = marked(rt, alloc, &cache, 6528, 50)?;
    let backing = marked(rt, alloc, &backing, 256, 1)?;
    Ok((cache, backing))
}

// Of sectors 240 to 271 what the cache has, and else the backing device.
const SPLIT: [u8; 32] = [
    1, 2, 3, 4, 5, 6, 7, 8, 9, 10, 11, 12, 13, 14, 15, 16, 50, 51, 52, 53, 54, 55, 56, 57, 25, 26,
    27, 28, 29, 30, 31, 32,
];

#[test]
fn lines_are_read_piece_by_piece(rt: HostRuntime) -> Result<(), Fail> {
    let alloc = rt.alloc();
    let (cache, backing) = pair_of_lines(&rt, alloc)?;
    let (tries, ended) = tries(&rt, alloc, cache, backing)?;
    let wanted = [
        Ok(SPLIT),
        Ok(SPLIT),
        // Its last sector is the one behind the end.
        Err(RequestError::OutOfRange),
        Ok(LOW),
    ];
    assert_eq!(rt; tries.as_slice(), wanted.as_slice());
    // Each piece needs its leaf, which takes the place of the other one.
    assert_eq!(rt;
        reads(alloc, &ended.pass)?.as_slice(),
        [768, 832, 6528, 768, 832, 6528, 768, 6400, 6464].as_slice()
    );
    Ok(())
}

#[test]
fn a_line_ends_at_the_piece_that_is_not_read(rt: HostRuntime) -> Result<(), Fail> {
    let alloc = rt.alloc();
    let (mut cache, mut backing) = pair_of_lines(&rt, alloc)?;
    fail_in_run(alloc, &mut cache, &mut backing, 3)?;
    let (tries, ended) = tries(&rt, alloc, cache, backing)?;
    let wanted = [
        Err(RequestError::Fault(Device::Cache)),
        Ok(SPLIT),
        Err(RequestError::OutOfRange),
        Ok(LOW),
    ];
    assert_eq!(rt; tries.as_slice(), wanted.as_slice());
    assert_eq!(rt; ended.cache.faults(), 1);
    // The first leaf was read, and is in its slot still when its sectors are read again.
    assert_eq!(rt;
        reads(alloc, &ended.pass)?.as_slice(),
        [768, 832, 6528, 768, 6400, 6464].as_slice()
    );
    Ok(())
}
