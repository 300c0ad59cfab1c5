//! Pieces that are written, and what is read of their sectors then.
ghost use Rattle.std.specs.Prelude.{◌≡◌, ◌+◌, ◌*◌, ◌≤◌, length, IfOk};
ghost use Rattle.bc_cached.specs.bc_deed.Asked.{size_of};
ghost use Rattle.bc_cached.specs.bc_hand.Seats.{world};
ghost use Rattle.bc_cached.specs.bc_machine.World.{FromEach, cache_among};
ghost use Rattle.bc_write_back.specs.bc_request.Asked.{IsIdle};
ghost use Rattle.bc_write_back.specs.bc_place.Place.{HasBefore};

use crate::pair::pair;
use crate::run::{begun, reads, ready};
use bc_cached::bc_hand::error::StepError;
use bc_cached::bc_machine::machine::{CoreParts, CoreSeat};
use bc_cached::run::{Ended, end};
use bc_disk::disk::{Device, Disk};
use bc_disk::mem_disk::MemDisk;
use bc_events::event::LineNumber;
use bc_model::values::Values;
use bc_worker::gate::NoGate;
use bc_write_back::bc_fetch::error::LeafError;
use bc_write_back::bc_reader::error::ReadError;
use bc_write_back::bc_request::piece::read_piece;
use bc_write_back::error::{Lack, Put, WriteError};
use bc_write_back::piece::write_piece;
use std::alloc::{AllocError, Global};
use std::process::Abort;
use std::sync::Wait;
use std::test::Fail;

/// What a write came to.
type Written = Result<Put, WriteError>;

/// The first byte of each of 32 sectors; or why they weren't read.
type Read = Result<[u8; 32], ReadError>;

/// A run's writes, a read of the first 32 sectors behind them, and what it left.
struct Tried<C, B> {
    writes: [Written; 4],
    read: Read,
    ended: Ended<C, B>,
}

// The write of so many sectors, each of which begins with the same byte, by the first seat, which
// is that of worker 0.
fn try_write<C: Disk + Drop, B: Disk + Drop, R: Wait>(
    rt: &R,
    alloc: Global,
    parts: &CoreParts<C, B>,
    seat: &mut CoreSeat<C, B>,
    before: u32,
    sectors: u64,
    line: u32,
    first: u64,
    count: usize,
    mark: u8,
) -> Written
    requires idle { IsIdle C.facts B.facts parts.now seat.old }
    requires all { (seat.old.first ≡ 0) × (seat.old.end ≡ parts.now.seats) }
    requires size { size_of C.facts B.facts seat.old.run.start ≡ 1024 }
    requires before { FromEach (world C.facts B.facts seat.old) (HasBefore before) }
    requires sectors { sectors ≡ (cache_among C.facts B.facts parts.now.run.start).sectors }
    requires some { 1 ≤ count }
    requires few { count ≤ 256 }
    requires near { first + count ≤ 1024 }
    ensures idle { IsIdle C.facts B.facts parts.now seat.new }
    ensures all { (seat.new.first ≡ 0) × (seat.new.end ≡ parts.now.seats) }
    ensures size { size_of C.facts B.facts seat.new.run.start ≡ 1024 }
    ensures before { FromEach (world C.facts B.facts seat.new) (HasBefore before) }
{
    let Ok(bytes) = vec![in alloc; mark; 512 * count] else {
        return Err(WriteError::Leaf(LeafError::Step(StepError::Memory)));
    };
    let Ok(values) = Values::from_bytes(alloc, first, &bytes) else {
        return Err(WriteError::Leaf(LeafError::Step(StepError::Memory)));
    };
    let long = u64::from(values.len());
    if long == 0 || 256 < long || 1024 - first < long {
        return Err(WriteError::Place);
    }
    let of = LineNumber { worker: 0, line };
    write_piece(
        rt, alloc, parts, seat, before, sectors, of, first, &values, &NoGate,
    )
}

// The first bytes of 32 sectors.
fn firsts(bytes: &[u8]) -> [u8; 32]
    requires { length bytes.now ≡ 16384 }
{
    let mut firsts = [0; 32];
    for i in 0..32 {
        firsts[i] = bytes[512 * i];
    }
    firsts
}

// The read of the first 32 sectors by the same seat.
fn try_read<C: Disk + Drop, B: Disk + Drop, R: Wait>(
    rt: &R,
    alloc: Global,
    parts: &CoreParts<C, B>,
    seat: &mut CoreSeat<C, B>,
    line: u32,
) -> Read
    requires idle { IsIdle C.facts B.facts parts.now seat.old }
    requires all { (seat.old.first ≡ 0) × (seat.old.end ≡ parts.now.seats) }
    requires size { size_of C.facts B.facts seat.old.run.start ≡ 1024 }
    ensures idle { IsIdle C.facts B.facts parts.now seat.new }
    ensures all { (seat.new.first ≡ 0) × (seat.new.end ≡ parts.now.seats) }
{
    let Ok(mut bytes) = vec![in alloc; 0u8; 16384] else {
        return Err(ReadError::Leaf(LeafError::Step(StepError::Memory)));
    };
    let of = LineNumber { worker: 0, line };
    match read_piece(rt, alloc, parts, seat, of, 0, 32, &mut bytes, &NoGate) {
        Ok(()) => Ok(firsts(&bytes)),
        Err(error) => Err(error),
    }
}

// A run over both devices in which pieces are written one after another: of 8 sectors from 4 on, of
// 8 from 8 on, of 256 from 256 on, and of 256 from 512 on. The list of buckets for data has 8.
fn tries<C: Disk + Drop, B: Disk + Drop, R: Abort + Wait>(
    rt: &R,
    alloc: Global,
    cache: C,
    backing: B,
) -> Result<Tried<C, B>, Fail> {
    let ready = ready(rt, alloc, cache, backing)?;
    let (parts, mut seat, before, sectors) = begun(alloc, ready)?;
    let seat_now = &mut seat;
    let writes = [
        try_write(rt, alloc, &parts, seat_now, before, sectors, 1, 4, 8, 100),
        try_write(rt, alloc, &parts, seat_now, before, sectors, 2, 8, 8, 101),
        try_write(
            rt, alloc, &parts, seat_now, before, sectors, 3, 256, 256, 102,
        ),
        try_write(
            rt, alloc, &parts, seat_now, before, sectors, 4, 512, 256, 103,
        ),
    ];
    let read = try_read(rt, alloc, &parts, seat_now, 5);
    let ended = end(parts, seat);
    Ok(Tried {
        writes,
        read,
        ended,
    })
}

// Of the first 32 sectors what was written last, and else what the backing device has.
const LAST: [u8; 32] = [
    0, 1, 2, 3, 100, 100, 100, 100, 101, 101, 101, 101, 101, 101, 101, 101, 16, 17, 18, 19, 20, 21,
    22, 23, 24, 25, 26, 27, 28, 29, 30, 31,
];

// What the backing device has of them.
const BACKED: [u8; 32] = [
    0, 1, 2, 3, 4, 5, 6, 7, 8, 9, 10, 11, 12, 13, 14, 15, 16, 17, 18, 19, 20, 21, 22, 23, 24, 25,
    26, 27, 28, 29, 30, 31,
];

#[test]
fn what_is_written_is_read_back(rt: HostRuntime) -> Result<(), Fail> {
    let alloc = rt.alloc();
    let (cache, backing) = pair(&rt, alloc)?;
    let Tried {
        writes,
        read,
        ended,
    } = tries(&rt, alloc, cache, backing)?;
    // Of 8 buckets for data the first two pieces filled a part of one, and the third four more and
    // a part; so there is none for the last.
    let wanted = [
        Ok(Put::Written),
        Ok(Put::Written),
        Ok(Put::Written),
        Ok(Put::Lacks(Lack::Bucket)),
    ];
    assert_eq!(rt; writes.as_slice(), wanted.as_slice());
    assert_eq!(rt; read, Ok(LAST));
    // The leaf was read once, and what the read found in the cache from where it was written.
    let reads = reads(alloc, &ended.pass)?;
    assert_eq!(rt; reads.len(), 3);
    assert_eq!(rt; reads[0], 768);
    assert_eq!(rt; reads[2], reads[1].saturating_add(8));
    // The backing device has nothing of it.
    let device = ended.backing.disk.bytes();
    assert!(rt; 512 * 24 < device.len());
    assert_eq!(rt; (device[512 * 20], device[512 * 24]), (4, 8));
    Ok(())
}
