//! Traces over a pair of which the cache has clean and dirty sectors.
use crate::pair::pair_with_data;
use crate::run::{Told, served, tell};
use bc_book::pass::{Pass, Record};
use bc_disk::disk::Device;
use bc_disk::mem_disk::MemDisk;
use bc_script::answer::Refusal;
use std::alloc::{AllocError, Global};
use std::process::Abort;
use std::sync::Wait;
use std::test::Fail;

/// A comment; the first 32 sectors, twice; 32 of two pieces; and 32 of which the last one lies
/// behind the end.
const TRACE: &str = "# reads\n1 r 0 32\n1 r 0 32\n1 r 240 32\n1 r 993 32\n";

/// Of the first 32 sectors what the cache has, where it gives that, and else the backing device.
const LOW: [u8; 32] = [
    100, 101, 102, 103, 104, 105, 106, 107, 8, 9, 10, 11, 12, 13, 14, 15, 140, 141, 142, 143, 144,
    145, 146, 147, 24, 25, 26, 27, 28, 29, 30, 31,
];

// The same with the first eight from the backing device.
const BACKED: [u8; 32] = [
    0, 1, 2, 3, 4, 5, 6, 7, 8, 9, 10, 11, 12, 13, 14, 15, 140, 141, 142, 143, 144, 145, 146, 147,
    24, 25, 26, 27, 28, 29, 30, 31,
];

// From where the worker's seat, which is the one with number 16, read the cache device.
fn reads(alloc: Global, pass: &Pass) -> Result<Vec<u64>, AllocError> {
    let mut reads = Vec::new(alloc);
    for record in &pass.records {
        if let Record::CacheRead {
            seat: 16,
            at,
            reading: _,
        } = record
        {
            reads.push(*at)?;
        }
    }
    Ok(reads)
}

// How many calls of the cache device come before those of the first line.
fn calls_before<R: Abort + Wait>(rt: &R, alloc: Global) -> Result<u64, Fail> {
    let (cache, backing) = pair_with_data(rt, alloc)?;
    let outcome = served(rt, alloc, cache, backing, "")?;
    assert_eq!(rt; outcome.served, Ok(()));
    assert_eq!(rt; outcome.closed.result, Ok(()));
    Ok(outcome.closed.cache.calls())
}

// What a trace is answered over the pair, where its cache device goes wrong as that says; and from
// where it was read.
fn answered<R: Abort + Wait>(
    rt: &R,
    alloc: Global,
    cache: MemDisk,
    backing: MemDisk,
) -> Result<(Vec<Told>, Vec<u64>, u64), Fail> {
    let outcome = served(rt, alloc, cache, backing, TRACE)?;
    assert_eq!(rt; outcome.served, Ok(()));
    assert_eq!(rt; outcome.closed.result, Ok(()));
    assert_eq!(rt; outcome.closed.backing.faults(), 0);
    let told = tell(alloc, &outcome)?;
    let reads = reads(alloc, &outcome.closed.pass)?;
    Ok((told, reads, outcome.closed.cache.faults()))
}

// The answers to the trace, but for those to the first 32 sectors.
fn wanted(first: Told, second: Told) -> [Told; 5] {
    [
        Told::Silent,
        first,
        second,
        Told::Read([0; 32]),
        Told::Refused(Refusal::OutOfRange),
    ]
}

#[test]
fn both_devices_are_read(rt: HostRuntime) -> Result<(), Fail> {
    let alloc = rt.alloc();
    let (cache, backing) = pair_with_data(&rt, alloc)?;
    let (told, reads, faults) = answered(&rt, alloc, cache, backing)?;
    assert_eq!(rt;
        told.as_slice(),
        wanted(Told::Read(LOW), Told::Read(LOW)).as_slice()
    );
    // The leaf is read once.
    assert_eq!(rt; reads.as_slice(), [768, 6400, 6464, 6400, 6464].as_slice());
    assert_eq!(rt; faults, 0);
    Ok(())
}

#[test]
fn clean_data_outlives_a_failed_read(rt: HostRuntime) -> Result<(), Fail> {
    let alloc = rt.alloc();
    let before = calls_before(&rt, alloc)?;
    let (mut cache, backing) = pair_with_data(&rt, alloc)?;
    cache.fail(before.saturating_add(2))?;
    let (told, reads, faults) = answered(&rt, alloc, cache, backing)?;
    assert_eq!(rt;
        told.as_slice(),
        wanted(Told::Read(BACKED), Told::Read(LOW)).as_slice()
    );
    assert_eq!(rt; reads.as_slice(), [768, 6464, 6400, 6464].as_slice());
    assert_eq!(rt; faults, 1);
    Ok(())
}

#[test]
fn dirty_data_does_not(rt: HostRuntime) -> Result<(), Fail> {
    let alloc = rt.alloc();
    let before = calls_before(&rt, alloc)?;
    let (mut cache, backing) = pair_with_data(&rt, alloc)?;
    cache.fail(before.saturating_add(3))?;
    let (told, reads, faults) = answered(&rt, alloc, cache, backing)?;
    let fault = Told::Refused(Refusal::Fault(Device::Cache));
    assert_eq!(rt; told.as_slice(), wanted(fault, Told::Read(LOW)).as_slice());
    assert_eq!(rt; reads.as_slice(), [768, 6400, 6400, 6464].as_slice());
    assert_eq!(rt; faults, 1);
    Ok(())
}

#[test]
fn lines_go_on_behind_a_leaf_that_is_not_read(rt: HostRuntime) -> Result<(), Fail> {
    let alloc = rt.alloc();
    let before = calls_before(&rt, alloc)?;
    let (mut cache, backing) = pair_with_data(&rt, alloc)?;
    cache.fail(before.saturating_add(1))?;
    let (told, reads, faults) = answered(&rt, alloc, cache, backing)?;
    let fault = Told::Refused(Refusal::Fault(Device::Cache));
    assert_eq!(rt; told.as_slice(), wanted(fault, Told::Read(LOW)).as_slice());
    assert_eq!(rt; reads.as_slice(), [768, 6400, 6464].as_slice());
    assert_eq!(rt; faults, 1);
    Ok(())
}

#[test]
fn a_device_that_stops_ends_no_run(rt: HostRuntime) -> Result<(), Fail> {
    let alloc = rt.alloc();
    let before = calls_before(&rt, alloc)?;
    let (mut cache, backing) = pair_with_data(&rt, alloc)?;
    cache.stop_after(before.saturating_add(2));
    let (told, reads, faults) = answered(&rt, alloc, cache, backing)?;
    let fault = Told::Refused(Refusal::Fault(Device::Cache));
    // Its leaf is in memory, and no other sector of these is in the cache.
    assert_eq!(rt; told.as_slice(), wanted(fault, fault).as_slice());
    assert_eq!(rt; reads.as_slice(), [768, 6400].as_slice());
    assert_eq!(rt; faults, 3);
    Ok(())
}

// A flush between two reads of the first 32 sectors.
const FLUSHED: &str = "1 r 0 32\n1 f\n1 r 0 32\n";

#[test]
fn a_flush_is_done_among_reads(rt: HostRuntime) -> Result<(), Fail> {
    let alloc = rt.alloc();
    let (cache, backing) = pair_with_data(&rt, alloc)?;
    let outcome = served(&rt, alloc, cache, backing, FLUSHED)?;
    assert_eq!(rt; outcome.served, Ok(()));
    assert_eq!(rt; outcome.closed.result, Ok(()));
    let wanted = [Told::Read(LOW), Told::Done, Told::Read(LOW)];
    assert_eq!(rt; tell(alloc, &outcome)?.as_slice(), wanted.as_slice());
    Ok(())
}

#[test]
fn a_failed_barrier_halts_the_run(rt: HostRuntime) -> Result<(), Fail> {
    let alloc = rt.alloc();
    // The calls of the backing device that come before the flush: those of a trace without one, but
    // for the barrier of its closing.
    let (cache, backing) = pair_with_data(&rt, alloc)?;
    let without = served(&rt, alloc, cache, backing, "1 r 0 32\n")?;
    let barrier = without.closed.backing.calls();
    let (cache, mut backing) = pair_with_data(&rt, alloc)?;
    backing.fail(barrier)?;
    let outcome = served(&rt, alloc, cache, backing, FLUSHED)?;
    assert_eq!(rt; outcome.served, Ok(()));
    let fault = Told::Refused(Refusal::Fault(Device::Backing));
    let halted = Told::Refused(Refusal::Halted(Device::Backing));
    let wanted = [Told::Read(LOW), fault, halted];
    assert_eq!(rt; tell(alloc, &outcome)?.as_slice(), wanted.as_slice());
    assert_eq!(rt; outcome.closed.backing.faults(), 1);
    Ok(())
}
