//! Pairs that are opened and closed over devices of which a call fails, or is the last: whatever a
//! crash leaves then shows what the pair showed, is sound, and is opened and closed again.
use crate::idle::{has_kept, opened, told};
use crate::pair::{new_pair, pair_with_keys, pair_with_leaves};
use crate::shown::shown_by;
use bc_check::{Verdict, check_pair};
use bc_disk::crash::Pick;
use bc_disk::disk::Device;
use bc_disk::mem_disk::MemDisk;
use bc_disk::modelled::settle;
use bc_replay::{OpenError, survey};
use bc_super::backing::read_backing;
use bc_super::state::BackingState;
use std::alloc::{AllocError, Global};
use std::process::Abort;
use std::sync::Wait;
use std::test::Fail;

/// What crashes leave of the cache device, and of the backing device.
const CRASHES: [(Pick, Pick); 5] = [
    (Pick::Stable, Pick::Stable),
    (Pick::Newest, Pick::Newest),
    (Pick::Stable, Pick::Newest),
    (Pick::Newest, Pick::Stable),
    (Pick::Mixed(1), Pick::Mixed(2)),
];

/// How a device goes wrong at a call.
#[derive(Clone, Copy, Debug, PartialEq, Eq)]
enum Wrong {
    /// That call fails, and no other.
    Fails,
    /// It fails, and so does each one behind it.
    Stops,
}

/// A sound pair, with what it shows and what is said of it.
#[derive(Drop)]
struct Before {
    pair: (MemDisk, MemDisk),
    /// How many sectors of data it has.
    size: u64,
    shown: Vec<u8>,
    verdict: Verdict,
    state: BackingState,
}

// The pair, which has so many sectors of data.
fn as_it_is(
    rt: &impl Abort,
    alloc: Global,
    pair: (MemDisk, MemDisk),
    size: u64,
) -> Result<Before, Fail> {
    let (mut cache, mut backing) = pair;
    let verdict = check_pair(alloc, &mut cache, &mut backing)?;
    let (_, state) = told(rt, alloc, &mut cache, &mut backing)?;
    let shown = shown_by(alloc, &cache, &backing, size)?;
    Ok(Before {
        pair: (cache, backing),
        size,
        shown,
        verdict,
        state,
    })
}

// The same of a pair that was opened and closed.
fn opened_once<R: Abort + Wait>(
    rt: &R,
    alloc: Global,
    pair: (MemDisk, MemDisk),
    size: u64,
) -> Result<Before, Fail> {
    let (cache, backing) = pair;
    let idled = opened(rt, alloc, cache, backing)?;
    assert_eq!(rt; idled.result, Ok(()));
    as_it_is(rt, alloc, (idled.cache, idled.backing), size)
}

// Both devices of the pair, of which no call was made yet.
fn copies(before: &Before) -> Result<(MemDisk, MemDisk), AllocError> {
    let cache = before.pair.0.crash(Pick::Newest)?;
    let backing = before.pair.1.crash(Pick::Newest)?;
    Ok((cache, backing))
}

// Tests that a pair shows what that one showed, and that the same is said of it. Tells its state.
fn test_same(
    rt: &impl Abort,
    alloc: Global,
    before: &Before,
    cache: &mut MemDisk,
    backing: &mut MemDisk,
) -> Result<BackingState, Fail> {
    assert_eq!(rt; check_pair(alloc, cache, backing)?, before.verdict);
    let shown = shown_by(alloc, cache, backing, before.size)?;
    assert!(rt; shown.as_slice() == before.shown.as_slice());
    let (_, state) = told(rt, alloc, cache, backing)?;
    Ok(state)
}

// Tests what a crash left: it is the pair, but that it may say `dirty`, and so it is once it was
// opened and closed again.
fn test_left<R: Abort + Wait>(
    rt: &R,
    alloc: Global,
    before: &Before,
    cache: MemDisk,
    backing: MemDisk,
) -> Result<(), Fail> {
    let (mut cache, mut backing) = (cache, backing);
    let state = test_same(rt, alloc, before, &mut cache, &mut backing)?;
    assert!(rt; state == before.state || state == BackingState::Dirty);
    let again = opened(rt, alloc, cache, backing)?;
    assert_eq!(rt; again.result, Ok(()));
    assert!(rt; has_kept(&before.pair, &again.cache, &again.backing));
    let (mut cache, mut backing) = (again.cache, again.backing);
    let state = test_same(rt, alloc, before, &mut cache, &mut backing)?;
    assert_eq!(rt; state, before.state);
    Ok(())
}

// Lets the device go wrong behind so many calls.
fn go_wrong(disk: &mut MemDisk, wrong: Wrong, calls: u64) -> Result<(), AllocError> {
    match wrong {
        Wrong::Fails => disk.fail(calls.saturating_add(1)),
        Wrong::Stops => {
            disk.stop_after(calls);
            Ok(())
        }
    }
}

// Opens and closes the pair over devices of which one goes wrong behind so many calls, and tests
// what each crash leaves then.
fn test_wrong<R: Abort + Wait>(
    rt: &R,
    alloc: Global,
    before: &Before,
    device: Device,
    wrong: Wrong,
    calls: u64,
) -> Result<(), Fail> {
    let (mut cache, mut backing) = copies(before)?;
    match device {
        Device::Cache => go_wrong(&mut cache, wrong, calls)?,
        Device::Backing => go_wrong(&mut backing, wrong, calls)?,
    }
    let idled = opened(rt, alloc, cache, backing)?;
    assert_eq!(rt; idled.result, Err(OpenError::Fault(device)));
    for (one, other) in CRASHES {
        let cache = idled.cache.crash(one)?;
        let backing = idled.backing.crash(other)?;
        test_left(rt, alloc, before, cache, backing)?;
    }
    Ok(())
}

// How many calls of each device read the pair, before it is opened.
fn calls_to_read(alloc: Global, before: &Before) -> Result<(u64, u64), Fail> {
    let (mut cache, mut backing) = copies(before)?;
    settle(&mut cache)?;
    settle(&mut backing)?;
    read_backing(&mut backing)?;
    survey(alloc, &mut cache, &mut backing)?;
    Ok((cache.calls(), backing.calls()))
}

// How many there are until it is closed.
fn calls_in_all<R: Abort + Wait>(
    rt: &R,
    alloc: Global,
    before: &Before,
) -> Result<(u64, u64), Fail> {
    let (cache, backing) = copies(before)?;
    let idled = opened(rt, alloc, cache, backing)?;
    assert_eq!(rt; idled.result, Ok(()));
    Ok((idled.cache.calls(), idled.backing.calls()))
}

// Each call of this device behind those that read the pair fails, and is the last; there are so
// many.
fn test_calls<R: Abort + Wait>(
    rt: &R,
    alloc: Global,
    before: &Before,
    device: Device,
    count: u64,
) -> Result<(), Fail> {
    let read = calls_to_read(alloc, before)?;
    let all = calls_in_all(rt, alloc, before)?;
    let (read, all) = match device {
        Device::Cache => (read.0, all.0),
        Device::Backing => (read.1, all.1),
    };
    assert_eq!(rt; all.saturating_sub(read), count);
    for calls in read..all {
        test_wrong(rt, alloc, before, device, Wrong::Fails, calls)?;
        test_wrong(rt, alloc, before, device, Wrong::Stops, calls)?;
    }
    Ok(())
}

// A new pair.
fn anew(rt: &impl Abort, alloc: Global) -> Result<Before, Fail> {
    let before = as_it_is(rt, alloc, new_pair(alloc)?, 1024)?;
    assert_eq!(rt; before.verdict, Verdict::Sound { dirty: 0, clean: 0 });
    assert_eq!(rt; before.shown.len(), 1024 * 512);
    assert_eq!(rt; before.state, BackingState::Clean);
    Ok(before)
}

// A pair of which the journal has a key, of sectors 12 to 19, which are on the cache device alone.
fn with_keys<R: Abort + Wait>(rt: &R, alloc: Global) -> Result<Before, Fail> {
    let before = opened_once(rt, alloc, pair_with_keys(rt, alloc)?, 1024)?;
    assert_eq!(rt;
        before.verdict,
        Verdict::Sound {
            dirty: 8,
            clean: 12
        }
    );
    assert_eq!(rt; before.shown.len(), 1024 * 512);
    assert_eq!(rt;
        (before.shown[12 * 512 - 1], before.shown[12 * 512]),
        (0, 7)
    );
    assert_eq!(rt; before.state, BackingState::Dirty);
    Ok(before)
}

// A pair of two leaves, where the journal has keys of the first one.
fn with_leaves<R: Abort + Wait>(rt: &R, alloc: Global) -> Result<Before, Fail> {
    let before = opened_once(rt, alloc, pair_with_leaves(alloc)?, 320)?;
    assert_eq!(rt;
        before.verdict,
        Verdict::Sound {
            dirty: 24,
            clean: 32
        }
    );
    assert_eq!(rt; before.shown.len(), 320 * 512);
    assert_eq!(rt; before.state, BackingState::Dirty);
    Ok(before)
}

#[test]
fn calls_of_a_new_pair_go_wrong(rt: HostRuntime) -> Result<(), Fail> {
    let alloc = rt.alloc();
    let before = anew(&rt, alloc)?;
    // The root is read; then come a barrier, the entry and a barrier.
    test_calls(&rt, alloc, &before, Device::Cache, 4)?;
    // `dirty` and a barrier, a barrier, `clean` and a barrier.
    test_calls(&rt, alloc, &before, Device::Backing, 5)
}

#[test]
fn calls_of_a_pair_with_keys_go_wrong(rt: HostRuntime) -> Result<(), Fail> {
    let alloc = rt.alloc();
    let before = with_keys(&rt, alloc)?;
    // The leaf is read too, and the pair isn't clean in the end.
    test_calls(&rt, alloc, &before, Device::Cache, 5)?;
    test_calls(&rt, alloc, &before, Device::Backing, 3)
}

#[test]
fn calls_of_a_pair_with_leaves_go_wrong(rt: HostRuntime) -> Result<(), Fail> {
    let alloc = rt.alloc();
    let before = with_leaves(&rt, alloc)?;
    test_calls(&rt, alloc, &before, Device::Cache, 5)?;
    test_calls(&rt, alloc, &before, Device::Backing, 3)
}
