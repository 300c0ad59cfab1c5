//! Pairs that are opened and closed, and nothing is asked of them.
ghost use Rattle.std.specs.Prelude.{◌≤◌};

use crate::pair::{new_pair, pair_with_keys};
use bc_disk::crash::Pick;
use bc_disk::disk::{Device, Disk};
use bc_disk::mem_disk::MemDisk;
use bc_disk::modelled::settle;
use bc_replay::{OpenError, survey};
use bc_session::{Idled, open_and_close};
use bc_super::backing::read_backing;
use bc_super::state::BackingState;
use std::alloc::Global;
use std::process::Abort;
use std::sync::Wait;
use std::test::Fail;

/// Reads a pair, and opens and closes it by a run with two parts for leaves.
pub(crate) fn opened<C: Disk + Drop, B: Disk + Drop, R: Abort + Wait>(
    rt: &R,
    alloc: Global,
    mut cache: C,
    mut backing: B,
) -> Result<Idled<C, B>, Fail> {
    settle(&mut cache)?;
    settle(&mut backing)?;
    let superblock = read_backing(&mut backing)?;
    let s = survey(alloc, &mut cache, &mut backing)?;
    Ok(open_and_close(rt, alloc, &s, &superblock, 2, cache, backing))
}

// Whether the bytes are the same but for those from one place to another.
fn is_same(a: &[u8], b: &[u8], from: usize, to: usize) -> bool
    requires { from ≤ to }
{
    if a.len() != b.len() || a.len() < to {
        return false;
    }
    a[..from] == b[..from] && a[to..] == b[to..]
}

/// Whether a pair has what it had, but for its journal's sectors, 64 to 575, and the superblock of
/// its backing device, sector 8.
pub(crate) fn has_kept(before: &(MemDisk, MemDisk), cache: &MemDisk, backing: &MemDisk) -> bool {
    is_same(before.0.bytes(), cache.bytes(), 512 * 64, 512 * 576)
        && is_same(before.1.bytes(), backing.bytes(), 512 * 8, 512 * 9)
}

/// The number of the newest entry of a pair, and what its backing device says.
pub(crate) fn told(
    rt: &impl Abort,
    alloc: Global,
    cache: &mut MemDisk,
    backing: &mut MemDisk,
) -> Result<(u64, BackingState), Fail> {
    let s = survey(alloc, cache, backing)?;
    let count = s.journal.len();
    assert!(rt; 0 < count);
    Ok((
        s.journal.entry(count - 1).item.seq,
        s.supers.backing.state(),
    ))
}

// Opens and closes the pair three times, after each of which the state is this one.
fn three_times<R: Abort + Wait>(
    rt: &R,
    alloc: Global,
    before: &(MemDisk, MemDisk),
    pair: (MemDisk, MemDisk),
    state: BackingState,
) -> Result<(), Fail> {
    let (mut cache, mut backing) = pair;
    for n in 2..5u64 {
        let idled = opened(rt, alloc, cache, backing)?;
        assert_eq!(rt; idled.result, Ok(()));
        cache = idled.cache;
        backing = idled.backing;
        assert!(rt; has_kept(before, &cache, &backing));
        assert_eq!(rt; told(rt, alloc, &mut cache, &mut backing)?, (n, state));
    }
    Ok(())
}

#[test]
fn pairs_are_opened_over_and_over(rt: HostRuntime) -> Result<(), Fail> {
    let alloc = rt.alloc();
    let before = new_pair(alloc)?;
    three_times(&rt, alloc, &before, new_pair(alloc)?, BackingState::Clean)?;
    let before = pair_with_keys(&rt, alloc)?;
    let pair = pair_with_keys(&rt, alloc)?;
    three_times(&rt, alloc, &before, pair, BackingState::Dirty)
}

// A pair with keys of which this device fails at a call, is opened and closed; what a crash leaves is
// opened again, and has what the pair had.
fn fails_at<R: Abort + Wait>(
    rt: &R,
    alloc: Global,
    before: &(MemDisk, MemDisk),
    device: Device,
    call: u64,
    pick: Pick,
) -> Result<(), Fail> {
    let (mut cache, mut backing) = pair_with_keys(rt, alloc)?;
    match device {
        Device::Cache => cache.fail(call)?,
        Device::Backing => backing.fail(call)?,
    }
    let idled = opened(rt, alloc, cache, backing)?;
    assert_eq!(rt; idled.result, Err(OpenError::Fault(device)));
    let cache = idled.cache.crash(pick)?;
    let backing = idled.backing.crash(pick)?;
    let again = opened(rt, alloc, cache, backing)?;
    assert_eq!(rt; again.result, Ok(()));
    assert!(rt; has_kept(before, &again.cache, &again.backing));
    Ok(())
}

#[test]
fn calls_of_the_entry_fail(rt: HostRuntime) -> Result<(), Fail> {
    let alloc = rt.alloc();
    let before = pair_with_keys(&rt, alloc)?;
    let (cache, backing) = pair_with_keys(&rt, alloc)?;
    let idled = opened(&rt, alloc, cache, backing)?;
    let last = idled.cache.calls();
    // Its last calls are a barrier, the write and a barrier.
    for (back, pick) in [(0, Pick::Stable), (0, Pick::Newest), (1, Pick::Newest)] {
        let call = last.saturating_sub(back);
        fails_at(&rt, alloc, &before, Device::Cache, call, pick)?;
    }
    Ok(())
}

#[test]
fn calls_of_the_state_fail(rt: HostRuntime) -> Result<(), Fail> {
    let alloc = rt.alloc();
    let before = pair_with_keys(&rt, alloc)?;
    let (cache, backing) = pair_with_keys(&rt, alloc)?;
    let idled = opened(&rt, alloc, cache, backing)?;
    let last = idled.backing.calls();
    // Its last calls are the write of the state, a barrier, and that of the closing.
    for (back, pick) in [(0, Pick::Stable), (1, Pick::Newest), (2, Pick::Stable)] {
        let call = last.saturating_sub(back);
        fails_at(&rt, alloc, &before, Device::Backing, call, pick)?;
    }
    Ok(())
}
