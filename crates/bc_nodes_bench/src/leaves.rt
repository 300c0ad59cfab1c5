//! A leaf that is filled, written and read.
ghost use Rattle.std.specs.Prelude.{◌<◌, ◌^◌};
ghost use Rattle.bc_key.specs.Key.{IsExtent};

use bc_disk::disk::Disk;
use bc_disk::geometry::Geometry;
use bc_key::{Key, Ptr};
use bc_keys::are_extents;
use bc_node::{Leaf, are_within};
use std::alloc::Global;
use std::io;
use std::time::{CpuClock, Duration};

/// What processor time was spent.
#[derive(Drop)]
pub struct Spent {
    /// On keys that were added.
    pub adding: Duration,
    /// On sets that were written.
    pub writing: Duration,
    /// On nodes that were read.
    pub reading: Duration,
}

impl Spent {
    /// None.
    pub fn new() -> Spent {
        Spent {
            adding: Duration::ZERO,
            writing: Duration::ZERO,
            reading: Duration::ZERO,
        }
    }
}

/// With the time between two moments.
pub fn with_time(spent: Duration, begun: Duration, ended: Duration) -> Duration {
    spent.saturating_add(ended.checked_sub(begun).unwrap_or(Duration::ZERO))
}

/// The dirty key of eight sectors, counted from the first sector in eights.
fn key_of(slot: u64) -> Key
    requires { slot < 2 ^ 40 }
    ensures { IsExtent result }
{
    let pointer = Ptr {
        dev: 0,
        offset: 8 * slot,
        generation: 0,
    };
    Key::new(8 * slot + 8, 8, true, Some(pointer))
}

/// Adds a key to a leaf. Says whether there was room, and the key one of its own.
fn add_key(leaf: &mut Leaf, key: Key) -> bool {
    let keys = [key];
    if leaf.spare() < 1 || !are_extents(&keys) || !are_within(leaf.from(), leaf.end(), &keys) {
        return false;
    }
    leaf.add(&keys, 1);
    true
}

/// Adds so many keys to a leaf, in an order that looks random.
fn fill(leaf: &mut Leaf, keys: u32) -> bool {
    for i in 0..u64::from(keys) {
        let slot = i * 7919 % u64::from(keys);
        if !add_key(leaf, key_of(slot)) {
            return false;
        }
    }
    true
}

/// Writes the set of what is pending. Says whether that was done.
fn write<D: Disk>(leaf: &mut Leaf, disk: &mut D, g: &Geometry, buffer: &mut [u8]) -> bool {
    let sectors = u64::from(g.node_sectors);
    if leaf.is_full(g) || leaf.is_loaded() || buffer.len() != 512 * usize::from(g.node_sectors) {
        return false;
    }
    if leaf.ptr().offset + sectors > disk.sectors() {
        return false;
    }
    leaf.append(disk, g, buffer).is_ok()
}

/// The leaf of a key as the device has it.
fn read<D: Disk>(alloc: Global, disk: &mut D, g: &Geometry, key: &Key) -> Option<Leaf> {
    let sectors = u64::from(g.node_sectors);
    if key.count == 0 || key.ptrs[0].offset + sectors > disk.sectors() {
        return None;
    }
    Leaf::load(alloc, disk, g, key, 0).ok()
}

/// With the keys of a leaf, a number that tells them from others.
fn with_keys(mut sum: u64, leaf: &Leaf) -> u64 {
    let keys = leaf.keys();
    for i in 0..keys.len() {
        let key = keys.key(i);
        sum = sum.wrapping_mul(31).wrapping_add(key.end);
        sum = sum.wrapping_add(key.ptrs[0].offset);
    }
    sum
}

/// Fills, writes and reads one leaf. Gives it as it was read, or `None` where that failed.
fn round<R: CpuClock + AllocGlobal, D: Disk>(
    rt: &R,
    disk: &mut D,
    g: &Geometry,
    keys: u32,
    buffer: &mut [u8],
    spent: &mut Spent,
) -> io::Result<Option<Leaf>> {
    let alloc = rt.alloc();
    let pointer = Ptr {
        dev: 0,
        offset: 64 * u64::from(g.node_sectors),
        generation: 0,
    };
    let key = Key::new(8 * u64::from(keys), 0, false, Some(pointer));
    let mut leaf = Leaf::new(alloc, &key, 0, 7);
    leaf.reserve(keys)?;
    let begun = rt.process_cpu_time()?;
    let filled = fill(&mut leaf, keys);
    let added = rt.process_cpu_time()?;
    let is_written = write(&mut leaf, disk, g, buffer);
    let written = rt.process_cpu_time()?;
    let found = read(alloc, disk, g, &key);
    let ended = rt.process_cpu_time()?;
    spent.adding = with_time(spent.adding, begun, added);
    spent.writing = with_time(spent.writing, added, written);
    spent.reading = with_time(spent.reading, written, ended);
    if filled && is_written {
        Ok(found)
    } else {
        Ok(None)
    }
}

/// Fills, writes and reads so many leaves of so many keys. Gives a number that tells their keys from
/// others, or `None` where something failed.
pub fn leaves<R: CpuClock + AllocGlobal, D: Disk>(
    rt: &R,
    disk: &mut D,
    g: &Geometry,
    keys: u32,
    rounds: u32,
    spent: &mut Spent,
) -> io::Result<Option<u64>> {
    let mut buffer = vec![in rt.alloc(); 0u8; 512 * usize::from(g.node_sectors)]?;
    let mut sum = 0;
    for _ in 0..rounds {
        match round(rt, disk, g, keys, &mut buffer, spent)? {
            Some(leaf) => sum = with_keys(sum, &leaf),
            None => return Ok(None),
        }
    }
    Ok(Some(sum))
}
