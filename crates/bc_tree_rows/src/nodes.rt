//! A node cache beside a plain list of slots.
ghost use Rattle.std.specs.Prelude.{◌<◌};
ghost use Rattle.bc_cache.specs.Slots.{IsOccupied, IsTakenBy};

use bc_cache::{Cached, FetchError, NodeCache};
use bc_disk::disk::Disk;
use bc_disk::geometry::Geometry;
use bc_disk::mem_disk::MemDisk;
use bc_key::{Key, Ptr};
use bc_node::{Leaf, are_within};
use std::alloc::{AllocError, Global};
use std::process::Abort;
use std::test::Fail;

const GEOMETRY: Geometry = Geometry {
    block: 1,
    bucket: 64,
    nbuckets: 128,
    first_bucket: 1,
    journal: 8,
    set_magic: 1,
    node_sectors: 64,
};

/// How many leaves there are, and slots for them.
const LEAVES: u32 = 6;

const SLOTS: u32 = 3;

/// What the plain list knows of a slot.
#[derive(Clone, Copy, PartialEq, Eq, Debug)]
struct Plain {
    number: u32,
    keys: usize,
    held: bool,
    dirty: bool,
    used: u64,
}

/// The key of a leaf, which begins at 256 times its number.
fn key_of(number: u32) -> Key
    requires { number < 6 }
{
    let ptr = Ptr {
        dev: 0,
        offset: 64 * (20 + u64::from(number)),
        generation: 1,
    };
    Key::new(256 * (u64::from(number) + 1), 64, false, Some(ptr))
}

/// One sector of a leaf, which no other of these is beside.
fn sector_of(number: u32, i: usize) -> Key
    requires number { number < 6 }
    requires few { i < 128 }
{
    let end = 256 * u64::from(number) + 2 * i as u64 + 1;
    let ptr = Ptr {
        dev: 0,
        offset: 4_096 + end,
        generation: 1,
    };
    Key::new(end, 1, true, Some(ptr))
}

/// Adds a key to a leaf.
fn add(rt: &impl Abort, leaf: &mut Leaf, key: &Key) -> Result<(), AllocError> {
    leaf.reserve(1)?;
    let keys = [*key];
    assert!(rt; u64::from(key.size) <= key.end);
    assert!(rt; are_within(leaf.from(), leaf.end(), &keys));
    leaf.add(&keys, 1);
    Ok(())
}

/// Writes what a leaf has, where it stands: what is pending, if its node takes a further set, and
/// else all of it.
fn write(rt: &impl Abort, disk: &mut MemDisk, leaf: &mut Leaf, buffer: &mut [u8]) {
    let to = leaf.ptr();
    assert!(rt; leaf.length() <= 512 * 64);
    assert_eq!(rt; buffer.len(), 512 * 64);
    assert!(rt; to.offset < 4_096 && to.offset + 64 <= disk.sectors());
    let written = if leaf.is_loaded() || leaf.is_full(&GEOMETRY) {
        leaf.rewrite(disk, &GEOMETRY, &to, 7, buffer)
    } else {
        leaf.append(disk, &GEOMETRY, buffer)
    };
    assert!(rt; written.is_ok());
    assert!(rt; disk.barrier().is_ok());
}

/// The slot of a leaf in the plain list.
fn plain_find(list: &[Option<Plain>], number: u32) -> Option<usize> {
    for (i, slot) in list.iter().enumerate() {
        if let Some(plain) = slot
            && plain.number == number
        {
            return Some(i);
        }
    }
    None
}

/// When a slot of the plain list was used last, if its leaf can go.
fn plain_since(slot: &Option<Plain>) -> Option<u64> {
    match slot {
        None => Some(0),
        Some(plain) if plain.held || plain.dirty => None,
        Some(plain) => Some(plain.used),
    }
}

/// The slot of the plain list that is used next.
fn plain_oldest(list: &[Option<Plain>]) -> Option<usize> {
    let mut best: Option<(usize, u64)> = None;
    for (i, slot) in list.iter().enumerate() {
        let Some(since) = plain_since(slot) else {
            continue;
        };
        let earlier = match best {
            None => true,
            Some(known) => since < known.1,
        };
        if earlier {
            best = Some((i, since));
        }
    }
    match best {
        None => None,
        Some(known) => Some(known.0),
    }
}

/// What the plain list would know of a slot.
fn seen(slot: &Option<Cached>) -> Option<Plain> {
    match slot {
        None => None,
        Some(cached) => Some(Plain {
            number: cached.number,
            keys: cached.leaf.keys().len(),
            held: cached.held,
            dirty: !cached.leaf.pending().is_empty(),
            used: cached.used,
        }),
    }
}

/// Whether the slots are those of the plain list, and each leaf is the one of its number.
fn agree(cache: &NodeCache, list: &[Option<Plain>]) -> bool {
    for (i, plain) in list.iter().enumerate() {
        if i >= cache.len() as usize {
            return false;
        }
        let slot = cache.slot(i as u32);
        if seen(slot) != *plain {
            return false;
        }
        if let Some(cached) = slot
            && cached.leaf.from() != 256 * u64::from(cached.number)
        {
            return false;
        }
    }
    cache.len() as usize == list.len()
}

/// A cache, its device and the plain list.
#[derive(Drop)]
struct Both {
    cache: NodeCache,
    disk: MemDisk,
    list: Vec<Option<Plain>>,
    stored: Vec<usize>,
    added: Vec<usize>,
    uses: u64,
    busy: u64,
    buffer: Vec<u8>,
}

/// Fetches a leaf of both.
fn fetch(rt: &impl Abort, both: &mut Both, number: u32)
    requires { number < 6 }
{
    let key = key_of(number);
    let room = u64::from(both.cache.geometry().node_sectors);
    assert!(rt; key.count > 0 && key.ptrs[0].offset < 4_096 && room <= 512);
    assert!(rt; key.ptrs[0].offset + room <= both.disk.sectors());
    let calls = both.disk.calls();
    let there = plain_find(&both.list, number);
    let place = if there.is_some() {
        there
    } else {
        plain_oldest(&both.list)
    };
    let answer = both
        .cache
        .fetch(&mut both.disk, number, &key, 256 * u64::from(number));
    let Some(place) = place else {
        assert_eq!(rt; answer, Err(FetchError::Busy));
        assert_eq!(rt; both.disk.calls(), calls);
        both.busy = both.busy.saturating_add(1);
        return;
    };
    assert!(rt; place < 3);
    assert_eq!(rt; answer, Ok(place as u32));
    both.uses = both.uses.saturating_add(1);
    let read = u64::from(there.is_none());
    assert_eq!(rt; both.disk.calls(), calls.saturating_add(read));
    assert!(rt; place < both.list.len() && (number as usize) < both.stored.len());
    let before = both.list[place];
    both.list[place] = match before {
        Some(plain) if there.is_some() => Some(Plain {
            used: both.uses,
            ..plain
        }),
        _ => Some(Plain {
            number,
            keys: both.stored[number as usize],
            held: false,
            dirty: false,
            used: both.uses,
        }),
    };
}

/// Adds a key to the leaf in a slot of both.
fn change(rt: &impl Abort, both: &mut Both, slot: u32, plain: Plain) -> Result<(), AllocError>
    requires { IsOccupied both.old.cache.slots slot }
{
    let n = plain.number as usize;
    assert!(rt; plain.number < 6 && n < both.added.len() && (slot as usize) < both.list.len());
    let next = both.added[n];
    assert!(rt; next < 128);
    both.added[n] = next + 1;
    add(rt, both.cache.node(slot), &sector_of(plain.number, next))?;
    both.list[slot as usize] = Some(Plain {
        keys: plain.keys.saturating_add(1),
        dirty: true,
        ..plain
    });
    Ok(())
}

/// Writes the leaf in a slot of both.
fn clean(rt: &impl Abort, both: &mut Both, slot: u32, plain: Plain)
    requires { IsOccupied both.old.cache.slots slot }
{
    let n = plain.number as usize;
    assert!(rt; n < both.stored.len() && (slot as usize) < both.list.len());
    write(rt, &mut both.disk, both.cache.node(slot), &mut both.buffer);
    both.stored[n] = plain.keys;
    both.list[slot as usize] = Some(Plain {
        dirty: false,
        ..plain
    });
}

/// Begins a hold of a slot's leaf in both, or ends it.
fn hold(rt: &impl Abort, both: &mut Both, slot: u32, plain: Plain, held: bool)
    requires { IsTakenBy both.old.cache.slots slot held }
{
    assert!(rt; (slot as usize) < both.list.len());
    if held {
        both.cache.let_go(slot);
    } else {
        both.cache.hold(slot);
    }
    both.list[slot as usize] = Some(Plain {
        held: !plain.held,
        ..plain
    });
}

/// Takes the leaf out of a slot of both, and puts it back.
fn turn(rt: &impl Abort, both: &mut Both, slot: u32, plain: Plain, held: bool)
    requires { IsTakenBy both.old.cache.slots slot held }
{
    if held {
        return;
    }
    let leaf = both.cache.take(slot);
    assert!(rt; slot < both.cache.len() && (slot as usize) < both.list.len());
    let None = both.cache.find(plain.number) else {
        assert!(rt; false);
        return;
    };
    both.cache.put(slot, plain.number, leaf);
    both.uses = both.uses.saturating_add(1);
    both.list[slot as usize] = Some(Plain {
        used: both.uses,
        ..plain
    });
}

/// Does something with a slot of both that has a leaf.
fn act(rt: &impl Abort, both: &mut Both, slot: u32, what: u64) -> Result<(), AllocError> {
    assert!(rt; slot < both.cache.len() && (slot as usize) < both.list.len());
    let Some(plain) = both.list[slot as usize] else {
        return Ok(());
    };
    let Some(held) = both.cache.held(slot) else {
        assert!(rt; false);
        return Ok(());
    };
    match what {
        0 => hold(rt, both, slot, plain, held),
        1 => turn(rt, both, slot, plain, held),
        2 if plain.dirty && both.uses % 3 == 0 => clean(rt, both, slot, plain),
        _ => change(rt, both, slot, plain)?,
    }
    Ok(())
}

/// Empties the slot that is used next in both.
fn evict(rt: &impl Abort, both: &mut Both) {
    let place = plain_oldest(&both.list);
    let emptied = both.cache.evict();
    let Some(place) = place else {
        assert_eq!(rt; emptied, None);
        return;
    };
    assert!(rt; place < 3 && place < both.list.len());
    assert_eq!(rt; emptied, Some(place as u32));
    both.list[place] = None;
}

/// A leaf without keys for each number, on a device, and none in a slot.
fn both_of(rt: &impl Abort, alloc: Global) -> Result<Both, AllocError> {
    let mut buffer = vec![in alloc; 0u8; 512 * 64]?;
    let bytes = vec![in alloc; 0u8; 512 * 64 * 32]?;
    let mut disk = MemDisk::new(alloc, bytes, 256)?;
    let mut stored = Vec::new(alloc);
    let mut added = Vec::new(alloc);
    for number in 0..LEAVES {
        let key = key_of(number);
        let mut leaf = Leaf::new(alloc, &key, 256 * u64::from(number), 7);
        write(rt, &mut disk, &mut leaf, &mut buffer);
        stored.push(0)?;
        added.push(0)?;
    }
    let mut list = Vec::new(alloc);
    for _ in 0..SLOTS {
        list.push(None)?;
    }
    Ok(Both {
        cache: NodeCache::new(alloc, &GEOMETRY, SLOTS)?,
        disk,
        list,
        stored,
        added,
        uses: 0,
        busy: 0,
        buffer,
    })
}

/// Slots are those of the plain list through 400 changes, refusals among them.
#[test]
fn slots_are_those_of_a_plain_list(rt: HostRuntime) -> Result<(), Fail> {
    let mut both = both_of(&rt, rt.alloc())?;
    let mut seed: u64 = 1;
    for _ in 0..400 {
        seed = (seed % (1 << 32)) * 1_103_515_245 + 12_345;
        let drawn = seed / 65_536;
        let what = drawn % 9;
        let slot = (drawn / 9 % 3) as u32;
        match what {
            0..4 => fetch(&rt, &mut both, (drawn / 27 % 6) as u32),
            4 => evict(&rt, &mut both),
            _ => act(&rt, &mut both, slot, what - 5)?,
        }
        assert!(rt; agree(&both.cache, &both.list));
    }
    let (uses, busy) = (both.uses, both.busy);
    assert!(rt; uses > 100 && busy > 10, "{uses} uses, {busy} refused");
    Ok(())
}
