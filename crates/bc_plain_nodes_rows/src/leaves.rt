//! Leaves beside plain lists, on random calls.
ghost use Rattle.std.specs.Prelude.{◌<◌};

use crate::random::Random;
use bc_disk::disk::Disk;
use bc_disk::geometry::Geometry;
use bc_disk::mem_disk::MemDisk;
use bc_extent::Extents;
use bc_key::{Key, Ptr};
use bc_keys::are_extents;
use bc_node::{Entries, Leaf, NodeError, are_within, load_sets, word_of};
use bc_plain_nodes::keys::{Bare, parts};
use bc_plain_nodes::leaf::{PlainLeaf, bytes, set_keys};
use bc_set::{Set, SetError, SetKind};
use std::alloc::{AllocError, Global};
use std::process::Abort;
use std::test::Fail;

/// How many sectors of the device there are: 32 buckets of 64.
const SECTORS: usize = 2048;

/// Where a leaf's range begins and ends.
const FROM: u64 = 256;

const END: u64 = 320;

/// A device of blocks of one sector, so that a node has room for many sets.
const NARROW: Geometry = Geometry {
    block: 1,
    bucket: 64,
    nbuckets: 128,
    first_bucket: 1,
    journal: 8,
    set_magic: 1,
    node_sectors: 64,
};

/// A device of blocks of eight sectors, so that it has room for eight at most.
const WIDE: Geometry = Geometry {
    block: 8,
    bucket: 64,
    nbuckets: 128,
    first_bucket: 1,
    journal: 8,
    set_magic: 1,
    node_sectors: 64,
};

/// Where a bucket begins.
fn place(bucket: u64) -> Ptr {
    Ptr {
        dev: 0,
        offset: 64 * (bucket % 32),
        generation: 0,
    }
}

/// A random key in the range of the leaf, in a quarter of the cases one without pointers.
fn random_key(random: &mut Random) -> Key {
    let size = 1 + random.below(12);
    let end = FROM + size + random.below(END - FROM - size + 1);
    let ptr = Ptr {
        dev: 0,
        offset: random.below(1 << 31),
        generation: 0,
    };
    let dirty = random.below(2) == 0;
    if random.below(4) == 0 {
        Key::new(end, size as u16, dirty, None)
    } else {
        Key::new(end, size as u16, dirty, Some(ptr))
    }
}

/// Whether a map has just these keys.
fn has(map: &Extents, keys: &[Key]) -> bool {
    if map.len() != keys.len() {
        return false;
    }
    for i in 0..map.len() {
        if i >= keys.len() || map.key(i) != keys[i] {
            return false;
        }
    }
    true
}

/// What a look-up leaves of keys in the range of the leaf.
fn parts_of(
    rt: &impl Abort,
    alloc: Global,
    keys: &[Key],
    bare: Bare,
) -> Result<Vec<Key>, AllocError> {
    assert!(rt; are_extents(keys));
    assert!(rt; are_within(FROM, END, keys));
    parts(alloc, keys, bare, FROM, END)
}

/// The first and the last of the entries.
fn ends(entries: &[u64]) -> Option<Entries> {
    let first = *entries.first()?;
    let last = *entries.last()?;
    Some(Entries { first, last })
}

/// The leaf and the lists have the same keys, with room for the same.
fn agree(
    rt: &impl Abort,
    alloc: Global,
    g: &Geometry,
    leaf: &Leaf,
    plain: &PlainLeaf,
) -> Result<(), Fail> {
    let all = plain.keys(alloc)?;
    let keys = parts_of(rt, alloc, &all, Bare::Hides)?;
    let further = parts_of(rt, alloc, &plain.pending, Bare::Counts)?;
    assert!(rt; has(leaf.keys(), &keys));
    assert!(rt; has(leaf.pending(), &further));
    assert_eq!(rt;
        (leaf.length(), leaf.pending_length()),
        (bytes(&keys), bytes(&further))
    );
    assert_eq!(rt; leaf.is_full(g), plain.is_full(g, &further));
    assert_eq!(rt; leaf.entries(), ends(&plain.entries));
    assert_eq!(rt; (leaf.seq(), leaf.is_loaded()), (plain.seq, plain.loaded));
    Ok(())
}

/// Whether two lists have the same sets.
fn are_same(found: &[Set], sets: &[Set]) -> bool {
    if found.len() != sets.len() {
        return false;
    }
    for (one, other) in found.iter().zip(sets) {
        if one.seq != other.seq
            || one.version != other.version
            || one.keys.as_slice() != other.keys.as_slice()
        {
            return false;
        }
    }
    true
}

/// The device has the sets of the list.
fn holds(
    rt: &impl Abort,
    alloc: Global,
    disk: &mut MemDisk,
    g: &Geometry,
    at: Ptr,
    plain: &PlainLeaf,
) -> Result<(), Fail> {
    assert!(rt; at.offset + u64::from(g.node_sectors) <= disk.sectors());
    match load_sets(alloc, disk, g, at.offset, word_of(&at), SetKind::Extents) {
        Ok(sets) => assert!(rt; are_same(&sets, &plain.sets)),
        Err(error) => assert_eq!(rt;
            (error, plain.sets.len()),
            (NodeError::First(SetError::Magic), 0)
        ),
    }
    Ok(())
}

/// Adds a few random keys.
fn add(
    rt: &impl Abort,
    alloc: Global,
    random: &mut Random,
    leaf: &mut Leaf,
    plain: &mut PlainLeaf,
    entry: u64,
) -> Result<(), Fail> {
    let mut keys = Vec::new(alloc);
    for _ in 0..random.below(4) {
        keys.push(random_key(random))?;
    }
    leaf.reserve(4)?;
    assert!(rt; keys.len() <= leaf.spare());
    assert!(rt; are_extents(&keys) && are_within(leaf.from(), leaf.end(), &keys));
    leaf.add(&keys, entry);
    plain.add(&keys, entry)?;
    Ok(())
}

/// Writes what is pending.
fn append(
    rt: &impl Abort,
    alloc: Global,
    disk: &mut MemDisk,
    g: &Geometry,
    leaf: &mut Leaf,
    plain: &mut PlainLeaf,
) -> Result<(), Fail> {
    let mut buffer = vec![in alloc; 0xaau8; 512 * usize::from(g.node_sectors)]?;
    let further = parts_of(rt, alloc, &plain.pending, Bare::Counts)?;
    assert!(rt; buffer.len() == 512 * usize::from(g.node_sectors));
    assert!(rt; leaf.ptr().offset + u64::from(g.node_sectors) <= disk.sectors());
    assert!(rt; !leaf.is_full(g) && !leaf.is_loaded());
    // The leaf stays as it was where the device fails.
    if leaf.append(disk, g, &mut buffer).is_ok() {
        plain.append(further)?;
    }
    Ok(())
}

/// Writes it anew into a bucket, with this number.
fn rewrite(
    rt: &impl Abort,
    alloc: Global,
    disk: &mut MemDisk,
    g: &Geometry,
    leaf: &mut Leaf,
    plain: &mut PlainLeaf,
    to: (Ptr, u64),
) -> Result<(), Fail> {
    let mut buffer = vec![in alloc; 0xaau8; 512 * usize::from(g.node_sectors)]?;
    let all = plain.keys(alloc)?;
    let keys = parts_of(rt, alloc, &all, Bare::Hides)?;
    assert!(rt; buffer.len() == 512 * usize::from(g.node_sectors));
    assert!(rt; leaf.length() <= 512 * usize::from(g.node_sectors));
    assert!(rt; to.0.offset + u64::from(g.node_sectors) <= disk.sectors());
    if leaf.rewrite(disk, g, &to.0, to.1, &mut buffer).is_ok() {
        plain.rewrite(to.1, keys)?;
    }
    Ok(())
}

/// The leaf that stands at a place, of this range.
fn load(
    rt: &impl Abort,
    alloc: Global,
    disk: &mut MemDisk,
    g: &Geometry,
    at: Ptr,
    from: u64,
    end: u64,
) -> Result<Leaf, NodeError> {
    let key = Key::new(end, 64, false, Some(at));
    assert!(rt; key.count > 0);
    assert!(rt; key.ptrs[0].offset + u64::from(g.node_sectors) <= disk.sectors());
    Leaf::load(alloc, disk, g, &key, from)
}

/// A load of a smaller range is refused just where some key of the sets lies outside.
fn load_part(
    rt: &impl Abort,
    alloc: Global,
    random: &mut Random,
    disk: &mut MemDisk,
    g: &Geometry,
    at: Ptr,
    plain: &PlainLeaf,
) -> Result<bool, Fail> {
    let from = FROM + random.below(8);
    let end = END - random.below(8);
    let keys = set_keys(alloc, &plain.sets)?;
    match load(rt, alloc, disk, g, at, from, end).err() {
        None => assert!(rt; are_within(from, end, &keys)),
        Some(NodeError::Ranges) => assert!(rt; !are_within(from, end, &keys)),
        Some(error) => {
            assert_eq!(rt;
                (error, plain.sets.len()),
                (NodeError::First(SetError::Magic), 0)
            );
        }
    }
    Ok(!are_within(from, end, &keys))
}

/// Reads the leaf again, where it has a set: then nothing is pending.
fn reload(
    rt: &impl Abort,
    alloc: Global,
    disk: &mut MemDisk,
    g: &Geometry,
    leaf: Leaf,
    plain: &mut PlainLeaf,
) -> Result<Leaf, Fail> {
    match load(rt, alloc, disk, g, leaf.ptr(), FROM, END) {
        Ok(found) => {
            plain.load();
            Ok(found)
        }
        Err(error) => {
            assert_eq!(rt;
                (error, plain.sets.len()),
                (NodeError::First(SetError::Magic), 0)
            );
            Ok(leaf)
        }
    }
}

/// What came in a run.
#[derive(Drop)]
struct Seen {
    /// How often a full leaf was written anew.
    full: u32,
    /// How often a write failed.
    failed: u32,
    /// How often a load was refused for the range.
    refused: u32,
}

/// Writes what is pending, or the whole leaf anew where it has no room or was read from a device.
fn write(
    rt: &impl Abort,
    alloc: Global,
    random: &mut Random,
    disk: &mut MemDisk,
    g: &Geometry,
    leaf: &mut Leaf,
    plain: &mut PlainLeaf,
    number: u64,
    seen: &mut Seen,
) -> Result<(), Fail> {
    let faults = disk.faults();
    if random.below(8) == 0 {
        disk.fail(disk.calls().saturating_add(1))?;
    }
    if leaf.is_full(g) {
        seen.full = seen.full.saturating_add(1);
    }
    if leaf.is_loaded() || leaf.is_full(g) || random.below(64) == 0 {
        let to = (place(1 + random.below(30)), number);
        rewrite(rt, alloc, disk, g, leaf, plain, to)?;
    } else {
        append(rt, alloc, disk, g, leaf, plain)?;
    }
    if disk.faults() != faults {
        seen.failed = seen.failed.saturating_add(1);
    }
    assert!(rt; disk.barrier().is_ok());
    Ok(())
}

/// Makes a random call.
fn step(
    rt: &impl Abort,
    alloc: Global,
    random: &mut Random,
    disk: &mut MemDisk,
    g: &Geometry,
    leaf: Leaf,
    plain: &mut PlainLeaf,
    number: u64,
    seen: &mut Seen,
) -> Result<Leaf, Fail> {
    let mut leaf = leaf;
    match random.below(32) {
        0..=15 => add(rt, alloc, random, &mut leaf, plain, number)?,
        16..=30 => write(rt, alloc, random, disk, g, &mut leaf, plain, number, seen)?,
        _ => {
            if load_part(rt, alloc, random, disk, g, leaf.ptr(), plain)? {
                seen.refused = seen.refused.saturating_add(1);
            }
            return reload(rt, alloc, disk, g, leaf, plain);
        }
    }
    Ok(leaf)
}

/// Makes random calls, behind each of which the leaf, the device and the lists agree.
fn run(rt: &impl Abort, alloc: Global, g: &Geometry, seed: u64) -> Result<Seen, Fail> {
    let mut random = Random(seed);
    let mut disk = MemDisk::new(alloc, vec![in alloc; 0u8; 512 * SECTORS]?, 100)?;
    let key = Key::new(END, 64, false, Some(place(1)));
    let mut leaf = Leaf::new(alloc, &key, FROM, 7);
    let mut plain = PlainLeaf::new(alloc, 7);
    let mut seen = Seen {
        full: 0,
        failed: 0,
        refused: 0,
    };
    for number in 8..308 {
        leaf = step(
            rt,
            alloc,
            &mut random,
            &mut disk,
            g,
            leaf,
            &mut plain,
            number,
            &mut seen,
        )?;
        agree(rt, alloc, g, &leaf, &plain)?;
        holds(rt, alloc, &mut disk, g, leaf.ptr(), &plain)?;
    }
    Ok(seen)
}

#[test]
fn leaves_are_those_of_plain_lists(rt: HostRuntime) -> Result<(), Fail> {
    for (g, seed) in [(NARROW, 3), (WIDE, 4), (WIDE, 5)] {
        let seen = run(&rt, rt.alloc(), &g, seed)?;
        assert!(rt; seen.failed > 0 && seen.refused > 0, "{seed}");
        assert!(rt; g.block == 1 || seen.full > 0, "{seed}");
    }
    Ok(())
}
