//! The parts of a new pair, and of one with keys in a leaf and in the journal.
ghost use Rattle.std.specs.Prelude.{◌≡◌, ◌<◌, ◌≤◌, length};

use bc_bytes::{crc64, put_u32, put_u64};
use bc_cache::NodeCache;
use bc_disk::mem_disk::MemDisk;
use bc_keys::put_words;
use bc_mode::Mode;
use bc_pair::error::PairError;
use bc_pair::format::{NewPair, format};
use bc_pending::pending_of;
use bc_regrow::tree_of;
use bc_replay::{OpenError, survey};
use bc_slots::{leaf_parts, leaves_of};
use std::alloc::{AllocError, Global};
use std::test::Fail;

/// The bytes of the cache device: 128 buckets of 64 sectors. Entry 1 stands in sector 64, and the
/// tree's one leaf in sector 768.
const CACHE: usize = 128 * 64 * 512;

/// The first word of a key of 8 sectors with one pointer, clean and dirty.
const CLEAN: u64 = (1 << 63) + (1 << 60) + (8 << 20);

const DIRTY: u64 = CLEAN + (1 << 36);

// A disk of so many zeros, in sectors.
fn blank(alloc: Global, sectors: usize) -> Result<MemDisk, AllocError>
    requires { sectors ≤ 65536 }
{
    MemDisk::new(alloc, vec![in alloc; 0u8; 512 * sectors]?, 1000)
}

// A new pair, with 1,024 sectors of data.
fn new_pair(alloc: Global) -> Result<(MemDisk, MemDisk), PairError> {
    let mut cache = blank(alloc, CACHE / 512)?;
    let mut backing = blank(alloc, 1040)?;
    let pair = NewPair {
        set_uuid: [1; 16],
        cache_uuid: [2; 16],
        backing_uuid: [3; 16],
        block: 1,
        bucket: 64,
        mode: Mode::Writethrough,
        offset: 16,
    };
    format(alloc, &mut cache, &mut backing, &pair)?;
    Ok((cache, backing))
}

// Puts two keys into the leaf: of sectors 0 to 7 and of 8 to 15, in buckets 100 and 101.
fn put_leaf(bytes: &mut [u8])
    requires { 4194304 ≤ length bytes.old }
    ensures { length bytes.new ≡ length bytes.old }
{
    let at = 768 * 512;
    put_u32(bytes, at + 28, 6);
    put_words(bytes, at + 32, &[CLEAN, 8, (100 * 64) << 8]);
    put_words(bytes, at + 56, &[CLEAN, 16, (101 * 64) << 8]);
    let sum = crc64(768 << 8, &bytes[at + 8..at + 80]);
    put_u64(bytes, at, sum);
}

// Puts one into the entry: a dirty one of sectors 12 to 19, in bucket 102.
fn put_entry(bytes: &mut [u8])
    requires { 4194304 ≤ length bytes.old }
    ensures { length bytes.new ≡ length bytes.old }
{
    let at = 64 * 512;
    put_u32(bytes, at + 28, 3);
    put_words(bytes, at + 240, &[DIRTY, 20, (102 * 64) << 8]);
    let sum = crc64(u64::MAX, &bytes[at + 8..at + 264]);
    put_u64(bytes, at, sum);
}

// So many parts of a pair.
fn parts_of(
    alloc: Global,
    cache: &mut MemDisk,
    backing: &mut MemDisk,
    count: u32,
) -> Result<Vec<NodeCache>, OpenError>
    requires { 0 < count }
{
    let s = survey(alloc, cache, backing)?;
    let g = s.supers.geometry;
    let tree = tree_of(alloc, cache, &s)?;
    let leaves = leaves_of(alloc, &tree)?;
    let pending = pending_of(alloc, &leaves, &s.journal)?;
    leaf_parts(alloc, cache, &g, &leaves, &pending, count)
}

// How many slots each part has.
fn lengths(alloc: Global, parts: &[NodeCache]) -> Result<Vec<u32>, AllocError> {
    let mut lengths = Vec::new(alloc);
    for part in parts {
        lengths.push(part.len())?;
    }
    Ok(lengths)
}

// Of each leaf in a slot its part, the slot, its number, how many keys it has and how many are pending.
fn leaves_in(
    alloc: Global,
    parts: &[NodeCache],
) -> Result<Vec<(usize, u32, u32, usize, usize)>, AllocError> {
    let mut seen = Vec::new(alloc);
    for (p, part) in parts.iter().enumerate() {
        for slot in 0..part.len() {
            if let Some(cached) = part.slot(slot) {
                let keys = cached.leaf.keys().len();
                let pending = cached.leaf.pending().len();
                seen.push((p, slot, cached.number, keys, pending))?;
            }
        }
    }
    Ok(seen)
}

#[test]
fn new_pair_has_empty_parts(rt: HostRuntime) -> Result<(), Fail> {
    let (mut cache, mut backing) = new_pair(rt.alloc())?;
    let one = parts_of(rt.alloc(), &mut cache, &mut backing, 1)?;
    assert_eq!(rt; lengths(rt.alloc(), &one)?.as_slice(), [4].as_slice());
    assert!(rt; leaves_in(rt.alloc(), &one)?.is_empty());
    let three = parts_of(rt.alloc(), &mut cache, &mut backing, 3)?;
    assert_eq!(rt;
        lengths(rt.alloc(), &three)?.as_slice(),
        [4, 4, 4].as_slice()
    );
    assert!(rt; leaves_in(rt.alloc(), &three)?.is_empty());
    Ok(())
}

#[test]
fn leaf_with_a_key_of_the_journal_is_read(rt: HostRuntime) -> Result<(), Fail> {
    let (made, mut backing) = new_pair(rt.alloc())?;
    let mut bytes = Vec::from_slice(rt.alloc(), made.bytes())?;
    assert_eq!(rt; bytes.len(), CACHE);
    put_leaf(&mut bytes);
    put_entry(&mut bytes);
    let mut cache = MemDisk::new(rt.alloc(), bytes, 1000)?;
    let one = parts_of(rt.alloc(), &mut cache, &mut backing, 1)?;
    assert_eq!(rt; lengths(rt.alloc(), &one)?.as_slice(), [5].as_slice());
    assert_eq!(rt;
        leaves_in(rt.alloc(), &one)?.as_slice(),
        [(0, 0, 0, 3, 1)].as_slice()
    );
    let three = parts_of(rt.alloc(), &mut cache, &mut backing, 3)?;
    assert_eq!(rt;
        lengths(rt.alloc(), &three)?.as_slice(),
        [5, 4, 4].as_slice()
    );
    assert_eq!(rt;
        leaves_in(rt.alloc(), &three)?.as_slice(),
        [(0, 0, 0, 3, 1)].as_slice()
    );
    Ok(())
}
