//! A small pair in memory: a formatted one, with data in its cache.
ghost use Rattle.std.specs.Prelude.{◌≡◌, ◌+◌, ◌*◌, ◌≤◌, length};

use bc_bytes::{crc64, put_u32, put_u64};
use bc_disk::mem_disk::MemDisk;
use bc_keys::put_words;
use bc_mode::Mode;
use bc_pair::error::PairError;
use bc_pair::format::{NewPair, format};
use std::alloc::{AllocError, Global};
use std::process::Abort;
use std::test::Fail;

/// The bytes of the cache device: 128 buckets of 64 sectors. The tree's one leaf stands in sector
/// 768.
const CACHE: usize = 128 * 64 * 512;

/// The first word of a key of 8 sectors with one pointer, clean and dirty.
const CLEAN: u64 = (1 << 63) + (1 << 60) + (8 << 20);

const DIRTY: u64 = CLEAN + (1 << 36);

// A disk of so many zeros, in sectors.
fn blank(alloc: Global, sectors: usize) -> Result<MemDisk, AllocError>
    requires { sectors ≤ 65536 }
{
    MemDisk::new(alloc, vec![in alloc; 0u8; 512 * sectors]?, 1000)
}

// A new pair, with 1,024 sectors of data.
fn new_pair(alloc: Global) -> Result<(MemDisk, MemDisk), PairError> {
    let mut cache = blank(alloc, CACHE / 512)?;
    let mut backing = blank(alloc, 1040)?;
    let pair = NewPair {
        set_uuid: [1; 16],
        cache_uuid: [2; 16],
        backing_uuid: [3; 16],
        block: 1,
        bucket: 64,
        mode: Mode::Writeback,
        offset: 16,
    };
    format(alloc, &mut cache, &mut backing, &pair)?;
    Ok((cache, backing))
}

// Puts two keys into the leaf: a clean one of sectors 0 to 7 and a dirty one of 16 to 23, in buckets
// 100 and 101.
fn put_leaf(bytes: &mut [u8])
    requires { 4194304 ≤ length bytes.old }
    ensures { length bytes.new ≡ length bytes.old }
{
    let at = 768 * 512;
    put_u32(bytes, at + 28, 6);
    put_words(bytes, at + 32, &[CLEAN, 8, (100 * 64) << 8]);
    put_words(bytes, at + 56, &[DIRTY, 24, (101 * 64) << 8]);
    let sum = crc64(768 << 8, &bytes[at + 8..at + 80]);
    put_u64(bytes, at, sum);
}

// Makes each of 32 sectors from `at` on begin with a byte of its own.
fn mark(bytes: &mut [u8], at: usize, first: u8)
    requires room { 512 * (at + 32) ≤ length bytes.old }
    requires small { first ≤ 200 }
    ensures { length bytes.new ≡ length bytes.old }
{
    for i in 0..32 {
        bytes[512 * (at + i)] = first + i as u8;
    }
}

/// A pair of which the cache has sectors 0 to 7, clean, and 16 to 23, dirty. Each of the first 32
/// sectors of the backing device's data begins with its number, and what the cache has of these with
/// 100 and 140 more.
pub(crate) fn pair_with_data(rt: &impl Abort, alloc: Global) -> Result<(MemDisk, MemDisk), Fail> {
    let (made, other) = new_pair(alloc)?;
    let mut cache = Vec::from_slice(alloc, made.bytes())?;
    assert_eq!(rt; cache.len(), CACHE);
    put_leaf(&mut cache);
    mark(&mut cache, 6400, 100);
    mark(&mut cache, 6464, 140);
    let mut backing = Vec::from_slice(alloc, other.bytes())?;
    assert_eq!(rt; backing.len(), 1040 * 512);
    mark(&mut backing, 16, 0);
    Ok((
        MemDisk::new(alloc, cache, 1000)?,
        MemDisk::new(alloc, backing, 1000)?,
    ))
}
