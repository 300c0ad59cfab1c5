//! A small pair in memory: a formatted one, with keys of data in two leaves.
ghost use Rattle.std.specs.Prelude.{◌≡◌, ◌+◌, ◌*◌, ◌≤◌, length};

use bc_bytes::{crc64, put_u32, put_u64};
use bc_disk::mem_disk::MemDisk;
use bc_keys::put_words;
use bc_mode::Mode;
use bc_pair::error::PairError;
use bc_pair::format::{NewPair, format};
use std::alloc::{AllocError, Global};
use std::process::Abort;
use std::test::Fail;

/// The bytes of the cache device: 128 buckets of 64 sectors. The root stands in sector 704, and its
/// leaves in sectors 768 and 832.
const CACHE: usize = 128 * 64 * 512;

/// The first word of a key with one pointer: of 8 sectors of data, of as many that are dirty, and of
/// a leaf.
pub(crate) const DATA: u64 = (1 << 63) + (1 << 60) + (8 << 20);

pub(crate) const DIRTY: u64 = DATA + (1 << 36);

const LEAF: u64 = (1 << 63) + (1 << 60) + (64 << 20);

/// Behind the last sector that there may be.
const END: u64 = 1 << 40;

/// A key with one pointer: its first word, where its range ends, and the sector that it points to.
pub(crate) type Put = (u64, u64, u64);

// A disk of so many zeros, in sectors.
fn blank(alloc: Global, sectors: usize) -> Result<MemDisk, AllocError>
    requires { sectors ≤ 65536 }
{
    MemDisk::new(alloc, vec![in alloc; 0u8; 512 * sectors]?, 1000)
}

// A new pair, with 1,024 sectors of data.
fn new_pair(alloc: Global) -> Result<(MemDisk, MemDisk), PairError> {
    let mut cache = blank(alloc, CACHE / 512)?;
    let mut backing = blank(alloc, 1040)?;
    let pair = NewPair {
        set_uuid: [1; 16],
        cache_uuid: [2; 16],
        backing_uuid: [3; 16],
        block: 1,
        bucket: 64,
        mode: Mode::Writethrough,
        offset: 16,
    };
    format(alloc, &mut cache, &mut backing, &pair)?;
    Ok((cache, backing))
}

// Puts keys into the first set of the node in a sector, which else is as that of sector 768.
fn put_keys(bytes: &mut [u8], sector: usize, keys: &[Put])
    requires large { 4194304 ≤ length bytes.old }
    requires near { sector ≤ 832 }
    requires few { length keys.now ≤ 2 }
    ensures { length bytes.new ≡ length bytes.old }
{
    let at = 512 * sector;
    for i in 8..28 {
        bytes[at + i] = bytes[768 * 512 + i];
    }
    put_u32(bytes, at + 28, 3 * keys.len() as u32);
    for i in 0..keys.len() {
        let (first, end, place) = keys[i];
        put_words(bytes, at + 32 + 24 * i, &[first, end, place << 8]);
    }
    let start = (sector as u64) << 8;
    let sum = crc64(start, &bytes[at + 8..at + 32 + 24 * keys.len()]);
    put_u64(bytes, at, sum);
}

/// A new pair with these keys in two leaves: of the sectors below 256, and of all others.
pub(crate) fn pair(
    rt: &impl Abort,
    alloc: Global,
    low: &[Put],
    high: &[Put],
) -> Result<(MemDisk, MemDisk), Fail>
    requires low { length low.now ≤ 2 }
    requires high { length high.now ≤ 2 }
{
    let (made, backing) = new_pair(alloc)?;
    let mut bytes = Vec::from_slice(alloc, made.bytes())?;
    assert_eq!(rt; bytes.len(), CACHE);
    put_keys(&mut bytes, 832, high);
    put_keys(&mut bytes, 768, low);
    put_keys(&mut bytes, 704, &[(LEAF, 256, 768), (LEAF, END, 832)]);
    Ok((MemDisk::new(alloc, bytes, 1000)?, backing))
}

// Makes each of 32 sectors from `at` on begin with a byte of its own.
fn mark_sectors(bytes: &mut [u8], at: usize, mark: u8)
    requires room { 512 * (at + 32) ≤ length bytes.old }
    requires small { mark ≤ 200 }
{
    for i in 0..32 {
        bytes[512 * (at + i)] = mark + i as u8;
    }
}

/// The same disk, but that each of 32 sectors from `at` on begins with a byte of its own.
pub(crate) fn marked(
    rt: &impl Abort,
    alloc: Global,
    disk: &MemDisk,
    at: usize,
    mark: u8,
) -> Result<MemDisk, Fail>
    requires near { at ≤ 65536 }
    requires small { mark ≤ 200 }
{
    let mut bytes = Vec::from_slice(alloc, disk.bytes())?;
    assert!(rt; 512 * (at + 32) <= bytes.len());
    mark_sectors(&mut bytes, at, mark);
    Ok(MemDisk::new(alloc, bytes, 1000)?)
}
