//! A small pair in memory: a formatted one, with keys in its leaf and in its journal.
ghost use Rattle.std.specs.Prelude.{◌≡◌, ◌≤◌, length};

use bc_bytes::{crc64, put_u32, put_u64};
use bc_disk::mem_disk::MemDisk;
use bc_keys::put_words;
use bc_mode::Mode;
use bc_pair::error::PairError;
use bc_pair::format::{NewPair, format};
use bc_plain_pair::layouts::{LAYOUTS, sound_pair};
use std::alloc::{AllocError, Global};
use std::process::Abort;
use std::test::Fail;

/// The bytes of the cache device: 128 buckets of 64 sectors. Entry 1 stands in sector 64, and the
/// tree's one leaf in sector 768.
const CACHE: usize = 128 * 64 * 512;

/// The first word of a key of 8 sectors with one pointer, clean and dirty.
const CLEAN: u64 = (1 << 63) + (1 << 60) + (8 << 20);

const DIRTY: u64 = CLEAN + (1 << 36);

// A disk of so many zeros, in sectors.
fn blank(alloc: Global, sectors: usize) -> Result<MemDisk, AllocError>
    requires { sectors ≤ 65536 }
{
    MemDisk::new(alloc, vec![in alloc; 0u8; 512 * sectors]?, 1000)
}

/// A new pair, with 1,024 sectors of data.
pub(crate) fn new_pair(alloc: Global) -> Result<(MemDisk, MemDisk), PairError> {
    let mut cache = blank(alloc, CACHE / 512)?;
    let mut backing = blank(alloc, 1040)?;
    let pair = NewPair {
        set_uuid: [1; 16],
        cache_uuid: [2; 16],
        backing_uuid: [3; 16],
        block: 1,
        bucket: 64,
        mode: Mode::Writethrough,
        offset: 16,
    };
    format(alloc, &mut cache, &mut backing, &pair)?;
    Ok((cache, backing))
}

// Puts two keys into the leaf: of sectors 0 to 7 and of 8 to 15, in buckets 100 and 101.
fn put_leaf(bytes: &mut [u8])
    requires { 4194304 ≤ length bytes.old }
    ensures { length bytes.new ≡ length bytes.old }
{
    let at = 768 * 512;
    put_u32(bytes, at + 28, 6);
    put_words(bytes, at + 32, &[CLEAN, 8, (100 * 64) << 8]);
    put_words(bytes, at + 56, &[CLEAN, 16, (101 * 64) << 8]);
    let sum = crc64(768 << 8, &bytes[at + 8..at + 80]);
    put_u64(bytes, at, sum);
}

// Puts one into the entry: a dirty one of sectors 12 to 19, in bucket 102.
fn put_entry(bytes: &mut [u8])
    requires { 4194304 ≤ length bytes.old }
    ensures { length bytes.new ≡ length bytes.old }
{
    let at = 64 * 512;
    put_u32(bytes, at + 28, 3);
    put_words(bytes, at + 240, &[DIRTY, 20, (102 * 64) << 8]);
    let sum = crc64(u64::MAX, &bytes[at + 8..at + 264]);
    put_u64(bytes, at, sum);
}

// Fills the data of that key with sevens.
fn put_data(bytes: &mut [u8])
    requires { 4194304 ≤ length bytes.old }
    ensures { length bytes.new ≡ length bytes.old }
{
    bytes[512 * 6528..512 * 6536].fill(7);
}

/// A new pair with these keys: the journal has a dirty one, which is in no leaf.
pub(crate) fn pair_with_keys(rt: &impl Abort, alloc: Global) -> Result<(MemDisk, MemDisk), Fail> {
    let (made, backing) = new_pair(alloc)?;
    let mut bytes = Vec::from_slice(alloc, made.bytes())?;
    assert_eq!(rt; bytes.len(), CACHE);
    put_leaf(&mut bytes);
    put_entry(&mut bytes);
    put_data(&mut bytes);
    Ok((MemDisk::new(alloc, bytes, 1000)?, backing))
}

/// A pair of 320 sectors of data, of which the tree has two leaves below the root, with dirty keys
/// in both and in the journal.
pub(crate) fn pair_with_leaves(alloc: Global) -> Result<(MemDisk, MemDisk), PairError> {
    let layout = LAYOUTS[1];
    let (cache, backing) = sound_pair(alloc, &layout)?;
    let cache = MemDisk::new(alloc, cache, 1000)?;
    let backing = MemDisk::new(alloc, backing, 1000)?;
    Ok((cache, backing))
}
