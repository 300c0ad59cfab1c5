//! Sound pairs of a small size, by how they are laid out.
//!
//! Each has an entry of two keys behind the one that a new pair has, and in its leaf a second set
//! of four keys: of sectors that are clean, dirty, in a bucket that was used again since, and in
//! the same bucket since then. So each part of soundness has something to look at.
ghost use Rattle.std.specs.Prelude.{◌≡◌, ◌+◌, ◌*◌, ◌<◌, ◌≤◌, length, IfOk};
ghost use Rattle.bc_plain_pair.specs.PairBytes.{AreSectors};

use crate::seal::{Kind, Record, seal};
use bc_bytes::{put_u32, put_u64};
use bc_disk::mem_disk::MemDisk;
use bc_keys::put_words;
use bc_mode::Mode;
use bc_pair::error::PairError;
use bc_pair::format::{NewPair, format};
use std::alloc::{AllocError, Global};

/// How a cache device of 128 buckets is laid out: the sectors of a block and of a bucket, and
/// whether there are two leaves below the root, or one.
#[derive(Clone, Copy, Debug, PartialEq, Eq, Drop)]
pub struct Layout {
    pub block: u16,
    pub bucket: u16,
    pub split: bool,
    pub ghost block_from: { 0 < block },
    pub ghost block_to: { block ≤ 8 },
    pub ghost bucket_from: { 64 ≤ bucket },
    pub ghost bucket_to: { bucket ≤ 128 },
}

/// The layouts of which there are pairs.
pub const LAYOUTS: [Layout; 8] = [
    Layout {
        block: 1,
        bucket: 64,
        split: false,
    },
    Layout {
        block: 2,
        bucket: 64,
        split: true,
    },
    Layout {
        block: 4,
        bucket: 64,
        split: false,
    },
    Layout {
        block: 8,
        bucket: 64,
        split: true,
    },
    Layout {
        block: 1,
        bucket: 128,
        split: true,
    },
    Layout {
        block: 2,
        bucket: 128,
        split: false,
    },
    Layout {
        block: 4,
        bucket: 128,
        split: true,
    },
    Layout {
        block: 8,
        bucket: 128,
        split: false,
    },
];

/// The sectors of the backing device: 16 set aside, and 320 of data.
pub const BACKING: usize = 16 + 320;

/// The first word of a key of 8 sectors with one pointer.
const CLEAN: u64 = (1 << 63) + (1 << 60) + (8 << 20);

/// The same of a dirty key.
const DIRTY: u64 = CLEAN + (1 << 36);

/// The first word of a key of one sector with one pointer.
const ONE: u64 = (1 << 63) + (1 << 60) + (1 << 20);

impl Layout {
    /// The sectors of the cache device.
    pub fn sectors(&self) -> usize
        ensures { result ≡ 128 * self.now.bucket }
    {
        128 * self.bucket as usize
    }

    /// How many sectors of its sound pair have data on the cache device, dirty and clean.
    pub fn counts(&self) -> (u64, u64) {
        if self.split { (24, 32) } else { (16, 24) }
    }

    /// The first sector of a bucket.
    pub fn sector(&self, bucket: usize) -> usize
        requires { bucket < 128 }
        ensures { result ≡ self.now.bucket * bucket }
    {
        self.bucket as usize * bucket
    }
}

// The word of a pointer to a sector.
fn word(sector: usize, generation: u8) -> u64
    requires { sector ≤ 16384 }
{
    ((sector as u64) << 8) + u64::from(generation)
}

// A disk of so many zeros, in sectors.
fn blank(alloc: Global, sectors: usize) -> Result<MemDisk, AllocError>
    requires { sectors ≤ 65536 }
{
    MemDisk::new(alloc, vec![in alloc; 0u8; 512 * sectors]?, 10000)
}

// The bytes that a disk holds.
fn bytes_of(alloc: Global, disk: &MemDisk) -> Result<Vec<u8>, AllocError>
    ensures { IfOk result (λ v. AreSectors v.items) }
{
    Vec::from_slice(alloc, disk.bytes())
}

/// The bytes of both devices of a new pair: entry 1 in bucket 1, the generations in bucket 9, the
/// uuid table in bucket 10, the root in bucket 11, and its leaf in bucket 12.
pub fn new_pair(alloc: Global, l: &Layout) -> Result<(Vec<u8>, Vec<u8>), PairError>
    ensures cache { IfOk result (λ r. AreSectors r.0.items) }
    ensures backing { IfOk result (λ r. AreSectors r.1.items) }
{
    let mut cache = blank(alloc, l.sectors())?;
    let mut backing = blank(alloc, BACKING)?;
    let pair = NewPair {
        set_uuid: [1; 16],
        cache_uuid: [2; 16],
        backing_uuid: [3; 16],
        block: l.block,
        bucket: l.bucket,
        mode: Mode::Writethrough,
        offset: 16,
    };
    format(alloc, &mut cache, &mut backing, &pair)?;
    let first = bytes_of(alloc, &cache)?;
    let second = bytes_of(alloc, &backing)?;
    Ok((first, second))
}

// Writes entry 2 behind entry 1: sectors 0 to 7 are clean in bucket 13, and 16 to 23 dirty.
fn put_entry(bytes: &mut [u8], l: &Layout)
    requires { length bytes.old ≡ 512 * (128 * l.now.bucket) }
    ensures { length bytes.new ≡ length bytes.old }
{
    let first = l.sector(1);
    let place = first + l.block as usize;
    let clean = l.sector(13);
    let mut sector = [0; 512];
    sector.copy_from_slice(&bytes[512 * first..512 * first + 512]);
    sector[16] = 2;
    put_u32(&mut sector, 28, 6);
    let keys = [CLEAN, 8, word(clean, 0), DIRTY, 24, word(clean + 8, 0)];
    put_words(&mut sector, 240, &keys);
    bytes[512 * place..512 * place + 512].copy_from_slice(&sector);
    seal(
        bytes,
        &Record {
            sector: place,
            kind: Kind::Entry,
        },
    );
}

// Writes a set of these words at a sector of the node that begins at another, which has one.
fn put_set(bytes: &mut [u8], node: usize, place: usize, words: &[u64])
    requires node { (node < 16384) × (512 * node + 512 ≤ length bytes.old) }
    requires place { (place < 16384) × (512 * place + 512 ≤ length bytes.old) }
    requires few { length words.now ≤ 12 }
    ensures { length bytes.new ≡ length bytes.old }
{
    let mut sector = [0; 512];
    sector.copy_from_slice(&bytes[512 * node..512 * node + 512]);
    put_u32(&mut sector, 28, words.len() as u32);
    put_words(&mut sector, 32, words);
    bytes[512 * place..512 * place + 512].copy_from_slice(&sector);
    seal(
        bytes,
        &Record {
            sector: place,
            kind: Kind::Set { node },
        },
    );
}

// Writes a second set into the leaf: sectors 32 to 39 are dirty in bucket 14, 48 to 55 clean in
// bucket 15, which had other data of sectors 64 to 71 once, and 80 to 87 are clean in bucket 14.
fn put_leaf(bytes: &mut [u8], l: &Layout)
    requires { length bytes.old ≡ 512 * (128 * l.now.bucket) }
    ensures { length bytes.new ≡ length bytes.old }
{
    let leaf = l.sector(12);
    let (one, other) = (l.sector(14), l.sector(15));
    let words = [
        DIRTY,
        40,
        word(one, 0),
        CLEAN,
        56,
        word(other, 3),
        CLEAN,
        72,
        word(other + 8, 0),
        CLEAN,
        88,
        word(one + 8, 0),
    ];
    put_set(bytes, leaf, leaf + l.block as usize, &words);
}

// Bucket 15 was used again three times.
fn put_generation(bytes: &mut [u8], l: &Layout)
    requires { length bytes.old ≡ 512 * (128 * l.now.bucket) }
    ensures { length bytes.new ≡ length bytes.old }
{
    let sector = l.sector(9);
    bytes[512 * sector + 40 + 3 * 15 + 2] = 3;
    seal(
        bytes,
        &Record {
            sector,
            kind: Kind::Generations { bucket: l.bucket },
        },
    );
}

// Lets the leaf end at sector 256, and adds a second one behind it, in bucket 28: sectors 300 to
// 307 are clean in bucket 29, and 308 to 315 dirty.
fn put_split(bytes: &mut [u8], l: &Layout)
    requires { length bytes.old ≡ 512 * (128 * l.now.bucket) }
    ensures { length bytes.new ≡ length bytes.old }
{
    let (root, leaf, behind) = (l.sector(11), l.sector(12), l.sector(28));
    let data = l.sector(29);
    let node = (1 << 63) + (1 << 60) + (u64::from(l.bucket) << 20);
    let children = [node, 256, word(leaf, 0), node, 1 << 40, word(behind, 0)];
    put_set(bytes, root, root, &children);
    let mut sector = [0; 512];
    sector.copy_from_slice(&bytes[512 * leaf..512 * leaf + 512]);
    bytes[512 * behind..512 * behind + 512].copy_from_slice(&sector);
    let keys = [CLEAN, 308, word(data, 0), DIRTY, 316, word(data + 8, 0)];
    put_set(bytes, behind, behind, &keys);
}

// The bucket, unless a sound pair has a node or data in it; else one with data.
fn unless_used(l: &Layout, bucket: usize) -> usize
    requires { bucket < 128 }
    ensures { result < 128 }
{
    if l.split && (bucket == 28 || bucket == 29) {
        13
    } else {
        bucket
    }
}

// Writes key `i` of the set at a sector: sector 100 + i is clean in a bucket.
fn put_one(bytes: &mut [u8], set: usize, i: usize, sector: usize)
    requires set { set < 16384 }
    requires within { 512 * set + 24 * i + 56 ≤ length bytes.old }
    requires few { i < 128 }
    requires sector { sector ≤ 16384 }
    ensures { length bytes.new ≡ length bytes.old }
{
    let at = 512 * set + 32 + 24 * i;
    put_u64(bytes, at, ONE);
    put_u64(bytes, at + 8, 101 + i as u64);
    put_u64(bytes, at + 16, word(sector, 0));
}

/// Writes a third set into the leaf: each bucket from 16 up to an end has a clean sector of those
/// from 100 on, but for those that were used already.
pub fn put_full(bytes: &mut [u8], l: &Layout, end: usize)
    requires bytes { length bytes.old ≡ 512 * (128 * l.now.bucket) }
    requires from { 16 ≤ end }
    requires to { end ≤ 128 }
    ensures { length bytes.new ≡ length bytes.old }
{
    let leaf = l.sector(12);
    let set = leaf + 2 * l.block as usize;
    put_set(bytes, leaf, set, &[]);
    for bucket in 16..end {
        let sector = l.sector(unless_used(l, bucket)) + 32;
        put_one(bytes, set, bucket - 16, sector);
    }
    put_u32(bytes, 512 * set + 28, 3 * (end - 16) as u32);
    seal(
        bytes,
        &Record {
            sector: set,
            kind: Kind::Set { node: leaf },
        },
    );
}

// Fills eight sectors with sevens.
fn fill(bytes: &mut [u8], sector: usize)
    requires { (sector < 16384) × (512 * sector + 4096 ≤ length bytes.old) }
    ensures { length bytes.new ≡ length bytes.old }
{
    bytes[512 * sector..512 * sector + 4096].fill(7);
}

// The dirty sectors of the cache device are full of sevens, and so is what stands where a bucket
// was used before.
fn put_data(bytes: &mut [u8], l: &Layout)
    requires { length bytes.old ≡ 512 * (128 * l.now.bucket) }
    ensures { length bytes.new ≡ length bytes.old }
{
    fill(bytes, l.sector(13) + 8);
    fill(bytes, l.sector(14));
    fill(bytes, l.sector(15) + 8);
    fill(bytes, l.sector(29) + 8);
}

/// A sound pair of a layout: of its sectors 16 have dirty data, and 24 clean; 8 more of each where
/// there are two leaves.
pub fn sound_pair(alloc: Global, l: &Layout) -> Result<(Vec<u8>, Vec<u8>), PairError>
    ensures cache { IfOk result (λ r. AreSectors r.0.items) }
    ensures backing { IfOk result (λ r. AreSectors r.1.items) }
{
    let (mut cache, backing) = new_pair(alloc, l)?;
    if cache.len() != 512 * l.sectors() {
        return Ok((cache, backing));
    }
    put_entry(&mut cache, l);
    put_leaf(&mut cache, l);
    put_generation(&mut cache, l);
    put_data(&mut cache, l);
    if l.split {
        put_split(&mut cache, l);
    }
    Ok((cache, backing))
}
