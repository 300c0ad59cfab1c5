//! Random changes of the records of a pair, so that what is said of it can be compared by two
//! programs.
//!
//! A random byte alone is found by a checksum nearly always, and tells little. So most of the
//! changes are sealed: the record gets the checksum of its changed bytes, as from a writer that
//! was wrong.
ghost use Rattle.std.specs.Prelude.{◌≡◌, ◌+◌, ◌*◌, ◌<◌, ◌≤◌, length};

use crate::layouts::{BACKING, Layout, put_full};
use crate::seal::{Kind, Record, seal, sealed};
use bc_bytes::{get_u64, put_u64};

/// Numbers that look random, each made of the one before.
#[derive(Clone, Copy, Debug, PartialEq, Eq, Drop)]
pub struct Random {
    state: u64,
}

impl Random {
    /// The numbers that this one makes.
    pub fn new(seed: u64) -> Random {
        Random {
            state: seed.wrapping_mul(6_364_136_223_846_793_005).wrapping_add(1),
        }
    }

    /// The next number below a bound.
    pub fn below(&mut self, bound: usize) -> usize
        requires { 0 < bound }
        ensures { result < bound }
    {
        self.state = self
            .state
            .wrapping_mul(6_364_136_223_846_793_005)
            .wrapping_add(1_442_695_040_888_963_407);
        (self.state >> 33) as usize % bound
    }
}

// One of the records of a cache device, by its number.
fn record(l: &Layout, number: usize) -> Record
    ensures { result.sector + 1 ≤ 128 * l.now.bucket }
{
    let leaf = l.sector(12);
    let block = l.block as usize;
    let (sector, kind) = match number {
        0 => (8, Kind::Super),
        1 => (l.sector(1), Kind::Entry),
        2 | 3 => (l.sector(1) + block, Kind::Entry),
        4 => (l.sector(9), Kind::Generations { bucket: l.bucket }),
        5 => (l.sector(10), Kind::Table),
        6 | 7 => (l.sector(11), Kind::Set { node: l.sector(11) }),
        8 => (leaf, Kind::Set { node: leaf }),
        9 | 10 => (leaf + block, Kind::Set { node: leaf }),
        _ => (l.sector(28), Kind::Set { node: l.sector(28) }),
    };
    Record { sector, kind }
}

// How many bytes of a record tell something.
fn telling(bytes: &[u8], what: &Record) -> usize
    requires sector { what.now.sector < 16384 }
    requires within { 512 * what.now.sector + 512 ≤ length bytes.now }
    ensures { (8 ≤ result) × (result ≤ 424) }
{
    match what.kind {
        Kind::Super => 280,
        Kind::Generations { .. } => 424,
        Kind::Table => 128,
        Kind::Entry | Kind::Set { .. } => sealed(bytes, 512 * what.sector, what.kind).min(424),
    }
}

// Changes a random bit of a record, which in seven of eight cases is sealed again.
fn flip(bytes: &mut [u8], what: &Record, random: &mut Random)
    requires sector { what.now.sector < 16384 }
    requires within { 512 * what.now.sector + 512 ≤ length bytes.old }
    ensures { length bytes.new ≡ length bytes.old }
{
    let at = 512 * what.sector + random.below(telling(bytes, what));
    bytes[at] ^= 1 << random.below(8);
    if random.below(8) != 0 {
        seal(bytes, what);
    }
}

// Copies a random word of a record to the place of another one, and seals it.
fn repeat(bytes: &mut [u8], what: &Record, random: &mut Random)
    requires sector { what.now.sector < 16384 }
    requires within { 512 * what.now.sector + 512 ≤ length bytes.old }
    ensures { length bytes.new ≡ length bytes.old }
{
    let words = telling(bytes, what) / 8;
    let from = 512 * what.sector + 8 * random.below(words);
    let to = 512 * what.sector + 8 * random.below(words);
    let word = get_u64(bytes, from);
    put_u64(bytes, to, word);
    seal(bytes, what);
}

// Puts the first entry once more at a random block of the journal, with a number from 0 to 4.
fn stray(bytes: &mut [u8], l: &Layout, random: &mut Random)
    requires { length bytes.old ≡ 512 * (128 * l.now.bucket) }
    ensures { length bytes.new ≡ length bytes.old }
{
    let first = l.sector(1);
    let place = first + random.below(8 * l.bucket as usize);
    let place = place - place % l.block as usize;
    let mut entry = [0; 512];
    entry.copy_from_slice(&bytes[512 * first..512 * first + 512]);
    entry[16] = random.below(5) as u8;
    bytes[512 * place..512 * place + 512].copy_from_slice(&entry);
    let what = Record {
        sector: place,
        kind: Kind::Entry,
    };
    seal(bytes, &what);
}

// Changes a random bit of the backing device's superblock.
fn flip_backing(bytes: &mut [u8], random: &mut Random)
    requires { length bytes.old ≡ 512 * 336 }
    ensures { length bytes.new ≡ length bytes.old }
{
    let what = Record {
        sector: 8,
        kind: Kind::Super,
    };
    flip(bytes, &what, random);
}

// Gives the backing device a random mode and a random state.
fn put_flags(bytes: &mut [u8], random: &mut Random)
    requires { length bytes.old ≡ 512 * 336 }
    ensures { length bytes.new ≡ length bytes.old }
{
    let (mode, state) = (random.below(4) as u64, random.below(3) as u64);
    put_u64(bytes, 512 * 8 + 104, mode + (state << 61));
    let what = Record {
        sector: 8,
        kind: Kind::Super,
    };
    seal(bytes, &what);
}

// Gives the newest entry one of the last numbers that there are, of which it needs no older one.
fn put_number(bytes: &mut [u8], l: &Layout, random: &mut Random)
    requires { length bytes.old ≡ 512 * (128 * l.now.bucket) }
    ensures { length bytes.new ≡ length bytes.old }
{
    let sector = l.sector(1) + l.block as usize;
    let number = (1 << 63) - 4 + random.below(4) as u64;
    put_u64(bytes, 512 * sector + 16, number);
    put_u64(bytes, 512 * sector + 32, number);
    let what = Record {
        sector,
        kind: Kind::Entry,
    };
    seal(bytes, &what);
}

// Puts a pointer to a random place among the first buckets into a random word of a record.
fn point(bytes: &mut [u8], what: &Record, random: &mut Random)
    requires sector { what.now.sector < 16384 }
    requires within { 512 * what.now.sector + 512 ≤ length bytes.old }
    ensures { length bytes.new ≡ length bytes.old }
{
    let at = 512 * what.sector + 8 * random.below(telling(bytes, what) / 8);
    let place = 64 * random.below(32) as u64;
    put_u64(bytes, at, place << 8);
    seal(bytes, what);
}

// Lets a random key of the leaf's second set point into one of the buckets from the chain's on, of
// which most have another use.
fn share(bytes: &mut [u8], l: &Layout, random: &mut Random)
    requires { length bytes.old ≡ 512 * (128 * l.now.bucket) }
    ensures { length bytes.new ≡ length bytes.old }
{
    let leaf = l.sector(12);
    let sector = leaf + l.block as usize;
    let at = 512 * sector + 32 + 24 * random.below(4) + 16;
    put_u64(bytes, at, (l.sector(9 + random.below(6)) as u64) << 8);
    let what = Record {
        sector,
        kind: Kind::Set { node: leaf },
    };
    seal(bytes, &what);
}

// Gives each bucket that is spare the data of a sector, but for the last two, one, or none.
fn use_up(bytes: &mut [u8], l: &Layout, random: &mut Random)
    requires { length bytes.old ≡ 512 * (128 * l.now.bucket) }
    ensures { length bytes.new ≡ length bytes.old }
{
    let end = 126 + random.below(3);
    put_full(bytes, l, end);
}

// Changes a bit of the backing device's data.
fn flip_data(bytes: &mut [u8], random: &mut Random)
    requires { length bytes.old ≡ 512 * 336 }
    ensures { length bytes.new ≡ length bytes.old }
{
    let at = 512 * 16 + random.below(512 * 320);
    bytes[at] ^= 1;
}

// Makes a random change.
fn change(cache: &mut [u8], backing: &mut [u8], l: &Layout, random: &mut Random)
    requires cache { length cache.old ≡ 512 * (128 * l.now.bucket) }
    requires backing { length backing.old ≡ 512 * 336 }
    ensures cache { length cache.new ≡ length cache.old }
    ensures backing { length backing.new ≡ length backing.old }
{
    let what = record(l, random.below(13));
    match random.below(26) {
        24 => share(cache, l, random),
        25 => use_up(cache, l, random),
        0 => stray(cache, l, random),
        1 => flip_backing(backing, random),
        2 => flip_data(backing, random),
        3 => put_flags(backing, random),
        4 => put_number(cache, l, random),
        5..=8 => repeat(cache, &what, random),
        9..=12 => point(cache, &what, random),
        _ => flip(cache, &what, random),
    }
}

/// Makes one, two or three random changes in a pair of this layout, in the records of its cache
/// device, the superblock of its backing device, or its data; none where the devices have other
/// sizes.
pub fn edit(cache: &mut [u8], backing: &mut [u8], l: &Layout, random: &mut Random)
    ensures cache { length cache.new ≡ length cache.old }
    ensures backing { length backing.new ≡ length backing.old }
{
    if cache.len() != 512 * l.sectors() || backing.len() != 512 * BACKING {
        return;
    }
    change(cache, backing, l, random);
    if random.below(2) == 0 {
        change(cache, backing, l, random);
    }
    if random.below(4) == 0 {
        change(cache, backing, l, random);
    }
}
