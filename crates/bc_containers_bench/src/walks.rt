//! Rounds over all buckets: walks with what they settle, and aging.
ghost use Rattle.std.specs.Prelude.{◌≡◌, ◌<◌, ◌≤◌, length, IfOk};

use crate::measured::Measured;
use crate::random::Random;
use bc_bucket::{Buckets, Reference, Walk};
use bc_disk::gens::Gens;
use bc_disk::geometry::Geometry;
use std::alloc::{AllocError, Global};
use std::io;
use std::time::CpuClock;

// What tells the buckets from others.
fn sum_of(b: &Buckets) -> u64 {
    let mut sum = 0u64;
    for bucket in b.records() {
        for word in [
            u64::from(bucket.last_gc),
            u64::from(bucket.priority),
            u64::from(bucket.used),
        ] {
            sum = sum.wrapping_mul(31).wrapping_add(word);
        }
    }
    sum
}

/// The buckets of a device, of which none has been used yet.
pub fn new_buckets(alloc: Global, g: &Geometry) -> Result<Buckets, AllocError>
    ensures { IfOk result (λ b. length b.records ≡ g.now.nbuckets) }
{
    let gens = Gens::new(alloc, g)?;
    Buckets::new(alloc, g, &gens)
}

// A pointer into the bucket, 3 generations old at most.
fn some_reference(own: u8, random: u32) -> Reference {
    Reference {
        generation: own.wrapping_sub((random / 8 % 4) as u8),
        sectors: (random / 32 % 64 + 1) as u16,
        dirty: random / 2048 % 8 == 0,
    }
}

// A walk finds a key in a bucket, and each 16th time a new key touches the bucket.
fn find(b: &mut Buckets, walk: &mut Walk, random: &mut Random)
    requires some { 0 < length b.old.records }
    requires few { length b.old.records < 1048577 }
    requires same { length walk.old ≡ length b.old.records }
    ensures same { length walk.new ≡ length b.new.records }
    ensures count { length b.new.records ≡ length b.old.records }
{
    let count = b.records().len() as u32;
    let bucket = random.below(count);
    let choice = random.next();
    let own = b.get(bucket).generation;
    walk.add(bucket, own, some_reference(own, choice));
    if choice % 16 == 0 {
        b.touch(bucket);
    }
}

/// A round in which a walk finds this many keys.
pub fn round(b: &mut Buckets, walk: &mut Walk, random: &mut Random, keys: u32)
    requires some { 0 < length b.old.records }
    requires few { length b.old.records < 1048577 }
    requires same { length walk.old ≡ length b.old.records }
    ensures same { length walk.new ≡ length b.new.records }
    ensures count { length b.new.records ≡ length b.old.records }
{
    b.begin();
    walk.clear();
    for _key in 0..keys {
        find(b, walk, random);
    }
    b.settle(walk);
}

/// A device of this many buckets of 1,024 sectors.
pub fn geometry(buckets: u32) -> Geometry
    requires some { 128 ≤ buckets }
    requires few { buckets ≤ 1048576 }
    ensures { result.nbuckets ≡ buckets }
{
    Geometry {
        block: 1,
        bucket: 1024,
        nbuckets: buckets,
        first_bucket: 1,
        journal: 8,
        set_magic: 0,
        node_sectors: 512,
    }
}

/// Rounds over a device of this many buckets, each of which finds four keys a bucket.
pub fn measure_walks<R: CpuClock + AllocGlobal>(
    rt: &R,
    size: u32,
    rounds: u32,
) -> io::Result<Measured>
    requires some { 128 ≤ size }
    requires few { size ≤ 1048576 }
{
    let g = geometry(size);
    let mut b = new_buckets(rt.alloc(), &g)?;
    let mut walk = Walk::new(rt.alloc(), &g)?;
    let mut random = Random::new();
    let begun = rt.process_cpu_time()?;
    for _round in 0..rounds {
        round(&mut b, &mut walk, &mut random, 4 * size);
    }
    let ended = rt.process_cpu_time()?;
    Ok(Measured::new(sum_of(&b), begun, ended))
}

// Data is found in a 16th of the buckets, and all get a step older.
fn grow_older(b: &mut Buckets, random: &mut Random, size: u32)
    requires some { 0 < size }
    requires count { length b.old.records ≡ size }
    ensures count { length b.new.records ≡ size }
{
    for _hit in 0..size / 16 {
        b.hit(random.below(size));
    }
    b.age();
}

/// Rounds in which the priorities of this many buckets fall.
pub fn measure_aging<R: CpuClock + AllocGlobal>(
    rt: &R,
    size: u32,
    rounds: u32,
) -> io::Result<Measured>
    requires some { 128 ≤ size }
    requires few { size ≤ 1048576 }
{
    let g = geometry(size);
    let mut b = new_buckets(rt.alloc(), &g)?;
    let mut random = Random::new();
    let begun = rt.process_cpu_time()?;
    for _round in 0..rounds {
        grow_older(&mut b, &mut random, size);
    }
    let ended = rt.process_cpu_time()?;
    Ok(Measured::new(sum_of(&b), begun, ended))
}
