//! Places for data, until the open buckets and the plain list are used up.
ghost use Rattle.std.specs.Prelude.{◌≡◌, ◌<◌, ◌≤◌, [], length, IfOk};
ghost use Rattle.bc_alloc.specs.Buckets.{AreFor};
ghost use Rattle.bc_fill.specs.Fill.{AreOpen};

use crate::measured::Measured;
use crate::random::Random;
use crate::walks::{geometry, new_buckets};
use bc_alloc::{Purpose, Reserves};
use bc_bucket::Buckets;
use bc_disk::geometry::Geometry;
use bc_fill::laws::taken_bucket_may_be_opened;
use bc_fill::{Fill, MOST, place};
use std::alloc::{AllocError, Global};
use std::io;
use std::time::{CpuClock, Duration};

// Lists with no bucket.
fn no_reserves(alloc: Global, g: &Geometry, b: &Buckets) -> Result<Reserves, AllocError>
    requires { length b.now.records ≡ g.now.nbuckets }
    ensures { IfOk result (λ r. AreFor r b.now) }
{
    Reserves::new(alloc, g, &[])
}

// No open bucket.
fn nothing_open(_r: &Reserves, _b: &Buckets) -> Fill
    requires { AreFor _r.now _b.now }
    ensures { AreOpen result _r.now _b.now }
{
    Fill::new()
}

// Fills the lists, where no bucket is open.
fn restock(fill: &Fill, r: &mut Reserves, b: &mut Buckets)
    requires fit { AreFor r.old b.old }
    requires none { fill.now ≡ [] }
    ensures fit { AreFor r.new b.new }
    ensures opens { AreOpen fill.now r.new b.new }
{
    r.refill(b);
    let named = r.raised_len() as usize;
    r.ready(b, named, &[]);
}

// Opens one more bucket, if the plain list has one.
fn open_one(f: &mut Fill, r: &mut Reserves, b: &mut Buckets)
    requires fit { AreFor r.old b.old }
    requires opens { AreOpen f.old r.old b.old }
    requires room { length f.old < 16 }
    ensures fit { AreFor r.new b.new }
    ensures opens { AreOpen f.new r.new b.new }
{
    taken_bucket_may_be_opened();
    let _plain = r.len(Purpose::Plain);
    let _size = b.bucket_sectors();
    if let Ok(bucket) = r.take(b, Purpose::Plain) {
        f.add_bucket(bucket);
    }
}

// Opens as many buckets as there may be.
fn open_all(f: &mut Fill, r: &mut Reserves, b: &mut Buckets)
    requires fit { AreFor r.old b.old }
    requires opens { AreOpen f.old r.old b.old }
    ensures fit { AreFor r.new b.new }
    ensures opens { AreOpen f.new r.new b.new }
{
    for _bucket in 0..MOST {
        if f.open().len() < MOST {
            open_one(f, r, b);
        }
    }
}

// Gives places of 1 to 8 sectors, `most` at most, until there is none, and answers what tells them from
// others.
fn use_up(f: &mut Fill, r: &mut Reserves, b: &mut Buckets, random: &mut Random, most: u32) -> u64
    requires fit { AreFor r.old b.old }
    requires opens { AreOpen f.old r.old b.old }
    ensures fit { AreFor r.new b.new }
    ensures opens { AreOpen f.new r.new b.new }
{
    let mut sum = 0u64;
    for _place in 0..most {
        let Ok(placed) = place(f, r, b, 1 + random.below(8)) else {
            return sum;
        };
        let begins = placed.ptr.offset % 1024;
        sum = sum
            .wrapping_mul(31)
            .wrapping_add(begins * 1024)
            .wrapping_add(u64::from(placed.count));
    }
    sum
}

/// Rounds on a device of this many buckets, each of which fills the lists, opens 16 buckets and gives
/// places until there is none. What is timed are the places.
pub fn measure<R: CpuClock + AllocGlobal>(rt: &R, size: u32, rounds: u32) -> io::Result<Measured>
    requires some { 128 ≤ size }
    requires few { size ≤ 1048576 }
{
    let g = geometry(size);
    let mut b = new_buckets(rt.alloc(), &g)?;
    let mut r = no_reserves(rt.alloc(), &g, &b)?;
    let mut fill = nothing_open(&r, &b);
    let mut random = Random::new();
    let mut sum = 0u64;
    let mut spent = Duration::ZERO;
    for _round in 0..rounds {
        if !fill.open().is_empty() {
            return Ok(Measured { sum: 0, spent });
        }
        restock(&fill, &mut r, &mut b);
        open_all(&mut fill, &mut r, &mut b);
        let begun = rt.process_cpu_time()?;
        let places = use_up(&mut fill, &mut r, &mut b, &mut random, 1 << 20);
        let ended = rt.process_cpu_time()?;
        let one = Measured::new(places, begun, ended);
        sum = sum.wrapping_mul(31).wrapping_add(one.sum);
        spent = spent.saturating_add(one.spent);
    }
    Ok(Measured { sum, spent })
}
