//! Places beside a list of the sectors that were given, at random.
ghost use Rattle.std.specs.Prelude.{◌≡◌, ◌≤◌, [], length, IfOk};
ghost use Rattle.bc_alloc.specs.Buckets.{AreFor};
ghost use Rattle.bc_fill.specs.Fill.{AreOpen};

use crate::random::next;
use bc_alloc::{Purpose, Reserves};
use bc_bucket::Buckets;
use bc_disk::gens::Gens;
use bc_disk::geometry::Geometry;
use bc_fill::{Fill, Open, Placed, place};
use bc_plain::fill::is_free_in;
use std::alloc::{AllocError, Global};
use std::test::Fail;

// A device of 128 buckets of 64 sectors.
const GEOMETRY: Geometry = Geometry {
    block: 1,
    bucket: 64,
    nbuckets: 128,
    first_bucket: 1,
    journal: 2,
    set_magic: 1,
    node_sectors: 64,
};

// Its buckets.
fn some_buckets(alloc: Global) -> Result<Buckets, AllocError>
    ensures { IfOk result (λ b. length b.records ≡ 128) }
{
    let gens = Gens::new(alloc, &GEOMETRY)?;
    Buckets::new(alloc, &GEOMETRY, &gens)
}

// Lists with no bucket.
fn no_reserves(alloc: Global, b: &Buckets) -> Result<Reserves, AllocError>
    requires { length b.now.records ≡ 128 }
    ensures { IfOk result (λ r. AreFor r b.now) }
{
    Reserves::new(alloc, &GEOMETRY, &[])
}

// No open bucket.
fn nothing_open(_r: &Reserves, _b: &Buckets) -> Fill
    requires { AreFor _r.now _b.now }
    ensures { AreOpen result _r.now _b.now }
{
    Fill::new()
}

// Fills the lists, where no bucket is open.
fn restock(fill: &Fill, r: &mut Reserves, b: &mut Buckets)
    requires fit { AreFor r.old b.old }
    requires none { fill.now ≡ [] }
    ensures fit { AreFor r.new b.new }
    ensures opens { AreOpen fill.now r.new b.new }
{
    r.refill(b);
    let named = r.raised_len() as usize;
    r.ready(b, named, &[]);
}

// Fills the lists, where no bucket is open and the plain list is empty.
fn restock_if_empty(fill: &Fill, r: &mut Reserves, b: &mut Buckets)
    requires fit { AreFor r.old b.old }
    requires opens { AreOpen fill.now r.old b.old }
    ensures fit { AreFor r.new b.new }
    ensures opens { AreOpen fill.now r.new b.new }
{
    if fill.open().is_empty() && r.len(Purpose::Plain) == 0 {
        restock(fill, r, b);
    }
}

// Notes the sectors of a place, and answers whether none of them was given before, since its bucket
// was opened.
fn note(given: &mut [bool], placed: &Placed) -> bool {
    let mut fresh = true;
    for sector in 0..given.len() {
        if placed.opened.map(|bucket| bucket as usize) == Some(sector / 64) {
            given[sector] = false;
        }
        let at = sector as u64;
        if placed.ptr.offset <= at && at - placed.ptr.offset < u64::from(placed.count) {
            fresh &= !given[sector];
            given[sector] = true;
        }
    }
    fresh
}

// Whether the place was free, in the bucket that was the first open one or in a new one, and isn't
// any more.
fn is_fresh(before: &[Open], after: &[Open], placed: &Placed) -> bool {
    let first = placed.ptr.offset;
    let last = first
        .saturating_add(u64::from(placed.count))
        .saturating_sub(1);
    let mut fresh = 0 < placed.count && first / 64 == last / 64;
    for sector in [first, last] {
        fresh &= is_free_in(64, before, sector) == placed.opened.is_none();
        fresh &= !is_free_in(64, after, sector);
    }
    fresh
}

// Gives a place, and answers whether it is fresh.
fn place_one(
    fill: &mut Fill,
    r: &mut Reserves,
    b: &mut Buckets,
    count: u32,
    before: &[Open],
    given: &mut [bool],
) -> bool
    requires fit { AreFor r.old b.old }
    requires opens { AreOpen fill.old r.old b.old }
    requires count { 1 ≤ count }
    ensures fit { AreFor r.new b.new }
    ensures opens { AreOpen fill.new r.new b.new }
{
    match place(fill, r, b, count) {
        Err(_none) => false,
        Ok(placed) => {
            placed.count <= count && is_fresh(before, fill.open(), &placed) && note(given, &placed)
        }
    }
}

#[test]
fn places_beside_the_given_sectors(rt: HostRuntime) -> Result<(), Fail> {
    let mut b = some_buckets(rt.alloc())?;
    let mut r = no_reserves(rt.alloc(), &b)?;
    let mut fill = nothing_open(&r, &b);
    let sectors = 8192;
    let mut given = vec![in rt.alloc(); false; sectors]?;
    let mut random: u64 = 1;
    for _step in 0..2000 {
        random = next(random);
        let count = (random / 65536 % 20 + 1) as u32;
        restock_if_empty(&fill, &mut r, &mut b);
        let before = Vec::from_slice(rt.alloc(), fill.open())?;
        let fresh = place_one(&mut fill, &mut r, &mut b, count, &before, &mut given);
        assert!(rt; fresh);
    }
    Ok(())
}
