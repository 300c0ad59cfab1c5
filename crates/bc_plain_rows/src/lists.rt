//! The four lists and the records of buckets beside plain ones, at random, and their lengths on
//! devices of some sizes.
ghost use Rattle.std.specs.Prelude.{◌≡◌, ◌<◌, [], length, false, IfOk, IsTrue};
ghost use Rattle.bc_bucket.specs.Buckets.{bucket_of};
ghost use Rattle.bc_alloc.specs.Buckets.{AreFor, AreLoose};
ghost use Rattle.bc_alloc.specs.Reserve.{IsDistinct};
ghost use Rattle.bc_alloc.specs.Reserves.{times_listed};

use crate::random::next;
use bc_alloc::{Purpose, Reserves};
use bc_bucket::{Buckets, Mark};
use bc_disk::gens::Gens;
use bc_disk::geometry::Geometry;
use bc_plain::reserves::PlainReserves;
use std::alloc::{AllocError, Global};
use std::test::Fail;

// The purposes of the lists, in their order.
const PURPOSES: [Purpose; 4] = [
    Purpose::Priorities,
    Purpose::Moving,
    Purpose::Tree,
    Purpose::Plain,
];

// What the lists and the records are to be, and the buckets that were taken, the last one last.
#[derive(Drop)]
struct Plain {
    lists: PlainReserves,
    buckets: Buckets,
    taken: Vec<u32>,
}

// A device of 128 buckets of 64 sectors.
const SMALL: Geometry = Geometry {
    block: 1,
    bucket: 64,
    nbuckets: 128,
    first_bucket: 1,
    journal: 8,
    set_magic: 1,
    node_sectors: 64,
};

// A device of 8,192 buckets of 1,024 sectors.
const MIDDLE: Geometry = Geometry {
    block: 1,
    bucket: 1024,
    nbuckets: 8192,
    first_bucket: 1,
    journal: 64,
    set_magic: 1,
    node_sectors: 512,
};

// A device of 65,536 buckets of 64 sectors.
const LARGE: Geometry = Geometry {
    block: 1,
    bucket: 64,
    nbuckets: 65_536,
    first_bucket: 1,
    journal: 256,
    set_magic: 1,
    node_sectors: 64,
};

// A device of 11,000 buckets of 64 sectors, whose priorities take two sets.
const TWO_SETS: Geometry = Geometry {
    block: 1,
    bucket: 64,
    nbuckets: 11_000,
    first_bucket: 1,
    journal: 64,
    set_magic: 1,
    node_sectors: 64,
};

// Its buckets, with priorities of which many are the same.
fn some_buckets(alloc: Global, g: &Geometry) -> Result<Buckets, AllocError>
    ensures { IfOk result (λ b. length b.records ≡ g.now.nbuckets) }
{
    let mut gens = Gens::new(alloc, g)?;
    for bucket in 0..g.nbuckets {
        gens.set(bucket, (bucket * 5 % 7) as u16, 0);
    }
    Buckets::new(alloc, g, &gens)
}

// Lists with no bucket, and the same buckets.
fn plain_of(alloc: Global, g: &Geometry) -> Result<Plain, AllocError> {
    Ok(Plain {
        lists: PlainReserves::new(alloc, g, &[])?,
        buckets: some_buckets(alloc, g)?,
        taken: Vec::new(alloc),
    })
}

// Whether the list of this purpose has just these buckets, in this order.
fn is_list(r: &Reserves, purpose: Purpose, list: &[u32]) -> bool {
    let count = r.len(purpose);
    let mut same = count as usize == list.len();
    for place in 0..count {
        let bucket = r.get(purpose, place);
        same &= list.get(place as usize).copied() == Some(bucket);
    }
    same
}

// Whether just these buckets are raised, in this order.
fn are_raised(r: &Reserves, raised: &[u32]) -> bool {
    let count = r.raised_len();
    let mut same = count as usize == raised.len();
    for place in 0..count {
        let bucket = r.raised(place);
        same &= raised.get(place as usize).copied() == Some(bucket);
    }
    same
}

// Whether the lists have the same buckets in the same order.
fn agrees(r: &Reserves, plain: &PlainReserves) -> bool {
    let mut same = are_raised(r, plain.raised());
    for purpose in PURPOSES {
        same &= is_list(r, purpose, plain.list(purpose));
    }
    same
}

// Whether no other bucket is listed.
fn agrees_on_each(r: &Reserves, b: &Buckets, plain: &PlainReserves) -> bool
    requires { AreFor r.now b.now }
{
    let _size = b.bucket_sectors();
    let count = b.records().len() as u32;
    let mut same = true;
    for bucket in 0..count {
        same &= r.is_listed(bucket) == plain.has(bucket);
    }
    same
}

// Gives a bucket up in the plain records.
fn raise_in(b: &mut Buckets, bucket: u32) {
    if (bucket as usize) < b.records().len() && b.reclaimable(bucket) {
        b.raise(bucket);
    }
}

// Holds a bucket in the plain records.
fn hold_in(b: &mut Buckets, bucket: u32) {
    if (bucket as usize) < b.records().len() && !b.get(bucket).held {
        b.hold(bucket);
    }
}

// Lets a bucket go in the plain records.
fn let_go_in(b: &mut Buckets, bucket: u32) {
    if (bucket as usize) < b.records().len() && b.get(bucket).held {
        b.let_go(bucket);
    }
}

// Marks a bucket in the plain records.
fn mark_in(b: &mut Buckets, bucket: u32, mark: Mark) {
    if (bucket as usize) < b.records().len() {
        b.mark(bucket, mark, 0);
    }
}

// Notes in the plain records that a bucket's generation is durable, and unmarks it.
fn make_ready_in(b: &mut Buckets, bucket: u32) {
    if (bucket as usize) < b.records().len() {
        b.make_durable(bucket);
        b.mark(bucket, Mark::None, 0);
    }
}

// Fills the lists in both.
fn refill(alloc: Global, r: &mut Reserves, b: &mut Buckets, plain: &mut Plain) -> Result<bool, Fail>
    requires { AreFor r.old b.old }
    ensures { AreFor r.new b.new }
{
    let chosen = plain.lists.victims(alloc, &plain.buckets)?;
    let first = r.victim(b);
    let count = plain.lists.refill(alloc, &plain.buckets)?;
    for bucket in &chosen {
        raise_in(&mut plain.buckets, *bucket);
    }
    let raised = r.refill(b);
    Ok(first == chosen.first().copied() && raised as usize == count)
}

// Takes a bucket in both.
fn take(
    r: &mut Reserves,
    b: &mut Buckets,
    plain: &mut Plain,
    purpose: Purpose,
) -> Result<bool, Fail>
    requires { AreFor r.old b.old }
    ensures { AreFor r.new b.new }
{
    let taken = plain.lists.take(purpose);
    if let Some(bucket) = taken {
        hold_in(&mut plain.buckets, bucket);
        plain.taken.push(bucket)?;
    }
    Ok(r.take(b, purpose).ok() == taken)
}

// Makes the first raised buckets ready in both, and gives these back.
fn ready(
    r: &mut Reserves,
    b: &mut Buckets,
    plain: &mut Plain,
    named: usize,
    old: &[u32],
) -> Result<(), Fail>
    requires fit { AreFor r.old b.old }
    requires distinct { IsDistinct old.now }
    requires loose { AreLoose r.old b.old old.now }
    ensures { AreFor r.new b.new }
{
    let named = named.min(r.raised_len() as usize);
    for bucket in old {
        mark_in(&mut plain.buckets, *bucket, Mark::None);
    }
    for bucket in plain.lists.raised().iter().take(named) {
        make_ready_in(&mut plain.buckets, *bucket);
    }
    let waiting = plain.lists.raised().len();
    plain.lists.ready(named.min(waiting), old)?;
    r.ready(b, named, old);
    Ok(())
}

// Whether the bucket is on no list, not raised and not held.
fn is_loose(r: &Reserves, b: &Buckets, bucket: u32) -> bool
    requires fit { AreFor r.now b.now }
    ensures { IsTrue result → (bucket < r.now.count) × (times_listed r.now bucket ≡ 0)
        × ((bucket_of b.now bucket).held ≡ false) }
{
    (bucket as usize) < b.records().len() && !r.is_listed(bucket) && !b.get(bucket).held
}

// Lets go the bucket that was taken last in both, and answers which one that is.
fn let_go(r: &Reserves, b: &mut Buckets, plain: &mut Plain) -> Option<u32>
    requires { AreFor r.now b.old }
    ensures { AreFor r.now b.new }
{
    let bucket = plain.taken.pop()?;
    if (bucket as usize) < b.records().len() && b.get(bucket).held {
        b.let_go(bucket);
    }
    let_go_in(&mut plain.buckets, bucket);
    Some(bucket)
}

// Makes the first raised buckets ready in both, and gives the two buckets back that were taken
// last, as those of a chain that was replaced.
fn ready_with_old(
    r: &mut Reserves,
    b: &mut Buckets,
    plain: &mut Plain,
    named: usize,
) -> Result<(), Fail>
    requires { AreFor r.old b.old }
    ensures { AreFor r.new b.new }
{
    let (Some(first), Some(second)) = (let_go(r, b, plain), let_go(r, b, plain)) else {
        return ready(r, b, plain, named, &[]);
    };
    if first == second || !is_loose(r, b, first) || !is_loose(r, b, second) {
        return ready(r, b, plain, named, &[]);
    }
    ready(r, b, plain, named, &[first, second])
}

// Puts the bucket back in both that was taken last.
fn put_back(r: &mut Reserves, b: &mut Buckets, plain: &mut Plain) -> Result<(), Fail>
    requires { AreFor r.old b.old }
    ensures { AreFor r.new b.new }
{
    let Some(bucket) = plain.taken.pop() else {
        return Ok(());
    };
    if bucket as usize >= b.records().len() || r.is_listed(bucket) || !b.get(bucket).held {
        return Ok(());
    }
    r.put_back(b, bucket);
    plain.lists.put_back(bucket)?;
    let_go_in(&mut plain.buckets, bucket);
    Ok(())
}

// Raises a bucket in both, if it may be given up.
fn raise(r: &mut Reserves, b: &mut Buckets, plain: &mut Plain, bucket: u32) -> Result<(), Fail>
    requires { AreFor r.old b.old }
    ensures { AreFor r.new b.new }
{
    if bucket as usize >= b.records().len() || r.is_listed(bucket) || !b.reclaimable(bucket) {
        return Ok(());
    }
    r.raise(b, bucket);
    plain.lists.raise(bucket)?;
    raise_in(&mut plain.buckets, bucket);
    Ok(())
}

// Marks a bucket in both.
fn mark(r: &Reserves, b: &mut Buckets, plain: &mut Plain, bucket: u32)
    requires { AreFor r.now b.old }
    ensures { AreFor r.now b.new }
{
    if (bucket as usize) < b.records().len() {
        b.mark(bucket, Mark::Metadata, 0);
    }
    mark_in(&mut plain.buckets, bucket, Mark::Metadata);
}

// Makes a random call in both, and answers whether both said the same.
fn change(
    alloc: Global,
    r: &mut Reserves,
    b: &mut Buckets,
    plain: &mut Plain,
    random: u64,
) -> Result<bool, Fail>
    requires { AreFor r.old b.old }
    ensures { AreFor r.new b.new }
{
    let number = random / 65536 % 128;
    match random / 1024 % 16 {
        0 | 1 => return refill(alloc, r, b, plain),
        2 => ready(r, b, plain, number as usize, &[])?,
        3 | 4 => ready_with_old(r, b, plain, 5)?,
        5 => {
            let _bucket = let_go(r, b, plain);
        }
        6 => put_back(r, b, plain)?,
        7 => raise(r, b, plain, number as u32)?,
        8 => mark(r, b, plain, number as u32),
        _ => {
            let place = (random / 65536 % 4) as usize;
            return take(r, b, plain, PURPOSES[place]);
        }
    }
    Ok(true)
}

#[test]
fn lists_beside_plain_lists(rt: HostRuntime) -> Result<(), Fail> {
    let mut b = some_buckets(rt.alloc(), &SMALL)?;
    let mut r = Reserves::new(rt.alloc(), &SMALL, &[])?;
    let mut plain = plain_of(rt.alloc(), &SMALL)?;
    let mut random: u64 = 1;
    for _step in 0..3000 {
        random = next(random);
        assert!(rt; change(rt.alloc(), &mut r, &mut b, &mut plain, random)?);
        assert!(rt; agrees(&r, &plain.lists));
        assert!(rt; agrees_on_each(&r, &b, &plain.lists));
        assert!(rt; b.records() == plain.buckets.records());
    }
    Ok(())
}

#[test]
fn lists_beside_plain_lists_with_two_priority_sets(rt: HostRuntime) -> Result<(), Fail> {
    let mut b = some_buckets(rt.alloc(), &TWO_SETS)?;
    let mut r = Reserves::new(rt.alloc(), &TWO_SETS, &[])?;
    let mut plain = plain_of(rt.alloc(), &TWO_SETS)?;
    let mut random: u64 = 1;
    for _step in 0..200 {
        random = next(random);
        assert!(rt; change(rt.alloc(), &mut r, &mut b, &mut plain, random)?);
        assert!(rt; agrees(&r, &plain.lists));
    }
    assert!(rt; b.records() == plain.buckets.records());
    Ok(())
}

#[test]
fn lists_are_filled_in_order(rt: HostRuntime) -> Result<(), Fail> {
    let mut spare = Vec::new(rt.alloc());
    for bucket in 0..30u32 {
        spare.push(3 * bucket)?;
    }
    let plain = PlainReserves::new(rt.alloc(), &SMALL, &spare)?;
    for (purpose, first, count) in [
        (Purpose::Priorities, 0u32, 1usize),
        (Purpose::Moving, 3, 4),
        (Purpose::Tree, 15, 8),
        (Purpose::Plain, 39, 8),
    ] {
        assert_eq!(rt; plain.list(purpose).first().copied(), Some(first));
        assert_eq!(rt; plain.list(purpose).len(), count);
    }
    Ok(())
}

#[test]
fn lists_have_room(rt: HostRuntime) -> Result<(), Fail> {
    for (g, priorities, plain) in [(SMALL, 1, 8), (MIDDLE, 1, 8), (LARGE, 7, 64)] {
        let r = Reserves::new(rt.alloc(), &g, &[])?;
        for (purpose, room) in PURPOSES.into_iter().zip([priorities, 4, 8, plain]) {
            assert_eq!(rt; r.room(purpose), room);
        }
    }
    Ok(())
}
