//! Keys without pointers that come into a leaf in hand: they wait there for its next set, and in the
//! journal for its next entry.
ghost use Rattle.std.specs.Prelude.{◌≡◌, ◌+◌, ◌-◌, ◌%◌, ◌<◌, ◌≤◌, ◌^◌, ℕ, [], false, length, IfOk, IfSome, None};
ghost use Rattle.bc_cached.specs.bc_deed.Asked.{size_of};
ghost use Rattle.bc_cached.specs.bc_deed.Flushed.{HasDone};
ghost use Rattle.bc_request.specs.bc_fetch.Fetch.{HasPart};
ghost use Rattle.bc_cached.specs.bc_hand.Seats.{Works, core, empty, kinds, note};
ghost use Rattle.bc_cached.specs.bc_hand.declared.hand.LeafHand.{LeafHand};
ghost use Rattle.bc_cached.specs.bc_machine.World.{are_plain};
ghost use Rattle.bc_request.specs.Asked.{IsIdle};
ghost use Rattle.bc_seats.specs.Seats.{Same};
ghost use Rattle.bc_insert.specs.bc_sight.Sight.{IsOnBacking};
ghost use Rattle.bc_step_rows.specs.Drop.{AreBacked, CanDrop, HasPlaceFor, IsEmptyKey, all_three, alone_at};

use crate::pair::{DATA, pair};
use crate::run::{GEOMETRY, begun, reads, ready};
use bc_bucket::Buckets;
use bc_cache::{Cached, NodeCache};
use bc_cached::bc_deed::promise::promise;
use bc_cached::bc_hand::hand::{Hand, LeafHand};
use bc_cached::bc_hand::lend::{
    borrow_buckets, borrow_journal, return_buckets, return_journal, return_leaves,
};
use bc_cached::bc_machine::machine::{CoreParts, CoreSeat};
use bc_cached::run::{Ended, Ready, end};
use bc_disk::disk::Disk;
use bc_disk::geometry::Geometry;
use bc_flight::claim::Share;
use bc_insert::drop::drop_keys;
use bc_journal::Journal;
use bc_key::{Key, Ptr};
use bc_keys::are_extents;
use bc_node::{Entries, Leaf, are_within};
use bc_request::bc_fetch::leaf::leaf_at;
use bc_request::bc_job::claims::claim_range;
use bc_request::bc_reads::source::{ReadFrom, read_from};
use bc_worker::gate::NoGate;
use std::alloc::{AllocError, Global};
use std::process::Abort;
use std::sync::Wait;
use std::test::Fail;

/// What a leaf and the journal have once a key came into both.
#[derive(Clone, Copy, Debug, PartialEq, Eq)]
struct Dropped {
    /// How many keys the leaf has, and the last one.
    keys: usize,
    last: Key,
    /// How many wait for its next set, and the first one; and for which entries.
    pending: usize,
    first: Key,
    entries: Option<Entries>,
    /// How many wait for the journal's next entry, and the first one.
    waiting: usize,
    next: Key,
}

// Tests that the backing device has what a sector shows.
fn one_backed(leaf: &Leaf, buckets: &Buckets, sector: u64) -> Option<()>
    ensures { IfSome result (λ _. IsOnBacking leaf.now sector) }
{
    match read_from(leaf, buckets, sector) {
        Some(ReadFrom::Backing) => Some(()),
        Some(ReadFrom::Cache { at: _, dirty }) => { if dirty { None } else { Some(()) } }
        None => None,
    }
}

// The same of so many sectors, which are no more than a bucket has.
fn are_backed(leaf: &Leaf, buckets: &Buckets, first: u64, count: u16) -> Option<()>
    requires few { first + count < 2 ^ 64 }
    ensures size { IfSome result (λ _. count ≤ buckets.now.size) }
    ensures backed { IfSome result (λ _. AreBacked leaf.now first count) }
{
    if buckets.bucket_sectors() < count {
        return None;
    }
    for i in 0..count {
        one_backed(leaf, buckets, first + u64::from(i))?;
    }
    Some(())
}

// Tests that there is room for a key without pointers.
fn has_room(cached: &Cached, number: u32, journal: &Journal, key: &Key) -> Option<()>
    ensures { IfSome result (λ _. HasPlaceFor cached.now number journal.now key.now) }
{
    if cached.number != number {
        return None;
    }
    if cached.held {
        return None;
    }
    if cached.leaf.spare() == 0 {
        return None;
    }
    if key.start() < cached.leaf.from() {
        return None;
    }
    if cached.leaf.end() < key.end {
        return None;
    }
    if journal.number() >= 1 << 63 {
        return None;
    }
    if journal.room(2) { Some(()) } else { None }
}

// Tests that this key may come into the leaf of this number, which is in hand with buckets and
// journal. The run has so many parts.
fn can_drop<C, B>(
    hand: &Hand<C, B>,
    parts: usize,
    number: u32,
    first: u64,
    count: u16,
    key: &Key,
) -> Option<()>
    requires part { HasPart hand.now (6 + number % (parts - 6)) }
    requires key { IsEmptyKey first count key.now }
    requires some { 1 ≤ count }
    requires few { first + count < 2 ^ 64 }
    ensures { IfSome result (λ _. CanDrop hand.now parts number (alone_at first count) key.now) }
{
    let Some(leaves) = &hand.leaves else {
        return None;
    };
    let Some(journal) = &hand.journal else {
        return None;
    };
    let Some(part) = &hand.buckets else {
        return None;
    };
    let Some(slot) = leaves.cache.find(number) else {
        return None;
    };
    if leaves.cache.len() <= slot {
        return None;
    }
    let Some(cached) = leaves.cache.slot(slot) else {
        return None;
    };
    has_room(cached, number, journal.get(), key)?;
    are_backed(&cached.leaf, &part.get().buckets, first, count)
}

// Of the leaf of this number and of the journal in hand what they have.
fn told_of<C, B>(hand: &Hand<C, B>, number: u32) -> Option<Dropped> {
    let Some(leaves) = &hand.leaves else {
        return None;
    };
    let Some(journal) = &hand.journal else {
        return None;
    };
    let slot = leaves.cache.find(number)?;
    if leaves.cache.len() <= slot {
        return None;
    }
    let Some(cached) = leaves.cache.slot(slot) else {
        return None;
    };
    let keys = cached.leaf.keys();
    let pending = cached.leaf.pending();
    let waiting = journal.get().waiting();
    if keys.len() == 0 {
        return None;
    }
    if pending.len() == 0 {
        return None;
    }
    if waiting.len() == 0 {
        return None;
    }
    Some(Dropped {
        keys: keys.len(),
        last: keys.key(keys.len() - 1),
        pending: pending.len(),
        first: pending.key(0),
        entries: cached.leaf.entries(),
        waiting: waiting.len(),
        next: waiting[0],
    })
}

// Takes buckets and journal, by a seat with leaves in hand.
fn take_both<C: Disk + Drop, B: Disk + Drop, R: Wait>(
    rt: &R,
    parts: &CoreParts<C, B>,
    seat: &mut CoreSeat<C, B>,
    hand: &mut Hand<C, B>,
)
    requires works { Works C.facts B.facts parts.now seat.old hand.old }
    requires cached { are_plain C.facts B.facts parts.now.run.start ≡ false }
    requires leaves { hand.old ≡ record empty { leaves = hand.old.leaves } }
    ensures works { Works C.facts B.facts parts.now seat.new hand.new }
    ensures done { HasDone C.facts B.facts [] seat.old seat.new }
    ensures promises { seat.new.promises ≡ seat.old.promises }
    ensures leaves { hand.new.leaves ≡ hand.old.leaves }
    ensures kinds { (l : LeafHand) → hand.old.leaves ≡ Some l
        → kinds hand.new ≡ all_three l.part }
{
    let (buckets, _) = borrow_buckets(rt, parts, seat, hand);
    return_buckets(parts, seat, hand, buckets, false);
    let (journal, _) = borrow_journal(rt, parts, seat, hand);
    return_journal(parts, seat, hand, journal, false);
}

// Gives all three back.
fn give_back<C: Disk + Drop, B: Disk + Drop>(
    parts: &CoreParts<C, B>,
    seat: &mut CoreSeat<C, B>,
    hand: Hand<C, B>,
)
    requires works { Works C.facts B.facts parts.now seat.old hand }
    requires three { (part : ℕ) × (kinds hand ≡ all_three part) }
    ensures works { Works C.facts B.facts parts.now seat.new empty }
    ensures same { Same (core C.facts B.facts) seat.old seat.new }
{
    let mut hand = hand;
    let Some(journal) = hand.journal.take() else {
        unreachable!()
    };
    return_journal(parts, seat, &mut hand, journal, true);
    let Some(buckets) = hand.buckets.take() else {
        unreachable!()
    };
    return_buckets(parts, seat, &mut hand, buckets, true);
    let Some(LeafHand { part, cache }) = hand.leaves.take() else {
        unreachable!()
    };
    return_leaves(parts, seat, &mut hand, part, cache, true);
}

// Drops the sectors of the seat's claim from the leaf of this number, where they may be dropped.
fn drop_in<C: Disk + Drop, B: Disk + Drop, R: Wait>(
    rt: &R,
    alloc: Global,
    parts: &CoreParts<C, B>,
    seat: &mut CoreSeat<C, B>,
    hand: &mut Hand<C, B>,
    number: u32,
    first: u64,
    count: u16,
) -> Option<Dropped>
    requires works { Works C.facts B.facts parts.now seat.old hand.old }
    requires cached { are_plain C.facts B.facts parts.now.run.start ≡ false }
    requires promise { 0 < seat.old.promises }
    requires part { HasPart hand.old (6 + number % (length parts.now.run.start - 6)) }
    requires range { (note C.facts B.facts seat.old).range ≡ alone_at first count }
    requires inside { first + count ≤ size_of C.facts B.facts seat.old.run.start }
    requires some { 1 ≤ count }
    requires few { first + count < 2 ^ 64 }
    ensures works { Works C.facts B.facts parts.now seat.new hand.new }
    ensures kinds { kinds hand.new ≡ kinds hand.old }
    ensures same { Same (core C.facts B.facts) seat.old seat.new }
{
    let key = Key::new(first + u64::from(count), count, false, None);
    let Some(()) = can_drop(hand, parts.part_count(), number, first, count, &key) else {
        return None;
    };
    match drop_keys(rt, alloc, parts, seat, hand, number, &[key]) {
        Ok(()) => told_of(hand, number),
        Err(_) => None,
    }
}

// The same by a seat with a claim of these sectors, and with nothing in hand.
fn drop_claimed<C: Disk + Drop, B: Disk + Drop, R: Wait>(
    rt: &R,
    alloc: Global,
    parts: &CoreParts<C, B>,
    seat: &mut CoreSeat<C, B>,
    first: u64,
    count: u16,
) -> Option<Dropped>
    requires works { Works C.facts B.facts parts.now seat.old empty }
    requires cached { are_plain C.facts B.facts parts.now.run.start ≡ false }
    requires leaves { (6 < length parts.now.run.start) × (length parts.now.run.start < 2 ^ 32) }
    requires promise { 2 ≤ seat.old.promises }
    requires range { (note C.facts B.facts seat.old).range ≡ alone_at first count }
    requires inside { first + count ≤ size_of C.facts B.facts seat.old.run.start }
    requires some { 1 ≤ count }
    requires few { first + count < 2 ^ 64 }
    ensures works { Works C.facts B.facts parts.now seat.new empty }
    ensures same { Same (core C.facts B.facts) seat.old seat.new }
{
    let mut hand = Hand::empty();
    let sectors = u32::from(count);
    let number = match leaf_at(rt, alloc, parts, seat, &mut hand, first, sectors, &NoGate) {
        Ok(number) => number,
        Err(_) => return None,
    };
    take_both(rt, parts, seat, &mut hand);
    let dropped = drop_in(rt, alloc, parts, seat, &mut hand, number, first, count);
    give_back(parts, seat, hand);
    dropped
}

// The same under a claim of its own.
fn try_drop<C: Disk + Drop, B: Disk + Drop, R: Wait>(
    rt: &R,
    alloc: Global,
    parts: &CoreParts<C, B>,
    seat: &mut CoreSeat<C, B>,
    first: u64,
    count: u16,
) -> Option<Dropped>
    requires idle { IsIdle C.facts B.facts parts.now seat.old }
    requires all { (seat.old.first ≡ 0) × (seat.old.end ≡ parts.now.seats) }
    requires size { size_of C.facts B.facts seat.old.run.start ≡ 1024 }
    requires some { 1 ≤ count }
    requires near { first + count ≤ 1024 }
    ensures works { Works C.facts B.facts parts.now seat.new empty }
    ensures all { (seat.new.first ≡ 0) × (seat.new.end ≡ parts.now.seats) }
{
    let mut hand = Hand::empty();
    let hand = &mut hand;
    let Ok(()) = promise(rt, parts, seat, hand, 3) else {
        return None;
    };
    let sectors = u32::from(count);
    match claim_range(rt, parts, seat, hand, first, sectors, Share::Exclusive) {
        Ok(_) => drop_claimed(rt, alloc, parts, seat, first, count),
        Err(_) => None,
    }
}

// A leaf of the sectors below 256, of which 0 to 7 are clean in bucket 100, and 16 to 23 dirty in
// bucket 101; entry 1 has both keys.
fn leaf(rt: &impl Abort, alloc: Global) -> Result<Leaf, AllocError> {
    let place = Ptr {
        dev: 0,
        offset: 768,
        generation: 0,
    };
    let mut leaf = Leaf::new(alloc, &Key::new(256, 64, false, Some(place)), 0, 1);
    let clean = Ptr {
        dev: 0,
        offset: 6400,
        generation: 0,
    };
    let dirty = Ptr {
        dev: 0,
        offset: 6464,
        generation: 0,
    };
    let keys = [
        Key::new(8, 8, false, Some(clean)),
        Key::new(24, 8, true, Some(dirty)),
    ];
    assert!(rt; are_extents(&keys));
    assert!(rt; are_within(leaf.from(), leaf.end(), &keys));
    leaf.reserve(8)?;
    leaf.add(&keys, 1);
    Ok(leaf)
}

// One part with this leaf, whose number is 0, in its one slot.
fn leaf_part(rt: &impl Abort, alloc: Global, g: &Geometry) -> Result<Vec<NodeCache>, AllocError>
    ensures { IfOk result (λ parts. length parts.items ≡ 1) }
{
    let mut cache = NodeCache::new(alloc, g, 1)?;
    assert_eq!(rt; cache.len(), 1);
    if let Some(_) = cache.find(0) {
        return Err(AllocError);
    }
    if let Some(_) = cache.slot(0) {
        return Err(AllocError);
    }
    cache.put(0, 0, leaf(rt, alloc)?);
    let mut parts = Vec::new(alloc);
    parts.push(cache)?;
    Ok(parts)
}

// A run over both devices, in which sectors are dropped by a seat that has claimed them.
fn drops<C: Disk + Drop, B: Disk + Drop, R: Abort + Wait>(
    rt: &R,
    alloc: Global,
    cache: C,
    backing: B,
    first: u64,
    count: u16,
) -> Result<(Option<Dropped>, Ended<C, B>), Fail>
    requires some { 1 ≤ count }
    requires near { first + count ≤ 1024 }
{
    let ready = ready(rt, alloc, cache, backing)?;
    let leaves = leaf_part(rt, alloc, &GEOMETRY)?;
    let ready = Ready { leaves, ..ready };
    let (parts, mut seat) = begun(alloc, ready)?;
    let dropped = try_drop(rt, alloc, &parts, &mut seat, first, count);
    Ok((dropped, end(parts, seat)))
}

#[test]
fn clean_sectors_are_dropped(rt: HostRuntime) -> Result<(), Fail> {
    let alloc = rt.alloc();
    let (cache, backing) = pair(&rt, alloc, &[(DATA, 8, 6400)], &[])?;
    let (dropped, ended) = drops(&rt, alloc, cache, backing, 0, 8)?;
    let dropped = dropped.ok_or("not dropped")?;
    // Of two keys the dirty one is left; both wait for a set, and the first has no pointer any more.
    let gone = Key::new(8, 8, false, None);
    assert_eq!(rt;
        (dropped.keys, dropped.last.end, dropped.last.dirty),
        (1, 24, true)
    );
    assert_eq!(rt; (dropped.pending, dropped.first), (2, gone));
    assert_eq!(rt; dropped.entries, Some(Entries { first: 1, last: 1 }));
    assert_eq!(rt; (dropped.waiting, dropped.next), (1, gone));
    // Nothing was written, and the leaf was not read.
    assert!(rt; reads(alloc, &ended.pass)?.is_empty());
    Ok(())
}

#[test]
fn dirty_sectors_are_not(rt: HostRuntime) -> Result<(), Fail> {
    let alloc = rt.alloc();
    let (cache, backing) = pair(&rt, alloc, &[(DATA, 8, 6400)], &[])?;
    let (dropped, _ended) = drops(&rt, alloc, cache, backing, 16, 8)?;
    assert_eq!(rt; dropped, None);
    Ok(())
}
