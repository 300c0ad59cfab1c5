//! Places for data that a seat pins, writes and lets go, in a run over a pair; and keys that name
//! them.
ghost use Rattle.std.specs.Prelude.{◌≡◌, ◌≤◌, false, IfSome, IsTrue};
ghost use Rattle.bc_fill.specs.Fresh.{IsApart};
ghost use Rattle.bc_fill.specs.declared.fill.Placed.{Placed};
ghost use Rattle.bc_place.specs.bc_hand.Seats.{Works, empty, world};
ghost use Rattle.bc_place.specs.bc_machine.World.{FromEach, are_plain};
ghost use Rattle.bc_place.specs.Place.{IsOwn};
ghost use Rattle.bc_session_rows.specs.Run.{IsAlone, IsOpened, KeepsOwn};

use crate::pair::new_pair;
use crate::run::{Opened, close_run, open_run};
use bc_bucket::Buckets;
use bc_disk::disk::Disk;
use bc_fetch::node::cache_sectors;
use bc_fill::Placed;
use bc_key::{Key, Ptr};
use bc_model::values::Values;
use bc_place::bc_deed::promise::promise;
use bc_place::bc_hand::hand::Hand;
use bc_place::bc_hand::lend::{borrow_buckets, return_buckets};
use bc_place::bc_machine::machine::{CoreParts, CoreSeat};
use bc_place::keys::keys_for;
use bc_place::pin::pin;
use bc_place::unpin::unpin;
use bc_place::write::write_places;
use bc_session::Closed;
use std::alloc::Global;
use std::sync::Wait;
use std::test::Fail;

// Pins a place for so many sectors.
fn try_pin<C: Disk + Drop, B: Disk + Drop, R: Wait>(
    rt: &R,
    parts: &CoreParts<C, B>,
    seat: &mut CoreSeat<C, B>,
    hand: &mut Hand<C, B>,
    before: u32,
    count: u32,
) -> Option<Placed>
    requires works { Works C.facts B.facts parts.now seat.old hand.old }
    requires opened { IsOpened C.facts B.facts before parts.now }
    requires alone { IsAlone C.facts B.facts seat.old }
    requires empty { hand.old ≡ empty }
    requires count { 1 ≤ count }
    ensures works { Works C.facts B.facts parts.now seat.new hand.new }
    ensures alone { IsAlone C.facts B.facts seat.new }
    ensures empty { hand.new ≡ empty }
    ensures keeps { KeepsOwn C.facts B.facts seat.old seat.new }
    ensures own { IfSome result
        (λ p. FromEach (world C.facts B.facts seat.new) (IsOwn seat.new.first p)) }
{
    if promise(rt, parts, seat, hand, 2).is_err() {
        return None;
    }
    match pin(rt, parts, seat, hand, before, count) {
        Ok(Ok(place)) => Some(place),
        Ok(Err(_)) => None,
        Err(_) => None,
    }
}

// Writes values to the first sectors of a place of the seat. Says whether they were written.
fn try_store<C: Disk + Drop, B: Disk + Drop, R: Wait>(
    rt: &R,
    alloc: Global,
    parts: &CoreParts<C, B>,
    seat: &mut CoreSeat<C, B>,
    hand: &mut Hand<C, B>,
    place: Placed,
    values: &Values,
) -> bool
    requires works { Works C.facts B.facts parts.now seat.old hand.old }
    requires cached { are_plain C.facts B.facts parts.now.run.start ≡ false }
    requires alone { IsAlone C.facts B.facts seat.old }
    requires empty { hand.old ≡ empty }
    requires own { FromEach (world C.facts B.facts seat.old) (IsOwn seat.old.first place) }
    ensures works { Works C.facts B.facts parts.now seat.new hand.new }
    ensures alone { IsAlone C.facts B.facts seat.new }
    ensures empty { hand.new ≡ empty }
    ensures keeps { KeepsOwn C.facts B.facts seat.old seat.new }
{
    if values.len() == 0 || place.count < values.len() {
        return false;
    }
    let sectors = cache_sectors(rt, parts, seat, hand);
    if u128::from(sectors) < u128::from(place.ptr.offset) + u128::from(place.count) {
        return false;
    }
    if promise(rt, parts, seat, hand, 1).is_err() {
        return false;
    }
    match write_places(rt, alloc, parts, seat, hand, place, values) {
        Ok(()) => true,
        Err(_) => false,
    }
}

// Lets a place of the seat go. Says whether it did.
fn try_unpin<C: Disk + Drop, B: Disk + Drop, R: Wait>(
    rt: &R,
    parts: &CoreParts<C, B>,
    seat: &mut CoreSeat<C, B>,
    hand: &mut Hand<C, B>,
    place: Placed,
) -> bool
    requires works { Works C.facts B.facts parts.now seat.old hand.old }
    requires cached { are_plain C.facts B.facts parts.now.run.start ≡ false }
    requires alone { IsAlone C.facts B.facts seat.old }
    requires empty { hand.old ≡ empty }
    requires own { FromEach (world C.facts B.facts seat.old) (IsOwn seat.old.first place) }
    ensures works { Works C.facts B.facts parts.now seat.new hand.new }
    ensures alone { IsAlone C.facts B.facts seat.new }
    ensures empty { hand.new ≡ empty }
    ensures keeps { (p : Placed) → IsApart place p
        → FromEach (world C.facts B.facts seat.old) (IsOwn seat.old.first p)
        → FromEach (world C.facts B.facts seat.new) (IsOwn seat.new.first p) }
{
    if promise(rt, parts, seat, hand, 1).is_err() {
        return false;
    }
    unpin(rt, parts, seat, hand, place);
    true
}

// How many places of a bucket are pinned.
fn pins_in(buckets: &Buckets, bucket: u64) -> Option<u32> {
    let records = buckets.records();
    if records.len() as u64 <= bucket {
        return None;
    }
    Some(records[bucket as usize].pins)
}

// The same in the run.
fn pins_of<C: Disk + Drop, B: Disk + Drop, R: Wait>(
    rt: &R,
    parts: &CoreParts<C, B>,
    seat: &mut CoreSeat<C, B>,
    hand: &mut Hand<C, B>,
    bucket: u64,
) -> Option<u32>
    requires works { Works C.facts B.facts parts.now seat.old hand.old }
    requires cached { are_plain C.facts B.facts parts.now.run.start ≡ false }
    requires alone { IsAlone C.facts B.facts seat.old }
    requires empty { hand.old ≡ empty }
    ensures works { Works C.facts B.facts parts.now seat.new hand.new }
    ensures alone { IsAlone C.facts B.facts seat.new }
    ensures empty { hand.new ≡ empty }
    ensures keeps { KeepsOwn C.facts B.facts seat.old seat.new }
{
    let (buckets, taken) = borrow_buckets(rt, parts, seat, hand);
    let pins = pins_in(&buckets.get().buckets, bucket);
    return_buckets(parts, seat, hand, buckets, taken);
    pins
}

// Whether a place ends before another one begins.
fn are_apart(place: Placed, other: Placed) -> bool
    ensures { IsTrue result → IsApart place other }
{
    let end = u128::from(place.ptr.offset) + u128::from(place.count);
    end <= u128::from(other.ptr.offset)
}

/// Two places, and how many of their bucket's are pinned once both are, and once the first was let
/// go, and then the second.
#[derive(Clone, Copy, Debug, PartialEq, Eq)]
struct Two {
    first: Placed,
    second: Placed,
    pins: [Option<u32>; 3],
}

// Pins a place of one sector and one of eight, writes to the second, and lets both go.
fn try_two<C: Disk + Drop, B: Disk + Drop, R: Wait>(
    rt: &R,
    alloc: Global,
    parts: &CoreParts<C, B>,
    seat: &mut CoreSeat<C, B>,
    hand: &mut Hand<C, B>,
    before: u32,
    values: &Values,
) -> Option<Two>
    requires works { Works C.facts B.facts parts.now seat.old hand.old }
    requires opened { IsOpened C.facts B.facts before parts.now }
    requires alone { IsAlone C.facts B.facts seat.old }
    requires empty { hand.old ≡ empty }
    ensures works { Works C.facts B.facts parts.now seat.new hand.new }
    ensures alone { IsAlone C.facts B.facts seat.new }
    ensures empty { hand.new ≡ empty }
{
    let first = try_pin(rt, parts, seat, hand, before, 1)?;
    let second = try_pin(rt, parts, seat, hand, before, 8)?;
    if !are_apart(first, second) {
        return None;
    }
    let bucket = first.ptr.offset / 64;
    let both = pins_of(rt, parts, seat, hand, bucket);
    if !try_store(rt, alloc, parts, seat, hand, second, values) {
        return None;
    }
    if !try_unpin(rt, parts, seat, hand, first) {
        return None;
    }
    let one = pins_of(rt, parts, seat, hand, bucket);
    if !try_unpin(rt, parts, seat, hand, second) {
        return None;
    }
    let none = pins_of(rt, parts, seat, hand, bucket);
    Some(Two {
        first,
        second,
        pins: [both, one, none],
    })
}

// The same in a run over both devices.
fn two_places<C: Disk + Drop, B: Disk + Drop, R: Wait>(
    rt: &R,
    alloc: Global,
    cache: C,
    backing: B,
    values: &Values,
) -> Result<(Option<Two>, Closed<C, B>), Fail> {
    let Opened {
        parts,
        mut seat,
        superblock,
        before,
    } = open_run(rt, alloc, cache, backing)?;
    let mut hand = Hand::empty();
    let two = try_two(rt, alloc, &parts, &mut seat, &mut hand, before, values);
    let opened = Opened {
        parts,
        seat,
        superblock,
        before,
    };
    Ok((two, close_run(rt, opened)))
}

// Pins places of 60 sectors, of 100 and of 100, which stay pinned.
fn try_three<C: Disk + Drop, B: Disk + Drop, R: Wait>(
    rt: &R,
    parts: &CoreParts<C, B>,
    seat: &mut CoreSeat<C, B>,
    hand: &mut Hand<C, B>,
    before: u32,
) -> Option<[Placed; 3]>
    requires works { Works C.facts B.facts parts.now seat.old hand.old }
    requires opened { IsOpened C.facts B.facts before parts.now }
    requires alone { IsAlone C.facts B.facts seat.old }
    requires empty { hand.old ≡ empty }
    ensures works { Works C.facts B.facts parts.now seat.new hand.new }
    ensures alone { IsAlone C.facts B.facts seat.new }
    ensures empty { hand.new ≡ empty }
{
    let first = try_pin(rt, parts, seat, hand, before, 60)?;
    let second = try_pin(rt, parts, seat, hand, before, 100)?;
    let third = try_pin(rt, parts, seat, hand, before, 100)?;
    Some([first, second, third])
}

// The same in a run over both devices.
fn three_places<C: Disk + Drop, B: Disk + Drop, R: Wait>(
    rt: &R,
    alloc: Global,
    cache: C,
    backing: B,
) -> Result<(Option<[Placed; 3]>, Closed<C, B>), Fail> {
    let Opened {
        parts,
        mut seat,
        superblock,
        before,
    } = open_run(rt, alloc, cache, backing)?;
    let mut hand = Hand::empty();
    let three = try_three(rt, &parts, &mut seat, &mut hand, before);
    let opened = Opened {
        parts,
        seat,
        superblock,
        before,
    };
    Ok((three, close_run(rt, opened)))
}

#[test]
fn places_are_pinned_and_written(rt: HostRuntime) -> Result<(), Fail> {
    let alloc = rt.alloc();
    let (cache, backing) = new_pair(alloc)?;
    let mut bytes = vec![in alloc; 0u8; 1536]?;
    for (i, byte) in bytes.iter_mut().enumerate() {
        *byte = (i % 251) as u8;
    }
    assert_eq!(rt; bytes.len(), 1536);
    let values = Values::from_bytes(alloc, 7, &bytes)?;
    let (two, closed) = two_places(&rt, alloc, cache, backing, &values)?;
    assert_eq!(rt; closed.result, Ok(()));
    let Two {
        first,
        second,
        pins,
    } = two.ok_or("no places")?;
    // A bucket was taken for the first, and the second lies behind it there.
    let bucket = first.opened.ok_or("no bucket")?;
    assert!(rt; 12 < bucket && bucket < 128);
    assert_eq!(rt; first.ptr.offset, 64 * u64::from(bucket));
    assert_eq!(rt;
        (first.ptr.dev, first.ptr.generation, first.count),
        (0, 0, 1)
    );
    assert_eq!(rt; second.ptr.offset, 64 * u64::from(bucket) + 1);
    assert_eq!(rt;
        (second.ptr.dev, second.ptr.generation, second.count),
        (0, 0, 8)
    );
    assert_eq!(rt; second.opened, None);
    assert_eq!(rt; pins, [Some(9), Some(8), Some(0)]);
    // Three of its sectors were written, and nothing around them.
    let at = 512 * (64 * bucket as usize + 1);
    let device = closed.cache.bytes();
    assert!(rt; at + 1537 <= device.len());
    assert!(rt; device.get(at..at + 1536) == bytes.get(..1536));
    assert_eq!(rt; (device[at - 1], device[at + 1536]), (0, 0));
    Ok(())
}

#[test]
fn places_end_with_their_bucket(rt: HostRuntime) -> Result<(), Fail> {
    let alloc = rt.alloc();
    let (cache, backing) = new_pair(alloc)?;
    let (three, closed) = three_places(&rt, alloc, cache, backing)?;
    assert_eq!(rt; closed.result, Ok(()));
    let [first, second, third] = three.ok_or("no places")?;
    let bucket = first.opened.ok_or("no bucket")?;
    let other = third.opened.ok_or("no other bucket")?;
    assert!(rt; bucket != other);
    assert_eq!(rt;
        (first.ptr.offset, first.count),
        (64 * u64::from(bucket), 60)
    );
    assert_eq!(rt;
        (second.ptr.offset, second.count),
        (64 * u64::from(bucket) + 60, 4)
    );
    assert_eq!(rt; second.opened, None);
    assert_eq!(rt;
        (third.ptr.offset, third.count),
        (64 * u64::from(other), 64)
    );
    Ok(())
}

// Of a key where it ends, how many sectors it has, whether they are dirty, and where it points.
fn told_by(key: &Key) -> (u64, u16, bool, Option<Ptr>) {
    (key.end, key.size, key.dirty, key.pointer())
}

#[test]
fn keys_name_places(rt: HostRuntime) -> Result<(), Fail> {
    let place = Placed {
        ptr: Ptr {
            dev: 0,
            offset: 6400,
            generation: 3,
        },
        count: 8,
        opened: None,
    };
    let other = Placed {
        ptr: Ptr {
            dev: 0,
            offset: 6465,
            generation: 5,
        },
        count: 3,
        opened: Some(101),
    };
    let keys = keys_for(rt.alloc(), 100, &[place, other])?;
    let keys = keys.as_slice();
    assert_eq!(rt; keys.len(), 2);
    assert_eq!(rt; told_by(&keys[0]), (108, 8, true, Some(place.ptr)));
    assert_eq!(rt; told_by(&keys[1]), (111, 3, true, Some(other.ptr)));
    assert_eq!(rt; (keys[0].inode, keys[0].csum, keys[0].count), (0, 0, 1));
    Ok(())
}
