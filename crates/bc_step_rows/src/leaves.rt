//! The way to a leaf: to one that comes into an empty slot, to one for which another leaf goes, to one
//! in a slot, and to one that the device doesn't give.
ghost use Rattle.std.specs.Prelude.{◌≡◌, ◌+◌, ◌<◌, ◌^◌, false, length};
ghost use Rattle.bc_cached.specs.bc_hand.Seats.{Works, empty};
ghost use Rattle.bc_cached.specs.bc_machine.World.{are_plain};

use crate::pair::{DATA, pair};
use crate::run::{begun, reads, ready};
use bc_cached::bc_deed::promise::promise;
use bc_cached::bc_hand::error::StepError;
use bc_cached::bc_hand::hand::Hand;
use bc_cached::bc_machine::machine::{CoreParts, CoreSeat};
use bc_cached::bc_machine::part::LEAVES;
use bc_cached::bc_regrow::tree_of;
use bc_cached::run::{Ended, end};
use bc_disk::disk::{Device, Disk};
use bc_replay::survey;
use bc_request::bc_fetch::error::LeafError;
use bc_request::bc_fetch::leaf::{give_leaves, leaf_at};
use bc_worker::gate::NoGate;
use std::alloc::{AllocError, Global};
use std::process::Abort;
use std::sync::Wait;
use std::test::Fail;

/// Of a leaf its number, how many keys it has, and where the last of them points; or why there is
/// none.
type Tried = Result<(u32, usize, u64), LeafError>;

// Of the leaf in the one slot of the part in hand its number, how many keys it has, and where the
// last of them points.
fn in_slot<C, B>(hand: &Hand<C, B>) -> (u32, usize, u64) {
    let Some(leaves) = &hand.leaves else {
        return (9, 0, 0);
    };
    if leaves.cache.len() == 0 {
        return (9, 0, 0);
    }
    let Some(cached) = leaves.cache.slot(0) else {
        return (9, 0, 0);
    };
    let keys = cached.leaf.keys();
    let count = keys.len();
    if count == 0 {
        return (cached.number, 0, 0);
    }
    (cached.number, count, keys.key(count - 1).ptrs[0].offset)
}

// The way of a seat to the leaf of 8 sectors, and back to an empty hand.
fn try_leaf<C: Disk + Drop, B: Disk + Drop, R: Wait>(
    rt: &R,
    alloc: Global,
    parts: &CoreParts<C, B>,
    seat: &mut CoreSeat<C, B>,
    hand: &mut Hand<C, B>,
    first: u64,
) -> Tried
    requires works { Works C.facts B.facts parts.now seat.old hand.old }
    requires cached { are_plain C.facts B.facts parts.now.run.start ≡ false }
    requires parts { length parts.now.run.start ≡ 7 }
    requires all { (seat.old.first ≡ 0) × (seat.old.end ≡ parts.now.seats) }
    requires empty { hand.old ≡ empty }
    requires few { first + 8 < 2 ^ 64 }
    ensures works { Works C.facts B.facts parts.now seat.new hand.new }
    ensures all { (seat.new.first ≡ 0) × (seat.new.end ≡ parts.now.seats) }
    ensures empty { hand.new ≡ empty }
{
    if promise(rt, parts, seat, hand, 1).is_err() {
        return Err(LeafError::Step(StepError::Memory));
    }
    match leaf_at(rt, alloc, parts, seat, hand, first, 8, &NoGate) {
        Ok(_) => {
            let found = in_slot(hand);
            give_leaves(rt, parts, seat, hand, LEAVES);
            Ok(found)
        }
        Err(error) => Err(error),
    }
}

// A run over both devices, in which leaves of these sectors are tried one after another.
fn tries<C: Disk + Drop, B: Disk + Drop, R: Abort + Wait>(
    rt: &R,
    alloc: Global,
    cache: C,
    backing: B,
) -> Result<([Tried; 7], Ended<C, B>), Fail> {
    let ready = ready(rt, alloc, cache, backing)?;
    let (parts, mut seat) = begun(alloc, ready)?;
    let mut hand = Hand::empty();
    let hand = &mut hand;
    let tries = [
        try_leaf(rt, alloc, &parts, &mut seat, hand, 0),
        try_leaf(rt, alloc, &parts, &mut seat, hand, 300),
        try_leaf(rt, alloc, &parts, &mut seat, hand, 256),
        try_leaf(rt, alloc, &parts, &mut seat, hand, 252),
        try_leaf(rt, alloc, &parts, &mut seat, hand, 8),
        try_leaf(rt, alloc, &parts, &mut seat, hand, 264),
        try_leaf(rt, alloc, &parts, &mut seat, hand, 0),
    ];
    Ok((tries, end(parts, seat)))
}

#[test]
fn leaves_come_and_go(rt: HostRuntime) -> Result<(), Fail> {
    let alloc = rt.alloc();
    let low = [(DATA, 8, 6400), (DATA, 16, 6464)];
    let high = [(DATA, 264, 6528)];
    let (mut cache, mut backing) = pair(&rt, alloc, &low, &high)?;
    let s = survey(alloc, &mut cache, &mut backing)?;
    let _tree = tree_of(alloc, &mut cache, &s)?;
    // These are called again, then a barrier, and two reads of leaves; the third read fails.
    let opening = cache.calls();
    let failing = opening.saturating_mul(2).saturating_add(4);
    cache.fail(failing)?;
    let low = Ok((0, 2, 6464));
    let high = Ok((1, 1, 6528));
    let (tries, ended) = tries(&rt, alloc, cache, backing)?;
    let wanted = [
        // It comes into the empty slot, and the other leaf into its place, where it is found then.
        low,
        high,
        high,
        Err(LeafError::Missing),
        // The read fails, and the slot has what it had; the next one is good.
        Err(LeafError::Step(StepError::Fault(Device::Cache))),
        high,
        low,
    ];
    assert_eq!(rt; tries.as_slice(), wanted.as_slice());
    assert_eq!(rt;
        reads(alloc, &ended.pass)?.as_slice(),
        [768, 832, 768].as_slice()
    );
    assert_eq!(rt; ended.cache.faults(), 1);
    assert_eq!(rt; ended.cache.calls().saturating_sub(failing), 1);
    Ok(())
}
