//! A leaf that gives way to others.
ghost use Rattle.std.specs.Prelude.{◌≡◌, ◌+◌, ◌*◌, ◌-◌, ◌<◌, ◌≤◌, ◌^◌, false, true, is_some, length, IfErr, OnOk};
ghost use Rattle.bc_new_nodes.specs.bc_held_all.All.{AreHeld};
ghost use Rattle.bc_new_nodes.specs.bc_place.Written.{KeepsPlaces};
ghost use Rattle.bc_new_nodes.specs.bc_hand.Seats.{HasNoneBehindLeaves, Works, kinds, world};
ghost use Rattle.bc_new_nodes.specs.bc_machine.World.{FromEach, are_plain, cache_among};
ghost use Rattle.bc_new_nodes.specs.bc_place.Place.{HasBefore};
ghost use Rattle.bc_leaf_plan.specs.Leaf.{HasLeafToGo};
ghost use Rattle.bc_replaced.specs.Given.{HasBucketsFor};
ghost use Rattle.bc_replaced.specs.Replaced.{HasNotReplaced, HasNotReplacedIn, HasReplaced, HasReplacedIn, IsGivenUp};

use crate::error::{MakeError, ReplaceError};
use crate::make::make;
use crate::shape::tree_in;
use bc_disk::disk::Disk;
use bc_leaf_plan::plan::{needs_in, numbers_left, plan_for};
use bc_leaf_plan::refused::Refused;
use bc_leaf_plan::way::Way;
use bc_new_nodes::bc_hand::hand::Hand;
use bc_new_nodes::bc_held::held::HeldBucket;
use bc_new_nodes::bc_held_all::all::{let_go_all, take_buckets};
use bc_new_nodes::bc_machine::machine::{CoreParts, CoreSeat};
use bc_new_nodes::bc_machine::part::LEAVES;
use std::alloc::Global;
use std::sync::Wait;

// Lets the buckets of a change go that is given up, for this cause.
fn give_up<C: Disk + Drop, B: Disk + Drop, R: Wait>(
    rt: &R,
    parts: &CoreParts<C, B>,
    seat: &mut CoreSeat<C, B>,
    hand: &mut Hand<C, B>,
    before: u32,
    buckets: &[HeldBucket],
    why: Refused,
) -> ReplaceError
    requires works { Works C.facts B.facts parts.now seat.old hand.old }
    requires cached { are_plain C.facts B.facts parts.now.run.start ≡ false }
    requires promise { length buckets.now ≤ seat.old.promises }
    requires spine { is_some hand.old.spine ≡ true }
    requires behind { HasNoneBehindLeaves hand.old }
    requires before { FromEach (world C.facts B.facts seat.old) (HasBefore before) }
    requires are { AreHeld C.facts B.facts buckets.now seat.old }
    ensures works { Works C.facts B.facts parts.now seat.new hand.new }
    ensures same { hand.new ≡ hand.old }
    ensures given_up { IsGivenUp C.facts B.facts before why buckets.now result seat.old seat.new }
    ensures left { seat.old.promises ≤ seat.new.promises + length buckets.now }
    ensures places { KeepsPlaces C.facts B.facts seat.old seat.new }
{
    match let_go_all(rt, parts, seat, hand, before, buckets) {
        Ok(()) => ReplaceError::Refused(why),
        Err(error) => ReplaceError::Before(error),
    }
}

// Plans what becomes of the leaf for these buckets, and makes the change; or lets them go.
fn replace_in<C: Disk + Drop, B: Disk + Drop, R: Wait>(
    rt: &R,
    alloc: Global,
    parts: &CoreParts<C, B>,
    seat: &mut CoreSeat<C, B>,
    hand: &mut Hand<C, B>,
    before: u32,
    sectors: u64,
    slot: u32,
    way: Way,
    buckets: &[HeldBucket],
) -> Result<(), ReplaceError>
    requires works { Works C.facts B.facts parts.now seat.old hand.old }
    requires cached { are_plain C.facts B.facts parts.now.run.start ≡ false }
    requires leaves { (6 < length parts.now.run.start) × (length parts.now.run.start < 2 ^ 32) }
    requires promise { length buckets.now + 7 ≤ seat.old.promises }
    requires behind { HasNoneBehindLeaves hand.old }
    requires before { FromEach (world C.facts B.facts seat.old) (HasBefore before) }
    requires within { sectors ≤ (cache_among C.facts B.facts parts.now.run.start).sectors }
    requires leaf { HasBucketsFor hand.old (length parts.now.run.start) way slot buckets.now }
    requires are { AreHeld C.facts B.facts buckets.now seat.old }
    ensures works { Works C.facts B.facts parts.now seat.new hand.new }
    ensures kinds { kinds hand.new ≡ kinds hand.old }
    ensures ok { (has : HasBucketsFor hand.old (length parts.now.run.start) way slot buckets.now)
        → OnOk result (HasReplacedIn C.facts B.facts before has.leaf buckets.now hand.new seat.old
        seat.new) }
    ensures err { (has : HasBucketsFor hand.old (length parts.now.run.start) way slot buckets.now)
        → IfErr result (λ error. HasNotReplacedIn C.facts B.facts
        (cache_among C.facts B.facts parts.now.run.start).sectors sectors before has.leaf
        buckets.now error hand.new seat.old seat.new) }
    ensures left { seat.old.promises ≤ seat.new.promises + length buckets.now + 7 }
    ensures places { KeepsPlaces C.facts B.facts seat.old seat.new }
{
    tree_in(hand);
    let lanes = parts.part_count() as u32 - LEAVES;
    let plan = match plan_for(alloc, hand, slot, way, buckets, sectors, lanes) {
        Ok(plan) => plan,
        Err(why) => return Err(give_up(rt, parts, seat, hand, before, buckets, why)),
    };
    match make(rt, alloc, parts, seat, hand, before, plan, buckets) {
        Ok(()) => Ok(()),
        Err(MakeError::Memory) => {
            let why = Refused::Memory;
            Err(give_up(rt, parts, seat, hand, before, buckets, why))
        }
        Err(error) => Err(ReplaceError::Made(error)),
    }
}

/// Replaces a leaf of the tree by one or by two with the same keys, each written anew in one set:
/// buckets are taken for them and for the nodes above them, all of which move; the nodes are
/// written, an entry is put that names the new root, and the change is installed. Then the tree in
/// memory has the new nodes in it and is at rest, and each sector has in its leaf the key that it
/// had; nothing is pending of what came, which in memory may be in slots of the part in hand; and
/// the buckets of what went are nobody's, and may be raised.
///
/// The leaf is in this slot of the part in hand, where it is held; the tree is in hand and at rest;
/// both stay in hand, and nothing that is taken behind leaves is. `before` buckets of the device
/// lie before the journal's, and it has so many sectors at least. All that is pending of the leaf
/// has to be in durable entries. Room for 28 deeds has to be promised.
///
/// At `Refused` nothing of the tree was changed, and the buckets were let go; so it is at `Before`,
/// but for the buckets, which no seat needs in a run that has halted. At `Made` the change was
/// begun, and the inner error says how far it came.
pub fn replace<C: Disk + Drop, B: Disk + Drop, R: Wait>(
    rt: &R,
    alloc: Global,
    parts: &CoreParts<C, B>,
    seat: &mut CoreSeat<C, B>,
    hand: &mut Hand<C, B>,
    before: u32,
    sectors: u64,
    slot: u32,
    way: Way,
) -> Result<(), ReplaceError>
    requires works { Works C.facts B.facts parts.now seat.old hand.old }
    requires cached { are_plain C.facts B.facts parts.now.run.start ≡ false }
    requires leaves { (6 < length parts.now.run.start) × (length parts.now.run.start < 2 ^ 32) }
    requires promise { 28 ≤ seat.old.promises }
    requires behind { HasNoneBehindLeaves hand.old }
    requires before { FromEach (world C.facts B.facts seat.old) (HasBefore before) }
    requires within { sectors ≤ (cache_among C.facts B.facts parts.now.run.start).sectors }
    requires leaf { HasLeafToGo hand.old (length parts.now.run.start) way slot }
    ensures works { Works C.facts B.facts parts.now seat.new hand.new }
    ensures kinds { kinds hand.new ≡ kinds hand.old }
    ensures ok { OnOk result (HasReplaced C.facts B.facts (length parts.now.run.start) before slot
        way hand.old hand.new seat.old seat.new) }
    ensures err { IfErr result (λ error. HasNotReplaced C.facts B.facts
        (cache_among C.facts B.facts parts.now.run.start).sectors sectors
        (length parts.now.run.start) before slot way error hand.old hand.new seat.old seat.new) }
    ensures left { seat.old.promises ≤ seat.new.promises + 28 }
    ensures places { KeepsPlaces C.facts B.facts seat.old seat.new }
{
    tree_in(hand);
    let Some(needs) = needs_in(hand, slot, way) else {
        return Err(ReplaceError::Refused(Refused::Above));
    };
    let count = needs.tree + needs.moving;
    if !numbers_left(hand, count) {
        return Err(ReplaceError::Refused(Refused::Number));
    }
    let Ok(mut buckets) = Vec::with_capacity(alloc, count as usize) else {
        return Err(ReplaceError::Refused(Refused::Memory));
    };
    match take_buckets(rt, parts, seat, hand, before, needs, &mut buckets) {
        Ok(Ok(())) => {}
        Ok(Err(none)) => return Err(ReplaceError::Refused(Refused::NoBucket(none))),
        Err(error) => return Err(ReplaceError::Before(error)),
    }
    replace_in(
        rt, alloc, parts, seat, hand, before, sectors, slot, way, &buckets,
    )
}
