//! The step that walks a leaf.
ghost use Rattle.std.specs.Prelude.{◌≡◌, ◌↔◌, ◌+◌, ◌<◌, ◌≤◌, ℕ, false, None, Some, IfErr, IsTrue, OnErr, OnOk};
ghost use Rattle.bc_events.specs.declared.event.Deed.TheVariants.{Mark};
ghost use Rattle.bc_events.specs.declared.event.MarkForm.TheVariants as mark;
ghost use Rattle.bc_leaf_walk.specs.Pieces.{HasCounted};
ghost use Rattle.bc_leaf_walk.specs.Steps.{CanWalk, ComesNext, HasLeafAndBuckets, HasLeafIn, HasWalkedIn};
ghost use Rattle.bc_mark.specs.bc_deed.Asked.{IsHalted};
ghost use Rattle.bc_mark.specs.bc_hand.Seats.{Did, Works, world};
ghost use Rattle.bc_mark.specs.bc_machine.World.{FromEach, are_plain};
ghost use Rattle.bc_mark.specs.bc_place.Place.{HasBefore};
ghost use Rattle.bc_mark.specs.bc_place.Written.{KeepsPlaces};

use crate::count::count_leaf;
use bc_disk::disk::Disk;
use bc_events::event::{Deed, MarkForm};
use bc_mark::bc_hand::error::StepError;
use bc_mark::bc_hand::hand::Hand;
use bc_mark::bc_hand::seat::commit;
use bc_mark::bc_machine::machine::{CoreParts, CoreSeat};
use bc_mark::bc_machine::part::BucketsPart;
use bc_node::Leaf;
use std::sync::Wait;

/// Whether the leaf of this number may be walked, with its part and the buckets in hand: a round is
/// open that has come to just where the leaf begins.
pub fn may_walk<C, B>(hand: &Hand<C, B>, leaf: u32) -> bool
    requires { HasLeafAndBuckets hand.now leaf }
    ensures { (both : HasLeafAndBuckets hand.now leaf)
        → IsTrue result ↔ ComesNext both.part both.leaf.cached.leaf }
{
    let Some(leaves) = &hand.leaves else {
        unreachable!()
    };
    let Some(slot) = leaves.cache.find(leaf) else {
        unreachable!()
    };
    let Some(buckets) = &hand.buckets else {
        unreachable!()
    };
    comes_next(buckets.get(), leaves.cache.leaf(slot))
}

// Whether the round of these buckets is open and has come to just where a leaf begins.
fn comes_next(part: &BucketsPart, leaf: &Leaf) -> bool
    ensures { IsTrue result ↔ ComesNext part.now leaf.now }
{
    part.round.going
        && part.round.next == leaf.from()
        && leaf.from() <= leaf.end()
        && part.round.walk.found().len() == part.buckets.records().len()
}

/// Walks the leaf of this number, with its part and the buckets in hand: each of its keys is counted
/// for the buckets into which it points, and the round has come to the leaf's end then. A round is
/// open that has come to just where the leaf begins. `before` buckets of the device lie before the
/// journal's. Takes no memory.
///
/// `Halted` names the device that halted the run; then nothing is done.
pub fn walk_leaf<C: Disk + Drop, B: Disk + Drop, R: Wait>(
    rt: &R,
    parts: &CoreParts<C, B>,
    seat: &mut CoreSeat<C, B>,
    hand: &mut Hand<C, B>,
    before: u32,
    leaf: u32,
) -> Result<(), StepError>
    requires works { Works C.facts B.facts parts.now seat.old hand.old }
    requires cached { are_plain C.facts B.facts parts.now.run.start ≡ false }
    requires promise { 0 < seat.old.promises }
    requires before { FromEach (world C.facts B.facts seat.old) (HasBefore before) }
    requires can { CanWalk hand.old leaf }
    ensures works { Works C.facts B.facts parts.now seat.new hand.new }
    ensures part { OnOk result (HasWalkedIn before leaf hand.old hand.new) }
    ensures ok { OnOk result (Did C.facts B.facts (Some (Mark (mark.Walk leaf))) seat.old seat.new) }
    ensures err { OnErr result (Did C.facts B.facts None seat.old seat.new) }
    ensures same { OnErr result (hand.new ≡ hand.old) }
    ensures cause { IfErr result (λ error. IsHalted error seat.new.seen) }
    ensures left { seat.old.promises ≤ seat.new.promises + 1 }
    ensures keeps { KeepsPlaces C.facts B.facts seat.old seat.new }
{
    let Some(mut buckets) = hand.buckets.take() else {
        unreachable!()
    };
    let done = walk_in(rt, parts, seat, hand, buckets.get_mut(), before, leaf);
    hand.buckets = Some(buckets);
    done
}

// The same, of the buckets that were in hand.
fn walk_in<C: Disk + Drop, B: Disk + Drop, R: Wait>(
    rt: &R,
    parts: &CoreParts<C, B>,
    seat: &mut CoreSeat<C, B>,
    hand: &Hand<C, B>,
    part: &mut BucketsPart,
    before: u32,
    leaf: u32,
) -> Result<(), StepError>
    requires works { Works C.facts B.facts parts.now seat.old
        (record hand.now { buckets = Some part.old }) }
    requires cached { are_plain C.facts B.facts parts.now.run.start ≡ false }
    requires promise { 0 < seat.old.promises }
    requires before { FromEach (world C.facts B.facts seat.old) (HasBefore before) }
    requires can { (slot : ℕ) × (at : HasLeafIn hand.now slot leaf)
        × ComesNext part.old at.cached.leaf }
    ensures works { Works C.facts B.facts parts.now seat.new
        (record hand.now { buckets = Some part.new }) }
    ensures part { OnOk result ((slot : ℕ) (at : HasLeafIn hand.now slot leaf)
        → HasCounted before at.cached.leaf part.old part.new) }
    ensures ok { OnOk result (Did C.facts B.facts (Some (Mark (mark.Walk leaf))) seat.old seat.new) }
    ensures err { OnErr result (Did C.facts B.facts None seat.old seat.new) }
    ensures same { OnErr result (part.new ≡ part.old) }
    ensures cause { IfErr result (λ error. IsHalted error seat.new.seen) }
    ensures left { seat.old.promises ≤ seat.new.promises + 1 }
    ensures keeps { KeepsPlaces C.facts B.facts seat.old seat.new }
{
    let Some(leaves) = &hand.leaves else {
        unreachable!()
    };
    let Some(slot) = leaves.cache.find(leaf) else {
        unreachable!()
    };
    let form = MarkForm::Walk { leaf };
    if let Err(device) = commit(rt, parts, seat, Deed::Mark { form }) {
        return Err(StepError::Halted(device));
    }
    count_leaf(part, leaves.cache.leaf(slot), before);
    Ok(())
}
