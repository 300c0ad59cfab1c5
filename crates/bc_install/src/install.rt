//! The step that installs a change of the tree which an entry with a new root has made.
ghost use Rattle.std.specs.Prelude.{◌≡◌, ◌+◌, ◌-◌, ◌<◌, ◌≤◌, ◌^◌, false, None, Some, length, IfErr, OnErr, OnOk};
ghost use Rattle.bc_append.specs.bc_place.Written.{KeepsPlaces};
ghost use Rattle.bc_change.specs.bc_entry.bc_deed.Asked.{IsHalted};
ghost use Rattle.bc_change.specs.bc_hand.Seats.{Did, Works, kinds, world};
ghost use Rattle.bc_change.specs.bc_hand.declared.hand.LeafHand.{LeafHand};
ghost use Rattle.bc_change.specs.bc_machine.World.{are_plain};
ghost use Rattle.bc_install.specs.Buckets.{HasBucketsWith};
ghost use Rattle.bc_install.specs.Ended.{leaves_of};
ghost use Rattle.bc_install.specs.Installed.{HasTreeWith};
ghost use Rattle.bc_install.specs.Step.{HasForInstall, HasInstalled, IsPutIn, MayInstall};
ghost use Rattle.bc_tree.specs.Plan.{Fits};

use crate::buckets::{make_nodes, touch_leaves, unmake_nodes};
use crate::leaves::{bring_leaves, take_going};
use bc_change::bc_hand::error::StepError;
use bc_change::bc_hand::hand::Hand;
use bc_change::bc_hand::seat::commit;
use bc_change::bc_machine::machine::{CoreParts, CoreSeat};
use bc_change::bc_machine::part::{BucketsPart, LEAVES, SpinePart};
use bc_disk::disk::Disk;
use bc_events::event::{Change, Deed};
use bc_tree::{NewLeaves, Plan};
use std::sync::Wait;

// The tree has the plan in it, and is at rest.
fn put_tree(part: &mut SpinePart, plan: Plan) -> NewLeaves
    requires { Fits part.old.spine plan }
    ensures tree { HasTreeWith part.old plan part.new }
    ensures leaves { result.leaves ≡ plan.leaves }
    ensures first { result.first ≡ plan.first }
    ensures second { result.second ≡ plan.second }
{
    part.changing = false;
    part.spine.install(plan)
}

// The buckets have what it makes of them.
fn put_buckets(part: &mut BucketsPart, first: u32, plan: &Plan, come: &[u32], gone: &[u32])
    ensures { HasBucketsWith first (leaves_of plan.now) come.now gone.now part.old part.new }
{
    touch_leaves(part, first, &plan.first, &plan.second);
    make_nodes(part, first, come);
    unmake_nodes(part, first, gone);
}

// Puts the plan into the parts in hand.
fn put_in<C, B>(
    hand: &mut Hand<C, B>,
    count: u32,
    plan: Plan,
    first: u32,
    come: &[u32],
    gone: &[u32],
)
    requires some { 0 < count }
    requires part { (l : LeafHand) → hand.old.leaves ≡ Some l → 6 ≤ l.part }
    requires at { HasForInstall hand.old plan }
    ensures { IsPutIn count plan first come.now gone.now hand.old hand.new }
{
    let Some(mut spine) = hand.spine.take() else {
        unreachable!()
    };
    let Some(mut leaves) = hand.leaves.take() else {
        unreachable!()
    };
    let Some(mut buckets) = hand.buckets.take() else {
        unreachable!()
    };
    put_buckets(buckets.get_mut(), first, &plan, come, gone);
    take_going(&mut leaves.cache, &spine.get().spine, &plan.leaves);
    let new = put_tree(spine.get_mut(), plan);
    bring_leaves(&mut leaves.cache, count, leaves.part - LEAVES, new);
    hand.spine = Some(spine);
    hand.leaves = Some(leaves);
    hand.buckets = Some(buckets);
}

/// Installs a planned change of the tree that an entry with a new root has made, once that is
/// durable: the tree in memory has what the plan brings, and is at rest; the leaves that went are in
/// no slot, and those that came are, as far as the part has the leaves of their numbers and empty
/// slots; the buckets of what came are nodes', for as long as the tree has these, and those of what
/// went are nobody's and may be raised. The tree, the part with the leaves that go and the buckets
/// are in hand, and stay so.
///
/// The numbers of the buckets of what comes and of what goes are given twice, once for the deed.
///
/// `Halted` names the device that halted the run before; then nothing is done. No memory is taken.
/// Whatever comes, the seat keeps its places.
pub fn install<C: Disk + Drop, B: Disk + Drop, R: Wait>(
    rt: &R,
    parts: &CoreParts<C, B>,
    seat: &mut CoreSeat<C, B>,
    hand: &mut Hand<C, B>,
    plan: Plan,
    first: u32,
    change: Change,
    come: Vec<u32>,
    gone: Vec<u32>,
    made: &[u32],
    unmade: &[u32],
) -> Result<(), StepError>
    requires works { Works C.facts B.facts parts.now seat.old hand.old }
    requires cached { are_plain C.facts B.facts parts.now.run.start ≡ false }
    requires leaves { (6 < length parts.now.run.start) × (length parts.now.run.start < 2 ^ 32) }
    requires promise { 0 < seat.old.promises }
    requires may { MayInstall hand.old (length parts.now.run.start) seat.old.first first plan change
        come gone (world C.facts B.facts seat.old) }
    requires made { made.now ≡ come.items }
    requires unmade { unmade.now ≡ gone.items }
    ensures works { Works C.facts B.facts parts.now seat.new hand.new }
    ensures kinds { kinds hand.new ≡ kinds hand.old }
    ensures left { seat.old.promises ≤ seat.new.promises + 1 }
    ensures ok { OnOk result (HasInstalled C.facts B.facts (length parts.now.run.start - 6) plan
        change first come gone hand.old hand.new seat.old seat.new) }
    ensures err { OnErr result (Did C.facts B.facts None seat.old seat.new) }
    ensures same { OnErr result (hand.new ≡ hand.old) }
    ensures cause { IfErr result (λ error. IsHalted error seat.new.seen) }
    ensures places { KeepsPlaces C.facts B.facts seat.old seat.new }
{
    if let Some(device) = seat.heard() {
        return Err(StepError::Halted(device));
    }
    let deed = Deed::Install { change, come, gone };
    if let Err(device) = commit(rt, parts, seat, deed) {
        return Err(StepError::Halted(device));
    }
    let count = parts.part_count() as u32 - LEAVES;
    put_in(hand, count, plan, first, made, unmade);
    Ok(())
}
