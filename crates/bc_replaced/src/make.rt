//! A planned change of the tree, made from its first new node on.
ghost use Rattle.std.specs.Prelude.{◌≡◌, ◌+◌, ◌-◌, ◌<◌, ◌≤◌, ◌^◌, false, length, Some, IfErr, OnOk};
ghost use Rattle.bc_by_root.specs.Given.{MayChange};
ghost use Rattle.bc_new_nodes.specs.bc_place.Written.{KeepsPlaces};
ghost use Rattle.bc_by_root.specs.bc_install.bc_change.Ready.{IsTree};
ghost use Rattle.bc_by_root.specs.bc_install.Ended.{HasProperKeys};
ghost use Rattle.bc_new_nodes.specs.bc_held_all.All.{AreHeld};
ghost use Rattle.bc_new_nodes.specs.bc_new_node.Kind.{IsDividedBy};
ghost use Rattle.bc_new_nodes.specs.Asked.{ChildrenPoint};
ghost use Rattle.bc_new_nodes.specs.bc_hand.Seats.{HasNoneBehindLeaves, Works, kinds, world};
ghost use Rattle.bc_new_nodes.specs.bc_machine.World.{FromEach, are_plain, cache_among};
ghost use Rattle.bc_new_nodes.specs.bc_machine.declared.part.SpinePart.{SpinePart};
ghost use Rattle.bc_new_nodes.specs.bc_place.Place.{HasBefore};
ghost use Rattle.bc_replaced.specs.Given.{MayMake};
ghost use Rattle.bc_replaced.specs.Made.{HasMade, HasNotMade, KeepsEnough, failed_by};

use crate::error::MakeError;
use crate::shape::{proper_keys, tree_in};
use bc_by_root::error::ByRootError;
use bc_by_root::install::install_change;
use bc_by_root::put::put_root;
use bc_disk::disk::Disk;
use bc_new_nodes::all::write_new_nodes;
use bc_new_nodes::bc_hand::error::StepError;
use bc_new_nodes::bc_hand::hand::Hand;
use bc_new_nodes::bc_held::held::HeldBucket;
use bc_new_nodes::bc_machine::machine::{CoreParts, CoreSeat};
use bc_tree::Plan;
use std::alloc::Global;
use std::sync::Wait;

// What an error of the step that writes new nodes is as one of the change.
fn failed(error: StepError) -> MakeError
    ensures { result ≡ failed_by error }
{
    match error {
        StepError::Memory => MakeError::Memory,
        StepError::Fault(device) => MakeError::Nodes(StepError::Fault(device)),
        StepError::Halted(device) => MakeError::Nodes(StepError::Halted(device)),
    }
}

/// Makes a planned change of the tree: all its new nodes are written to the buckets that the seat
/// holds for them, with a barrier behind; an entry is put that names the new root; and once that is
/// durable the change is installed. Then the tree in memory has the plan in it and is at rest, the
/// leaves that went are in no slot, and the buckets of what came are nodes'. The tree and the part
/// with the leaves that go are in hand, and stay so; nothing that is taken behind leaves is.
/// `before` buckets of the device lie before the journal's. Each node takes a promise, and seven
/// more are needed.
///
/// At `Memory` nothing was done, and the tree is at rest. From then on it stays noted that it
/// changes: at `Nodes` some new nodes may be there that nothing names, and in this run nobody
/// changes the tree any more. At `NotBegun` all stand, and the journal tells why no entry was
/// begun: the plan that is given back may be put and installed later, by the steps of `bc_by_root`.
/// At `Entry` a crash finds the old tree or the new one, and at `Install` the new one; the tree in
/// memory is as it was.
pub fn make<C: Disk + Drop, B: Disk + Drop, R: Wait>(
    rt: &R,
    alloc: Global,
    parts: &CoreParts<C, B>,
    seat: &mut CoreSeat<C, B>,
    hand: &mut Hand<C, B>,
    before: u32,
    plan: Plan,
    buckets: &[HeldBucket],
) -> Result<(), MakeError>
    requires works { Works C.facts B.facts parts.now seat.old hand.old }
    requires cached { are_plain C.facts B.facts parts.now.run.start ≡ false }
    requires leaves { (6 < length parts.now.run.start) × (length parts.now.run.start < 2 ^ 32) }
    requires promise { length buckets.now + 7 ≤ seat.old.promises }
    requires behind { HasNoneBehindLeaves hand.old }
    requires before { FromEach (world C.facts B.facts seat.old) (HasBefore before) }
    requires may { MayMake hand.old (length parts.now.run.start)
        (cache_among C.facts B.facts parts.now.run.start).sectors plan buckets.now }
    requires divided { (spine : SpinePart) → hand.old.spine ≡ Some spine
        → FromEach (world C.facts B.facts seat.old) (IsDividedBy spine.spine.geometry) }
    requires points { (spine : SpinePart) → hand.old.spine ≡ Some spine
        → FromEach (world C.facts B.facts seat.old) (ChildrenPoint spine.spine.geometry plan) }
    requires are { AreHeld C.facts B.facts buckets.now seat.old }
    ensures works { Works C.facts B.facts parts.now seat.new hand.new }
    ensures kinds { kinds hand.new ≡ kinds hand.old }
    ensures ok { OnOk result (HasMade C.facts B.facts before (length parts.now.run.start - 6)
        hand.old hand.new buckets.now plan seat.old seat.new) }
    ensures err { IfErr result (λ error. HasNotMade C.facts B.facts
        (cache_among C.facts B.facts parts.now.run.start).sectors (length parts.now.run.start)
        before error hand.old hand.new buckets.now plan seat.old seat.new) }
    ensures left { seat.old.promises ≤ seat.new.promises + length buckets.now + 7 }
    ensures kept { IfErr result (λ error. KeepsEnough error seat.old.promises
        seat.new.promises) }
    ensures places { KeepsPlaces C.facts B.facts seat.old seat.new }
{
    let mut plan = plan;
    if let Err(error) = write_new_nodes(rt, alloc, parts, seat, hand, before, &mut plan, buckets) {
        return Err(failed(error));
    }
    tree_in(hand);
    proper_keys(&plan);
    let given = match put_root(rt, alloc, parts, seat, hand, &plan) {
        Ok(given) => given,
        Err(ByRootError::NotBegun(why)) => return Err(MakeError::NotBegun(why, plan)),
        Err(ByRootError::Entry(error)) => return Err(MakeError::Entry(error)),
        Err(ByRootError::Install(_)) => unreachable!(),
    };
    if let Err(error) = install_change(rt, parts, seat, hand, plan, given) {
        return Err(MakeError::Install(error));
    }
    tree_in(hand);
    Ok(())
}
