//! The whole change.
ghost use Rattle.std.specs.Prelude.{◌≡◌, ◌+◌, ◌-◌, ◌<◌, ◌≤◌, ◌^◌, false, length, IfErr, OnOk};
ghost use Rattle.bc_by_root.specs.bc_install.bc_append.bc_place.Written.{KeepsPlaces};
ghost use Rattle.bc_by_root.specs.bc_install.bc_hand.Seats.{HasNoneBehindLeaves, Works, kinds, world};
ghost use Rattle.bc_by_root.specs.bc_install.bc_machine.World.{are_plain, cache_among};
ghost use Rattle.bc_by_set.specs.Done.{HasChangedBySet, HasNotChangedBySet, IsUnheardSet, KeepsPromisesSet, MayAgainSet};
ghost use Rattle.bc_by_set.specs.Given.{MayChangeBySet};

use crate::error::BySetError;
use crate::put::put_set;
use bc_by_root::bc_install::bc_hand::hand::Hand;
use bc_by_root::bc_install::bc_machine::machine::{CoreParts, CoreSeat};
use bc_by_root::install::install_change;
use bc_disk::disk::Disk;
use bc_tree::Plan;
use std::alloc::Global;
use std::sync::Wait;

/// Makes a planned change of the tree whose new nodes stand on the cache device, by a further set
/// of one of its nodes, and installs it: then the tree in memory has the plan in it and is at rest,
/// the leaves that went are in no slot, and the buckets of what came are nodes'. The tree, of which
/// it is noted that it changes, and the part with the leaves that go are in hand, and stay so;
/// nothing that is taken behind leaves is. The node was written in this run, and has room for the
/// set, as the plan of a set says. Room for three deeds is promised.
///
/// At `NotBegun` nothing was done, for want of memory, or since the set can't be written yet, and
/// the seat had heard of no halt: the new nodes are ready still, and the same plan may be tried
/// again. The plan itself is gone then; who wants to keep it calls `put_set` and `install_change`.
/// At `Set` the set wasn't written, or came to the device in parts: a crash finds the old tree or
/// the new one, and the tree in memory is as it was. At `Barrier` it was written, and at `Install`
/// the change is made; in both the node in memory has the set and its old children. Whatever comes,
/// the seat keeps its places.
pub fn change_by_set<C: Disk + Drop, B: Disk + Drop, R: Wait>(
    rt: &R,
    alloc: Global,
    parts: &CoreParts<C, B>,
    seat: &mut CoreSeat<C, B>,
    hand: &mut Hand<C, B>,
    plan: Plan,
) -> Result<(), BySetError>
    requires works { Works C.facts B.facts parts.now seat.old hand.old }
    requires cached { are_plain C.facts B.facts parts.now.run.start ≡ false }
    requires leaves { (6 < length parts.now.run.start) × (length parts.now.run.start < 2 ^ 32) }
    requires promise { 3 ≤ seat.old.promises }
    requires behind { HasNoneBehindLeaves hand.old }
    requires may { MayChangeBySet hand.old (length parts.now.run.start) seat.old.first plan
        (world C.facts B.facts seat.old) }
    ensures works { Works C.facts B.facts parts.now seat.new hand.new }
    ensures kinds { kinds hand.new ≡ kinds hand.old }
    ensures left { seat.old.promises ≤ seat.new.promises + 3 }
    ensures ok { OnOk result (HasChangedBySet C.facts B.facts (length parts.now.run.start - 6) plan
        hand.old hand.new seat.old seat.new) }
    ensures err { IfErr result (λ error. HasNotChangedBySet C.facts B.facts
        (cache_among C.facts B.facts parts.now.run.start).sectors hand.old hand.new plan error
        seat.old seat.new) }
    ensures unheard { IfErr result (λ error. IsUnheardSet error seat.new.heard) }
    ensures again { IfErr result (λ error. MayAgainSet error hand.new (length parts.now.run.start)
        seat.new.first plan (world C.facts B.facts seat.new)) }
    ensures kept { IfErr result (λ error. KeepsPromisesSet error seat.old.promises
        seat.new.promises) }
    ensures places { KeepsPlaces C.facts B.facts seat.old seat.new }
{
    let given = match put_set(rt, alloc, parts, seat, hand, &plan) {
        Ok(given) => given,
        Err(error) => return Err(error),
    };
    match install_change(rt, parts, seat, hand, plan, given) {
        Ok(()) => Ok(()),
        Err(error) => Err(BySetError::Install(error)),
    }
}
