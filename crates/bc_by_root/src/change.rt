//! The whole change.
ghost use Rattle.std.specs.Prelude.{◌≡◌, ◌+◌, ◌-◌, ◌<◌, ◌≤◌, ◌^◌, false, length, IfErr, OnErr, OnOk};
ghost use Rattle.bc_by_root.specs.Done.{HasChanged, HasNotChanged, IsUnheardAt, KeepsPromises, MayAgain};
ghost use Rattle.bc_by_root.specs.Given.{MayChange};
ghost use Rattle.bc_install.specs.bc_append.bc_place.Written.{KeepsPlaces};
ghost use Rattle.bc_install.specs.bc_hand.Seats.{HasNoneBehindLeaves, Works, kinds, world};
ghost use Rattle.bc_install.specs.bc_machine.World.{are_plain, cache_among};

use crate::error::ByRootError;
use crate::install::install_change;
use crate::put::put_root;
use bc_disk::disk::Disk;
use bc_install::bc_hand::hand::Hand;
use bc_install::bc_machine::machine::{CoreParts, CoreSeat};
use bc_tree::Plan;
use std::alloc::Global;
use std::sync::Wait;

/// Makes a planned change of the tree whose new nodes stand on the cache device, by an entry with a
/// new root, and installs it: then the tree in memory has the plan in it and is at rest, the leaves
/// that went are in no slot, and the buckets of what came are nodes'. The tree, of which it is noted
/// that it changes, and the part with the leaves that go are in hand, and stay so; nothing that is
/// taken behind leaves is. Leaves that came are in slots, as far as that part has the leaves of
/// their numbers and empty slots. Room for six deeds is promised.
///
/// At `NotBegun` nothing was done, for want of memory, or since there can be no entry yet, and the
/// seat had heard of no halt: the new nodes are ready still, and the same plan may be tried again.
/// The plan itself is gone then; who wants to keep it calls `put_root` and `install_change`. At
/// `Entry` the seat's deeds tell how far it came, and at `Install` the entry is durable, and a
/// device had halted the run before the install: the tree in memory is as it was then, and a crash
/// finds the old tree or the new one. Whatever comes, the seat keeps its places.
pub fn change_by_root<C: Disk + Drop, B: Disk + Drop, R: Wait>(
    rt: &R,
    alloc: Global,
    parts: &CoreParts<C, B>,
    seat: &mut CoreSeat<C, B>,
    hand: &mut Hand<C, B>,
    plan: Plan,
) -> Result<(), ByRootError>
    requires works { Works C.facts B.facts parts.now seat.old hand.old }
    requires cached { are_plain C.facts B.facts parts.now.run.start ≡ false }
    requires leaves { (6 < length parts.now.run.start) × (length parts.now.run.start < 2 ^ 32) }
    requires promise { 6 ≤ seat.old.promises }
    requires behind { HasNoneBehindLeaves hand.old }
    requires may { MayChange hand.old (length parts.now.run.start) seat.old.first plan
        (world C.facts B.facts seat.old) }
    ensures works { Works C.facts B.facts parts.now seat.new hand.new }
    ensures kinds { kinds hand.new ≡ kinds hand.old }
    ensures left { seat.old.promises ≤ seat.new.promises + 6 }
    ensures ok { OnOk result (HasChanged C.facts B.facts (length parts.now.run.start - 6) plan
        hand.old hand.new seat.old seat.new) }
    ensures err { IfErr result (λ error. HasNotChanged C.facts B.facts
        (cache_among C.facts B.facts parts.now.run.start).sectors hand.old plan error seat.old
        seat.new) }
    ensures same { OnErr result (hand.new ≡ hand.old) }
    ensures unheard { IfErr result (λ error. IsUnheardAt error seat.new.heard) }
    ensures again { IfErr result (λ error. MayAgain error hand.new (length parts.now.run.start)
        seat.new.first plan (world C.facts B.facts seat.new)) }
    ensures kept { IfErr result (λ error. KeepsPromises error seat.old.promises
        seat.new.promises) }
    ensures places { KeepsPlaces C.facts B.facts seat.old seat.new }
{
    let given = match put_root(rt, alloc, parts, seat, hand, &plan) {
        Ok(given) => given,
        Err(error) => return Err(error),
    };
    match install_change(rt, parts, seat, hand, plan, given) {
        Ok(()) => Ok(()),
        Err(error) => Err(ByRootError::Install(error)),
    }
}
