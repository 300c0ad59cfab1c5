//! The install, with the buckets taken for it alone.
ghost use Rattle.std.specs.Prelude.{◌≡◌, ◌+◌, ◌-◌, ◌<◌, ◌≤◌, ◌^◌, [], false, length, IfErr, OnErr, OnOk};
ghost use Rattle.bc_by_root.specs.Done.{HasInstalledIn, IsToInstall};
ghost use Rattle.bc_install.specs.bc_append.bc_place.Written.{KeepsPlaces};
ghost use Rattle.bc_install.specs.bc_deed.Asked.{IsHalted};
ghost use Rattle.bc_install.specs.bc_deed.Flushed.{HasDone};
ghost use Rattle.bc_install.specs.bc_hand.Seats.{HasNoneBehindLeaves, Works, kinds, world};
ghost use Rattle.bc_install.specs.bc_machine.World.{are_plain};

use crate::prepare::Installing;
use bc_disk::disk::Disk;
use bc_install::bc_hand::error::StepError;
use bc_install::bc_hand::hand::Hand;
use bc_install::bc_hand::lend::{borrow_buckets, return_buckets};
use bc_install::bc_machine::machine::{CoreParts, CoreSeat};
use bc_install::install::install;
use bc_tree::Plan;
use std::sync::Wait;

/// Installs a change of the tree that an entry with a new root has made: the buckets are taken, the
/// tree, the part with leaves and the buckets have what the plan brings, and the buckets are given
/// back. The tree and the part with the leaves that go are in hand, and stay so.
///
/// `Halted` names the device that halted the run before; then nothing is done. Whatever comes, the
/// seat keeps its places.
pub fn install_change<C: Disk + Drop, B: Disk + Drop, R: Wait>(
    rt: &R,
    parts: &CoreParts<C, B>,
    seat: &mut CoreSeat<C, B>,
    hand: &mut Hand<C, B>,
    plan: Plan,
    given: Installing,
) -> Result<(), StepError>
    requires works { Works C.facts B.facts parts.now seat.old hand.old }
    requires cached { are_plain C.facts B.facts parts.now.run.start ≡ false }
    requires leaves { (6 < length parts.now.run.start) × (length parts.now.run.start < 2 ^ 32) }
    requires promise { 0 < seat.old.promises }
    requires behind { HasNoneBehindLeaves hand.old }
    requires may { IsToInstall hand.old (length parts.now.run.start) seat.old.first plan given
        (world C.facts B.facts seat.old) }
    requires made { given.made.items ≡ given.come.items }
    requires unmade { given.unmade.items ≡ given.gone.items }
    ensures works { Works C.facts B.facts parts.now seat.new hand.new }
    ensures kinds { kinds hand.new ≡ kinds hand.old }
    ensures left { seat.old.promises ≤ seat.new.promises + 1 }
    ensures ok { OnOk result (HasInstalledIn C.facts B.facts (length parts.now.run.start - 6) plan
        given hand.old hand.new seat.old seat.new) }
    ensures err { OnErr result (HasDone C.facts B.facts [] seat.old seat.new) }
    ensures same { OnErr result (hand.new ≡ hand.old) }
    ensures cause { IfErr result (λ error. IsHalted error seat.new.seen) }
    ensures places { KeepsPlaces C.facts B.facts seat.old seat.new }
{
    let (buckets, _) = borrow_buckets(rt, parts, seat, hand);
    return_buckets(parts, seat, hand, buckets, false);
    let done = install(
        rt,
        parts,
        seat,
        hand,
        plan,
        given.first,
        given.change,
        given.come,
        given.gone,
        &given.made,
        &given.unmade,
    );
    let Some(buckets) = hand.buckets.take() else {
        unreachable!()
    };
    return_buckets(parts, seat, hand, buckets, true);
    done
}
