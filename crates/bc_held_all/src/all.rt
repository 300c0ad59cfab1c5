//! All buckets of a change.
ghost use Rattle.std.specs.Prelude.{◌≡◌, ◌+◌, ◌*◌, ◌<◌, ◌≤◌, [], false, true, None, Some, is_some, length, slice_get, vec_capacity, IfErr, IfOk, OnErr, OnOk};
ghost use Rattle.bc_held.specs.Taken.{KeepsHeld, TiesBuckets};
ghost use Rattle.bc_held.specs.bc_hand.Seats.{HasNoneBehindBuckets, Works, kinds, world};
ghost use Rattle.bc_held.specs.bc_machine.Containers.{SameRest};
ghost use Rattle.bc_held.specs.bc_machine.World.{FromEach, are_plain};
ghost use Rattle.bc_held.specs.bc_place.Place.{HasBefore};
ghost use Rattle.bc_held.specs.bc_place.Written.{KeepsPlaces};
ghost use Rattle.bc_held_all.specs.All.{AreHeld, HaveHalted, HaveLetGo, HaveStoppedBy, HaveTakenOr, KeepsHeldApart, wants_of};

use bc_alloc::NoBucket;
use bc_disk::disk::Disk;
use bc_held::bc_hand::error::StepError;
use bc_held::bc_hand::hand::Hand;
use bc_held::bc_machine::machine::{CoreParts, CoreSeat};
use bc_held::held::{HeldBucket, Want};
use bc_held::let_go::let_go_bucket;
use bc_held::take::take_bucket;
use bc_tree::Needs;
use std::sync::Wait;

/// Takes the buckets of a change that needs so many: first those of nodes that come beside others,
/// then those of nodes that are written anew. They come into `into`, which is empty and has room for
/// all. The tree is in hand, and `before` buckets of the device lie before the journal's. Room for
/// two deeds a bucket has to be promised before.
///
/// An inner `Err` says for which list there was none; then those that were taken are let go, and
/// `into` is empty. `Halted` names the device that halted the run, behind which nothing can be let
/// go: then `into` has those that were taken, which nobody needs in this run, though some of them may
/// have been let go before. Buckets that were in hand are there still, with their chain and round as
/// they were.
pub fn take_buckets<C: Disk + Drop, B: Disk + Drop, R: Wait>(
    rt: &R,
    parts: &CoreParts<C, B>,
    seat: &mut CoreSeat<C, B>,
    hand: &mut Hand<C, B>,
    before: u32,
    needs: Needs,
    into: &mut Vec<HeldBucket>,
) -> Result<Result<(), NoBucket>, StepError>
    requires works { Works C.facts B.facts parts.now seat.old hand.old }
    requires cached { are_plain C.facts B.facts parts.now.run.start ≡ false }
    requires promise { 2 * (needs.tree + needs.moving) ≤ seat.old.promises }
    requires spine { is_some hand.old.spine ≡ true }
    requires order { hand.old.buckets ≡ None → HasNoneBehindBuckets hand.old }
    requires before { FromEach (world C.facts B.facts seat.old) (HasBefore before) }
    requires empty { into.old.items ≡ [] }
    requires room { needs.tree + needs.moving ≤ vec_capacity into.old }
    ensures works { Works C.facts B.facts parts.now seat.new hand.new }
    ensures hand { kinds hand.new ≡ kinds hand.old }
    ensures rest { hand.new ≡ record hand.old { buckets = hand.new.buckets } }
    ensures part { TiesBuckets hand.old hand.new SameRest }
    ensures same { OnErr result (into.new.items ≡ [] → hand.new ≡ hand.old) }
    ensures ok { IfOk result (λ answer. HaveTakenOr C.facts B.facts before (wants_of needs) answer
        into.new.items seat.old seat.new) }
    ensures are { IfOk result (λ answer. AreHeld C.facts B.facts into.new.items seat.new) }
    ensures err { IfErr result (λ error. HaveStoppedBy C.facts B.facts before error (wants_of needs)
        into.new.items seat.old seat.new) }
    ensures left { seat.old.promises ≤ seat.new.promises + 2 * (needs.tree + needs.moving) }
    ensures keeps { KeepsHeld C.facts B.facts seat.old seat.new }
    ensures places { KeepsPlaces C.facts B.facts seat.old seat.new }
{
    let count = needs.tree as usize + needs.moving as usize;
    let mut done = 0usize;
    while done < count {
        let want = want_at(needs, done);
        let answer = match take_bucket(rt, parts, seat, hand, before, want) {
            Ok(answer) => answer,
            Err(error) => return Err(error),
        };
        match answer {
            Ok(bucket) => {
                into.push_reserved(bucket);
                done += 1;
            }
            Err(none) => {
                if let Err(error) = let_go_all(rt, parts, seat, hand, before, into) {
                    return Err(error);
                }
                into.clear();
                return Ok(Err(none));
            }
        }
    }
    Ok(Ok(()))
}

// What the bucket of this number is wanted for.
fn want_at(needs: Needs, place: usize) -> Want
    requires { place < needs.tree + needs.moving }
    ensures { slice_get (wants_of needs) place ≡ Some result }
{
    if place < needs.tree as usize {
        return Want::Node;
    }
    Want::Rewrite
}

/// Lets these buckets go, one behind the other. The tree is in hand, and no node lies in any of them.
///
/// `Halted` names the device that halted the run, which keeps those out that are left: nobody needs
/// them in this run. Buckets that were in hand are there still, with their chain and round as they
/// were.
pub fn let_go_all<C: Disk + Drop, B: Disk + Drop, R: Wait>(
    rt: &R,
    parts: &CoreParts<C, B>,
    seat: &mut CoreSeat<C, B>,
    hand: &mut Hand<C, B>,
    before: u32,
    buckets: &[HeldBucket],
) -> Result<(), StepError>
    requires works { Works C.facts B.facts parts.now seat.old hand.old }
    requires cached { are_plain C.facts B.facts parts.now.run.start ≡ false }
    requires promise { length buckets.now ≤ seat.old.promises }
    requires spine { is_some hand.old.spine ≡ true }
    requires order { hand.old.buckets ≡ None → HasNoneBehindBuckets hand.old }
    requires before { FromEach (world C.facts B.facts seat.old) (HasBefore before) }
    requires are { AreHeld C.facts B.facts buckets.now seat.old }
    ensures works { Works C.facts B.facts parts.now seat.new hand.new }
    ensures hand { kinds hand.new ≡ kinds hand.old }
    ensures rest { hand.new ≡ record hand.old { buckets = hand.new.buckets } }
    ensures part { TiesBuckets hand.old hand.new SameRest }
    ensures same { buckets.now ≡ [] → hand.new ≡ hand.old }
    ensures ok { OnOk result (HaveLetGo C.facts B.facts before buckets.now seat.old seat.new) }
    ensures err { IfErr result (λ error. HaveHalted C.facts B.facts before error buckets.now seat.old
        seat.new) }
    ensures left { seat.old.promises ≤ seat.new.promises + length buckets.now }
    ensures keeps { KeepsHeldApart C.facts B.facts buckets.now seat.old seat.new }
    ensures places { KeepsPlaces C.facts B.facts seat.old seat.new }
{
    for bucket in buckets {
        if let Err(error) = let_go_bucket(rt, parts, seat, hand, before, *bucket) {
            return Err(error);
        }
    }
    Ok(())
}
