//! The buckets of a chain, taken one behind the other.
ghost use Rattle.std.specs.Prelude.{◌≡◌, ◌↔◌, ◌⊎◌, ◌+◌, ◌*◌, ◌≤◌, [], All, false, true, is_some, length, reverse, vec_capacity, IfErr, IfNone, IfOk, IfSome, IsTrue, OnOk};
ghost use Rattle.bc_disk.specs.Chain.{sets_in_chain};
ghost use Rattle.bc_new_chain.specs.bc_held.Taken.{KeepsHeld, TiesBuckets};
ghost use Rattle.bc_new_chain.specs.Beside.{KeepsHeldBeside};
ghost use Rattle.bc_new_chain.specs.bc_hand.Seats.{Works, kinds, world};
ghost use Rattle.bc_new_chain.specs.bc_machine.World.{FromEach, are_plain};
ghost use Rattle.bc_new_chain.specs.bc_place.Place.{HasBefore};
ghost use Rattle.bc_new_chain.specs.bc_place.Written.{KeepsPlaces};
ghost use Rattle.bc_refill.specs.Hands.{HasAll};
ghost use Rattle.bc_refill.specs.Taken.{AreMine, HasGivenBack, HasMine, HasNoChain, HasStoppedBack, HasStoppedGoing, HasStoppedTaking, HaveLetGo, HaveTaken, IsForSet, numbers_of};

use crate::answer::Refilled;
use bc_disk::chain::sets_in_chain;
use bc_disk::disk::Disk;
use bc_disk::geometry::Geometry;
use bc_new_chain::bc_hand::error::StepError;
use bc_new_chain::bc_hand::hand::Hand;
use bc_new_chain::bc_held::held::{HeldBucket, Want};
use bc_new_chain::bc_held::let_go::let_go_bucket;
use bc_new_chain::bc_held::take::take_bucket;
use bc_new_chain::bc_machine::machine::{CoreParts, CoreSeat};
use std::sync::Wait;

// Takes a bucket for each set of a chain, or says why there can be none: then those that were taken
// are let go again, the last one first, so that the list for priority sets is as it was where they
// came from there. The buckets are in hand. They come into `into`, which is empty and has room for
// all. Room for two deeds a bucket is promised.
//
// `Halted` names the device that halted the run, behind which nothing is let go.
pub(crate) fn take_chain<C: Disk + Drop, B: Disk + Drop, R: Wait>(
    rt: &R,
    parts: &CoreParts<C, B>,
    seat: &mut CoreSeat<C, B>,
    hand: &mut Hand<C, B>,
    g: &Geometry,
    into: &mut Vec<HeldBucket>,
) -> Result<Option<Refilled>, StepError>
    requires works { Works C.facts B.facts parts.now seat.old hand.old }
    requires cached { are_plain C.facts B.facts parts.now.run.start ≡ false }
    requires promise { 2 * sets_in_chain g.now ≤ seat.old.promises }
    requires all { HasAll g.now hand.old }
    requires empty { into.old.items ≡ [] }
    requires room { sets_in_chain g.now ≤ vec_capacity into.old }
    ensures works { Works C.facts B.facts parts.now seat.new hand.new }
    ensures kinds { kinds hand.new ≡ kinds hand.old }
    ensures rest { hand.new ≡ record hand.old { buckets = hand.new.buckets } }
    ensures many { IfOk result (λ answer. IfNone answer
        (length into.new.items ≡ sets_in_chain g.now)) }
    ensures took { IfOk result (λ answer. IfNone answer (TiesBuckets hand.old hand.new
        (λ p q. HaveTaken C.facts B.facts g.now.first_bucket into.new.items p q seat.old
        seat.new))) }
    ensures fit { IfOk result (λ answer. IfNone answer (All (IsForSet g.now) into.new.items)) }
    ensures mine { IfOk result (λ answer. IfNone answer
        (HasMine C.facts B.facts into.new.items seat.old seat.new)) }
    ensures none { IfOk result (λ answer. IfSome answer (λ a. TiesBuckets hand.old hand.new
        (λ p q. HasGivenBack C.facts B.facts g.now.first_bucket (sets_in_chain g.now) a p q
        seat.old seat.new))) }
    ensures err { IfErr result (λ error. TiesBuckets hand.old hand.new
        (λ p q. HasStoppedTaking C.facts B.facts g.now.first_bucket (sets_in_chain g.now) error p q
        seat.old seat.new ⊎ HasStoppedBack C.facts B.facts g.now.first_bucket (sets_in_chain g.now)
        error p q seat.old seat.new)) }
    ensures left { seat.old.promises ≤ seat.new.promises + 2 * sets_in_chain g.now }
    ensures ready { IfOk result (λ answer. IfNone answer
        (seat.old.promises ≤ seat.new.promises + sets_in_chain g.now)) }
    ensures keeps { KeepsPlaces C.facts B.facts seat.old seat.new }
    ensures held { KeepsHeld C.facts B.facts seat.old seat.new }
{
    let why = match take_each(rt, parts, seat, hand, g, into) {
        Ok(None) => return Ok(None),
        Ok(Some(why)) => why,
        Err(error) => return Err(error),
    };
    let before = u32::from(g.first_bucket);
    match give_back(rt, parts, seat, hand, before, into) {
        Ok(()) => {}
        Err(error) => return Err(error),
    }
    Ok(Some(why))
}

// Takes a bucket for each set of a chain, or as many as there are for it. What it answers is why
// there aren't enough.
fn take_each<C: Disk + Drop, B: Disk + Drop, R: Wait>(
    rt: &R,
    parts: &CoreParts<C, B>,
    seat: &mut CoreSeat<C, B>,
    hand: &mut Hand<C, B>,
    g: &Geometry,
    into: &mut Vec<HeldBucket>,
) -> Result<Option<Refilled>, StepError>
    requires works { Works C.facts B.facts parts.now seat.old hand.old }
    requires cached { are_plain C.facts B.facts parts.now.run.start ≡ false }
    requires promise { sets_in_chain g.now ≤ seat.old.promises }
    requires all { HasAll g.now hand.old }
    requires empty { into.old.items ≡ [] }
    requires room { sets_in_chain g.now ≤ vec_capacity into.old }
    ensures works { Works C.facts B.facts parts.now seat.new hand.new }
    ensures kinds { kinds hand.new ≡ kinds hand.old }
    ensures rest { hand.new ≡ record hand.old { buckets = hand.new.buckets } }
    ensures few { length into.new.items ≤ sets_in_chain g.now }
    ensures many { IfOk result (λ answer. IfNone answer
        (length into.new.items ≡ sets_in_chain g.now)) }
    ensures took { IfOk result (λ answer. IfNone answer (TiesBuckets hand.old hand.new
        (λ p q. HaveTaken C.facts B.facts g.now.first_bucket into.new.items p q seat.old
        seat.new))) }
    ensures fit { IfOk result (λ answer. IfNone answer (All (IsForSet g.now) into.new.items)) }
    ensures none { IfOk result (λ answer. IfSome answer (λ a. TiesBuckets hand.old hand.new
        (λ p q. HasNoChain C.facts B.facts g.now.first_bucket (sets_in_chain g.now) a
        into.new.items p q seat.old seat.new))) }
    ensures err { IfErr result (λ error. TiesBuckets hand.old hand.new
        (λ p q. HasStoppedTaking C.facts B.facts g.now.first_bucket (sets_in_chain g.now) error p q
        seat.old seat.new)) }
    ensures left { seat.old.promises ≤ seat.new.promises + length into.new.items }
    ensures mine { HasMine C.facts B.facts into.new.items seat.old seat.new }
{
    let before = u32::from(g.first_bucket);
    let count = sets_in_chain(g) as usize;
    let mut done = 0usize;
    while done < count {
        let answer = match take_bucket(rt, parts, seat, hand, before, Want::Chain) {
            Ok(answer) => answer,
            Err(error) => return Err(error),
        };
        let bucket = match answer {
            Ok(bucket) => bucket,
            Err(none) => return Ok(Some(Refilled::NoBucket(none))),
        };
        into.push_reserved(bucket);
        done += 1;
        if !is_for_set(g, bucket) {
            return Ok(Some(Refilled::Unsound));
        }
    }
    Ok(None)
}

// Whether a bucket is one of the device's behind those that the core doesn't count.
fn is_for_set(g: &Geometry, bucket: HeldBucket) -> bool
    ensures { IsTrue result ↔ IsForSet g.now bucket }
{
    u32::from(g.first_bucket) <= bucket.bucket && bucket.bucket < g.nbuckets
}

// Lets these buckets go, the last one first. The buckets are in hand. `before` buckets of the
// device lie before the journal's.
//
// `Halted` names the device that halted the run, which keeps those out that are left: nobody needs
// them in this run.
fn give_back<C: Disk + Drop, B: Disk + Drop, R: Wait>(
    rt: &R,
    parts: &CoreParts<C, B>,
    seat: &mut CoreSeat<C, B>,
    hand: &mut Hand<C, B>,
    before: u32,
    taken: &mut Vec<HeldBucket>,
) -> Result<(), StepError>
    requires works { Works C.facts B.facts parts.now seat.old hand.old }
    requires cached { are_plain C.facts B.facts parts.now.run.start ≡ false }
    requires promise { length taken.old.items ≤ seat.old.promises }
    requires buckets { is_some hand.old.buckets ≡ true }
    requires before { FromEach (world C.facts B.facts seat.old) (HasBefore before) }
    requires mine { AreMine C.facts B.facts taken.old.items seat.old }
    ensures works { Works C.facts B.facts parts.now seat.new hand.new }
    ensures kinds { kinds hand.new ≡ kinds hand.old }
    ensures rest { hand.new ≡ record hand.old { buckets = hand.new.buckets } }
    ensures ok { OnOk result (TiesBuckets hand.old hand.new (λ p q. HaveLetGo C.facts B.facts before
        (reverse taken.old.items) p q seat.old seat.new)) }
    ensures err { IfErr result (λ error. TiesBuckets hand.old hand.new
        (λ p q. HasStoppedGoing C.facts B.facts before error taken.old.items p q seat.old
        seat.new)) }
    ensures left { seat.old.promises ≤ seat.new.promises + length taken.old.items }
    ensures keeps { KeepsPlaces C.facts B.facts seat.old seat.new }
    ensures held { KeepsHeldBeside C.facts B.facts (numbers_of taken.old.items) seat.old seat.new }
{
    while let Some(bucket) = taken.pop() {
        match let_go_bucket(rt, parts, seat, hand, before, bucket) {
            Ok(()) => {}
            Err(error) => return Err(error),
        }
    }
    Ok(())
}
