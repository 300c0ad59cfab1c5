//! The oldest due candidate, from an empty hand.
ghost use Rattle.std.specs.Prelude.{◌≡◌, ◌+◌, ◌<◌, ◌≤◌, ◌^◌, ℕ, None, OnErr, IfErr, IfOk, false, length};
ghost use Rattle.bc_settle.specs.bc_deed.Asked.{IsHaltedOr};
ghost use Rattle.bc_settle.specs.bc_firm.Firm.{AreFirm};
ghost use Rattle.bc_settle.specs.bc_hand.Seats.{Did, Works, empty, kinds, world};
ghost use Rattle.bc_settle.specs.bc_machine.World.{are_plain};
ghost use Rattle.bc_settled.specs.Next.{HasCome, HasNotCome, HasSeenDue, HasTried};
ghost use Rattle.bc_settled.specs.Room.{HasFour};

use crate::come::Come;
use crate::lack::lack_in;
use crate::taken::{give_back, take_three};
use bc_disk::disk::Disk;
use bc_fetch::error::LeafError;
use bc_fetch::leaf::leaf_at;
use bc_flight::candidate::Candidate;
use bc_room::leaf::reserve;
use bc_settle::bc_hand::error::StepError;
use bc_settle::bc_hand::hand::{Hand, borrow_flight, return_flight};
use bc_settle::bc_machine::machine::{CoreParts, CoreSeat};
use bc_settle::due::due_in;
use bc_settle::outcome::Outcome;
use bc_settle::settle::settle;
use bc_worker::gate::Gate;
use std::alloc::Global;
use std::sync::Wait;

/// Brings the key of the oldest due candidate into the leaf that has its sectors: of those that
/// stand and weren't killed, and have a number below `before`, since all below are firm. At most
/// one call of the cache device is made, where no slot had the leaf; and two of the seat's promises
/// are taken at most.
///
/// `Lacks` says that leaf or journal weren't ready for a key. Then, and after an error, nothing was
/// done but that call.
pub fn settle_next<C: Disk + Drop, B: Disk + Drop, R: Wait, G: Gate>(
    rt: &R,
    alloc: Global,
    parts: &CoreParts<C, B>,
    seat: &mut CoreSeat<C, B>,
    hand: &mut Hand<C, B>,
    before: u64,
    gate: &G,
) -> Result<Come, LeafError>
    requires works { Works C.facts B.facts parts.now seat.old hand.old }
    requires empty { hand.old ≡ empty }
    requires cached { are_plain C.facts B.facts parts.now.run.start ≡ false }
    requires leaves { (6 < length parts.now.run.start) × (length parts.now.run.start < 2 ^ 32) }
    requires promise { 2 ≤ seat.old.promises }
    requires firm { AreFirm before (world C.facts B.facts seat.old) }
    ensures works { Works C.facts B.facts parts.now seat.new hand.new }
    ensures empty { hand.new ≡ empty }
    ensures left { seat.old.promises ≤ seat.new.promises + 2 }
    ensures ok { IfOk result (λ come. HasCome C.facts B.facts before come seat.old seat.new) }
    ensures err { IfErr result (λ error. HasNotCome C.facts B.facts before error seat.old
        seat.new) }
{
    let Some(due) = due_now(rt, parts, seat, hand, before) else {
        return Ok(Come::Tried(Outcome::NoneDue));
    };
    let number = match leaf_at(
        rt,
        alloc,
        parts,
        seat,
        hand,
        due.key.start(),
        u32::from(due.key.size),
        gate,
    ) {
        Ok(number) => number,
        Err(error) => return Err(error),
    };
    take_three(rt, parts, seat, hand);
    let done = settle_in_hand(rt, alloc, parts, seat, hand, number, before);
    give_back(parts, seat, hand);
    match done {
        Ok(come) => Ok(come),
        Err(error) => Err(LeafError::Step(error)),
    }
}

// The oldest due candidate, as the claims have it now.
fn due_now<C: Disk + Drop, B: Disk + Drop, R: Wait>(
    rt: &R,
    parts: &CoreParts<C, B>,
    seat: &mut CoreSeat<C, B>,
    hand: &mut Hand<C, B>,
    before: u64,
) -> Option<Candidate>
    requires works { Works C.facts B.facts parts.now seat.old hand.old }
    requires empty { hand.old ≡ empty }
    ensures works { Works C.facts B.facts parts.now seat.new hand.new }
    ensures empty { hand.new ≡ empty }
    ensures promises { seat.new.promises ≡ seat.old.promises }
    ensures due { HasSeenDue C.facts B.facts before result seat.old seat.new }
{
    let (flight, _) = borrow_flight(rt, parts, seat, hand);
    return_flight(parts, seat, hand, flight, false);
    let due = due_in(hand, before);
    let Some(flight) = hand.flight.take() else {
        unreachable!()
    };
    return_flight(parts, seat, hand, flight, true);
    due
}

// Tries the oldest with the leaf of this number, claims, buckets and journal in hand.
fn settle_in_hand<C: Disk + Drop, B: Disk + Drop, R: Wait>(
    rt: &R,
    alloc: Global,
    parts: &CoreParts<C, B>,
    seat: &mut CoreSeat<C, B>,
    hand: &mut Hand<C, B>,
    number: u32,
    before: u64,
) -> Result<Come, StepError>
    requires works { Works C.facts B.facts parts.now seat.old hand.old }
    requires cached { are_plain C.facts B.facts parts.now.run.start ≡ false }
    requires promise { 0 < seat.old.promises }
    requires firm { AreFirm before (world C.facts B.facts seat.old) }
    requires four { (first count : ℕ)
        × HasFour hand.old (length parts.now.run.start) number first count }
    ensures works { Works C.facts B.facts parts.now seat.new hand.new }
    ensures kinds { kinds hand.new ≡ kinds hand.old }
    ensures left { seat.old.promises ≤ seat.new.promises + 1 }
    ensures ok { IfOk result (λ come. HasTried C.facts B.facts before number come seat.old
        seat.new) }
    ensures err { OnErr result (Did C.facts B.facts None seat.old seat.new) }
    ensures cause { IfErr result (λ error. IsHaltedOr error seat.new.seen) }
{
    if let Some(lack) = lack_in(hand, number) {
        return Ok(Come::Lacks(lack));
    }
    let Ok(()) = reserve(hand, number, 1) else {
        return Err(StepError::Memory);
    };
    match settle(rt, alloc, parts, seat, hand, number, before) {
        Ok(outcome) => Ok(Come::Tried(outcome)),
        Err(error) => Err(error),
    }
}
