//! The steps that claim ranges of sectors, and let them go.
ghost use Rattle.std.specs.Prelude.{◌≡◌, ◌+◌, ◌<◌, ◌≤◌, ◌^◌, ◌==◌, ℕ, true, false, None, Some, All, IfOk, IfErr};
ghost use Rattle.bc_parts.specs.Seat.{Holds};
ghost use Rattle.bc_seats.specs.Seats.{Kept};
ghost use Rattle.bc_hand.specs.bc_machine.World.{IsFlight};
ghost use Rattle.bc_events.specs.declared.event.Deed.{Deed};
ghost use Rattle.bc_flight.specs.Claims.{conflicts_any};
ghost use Rattle.bc_flight.specs.Flight.{IsRanged};
ghost use Rattle.bc_hand.specs.Seats.{core, IsCoreSeat, Works, HasNoneBehindFlight, Did, kinds, note, world};
ghost use Rattle.bc_deed.specs.Asked.{HasClaimed, IsClaim, IsHalted, size_of};

use bc_disk::disk::Disk;
use bc_events::event::Deed;
use bc_flight::claim::{Claim, Share};
use bc_flight::flight::Flight;
use bc_hand::bc_machine::machine::{CoreParts, CoreSeat};
use bc_hand::error::StepError;
use bc_hand::hand::{Hand, borrow_flight, return_flight};
use bc_hand::seat::commit;
use std::sync::Wait;

/// Claims `count` sectors from `first` on. `false` says that a claim that stands conflicts; then
/// nothing was committed.
pub fn claim<C: Disk + Drop, B: Disk + Drop, R: Wait>(
    rt: &R,
    parts: &CoreParts<C, B>,
    seat: &mut CoreSeat<C, B>,
    hand: &mut Hand<C, B>,
    first: u64,
    count: u32,
    share: Share,
) -> Result<bool, StepError>
    requires works { Works C.facts B.facts parts.now seat.old hand.old }
    requires order { hand.old.flight ≡ None → HasNoneBehindFlight hand.old }
    requires promise { 0 < seat.old.promises }
    requires none { (note C.facts B.facts seat.old).range.count ≡ 0 }
    requires range { (1 ≤ count) × (first + count < 2 ^ 64) }
    requires inside { first + count ≤ size_of C.facts B.facts seat.old.run.start }
    ensures works { Works C.facts B.facts parts.now seat.new hand.new }
    ensures hand { kinds hand.new ≡ kinds hand.old }
    ensures ok { IfOk result (λ done. HasClaimed C.facts B.facts done first count share seat.old seat.new) }
    ensures err { IfErr result (λ error. IsHalted error seat.new.seen
        × Did C.facts B.facts None seat.old seat.new) }
{
    if let Some(device) = seat.heard() {
        return Err(StepError::Halted(device));
    }
    let (mut flight, taken) = borrow_flight(rt, parts, seat, hand);
    let done = claim_in(rt, parts, seat, &mut flight, first, count, share);
    return_flight(parts, seat, hand, flight, taken);
    done
}

// Whether one of these claims conflicts with it.
fn conflicts_with(claim: &Claim, claims: &[Claim]) -> bool
    requires claim { IsRanged claim.now }
    requires claims { All IsRanged claims.now }
    ensures { result ≡ conflicts_any claim.now claims.now }
{
    for other in claims {
        if claim.conflicts(other) {
            return true;
        }
    }
    false
}

// The same, of the part in hand. The part is changed once the claim is committed, since a claim kills
// candidates there.
fn claim_in<C: Disk, B: Disk, R: Wait>(
    rt: &R,
    parts: &CoreParts<C, B>,
    seat: &mut CoreSeat<C, B>,
    flight: &mut Flight,
    first: u64,
    count: u32,
    share: Share,
) -> Result<bool, StepError>
    requires run { seat.old.run ≡ parts.now.run }
    requires seat { IsCoreSeat C.facts B.facts seat.old }
    requires promise { 0 < seat.old.promises }
    requires holds { Holds seat.old.parts 1 }
    requires flight { IsFlight flight.old (world C.facts B.facts seat.old) }
    requires none { (note C.facts B.facts seat.old).range.count ≡ 0 }
    requires range { (1 ≤ count) × (first + count < 2 ^ 64) }
    requires inside { first + count ≤ size_of C.facts B.facts seat.old.run.start }
    ensures seat { IsCoreSeat C.facts B.facts seat.new }
    ensures kept { Kept (core C.facts B.facts) seat.old seat.new (λ k. k == 1) }
    ensures flight { IsFlight flight.new (world C.facts B.facts seat.new) }
    ensures ok { IfOk result (λ done. HasClaimed C.facts B.facts done first count share seat.old seat.new) }
    ensures err { IfErr result (λ error. IsHalted error seat.new.seen
        × Did C.facts B.facts None seat.old seat.new) }
{
    let claim = Claim {
        seat: seat.number(),
        first,
        count,
        share,
    };
    if conflicts_with(&claim, flight.claims()) {
        return Ok(false);
    }
    let deed = Deed::Claim {
        first,
        count,
        share,
    };
    if let Err(device) = commit(rt, parts, seat, deed) {
        return Err(StepError::Halted(device));
    }
    let Some(_) = flight.try_claim(claim.seat, first, count, share) else {
        unreachable!()
    };
    Ok(true)
}

/// Lets the seat's claim go, also after a halt.
pub fn release<C: Disk + Drop, B: Disk + Drop, R: Wait>(
    rt: &R,
    parts: &CoreParts<C, B>,
    seat: &mut CoreSeat<C, B>,
    hand: &mut Hand<C, B>,
    claim: Claim,
)
    requires works { Works C.facts B.facts parts.now seat.old hand.old }
    requires order { hand.old.flight ≡ None → HasNoneBehindFlight hand.old }
    requires promise { 0 < seat.old.promises }
    requires its { IsClaim claim seat.old.first (note C.facts B.facts seat.old).range }
    ensures works { Works C.facts B.facts parts.now seat.new hand.new }
    ensures hand { kinds hand.new ≡ kinds hand.old }
    ensures did { Did C.facts B.facts (Some Deed.Release) seat.old seat.new }
{
    let (mut flight, taken) = borrow_flight(rt, parts, seat, hand);
    release_in(rt, parts, seat, &mut flight, claim);
    return_flight(parts, seat, hand, flight, taken);
}

// The same, of the part in hand.
fn release_in<C: Disk, B: Disk, R: Wait>(
    rt: &R,
    parts: &CoreParts<C, B>,
    seat: &mut CoreSeat<C, B>,
    flight: &mut Flight,
    claim: Claim,
)
    requires run { seat.old.run ≡ parts.now.run }
    requires seat { IsCoreSeat C.facts B.facts seat.old }
    requires promise { 0 < seat.old.promises }
    requires holds { Holds seat.old.parts 1 }
    requires flight { IsFlight flight.old (world C.facts B.facts seat.old) }
    requires its { IsClaim claim seat.old.first (note C.facts B.facts seat.old).range }
    ensures kept { Kept (core C.facts B.facts) seat.old seat.new (λ k. k == 1) }
    ensures flight { IsFlight flight.new (world C.facts B.facts seat.new) }
    ensures did { Did C.facts B.facts (Some Deed.Release) seat.old seat.new }
{
    flight.release(claim);
    let Ok(()) = commit(rt, parts, seat, Deed::Release) else {
        unreachable!()
    };
}
