//! The step that notes a candidate.
ghost use Rattle.std.specs.Prelude.{◌≡◌, ◌+◌, ◌<◌, ◌≤◌, ◌^◌, ◌==◌, ℕ, false, None, OnErr, IfOk, IfErr};
ghost use Rattle.bc_candidate.specs.Noted.{HasAdded, HasNotedOr, IsKeepable, KeepsAll, TiesFlight};
ghost use Rattle.bc_parts.specs.Seat.{Holds};
ghost use Rattle.bc_place.specs.Place.{IsOwn};
ghost use Rattle.bc_place.specs.bc_deed.Asked.{IsHalted};
ghost use Rattle.bc_place.specs.bc_hand.Seats.{core, world, kinds, IsCoreSeat, Works, Did, HasNoneBehindFlight};
ghost use Rattle.bc_place.specs.bc_machine.World.{FromEach, IsFlight, are_plain};
ghost use Rattle.bc_seats.specs.Seats.{Kept};

use crate::lent::lend_flight;
use bc_disk::disk::Disk;
use bc_events::event::Deed;
use bc_fill::Placed;
use bc_flight::candidate::MOST;
use bc_flight::flight::Flight;
use bc_key::Key;
use bc_place::bc_hand::error::StepError;
use bc_place::bc_hand::hand::{Hand, return_flight};
use bc_place::bc_hand::seat::commit;
use bc_place::bc_machine::machine::{CoreParts, CoreSeat};
use std::sync::Wait;

/// Notes that a place of the seat has what its claim's sectors from `first` on show, as many as the
/// place has, and answers the candidate's number. The place is the seat's no more then. The
/// candidate's key is clean, and its pointer is the place's. Takes no memory.
///
/// `None` says that as many candidates stand as can, or that there is no number left; then nothing
/// is done, and the place is still the seat's. So it is where `Halted` names the device that halted
/// the run.
pub fn note_candidate<C: Disk + Drop, B: Disk + Drop, R: Wait>(
    rt: &R,
    parts: &CoreParts<C, B>,
    seat: &mut CoreSeat<C, B>,
    hand: &mut Hand<C, B>,
    first: u64,
    place: Placed,
) -> Result<Option<u64>, StepError>
    requires works { Works C.facts B.facts parts.now seat.old hand.old }
    requires cached { are_plain C.facts B.facts parts.now.run.start ≡ false }
    requires order { hand.old.flight ≡ None → HasNoneBehindFlight hand.old }
    requires promise { 0 < seat.old.promises }
    requires count { (1 ≤ place.count) × (place.count ≤ 32768) }
    requires range { first + place.count < 2 ^ 64 }
    requires own { FromEach (world C.facts B.facts seat.old) (IsOwn seat.old.first place) }
    requires keep { FromEach (world C.facts B.facts seat.old)
        (IsKeepable seat.old.first first place) }
    ensures works { Works C.facts B.facts parts.now seat.new hand.new }
    ensures hand { kinds hand.new ≡ kinds hand.old }
    ensures rest { hand.new ≡ record hand.old { flight = hand.new.flight } }
    ensures ok { IfOk result (λ number. HasNotedOr C.facts B.facts number first place seat.old
        seat.new) }
    ensures flight { IfOk result (λ number. TiesFlight hand.old hand.new
        (HasAdded number first place)) }
    ensures same { OnErr result (hand.new ≡ hand.old) }
    ensures err { IfErr result (λ error. IsHalted error seat.new.seen
        × Did C.facts B.facts None seat.old seat.new) }
    ensures keeps { OnErr result (KeepsAll C.facts B.facts seat.old seat.new) }
{
    if let Some(device) = seat.heard() {
        return Err(StepError::Halted(device));
    }
    let (mut flight, taken) = lend_flight(rt, parts, seat, hand);
    let done = note_in(rt, parts, seat, &mut flight, first, place);
    return_flight(parts, seat, hand, flight, taken);
    done
}

// The same, of the part in hand.
fn note_in<C: Disk, B: Disk, R: Wait>(
    rt: &R,
    parts: &CoreParts<C, B>,
    seat: &mut CoreSeat<C, B>,
    flight: &mut Flight,
    first: u64,
    place: Placed,
) -> Result<Option<u64>, StepError>
    requires run { seat.old.run ≡ parts.now.run }
    requires seat { IsCoreSeat C.facts B.facts seat.old }
    requires cached { are_plain C.facts B.facts parts.now.run.start ≡ false }
    requires promise { 0 < seat.old.promises }
    requires holds { Holds seat.old.parts 1 }
    requires flight { IsFlight flight.old (world C.facts B.facts seat.old) }
    requires count { (1 ≤ place.count) × (place.count ≤ 32768) }
    requires range { first + place.count < 2 ^ 64 }
    requires own { FromEach (world C.facts B.facts seat.old) (IsOwn seat.old.first place) }
    requires keep { FromEach (world C.facts B.facts seat.old)
        (IsKeepable seat.old.first first place) }
    ensures seat { IsCoreSeat C.facts B.facts seat.new }
    ensures kept { Kept (core C.facts B.facts) seat.old seat.new (λ k. k == 1) }
    ensures flight { IsFlight flight.new (world C.facts B.facts seat.new) }
    ensures ok { IfOk result (λ number. HasNotedOr C.facts B.facts number first place seat.old
        seat.new) }
    ensures added { IfOk result (λ number. HasAdded number first place flight.old flight.new) }
    ensures same { OnErr result (flight.new ≡ flight.old) }
    ensures err { IfErr result (λ error. IsHalted error seat.new.seen
        × Did C.facts B.facts None seat.old seat.new) }
    ensures keeps { OnErr result (KeepsAll C.facts B.facts seat.old seat.new) }
{
    let number = flight.next();
    if flight.candidates().len() >= MOST || number == u64::MAX {
        return Ok(None);
    }
    let deed = Deed::Candidate {
        candidate: number,
        first,
        count: place.count,
        at: place.ptr.offset,
    };
    if let Err(device) = commit(rt, parts, seat, deed) {
        return Err(StepError::Halted(device));
    }
    let end = first + u64::from(place.count);
    flight.candidate(Key::new(end, place.count as u16, false, Some(place.ptr)));
    Ok(Some(number))
}
