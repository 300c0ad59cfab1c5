//! The oldest candidate that is due.
ghost use Rattle.std.specs.Prelude.{◌≡◌, ℕ, Some};
ghost use Rattle.bc_flight.specs.Candidates.{AreNumbered, first_of};
ghost use Rattle.bc_flight.specs.Flight.{InFlight};
ghost use Rattle.bc_flight.specs.declared.candidate.Wanted.{Wanted};
ghost use Rattle.bc_settle.specs.Next.{HasTakenDue};

use bc_candidate::bc_hand::hand::Hand;
use bc_flight::candidate::Candidate;
use bc_flight::flight::Flight;

// The oldest of these that wasn't killed and has a number below this one.
fn first_due(items: &[Candidate], before: u64) -> Option<Candidate>
    ensures { result ≡ first_of (Wanted.Due before) items.now }
{
    for candidate in items {
        if !candidate.killed && candidate.number < before {
            return Some(*candidate);
        }
    }
    None
}

/// The oldest candidate in hand that is due: of those that weren't killed, and have a number below
/// this one.
pub fn due_in<C, B>(hand: &Hand<C, B>, before: u64) -> Option<Candidate>
    requires { (flight : InFlight) × (hand.now.flight ≡ Some flight) }
    ensures { (flight : InFlight) → hand.now.flight ≡ Some flight
        → (result ≡ first_of (Wanted.Due before) flight.candidates)
        × AreNumbered 0 flight.next flight.candidates }
{
    let Some(flight) = &hand.flight else {
        unreachable!()
    };
    first_due(flight.candidates(), before)
}

// Takes it out.
fn take_from(flight: &mut Flight, before: u64)
    ensures { HasTakenDue before flight.old flight.new }
{
    flight.settled(before);
}

/// Takes it out of those in hand.
pub(crate) fn take_due<C, B>(hand: &mut Hand<C, B>, before: u64)
    requires { (flight : InFlight) × (hand.old.flight ≡ Some flight) }
    ensures { (flight : InFlight) → hand.old.flight ≡ Some flight → (left : InFlight)
        × HasTakenDue before flight left × (hand.new ≡ record hand.old { flight = Some left }) }
{
    let Some(mut flight) = hand.flight.take() else {
        unreachable!()
    };
    take_from(&mut flight, before);
    hand.flight = Some(flight);
}
