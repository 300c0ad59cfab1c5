//! How the step that notes a candidate comes to the claims and candidates.
ghost use Rattle.std.specs.Prelude.{◌≡◌, ℕ, is_none, IfSome, None, Some};
ghost use Rattle.bc_parts.specs.Seat.{Holds};
ghost use Rattle.bc_place.specs.bc_hand.Seats.{core, HasNoneBehindFlight, Works};
ghost use Rattle.bc_seats.specs.Seats.{Waited};

use bc_disk::disk::Disk;
use bc_flight::flight::Flight;
use bc_place::bc_hand::hand::{Hand, borrow_flight};
use bc_place::bc_machine::machine::{CoreParts, CoreSeat};
use std::sync::Wait;

// Borrows the claims and candidates: where they are in hand, these. The answer says whether they
// weren't in hand.
pub(crate) fn lend_flight<C: Disk + Drop, B: Disk + Drop, R: Wait>(
    rt: &R,
    parts: &CoreParts<C, B>,
    seat: &mut CoreSeat<C, B>,
    hand: &mut Hand<C, B>,
) -> (Flight, bool)
    requires works { Works C.facts B.facts parts.now seat.old hand.old }
    requires order { hand.old.flight ≡ None → HasNoneBehindFlight hand.old }
    ensures lent { Works C.facts B.facts parts.now seat.new
        (record hand.new { flight = Some result.0 }) }
    ensures waited { Waited (core C.facts B.facts) seat.old seat.new }
    ensures heard { seat.new.heard ≡ seat.old.heard }
    ensures still { (k : ℕ) → Holds seat.old.parts k → Holds seat.new.parts k }
    ensures hand { hand.new ≡ record hand.old { flight = None } }
    ensures taken { result.1 ≡ is_none hand.old.flight }
    ensures these { IfSome hand.old.flight (λ f. f ≡ result.0) }
{
    if let Some(flight) = hand.flight.take() {
        return (flight, false);
    }
    borrow_flight(rt, parts, seat, hand)
}
