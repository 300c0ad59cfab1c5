//! The parts that a seat has in hand, and how it borrows one: from its hand, or from its slot where it
//! isn't in hand.
ghost use Rattle.std.specs.Prelude.{◌≡◌, ◌<◌, ℕ, length, is_none, None, Some, if◌then◌else◌};
ghost use Rattle.bc_parts.specs.Seat.{Holds};
ghost use Rattle.bc_seats.specs.Seats.{Waited};
ghost use Rattle.bc_hand.specs.Seats.{core, Works, HasNoneBehindFlight, empty};

use bc_cache::NodeCache;
use bc_disk::disk::Disk;
use bc_flight::flight::Flight;
use bc_journal::Journal;
use bc_machine::machine::{Core, CoreParts, CoreSeat};
use bc_machine::part::{Apart, BACKING, BackingPart, BucketsPart, CorePart, FLIGHT, SpinePart};
use bc_seats::seats;
use std::sync::Wait;

/// A part with leaves, and its number among all parts.
#[derive(Drop)]
pub struct LeafHand {
    pub part: u32,
    pub cache: NodeCache,
}

/// The parts that a seat holds, one of each kind at most. They are taken in this order.
#[derive(Drop)]
pub struct Hand<C, B> {
    pub spine: Option<Apart<SpinePart>>,
    pub leaves: Option<LeafHand>,
    pub flight: Option<Flight>,
    pub buckets: Option<Apart<BucketsPart>>,
    pub journal: Option<Apart<Journal>>,
    pub cache: Option<C>,
    pub backing: Option<BackingPart<B>>,
}

impl<C: Disk + Drop, B: Disk + Drop> Hand<C, B> {
    /// A hand without parts.
    pub fn empty() -> Hand<C, B>
        ensures { result ≡ empty }
    {
        Hand {
            spine: None,
            leaves: None,
            flight: None,
            buckets: None,
            journal: None,
            cache: None,
            backing: None,
        }
    }
}

/// Borrows the claims and candidates. The answer says whether they weren't in hand.
pub fn borrow_flight<C: Disk + Drop, B: Disk + Drop, R: Wait>(
    rt: &R,
    parts: &CoreParts<C, B>,
    seat: &mut CoreSeat<C, B>,
    hand: &mut Hand<C, B>,
) -> (Flight, bool)
    requires works { Works C.facts B.facts parts.now seat.old hand.old }
    requires order { hand.old.flight ≡ None → HasNoneBehindFlight hand.old }
    ensures lent { Works C.facts B.facts parts.now seat.new (record hand.new { flight = Some result.0 }) }
    ensures waited { Waited (core C.facts B.facts) seat.old seat.new }
    ensures heard { seat.new.heard ≡ seat.old.heard }
    ensures still { (k : ℕ) → Holds seat.old.parts k → Holds seat.new.parts k }
    ensures hand { hand.new ≡ record hand.old { flight = None } }
    ensures taken { result.1 ≡ is_none hand.old.flight }
{
    if let Some(flight) = hand.flight.take() {
        return (flight, false);
    }
    let CorePart::Flight(flight) = seats::take(rt, parts, seat, FLIGHT) else {
        unreachable!()
    };
    (flight, true)
}

/// Returns the claims and candidates to where they came from.
pub fn return_flight<C: Disk + Drop, B: Disk + Drop>(
    parts: &CoreParts<C, B>,
    seat: &mut CoreSeat<C, B>,
    hand: &mut Hand<C, B>,
    flight: Flight,
    taken: bool,
)
    requires { Works C.facts B.facts parts.now seat.old (record hand.old { flight = Some flight }) }
    ensures works { Works C.facts B.facts parts.now seat.new hand.new }
    ensures waited { Waited (core C.facts B.facts) seat.old seat.new }
    ensures seen { seat.new.seen ≡ seat.old.seen }
    ensures heard { seat.new.heard ≡ seat.old.heard }
    ensures hand { hand.new ≡ record hand.old { flight = if taken then None else Some flight } }
{
    if taken {
        hand.flight = None;
        seats::give(parts, seat, FLIGHT, CorePart::Flight(flight));
    } else {
        hand.flight = Some(flight);
    }
}

/// Borrows the backing device. The answer says whether it wasn't in hand.
pub fn borrow_backing<C: Disk + Drop, B: Disk + Drop, R: Wait>(
    rt: &R,
    parts: &CoreParts<C, B>,
    seat: &mut CoreSeat<C, B>,
    hand: &mut Hand<C, B>,
) -> (BackingPart<B>, bool)
    requires works { Works C.facts B.facts parts.now seat.old hand.old }
    ensures lent { Works C.facts B.facts parts.now seat.new (record hand.new { backing = Some result.0 }) }
    ensures waited { Waited (core C.facts B.facts) seat.old seat.new }
    ensures heard { seat.new.heard ≡ seat.old.heard }
    ensures still { (k : ℕ) → Holds seat.old.parts k → Holds seat.new.parts k }
    ensures hand { hand.new ≡ record hand.old { backing = None } }
    ensures taken { result.1 ≡ is_none hand.old.backing }
{
    if let Some(backing) = hand.backing.take() {
        return (backing, false);
    }
    let CorePart::Backing(backing) = seats::take(rt, parts, seat, BACKING) else {
        unreachable!()
    };
    (backing, true)
}

/// Returns the backing device to where it came from.
pub fn return_backing<C: Disk + Drop, B: Disk + Drop>(
    parts: &CoreParts<C, B>,
    seat: &mut CoreSeat<C, B>,
    hand: &mut Hand<C, B>,
    backing: BackingPart<B>,
    taken: bool,
)
    requires { Works C.facts B.facts parts.now seat.old (record hand.old { backing = Some backing }) }
    ensures works { Works C.facts B.facts parts.now seat.new hand.new }
    ensures waited { Waited (core C.facts B.facts) seat.old seat.new }
    ensures seen { seat.new.seen ≡ seat.old.seen }
    ensures heard { seat.new.heard ≡ seat.old.heard }
    ensures hand { hand.new ≡ record hand.old { backing = if taken then None else Some backing } }
{
    if taken {
        hand.backing = None;
        seats::give(parts, seat, BACKING, CorePart::Backing(backing));
    } else {
        hand.backing = Some(backing);
    }
}
