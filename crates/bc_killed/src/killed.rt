//! The steps that let all killed candidates go.
ghost use Rattle.std.specs.Prelude.{◌≡◌, ◌+◌, ◌≤◌, false, length, None, Some};
ghost use Rattle.bc_candidate.specs.bc_hand.Seats.{Works, empty};
ghost use Rattle.bc_candidate.specs.bc_machine.World.{are_plain};
ghost use Rattle.bc_candidate.specs.bc_machine.declared.part.BucketsPart.{BucketsPart as PartSeen};
ghost use Rattle.bc_flight.specs.Flight.{InFlight};
ghost use Rattle.bc_killed.specs.Killed.{HasCleared};

use bc_candidate::bc_hand::hand::{Hand, borrow_flight, return_flight};
use bc_candidate::bc_hand::lend::{borrow_buckets, return_buckets};
use bc_candidate::bc_machine::machine::{CoreParts, CoreSeat};
use bc_candidate::dead::drop_dead;
use bc_disk::disk::Disk;
use bc_flight::candidate::MOST;
use std::sync::Wait;

/// Lets each candidate go that was killed, also after a halt. Room for 64 deeds has to be promised
/// before, since so many may stand. Takes no memory.
pub fn drop_killed<C: Disk + Drop, B: Disk + Drop, R: Wait>(
    rt: &R,
    parts: &CoreParts<C, B>,
    seat: &mut CoreSeat<C, B>,
    hand: &mut Hand<C, B>,
)
    requires works { Works C.facts B.facts parts.now seat.old hand.old }
    requires empty { hand.old ≡ empty }
    requires cached { are_plain C.facts B.facts parts.now.run.start ≡ false }
    requires promise { 64 ≤ seat.old.promises }
    ensures works { Works C.facts B.facts parts.now seat.new hand.new }
    ensures empty { hand.new ≡ empty }
    ensures cleared { HasCleared C.facts B.facts seat.old seat.new }
    ensures left { seat.old.promises ≤ seat.new.promises + 64 }
{
    let (flight, flight_taken) = borrow_flight(rt, parts, seat, hand);
    // What the type of the candidates says, holds once they are read.
    let _few = flight.waiting();
    hand.flight = Some(flight);
    let (buckets, buckets_taken) = borrow_buckets(rt, parts, seat, hand);
    hand.buckets = Some(buckets);
    drop_each(rt, parts, seat, hand);
    let Some(buckets) = hand.buckets.take() else {
        unreachable!()
    };
    return_buckets(parts, seat, hand, buckets, buckets_taken);
    let Some(flight) = hand.flight.take() else {
        unreachable!()
    };
    return_flight(parts, seat, hand, flight, flight_taken);
}

// Both parts are in hand, with as many candidates as may stand.
fn drop_each<C: Disk + Drop, B: Disk + Drop, R: Wait>(
    rt: &R,
    parts: &CoreParts<C, B>,
    seat: &mut CoreSeat<C, B>,
    hand: &mut Hand<C, B>,
)
    requires works { Works C.facts B.facts parts.now seat.old hand.old }
    requires cached { are_plain C.facts B.facts parts.now.run.start ≡ false }
    requires promise { 64 ≤ seat.old.promises }
    requires flight { (flight : InFlight) × (hand.old.flight ≡ Some flight)
        × (length flight.candidates ≤ 64) }
    requires buckets { (part : PartSeen) × (hand.old.buckets ≡ Some part) }
    ensures works { Works C.facts B.facts parts.now seat.new hand.new }
    ensures flight { (flight : InFlight) × (hand.new.flight ≡ Some flight) }
    ensures buckets { (part : PartSeen) × (hand.new.buckets ≡ Some part) }
    ensures rest { hand.new
        ≡ record hand.old { flight = hand.new.flight; buckets = hand.new.buckets } }
    ensures cleared { HasCleared C.facts B.facts seat.old seat.new }
    ensures left { seat.old.promises ≤ seat.new.promises + 64 }
{
    for _ in 0..MOST {
        if drop_dead(rt, parts, seat, hand).is_none() {
            return;
        }
    }
}
