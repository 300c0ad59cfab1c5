//! The parts that a seat takes beside a leaf, and gives back with it.
ghost use Rattle.std.specs.Prelude.{◌≡◌, ℕ, [], false, Some};
ghost use Rattle.bc_settle.specs.bc_deed.Flushed.{HasDone};
ghost use Rattle.bc_flight.specs.Flight.{InFlight};
ghost use Rattle.bc_journal.specs.Journal.{Journal};
ghost use Rattle.bc_settle.specs.bc_hand.Seats.{Works, empty, kinds};
ghost use Rattle.bc_settle.specs.bc_hand.declared.hand.LeafHand.{LeafHand};
ghost use Rattle.bc_settle.specs.bc_machine.World.{are_plain};
ghost use Rattle.bc_settle.specs.bc_machine.declared.part.BucketsPart.{BucketsPart};
ghost use Rattle.bc_settled.specs.Room.{all_four};

use bc_disk::disk::Disk;
use bc_settle::bc_hand::hand::{Hand, LeafHand, borrow_flight, return_flight};
use bc_settle::bc_hand::lend::{
    borrow_buckets, borrow_journal, return_buckets, return_journal, return_leaves,
};
use bc_settle::bc_machine::machine::{CoreParts, CoreSeat};
use std::sync::Wait;

/// Takes claims, buckets and journal, by a seat with leaves in hand.
pub(crate) fn take_three<C: Disk + Drop, B: Disk + Drop, R: Wait>(
    rt: &R,
    parts: &CoreParts<C, B>,
    seat: &mut CoreSeat<C, B>,
    hand: &mut Hand<C, B>,
)
    requires works { Works C.facts B.facts parts.now seat.old hand.old }
    requires cached { are_plain C.facts B.facts parts.now.run.start ≡ false }
    requires leaves { hand.old ≡ record empty { leaves = hand.old.leaves } }
    ensures works { Works C.facts B.facts parts.now seat.new hand.new }
    ensures done { HasDone C.facts B.facts [] seat.old seat.new }
    ensures promises { seat.new.promises ≡ seat.old.promises }
    ensures leaves { hand.new.leaves ≡ hand.old.leaves }
    ensures flight { (flight : InFlight) × (hand.new.flight ≡ Some flight) }
    ensures buckets { (part : BucketsPart) × (hand.new.buckets ≡ Some part) }
    ensures journal { (journal : Journal) × (hand.new.journal ≡ Some journal) }
    ensures kinds { (l : LeafHand) → hand.old.leaves ≡ Some l
        → kinds hand.new ≡ all_four l.part }
{
    let (flight, _) = borrow_flight(rt, parts, seat, hand);
    return_flight(parts, seat, hand, flight, false);
    let (buckets, _) = borrow_buckets(rt, parts, seat, hand);
    return_buckets(parts, seat, hand, buckets, false);
    let (journal, _) = borrow_journal(rt, parts, seat, hand);
    return_journal(parts, seat, hand, journal, false);
}

/// Gives all four back.
pub(crate) fn give_back<C: Disk + Drop, B: Disk + Drop>(
    parts: &CoreParts<C, B>,
    seat: &mut CoreSeat<C, B>,
    hand: &mut Hand<C, B>,
)
    requires works { Works C.facts B.facts parts.now seat.old hand.old }
    requires four { (part : ℕ) × (kinds hand.old ≡ all_four part) }
    ensures works { Works C.facts B.facts parts.now seat.new hand.new }
    ensures empty { hand.new ≡ empty }
    ensures done { HasDone C.facts B.facts [] seat.old seat.new }
    ensures promises { seat.new.promises ≡ seat.old.promises }
{
    let Some(journal) = hand.journal.take() else {
        unreachable!()
    };
    return_journal(parts, seat, hand, journal, true);
    let Some(buckets) = hand.buckets.take() else {
        unreachable!()
    };
    return_buckets(parts, seat, hand, buckets, true);
    let Some(flight) = hand.flight.take() else {
        unreachable!()
    };
    return_flight(parts, seat, hand, flight, true);
    let Some(LeafHand { part, cache }) = hand.leaves.take() else {
        unreachable!()
    };
    return_leaves(parts, seat, hand, part, cache, true);
}
