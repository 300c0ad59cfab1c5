//! How a step of this crate comes to the buckets.
ghost use Rattle.std.specs.Prelude.{◌≡◌, ℕ, false, is_none, IfSome, None, Some};
ghost use Rattle.bc_parts.specs.Seat.{Holds};
ghost use Rattle.bc_place.specs.bc_hand.Seats.{core, HasNoneBehindBuckets, Works};
ghost use Rattle.bc_place.specs.bc_machine.World.{are_plain};
ghost use Rattle.bc_seats.specs.Seats.{Waited};

use bc_disk::disk::Disk;
use bc_place::bc_hand::hand::Hand;
use bc_place::bc_hand::lend::borrow_buckets;
use bc_place::bc_machine::machine::{CoreParts, CoreSeat};
use bc_place::bc_machine::part::{Apart, BucketsPart};
use std::sync::Wait;

// Borrows the buckets with their lists and open places: where they are in hand, these. The answer
// says whether they weren't in hand.
pub(crate) fn lend_buckets<C: Disk + Drop, B: Disk + Drop, R: Wait>(
    rt: &R,
    parts: &CoreParts<C, B>,
    seat: &mut CoreSeat<C, B>,
    hand: &mut Hand<C, B>,
) -> (Apart<BucketsPart>, bool)
    requires works { Works C.facts B.facts parts.now seat.old hand.old }
    requires cached { are_plain C.facts B.facts parts.now.run.start ≡ false }
    requires order { hand.old.buckets ≡ None → HasNoneBehindBuckets hand.old }
    ensures lent { Works C.facts B.facts parts.now seat.new
        (record hand.new { buckets = Some result.0 }) }
    ensures waited { Waited (core C.facts B.facts) seat.old seat.new }
    ensures heard { seat.new.heard ≡ seat.old.heard }
    ensures still { (k : ℕ) → Holds seat.old.parts k → Holds seat.new.parts k }
    ensures hand { hand.new ≡ record hand.old { buckets = None } }
    ensures taken { result.1 ≡ is_none hand.old.buckets }
    ensures these { IfSome hand.old.buckets (λ p. p ≡ result.0) }
{
    if let Some(buckets) = hand.buckets.take() {
        return (buckets, false);
    }
    borrow_buckets(rt, parts, seat, hand)
}
