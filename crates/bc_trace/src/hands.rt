//! The buckets and the journal, taken and given back.
ghost use Rattle.std.specs.Prelude.{◌≡◌, false, true, None, Some};
ghost use Rattle.bc_journal.specs.Journal.{Journal};
ghost use Rattle.bc_leaf_walk.specs.bc_hand.Seats.{HasNoneBehindBuckets, HasNoneBehindJournal, Works, core};
ghost use Rattle.bc_leaf_walk.specs.bc_machine.World.{are_plain};
ghost use Rattle.bc_leaf_walk.specs.bc_machine.declared.part.BucketsPart.{BucketsPart};
ghost use Rattle.bc_seats.specs.Seats.{Waited};

use bc_disk::disk::Disk;
use bc_leaf_walk::bc_hand::hand::Hand;
use bc_leaf_walk::bc_hand::lend::{borrow_buckets, borrow_journal, return_buckets, return_journal};
use bc_leaf_walk::bc_machine::machine::{CoreParts, CoreSeat};
use std::sync::Wait;

/// Takes the buckets.
pub(crate) fn take_buckets<C: Disk + Drop, B: Disk + Drop, R: Wait>(
    rt: &R,
    parts: &CoreParts<C, B>,
    seat: &mut CoreSeat<C, B>,
    hand: &mut Hand<C, B>,
)
    requires works { Works C.facts B.facts parts.now seat.old hand.old }
    requires cached { are_plain C.facts B.facts parts.now.run.start ≡ false }
    requires order { HasNoneBehindBuckets hand.old }
    ensures works { Works C.facts B.facts parts.now seat.new hand.new }
    ensures waited { Waited (core C.facts B.facts) seat.old seat.new }
    ensures has { (part : BucketsPart) × (hand.new ≡ record hand.old { buckets = Some part }) }
{
    let (buckets, _) = borrow_buckets(rt, parts, seat, hand);
    return_buckets(parts, seat, hand, buckets, false);
}

/// Gives the buckets in hand back.
pub(crate) fn give_buckets<C: Disk + Drop, B: Disk + Drop>(
    parts: &CoreParts<C, B>,
    seat: &mut CoreSeat<C, B>,
    hand: &mut Hand<C, B>,
)
    requires works { Works C.facts B.facts parts.now seat.old hand.old }
    requires has { (part : BucketsPart) × (hand.old.buckets ≡ Some part) }
    ensures works { Works C.facts B.facts parts.now seat.new hand.new }
    ensures waited { Waited (core C.facts B.facts) seat.old seat.new }
    ensures hand { hand.new ≡ record hand.old { buckets = None } }
{
    let Some(buckets) = hand.buckets.take() else {
        unreachable!()
    };
    return_buckets(parts, seat, hand, buckets, true);
}

/// Takes the journal.
pub(crate) fn take_journal<C: Disk + Drop, B: Disk + Drop, R: Wait>(
    rt: &R,
    parts: &CoreParts<C, B>,
    seat: &mut CoreSeat<C, B>,
    hand: &mut Hand<C, B>,
)
    requires works { Works C.facts B.facts parts.now seat.old hand.old }
    requires cached { are_plain C.facts B.facts parts.now.run.start ≡ false }
    requires order { HasNoneBehindJournal hand.old }
    ensures works { Works C.facts B.facts parts.now seat.new hand.new }
    ensures waited { Waited (core C.facts B.facts) seat.old seat.new }
    ensures has { (journal : Journal) × (hand.new ≡ record hand.old { journal = Some journal }) }
{
    let (journal, _) = borrow_journal(rt, parts, seat, hand);
    return_journal(parts, seat, hand, journal, false);
}

/// Gives the journal in hand back.
pub(crate) fn give_journal<C: Disk + Drop, B: Disk + Drop>(
    parts: &CoreParts<C, B>,
    seat: &mut CoreSeat<C, B>,
    hand: &mut Hand<C, B>,
)
    requires works { Works C.facts B.facts parts.now seat.old hand.old }
    requires has { (journal : Journal) × (hand.old.journal ≡ Some journal) }
    ensures works { Works C.facts B.facts parts.now seat.new hand.new }
    ensures waited { Waited (core C.facts B.facts) seat.old seat.new }
    ensures hand { hand.new ≡ record hand.old { journal = None } }
{
    let Some(journal) = hand.journal.take() else {
        unreachable!()
    };
    return_journal(parts, seat, hand, journal, true);
}
