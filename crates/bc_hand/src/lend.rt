//! How a seat borrows the parts of a cache that it needs: from its hand, or from their slots where
//! they aren't in hand.
ghost use Rattle.std.specs.Prelude.{◌≡◌, ◌≢◌, ◌-◌, ◌<◌, ◌≤◌, ℕ, false, length, is_none, None, Some, IfSome, if◌then◌else◌};
ghost use Rattle.bc_parts.specs.Seat.{Holds};
ghost use Rattle.bc_seats.specs.Seats.{Waited};
ghost use Rattle.bc_machine.specs.World.{are_plain};
ghost use Rattle.bc_hand.specs.Seats.{core, Works, HasNoneBehindSpine, HasNoneBehindLeaves, HasNoneBehindBuckets, HasNoneBehindJournal, HasNoneBehindCache};

use crate::hand::{Hand, LeafHand};
use bc_cache::NodeCache;
use bc_disk::disk::Disk;
use bc_journal::Journal;
use bc_machine::machine::{CoreParts, CoreSeat};
use bc_machine::part::{Apart, BUCKETS, BucketsPart, CACHE, CorePart, JOURNAL, SPINE, SpinePart};
use bc_seats::seats;
use std::sync::Wait;

/// Borrows the tree in memory. The answer says whether it wasn't in hand.
pub fn borrow_spine<C: Disk + Drop, B: Disk + Drop, R: Wait>(
    rt: &R,
    parts: &CoreParts<C, B>,
    seat: &mut CoreSeat<C, B>,
    hand: &mut Hand<C, B>,
) -> (Apart<SpinePart>, bool)
    requires works { Works C.facts B.facts parts.now seat.old hand.old }
    requires cached { are_plain C.facts B.facts parts.now.run.start ≡ false }
    requires order { hand.old.spine ≡ None → HasNoneBehindSpine hand.old }
    ensures lent { Works C.facts B.facts parts.now seat.new (record hand.new { spine = Some result.0 }) }
    ensures waited { Waited (core C.facts B.facts) seat.old seat.new }
    ensures heard { seat.new.heard ≡ seat.old.heard }
    ensures still { (k : ℕ) → Holds seat.old.parts k → Holds seat.new.parts k }
    ensures hand { hand.new ≡ record hand.old { spine = None } }
    ensures taken { result.1 ≡ is_none hand.old.spine }
{
    if let Some(spine) = hand.spine.take() {
        return (spine, false);
    }
    let CorePart::Spine(spine) = seats::take(rt, parts, seat, SPINE) else {
        unreachable!()
    };
    (spine, true)
}

/// Returns the tree in memory to where it came from.
pub fn return_spine<C: Disk + Drop, B: Disk + Drop>(
    parts: &CoreParts<C, B>,
    seat: &mut CoreSeat<C, B>,
    hand: &mut Hand<C, B>,
    spine: Apart<SpinePart>,
    taken: bool,
)
    requires { Works C.facts B.facts parts.now seat.old (record hand.old { spine = Some spine }) }
    ensures works { Works C.facts B.facts parts.now seat.new hand.new }
    ensures waited { Waited (core C.facts B.facts) seat.old seat.new }
    ensures seen { seat.new.seen ≡ seat.old.seen }
    ensures heard { seat.new.heard ≡ seat.old.heard }
    ensures hand { hand.new ≡ record hand.old { spine = if taken then None else Some spine } }
{
    if taken {
        hand.spine = None;
        seats::give(parts, seat, SPINE, CorePart::Spine(spine));
    } else {
        hand.spine = Some(spine);
    }
}

/// Borrows the buckets with their lists and open places. The answer says whether it wasn't in hand.
pub fn borrow_buckets<C: Disk + Drop, B: Disk + Drop, R: Wait>(
    rt: &R,
    parts: &CoreParts<C, B>,
    seat: &mut CoreSeat<C, B>,
    hand: &mut Hand<C, B>,
) -> (Apart<BucketsPart>, bool)
    requires works { Works C.facts B.facts parts.now seat.old hand.old }
    requires cached { are_plain C.facts B.facts parts.now.run.start ≡ false }
    requires order { hand.old.buckets ≡ None → HasNoneBehindBuckets hand.old }
    ensures lent { Works C.facts B.facts parts.now seat.new (record hand.new { buckets = Some result.0 }) }
    ensures waited { Waited (core C.facts B.facts) seat.old seat.new }
    ensures heard { seat.new.heard ≡ seat.old.heard }
    ensures still { (k : ℕ) → Holds seat.old.parts k → Holds seat.new.parts k }
    ensures hand { hand.new ≡ record hand.old { buckets = None } }
    ensures taken { result.1 ≡ is_none hand.old.buckets }
{
    if let Some(buckets) = hand.buckets.take() {
        return (buckets, false);
    }
    let CorePart::Buckets(buckets) = seats::take(rt, parts, seat, BUCKETS) else {
        unreachable!()
    };
    (buckets, true)
}

/// Returns the buckets with their lists and open places to where it came from.
pub fn return_buckets<C: Disk + Drop, B: Disk + Drop>(
    parts: &CoreParts<C, B>,
    seat: &mut CoreSeat<C, B>,
    hand: &mut Hand<C, B>,
    buckets: Apart<BucketsPart>,
    taken: bool,
)
    requires { Works C.facts B.facts parts.now seat.old (record hand.old { buckets = Some buckets }) }
    ensures works { Works C.facts B.facts parts.now seat.new hand.new }
    ensures waited { Waited (core C.facts B.facts) seat.old seat.new }
    ensures seen { seat.new.seen ≡ seat.old.seen }
    ensures heard { seat.new.heard ≡ seat.old.heard }
    ensures hand { hand.new ≡ record hand.old { buckets = if taken then None else Some buckets } }
{
    if taken {
        hand.buckets = None;
        seats::give(parts, seat, BUCKETS, CorePart::Buckets(buckets));
    } else {
        hand.buckets = Some(buckets);
    }
}

/// Borrows the journal in memory. The answer says whether it wasn't in hand.
pub fn borrow_journal<C: Disk + Drop, B: Disk + Drop, R: Wait>(
    rt: &R,
    parts: &CoreParts<C, B>,
    seat: &mut CoreSeat<C, B>,
    hand: &mut Hand<C, B>,
) -> (Apart<Journal>, bool)
    requires works { Works C.facts B.facts parts.now seat.old hand.old }
    requires cached { are_plain C.facts B.facts parts.now.run.start ≡ false }
    requires order { hand.old.journal ≡ None → HasNoneBehindJournal hand.old }
    ensures lent { Works C.facts B.facts parts.now seat.new (record hand.new { journal = Some result.0 }) }
    ensures waited { Waited (core C.facts B.facts) seat.old seat.new }
    ensures heard { seat.new.heard ≡ seat.old.heard }
    ensures still { (k : ℕ) → Holds seat.old.parts k → Holds seat.new.parts k }
    ensures hand { hand.new ≡ record hand.old { journal = None } }
    ensures taken { result.1 ≡ is_none hand.old.journal }
{
    if let Some(journal) = hand.journal.take() {
        return (journal, false);
    }
    let CorePart::Journal(journal) = seats::take(rt, parts, seat, JOURNAL) else {
        unreachable!()
    };
    (journal, true)
}

/// Returns the journal in memory to where it came from.
pub fn return_journal<C: Disk + Drop, B: Disk + Drop>(
    parts: &CoreParts<C, B>,
    seat: &mut CoreSeat<C, B>,
    hand: &mut Hand<C, B>,
    journal: Apart<Journal>,
    taken: bool,
)
    requires { Works C.facts B.facts parts.now seat.old (record hand.old { journal = Some journal }) }
    ensures works { Works C.facts B.facts parts.now seat.new hand.new }
    ensures waited { Waited (core C.facts B.facts) seat.old seat.new }
    ensures seen { seat.new.seen ≡ seat.old.seen }
    ensures heard { seat.new.heard ≡ seat.old.heard }
    ensures hand { hand.new ≡ record hand.old { journal = if taken then None else Some journal } }
{
    if taken {
        hand.journal = None;
        seats::give(parts, seat, JOURNAL, CorePart::Journal(journal));
    } else {
        hand.journal = Some(journal);
    }
}

/// Borrows the cache device. The answer says whether it wasn't in hand.
pub fn borrow_cache<C: Disk + Drop, B: Disk + Drop, R: Wait>(
    rt: &R,
    parts: &CoreParts<C, B>,
    seat: &mut CoreSeat<C, B>,
    hand: &mut Hand<C, B>,
) -> (C, bool)
    requires works { Works C.facts B.facts parts.now seat.old hand.old }
    requires cached { are_plain C.facts B.facts parts.now.run.start ≡ false }
    requires order { hand.old.cache ≡ None → HasNoneBehindCache hand.old }
    ensures lent { Works C.facts B.facts parts.now seat.new (record hand.new { cache = Some result.0 }) }
    ensures waited { Waited (core C.facts B.facts) seat.old seat.new }
    ensures heard { seat.new.heard ≡ seat.old.heard }
    ensures still { (k : ℕ) → Holds seat.old.parts k → Holds seat.new.parts k }
    ensures hand { hand.new ≡ record hand.old { cache = None } }
    ensures taken { result.1 ≡ is_none hand.old.cache }
{
    if let Some(cache) = hand.cache.take() {
        return (cache, false);
    }
    let CorePart::Cache(cache) = seats::take(rt, parts, seat, CACHE) else {
        unreachable!()
    };
    (cache, true)
}

/// Returns the cache device to where it came from.
pub fn return_cache<C: Disk + Drop, B: Disk + Drop>(
    parts: &CoreParts<C, B>,
    seat: &mut CoreSeat<C, B>,
    hand: &mut Hand<C, B>,
    cache: C,
    taken: bool,
)
    requires { Works C.facts B.facts parts.now seat.old (record hand.old { cache = Some cache }) }
    ensures works { Works C.facts B.facts parts.now seat.new hand.new }
    ensures waited { Waited (core C.facts B.facts) seat.old seat.new }
    ensures seen { seat.new.seen ≡ seat.old.seen }
    ensures heard { seat.new.heard ≡ seat.old.heard }
    ensures hand { hand.new ≡ record hand.old { cache = if taken then None else Some cache } }
{
    if taken {
        hand.cache = None;
        seats::give(parts, seat, CACHE, CorePart::Cache(cache));
    } else {
        hand.cache = Some(cache);
    }
}

/// Borrows the leaves of a part, whose number is that of the part in hand where one is. The answer
/// says whether it wasn't in hand.
pub fn borrow_leaves<C: Disk + Drop, B: Disk + Drop, R: Wait>(
    rt: &R,
    parts: &CoreParts<C, B>,
    seat: &mut CoreSeat<C, B>,
    hand: &mut Hand<C, B>,
    part: u32,
) -> (NodeCache, bool)
    requires works { Works C.facts B.facts parts.now seat.old hand.old }
    requires cached { are_plain C.facts B.facts parts.now.run.start ≡ false }
    requires part { (6 ≤ part) × (part < length parts.now.run.start) }
    requires same { IfSome hand.old.leaves (λ l. l.part ≡ part) }
    requires order { hand.old.leaves ≡ None → HasNoneBehindLeaves hand.old }
    ensures lent { Works C.facts B.facts parts.now seat.new
        (record hand.new { leaves = Some (record { part = part; cache = result.0 }) }) }
    ensures waited { Waited (core C.facts B.facts) seat.old seat.new }
    ensures heard { seat.new.heard ≡ seat.old.heard }
    ensures still { (k : ℕ) → Holds seat.old.parts k → Holds seat.new.parts k }
    ensures hand { hand.new ≡ record hand.old { leaves = None } }
    ensures taken { result.1 ≡ is_none hand.old.leaves }
{
    if let Some(leaves) = hand.leaves.take() {
        return (leaves.cache, false);
    }
    let CorePart::Leaves(cache) = seats::take(rt, parts, seat, part) else {
        unreachable!()
    };
    (cache, true)
}

/// Returns the leaves of a part to where they came from.
pub fn return_leaves<C: Disk + Drop, B: Disk + Drop>(
    parts: &CoreParts<C, B>,
    seat: &mut CoreSeat<C, B>,
    hand: &mut Hand<C, B>,
    part: u32,
    cache: NodeCache,
    taken: bool,
)
    requires { Works C.facts B.facts parts.now seat.old
        (record hand.old { leaves = Some (record { part = part; cache = cache }) }) }
    ensures works { Works C.facts B.facts parts.now seat.new hand.new }
    ensures waited { Waited (core C.facts B.facts) seat.old seat.new }
    ensures seen { seat.new.seen ≡ seat.old.seen }
    ensures heard { seat.new.heard ≡ seat.old.heard }
    ensures hand { hand.new ≡ record hand.old
        { leaves = if taken then None else Some (record { part = part; cache = cache }) } }
{
    if taken {
        hand.leaves = None;
        seats::give(parts, seat, part, CorePart::Leaves(cache));
    } else {
        hand.leaves = Some(LeafHand { part, cache });
    }
}
