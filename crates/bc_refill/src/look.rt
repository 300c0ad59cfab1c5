//! What a refill looks up before it does anything.
ghost use Rattle.std.specs.Prelude.{◌≡◌, ◌↔◌, ◌+◌, ◌<◌, Some, IfNone, IfSome, IsTrue, length};
ghost use Rattle.bc_journal.specs.Journal.{Journal as JournalSeen};
ghost use Rattle.bc_new_chain.specs.bc_machine.declared.part.BucketsPart.{BucketsPart as PartSeen};
ghost use Rattle.bc_refill.specs.Most.{IsIdle, IsNothing, deeds_of, most_of};
ghost use Rattle.bc_refill.specs.Named.{CanName};

use crate::answer::Refilled;
use bc_alloc::{Purpose, Reserves};
use bc_disk::chain::sets_in_chain;
use bc_disk::geometry::Geometry;
use bc_journal::Journal;
use bc_new_chain::bc_hand::hand::Hand;
use bc_new_chain::bc_machine::part::BucketsPart;

/// The numbers of entries end here: none has this one.
const NUMBERS_END: u64 = 1 << 63;

// How much memory and how many promises a refill takes.
#[derive(Clone, Copy, Drop)]
pub(crate) struct Sizes {
    // The buckets of the chain in hand.
    pub(crate) chained: usize,
    // The raised buckets, with as many as may come.
    pub(crate) raised: usize,
    // Its deeds, at most.
    pub(crate) deeds: u64,
}

// Why nothing is done, where that is so.
pub(crate) fn idle<C, B>(hand: &Hand<C, B>) -> Option<Refilled>
    requires { (p : PartSeen) × (j : JournalSeen) × (hand.now.buckets ≡ Some p)
        × (hand.now.journal ≡ Some j) }
    ensures some { IfSome result (λ a. (p : PartSeen) (j : JournalSeen)
        → hand.now.buckets ≡ Some p → hand.now.journal ≡ Some j → IsIdle a p j) }
    ensures none { IfNone result ((p : PartSeen) (j : JournalSeen)
        → hand.now.buckets ≡ Some p → hand.now.journal ≡ Some j
        → CanName j.ring.geometry p j) }
{
    let Some(buckets) = &hand.buckets else {
        unreachable!()
    };
    let Some(journal) = &hand.journal else {
        unreachable!()
    };
    idle_in(buckets.get(), journal.get())
}

// The same, of the parts in hand.
fn idle_in(part: &BucketsPart, journal: &Journal) -> Option<Refilled>
    ensures some { IfSome result (λ a. IsIdle a part.now journal.now) }
    ensures none { IfNone result (CanName journal.now.ring.geometry part.now journal.now) }
{
    if part.renewing {
        return Some(Refilled::Cut);
    }
    if journal.sealed().is_some() {
        return Some(Refilled::Cut);
    }
    if is_nothing(part) {
        return Some(Refilled::Nothing);
    }
    if journal.number() >= NUMBERS_END {
        return Some(Refilled::NoNumber);
    }
    if !journal.room(0) {
        return Some(Refilled::NoPlace);
    }
    if part.buckets.records().len() != journal.ring().geometry().nbuckets as usize {
        return Some(Refilled::Unsound);
    }
    None
}

// Whether no raised bucket waits, and none would be raised.
fn is_nothing(part: &BucketsPart) -> bool
    ensures { IsTrue result ↔ IsNothing part.now }
{
    if part.reserves.raised_len() > 0 {
        return false;
    }
    part.reserves.victim(&part.buckets).is_none()
}

// How the device in hand is divided.
pub(crate) fn geometry_in<C, B>(hand: &Hand<C, B>) -> Geometry
    requires { (j : JournalSeen) × (hand.now.journal ≡ Some j) }
    ensures { (j : JournalSeen) → hand.now.journal ≡ Some j → result ≡ j.ring.geometry }
{
    let Some(journal) = &hand.journal else {
        unreachable!()
    };
    *journal.get().ring().geometry()
}

// What a refill of the buckets in hand takes.
pub(crate) fn sizes_in<C, B>(hand: &Hand<C, B>, g: &Geometry) -> Sizes
    requires { (p : PartSeen) × (hand.now.buckets ≡ Some p) }
    ensures chained { (p : PartSeen) → hand.now.buckets ≡ Some p
        → result.chained ≡ length p.chain.items }
    ensures raised { (p : PartSeen) → hand.now.buckets ≡ Some p
        → result.raised ≡ length p.reserves.raised + most_of p.reserves }
    ensures deeds { (p : PartSeen) → hand.now.buckets ≡ Some p
        → result.deeds ≡ deeds_of g.now p.reserves }
{
    let Some(buckets) = &hand.buckets else {
        unreachable!()
    };
    let part = buckets.get();
    let most = most_in(&part.reserves);
    Sizes {
        chained: part.chain.len(),
        raised: part.reserves.raised_len() as usize + most as usize,
        deeds: 2 * u64::from(sets_in_chain(g)) + (most + 6),
    }
}

// How many buckets the lists have room for.
fn most_in(reserves: &Reserves) -> u64
    ensures most { result ≡ most_of reserves.now }
    ensures few { result < 17179869184 }
{
    let priorities = u64::from(reserves.room(Purpose::Priorities));
    let moving = u64::from(reserves.room(Purpose::Moving));
    let tree = u64::from(reserves.room(Purpose::Tree));
    let plain = u64::from(reserves.room(Purpose::Plain));
    priorities + (moving + (tree + plain))
}
