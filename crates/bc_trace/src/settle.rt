//! The journal is made durable, with the buckets in hand.
ghost use Rattle.std.specs.Prelude.{◌≡◌, ◌≢◌, ◌+◌, ◌*◌, ◌≤◌, nat_le, [], false, Some, OnOk, IfErr};
ghost use Rattle.bc_flush.specs.Refusals.{refusal};
ghost use Rattle.bc_flush.specs.Sync.{HasNotSynced, HasSynced};
ghost use Rattle.bc_entry.specs.Entry.{HasJournalAndCache};
ghost use Rattle.bc_entry.specs.Seal.{CanSeal};
ghost use Rattle.bc_journal.specs.Journal.{Journal};
ghost use Rattle.bc_leaf_walk.specs.bc_hand.Seats.{Works, kinds};
ghost use Rattle.bc_leaf_walk.specs.bc_machine.World.{are_plain, cache_among};
ghost use Rattle.bc_trace.specs.Trace.{IsSettled, all_three, buckets_and_journal};

use bc_disk::disk::Disk;
use bc_entry::put::put_entry;
use bc_flush::error::FlushError;
use bc_journal::Journal;
use bc_leaf_walk::bc_hand::error::StepError;
use bc_leaf_walk::bc_hand::hand::Hand;
use bc_leaf_walk::bc_hand::lend::{borrow_cache, return_cache};
use bc_leaf_walk::bc_machine::machine::{CoreParts, CoreSeat};
use std::alloc::Global;
use std::sync::Wait;

/// Puts what waits in the journal into an entry, with the buckets and the journal in hand. From then
/// on nothing waits and no entry is sealed, for as long as the journal is in hand.
///
/// The errors are those of a flush's entry.
pub(crate) fn settle<C: Disk + Drop, B: Disk + Drop, R: Wait>(
    rt: &R,
    alloc: Global,
    parts: &CoreParts<C, B>,
    seat: &mut CoreSeat<C, B>,
    hand: &mut Hand<C, B>,
) -> Result<(), FlushError>
    requires works { Works C.facts B.facts parts.now seat.old hand.old }
    requires hand { kinds hand.old ≡ buckets_and_journal }
    requires cached { are_plain C.facts B.facts parts.now.run.start ≡ false }
    requires promise { 5 ≤ seat.old.promises }
    ensures works { Works C.facts B.facts parts.now seat.new hand.new }
    ensures left { seat.old.promises ≤ seat.new.promises + 5 }
    ensures hand { kinds hand.new ≡ buckets_and_journal }
    ensures settled { OnOk result (IsSettled hand.new) }
    ensures ok { OnOk result (HasSynced C.facts B.facts seat.old seat.new) }
    ensures err { IfErr result (λ error. HasNotSynced C.facts B.facts
        (cache_among C.facts B.facts parts.now.run.start).sectors error seat.old seat.new) }
{
    let Some(journal) = &hand.journal else {
        unreachable!()
    };
    if journal.get().sealed().is_some() {
        if let Some(device) = seat.heard() {
            return Err(FlushError::Halted(device));
        }
        return Err(FlushError::Memory);
    }
    if journal.get().waiting().is_empty() {
        return Ok(());
    }
    put_waiting(rt, alloc, parts, seat, hand)
}

// Puts the keys that wait in the journal in hand.
fn put_waiting<C: Disk + Drop, B: Disk + Drop, R: Wait>(
    rt: &R,
    alloc: Global,
    parts: &CoreParts<C, B>,
    seat: &mut CoreSeat<C, B>,
    hand: &mut Hand<C, B>,
) -> Result<(), FlushError>
    requires works { Works C.facts B.facts parts.now seat.old hand.old }
    requires hand { kinds hand.old ≡ buckets_and_journal }
    requires cached { are_plain C.facts B.facts parts.now.run.start ≡ false }
    requires promise { 5 ≤ seat.old.promises }
    requires journal { (j : Journal) × (hand.old.journal ≡ Some j) × CanSeal j
        × (j.waiting ≢ []) }
    ensures works { Works C.facts B.facts parts.now seat.new hand.new }
    ensures left { seat.old.promises ≤ seat.new.promises + 5 }
    ensures hand { kinds hand.new ≡ buckets_and_journal }
    ensures settled { OnOk result (IsSettled hand.new) }
    ensures ok { OnOk result (HasSynced C.facts B.facts seat.old seat.new) }
    ensures err { IfErr result (λ error. HasNotSynced C.facts B.facts
        (cache_among C.facts B.facts parts.now.run.start).sectors error seat.old seat.new) }
{
    let (cache, _) = borrow_cache(rt, parts, seat, hand);
    return_cache(parts, seat, hand, cache, false);
    let done = put_within(rt, alloc, parts, seat, hand);
    let Some(cache) = hand.cache.take() else {
        unreachable!()
    };
    return_cache(parts, seat, hand, cache, true);
    done
}

// The same, with the cache device in hand too, where the journal lies on it.
fn put_within<C: Disk + Drop, B: Disk + Drop, R: Wait>(
    rt: &R,
    alloc: Global,
    parts: &CoreParts<C, B>,
    seat: &mut CoreSeat<C, B>,
    hand: &mut Hand<C, B>,
) -> Result<(), FlushError>
    requires works { Works C.facts B.facts parts.now seat.old hand.old }
    requires hand { kinds hand.old ≡ all_three }
    requires cached { are_plain C.facts B.facts parts.now.run.start ≡ false }
    requires promise { 5 ≤ seat.old.promises }
    requires journal { (j : Journal) × (hand.old.journal ≡ Some j) × CanSeal j
        × (j.waiting ≢ []) }
    ensures works { Works C.facts B.facts parts.now seat.new hand.new }
    ensures left { seat.old.promises ≤ seat.new.promises + 5 }
    ensures hand { kinds hand.new ≡ all_three }
    ensures settled { OnOk result (IsSettled hand.new) }
    ensures ok { OnOk result (HasSynced C.facts B.facts seat.old seat.new) }
    ensures err { IfErr result (λ error. HasNotSynced C.facts B.facts
        (cache_among C.facts B.facts parts.now.run.start).sectors error seat.old seat.new) }
{
    if !is_within(hand) {
        return Err(FlushError::Outside);
    }
    match put_entry(rt, alloc, parts, seat, hand) {
        Ok(()) => Ok(()),
        Err(error) => Err(refusal(error)),
    }
}

// The refusal of an entry of which a step was refused.
fn refusal(error: StepError) -> FlushError
    ensures { result ≡ refusal error }
{
    match error {
        StepError::Fault(device) => FlushError::Fault(device),
        StepError::Halted(device) => FlushError::Halted(device),
        StepError::Memory => FlushError::Memory,
    }
}

// Whether all buckets of the journal in hand lie on the cache device in hand.
fn is_within<C: Disk, B>(hand: &Hand<C, B>) -> bool
    requires both { HasJournalAndCache hand.now }
    ensures { (j : Journal) (c : C) → hand.now.journal ≡ Some j → hand.now.cache ≡ Some c
        → result ≡ nat_le (j.ring.geometry.bucket * j.ring.geometry.nbuckets)
        (C.facts c).sectors }
{
    let Some(journal) = &hand.journal else {
        unreachable!()
    };
    let Some(cache) = &hand.cache else {
        unreachable!()
    };
    let g = journal.get().ring().geometry();
    u64::from(g.bucket) * u64::from(g.nbuckets) <= cache.sectors()
}
