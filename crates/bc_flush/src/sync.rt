//! All that has come into the index is made durable.
ghost use Rattle.std.specs.Prelude.{◌≡◌, ◌≢◌, ◌+◌, ◌*◌, ◌≤◌, ℕ, nat_le, [], false, Some, OnOk, IfErr};
ghost use Rattle.bc_entry.specs.Entry.{HasJournalAndCache};
ghost use Rattle.bc_entry.specs.Seal.{CanSeal};
ghost use Rattle.bc_flush.specs.Durable.{AreDurable, HaveComeIn};
ghost use Rattle.bc_flush.specs.Sync.{HasNotSynced, HasSynced, journal_alone, journal_and_cache};
ghost use Rattle.bc_entry.specs.bc_hand.Seats.{Works, empty, kinds, world};
ghost use Rattle.bc_journal.specs.Journal.{Journal};
ghost use Rattle.bc_entry.specs.bc_machine.World.{FromEach, Origin, are_plain, cache_among};

use crate::error::{FlushError, refusal};
use bc_disk::disk::Disk;
use bc_entry::bc_hand::hand::Hand;
use bc_entry::bc_hand::lend::{borrow_cache, borrow_journal, return_cache, return_journal};
use bc_entry::bc_machine::machine::{CoreParts, CoreSeat};
use bc_entry::put::put_entry;
use bc_journal::Journal;
use std::alloc::Global;
use std::sync::Wait;

/// Makes durable all that had come into the index before the call: where keys wait, they are put
/// into an entry of the journal, and else nothing is done. No part is in hand, before or after.
///
/// The entry names what the newest one names. Room for five deeds is promised. The journal always
/// keeps a number and a place for keys that wait, so neither is ever missing here.
///
/// `Fault` is a write or a barrier of the entry that failed, which halted the run; `Halted` names
/// the device that had halted it before. At `Memory` there was none for the entry, and nothing was
/// done; so is answered too where another entry was cut off behind its seal, and this seat hasn't
/// heard of the halt yet. At `Outside` nothing was done.
pub fn sync_journal<C: Disk + Drop, B: Disk + Drop, R: Wait>(
    rt: &R,
    alloc: Global,
    parts: &CoreParts<C, B>,
    seat: &mut CoreSeat<C, B>,
) -> Result<(), FlushError>
    requires works { Works C.facts B.facts parts.now seat.old empty }
    requires cached { are_plain C.facts B.facts parts.now.run.start ≡ false }
    requires promise { 5 ≤ seat.old.promises }
    ensures works { Works C.facts B.facts parts.now seat.new empty }
    ensures left { seat.old.promises ≤ seat.new.promises + 5 }
    ensures ok { OnOk result (HasSynced C.facts B.facts seat.old seat.new) }
    ensures durable { OnOk result ((n : Origin → ℕ)
        → FromEach (world C.facts B.facts seat.old) (HaveComeIn n)
        → FromEach (world C.facts B.facts seat.new) (AreDurable n)) }
    ensures err { IfErr result (λ error. HasNotSynced C.facts B.facts
        (cache_among C.facts B.facts parts.now.run.start).sectors error seat.old seat.new) }
{
    let mut hand = Hand::empty();
    let hand = &mut hand;
    let (journal, _) = borrow_journal(rt, parts, seat, hand);
    return_journal(parts, seat, hand, journal, false);
    let done = sync_in(rt, alloc, parts, seat, hand);
    let Some(journal) = hand.journal.take() else {
        unreachable!()
    };
    return_journal(parts, seat, hand, journal, true);
    done
}

// The same, of the journal in hand.
fn sync_in<C: Disk + Drop, B: Disk + Drop, R: Wait>(
    rt: &R,
    alloc: Global,
    parts: &CoreParts<C, B>,
    seat: &mut CoreSeat<C, B>,
    hand: &mut Hand<C, B>,
) -> Result<(), FlushError>
    requires works { Works C.facts B.facts parts.now seat.old hand.old }
    requires hand { kinds hand.old ≡ journal_alone }
    requires cached { are_plain C.facts B.facts parts.now.run.start ≡ false }
    requires promise { 5 ≤ seat.old.promises }
    ensures works { Works C.facts B.facts parts.now seat.new hand.new }
    ensures left { seat.old.promises ≤ seat.new.promises + 5 }
    ensures hand { kinds hand.new ≡ journal_alone }
    ensures ok { OnOk result (HasSynced C.facts B.facts seat.old seat.new) }
    ensures durable { OnOk result ((n : Origin → ℕ)
        → FromEach (world C.facts B.facts seat.old) (HaveComeIn n)
        → FromEach (world C.facts B.facts seat.new) (AreDurable n)) }
    ensures err { IfErr result (λ error. HasNotSynced C.facts B.facts
        (cache_among C.facts B.facts parts.now.run.start).sectors error seat.old seat.new) }
{
    let Some(journal) = &hand.journal else {
        unreachable!()
    };
    if journal.get().sealed().is_some() {
        if let Some(device) = seat.heard() {
            return Err(FlushError::Halted(device));
        }
        return Err(FlushError::Memory);
    }
    if journal.get().waiting().is_empty() {
        return Ok(());
    }
    put_waiting(rt, alloc, parts, seat, hand)
}

// Puts the keys that wait in the journal in hand.
fn put_waiting<C: Disk + Drop, B: Disk + Drop, R: Wait>(
    rt: &R,
    alloc: Global,
    parts: &CoreParts<C, B>,
    seat: &mut CoreSeat<C, B>,
    hand: &mut Hand<C, B>,
) -> Result<(), FlushError>
    requires works { Works C.facts B.facts parts.now seat.old hand.old }
    requires hand { kinds hand.old ≡ journal_alone }
    requires cached { are_plain C.facts B.facts parts.now.run.start ≡ false }
    requires promise { 5 ≤ seat.old.promises }
    requires journal { (j : Journal) × (hand.old.journal ≡ Some j) × CanSeal j
        × (j.waiting ≢ []) }
    ensures works { Works C.facts B.facts parts.now seat.new hand.new }
    ensures left { seat.old.promises ≤ seat.new.promises + 5 }
    ensures hand { kinds hand.new ≡ journal_alone }
    ensures ok { OnOk result (HasSynced C.facts B.facts seat.old seat.new) }
    ensures durable { OnOk result ((n : Origin → ℕ)
        → FromEach (world C.facts B.facts seat.old) (HaveComeIn n)
        → FromEach (world C.facts B.facts seat.new) (AreDurable n)) }
    ensures err { IfErr result (λ error. HasNotSynced C.facts B.facts
        (cache_among C.facts B.facts parts.now.run.start).sectors error seat.old seat.new) }
{
    let (cache, _) = borrow_cache(rt, parts, seat, hand);
    return_cache(parts, seat, hand, cache, false);
    let done = put_within(rt, alloc, parts, seat, hand);
    let Some(cache) = hand.cache.take() else {
        unreachable!()
    };
    return_cache(parts, seat, hand, cache, true);
    done
}

// The same, with the cache device in hand too, where the journal lies on it.
fn put_within<C: Disk + Drop, B: Disk + Drop, R: Wait>(
    rt: &R,
    alloc: Global,
    parts: &CoreParts<C, B>,
    seat: &mut CoreSeat<C, B>,
    hand: &mut Hand<C, B>,
) -> Result<(), FlushError>
    requires works { Works C.facts B.facts parts.now seat.old hand.old }
    requires hand { kinds hand.old ≡ journal_and_cache }
    requires cached { are_plain C.facts B.facts parts.now.run.start ≡ false }
    requires promise { 5 ≤ seat.old.promises }
    requires journal { (j : Journal) × (hand.old.journal ≡ Some j) × CanSeal j
        × (j.waiting ≢ []) }
    ensures works { Works C.facts B.facts parts.now seat.new hand.new }
    ensures left { seat.old.promises ≤ seat.new.promises + 5 }
    ensures hand { kinds hand.new ≡ journal_and_cache }
    ensures ok { OnOk result (HasSynced C.facts B.facts seat.old seat.new) }
    ensures durable { OnOk result ((n : Origin → ℕ)
        → FromEach (world C.facts B.facts seat.old) (HaveComeIn n)
        → FromEach (world C.facts B.facts seat.new) (AreDurable n)) }
    ensures err { IfErr result (λ error. HasNotSynced C.facts B.facts
        (cache_among C.facts B.facts parts.now.run.start).sectors error seat.old seat.new) }
{
    if !is_within(hand) {
        return Err(FlushError::Outside);
    }
    match put_entry(rt, alloc, parts, seat, hand) {
        Ok(()) => Ok(()),
        Err(error) => Err(refusal(error)),
    }
}

// Whether all buckets of the journal in hand lie on the cache device in hand.
fn is_within<C: Disk, B>(hand: &Hand<C, B>) -> bool
    requires both { HasJournalAndCache hand.now }
    ensures { (j : Journal) (c : C) → hand.now.journal ≡ Some j → hand.now.cache ≡ Some c
        → result ≡ nat_le (j.ring.geometry.bucket * j.ring.geometry.nbuckets)
        (C.facts c).sectors }
{
    let Some(journal) = &hand.journal else {
        unreachable!()
    };
    let Some(cache) = &hand.cache else {
        unreachable!()
    };
    let g = journal.get().ring().geometry();
    u64::from(g.bucket) * u64::from(g.nbuckets) <= cache.sectors()
}
