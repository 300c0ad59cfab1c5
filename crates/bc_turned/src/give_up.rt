//! An entry that says that older ones aren't needed.
ghost use Rattle.std.specs.Prelude.{◌≡◌, ◌+◌, ◌*◌, ◌≤◌, nat_le, false, None, Some, OnOk, IfErr, IfOk};
ghost use Rattle.bc_entry.specs.Entry.{HasJournalAndCache};
ghost use Rattle.bc_flush.specs.Sync.{HasNotSynced, journal_alone, journal_and_cache};
ghost use Rattle.bc_flush.specs.bc_hand.Seats.{Works, empty, kinds, world};
ghost use Rattle.bc_flush.specs.bc_machine.World.{FromEach, are_plain, cache_among};
ghost use Rattle.bc_turn.specs.bc_place.Written.{KeepsPlaces};
ghost use Rattle.bc_journal.specs.Journal.{Journal};
ghost use Rattle.bc_needs.specs.Needs.{NeedsFrom};
ghost use Rattle.bc_turned.specs.Turned.{HasGivenUp, HasOrNot, IsReady};

use crate::answer::{NoEntry, refused};
use bc_disk::disk::Disk;
use bc_entry::put::put_entry;
use bc_flush::bc_hand::hand::Hand;
use bc_flush::bc_hand::lend::{borrow_cache, borrow_journal, return_cache, return_journal};
use bc_flush::bc_machine::machine::{CoreParts, CoreSeat};
use bc_flush::error::FlushError;
use bc_turn::heard::or_halt;
use bc_turn::needed::need_from;
use std::alloc::Global;
use std::sync::Wait;

/// The numbers of entries end here: none has this one.
const NUMBERS_END: u64 = 1 << 63;

/// Puts an entry that needs no entry below `low`: a number below which no leaf needs one. No part
/// is in hand, before or after. Room for five deeds is promised.
///
/// An inner `Err` says that there can be no entry; nothing was done then.
///
/// `Fault` is a write or a barrier of the entry that failed, which halted the run; `Halted` names
/// the device that had halted it before. At `Memory` there was none for the entry, or another entry
/// was cut off behind its seal, and this seat hasn't heard of a halt; nothing was done. At `Outside`
/// the journal ends behind the device, and nothing was done. The seat knows of its places what it
/// knew.
pub fn give_up<C: Disk + Drop, B: Disk + Drop, R: Wait>(
    rt: &R,
    alloc: Global,
    parts: &CoreParts<C, B>,
    seat: &mut CoreSeat<C, B>,
    hand: &mut Hand<C, B>,
    low: u64,
) -> Result<Result<(), NoEntry>, FlushError>
    requires works { Works C.facts B.facts parts.now seat.old hand.old }
    requires empty { hand.old ≡ empty }
    requires cached { are_plain C.facts B.facts parts.now.run.start ≡ false }
    requires promise { 5 ≤ seat.old.promises }
    requires needs { FromEach (world C.facts B.facts seat.old) (λ o st. NeedsFrom low st) }
    ensures works { Works C.facts B.facts parts.now seat.new hand.new }
    ensures empty { hand.new ≡ empty }
    ensures left { seat.old.promises ≤ seat.new.promises + 5 }
    ensures ok { IfOk result (λ answer. HasOrNot C.facts B.facts low answer seat.old seat.new) }
    ensures keeps { KeepsPlaces C.facts B.facts seat.old seat.new }
    ensures memory { IfErr result (λ error. error ≡ FlushError.Memory → seat.new.heard ≡ None) }
    ensures err { IfErr result (λ error. HasNotSynced C.facts B.facts
        (cache_among C.facts B.facts parts.now.run.start).sectors error seat.old seat.new) }
{
    let (journal, _) = borrow_journal(rt, parts, seat, hand);
    return_journal(parts, seat, hand, journal, false);
    let done = give_in(rt, alloc, parts, seat, hand, low);
    let Some(journal) = hand.journal.take() else {
        unreachable!()
    };
    return_journal(parts, seat, hand, journal, true);
    done
}

// The same, of the journal in hand.
fn give_in<C: Disk + Drop, B: Disk + Drop, R: Wait>(
    rt: &R,
    alloc: Global,
    parts: &CoreParts<C, B>,
    seat: &mut CoreSeat<C, B>,
    hand: &mut Hand<C, B>,
    low: u64,
) -> Result<Result<(), NoEntry>, FlushError>
    requires works { Works C.facts B.facts parts.now seat.old hand.old }
    requires hand { kinds hand.old ≡ journal_alone }
    requires cached { are_plain C.facts B.facts parts.now.run.start ≡ false }
    requires promise { 5 ≤ seat.old.promises }
    requires needs { FromEach (world C.facts B.facts seat.old) (λ o st. NeedsFrom low st) }
    ensures works { Works C.facts B.facts parts.now seat.new hand.new }
    ensures hand { kinds hand.new ≡ journal_alone }
    ensures left { seat.old.promises ≤ seat.new.promises + 5 }
    ensures ok { IfOk result (λ answer. HasOrNot C.facts B.facts low answer seat.old seat.new) }
    ensures memory { IfErr result (λ error. error ≡ FlushError.Memory → seat.new.heard ≡ None) }
    ensures err { IfErr result (λ error. HasNotSynced C.facts B.facts
        (cache_among C.facts B.facts parts.now.run.start).sectors error seat.old seat.new) }
{
    let Some(journal) = &hand.journal else {
        unreachable!()
    };
    if journal.get().sealed().is_some() {
        if let Some(device) = seat.heard() {
            return Err(FlushError::Halted(device));
        }
        return Err(FlushError::Memory);
    }
    if journal.get().number() >= NUMBERS_END {
        return Ok(Err(NoEntry::Number));
    }
    if !journal.get().room(0) {
        return Ok(Err(NoEntry::Place));
    }
    need_from(hand, low);
    match put_ready(rt, alloc, parts, seat, hand, low) {
        Ok(()) => Ok(Ok(())),
        Err(error) => Err(error),
    }
}

// Puts the entry, with or without keys, for which the journal in hand has a number and a place.
fn put_ready<C: Disk + Drop, B: Disk + Drop, R: Wait>(
    rt: &R,
    alloc: Global,
    parts: &CoreParts<C, B>,
    seat: &mut CoreSeat<C, B>,
    hand: &mut Hand<C, B>,
    low: u64,
) -> Result<(), FlushError>
    requires works { Works C.facts B.facts parts.now seat.old hand.old }
    requires hand { kinds hand.old ≡ journal_alone }
    requires cached { are_plain C.facts B.facts parts.now.run.start ≡ false }
    requires promise { 5 ≤ seat.old.promises }
    requires ready { IsReady C.facts B.facts low hand.old seat.old }
    ensures works { Works C.facts B.facts parts.now seat.new hand.new }
    ensures left { seat.old.promises ≤ seat.new.promises + 5 }
    ensures hand { kinds hand.new ≡ journal_alone }
    ensures ok { OnOk result (HasGivenUp C.facts B.facts low seat.old seat.new) }
    ensures memory { IfErr result (λ error. error ≡ FlushError.Memory → seat.new.heard ≡ None) }
    ensures err { IfErr result (λ error. HasNotSynced C.facts B.facts
        (cache_among C.facts B.facts parts.now.run.start).sectors error seat.old seat.new) }
{
    let (cache, _) = borrow_cache(rt, parts, seat, hand);
    return_cache(parts, seat, hand, cache, false);
    let done = put_within(rt, alloc, parts, seat, hand, low);
    let Some(cache) = hand.cache.take() else {
        unreachable!()
    };
    return_cache(parts, seat, hand, cache, true);
    done
}

// The same, with the cache device in hand too, where the journal lies on it.
fn put_within<C: Disk + Drop, B: Disk + Drop, R: Wait>(
    rt: &R,
    alloc: Global,
    parts: &CoreParts<C, B>,
    seat: &mut CoreSeat<C, B>,
    hand: &mut Hand<C, B>,
    low: u64,
) -> Result<(), FlushError>
    requires works { Works C.facts B.facts parts.now seat.old hand.old }
    requires hand { kinds hand.old ≡ journal_and_cache }
    requires cached { are_plain C.facts B.facts parts.now.run.start ≡ false }
    requires promise { 5 ≤ seat.old.promises }
    requires ready { IsReady C.facts B.facts low hand.old seat.old }
    ensures works { Works C.facts B.facts parts.now seat.new hand.new }
    ensures left { seat.old.promises ≤ seat.new.promises + 5 }
    ensures hand { kinds hand.new ≡ journal_and_cache }
    ensures ok { OnOk result (HasGivenUp C.facts B.facts low seat.old seat.new) }
    ensures memory { IfErr result (λ error. error ≡ FlushError.Memory → seat.new.heard ≡ None) }
    ensures err { IfErr result (λ error. HasNotSynced C.facts B.facts
        (cache_among C.facts B.facts parts.now.run.start).sectors error seat.old seat.new) }
{
    let _ = low;
    if !is_within(hand) {
        return Err(FlushError::Outside);
    }
    match put_entry(rt, alloc, parts, seat, hand) {
        Ok(()) => Ok(()),
        Err(error) => Err(refused(or_halt(seat, error))),
    }
}

// Whether all buckets of the journal in hand lie on the cache device in hand.
fn is_within<C: Disk, B>(hand: &Hand<C, B>) -> bool
    requires both { HasJournalAndCache hand.now }
    ensures { (j : Journal) (c : C) → hand.now.journal ≡ Some j → hand.now.cache ≡ Some c
        → result ≡ nat_le (j.ring.geometry.bucket * j.ring.geometry.nbuckets)
        (C.facts c).sectors }
{
    let Some(journal) = &hand.journal else {
        unreachable!()
    };
    let Some(cache) = &hand.cache else {
        unreachable!()
    };
    let g = journal.get().ring().geometry();
    u64::from(g.bucket) * u64::from(g.nbuckets) <= cache.sectors()
}
