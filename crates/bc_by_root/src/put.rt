//! The entry with a new root, with the journal and the cache device taken for it alone.
ghost use Rattle.std.specs.Prelude.{◌≡◌, ◌+◌, ◌≤◌, false, length, Some, IfErr, IfNone, IfOk, IfSome};
ghost use Rattle.bc_by_root.specs.Done.{HasNotPut, HasPut, IsNoEntry, IsToInstall, IsUnheardAt, IsWhy, KeepsPromises, MayAgain, refused_by};
ghost use Rattle.bc_by_root.specs.Given.{CanPut, HasTreeFor, MayChange};
ghost use Rattle.bc_by_root.specs.Prepared.{IsPrepared};
ghost use Rattle.bc_install.specs.bc_append.bc_place.Written.{KeepsPlaces};
ghost use Rattle.bc_install.specs.bc_change.Goes.{BringsRoot};
ghost use Rattle.bc_install.specs.bc_entry.Entry.{HasJournalAndCache};
ghost use Rattle.bc_install.specs.bc_entry.Seal.{CanSeal};
ghost use Rattle.bc_install.specs.bc_hand.Seats.{HasNoneBehindLeaves, Works, world};
ghost use Rattle.bc_install.specs.bc_machine.World.{are_plain, cache_among};
ghost use Rattle.bc_install.specs.bc_machine.declared.part.SpinePart.{SpinePart};
ghost use Rattle.bc_inner.specs.Inner.{Inner};
ghost use Rattle.bc_journal.specs.Journal.{Journal as JournalSeen};

use crate::error::{ByRootError, NotBegun};
use crate::pending::are_durable_to;
use crate::prepare::{Installing, Prepared, prepare};
use bc_disk::disk::Disk;
use bc_install::bc_hand::error::StepError;
use bc_install::bc_hand::hand::Hand;
use bc_install::bc_hand::lend::{borrow_cache, borrow_journal, return_cache, return_journal};
use bc_install::bc_machine::machine::{CoreParts, CoreSeat};
use bc_install::root::put_root_entry;
use bc_journal::Journal;
use bc_tree::Plan;
use std::alloc::{AllocError, Global};
use std::sync::Wait;

/// The numbers of entries end here: none has this one.
const NUMBERS_END: u64 = 1 << 63;

/// Makes a planned change of the tree by an entry with a new root: the journal and the cache device
/// are taken, the entry is put, and both are given back. The tree and the leaves that go are in
/// hand, and stay so. The answer is what an install of the change takes.
///
/// At `NotBegun` nothing was done, and it may be tried again, since the plan stays with its caller.
/// At `Entry` the seat's own deeds tell how far the entry came, and the step's error which call
/// failed, or which device had halted the run. Whatever comes, the seat keeps its places.
pub fn put_root<C: Disk + Drop, B: Disk + Drop, R: Wait>(
    rt: &R,
    alloc: Global,
    parts: &CoreParts<C, B>,
    seat: &mut CoreSeat<C, B>,
    hand: &mut Hand<C, B>,
    plan: &Plan,
) -> Result<Installing, ByRootError>
    requires works { Works C.facts B.facts parts.now seat.old hand.old }
    requires cached { are_plain C.facts B.facts parts.now.run.start ≡ false }
    requires promise { 5 ≤ seat.old.promises }
    requires behind { HasNoneBehindLeaves hand.old }
    requires may { MayChange hand.old (length parts.now.run.start) seat.old.first plan.now
        (world C.facts B.facts seat.old) }
    ensures works { Works C.facts B.facts parts.now seat.new hand.new }
    ensures same { hand.new ≡ hand.old }
    ensures left { seat.old.promises ≤ seat.new.promises + 5 }
    ensures ok { IfOk result (λ given. HasPut C.facts B.facts hand.old plan.now given seat.old
        seat.new) }
    ensures may { IfOk result (λ given. IsToInstall hand.old (length parts.now.run.start)
        seat.old.first plan.now given (world C.facts B.facts seat.new)) }
    ensures twice { IfOk result (λ given. (given.made.items ≡ given.come.items)
        × (given.unmade.items ≡ given.gone.items)) }
    ensures err { IfErr result (λ error. HasNotPut C.facts B.facts
        (cache_among C.facts B.facts parts.now.run.start).sectors hand.old plan.now error seat.old
        seat.new) }
    ensures unheard { IfErr result (λ error. IsUnheardAt error seat.new.heard) }
    ensures again { IfErr result (λ error. MayAgain error hand.new (length parts.now.run.start)
        seat.new.first plan.now (world C.facts B.facts seat.new)) }
    ensures kept { IfErr result (λ error. KeepsPromises error seat.old.promises
        seat.new.promises) }
    ensures places { KeepsPlaces C.facts B.facts seat.old seat.new }
{
    let (journal, _) = borrow_journal(rt, parts, seat, hand);
    return_journal(parts, seat, hand, journal, false);
    let (cache, _) = borrow_cache(rt, parts, seat, hand);
    return_cache(parts, seat, hand, cache, false);
    let done = put_within(rt, alloc, parts, seat, hand, plan);
    let Some(cache) = hand.cache.take() else {
        unreachable!()
    };
    return_cache(parts, seat, hand, cache, true);
    let Some(journal) = hand.journal.take() else {
        unreachable!()
    };
    return_journal(parts, seat, hand, journal, true);
    done
}

// The same, with the journal and the cache device in hand.
fn put_within<C: Disk + Drop, B: Disk + Drop, R: Wait>(
    rt: &R,
    alloc: Global,
    parts: &CoreParts<C, B>,
    seat: &mut CoreSeat<C, B>,
    hand: &mut Hand<C, B>,
    plan: &Plan,
) -> Result<Installing, ByRootError>
    requires works { Works C.facts B.facts parts.now seat.old hand.old }
    requires cached { are_plain C.facts B.facts parts.now.run.start ≡ false }
    requires promise { 5 ≤ seat.old.promises }
    requires hand { HasJournalAndCache hand.old }
    requires may { MayChange hand.old (length parts.now.run.start) seat.old.first plan.now
        (world C.facts B.facts seat.old) }
    ensures works { Works C.facts B.facts parts.now seat.new hand.new }
    ensures hand { HasJournalAndCache hand.new }
    ensures rest { hand.new ≡ record hand.old {
      journal = hand.new.journal;
      cache = hand.new.cache;
    } }
    ensures left { seat.old.promises ≤ seat.new.promises + 5 }
    ensures ok { IfOk result (λ given. HasPut C.facts B.facts hand.old plan.now given seat.old
        seat.new) }
    ensures may { IfOk result (λ given. IsToInstall hand.old (length parts.now.run.start)
        seat.old.first plan.now given (world C.facts B.facts seat.new)) }
    ensures twice { IfOk result (λ given. (given.made.items ≡ given.come.items)
        × (given.unmade.items ≡ given.gone.items)) }
    ensures err { IfErr result (λ error. HasNotPut C.facts B.facts
        (cache_among C.facts B.facts parts.now.run.start).sectors hand.old plan.now error seat.old
        seat.new) }
    ensures unheard { IfErr result (λ error. IsUnheardAt error seat.new.heard) }
    ensures again { IfErr result (λ error. MayAgain error hand.new (length parts.now.run.start)
        seat.new.first plan.now (world C.facts B.facts seat.new)) }
    ensures kept { IfErr result (λ error. KeepsPromises error seat.old.promises
        seat.new.promises) }
    ensures places { KeepsPlaces C.facts B.facts seat.old seat.new }
{
    if let Some(device) = seat.heard() {
        return Err(ByRootError::Entry(StepError::Halted(device)));
    }
    if let Some(why) = why_not(hand, plan) {
        return Err(ByRootError::NotBegun(why));
    }
    let Ok(prepared) = prepare_in(alloc, hand, plan) else {
        return Err(ByRootError::NotBegun(NotBegun::Memory));
    };
    let Prepared {
        heads,
        slot,
        change,
        later,
    } = prepared;
    match put_root_entry(rt, alloc, parts, seat, hand, plan, &heads, slot, change) {
        Ok(()) => Ok(later),
        Err(error) => Err(refused(error)),
    }
}

// What a step's error is as one of the change: for want of memory no entry was begun.
fn refused(error: StepError) -> ByRootError
    ensures { result ≡ refused_by error }
{
    match error {
        StepError::Fault(device) => ByRootError::Entry(StepError::Fault(device)),
        StepError::Halted(device) => ByRootError::Entry(StepError::Halted(device)),
        StepError::Memory => ByRootError::NotBegun(NotBegun::Memory),
    }
}

// All memory, of the tree and the journal in hand.
fn prepare_in<C, B>(alloc: Global, hand: &Hand<C, B>, plan: &Plan) -> Result<Prepared, AllocError>
    requires tree { HasTreeFor hand.now plan.now }
    requires journal { (j : JournalSeen) × (hand.now.journal ≡ Some j) }
    ensures { IfOk result (λ p. (s : SpinePart) (j : JournalSeen) (root : Inner)
        → hand.now.spine ≡ Some s → hand.now.journal ≡ Some j → BringsRoot s.spine plan.now root
        → IsPrepared j.ring.geometry s.spine plan.now root j.heads p) }
{
    let Some(spine) = &hand.spine else {
        unreachable!()
    };
    let Some(journal) = &hand.journal else {
        unreachable!()
    };
    let journal = journal.get();
    prepare(
        alloc,
        journal.ring().geometry(),
        &spine.get().spine,
        plan,
        journal.heads(),
    )
}

// Why there can be no entry, if that is so.
fn no_entry(journal: &Journal) -> Option<NotBegun>
    ensures some { IfSome result (λ why. IsNoEntry why journal.now) }
    ensures none { IfNone result (CanSeal journal.now) }
{
    if journal.sealed().is_some() {
        return Some(NotBegun::Unwritten);
    }
    if journal.number() >= NUMBERS_END {
        return Some(NotBegun::Number);
    }
    if !journal.room(0) {
        return Some(NotBegun::Place);
    }
    None
}

// Why the entry that makes the change can't be put, if that is so.
fn why_not<C: Disk, B>(hand: &Hand<C, B>, plan: &Plan) -> Option<NotBegun>
    requires both { HasJournalAndCache hand.now }
    requires tree { HasTreeFor hand.now plan.now }
    ensures some { (j : JournalSeen) (c : C) → hand.now.journal ≡ Some j
        → hand.now.cache ≡ Some c
        → IfSome result (λ why. IsWhy (C.facts c).sectors hand.now plan.now why j) }
    ensures none { (j : JournalSeen) (c : C) → hand.now.journal ≡ Some j
        → hand.now.cache ≡ Some c
        → IfNone result (CanPut (C.facts c).sectors hand.now plan.now j) }
{
    let Some(journal) = &hand.journal else {
        unreachable!()
    };
    let Some(cache) = &hand.cache else {
        unreachable!()
    };
    let Some(spine) = &hand.spine else {
        unreachable!()
    };
    let Some(leaves) = &hand.leaves else {
        unreachable!()
    };
    let journal = journal.get();
    if let Some(why) = no_entry(journal) {
        return Some(why);
    }
    let g = journal.ring().geometry();
    if u64::from(g.bucket) * u64::from(g.nbuckets) > cache.sectors() {
        return Some(NotBegun::Outside);
    }
    let tree = &spine.get().spine;
    if !are_durable_to(&leaves.cache, tree, &plan.leaves, journal.durable()) {
        return Some(NotBegun::Pending);
    }
    None
}
