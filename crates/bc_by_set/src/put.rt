//! The set, with the journal and the cache device taken for it alone.
ghost use Rattle.std.specs.Prelude.{◌≡◌, ◌↔◌, ◌+◌, ◌≤◌, ℕ, List, [], false, length, None, Some, IfErr, IfNone, IfOk, IfSome, IsTrue};
ghost use Rattle.bc_by_root.specs.Done.{IsToInstall};
ghost use Rattle.bc_by_root.specs.bc_install.bc_append.bc_place.Written.{KeepsPlaces};
ghost use Rattle.bc_by_root.specs.bc_install.bc_deed.Flushed.{HasDone};
ghost use Rattle.bc_by_root.specs.bc_install.bc_entry.Entry.{HasJournalAndCache};
ghost use Rattle.bc_by_root.specs.bc_install.bc_hand.Seats.{HasNoneBehindLeaves, Works, kinds, world};
ghost use Rattle.bc_by_root.specs.bc_install.bc_machine.World.{are_plain, cache_among};
ghost use Rattle.bc_by_root.specs.bc_install.bc_machine.declared.part.SpinePart.{SpinePart};
ghost use Rattle.bc_by_set.specs.Done.{HasNotPutSet, HasPutSet, IsNoSet, IsUnheardSet, KeepsPromisesSet, MayAgainSet};
ghost use Rattle.bc_by_set.specs.Given.{CanSet, HasTreeToSet, LiesWithin, MayChangeBySet};
ghost use Rattle.bc_by_set.specs.Prepared.{IsPreparedSet};
ghost use Rattle.bc_inner.specs.Inner.{Inner as InnerSeen};
ghost use Rattle.bc_journal.specs.Journal.{Journal as JournalSeen};
ghost use Rattle.bc_key.specs.declared.key.Key.{Key as KeySeen};
ghost use Rattle.bc_by_root.specs.bc_install.bc_parent_set.Takes.{IsTaker};
ghost use Rattle.bc_tree.specs.Plan.{Fits};
ghost use Rattle.bc_tree.specs.declared.plan.Plan.{Plan as PlanSeen};

use crate::error::{BySetError, NoSet};
use crate::prepare::{PreparedSet, prepare_set};
use bc_by_root::bc_install::bc_entry::barrier::cache_barrier;
use bc_by_root::bc_install::bc_hand::error::StepError;
use bc_by_root::bc_install::bc_hand::hand::Hand;
use bc_by_root::bc_install::bc_hand::lend::{
    borrow_cache, borrow_journal, return_cache, return_journal,
};
use bc_by_root::bc_install::bc_machine::machine::{CoreParts, CoreSeat};
use bc_by_root::bc_install::bc_parent_set::write::{taker_of, write_parent_set};
use bc_by_root::pending::are_durable_to;
use bc_by_root::prepare::Installing;
use bc_disk::disk::Disk;
use bc_disk::geometry::Geometry;
use bc_inner::Inner;
use bc_tree::{Plan, Spine};
use std::alloc::{AllocError, Global};
use std::sync::Wait;

/// Makes a planned change of the tree by a further set of one of its nodes: the journal and the
/// cache device are taken, the set is written with a barrier behind it, and both are given back.
/// The tree and the leaves that go are in hand, and stay so. The answer is what an install of the
/// change takes.
///
/// At `NotBegun` nothing was done, and it may be tried again, since the plan stays with its caller.
/// At `Set` the tree in memory is as it was, and at `Barrier` the node has the set, as it has at
/// `Ok`. Whatever comes, the seat keeps its places.
pub fn put_set<C: Disk + Drop, B: Disk + Drop, R: Wait>(
    rt: &R,
    alloc: Global,
    parts: &CoreParts<C, B>,
    seat: &mut CoreSeat<C, B>,
    hand: &mut Hand<C, B>,
    plan: &Plan,
) -> Result<Installing, BySetError>
    requires works { Works C.facts B.facts parts.now seat.old hand.old }
    requires cached { are_plain C.facts B.facts parts.now.run.start ≡ false }
    requires promise { 2 ≤ seat.old.promises }
    requires behind { HasNoneBehindLeaves hand.old }
    requires may { MayChangeBySet hand.old (length parts.now.run.start) seat.old.first plan.now
        (world C.facts B.facts seat.old) }
    ensures works { Works C.facts B.facts parts.now seat.new hand.new }
    ensures kinds { kinds hand.new ≡ kinds hand.old }
    ensures behind { HasNoneBehindLeaves hand.new }
    ensures left { seat.old.promises ≤ seat.new.promises + 2 }
    ensures ok { IfOk result (λ given. HasPutSet C.facts B.facts hand.old hand.new plan.now given
        seat.old seat.new) }
    ensures may { IfOk result (λ given. IsToInstall hand.new (length parts.now.run.start)
        seat.new.first plan.now given (world C.facts B.facts seat.new)) }
    ensures twice { IfOk result (λ given. (given.made.items ≡ given.come.items)
        × (given.unmade.items ≡ given.gone.items)) }
    ensures err { IfErr result (λ error. HasNotPutSet C.facts B.facts
        (cache_among C.facts B.facts parts.now.run.start).sectors hand.old hand.new plan.now error
        seat.old seat.new) }
    ensures unheard { IfErr result (λ error. IsUnheardSet error seat.new.heard) }
    ensures again { IfErr result (λ error. MayAgainSet error hand.new (length parts.now.run.start)
        seat.new.first plan.now (world C.facts B.facts seat.new)) }
    ensures kept { IfErr result (λ error. KeepsPromisesSet error seat.old.promises
        seat.new.promises) }
    ensures places { KeepsPlaces C.facts B.facts seat.old seat.new }
{
    take_both(rt, parts, seat, hand);
    let done = put_within(rt, alloc, parts, seat, hand, plan);
    give_both(parts, seat, hand);
    done
}

// Takes the journal and the cache device.
fn take_both<C: Disk + Drop, B: Disk + Drop, R: Wait>(
    rt: &R,
    parts: &CoreParts<C, B>,
    seat: &mut CoreSeat<C, B>,
    hand: &mut Hand<C, B>,
)
    requires works { Works C.facts B.facts parts.now seat.old hand.old }
    requires cached { are_plain C.facts B.facts parts.now.run.start ≡ false }
    requires behind { HasNoneBehindLeaves hand.old }
    requires tree { (p : SpinePart) × (hand.old.spine ≡ Some p) }
    ensures works { Works C.facts B.facts parts.now seat.new hand.new }
    ensures both { HasJournalAndCache hand.new }
    ensures hand { hand.new ≡ record hand.old {
      journal = hand.new.journal;
      cache = hand.new.cache;
    } }
    ensures waited { HasDone C.facts B.facts [] seat.old seat.new }
    ensures promises { seat.new.promises ≡ seat.old.promises }
    ensures may { (plan : PlanSeen) → MayChangeBySet hand.old (length parts.now.run.start)
        seat.old.first plan (world C.facts B.facts seat.old)
        → MayChangeBySet hand.new (length parts.now.run.start) seat.new.first plan
        (world C.facts B.facts seat.new) }
{
    let (journal, _) = borrow_journal(rt, parts, seat, hand);
    return_journal(parts, seat, hand, journal, false);
    let (cache, _) = borrow_cache(rt, parts, seat, hand);
    return_cache(parts, seat, hand, cache, false);
}

// Gives both back.
fn give_both<C: Disk + Drop, B: Disk + Drop>(
    parts: &CoreParts<C, B>,
    seat: &mut CoreSeat<C, B>,
    hand: &mut Hand<C, B>,
)
    requires works { Works C.facts B.facts parts.now seat.old hand.old }
    requires both { HasJournalAndCache hand.old }
    ensures works { Works C.facts B.facts parts.now seat.new hand.new }
    ensures hand { hand.new ≡ record hand.old { journal = None; cache = None } }
    ensures waited { HasDone C.facts B.facts [] seat.old seat.new }
    ensures promises { seat.new.promises ≡ seat.old.promises }
    ensures seen { seat.new.seen ≡ seat.old.seen }
    ensures heard { seat.new.heard ≡ seat.old.heard }
    ensures stays { world C.facts B.facts seat.new ≡ world C.facts B.facts seat.old }
{
    let Some(cache) = hand.cache.take() else {
        unreachable!()
    };
    return_cache(parts, seat, hand, cache, true);
    let Some(journal) = hand.journal.take() else {
        unreachable!()
    };
    return_journal(parts, seat, hand, journal, true);
}

// The same, with the journal and the cache device in hand.
fn put_within<C: Disk + Drop, B: Disk + Drop, R: Wait>(
    rt: &R,
    alloc: Global,
    parts: &CoreParts<C, B>,
    seat: &mut CoreSeat<C, B>,
    hand: &mut Hand<C, B>,
    plan: &Plan,
) -> Result<Installing, BySetError>
    requires works { Works C.facts B.facts parts.now seat.old hand.old }
    requires cached { are_plain C.facts B.facts parts.now.run.start ≡ false }
    requires promise { 2 ≤ seat.old.promises }
    requires hand { HasJournalAndCache hand.old }
    requires may { MayChangeBySet hand.old (length parts.now.run.start) seat.old.first plan.now
        (world C.facts B.facts seat.old) }
    ensures works { Works C.facts B.facts parts.now seat.new hand.new }
    ensures kinds { kinds hand.new ≡ kinds hand.old }
    ensures rest { hand.new ≡ record hand.old {
      spine = hand.new.spine;
      cache = hand.new.cache;
    } }
    ensures left { seat.old.promises ≤ seat.new.promises + 2 }
    ensures ok { IfOk result (λ given. HasPutSet C.facts B.facts hand.old
        (record hand.new { cache = hand.old.cache }) plan.now given seat.old seat.new) }
    ensures may { IfOk result (λ given. IsToInstall hand.new (length parts.now.run.start)
        seat.new.first plan.now given (world C.facts B.facts seat.new)) }
    ensures twice { IfOk result (λ given. (given.made.items ≡ given.come.items)
        × (given.unmade.items ≡ given.gone.items)) }
    ensures err { IfErr result (λ error. HasNotPutSet C.facts B.facts
        (cache_among C.facts B.facts parts.now.run.start).sectors hand.old
        (record hand.new { cache = hand.old.cache }) plan.now error seat.old seat.new) }
    ensures unheard { IfErr result (λ error. IsUnheardSet error seat.new.heard) }
    ensures again { IfErr result (λ error. MayAgainSet error hand.new (length parts.now.run.start)
        seat.new.first plan.now (world C.facts B.facts seat.new)) }
    ensures kept { IfErr result (λ error. KeepsPromisesSet error seat.old.promises
        seat.new.promises) }
    ensures places { KeepsPlaces C.facts B.facts seat.old seat.new }
{
    if let Some(device) = seat.heard() {
        return Err(BySetError::Set(StepError::Halted(device)));
    }
    if let Some(why) = why_not(hand, plan) {
        return Err(BySetError::NotBegun(why));
    }
    let Ok(prepared) = prepare_in(alloc, hand, plan) else {
        return Err(BySetError::NotBegun(NoSet::Memory));
    };
    let PreparedSet {
        slot,
        change,
        room,
        later,
    } = prepared;
    match write_parent_set(rt, parts, seat, hand, plan, slot, change, room) {
        Ok(()) => {}
        Err(error) => return Err(BySetError::Set(error)),
    }
    match cache_barrier(rt, parts, seat, hand) {
        Ok(()) => Ok(later),
        Err(error) => Err(BySetError::Barrier(error)),
    }
}

// All memory, of the tree and the journal in hand.
fn prepare_in<C, B>(
    alloc: Global,
    hand: &Hand<C, B>,
    plan: &Plan,
) -> Result<PreparedSet, AllocError>
    requires tree { HasTreeToSet hand.now plan.now }
    requires journal { (j : JournalSeen) × (hand.now.journal ≡ Some j) }
    ensures { IfOk result (λ p. (s : SpinePart) (j : JournalSeen) (at : ℕ) (taker : InnerSeen)
        (put : List KeySeen) → hand.now.spine ≡ Some s → hand.now.journal ≡ Some j
        → IsTaker s.spine plan.now at taker put
        → IsPreparedSet j.ring.geometry s.spine plan.now taker p) }
{
    let Some(spine) = &hand.spine else {
        unreachable!()
    };
    let Some(journal) = &hand.journal else {
        unreachable!()
    };
    let journal = journal.get();
    prepare_set(alloc, journal.ring().geometry(), &spine.get().spine, plan)
}

// Whether a node ends within a device of so many sectors.
fn ends_within(g: &Geometry, node: &Inner, sectors: u64) -> bool
    ensures { IsTrue result ↔ (node.now.ptr.offset + g.now.node_sectors ≤ sectors) }
{
    node.ptr().offset + u64::from(g.node_sectors) <= sectors
}

// Whether the one that takes the set does.
fn lies_within(spine: &Spine, plan: &Plan, sectors: u64) -> bool
    requires takes { (at : ℕ) × (taker : InnerSeen) × (put : List KeySeen)
        × IsTaker spine.now plan.now at taker put }
    requires fits { Fits spine.now plan.now }
    ensures { (at : ℕ) (taker : InnerSeen) (put : List KeySeen)
        → IsTaker spine.now plan.now at taker put
        → IsTrue result ↔ LiesWithin sectors spine.now taker }
{
    let (taker, _) = taker_of(spine, plan);
    ends_within(spine.geometry(), taker, sectors)
}

// Why the set can't be written, if that is so.
fn why_not<C: Disk, B>(hand: &Hand<C, B>, plan: &Plan) -> Option<NoSet>
    requires both { HasJournalAndCache hand.now }
    requires tree { HasTreeToSet hand.now plan.now }
    ensures some { (j : JournalSeen) (c : C) → hand.now.journal ≡ Some j
        → hand.now.cache ≡ Some c
        → IfSome result (λ why. IsNoSet (C.facts c).sectors hand.now plan.now why j) }
    ensures none { (j : JournalSeen) (c : C) → hand.now.journal ≡ Some j
        → hand.now.cache ≡ Some c
        → IfNone result (CanSet (C.facts c).sectors hand.now plan.now j) }
{
    let Some(journal) = &hand.journal else {
        unreachable!()
    };
    let Some(cache) = &hand.cache else {
        unreachable!()
    };
    let Some(spine) = &hand.spine else {
        unreachable!()
    };
    let Some(leaves) = &hand.leaves else {
        unreachable!()
    };
    let journal = journal.get();
    let tree = &spine.get().spine;
    if !lies_within(tree, plan, cache.sectors()) {
        return Some(NoSet::Outside);
    }
    if !are_durable_to(&leaves.cache, tree, &plan.leaves, journal.durable()) {
        return Some(NoSet::Pending);
    }
    None
}
