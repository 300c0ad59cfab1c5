//! A trace round as one sequence.
ghost use Rattle.std.specs.Prelude.{◌≡◌, ◌↔◌, ◌+◌, ◌<◌, ◌≤◌, ◌^◌, [], false, true, Some, length, IsTrue, IfErr, OnOk};
ghost use Rattle.bc_events.specs.declared.event.MarkForm.TheVariants as mark;
ghost use Rattle.bc_leaf_walk.specs.bc_deed.Asked.{size_of};
ghost use Rattle.bc_leaf_walk.specs.bc_deed.Flushed.{HasDone};
ghost use Rattle.bc_leaf_walk.specs.bc_hand.Seats.{Works, empty, kinds, world};
ghost use Rattle.bc_leaf_walk.specs.bc_machine.World.{FromEach, are_plain, cache_among};
ghost use Rattle.bc_leaf_walk.specs.bc_machine.declared.part.BucketsPart.{BucketsPart};
ghost use Rattle.bc_leaf_walk.specs.bc_place.Place.{HasBefore};
ghost use Rattle.bc_leaf_walk.specs.bc_place.Written.{KeepsPlaces};
ghost use Rattle.bc_trace.specs.Trace.{GivesUp, HasGone, HasNotTraced, HasStopped, HasTraced, buckets_and_journal};

use crate::error::{TraceError, missed};
use crate::hands::{give_buckets, give_journal, take_buckets, take_journal};
use crate::settle::settle;
use crate::walk::all_leaves;
use bc_disk::disk::Disk;
use bc_leaf_walk::bc_deed::promise::promise;
use bc_leaf_walk::bc_hand::hand::{Hand, borrow_backing, return_backing};
use bc_leaf_walk::bc_machine::machine::{CoreParts, CoreSeat};
use bc_leaf_walk::bc_mark::round::{begin_round, drop_round, end_round};
use bc_worker::gate::Gate;
use std::alloc::Global;
use std::sync::Wait;

// How many sectors the run's data has on the backing device.
fn data_size<C: Disk + Drop, B: Disk + Drop, R: Wait>(
    rt: &R,
    parts: &CoreParts<C, B>,
    seat: &mut CoreSeat<C, B>,
) -> u64
    requires works { Works C.facts B.facts parts.now seat.old empty }
    ensures works { Works C.facts B.facts parts.now seat.new empty }
    ensures left { seat.new.promises ≡ seat.old.promises }
    ensures done { HasDone C.facts B.facts [] seat.old seat.new }
    ensures size { result ≡ size_of C.facts B.facts parts.now.run.start }
{
    let mut hand = Hand::empty();
    let (backing, _taken) = borrow_backing(rt, parts, seat, &mut hand);
    let size = backing.size;
    return_backing(parts, seat, &mut hand, backing, true);
    size
}

// Whether a round is open in the buckets in hand.
fn is_open<C, B>(hand: &Hand<C, B>) -> bool
    requires { (part : BucketsPart) × (hand.now.buckets ≡ Some part) }
    ensures { (part : BucketsPart) → hand.now.buckets ≡ Some part → result ≡ part.round.going }
{
    let Some(buckets) = &hand.buckets else {
        unreachable!()
    };
    buckets.get().round.going
}

// Whether a round is open in the buckets in hand that has come behind so many sectors.
fn came_behind<C, B>(hand: &Hand<C, B>, size: u64) -> bool
    requires { (part : BucketsPart) × (hand.now.buckets ≡ Some part) }
    ensures { (part : BucketsPart) → hand.now.buckets ≡ Some part
        → IsTrue result ↔ ((part.round.going ≡ true) × (size ≤ part.round.next)) }
{
    let Some(buckets) = &hand.buckets else {
        unreachable!()
    };
    buckets.get().round.going && size <= buckets.get().round.next
}

// Begins a round, with the buckets alone in hand.
fn begin_it<C: Disk + Drop, B: Disk + Drop, R: Wait>(
    rt: &R,
    parts: &CoreParts<C, B>,
    seat: &mut CoreSeat<C, B>,
    hand: &mut Hand<C, B>,
) -> Result<(), TraceError>
    requires works { Works C.facts B.facts parts.now seat.old hand.old }
    requires cached { are_plain C.facts B.facts parts.now.run.start ≡ false }
    requires promise { 0 < seat.old.promises }
    requires has { (part : BucketsPart) × (hand.old.buckets ≡ Some part) }
    ensures works { Works C.facts B.facts parts.now seat.new hand.new }
    ensures has { (part : BucketsPart) × (hand.new ≡ record hand.old { buckets = Some part }) }
    ensures left { seat.old.promises ≤ seat.new.promises + 1 }
    ensures ok { OnOk result (HasGone C.facts B.facts seat.old seat.new) }
    ensures err { IfErr result (λ error. HasStopped C.facts B.facts
        (cache_among C.facts B.facts parts.now.run.start).sectors error seat.old seat.new) }
{
    if is_open(hand) {
        return Err(TraceError::Open);
    }
    match begin_round(rt, parts, seat, hand) {
        Ok(()) => Ok(()),
        Err(error) => Err(TraceError::Step(error)),
    }
}

// The same, with an empty hand.
fn begin<C: Disk + Drop, B: Disk + Drop, R: Wait>(
    rt: &R,
    parts: &CoreParts<C, B>,
    seat: &mut CoreSeat<C, B>,
) -> Result<(), TraceError>
    requires works { Works C.facts B.facts parts.now seat.old empty }
    requires cached { are_plain C.facts B.facts parts.now.run.start ≡ false }
    ensures works { Works C.facts B.facts parts.now seat.new empty }
    ensures left { seat.old.promises ≤ seat.new.promises }
    ensures ok { OnOk result (HasGone C.facts B.facts seat.old seat.new) }
    ensures err { IfErr result (λ error. HasStopped C.facts B.facts
        (cache_among C.facts B.facts parts.now.run.start).sectors error seat.old seat.new) }
{
    let mut hand = Hand::empty();
    let hand = &mut hand;
    let Ok(()) = promise(rt, parts, seat, hand, 1) else {
        return Err(TraceError::Step(missed(seat)));
    };
    take_buckets(rt, parts, seat, hand);
    let done = begin_it(rt, parts, seat, hand);
    give_buckets(parts, seat, hand);
    done
}

// Ends the round, with the buckets and the journal in hand, once the journal is durable and if the
// walk came behind so many sectors.
fn end_it<C: Disk + Drop, B: Disk + Drop, R: Wait>(
    rt: &R,
    alloc: Global,
    parts: &CoreParts<C, B>,
    seat: &mut CoreSeat<C, B>,
    hand: &mut Hand<C, B>,
    size: u64,
) -> Result<(), TraceError>
    requires works { Works C.facts B.facts parts.now seat.old hand.old }
    requires cached { are_plain C.facts B.facts parts.now.run.start ≡ false }
    requires promise { 6 ≤ seat.old.promises }
    requires hand { kinds hand.old ≡ buckets_and_journal }
    requires size { size ≡ size_of C.facts B.facts parts.now.run.start }
    ensures works { Works C.facts B.facts parts.now seat.new hand.new }
    ensures hand { kinds hand.new ≡ buckets_and_journal }
    ensures left { seat.old.promises ≤ seat.new.promises + 6 }
    ensures ok { OnOk result (HasTraced C.facts B.facts seat.old seat.new) }
    ensures err { IfErr result (λ error. HasStopped C.facts B.facts
        (cache_among C.facts B.facts parts.now.run.start).sectors error seat.old seat.new) }
{
    match settle(rt, alloc, parts, seat, hand) {
        Ok(()) => {}
        Err(error) => return Err(TraceError::Journal(error)),
    }
    if !came_behind(hand, size) {
        return Err(TraceError::Moved);
    }
    match end_round(rt, parts, seat, hand) {
        Ok(()) => Ok(()),
        Err(error) => Err(TraceError::Step(error)),
    }
}

// The same, with an empty hand.
fn end<C: Disk + Drop, B: Disk + Drop, R: Wait>(
    rt: &R,
    alloc: Global,
    parts: &CoreParts<C, B>,
    seat: &mut CoreSeat<C, B>,
    size: u64,
) -> Result<(), TraceError>
    requires works { Works C.facts B.facts parts.now seat.old empty }
    requires cached { are_plain C.facts B.facts parts.now.run.start ≡ false }
    requires size { size ≡ size_of C.facts B.facts parts.now.run.start }
    ensures works { Works C.facts B.facts parts.now seat.new empty }
    ensures left { seat.old.promises ≤ seat.new.promises }
    ensures ok { OnOk result (HasTraced C.facts B.facts seat.old seat.new) }
    ensures err { IfErr result (λ error. HasStopped C.facts B.facts
        (cache_among C.facts B.facts parts.now.run.start).sectors error seat.old seat.new) }
{
    let mut hand = Hand::empty();
    let hand = &mut hand;
    let Ok(()) = promise(rt, parts, seat, hand, 6) else {
        return Err(TraceError::Step(missed(seat)));
    };
    take_buckets(rt, parts, seat, hand);
    take_journal(rt, parts, seat, hand);
    let done = end_it(rt, alloc, parts, seat, hand, size);
    give_journal(parts, seat, hand);
    give_buckets(parts, seat, hand);
    done
}

// Gives up a round that is open in the buckets in hand, if the run wasn't halted.
fn give_up_it<C: Disk + Drop, B: Disk + Drop, R: Wait>(
    rt: &R,
    parts: &CoreParts<C, B>,
    seat: &mut CoreSeat<C, B>,
    hand: &mut Hand<C, B>,
)
    requires works { Works C.facts B.facts parts.now seat.old hand.old }
    requires cached { are_plain C.facts B.facts parts.now.run.start ≡ false }
    requires promise { 0 < seat.old.promises }
    requires has { (part : BucketsPart) × (hand.old.buckets ≡ Some part) }
    ensures works { Works C.facts B.facts parts.now seat.new hand.new }
    ensures has { (part : BucketsPart) × (hand.new ≡ record hand.old { buckets = Some part }) }
    ensures left { seat.old.promises ≤ seat.new.promises + 1 }
    ensures gives { GivesUp C.facts B.facts seat.old seat.new }
{
    if !is_open(hand) {
        return;
    }
    match drop_round(rt, parts, seat, hand) {
        Ok(()) => (),
        Err(_) => (),
    }
}

// The same, with an empty hand; where there is no memory for the event the round stays open.
fn give_up<C: Disk + Drop, B: Disk + Drop, R: Wait>(
    rt: &R,
    parts: &CoreParts<C, B>,
    seat: &mut CoreSeat<C, B>,
)
    requires works { Works C.facts B.facts parts.now seat.old empty }
    requires cached { are_plain C.facts B.facts parts.now.run.start ≡ false }
    ensures works { Works C.facts B.facts parts.now seat.new empty }
    ensures left { seat.old.promises ≤ seat.new.promises }
    ensures gives { GivesUp C.facts B.facts seat.old seat.new }
{
    let mut hand = Hand::empty();
    let hand = &mut hand;
    let Ok(()) = promise(rt, parts, seat, hand, 1) else {
        return;
    };
    take_buckets(rt, parts, seat, hand);
    give_up_it(rt, parts, seat, hand);
    give_buckets(parts, seat, hand);
}

// Walks all leaves and ends the round that this seat began.
fn go_on<C: Disk + Drop, B: Disk + Drop, R: Wait, G: Gate>(
    rt: &R,
    alloc: Global,
    parts: &CoreParts<C, B>,
    seat: &mut CoreSeat<C, B>,
    before: u32,
    size: u64,
    gate: &G,
) -> Result<(), TraceError>
    requires works { Works C.facts B.facts parts.now seat.old empty }
    requires cached { are_plain C.facts B.facts parts.now.run.start ≡ false }
    requires leaves { (6 < length parts.now.run.start) × (length parts.now.run.start < 2 ^ 32) }
    requires before { FromEach (world C.facts B.facts seat.old) (HasBefore before) }
    requires size { size ≡ size_of C.facts B.facts parts.now.run.start }
    ensures works { Works C.facts B.facts parts.now seat.new empty }
    ensures left { seat.old.promises ≤ seat.new.promises }
    ensures ok { OnOk result (HasTraced C.facts B.facts seat.old seat.new) }
    ensures err { IfErr result (λ error. HasStopped C.facts B.facts
        (cache_among C.facts B.facts parts.now.run.start).sectors error seat.old seat.new) }
{
    match all_leaves(rt, alloc, parts, seat, before, size, gate) {
        Ok(()) => {}
        Err(error) => return Err(error),
    }
    end(rt, alloc, parts, seat, size)
}

/// Makes a full trace: a round begins, each leaf is walked, what waits in the journal is put into an
/// entry, and the round ends. Then each bucket that no key, node or chain named since it began has
/// the mark, the oldest generation and the used sectors that the walk found. By itself it drops no
/// key, merges no node and takes no bucket. The seat holds no part, before and after. `before`
/// buckets of the cache device lie before the journal's.
///
/// At `Err` nothing of what was found is taken, and the round is given up unless a halt or want of
/// memory kept that out. `Open` says that another seat's round is open, and nothing was done.
/// `Moved` comes where another seat has gone on with the round or has put leaves together across
/// the sector that it had come to. `Step` names the device that had halted the run, or is want of
/// memory, where the seat hadn't heard of a halt; `Leaf` and `Journal` are refusals of a leaf's way
/// into memory, and of an entry. Whatever comes, the seat knows of its places what it knew.
pub fn full_trace<C: Disk + Drop, B: Disk + Drop, R: Wait, G: Gate>(
    rt: &R,
    alloc: Global,
    parts: &CoreParts<C, B>,
    seat: &mut CoreSeat<C, B>,
    before: u32,
    gate: &G,
) -> Result<(), TraceError>
    requires works { Works C.facts B.facts parts.now seat.old empty }
    requires cached { are_plain C.facts B.facts parts.now.run.start ≡ false }
    requires leaves { (6 < length parts.now.run.start) × (length parts.now.run.start < 2 ^ 32) }
    requires before { FromEach (world C.facts B.facts seat.old) (HasBefore before) }
    ensures works { Works C.facts B.facts parts.now seat.new empty }
    ensures left { seat.old.promises ≤ seat.new.promises }
    ensures keeps { KeepsPlaces C.facts B.facts seat.old seat.new }
    ensures ok { OnOk result (HasTraced C.facts B.facts seat.old seat.new) }
    ensures err { IfErr result (λ error. HasNotTraced C.facts B.facts
        (cache_among C.facts B.facts parts.now.run.start).sectors error seat.old seat.new) }
{
    let size = data_size(rt, parts, seat);
    match begin(rt, parts, seat) {
        Ok(()) => {}
        Err(error) => return Err(error),
    }
    match go_on(rt, alloc, parts, seat, before, size, gate) {
        Ok(()) => Ok(()),
        Err(error) => {
            give_up(rt, parts, seat);
            Err(error)
        }
    }
}
