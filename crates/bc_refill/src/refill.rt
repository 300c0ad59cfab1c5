//! The whole refill.
ghost use Rattle.std.specs.Prelude.{◌≡◌, ◌+◌, ◌*◌, ◌≤◌, [], false, true, length, Some, vec_capacity, IfErr, IfOk};
ghost use Rattle.bc_new_chain.specs.bc_held.Taken.{KeepsHeld};
ghost use Rattle.bc_journal.specs.Journal.{Journal as JournalSeen};
ghost use Rattle.bc_new_chain.specs.Put.{IsChainCause};
ghost use Rattle.bc_new_chain.specs.bc_deed.Flushed.{HasDone};
ghost use Rattle.bc_new_chain.specs.bc_hand.Seats.{Works, core, kinds, world};
ghost use Rattle.bc_new_chain.specs.bc_machine.World.{FromEach, are_plain, cache_among};
ghost use Rattle.bc_new_chain.specs.bc_machine.declared.part.BucketsPart.{BucketsPart as PartSeen};
ghost use Rattle.bc_new_chain.specs.bc_place.Written.{KeepsPlaces};
ghost use Rattle.bc_refill.specs.Hands.{HasAll};
ghost use Rattle.bc_refill.specs.Most.{deeds_of, most_of};
ghost use Rattle.bc_refill.specs.Named.{CanName};
ghost use Rattle.bc_refill.specs.Refill.{FindsChain, HasAnswered, HasAnsweredIn, HasNotRefilled, HasNotRefilledIn, IsRefusal};
ghost use Rattle.bc_refill.specs.Rooms.{IsRoomFor};
ghost use Rattle.bc_refill.specs.Taken.{numbers_of};
ghost use Rattle.bc_seats.specs.Seats.{Same};

use crate::answer::Refilled;
use crate::look::{geometry_in, idle, sizes_in};
use crate::renew::renew;
use crate::room::{Room, room_for};
use crate::take::take_chain;
use bc_disk::disk::Disk;
use bc_disk::geometry::Geometry;
use bc_new_chain::bc_hand::error::StepError;
use bc_new_chain::bc_hand::hand::Hand;
use bc_new_chain::bc_held::held::HeldBucket;
use bc_new_chain::bc_machine::machine::{CoreParts, CoreSeat};
use bc_seats::seats;
use std::alloc::Global;
use std::sync::Wait;

/// Refills the lists of buckets that are ready to be taken. It raises buckets that may be given up,
/// those with the least priority first, and of these those with the least numbers, as many as the
/// lists have room for; writes a chain of priority sets with the new generations; puts an entry
/// that names it; and only then the raised buckets, with those that waited before, come onto the
/// lists. The buckets, the journal and the cache device are in hand, and stay so.
///
/// All memory, and room for all deeds, is taken before the first bucket is. Where that is missing
/// the error is `Memory`, and nothing was done. Where there is nothing to raise, or the chain can
/// have no entry, the answer says so, and nothing was done either. Where there is no bucket for one
/// of the chain's sets, those that were taken for the others are let go again.
///
/// From then on only a device is in the way. `Fault` says that a call of the cache device failed,
/// which halted the run, and `Halted` names the device that had halted it. Then a crash finds the
/// chain before while no entry with the new one is sealed; either one while it is sealed; and the
/// new one once it is durable. What was raised isn't on a list.
///
/// Whatever comes, it is the same seat, with no fewer promises, and it knows of its places and of
/// the other buckets that it holds what it knew.
pub fn refill<C: Disk + Drop, B: Disk + Drop, R: Wait>(
    rt: &R,
    alloc: Global,
    parts: &CoreParts<C, B>,
    seat: &mut CoreSeat<C, B>,
    hand: &mut Hand<C, B>,
) -> Result<Refilled, StepError>
    requires works { Works C.facts B.facts parts.now seat.old hand.old }
    requires cached { are_plain C.facts B.facts parts.now.run.start ≡ false }
    requires all { (j : JournalSeen) × (hand.old.journal ≡ Some j)
        × HasAll j.ring.geometry hand.old }
    requires disk { (j : JournalSeen) → hand.old.journal ≡ Some j
        → j.ring.geometry.bucket * j.ring.geometry.nbuckets
        ≤ (cache_among C.facts B.facts parts.now.run.start).sectors }
    ensures works { Works C.facts B.facts parts.now seat.new hand.new }
    ensures kinds { kinds hand.new ≡ kinds hand.old }
    ensures ok { IfOk result (λ answer. (p : PartSeen) (j : JournalSeen)
        → hand.old.buckets ≡ Some p → hand.old.journal ≡ Some j
        → HasAnswered C.facts B.facts answer j.ring.geometry p j hand.old hand.new seat.old
        seat.new) }
    ensures err { IfErr result (λ error. (p : PartSeen) (j : JournalSeen)
        → hand.old.buckets ≡ Some p → hand.old.journal ≡ Some j
        → HasNotRefilled C.facts B.facts error j.ring.geometry p hand.old hand.new seat.old
        seat.new) }
    ensures cause { IfErr result (λ error. IsRefusal C.facts B.facts error seat.new) }
    ensures found { (j : JournalSeen) → hand.new.journal ≡ Some j
        → FromEach (world C.facts B.facts seat.new) (FindsChain j.ring.geometry j.heads.prio) }
    ensures same { Same (core C.facts B.facts) seat.old seat.new }
    ensures left { seat.old.promises ≤ seat.new.promises }
    ensures keeps { KeepsPlaces C.facts B.facts seat.old seat.new }
    ensures held { KeepsHeld C.facts B.facts seat.old seat.new }
{
    if let Some(device) = seat.heard() {
        return Err(StepError::Halted(device));
    }
    if let Some(answer) = idle(hand) {
        return Ok(answer);
    }
    let g = geometry_in(hand);
    let sizes = sizes_in(hand, &g);
    let Ok(room) = room_for(alloc, &g, sizes.chained, sizes.raised) else {
        return Err(StepError::Memory);
    };
    if !promise_all(rt, parts, seat, hand, sizes.deeds) {
        return Err(StepError::Memory);
    }
    refill_in(rt, parts, seat, hand, &g, room)
}

// The same, once it is known that there is something to do, and that there is memory for it.
fn refill_in<C: Disk + Drop, B: Disk + Drop, R: Wait>(
    rt: &R,
    parts: &CoreParts<C, B>,
    seat: &mut CoreSeat<C, B>,
    hand: &mut Hand<C, B>,
    g: &Geometry,
    room: Room,
) -> Result<Refilled, StepError>
    requires works { Works C.facts B.facts parts.now seat.old hand.old }
    requires cached { are_plain C.facts B.facts parts.now.run.start ≡ false }
    requires all { HasAll g.now hand.old }
    requires can { (p : PartSeen) × (j : JournalSeen) × (hand.old.buckets ≡ Some p)
        × (hand.old.journal ≡ Some j) × CanName g.now p j
        × (deeds_of g.now p.reserves ≤ seat.old.promises)
        × IsRoomFor g.now (length p.reserves.raised + most_of p.reserves) (length p.chain.items)
        room }
    requires disk { g.now.bucket * g.now.nbuckets
        ≤ (cache_among C.facts B.facts parts.now.run.start).sectors }
    ensures works { Works C.facts B.facts parts.now seat.new hand.new }
    ensures kinds { kinds hand.new ≡ kinds hand.old }
    ensures ok { IfOk result (λ answer. (p : PartSeen) → hand.old.buckets ≡ Some p
        → HasAnsweredIn C.facts B.facts answer g.now p hand.old hand.new seat.old seat.new) }
    ensures err { IfErr result (λ error. (p : PartSeen) → hand.old.buckets ≡ Some p
        → HasNotRefilledIn C.facts B.facts error g.now p hand.old hand.new seat.old seat.new) }
    ensures cause { IfErr result (λ error. IsChainCause error seat.new.seen) }
    ensures left { (p : PartSeen) → hand.old.buckets ≡ Some p
        → seat.old.promises ≤ seat.new.promises + deeds_of g.now p.reserves }
    ensures keeps { KeepsPlaces C.facts B.facts seat.old seat.new }
    ensures held { KeepsHeld C.facts B.facts seat.old seat.new }
{
    let Room {
        mut taken,
        mut new,
        mut victims,
        naming,
    } = room;
    match take_chain(rt, parts, seat, hand, g, &mut taken) {
        Ok(None) => {}
        Ok(Some(answer)) => return Ok(answer),
        Err(error) => return Err(error),
    }
    add_numbers(&taken, &mut new);
    match renew(rt, parts, seat, hand, g, &taken, new, &mut victims, naming) {
        Ok(()) => {}
        Err(error) => return Err(error),
    }
    Ok(Refilled::Done)
}

// Adds the numbers of these buckets.
fn add_numbers(taken: &[HeldBucket], into: &mut Vec<u32>)
    requires none { into.old.items ≡ [] }
    requires room { length taken.now ≤ vec_capacity into.old }
    ensures { into.new.items ≡ numbers_of taken.now }
{
    for bucket in taken {
        into.push_reserved(bucket.bucket);
    }
}

// Makes room for so many deeds of the seat, and says whether there was memory for it.
fn promise_all<C: Disk, B: Disk, R: Wait>(
    rt: &R,
    parts: &CoreParts<C, B>,
    seat: &mut CoreSeat<C, B>,
    hand: &mut Hand<C, B>,
    deeds: u64,
) -> bool
    requires { Works C.facts B.facts parts.now seat.old hand.old }
    ensures works { Works C.facts B.facts parts.now seat.new hand.new }
    ensures hand { hand.new ≡ hand.old }
    ensures done { HasDone C.facts B.facts [] seat.old seat.new }
    ensures heard { seat.new.heard ≡ seat.old.heard }
    ensures ok { result ≡ true → seat.new.promises ≡ seat.old.promises + deeds }
    ensures err { result ≡ false → seat.new.promises ≡ seat.old.promises }
    ensures keeps { KeepsPlaces C.facts B.facts seat.old seat.new }
    ensures held { KeepsHeld C.facts B.facts seat.old seat.new }
{
    let _ = hand;
    let Ok(deeds) = u32::try_from(deeds) else {
        return false;
    };
    seats::promise(rt, parts, seat, deeds).is_ok()
}
