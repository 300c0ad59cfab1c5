//! The steps that raise buckets.
ghost use Rattle.std.specs.Prelude.{◌≡◌, ◌+◌, ◌-◌, ◌<◌, ◌≤◌, ◌==◌, [], ◌∷◌, false, None, Some, length, OnOk, OnErr, IfErr};
ghost use Rattle.bc_alloc.specs.Victims.{AreVictims, IsCandidate};
ghost use Rattle.bc_events.specs.declared.event.Deed.TheVariants.{Raise};
ghost use Rattle.bc_held.specs.Taken.{KeepsHeld};
ghost use Rattle.bc_parts.specs.Seat.{Holds};
ghost use Rattle.bc_held.specs.bc_place.Place.{HasBefore};
ghost use Rattle.bc_held.specs.bc_place.Written.{KeepsPlaces};
ghost use Rattle.bc_held.specs.bc_deed.Asked.{IsHalted};
ghost use Rattle.bc_held.specs.bc_deed.Flushed.{HasDone};
ghost use Rattle.bc_held.specs.bc_hand.Seats.{core, world, IsCoreSeat, Works, Did};
ghost use Rattle.bc_held.specs.bc_machine.World.{AreBuckets, FromEach, are_plain};
ghost use Rattle.bc_held.specs.bc_machine.declared.part.BucketsPart.{BucketsPart as PartSeen};
ghost use Rattle.bc_raise.specs.Raise.{HasRaisedIn, HasRaisedSome, raises};
ghost use Rattle.bc_renew.specs.Raised.{HasRaised};
ghost use Rattle.bc_seats.specs.Seats.{Kept};

use bc_disk::disk::Disk;
use bc_events::event::Deed;
use bc_held::bc_hand::error::StepError;
use bc_held::bc_hand::hand::Hand;
use bc_held::bc_hand::seat::commit;
use bc_held::bc_machine::machine::{CoreParts, CoreSeat};
use bc_held::bc_machine::part::BucketsPart;
use std::sync::Wait;

/// Raises these buckets in order, which are the victims of a refill: those with the least priority,
/// and of these those with the least numbers, as many as the lists would take. The buckets are in
/// hand. `before` buckets of the device lie before the journal's. Takes no memory.
///
/// `Halted` names the device that halted the run; then the first ones are raised, and not all.
/// Whatever comes, the seat knows of its places and of the buckets that it holds what it knew.
pub fn raise_all<C: Disk + Drop, B: Disk + Drop, R: Wait>(
    rt: &R,
    parts: &CoreParts<C, B>,
    seat: &mut CoreSeat<C, B>,
    hand: &mut Hand<C, B>,
    before: u32,
    victims: &[u32],
) -> Result<(), StepError>
    requires works { Works C.facts B.facts parts.now seat.old hand.old }
    requires cached { are_plain C.facts B.facts parts.now.run.start ≡ false }
    requires promises { length victims.now ≤ seat.old.promises }
    requires before { FromEach (world C.facts B.facts seat.old) (HasBefore before) }
    requires victims { (p : PartSeen) × (hand.old.buckets ≡ Some p)
        × AreVictims p.reserves p.buckets victims.now }
    ensures works { Works C.facts B.facts parts.now seat.new hand.new }
    ensures part { OnOk result (HasRaisedIn hand.old victims.now hand.new) }
    ensures ok { OnOk result (HasDone C.facts B.facts (raises before victims.now) seat.old
        seat.new) }
    ensures err { OnErr result (HasRaisedSome C.facts B.facts before hand.old victims.now hand.new
        seat.old seat.new) }
    ensures cause { IfErr result (λ error. IsHalted error seat.new.seen) }
    ensures left { seat.old.promises ≤ seat.new.promises + length victims.now }
    ensures keeps { KeepsPlaces C.facts B.facts seat.old seat.new }
    ensures held { KeepsHeld C.facts B.facts seat.old seat.new }
{
    for bucket in victims {
        match raise(rt, parts, seat, hand, before, *bucket) {
            Ok(()) => {}
            Err(error) => return Err(error),
        }
    }
    Ok(())
}

/// Raises a bucket that may be given up and is on no list. The buckets are in hand. `before`
/// buckets of the device lie before the journal's. Takes no memory.
///
/// `Halted` names the device that halted the run; then nothing is done.
pub fn raise<C: Disk + Drop, B: Disk + Drop, R: Wait>(
    rt: &R,
    parts: &CoreParts<C, B>,
    seat: &mut CoreSeat<C, B>,
    hand: &mut Hand<C, B>,
    before: u32,
    bucket: u32,
) -> Result<(), StepError>
    requires works { Works C.facts B.facts parts.now seat.old hand.old }
    requires cached { are_plain C.facts B.facts parts.now.run.start ≡ false }
    requires promise { 0 < seat.old.promises }
    requires before { FromEach (world C.facts B.facts seat.old) (HasBefore before) }
    requires may { (p : PartSeen) × (hand.old.buckets ≡ Some p)
        × IsCandidate p.reserves p.buckets bucket }
    ensures works { Works C.facts B.facts parts.now seat.new hand.new }
    ensures part { OnOk result (HasRaisedIn hand.old (bucket ∷ []) hand.new) }
    ensures ok { OnOk result (Did C.facts B.facts (Some (Raise (bucket - before))) seat.old
        seat.new) }
    ensures err { OnErr result (Did C.facts B.facts None seat.old seat.new) }
    ensures same { OnErr result (hand.new ≡ hand.old) }
    ensures cause { IfErr result (λ error. IsHalted error seat.new.seen) }
    ensures keeps { KeepsPlaces C.facts B.facts seat.old seat.new }
    ensures held { KeepsHeld C.facts B.facts seat.old seat.new }
{
    let Some(mut buckets) = hand.buckets.take() else {
        unreachable!()
    };
    let done = raise_in(rt, parts, seat, buckets.get_mut(), before, bucket);
    hand.buckets = Some(buckets);
    done
}

// The same, of the part in hand.
fn raise_in<C: Disk, B: Disk, R: Wait>(
    rt: &R,
    parts: &CoreParts<C, B>,
    seat: &mut CoreSeat<C, B>,
    part: &mut BucketsPart,
    before: u32,
    bucket: u32,
) -> Result<(), StepError>
    requires run { seat.old.run ≡ parts.now.run }
    requires seat { IsCoreSeat C.facts B.facts seat.old }
    requires cached { are_plain C.facts B.facts parts.now.run.start ≡ false }
    requires promise { 0 < seat.old.promises }
    requires holds { Holds seat.old.parts 2 }
    requires buckets { AreBuckets part.old (world C.facts B.facts seat.old) }
    requires before { FromEach (world C.facts B.facts seat.old) (HasBefore before) }
    requires may { IsCandidate part.old.reserves part.old.buckets bucket }
    ensures seat { IsCoreSeat C.facts B.facts seat.new }
    ensures kept { Kept (core C.facts B.facts) seat.old seat.new (λ k. k == 2) }
    ensures buckets { AreBuckets part.new (world C.facts B.facts seat.new) }
    ensures part { OnOk result (HasRaised part.old (bucket ∷ []) part.new) }
    ensures ok { OnOk result (Did C.facts B.facts (Some (Raise (bucket - before))) seat.old
        seat.new) }
    ensures err { OnErr result (Did C.facts B.facts None seat.old seat.new) }
    ensures same { OnErr result (part.new ≡ part.old) }
    ensures cause { IfErr result (λ error. IsHalted error seat.new.seen) }
    ensures keeps { KeepsPlaces C.facts B.facts seat.old seat.new }
    ensures held { KeepsHeld C.facts B.facts seat.old seat.new }
{
    let number = bucket.saturating_sub(before);
    if let Err(device) = commit(rt, parts, seat, Deed::Raise { bucket: number }) {
        return Err(StepError::Halted(device));
    }
    raise_one(part, bucket);
    Ok(())
}

// Raises the bucket in the containers.
fn raise_one(part: &mut BucketsPart, bucket: u32)
    requires { IsCandidate part.old.reserves part.old.buckets bucket }
    ensures { HasRaised part.old (bucket ∷ []) part.new }
{
    part.reserves.raise(&mut part.buckets, bucket);
}
