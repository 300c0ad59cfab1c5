//! The steps of a round, with the buckets in hand.
ghost use Rattle.std.specs.Prelude.{◌≡◌, ◌+◌, ◌<◌, ◌≤◌, ◌==◌, ℕ, false, true, None, Some, OnOk, OnErr, IfErr};
ghost use Rattle.bc_events.specs.declared.event.Deed.TheVariants.{Mark};
ghost use Rattle.bc_events.specs.declared.event.MarkForm.TheVariants as mark;
ghost use Rattle.bc_mark.specs.Steps.{CanEnd, HasMarkedIn, HasRound, IsOver, MayEnd};
ghost use Rattle.bc_parts.specs.Seat.{Holds};
ghost use Rattle.bc_place.specs.Written.{KeepsPlaces};
ghost use Rattle.bc_place.specs.bc_deed.Asked.{IsHalted};
ghost use Rattle.bc_place.specs.bc_hand.Seats.{core, world, IsCoreSeat, Works, Did};
ghost use Rattle.bc_place.specs.bc_machine.World.{AreBuckets, FromEach, are_plain};
ghost use Rattle.bc_rounds.specs.Rounds.{HasBegun, HasDropped};
ghost use Rattle.bc_seats.specs.Seats.{Kept};

use crate::part::{begin_part, drop_part, end_part};
use bc_disk::disk::Disk;
use bc_events::event::{Deed, MarkForm};
use bc_place::bc_hand::error::StepError;
use bc_place::bc_hand::hand::Hand;
use bc_place::bc_hand::seat::commit;
use bc_place::bc_machine::machine::{CoreParts, CoreSeat};
use bc_place::bc_machine::part::BucketsPart;
use std::sync::Wait;

/// Begins a round, with the buckets in hand, in which none is open: no bucket is touched from then
/// on, and no leaf is walked. Takes no memory.
///
/// `Halted` names the device that halted the run; then nothing is done.
pub fn begin_round<C: Disk + Drop, B: Disk + Drop, R: Wait>(
    rt: &R,
    parts: &CoreParts<C, B>,
    seat: &mut CoreSeat<C, B>,
    hand: &mut Hand<C, B>,
) -> Result<(), StepError>
    requires works { Works C.facts B.facts parts.now seat.old hand.old }
    requires cached { are_plain C.facts B.facts parts.now.run.start ≡ false }
    requires promise { 0 < seat.old.promises }
    requires none { HasRound false hand.old }
    ensures works { Works C.facts B.facts parts.now seat.new hand.new }
    ensures part { OnOk result (HasMarkedIn HasBegun hand.old hand.new) }
    ensures ok { OnOk result (Did C.facts B.facts (Some (Mark mark.Begin)) seat.old seat.new) }
    ensures err { OnErr result (Did C.facts B.facts None seat.old seat.new) }
    ensures same { OnErr result (hand.new ≡ hand.old) }
    ensures cause { IfErr result (λ error. IsHalted error seat.new.seen) }
    ensures left { seat.old.promises ≤ seat.new.promises + 1 }
    ensures keeps { KeepsPlaces C.facts B.facts seat.old seat.new }
{
    let Some(mut buckets) = hand.buckets.take() else {
        unreachable!()
    };
    let done = begin_in(rt, parts, seat, buckets.get_mut());
    hand.buckets = Some(buckets);
    done
}

// The same, of the part in hand.
fn begin_in<C: Disk, B: Disk, R: Wait>(
    rt: &R,
    parts: &CoreParts<C, B>,
    seat: &mut CoreSeat<C, B>,
    part: &mut BucketsPart,
) -> Result<(), StepError>
    requires run { seat.old.run ≡ parts.now.run }
    requires seat { IsCoreSeat C.facts B.facts seat.old }
    requires cached { are_plain C.facts B.facts parts.now.run.start ≡ false }
    requires promise { 0 < seat.old.promises }
    requires holds { Holds seat.old.parts 2 }
    requires buckets { AreBuckets part.old (world C.facts B.facts seat.old) }
    requires none { part.old.round.going ≡ false }
    ensures seat { IsCoreSeat C.facts B.facts seat.new }
    ensures kept { Kept (core C.facts B.facts) seat.old seat.new (λ k. k == 2) }
    ensures buckets { AreBuckets part.new (world C.facts B.facts seat.new) }
    ensures part { OnOk result (HasBegun part.old part.new) }
    ensures ok { OnOk result (Did C.facts B.facts (Some (Mark mark.Begin)) seat.old seat.new) }
    ensures err { OnErr result (Did C.facts B.facts None seat.old seat.new) }
    ensures same { OnErr result (part.new ≡ part.old) }
    ensures cause { IfErr result (λ error. IsHalted error seat.new.seen) }
    ensures left { seat.old.promises ≤ seat.new.promises + 1 }
    ensures keeps { KeepsPlaces C.facts B.facts seat.old seat.new }
{
    let form = MarkForm::Begin;
    if let Err(device) = commit(rt, parts, seat, Deed::Mark { form }) {
        return Err(StepError::Halted(device));
    }
    begin_part(part);
    Ok(())
}

/// Gives up the round that is open in the buckets in hand: nothing of what it found is taken.
///
/// `Halted` names the device that halted the run; then nothing is done.
pub fn drop_round<C: Disk + Drop, B: Disk + Drop, R: Wait>(
    rt: &R,
    parts: &CoreParts<C, B>,
    seat: &mut CoreSeat<C, B>,
    hand: &mut Hand<C, B>,
) -> Result<(), StepError>
    requires works { Works C.facts B.facts parts.now seat.old hand.old }
    requires cached { are_plain C.facts B.facts parts.now.run.start ≡ false }
    requires promise { 0 < seat.old.promises }
    requires going { HasRound true hand.old }
    ensures works { Works C.facts B.facts parts.now seat.new hand.new }
    ensures part { OnOk result (HasMarkedIn HasDropped hand.old hand.new) }
    ensures ok { OnOk result (Did C.facts B.facts (Some (Mark mark.Drop)) seat.old seat.new) }
    ensures err { OnErr result (Did C.facts B.facts None seat.old seat.new) }
    ensures same { OnErr result (hand.new ≡ hand.old) }
    ensures cause { IfErr result (λ error. IsHalted error seat.new.seen) }
    ensures left { seat.old.promises ≤ seat.new.promises + 1 }
    ensures keeps { KeepsPlaces C.facts B.facts seat.old seat.new }
{
    let Some(mut buckets) = hand.buckets.take() else {
        unreachable!()
    };
    let done = drop_in(rt, parts, seat, buckets.get_mut());
    hand.buckets = Some(buckets);
    done
}

// The same, of the part in hand.
fn drop_in<C: Disk, B: Disk, R: Wait>(
    rt: &R,
    parts: &CoreParts<C, B>,
    seat: &mut CoreSeat<C, B>,
    part: &mut BucketsPart,
) -> Result<(), StepError>
    requires run { seat.old.run ≡ parts.now.run }
    requires seat { IsCoreSeat C.facts B.facts seat.old }
    requires cached { are_plain C.facts B.facts parts.now.run.start ≡ false }
    requires promise { 0 < seat.old.promises }
    requires holds { Holds seat.old.parts 2 }
    requires buckets { AreBuckets part.old (world C.facts B.facts seat.old) }
    requires going { part.old.round.going ≡ true }
    ensures seat { IsCoreSeat C.facts B.facts seat.new }
    ensures kept { Kept (core C.facts B.facts) seat.old seat.new (λ k. k == 2) }
    ensures buckets { AreBuckets part.new (world C.facts B.facts seat.new) }
    ensures part { OnOk result (HasDropped part.old part.new) }
    ensures ok { OnOk result (Did C.facts B.facts (Some (Mark mark.Drop)) seat.old seat.new) }
    ensures err { OnErr result (Did C.facts B.facts None seat.old seat.new) }
    ensures same { OnErr result (part.new ≡ part.old) }
    ensures cause { IfErr result (λ error. IsHalted error seat.new.seen) }
    ensures left { seat.old.promises ≤ seat.new.promises + 1 }
    ensures keeps { KeepsPlaces C.facts B.facts seat.old seat.new }
{
    let form = MarkForm::Drop;
    if let Err(device) = commit(rt, parts, seat, Deed::Mark { form }) {
        return Err(StepError::Halted(device));
    }
    drop_part(part);
    Ok(())
}

/// Ends the round that is open in the buckets in hand, once its walk came behind all sectors of the
/// backing device and the journal is durable up to what it saw. Each bucket that nobody touched since
/// the round began gets what the walk found: its mark, its oldest generation and how many of its
/// sectors are used. Metadata stays so. No key is dropped, and no bucket is given up by that. Takes no
/// memory.
///
/// `Halted` names the device that halted the run; then nothing is done.
pub fn end_round<C: Disk + Drop, B: Disk + Drop, R: Wait>(
    rt: &R,
    parts: &CoreParts<C, B>,
    seat: &mut CoreSeat<C, B>,
    hand: &mut Hand<C, B>,
) -> Result<(), StepError>
    requires works { Works C.facts B.facts parts.now seat.old hand.old }
    requires cached { are_plain C.facts B.facts parts.now.run.start ≡ false }
    requires promise { 0 < seat.old.promises }
    requires can { CanEnd C.facts B.facts hand.old seat.old }
    ensures works { Works C.facts B.facts parts.now seat.new hand.new }
    ensures part { OnOk result (HasMarkedIn IsOver hand.old hand.new) }
    ensures ok { OnOk result (Did C.facts B.facts (Some (Mark mark.End)) seat.old seat.new) }
    ensures err { OnErr result (Did C.facts B.facts None seat.old seat.new) }
    ensures same { OnErr result (hand.new ≡ hand.old) }
    ensures cause { IfErr result (λ error. IsHalted error seat.new.seen) }
    ensures left { seat.old.promises ≤ seat.new.promises + 1 }
    ensures keeps { KeepsPlaces C.facts B.facts seat.old seat.new }
{
    let Some(mut buckets) = hand.buckets.take() else {
        unreachable!()
    };
    let done = end_in(rt, parts, seat, buckets.get_mut());
    hand.buckets = Some(buckets);
    done
}

// The same, of the part in hand.
fn end_in<C: Disk, B: Disk, R: Wait>(
    rt: &R,
    parts: &CoreParts<C, B>,
    seat: &mut CoreSeat<C, B>,
    part: &mut BucketsPart,
) -> Result<(), StepError>
    requires run { seat.old.run ≡ parts.now.run }
    requires seat { IsCoreSeat C.facts B.facts seat.old }
    requires cached { are_plain C.facts B.facts parts.now.run.start ≡ false }
    requires promise { 0 < seat.old.promises }
    requires holds { Holds seat.old.parts 2 }
    requires buckets { AreBuckets part.old (world C.facts B.facts seat.old) }
    requires going { part.old.round.going ≡ true }
    requires may { FromEach (world C.facts B.facts seat.old) (MayEnd part.old) }
    ensures seat { IsCoreSeat C.facts B.facts seat.new }
    ensures kept { Kept (core C.facts B.facts) seat.old seat.new (λ k. k == 2) }
    ensures buckets { AreBuckets part.new (world C.facts B.facts seat.new) }
    ensures part { OnOk result (IsOver part.old part.new) }
    ensures ok { OnOk result (Did C.facts B.facts (Some (Mark mark.End)) seat.old seat.new) }
    ensures err { OnErr result (Did C.facts B.facts None seat.old seat.new) }
    ensures same { OnErr result (part.new ≡ part.old) }
    ensures cause { IfErr result (λ error. IsHalted error seat.new.seen) }
    ensures left { seat.old.promises ≤ seat.new.promises + 1 }
    ensures keeps { KeepsPlaces C.facts B.facts seat.old seat.new }
{
    let form = MarkForm::End;
    if let Err(device) = commit(rt, parts, seat, Deed::Mark { form }) {
        return Err(StepError::Halted(device));
    }
    end_part(part);
    Ok(())
}
