//! The steps that put an entry into the history alone, and those that begin and end a line.
ghost use Rattle.std.specs.Prelude.{◌≡◌, ◌<◌, true, None, Some, length, OnOk, OnErr, IfErr};
ghost use Rattle.bc_model.specs.Sector.{Gives};
ghost use Rattle.bc_hand.specs.bc_machine.Plain.{worker_of};
ghost use Rattle.bc_hand.specs.bc_machine.World.{are_plain};
ghost use Rattle.bc_events.specs.declared.event.Deed.{Deed};
ghost use Rattle.bc_hand.specs.Seats.{Works, Did, note, world};
ghost use Rattle.bc_deed.specs.Asked.{IsHalted, IsHaltedOr, IsLast, IsWithin};

use bc_disk::disk::Disk;
use bc_events::event::{Deed, LineNumber};
use bc_hand::bc_machine::machine::{CoreParts, CoreSeat};
use bc_hand::error::StepError;
use bc_hand::hand::Hand;
use bc_hand::seat::commit;
use bc_model::values::Values;
use std::sync::Wait;

/// Begins the flush of a line.
pub fn flush_from<C: Disk, B: Disk, R: Wait>(
    rt: &R,
    parts: &CoreParts<C, B>,
    seat: &mut CoreSeat<C, B>,
    hand: &mut Hand<C, B>,
    of: LineNumber,
) -> Result<(), StepError>
    requires works { Works C.facts B.facts parts.now seat.old hand.old }
    requires promise { 0 < seat.old.promises }
    requires line { worker_of seat.old.first ≡ of.worker }
    ensures works { Works C.facts B.facts parts.now seat.new hand.new }
    ensures hand { hand.new ≡ hand.old }
    ensures ok { OnOk result (Did C.facts B.facts (Some (Deed.FlushFrom of)) seat.old seat.new) }
    ensures err { OnErr result (Did C.facts B.facts None seat.old seat.new) }
    ensures cause { IfErr result (λ error. IsHalted error seat.new.seen) }
{
    let _ = hand;
    if let Some(device) = seat.heard() {
        return Err(StepError::Halted(device));
    }
    match commit(rt, parts, seat, Deed::FlushFrom { of }) {
        Ok(()) => Ok(()),
        Err(device) => Err(StepError::Halted(device)),
    }
}

/// Acknowledges the flush of a line, since the beginning of which a barrier of the backing device was
/// made. The run is one over that device alone.
pub fn flush_done<C: Disk, B: Disk, R: Wait>(
    rt: &R,
    parts: &CoreParts<C, B>,
    seat: &mut CoreSeat<C, B>,
    hand: &mut Hand<C, B>,
    of: LineNumber,
) -> Result<(), StepError>
    requires works { Works C.facts B.facts parts.now seat.old hand.old }
    requires plain { are_plain C.facts B.facts parts.now.run.start ≡ true }
    requires promise { 0 < seat.old.promises }
    requires line { worker_of seat.old.first ≡ of.worker }
    requires going { (note C.facts B.facts seat.old).flush.going ≡ true }
    requires its { (note C.facts B.facts seat.old).flush.line ≡ of.line }
    requires firm { (note C.facts B.facts seat.old).flush.firm ≡ true }
    ensures works { Works C.facts B.facts parts.now seat.new hand.new }
    ensures hand { hand.new ≡ hand.old }
    ensures ok { OnOk result (Did C.facts B.facts (Some (Deed.FlushDone of)) seat.old seat.new) }
    ensures err { OnErr result (Did C.facts B.facts None seat.old seat.new) }
    ensures cause { IfErr result (λ error. IsHalted error seat.new.seen) }
{
    let _ = hand;
    if let Some(device) = seat.heard() {
        return Err(StepError::Halted(device));
    }
    match commit(rt, parts, seat, Deed::FlushDone { of }) {
        Ok(()) => Ok(()),
        Err(device) => Err(StepError::Halted(device)),
    }
}

/// Acknowledges a forced write: the sectors from `first` on of the seat's last write, since which a
/// barrier of the backing device was made. The run is one over that device alone.
pub fn durable<C: Disk, B: Disk, R: Wait>(
    rt: &R,
    parts: &CoreParts<C, B>,
    seat: &mut CoreSeat<C, B>,
    hand: &mut Hand<C, B>,
    of: LineNumber,
    first: u64,
    count: u32,
) -> Result<(), StepError>
    requires works { Works C.facts B.facts parts.now seat.old hand.old }
    requires plain { are_plain C.facts B.facts parts.now.run.start ≡ true }
    requires promise { 0 < seat.old.promises }
    requires line { worker_of seat.old.first ≡ of.worker }
    requires exclusive { (note C.facts B.facts seat.old).range.exclusive ≡ true }
    requires wrote { (note C.facts B.facts seat.old).wrote ≡ true }
    requires last { IsLast (note C.facts B.facts seat.old).last of.line first count }
    ensures works { Works C.facts B.facts parts.now seat.new hand.new }
    ensures hand { hand.new ≡ hand.old }
    ensures ok { OnOk result (Did C.facts B.facts (Some (Deed.Durable of first count)) seat.old seat.new) }
    ensures err { OnErr result (Did C.facts B.facts None seat.old seat.new) }
    ensures cause { IfErr result (λ error. IsHalted error seat.new.seen) }
{
    let _ = hand;
    if let Some(device) = seat.heard() {
        return Err(StepError::Halted(device));
    }
    match commit(rt, parts, seat, Deed::Durable { of, first, count }) {
        Ok(()) => Ok(()),
        Err(device) => Err(StepError::Halted(device)),
    }
}

/// Begins a line of a trace.
pub fn line_from<C: Disk, B: Disk, R: Wait>(
    rt: &R,
    parts: &CoreParts<C, B>,
    seat: &mut CoreSeat<C, B>,
    hand: &mut Hand<C, B>,
    of: LineNumber,
) -> Result<(), StepError>
    requires works { Works C.facts B.facts parts.now seat.old hand.old }
    requires promise { 0 < seat.old.promises }
    requires line { worker_of seat.old.first ≡ of.worker }
    ensures works { Works C.facts B.facts parts.now seat.new hand.new }
    ensures hand { hand.new ≡ hand.old }
    ensures ok { OnOk result (Did C.facts B.facts (Some (Deed.LineFrom of)) seat.old seat.new) }
    ensures err { OnErr result (Did C.facts B.facts None seat.old seat.new) }
    ensures cause { IfErr result (λ error. IsHalted error seat.new.seen) }
{
    let _ = hand;
    if let Some(device) = seat.heard() {
        return Err(StepError::Halted(device));
    }
    match commit(rt, parts, seat, Deed::LineFrom { of }) {
        Ok(()) => Ok(()),
        Err(device) => Err(StepError::Halted(device)),
    }
}

/// Ends the line that the seat began last.
pub fn line_done<C: Disk, B: Disk, R: Wait>(
    rt: &R,
    parts: &CoreParts<C, B>,
    seat: &mut CoreSeat<C, B>,
    hand: &mut Hand<C, B>,
    of: LineNumber,
) -> Result<(), StepError>
    requires works { Works C.facts B.facts parts.now seat.old hand.old }
    requires promise { 0 < seat.old.promises }
    requires line { worker_of seat.old.first ≡ of.worker }
    requires begun { (world C.facts B.facts seat.old).now.line seat.old.first ≡ Some of }
    ensures works { Works C.facts B.facts parts.now seat.new hand.new }
    ensures hand { hand.new ≡ hand.old }
    ensures ok { OnOk result (Did C.facts B.facts (Some (Deed.LineDone of)) seat.old seat.new) }
    ensures err { OnErr result (Did C.facts B.facts None seat.old seat.new) }
    ensures cause { IfErr result (λ error. IsHalted error seat.new.seen) }
{
    let _ = hand;
    if let Some(device) = seat.heard() {
        return Err(StepError::Halted(device));
    }
    match commit(rt, parts, seat, Deed::LineDone { of }) {
        Ok(()) => Ok(()),
        Err(device) => Err(StepError::Halted(device)),
    }
}

/// Answers a line's read with these values, which the seat has read from the backing device under
/// its claim. The run is one over that device alone.
pub fn answer<C: Disk, B: Disk, R: Wait>(
    rt: &R,
    parts: &CoreParts<C, B>,
    seat: &mut CoreSeat<C, B>,
    hand: &mut Hand<C, B>,
    of: LineNumber,
    first: u64,
    values: &Values,
) -> Result<(), StepError>
    requires works { Works C.facts B.facts parts.now seat.old hand.old }
    requires plain { are_plain C.facts B.facts parts.now.run.start ≡ true }
    requires promise { 0 < seat.old.promises }
    requires line { worker_of seat.old.first ≡ of.worker }
    requires looked { (note C.facts B.facts seat.old).looked ≡ true }
    requires covered { IsWithin (note C.facts B.facts seat.old).range first (length values.now) }
    requires read { Gives first values.now
        (λ s v. (note C.facts B.facts seat.old).read s ≡ Some v) }
    ensures works { Works C.facts B.facts parts.now seat.new hand.new }
    ensures hand { hand.new ≡ hand.old }
    ensures ok { OnOk result (Did C.facts B.facts (Some (Deed.Answer of first values.now)) seat.old seat.new) }
    ensures err { OnErr result (Did C.facts B.facts None seat.old seat.new) }
    ensures cause { IfErr result (λ error. IsHaltedOr error seat.new.seen) }
{
    let _ = hand;
    if let Some(device) = seat.heard() {
        return Err(StepError::Halted(device));
    }
    let Ok(values) = values.copy() else {
        return Err(StepError::Memory);
    };
    match commit(rt, parts, seat, Deed::Answer { of, first, values }) {
        Ok(()) => Ok(()),
        Err(device) => Err(StepError::Halted(device)),
    }
}
