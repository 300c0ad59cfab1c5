//! One piece of a request, under one claim.
ghost use Rattle.std.specs.Prelude.{◌≡◌, ◌+◌, ◌*◌, ◌/◌, ◌<◌, ◌≤◌, ◌^◌, true, [], ◌∷◌, length, if◌then◌else◌, OnOk, IfOk, IfErr};
ghost use Rattle.bc_model.specs.Sector.{values_of};
ghost use Rattle.bc_events.specs.declared.event.Deed.{Deed};
ghost use Rattle.bc_flight.specs.declared.claim.Share.{Share};
ghost use Rattle.bc_deed.specs.bc_machine.Plain.{worker_of};
ghost use Rattle.bc_deed.specs.bc_machine.World.{are_plain};
ghost use Rattle.bc_deed.specs.bc_hand.Seats.{Works, empty, note};
ghost use Rattle.bc_deed.specs.Asked.{AreSectors, IsWithin, size_of};
ghost use Rattle.bc_deed.specs.Flushed.{HasDone};
ghost use Rattle.bc_job.specs.Asked.{IsReady};
ghost use Rattle.bc_job.specs.Deeds.{ReadStop, WriteStop, read_deeds, write_deeds, written};
ghost use Rattle.bc_job.specs.Pieces.{IsFresh, ReadUnder, WriteUnder};
ghost use Rattle.bc_job.specs.Requests.{HasStoppedBy};

use crate::claims::claim_range;
use crate::error::{RequestError, refusal};
use crate::stock::{Stock, take_room};
use bc_deed::backing::{backing_barrier, backing_read, backing_write};
use bc_deed::bc_hand::error::StepError;
use bc_deed::bc_hand::hand::Hand;
use bc_deed::bc_machine::machine::{CoreParts, CoreSeat};
use bc_deed::claims::release;
use bc_deed::said::{answer, durable};
use bc_disk::disk::Disk;
use bc_events::event::LineNumber;
use bc_flight::claim::Share;
use bc_model::values::Values;
use bc_worker::gate::Gate;
use std::alloc::Global;
use std::sync::Wait;

// Reads the claimed sectors, answers the line with their values, and has these too.
fn read_under<C: Disk + Drop, B: Disk + Drop, R: Wait, G: Gate>(
    rt: &R,
    alloc: Global,
    parts: &CoreParts<C, B>,
    seat: &mut CoreSeat<C, B>,
    hand: &mut Hand<C, B>,
    of: LineNumber,
    first: u64,
    into: &mut [u8],
    gate: &G,
) -> Result<Values, StepError>
    requires works { Works C.facts B.facts parts.now seat.old hand.old }
    requires plain { are_plain C.facts B.facts parts.now.run.start ≡ true }
    requires empty { hand.old ≡ empty }
    requires promise { 1 < seat.old.promises }
    requires line { worker_of seat.old.first ≡ of.worker }
    requires sectors { AreSectors first (length into.old)
        (size_of C.facts B.facts seat.old.run.start) }
    requires looked { (note C.facts B.facts seat.old).looked ≡ true }
    requires covered { IsWithin (note C.facts B.facts seat.old).range first
        (length into.old / 512) }
    ensures works { Works C.facts B.facts parts.now seat.new hand.new }
    ensures empty { hand.new ≡ empty }
    ensures claim { (note C.facts B.facts seat.new).range ≡ (note C.facts B.facts seat.old).range }
    ensures left { seat.old.promises ≤ seat.new.promises + 2 }
    ensures ok { OnOk result (HasDone C.facts B.facts (Deed.BackingRead first (values_of into.new)
        ∷ Deed.Answer of first (values_of into.new) ∷ []) seat.old seat.new) }
    ensures values { IfOk result (λ values. values ≡ values_of into.new) }
    ensures err { IfErr result (λ error. ReadUnder C.facts B.facts error first seat.old seat.new) }
{
    let read = match backing_read(rt, alloc, parts, seat, hand, first, into, gate) {
        Ok(read) => read,
        Err(error) => return Err(error),
    };
    let Some(values) = read else {
        return Err(StepError::Memory);
    };
    match answer(rt, parts, seat, hand, of, first, &values) {
        Ok(()) => Ok(values),
        Err(error) => Err(error),
    }
}

/// Reads the sectors of a piece into `into` for a line, under a shared claim of them: one call of
/// the device. Answers their values too; after an error the bytes of `into` are any.
pub(crate) fn read_piece<C: Disk + Drop, B: Disk + Drop, R: Wait, G: Gate>(
    rt: &R,
    alloc: Global,
    parts: &CoreParts<C, B>,
    seat: &mut CoreSeat<C, B>,
    stock: &mut Stock<C, B>,
    of: LineNumber,
    first: u64,
    count: u32,
    into: &mut [u8],
    gate: &G,
) -> Result<Values, RequestError>
    requires ready { IsReady C.facts B.facts parts.now seat.old stock.old }
    requires line { worker_of seat.old.first ≡ of.worker }
    requires some { 1 ≤ count }
    requires length { length into.old ≡ 512 * count }
    requires range { first + count < 2 ^ 64 }
    requires inside { first + count ≤ size_of C.facts B.facts seat.old.run.start }
    ensures ready { IsReady C.facts B.facts parts.now seat.new stock.new }
    ensures ok { OnOk result (HasDone C.facts B.facts
        (read_deeds of first count (values_of into.new)) seat.old seat.new) }
    ensures values { IfOk result (λ values. values ≡ values_of into.new) }
    ensures err { IfErr result (λ error. HasStoppedBy C.facts B.facts error
        (ReadStop error first count) seat.old seat.new) }
{
    let Ok(()) = take_room(rt, parts, seat, stock, 4) else {
        return Err(RequestError::Memory);
    };
    let claim = match claim_range(
        rt,
        parts,
        seat,
        &mut stock.hand,
        first,
        count,
        Share::Shared,
    ) {
        Ok(claim) => claim,
        Err(error) => return Err(refusal(error)),
    };
    let answered = read_under(
        rt,
        alloc,
        parts,
        seat,
        &mut stock.hand,
        of,
        first,
        into,
        gate,
    );
    release(rt, parts, seat, &mut stock.hand, claim);
    match answered {
        Ok(values) => Ok(values),
        Err(error) => Err(refusal(error)),
    }
}

// Writes the claimed sectors, and where that is forced makes them durable and acknowledges it.
fn write_under<C: Disk + Drop, B: Disk + Drop, R: Wait>(
    rt: &R,
    alloc: Global,
    parts: &CoreParts<C, B>,
    seat: &mut CoreSeat<C, B>,
    hand: &mut Hand<C, B>,
    of: LineNumber,
    first: u64,
    values: &Values,
    force: bool,
) -> Result<(), StepError>
    requires works { Works C.facts B.facts parts.now seat.old hand.old }
    requires plain { are_plain C.facts B.facts parts.now.run.start ≡ true }
    requires empty { hand.old ≡ empty }
    requires promise { (if force then 3 else 1) ≤ seat.old.promises }
    requires line { worker_of seat.old.first ≡ of.worker }
    requires some { 0 < length values.now }
    requires inside { first + length values.now ≤ size_of C.facts B.facts seat.old.run.start }
    requires fresh { IsFresh first (length values.now) Share.Exclusive
        (note C.facts B.facts seat.old) }
    ensures works { Works C.facts B.facts parts.now seat.new hand.new }
    ensures empty { hand.new ≡ empty }
    ensures claim { (note C.facts B.facts seat.new).range ≡ (note C.facts B.facts seat.old).range }
    ensures left { seat.old.promises ≤ seat.new.promises + (if force then 3 else 1) }
    ensures ok { OnOk result (HasDone C.facts B.facts (written force of first values.now)
        seat.old seat.new) }
    ensures err { IfErr result (λ error. WriteUnder C.facts B.facts error force of first values.now
        seat.old seat.new) }
{
    match backing_write(rt, alloc, parts, seat, hand, first, values, of) {
        Ok(()) => {}
        Err(error) => return Err(error),
    }
    if !force {
        return Ok(());
    }
    match backing_barrier(rt, parts, seat, hand) {
        Ok(()) => {}
        Err(error) => return Err(error),
    }
    durable(rt, parts, seat, hand, of, first, values.len())
}

// For how many deeds the write of a piece takes room.
fn deeds_of(force: bool) -> u32
    ensures some { (if force then 5 else 3) ≤ result }
    ensures few { result ≤ 8 }
{
    if force { 5 } else { 3 }
}

/// Writes the values of a piece for a line, under an exclusive claim of its sectors, and where it
/// is forced makes them durable by a barrier before the claim is let go.
pub(crate) fn write_piece<C: Disk + Drop, B: Disk + Drop, R: Wait>(
    rt: &R,
    alloc: Global,
    parts: &CoreParts<C, B>,
    seat: &mut CoreSeat<C, B>,
    stock: &mut Stock<C, B>,
    of: LineNumber,
    first: u64,
    values: &Values,
    force: bool,
) -> Result<(), RequestError>
    requires ready { IsReady C.facts B.facts parts.now seat.old stock.old }
    requires line { worker_of seat.old.first ≡ of.worker }
    requires some { 1 ≤ length values.now }
    requires range { first + length values.now < 2 ^ 64 }
    requires inside { first + length values.now ≤ size_of C.facts B.facts seat.old.run.start }
    ensures ready { IsReady C.facts B.facts parts.now seat.new stock.new }
    ensures ok { OnOk result (HasDone C.facts B.facts
        (write_deeds force of first values.now) seat.old seat.new) }
    ensures err { IfErr result (λ error. HasStoppedBy C.facts B.facts error
        (WriteStop error force of first values.now) seat.old seat.new) }
{
    let Ok(()) = take_room(rt, parts, seat, stock, deeds_of(force)) else {
        return Err(RequestError::Memory);
    };
    let count = values.len();
    let claim = match claim_range(
        rt,
        parts,
        seat,
        &mut stock.hand,
        first,
        count,
        Share::Exclusive,
    ) {
        Ok(claim) => claim,
        Err(error) => return Err(refusal(error)),
    };
    let written = write_under(
        rt,
        alloc,
        parts,
        seat,
        &mut stock.hand,
        of,
        first,
        values,
        force,
    );
    release(rt, parts, seat, &mut stock.hand, claim);
    match written {
        Ok(()) => Ok(()),
        Err(error) => Err(refusal(error)),
    }
}
