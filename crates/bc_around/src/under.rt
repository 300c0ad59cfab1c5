//! What is done of a piece under its claim.
ghost use Rattle.std.specs.Prelude.{◌≡◌, ◌+◌, ◌*◌, ◌<◌, ◌≤◌, ◌^◌, false, length, OnOk, IfOk, IfErr};
ghost use Rattle.bc_around.specs.Bare.{AreBare};
ghost use Rattle.bc_around.specs.Past.{HasComeTo, HasStopped, NotWritten};
ghost use Rattle.bc_flush.specs.bc_deed.Asked.{MayWrite, size_of};
ghost use Rattle.bc_flush.specs.bc_deed.Flushed.{HasDone};
ghost use Rattle.bc_flush.specs.bc_hand.Seats.{Works, empty, note};
ghost use Rattle.bc_flush.specs.bc_job.Deeds.{written};
ghost use Rattle.bc_flush.specs.bc_machine.Frame.{Range};
ghost use Rattle.bc_flush.specs.bc_machine.Plain.{worker_of};
ghost use Rattle.bc_flush.specs.bc_machine.World.{are_plain};
ghost use Rattle.bc_model.specs.Sector.{values_of};

use crate::look::look_at;
use crate::owed::is_durable;
use crate::past::{Past, PastError};
use crate::said::durable;
use crate::write::write_bytes;
use bc_disk::disk::Disk;
use bc_events::event::LineNumber;
use bc_flush::bc_deed::backing::backing_barrier;
use bc_flush::bc_hand::error::StepError;
use bc_flush::bc_hand::hand::Hand;
use bc_flush::bc_machine::machine::{CoreParts, CoreSeat};
use bc_model::values::Values;
use bc_worker::gate::Gate;
use std::alloc::Global;
use std::sync::Wait;

// Writes the claimed sectors, which no key stands over, and where that is forced makes them durable
// and acknowledges it.
fn write_claimed<C: Disk + Drop, B: Disk + Drop, R: Wait>(
    rt: &R,
    parts: &CoreParts<C, B>,
    seat: &mut CoreSeat<C, B>,
    hand: &mut Hand<C, B>,
    of: LineNumber,
    first: u64,
    values: Values,
    bytes: &[u8],
    force: bool,
) -> Result<(), StepError>
    requires works { Works C.facts B.facts parts.now seat.old hand.old }
    requires cached { are_plain C.facts B.facts parts.now.run.start ≡ false }
    requires empty { hand.old ≡ empty }
    requires promise { 3 ≤ seat.old.promises }
    requires line { worker_of seat.old.first ≡ of.worker }
    requires some { 0 < length values }
    requires inside { first + length values ≤ size_of C.facts B.facts seat.old.run.start }
    requires bytes { (values_of bytes.now ≡ values) × (length bytes.now ≡ 512 * length values) }
    requires may { MayWrite (note C.facts B.facts seat.old) first (length values) }
    requires bare { AreBare C.facts B.facts first (length values) seat.old }
    ensures works { Works C.facts B.facts parts.now seat.new hand.new }
    ensures empty { hand.new ≡ empty }
    ensures claim { (note C.facts B.facts seat.new).range ≡ (note C.facts B.facts seat.old).range }
    ensures left { seat.old.promises ≤ seat.new.promises + 3 }
    ensures ok { OnOk result (HasDone C.facts B.facts (written force of first values) seat.old
        seat.new) }
    ensures err { IfErr result (λ error. NotWritten C.facts B.facts error force of first values
        seat.old seat.new) }
{
    if let Some(device) = seat.heard() {
        return Err(StepError::Halted(device));
    }
    let count = values.len();
    match write_bytes(rt, parts, seat, hand, first, values, bytes, of) {
        Ok(()) => {}
        Err(error) => return Err(error),
    }
    if !force {
        return Ok(());
    }
    match backing_barrier(rt, parts, seat, hand) {
        Ok(()) => {}
        Err(error) => return Err(error),
    }
    durable(rt, parts, seat, hand, of, first, count)
}

/// Looks the claimed sectors up, and writes these values there, which have these bytes, where no
/// key stands over them in any index that a crash may leave.
pub(crate) fn write_past<C: Disk + Drop, B: Disk + Drop, R: Wait, G: Gate>(
    rt: &R,
    alloc: Global,
    parts: &CoreParts<C, B>,
    seat: &mut CoreSeat<C, B>,
    hand: &mut Hand<C, B>,
    of: LineNumber,
    first: u64,
    values: Values,
    bytes: &[u8],
    force: bool,
    gate: &G,
) -> Result<Past, PastError>
    requires works { Works C.facts B.facts parts.now seat.old hand.old }
    requires cached { are_plain C.facts B.facts parts.now.run.start ≡ false }
    requires leaves { (6 < length parts.now.run.start) × (length parts.now.run.start < 2 ^ 32) }
    requires empty { hand.old ≡ empty }
    requires promise { 5 ≤ seat.old.promises }
    requires line { worker_of seat.old.first ≡ of.worker }
    requires some { 0 < length values }
    requires few { first + length values < 2 ^ 64 }
    requires inside { first + length values ≤ size_of C.facts B.facts seat.old.run.start }
    requires bytes { (values_of bytes.now ≡ values) × (length bytes.now ≡ 512 * length values) }
    requires may { MayWrite (note C.facts B.facts seat.old) first (length values) }
    requires long { (note C.facts B.facts seat.old).range.count ≡ length values }
    ensures works { Works C.facts B.facts parts.now seat.new hand.new }
    ensures empty { hand.new ≡ empty }
    ensures claim { (note C.facts B.facts seat.new).range ≡ (note C.facts B.facts seat.old).range }
    ensures left { seat.old.promises ≤ seat.new.promises + 5 }
    ensures ok { IfOk result (λ past. HasComeTo C.facts B.facts past parts.now force of first values
        seat.old seat.new) }
    ensures err { IfErr result (λ error. HasStopped C.facts B.facts error parts.now force of first
        values seat.old seat.new) }
{
    match look_at(rt, alloc, parts, seat, hand, first, values.len(), gate) {
        Ok(true) => {}
        Ok(false) => return Ok(Past::Cached),
        Err(error) => return Err(PastError::Leaf(error)),
    }
    if !is_durable(rt, parts, seat, hand) {
        return Ok(Past::Waiting);
    }
    match write_claimed(rt, parts, seat, hand, of, first, values, bytes, force) {
        Ok(()) => Ok(Past::Written),
        Err(error) => Err(PastError::Write(error)),
    }
}
