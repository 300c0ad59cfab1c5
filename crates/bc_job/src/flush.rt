//! Flushes.
ghost use Rattle.std.specs.Prelude.{◌≡◌, ◌+◌, ◌≤◌, true, OnOk, IfErr};
ghost use Rattle.bc_deed.specs.Flushed.{HasFlushed, HasStopped};
ghost use Rattle.bc_deed.specs.bc_hand.Seats.{Works, kinds, note};
ghost use Rattle.bc_job.specs.Asked.{IsFor, IsReady, line_of};
ghost use Rattle.bc_job.specs.Requests.{HasFlushedFor, HasNotFlushed};
ghost use Rattle.bc_deed.specs.bc_machine.Plain.{worker_of};
ghost use Rattle.bc_deed.specs.bc_machine.World.{are_plain};

use crate::error::{RequestError, refusal};
use crate::job::Job;
use crate::stock::{Stock, take_room};
use bc_deed::backing::backing_barrier;
use bc_deed::bc_hand::error::StepError;
use bc_deed::bc_hand::hand::Hand;
use bc_deed::bc_machine::machine::{CoreParts, CoreSeat};
use bc_deed::said::{flush_done, flush_from};
use bc_disk::disk::Disk;
use bc_events::event::LineNumber;
use bc_worker::gate::Gate;
use std::sync::Wait;

// Begins the flush of a line, makes one barrier, and acknowledges it.
fn flush_line<C: Disk + Drop, B: Disk + Drop, R: Wait>(
    rt: &R,
    parts: &CoreParts<C, B>,
    seat: &mut CoreSeat<C, B>,
    hand: &mut Hand<C, B>,
    of: LineNumber,
) -> Result<(), StepError>
    requires works { Works C.facts B.facts parts.now seat.old hand.old }
    requires plain { are_plain C.facts B.facts parts.now.run.start ≡ true }
    requires promise { 3 ≤ seat.old.promises }
    requires line { worker_of seat.old.first ≡ of.worker }
    ensures works { Works C.facts B.facts parts.now seat.new hand.new }
    ensures hand { kinds hand.new ≡ kinds hand.old }
    ensures claim { (note C.facts B.facts seat.new).range ≡ (note C.facts B.facts seat.old).range }
    ensures left { seat.old.promises ≤ seat.new.promises + 3 }
    ensures ok { OnOk result (HasFlushed C.facts B.facts of seat.old seat.new) }
    ensures err { IfErr result (λ error. HasStopped C.facts B.facts error of seat.old seat.new) }
{
    match flush_from(rt, parts, seat, hand, of) {
        Ok(()) => {}
        Err(error) => return Err(error),
    }
    match backing_barrier(rt, parts, seat, hand) {
        Ok(()) => {}
        Err(error) => return Err(error),
    }
    flush_done(rt, parts, seat, hand, of)
}

/// Serves the flush of a line: at `Ok` each write that was answered before it began is stable. It
/// makes one barrier of the backing device.
pub fn flush<C: Disk + Drop, B: Disk + Drop, R: Wait, G: Gate>(
    rt: &R,
    parts: &CoreParts<C, B>,
    seat: &mut CoreSeat<C, B>,
    stock: &mut Stock<C, B>,
    job: &Job,
    _gate: &G,
) -> Result<(), RequestError>
    requires ready { IsReady C.facts B.facts parts.now seat.old stock.old }
    requires its { IsFor C.facts B.facts job.now seat.old }
    ensures ready { IsReady C.facts B.facts parts.now seat.new stock.new }
    ensures ok { OnOk result (HasFlushedFor C.facts B.facts (line_of job.now) seat.old seat.new) }
    ensures err { IfErr result (λ error. HasNotFlushed C.facts B.facts error (line_of job.now)
        seat.old seat.new) }
{
    let Ok(()) = take_room(rt, parts, seat, stock, 3) else {
        return Err(RequestError::Memory);
    };
    match flush_line(rt, parts, seat, &mut stock.hand, job.of()) {
        Ok(()) => Ok(()),
        Err(error) => Err(refusal(error)),
    }
}
