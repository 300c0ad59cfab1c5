//! Flushes of lines.
ghost use Rattle.std.specs.Prelude.{◌≡◌, ◌≤◌, ◌∷◌, [], true, false, OnOk, IfErr};
ghost use Rattle.bc_entry.specs.bc_deed.Flushed.{HasDone};
ghost use Rattle.bc_events.specs.declared.event.Deed.{Deed};
ghost use Rattle.bc_flush.specs.Durable.{IsFlushed};
ghost use Rattle.bc_flush.specs.Flushed.{HasFlushed, HasNotEnded, HasNotFlushed};
ghost use Rattle.bc_entry.specs.bc_hand.Seats.{Works, empty, note, world};
ghost use Rattle.bc_request.specs.bc_job.Asked.{line_of};
ghost use Rattle.bc_entry.specs.bc_machine.Plain.{worker_of};
ghost use Rattle.bc_entry.specs.bc_machine.World.{FromEach, are_plain, cache_among};
ghost use Rattle.bc_request.specs.Asked.{IsIdle};

use crate::error::{FlushError, refusal};
use crate::said::flush_done;
use crate::sync::sync_journal;
use bc_disk::disk::Disk;
use bc_entry::bc_deed::backing::backing_barrier;
use bc_entry::bc_deed::promise::promise;
use bc_entry::bc_deed::said::flush_from;
use bc_entry::bc_hand::hand::Hand;
use bc_entry::bc_machine::machine::{CoreParts, CoreSeat};
use bc_events::event::LineNumber;
use bc_request::bc_job::job::Job;
use bc_worker::gate::Gate;
use std::alloc::Global;
use std::sync::Wait;

/// How many deeds a flush is at most, before its barrier and from there on.
const BEFORE: u32 = 6;

const BEHIND: u32 = 2;

/// Serves the flush of a line: at `Ok` each write that was answered before it began is stable, on
/// whichever device it is. Where keys wait it puts one entry, and then it makes one barrier of the
/// backing device.
///
/// At `Err` the flush isn't acknowledged, and the seat is idle again. `Fault` is a call of this flush
/// that failed, of the entry or its barrier, which halted the run; `Halted` names the device that
/// had halted it before. `Memory` may come before the flush begins, before the entry, and before the
/// barrier. `Outside` comes before the entry. The seat has room for as many deeds as before, or
/// more.
pub fn flush<C: Disk + Drop, B: Disk + Drop, R: Wait, G: Gate>(
    rt: &R,
    alloc: Global,
    parts: &CoreParts<C, B>,
    seat: &mut CoreSeat<C, B>,
    job: &Job,
    _gate: &G,
) -> Result<(), FlushError>
    requires idle { IsIdle C.facts B.facts parts.now seat.old }
    requires worker { worker_of seat.old.first ≡ job.now.worker }
    ensures idle { IsIdle C.facts B.facts parts.now seat.new }
    ensures left { seat.old.promises ≤ seat.new.promises }
    ensures ok { OnOk result (HasFlushed C.facts B.facts (line_of job.now) seat.old
        seat.new) }
    ensures err { IfErr result (λ error. HasNotFlushed C.facts B.facts
        (cache_among C.facts B.facts parts.now.run.start).sectors error (line_of job.now)
        seat.old seat.new) }
{
    let mut hand = Hand::empty();
    let Ok(()) = promise(rt, parts, seat, &mut hand, BEFORE) else {
        return Err(FlushError::Memory);
    };
    match flush_from(rt, parts, seat, &mut hand, job.of()) {
        Ok(()) => {}
        Err(error) => return Err(refusal(error)),
    }
    match sync_journal(rt, alloc, parts, seat) {
        Ok(()) => {}
        Err(error) => return Err(error),
    }
    end(rt, parts, seat, job.of())
}

// Makes the barrier of a flush whose keys are durable, and acknowledges it.
fn end<C: Disk + Drop, B: Disk + Drop, R: Wait>(
    rt: &R,
    parts: &CoreParts<C, B>,
    seat: &mut CoreSeat<C, B>,
    of: LineNumber,
) -> Result<(), FlushError>
    requires works { Works C.facts B.facts parts.now seat.old empty }
    requires cached { are_plain C.facts B.facts parts.now.run.start ≡ false }
    requires line { worker_of seat.old.first ≡ of.worker }
    requires going { (note C.facts B.facts seat.old).flush.going ≡ true }
    requires its { (note C.facts B.facts seat.old).flush.line ≡ of.line }
    requires flushed { FromEach (world C.facts B.facts seat.old) (IsFlushed seat.old.first) }
    ensures works { Works C.facts B.facts parts.now seat.new empty }
    ensures left { seat.old.promises ≤ seat.new.promises }
    ensures ok { OnOk result (HasDone C.facts B.facts
        (Deed.BackingBarrier ∷ Deed.FlushDone of ∷ []) seat.old seat.new) }
    ensures err { IfErr result (λ error. HasNotEnded C.facts B.facts error seat.old seat.new) }
{
    let mut hand = Hand::empty();
    let hand = &mut hand;
    let Ok(()) = promise(rt, parts, seat, hand, BEHIND) else {
        return Err(FlushError::Memory);
    };
    match backing_barrier(rt, parts, seat, hand) {
        Ok(()) => {}
        Err(error) => return Err(refusal(error)),
    }
    match flush_done(rt, parts, seat, hand, of) {
        Ok(()) => Ok(()),
        Err(error) => Err(refusal(error)),
    }
}
