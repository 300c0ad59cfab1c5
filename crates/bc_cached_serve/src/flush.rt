//! Flushes of lines.
//!
//! No key waits for an entry of the journal in such a run: the first entry took all, and no line
//! brings one. So what a flush makes durable lies on the backing device, and one barrier of it is
//! all that it does. That no key waits is known to the one seat, not to a seat that is cut off from
//! it. So the seat of worker 1 is taken in behind the beginning of the flush, which notes how many
//! keys had come in, and cut off again: that all of these are durable stays so, whatever others do.
ghost use Rattle.std.specs.Prelude.{◌≡◌, ◌∷◌, [], true, false, IfErr, OnOk};
ghost use Rattle.bc_serve.specs.bc_deed.Flushed.{HasDone};
ghost use Rattle.bc_events.specs.declared.event.Deed.{Deed};
ghost use Rattle.bc_flush.specs.Durable.{IsFlushed};
ghost use Rattle.bc_serve.specs.bc_hand.Seats.{Works, empty, note, world};
ghost use Rattle.bc_serve.specs.bc_machine.Plain.{worker_of};
ghost use Rattle.bc_serve.specs.bc_machine.World.{FromEach, are_plain};
ghost use Rattle.bc_script.specs.Answer.{IsPrintable};
ghost use Rattle.bc_cached_serve.specs.Answered.{HasServedFlush};
ghost use Rattle.bc_cached_serve.specs.Deeds.{refusal_of_step};
ghost use Rattle.bc_cached_serve.specs.Worker.{HasBegun, HasNotBegun, HasNotEnded, IsReady};

use crate::worker::{cut_off, take_in};
use bc_disk::disk::Disk;
use bc_events::event::LineNumber;
use bc_flush::said::flush_done;
use bc_script::answer::{Answer, Refusal};
use bc_serve::bc_deed::backing::backing_barrier;
use bc_serve::bc_deed::bc_hand::error::StepError;
use bc_serve::bc_deed::bc_hand::hand::Hand;
use bc_serve::bc_deed::promise::promise;
use bc_serve::bc_deed::said::flush_from;
use bc_serve::bc_machine::machine::{CoreParts, CoreSeat};
use std::sync::Wait;

// The refusal of a flush of which a step was refused.
fn refusal_of_step(error: StepError) -> Refusal
    ensures { result ≡ refusal_of_step error }
{
    match error {
        StepError::Fault(device) => Refusal::Fault(device),
        StepError::Halted(device) => Refusal::Halted(device),
        StepError::Memory => Refusal::Memory,
    }
}

// Begins the flush of a line.
fn begin<C: Disk + Drop, B: Disk + Drop, R: Wait>(
    rt: &R,
    parts: &CoreParts<C, B>,
    seat: &mut CoreSeat<C, B>,
    of: LineNumber,
) -> Result<(), StepError>
    requires works { Works C.facts B.facts parts.now seat.old empty }
    requires line { worker_of seat.old.first ≡ of.worker }
    ensures works { Works C.facts B.facts parts.now seat.new empty }
    ensures ok { OnOk result (HasBegun C.facts B.facts of seat.old seat.new) }
    ensures err { IfErr result (λ error. HasNotBegun C.facts B.facts error seat.old seat.new) }
{
    let mut hand = Hand::empty();
    let Ok(()) = promise(rt, parts, seat, &mut hand, 1) else {
        return Err(StepError::Memory);
    };
    flush_from(rt, parts, seat, &mut hand, of)
}

// Makes the barrier of a flush that has begun, and acknowledges it. All that had come into the
// index when it began is durable.
fn end<C: Disk + Drop, B: Disk + Drop, R: Wait>(
    rt: &R,
    parts: &CoreParts<C, B>,
    seat: &mut CoreSeat<C, B>,
    of: LineNumber,
) -> Result<(), StepError>
    requires works { Works C.facts B.facts parts.now seat.old empty }
    requires cached { are_plain C.facts B.facts parts.now.run.start ≡ false }
    requires line { worker_of seat.old.first ≡ of.worker }
    requires going { (note C.facts B.facts seat.old).flush.going ≡ true }
    requires its { (note C.facts B.facts seat.old).flush.line ≡ of.line }
    requires flushed { FromEach (world C.facts B.facts seat.old) (IsFlushed seat.old.first) }
    ensures works { Works C.facts B.facts parts.now seat.new empty }
    ensures ok { OnOk result (HasDone C.facts B.facts
        (Deed.BackingBarrier ∷ Deed.FlushDone of ∷ []) seat.old seat.new) }
    ensures err { IfErr result (λ error. HasNotEnded C.facts B.facts error seat.old seat.new) }
{
    let mut hand = Hand::empty();
    let hand = &mut hand;
    let Ok(()) = promise(rt, parts, seat, hand, 2) else {
        return Err(StepError::Memory);
    };
    match backing_barrier(rt, parts, seat, hand) {
        Ok(()) => {}
        Err(error) => return Err(error),
    }
    flush_done(rt, parts, seat, hand, of)
}

// Serves the flush of a line of worker 1.
pub(crate) fn serve_flush<C: Disk + Drop, B: Disk + Drop, R: Wait>(
    rt: &R,
    parts: &CoreParts<C, B>,
    seat: &mut CoreSeat<C, B>,
    of: LineNumber,
) -> Answer
    requires ready { IsReady C.facts B.facts parts.now seat.old }
    requires worker { of.worker ≡ 1 }
    ensures ready { IsReady C.facts B.facts parts.now seat.new }
    ensures printable { IsPrintable result }
    ensures served { HasServedFlush C.facts B.facts of result seat.old seat.new }
{
    let mut worker = cut_off(parts, seat);
    let begun = begin(rt, parts, &mut worker, of);
    take_in(parts, seat, worker);
    match begun {
        Ok(()) => {}
        Err(error) => return Answer::Refused(refusal_of_step(error)),
    }
    let mut worker = cut_off(parts, seat);
    let ended = end(rt, parts, &mut worker, of);
    take_in(parts, seat, worker);
    match ended {
        Ok(()) => Answer::Done,
        Err(error) => Answer::Refused(refusal_of_step(error)),
    }
}
