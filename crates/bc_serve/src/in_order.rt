//! The lines of a trace, served in order by one seat.
ghost use Rattle.std.specs.Prelude.{◌≡◌, ◌<◌, ◌≤◌, ◌^◌, All, [], length, vec_capacity};
ghost use Rattle.bc_plain_laws.specs.bc_machine.Plain.{worker_of};
ghost use Rattle.bc_job.specs.bc_deed.Asked.{size_of};
ghost use Rattle.bc_job.specs.Asked.{IsFor, IsIdle, IsRange, IsReady};
ghost use Rattle.bc_script.specs.Answer.{IsPrintable};
ghost use Rattle.bc_script.specs.Proper.{IsLine};
ghost use Rattle.bc_serve.specs.Answered.{HasAnsweredFlush, HasAnsweredLine, HasAnsweredRead, HasAnsweredWrite};
ghost use Rattle.bc_serve.specs.Refusals.{refusal_of};
ghost use Rattle.bc_serve.specs.Run.{HaveAnswered};

use bc_disk::disk::Disk;
use bc_job::error::RequestError;
use bc_job::flush::flush;
use bc_job::job::Job;
use bc_job::read::read;
use bc_job::stock::Stock;
use bc_job::write::write;
use bc_model::values::Values;
use bc_plain_laws::bc_machine::machine::{CoreParts, CoreSeat};
use bc_script::answer::{Answer, Refusal};
use bc_script::line::{Action, Line};
use bc_worker::gate::Gate;
use std::alloc::Global;
use std::sync::Wait;

// What a line is answered where its request was refused.
fn refused(error: RequestError) -> Answer
    ensures { result ≡ Answer.Refused (refusal_of error) }
{
    Answer::Refused(match error {
        RequestError::OutOfRange => Refusal::OutOfRange,
        RequestError::Fault(device) => Refusal::Fault(device),
        RequestError::Halted(device) => Refusal::Halted(device),
        RequestError::Memory => Refusal::Memory,
    })
}

// Writes the patterns of the stamp for a line, and where it is forced makes them durable.
fn serve_write<C: Disk + Drop, B: Disk + Drop, R: Wait, G: Gate>(
    rt: &R,
    alloc: Global,
    parts: &CoreParts<C, B>,
    seat: &mut CoreSeat<C, B>,
    stock: &mut Stock<C, B>,
    job: &Job,
    stamp: u64,
    gate: &G,
) -> Answer
    requires ready { IsReady C.facts B.facts parts.now seat.old stock.old }
    requires range { IsRange job.now }
    requires its { IsFor C.facts B.facts job.now seat.old }
    requires stamp { 1 ≤ stamp }
    ensures ready { IsReady C.facts B.facts parts.now seat.new stock.new }
    ensures printable { IsPrintable result }
    ensures serves { HasAnsweredWrite C.facts B.facts job.now stamp result seat.old seat.new }
{
    if job.is_outside() {
        return Answer::Refused(Refusal::OutOfRange);
    }
    let mut values = Values::new(alloc);
    let Ok(()) = values.push_pattern(stamp, job.first, job.count) else {
        return Answer::Refused(Refusal::Memory);
    };
    match write(rt, alloc, parts, seat, stock, job, &values, gate) {
        Ok(()) => Answer::Done,
        Err(error) => refused(error),
    }
}

// Reads the sectors of a line.
fn serve_read<C: Disk + Drop, B: Disk + Drop, R: Wait, G: Gate>(
    rt: &R,
    alloc: Global,
    parts: &CoreParts<C, B>,
    seat: &mut CoreSeat<C, B>,
    stock: &mut Stock<C, B>,
    job: &Job,
    gate: &G,
) -> Answer
    requires ready { IsReady C.facts B.facts parts.now seat.old stock.old }
    requires range { IsRange job.now }
    requires its { IsFor C.facts B.facts job.now seat.old }
    ensures ready { IsReady C.facts B.facts parts.now seat.new stock.new }
    ensures printable { IsPrintable result }
    ensures serves { HasAnsweredRead C.facts B.facts job.now result seat.old seat.new }
{
    match read(rt, alloc, parts, seat, stock, job, gate) {
        Ok(values) => Answer::Runs {
            first: job.first,
            values,
        },
        Err(error) => refused(error),
    }
}

// Makes all that was written before durable, for a line.
fn serve_flush<C: Disk + Drop, B: Disk + Drop, R: Wait, G: Gate>(
    rt: &R,
    parts: &CoreParts<C, B>,
    seat: &mut CoreSeat<C, B>,
    stock: &mut Stock<C, B>,
    job: &Job,
    gate: &G,
) -> Answer
    requires ready { IsReady C.facts B.facts parts.now seat.old stock.old }
    requires its { IsFor C.facts B.facts job.now seat.old }
    ensures ready { IsReady C.facts B.facts parts.now seat.new stock.new }
    ensures printable { IsPrintable result }
    ensures serves { HasAnsweredFlush C.facts B.facts job.now result seat.old seat.new }
{
    match flush(rt, parts, seat, stock, job, gate) {
        Ok(()) => Answer::Done,
        Err(error) => refused(error),
    }
}

// Serves the line of this number over a device of so many data sectors.
fn serve_line<C: Disk + Drop, B: Disk + Drop, R: Wait, G: Gate>(
    rt: &R,
    alloc: Global,
    parts: &CoreParts<C, B>,
    seat: &mut CoreSeat<C, B>,
    stock: &mut Stock<C, B>,
    size: u64,
    number: u32,
    line: Line,
    gate: &G,
) -> Answer
    requires ready { IsReady C.facts B.facts parts.now seat.old stock.old }
    requires size { size ≡ size_of C.facts B.facts seat.old.run.start }
    requires worker { worker_of seat.old.first ≡ 1 }
    requires line { IsLine line }
    ensures ready { IsReady C.facts B.facts parts.now seat.new stock.new }
    ensures printable { IsPrintable result }
    ensures serves { HasAnsweredLine C.facts B.facts size number line result seat.old seat.new }
{
    let Line::Request { worker, action, .. } = line else {
        return Answer::Silent;
    };
    let mut job = Job {
        worker,
        line: number,
        first: 0,
        count: 0,
        size,
        force: false,
    };
    match action {
        Action::Write {
            first,
            count,
            stamp,
        } => {
            job.first = first;
            job.count = count;
            serve_write(rt, alloc, parts, seat, stock, &job, stamp, gate)
        }
        Action::ForcedWrite {
            first,
            count,
            stamp,
        } => {
            job.first = first;
            job.count = count;
            job.force = true;
            serve_write(rt, alloc, parts, seat, stock, &job, stamp, gate)
        }
        Action::Read { first, count } => {
            job.first = first;
            job.count = count;
            serve_read(rt, alloc, parts, seat, stock, &job, gate)
        }
        Action::Flush => serve_flush(rt, parts, seat, stock, &job, gate),
        // Without a cache there is nothing that a round could do.
        Action::Round(_) => Answer::Done,
    }
}

/// Serves the lines in order, over a device of so many data sectors, and puts an answer to each
/// behind the others, for which there is room.
pub fn serve_lines<C: Disk + Drop, B: Disk + Drop, R: Wait, G: Gate>(
    rt: &R,
    alloc: Global,
    parts: &CoreParts<C, B>,
    seat: &mut CoreSeat<C, B>,
    size: u64,
    lines: &[Line],
    answers: &mut Vec<Answer>,
    gate: &G,
)
    requires idle { IsIdle C.facts B.facts parts.now seat.old }
    requires size { size ≡ size_of C.facts B.facts seat.old.run.start }
    requires worker { worker_of seat.old.first ≡ 1 }
    requires lines { All IsLine lines.now }
    requires few { length lines.now < 2 ^ 32 }
    requires none { answers.old.items ≡ [] }
    requires room { length lines.now ≤ vec_capacity answers.old }
    ensures idle { IsIdle C.facts B.facts parts.now seat.new }
    ensures printable { All IsPrintable answers.new.items }
    ensures served { HaveAnswered C.facts B.facts size lines.now answers.new.items
        seat.old seat.new }
{
    let mut stock = Stock::empty();
    for (index, line) in lines.iter().enumerate() {
        let number = index as u32 + 1;
        answers.push_reserved(serve_line(
            rt, alloc, parts, seat, &mut stock, size, number, *line, gate,
        ));
    }
}
