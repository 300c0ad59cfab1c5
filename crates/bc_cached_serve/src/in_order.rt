//! The lines of a trace, served in order.
ghost use Rattle.std.specs.Prelude.{◌≡◌, ◌<◌, ◌≤◌, ◌^◌, All, [], length, vec_capacity, IfErr, IfOk};
ghost use Rattle.bc_serve.specs.bc_deed.Asked.{size_of};
ghost use Rattle.bc_serve.specs.bc_job.Asked.{IsFor, IsRange};
ghost use Rattle.bc_flush.specs.bc_request.Asked.{IsIdle};
ghost use Rattle.bc_script.specs.Answer.{IsPrintable};
ghost use Rattle.bc_script.specs.Proper.{IsLine};
ghost use Rattle.bc_cached_serve.specs.Answered.{HasAnsweredRead, HasHalfServedLine, HasHalfServedRead, HasServedLine, HasServedRead, HasStoppedRead, KeepsValues};
ghost use Rattle.bc_cached_serve.specs.Served.{HaveServed};
ghost use Rattle.bc_cached_serve.specs.Worker.{IsReady};

use crate::flush::serve_flush;
use crate::refused::refused;
use crate::unsound::Unsound;
use crate::worker::{cut_off, take_in};
use bc_disk::disk::Disk;
use bc_events::event::LineNumber;
use bc_flush::bc_request::error::RequestError;
use bc_flush::bc_request::read::read;
use bc_script::answer::Answer;
use bc_script::line::{Action, Line};
use bc_serve::bc_job::job::Job;
use bc_serve::bc_machine::machine::{CoreParts, CoreSeat};
use bc_worker::gate::Gate;
use std::alloc::Global;
use std::sync::Wait;

// Reads the sectors of a line.
fn read_sectors<C: Disk + Drop, B: Disk + Drop, R: Wait, G: Gate>(
    rt: &R,
    alloc: Global,
    parts: &CoreParts<C, B>,
    seat: &mut CoreSeat<C, B>,
    job: &Job,
    gate: &G,
) -> Result<Answer, RequestError>
    requires idle { IsIdle C.facts B.facts parts.now seat.old }
    requires its { IsFor C.facts B.facts job.now seat.old }
    requires range { IsRange job.now }
    ensures idle { IsIdle C.facts B.facts parts.now seat.new }
    ensures printable { IfOk result IsPrintable }
    ensures ok { IfOk result (λ answer. HasAnsweredRead C.facts B.facts parts.now job.now answer
        seat.old seat.new) }
    ensures err { IfErr result (λ why. HasStoppedRead C.facts B.facts parts.now job.now why
        seat.old seat.new) }
{
    match read(rt, alloc, parts, seat, job, gate) {
        Ok(values) => Ok(Answer::Runs {
            first: job.first,
            values,
        }),
        Err(error) => refused(error),
    }
}

// Serves a line of worker 1 that reads.
fn serve_read<C: Disk + Drop, B: Disk + Drop, R: Wait, G: Gate>(
    rt: &R,
    alloc: Global,
    parts: &CoreParts<C, B>,
    seat: &mut CoreSeat<C, B>,
    job: &Job,
    gate: &G,
) -> Result<Answer, RequestError>
    requires ready { IsReady C.facts B.facts parts.now seat.old }
    requires worker { job.now.worker ≡ 1 }
    requires size { job.now.size ≡ size_of C.facts B.facts seat.old.run.start }
    requires range { IsRange job.now }
    ensures ready { IsReady C.facts B.facts parts.now seat.new }
    ensures printable { IfOk result IsPrintable }
    ensures ok { IfOk result (λ answer. HasServedRead C.facts B.facts parts.now job.now answer
        seat.old seat.new) }
    ensures err { IfErr result (λ why. HasHalfServedRead C.facts B.facts parts.now job.now why
        seat.old seat.new) }
{
    let mut worker = cut_off(parts, seat);
    let result = read_sectors(rt, alloc, parts, &mut worker, job, gate);
    take_in(parts, seat, worker);
    result
}

// Serves the line of this number over a device of so many data sectors.
fn serve_line<C: Disk + Drop, B: Disk + Drop, R: Wait, G: Gate>(
    rt: &R,
    alloc: Global,
    parts: &CoreParts<C, B>,
    seat: &mut CoreSeat<C, B>,
    size: u64,
    number: u32,
    line: Line,
    gate: &G,
) -> Result<Answer, RequestError>
    requires ready { IsReady C.facts B.facts parts.now seat.old }
    requires size { size ≡ size_of C.facts B.facts seat.old.run.start }
    requires line { IsLine line }
    requires keeps { KeepsValues line }
    ensures ready { IsReady C.facts B.facts parts.now seat.new }
    ensures printable { IfOk result IsPrintable }
    ensures ok { IfOk result (λ answer. HasServedLine C.facts B.facts parts.now size number line
        answer seat.old seat.new) }
    ensures err { IfErr result (λ why. HasHalfServedLine C.facts B.facts parts.now size number line
        why seat.old seat.new) }
{
    let Line::Request { worker, action, .. } = line else {
        return Ok(Answer::Silent);
    };
    match action {
        Action::Read { first, count } => {
            let job = Job {
                worker,
                line: number,
                first,
                count,
                size,
                force: false,
            };
            serve_read(rt, alloc, parts, seat, &job, gate)
        }
        Action::Flush => {
            let of = LineNumber {
                worker,
                line: number,
            };
            Ok(serve_flush(rt, parts, seat, of))
        }
        _ => unreachable!(),
    }
}

/// Serves the lines in order, each of which reads, flushes or asks for nothing, over a device of so
/// many data sectors, and puts an answer to each behind the others, for which there is room. The
/// seat has all numbers of the run; each line is served by that of worker 1, which is cut off from
/// it meanwhile.
///
/// `Unsound` comes from the first line that was refused for a cause of which no answer has a word.
/// Each line before it is answered then, and what it had read itself stands in the history.
pub fn serve_lines<C: Disk + Drop, B: Disk + Drop, R: Wait, G: Gate>(
    rt: &R,
    alloc: Global,
    parts: &CoreParts<C, B>,
    seat: &mut CoreSeat<C, B>,
    size: u64,
    lines: &[Line],
    answers: &mut Vec<Answer>,
    gate: &G,
) -> Result<(), Unsound>
    requires ready { IsReady C.facts B.facts parts.now seat.old }
    requires size { size ≡ size_of C.facts B.facts seat.old.run.start }
    requires lines { All IsLine lines.now }
    requires keep { All KeepsValues lines.now }
    requires few { length lines.now < 2 ^ 32 }
    requires none { answers.old.items ≡ [] }
    requires room { length lines.now ≤ vec_capacity answers.old }
    ensures ready { IsReady C.facts B.facts parts.now seat.new }
    ensures printable { All IsPrintable answers.new.items }
    ensures served { HaveServed C.facts B.facts parts.now size lines.now answers.new.items result
        seat.old seat.new }
{
    for (index, line) in lines.iter().enumerate() {
        let number = index as u32 + 1;
        let answer = match serve_line(rt, alloc, parts, seat, size, number, *line, gate) {
            Ok(answer) => answer,
            Err(why) => return Err(Unsound { line: number, why }),
        };
        answers.push_reserved(answer);
    }
    Ok(())
}
