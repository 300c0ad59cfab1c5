//! A trace served over a backing device, from the beginning of the run to its end.
ghost use Rattle.std.specs.Prelude.{◌≡◌, ◌+◌, ◌<◌, ◌≤◌, ◌^◌, All, List, length, IfOk, IfErr};
ghost use Rattle.bc_events.specs.declared.event.Event.{Event};
ghost use Rattle.bc_disk.specs.Disk.{StandsFor, IfTold};
ghost use Rattle.bc_disk.specs.Stands.{settled_model};
ghost use Rattle.bc_plain_laws.specs.Promises.{LeavesLastWrites, IsUntouched, Survives};
ghost use Rattle.bc_script.specs.Answer.{IsPrintable};
ghost use Rattle.bc_script.specs.Proper.{IsLine};
ghost use Rattle.bc_serve.specs.Run.{HasRun};
ghost use Rattle.bc_serve.specs.declared.closing.Closing.TheVariants as closings;

use crate::closing::{Closing, close};
use crate::in_order::serve_lines;
use bc_book::pass::Pass;
use bc_disk::disk::Disk;
use bc_job::bc_deed::run::{Ended, begin, end, join, split};
use bc_plain_laws::bc_machine::part::BackingPart;
use bc_script::answer::Answer;
use bc_script::line::Line;
use bc_worker::gate::Gate;
use std::alloc::Global;
use std::sync::Wait;

/// The first number of the seat that serves the lines of worker 1.
pub const WORKER: u32 = 16;

/// What the run of a trace leaves.
#[derive(Drop)]
pub struct Outcome<B> {
    pub backing: BackingPart<B>,
    pub pass: Pass,
    /// The answer to each line, in order.
    pub answers: Vec<Answer>,
    pub closing: Closing,
}

/// Serves the lines of a trace over a device of which a crash would leave exactly what it holds
/// now, and closes the run. `Err` comes from want of memory to begin, and hands the device back as
/// it was.
pub fn run_trace<C: Disk + Drop, B: Disk + Drop, R: Wait, G: Gate>(
    rt: &R,
    alloc: Global,
    backing: BackingPart<B>,
    lines: &[Line],
    gate: &G,
) -> Result<Outcome<B>, BackingPart<B>>
    requires settled { StandsFor (B.facts backing.disk) (settled_model (B.facts backing.disk)) }
    requires inside { backing.offset + backing.size ≤ (B.facts backing.disk).sectors }
    requires lines { All IsLine lines.now }
    requires few { length lines.now < 2 ^ 32 }
    ensures err { IfErr result (λ device. device ≡ backing) }
    ensures printable { IfOk result (λ o. All IsPrintable o.answers.items) }
    ensures run { IfOk result (λ o. (events : List Event) × HasRun C.facts B.facts backing o.backing
        lines.now o.answers.items o.closing events o.pass) }
    ensures survives { IfOk result (λ o. IfTold (B.facts backing.disk).holds (λ image.
        Survives backing.offset image o.pass.entries.items (B.facts o.backing.disk))) }
    ensures stable { IfOk result (λ o. o.closing ≡ closings.Done
        → IfTold (B.facts backing.disk).holds (λ image.
        LeavesLastWrites backing.offset image o.pass.entries.items (B.facts o.backing.disk))) }
    ensures outside { IfOk result (λ o. IfTold (B.facts backing.disk).holds (λ image.
        IsUntouched backing.offset backing.size image (B.facts o.backing.disk))) }
{
    let Ok(mut answers) = Vec::with_capacity(alloc, lines.len()) else {
        return Err(backing);
    };
    let size = backing.size;
    let (parts, mut seat) = match begin::<C, B>(alloc, backing) {
        Ok(run) => run,
        Err(backing) => return Err(backing),
    };
    let mut worker = split(&parts, &mut seat, WORKER);
    serve_lines(
        rt,
        alloc,
        &parts,
        &mut worker,
        size,
        lines,
        &mut answers,
        gate,
    );
    join(&parts, &mut seat, worker);
    let closing = close(rt, &parts, &mut seat);
    let Ended { backing, pass } = end(parts, seat);
    Ok(Outcome {
        backing,
        pass,
        answers,
        closing,
    })
}
