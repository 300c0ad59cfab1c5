//! Measures the texts of traces and answers, and the generator of traces: how long a trace of so many
//! lines takes to be read, its answers to be printed, and as many lines to be generated.
//! `bench/trace.c` has the plain loops beside it. And it reads random lines with the reader of
//! traces and with the plain one, which have to answer alike, and makes each call that takes memory.
#![tactic(auto)]

ghost use Rattle.std.specs.Prelude.{◌<◌};

mod calls;
mod lines;
mod texts;

use crate::calls::CALLS;
use crate::lines::compare;
use crate::texts::{answers_of, generated, print_all, text_of};
use bc_disk::mem_source::MemSource;
use bc_script::script::TraceError;
use bc_script::trace::read_trace;
use std::process::ExitCode;
use std::rt::Clock;
use std::time::Instant;
use std::{env, io};

// Reads, prints and generates so many lines, and prints what they come to, and the microseconds of each.
fn run<R: Clock + Print + AllocGlobal>(rt: &R, lines: u32, timed: bool) -> io::Result<ExitCode>
    requires { lines < 1000000 }
{
    let mut source = MemSource::new(rt.alloc(), text_of(rt.alloc(), lines)?);
    let answers = answers_of(rt.alloc(), lines)?;
    let start = Instant::now(rt)?;
    let read = read_trace(rt.alloc(), &mut source);
    let reading = start.elapsed(rt)?;
    let start = Instant::now(rt)?;
    let printed = print_all(rt.alloc(), &answers)?;
    let printing = start.elapsed(rt)?;
    let start = Instant::now(rt)?;
    let made = generated(rt.alloc(), lines)?;
    let generating = start.elapsed(rt)?;
    let Ok(script) = read else {
        println!(rt; "refused")?;
        return Ok(ExitCode::from(1));
    };
    println!(rt; "{} {} {}", script.len(), printed.len(), made.len())?;
    if timed {
        println!(rt;
            "{} {} {} us",
            reading.as_micros(),
            printing.as_micros(),
            generating.as_micros()
        )?;
    }
    Ok(ExitCode::SUCCESS)
}

// Reads so many random lines with both readers, and prints how many both read and both refused, and
// at how many they differed.
fn run_random<R: Clock + Print + AllocGlobal>(rt: &R, lines: u32) -> io::Result<ExitCode> {
    let all = compare(rt.alloc(), lines)?;
    println!(rt;
        "{} read {} refused {} differing",
        all.read, all.refused, all.differing
    )?;
    Ok(ExitCode::from(u8::from(all.differing != 0)))
}

// Makes each call that takes memory, and prints what it answered.
fn run_calls<R: Print + AllocGlobal>(rt: &R) -> io::Result<ExitCode> {
    let mut status = 0;
    for call in CALLS {
        let outcome = call.make(rt.alloc())?;
        println!(rt; "{} {}", call.name(), outcome.name())?;
        status = outcome.status().max(status);
    }
    Ok(ExitCode::from(status))
}

// What the arguments ask for.
#[derive(Clone, Copy, Drop)]
enum Task {
    /// To measure with so many lines.
    Measure(u32),
    /// To read so many random lines.
    Random(u32),
    /// To make the calls that take memory.
    Calls,
}

// What these arguments ask for, or `None` where they are wrong.
fn task_of(arguments: &[String]) -> Option<Task> {
    match arguments {
        [word] if word.as_str() == "calls" => Some(Task::Calls),
        [lines] => Some(Task::Measure(lines.parse::<u32>().ok()?)),
        [word, lines] if word.as_str() == "random" => {
            Some(Task::Random(lines.parse::<u32>().ok()?))
        }
        _ => None,
    }
}

fn main(rt: HostRuntime) -> io::Result<ExitCode> {
    let arguments: Vec<String> = env::args(&rt)?.skip(1).collect(rt.alloc())?;
    if arguments.is_empty() {
        let _measured = run(&rt, 100, false)?;
        let _called = run_calls(&rt)?;
        return run_random(&rt, 400);
    }
    match task_of(&arguments) {
        Some(Task::Measure(lines)) if lines <= 262_144 => run(&rt, lines, true),
        Some(Task::Random(lines)) => run_random(&rt, lines),
        Some(Task::Calls) => run_calls(&rt),
        _ => {
            eprintln!(rt; "usage: bc_script_bench [LINES | random LINES | calls]")?;
            Ok(ExitCode::from(2))
        }
    }
}
