//! Measures what a run in parts costs under contention. Sixteen threads commit events to one run,
//! and then put as many into the same kind of Book under one lock.
#![tactic(auto)]

ghost use Rattle.std.specs.Prelude.{◌≡◌, ◌↔◌, [], ◌∷◌, map, string_bytes, codes};

mod in_parts;
mod log;
mod under_lock;

use in_parts::run_in_parts;
use std::process::ExitCode;
use std::rt::Clock;
use std::sync::Wait;
use std::thread::Threads;
use std::time::{Duration, Instant};
use std::{env, io};
use under_lock::run_under_lock;

/// How many threads a run has. Each has a seat of its own.
pub const SEATS: u32 = 16;

/// How many events each thread adds.
pub const EVENTS: u32 = 10_000;

/// What is printed.
#[derive(Clone, Copy, Drop)]
enum Mode {
    /// The counts of events, which depend on no clock and no schedule.
    Counts,
    /// The times and their ratio too.
    Times,
}

// What these arguments ask for, or `None` where they are wrong.
fn mode_of(arguments: &[String]) -> Option<Mode>
    ensures counts { (result ≡ Some Mode.Counts) ↔ (arguments.now ≡ []) }
    ensures times { (result ≡ Some Mode.Times) ↔ (map string_bytes arguments.now ≡ codes "--time" ∷ []) }
{
    match arguments {
        [] => Some(Mode::Counts),
        [word] if word.as_str() == "--time" => Some(Mode::Times),
        _ => None,
    }
}

// The milliseconds of both, and how many times as long the run in parts took.
fn print_times<R: Print>(rt: &R, in_parts: Duration, under_lock: Duration) -> io::Result<()> {
    let ratio = in_parts.div_duration_f64(under_lock);
    println!(rt; "parts: {} ms", in_parts.as_millis())?;
    println!(rt; "mutex: {} ms", under_lock.as_millis())?;
    println!(rt; "ratio: {ratio:.2}")
}

// Runs both. It answers failure where their counts differ: one of them is proved.
fn compare<R: Threads + Wait + Sync + Clock + Print + AllocGlobal>(
    rt: &R,
    mode: Mode,
) -> io::Result<ExitCode> {
    let start = Instant::now(rt)?;
    let committed = run_in_parts(rt, rt.alloc(), EVENTS)?.entries.len();
    let in_parts = start.elapsed(rt)?;
    let start = Instant::now(rt)?;
    let put = run_under_lock(rt, rt.alloc(), EVENTS)?.entries.len();
    let under_lock = start.elapsed(rt)?;
    println!(rt; "parts: {committed} events")?;
    println!(rt; "mutex: {put} events")?;
    if let Mode::Times = mode {
        print_times(rt, in_parts, under_lock)?;
    }
    if committed != put {
        return Ok(ExitCode::FAILURE);
    }
    Ok(ExitCode::SUCCESS)
}

fn main(rt: HostRuntime) -> io::Result<ExitCode> {
    let arguments: Vec<String> = env::args(&rt)?.skip(1).collect(rt.alloc())?;
    match mode_of(&arguments) {
        Some(mode) => compare(&rt, mode),
        None => {
            eprintln!(rt; "usage: bc_parts_bench [--time]")?;
            Ok(ExitCode::from(2))
        }
    }
}
