//! Measures what the calls of buckets, places, claims, candidates and streaks cost, at some sizes.
//! `bench/containers.cpp` does the same with plain lists.
#![tactic(auto)]

mod claims;
mod measured;
mod places;
mod random;
mod streaks;
mod walks;

use crate::measured::Measured;
use std::process::ExitCode;
use std::time::CpuClock;
use std::{env, io};

/// What is measured.
const NAMES: [&str; 6] = ["walk", "age", "place", "claim", "candidate", "streak"];

/// The sizes of a run with no words.
const SMALL: [u32; 6] = [1000, 1000, 1000, 16, 64, 4];

// Measures this, or answers `None` where there is no such name or it has no such size.
fn measure<R: CpuClock + AllocGlobal>(
    rt: &R,
    name: &str,
    size: u32,
    rounds: u32,
) -> io::Result<Option<Measured>> {
    let is_device = 128 <= size && size <= 1_048_576;
    match name {
        "walk" if is_device => Ok(Some(walks::measure_walks(rt, size, rounds)?)),
        "age" if is_device => Ok(Some(walks::measure_aging(rt, size, rounds)?)),
        "place" if is_device => Ok(Some(places::measure(rt, size, rounds)?)),
        "claim" if size <= 320 => Ok(Some(claims::measure_claims(rt, size, rounds)?)),
        "candidate" if size <= 64 => Ok(Some(claims::measure_candidates(rt, size, rounds)?)),
        "streak" if 0 < size && size <= 16 => Ok(Some(streaks::measure(rt, size as u8, rounds)?)),
        _ => Ok(None),
    }
}

// Measures each at a small size, and prints what tells the results from others.
fn run_all<R: CpuClock + Print + AllocGlobal>(rt: &R) -> io::Result<ExitCode> {
    for (name, size) in NAMES.into_iter().zip(SMALL) {
        if let Some(measured) = measure(rt, name, size, 10)? {
            println!(rt; "{name} {size}: sum {}", measured.sum)?;
        }
    }
    Ok(ExitCode::SUCCESS)
}

// Measures what these words ask for, and prints what tells the result from others, and the microseconds
// of processor time.
fn run<R: CpuClock + Print + Eprint + AllocGlobal>(
    rt: &R,
    words: &[String],
) -> io::Result<ExitCode> {
    let [name, size, rounds] = words else {
        return usage(rt);
    };
    let (Ok(size), Ok(rounds)) = (size.parse::<u32>(), rounds.parse::<u32>()) else {
        return usage(rt);
    };
    let Some(measured) = measure(rt, name.as_str(), size, rounds)? else {
        return usage(rt);
    };
    println!(rt; "{} {size}: sum {}", name.as_str(), measured.sum)?;
    println!(rt; "{} us", measured.spent.as_micros())?;
    Ok(ExitCode::SUCCESS)
}

// Says how the program is to be called.
fn usage<R: Eprint>(rt: &R) -> io::Result<ExitCode> {
    eprintln!(rt; "usage: bc_containers_bench [WHAT SIZE ROUNDS]")?;
    Ok(ExitCode::from(2))
}

fn main(rt: HostRuntime) -> io::Result<ExitCode> {
    let words: Vec<String> = env::args(&rt)?.skip(1).collect(rt.alloc())?;
    if words.is_empty() {
        return run_all(&rt);
    }
    run(&rt, &words)
}
