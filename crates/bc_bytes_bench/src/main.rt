//! Measures the checksum: how long it takes over 64 KiB. `bench/crc64.c` has the plain loop that it
//! is measured beside.
#![tactic(auto)]

ghost use Rattle.std.specs.Prelude.{◌≡◌};
ghost use Rattle.bc_bytes_bench.specs.Chain.{chain};

use bc_bytes::crc64;
use std::alloc::{AllocError, Global};
use std::process::ExitCode;
use std::rt::Clock;
use std::time::Instant;
use std::{env, io};

/// How many bytes a checksum is taken of.
const LENGTH: usize = 65536;

// The bytes that are summed: the low byte of each place times 167.
fn message(alloc: Global) -> Result<Vec<u8>, AllocError> {
    let mut bytes = Vec::new(alloc);
    for place in 0..LENGTH {
        bytes.push((place * 167 % 256) as u8)?;
    }
    Ok(bytes)
}

// Takes so many checksums of the bytes, each of which begins with the one before.
fn repeated(bytes: &[u8], rounds: u32) -> u64
    ensures { result ≡ chain rounds bytes.now }
{
    let mut sum = u64::MAX;
    for _round in 0..rounds {
        sum = crc64(sum, bytes);
    }
    sum
}

// Takes so many checksums, and prints the last one and the microseconds of them all.
fn run<R: Clock + Print + AllocGlobal>(rt: &R, rounds: u32, timed: bool) -> io::Result<ExitCode> {
    let bytes = message(rt.alloc())?;
    let start = Instant::now(rt)?;
    let sum = repeated(&bytes, rounds);
    let spent = start.elapsed(rt)?;
    println!(rt; "{sum:016x}")?;
    if timed {
        println!(rt; "{} us", spent.as_micros())?;
    }
    Ok(ExitCode::SUCCESS)
}

// How many checksums these arguments ask for, or `None` where they are wrong.
fn rounds_of(arguments: &[String]) -> Option<u32> {
    match arguments {
        [] => Some(1),
        [rounds] => rounds.parse::<u32>().ok(),
        _ => None,
    }
}

fn main(rt: HostRuntime) -> io::Result<ExitCode> {
    let arguments: Vec<String> = env::args(&rt)?.skip(1).collect(rt.alloc())?;
    match rounds_of(&arguments) {
        Some(rounds) => run(&rt, rounds, !arguments.is_empty()),
        None => {
            eprintln!(rt; "usage: bc_bytes_bench [ROUNDS]")?;
            Ok(ExitCode::from(2))
        }
    }
}
