//! Measures the readers of records: how long they take over a journal entry of 64 sectors and over a
//! set of keys that fills a node of 512. `bench/records.c` has the plain loop beside it.
#![tactic(auto)]

mod records;

use crate::records::{entry_of_keys, read_entries, read_sets, set_of_keys};
use bc_jset::JsetError;
use bc_set::SetError;
use std::process::ExitCode;
use std::rt::Clock;
use std::time::Instant;
use std::{env, io};

// Reads both records so many times, and prints how many keys they have, and the microseconds of both.
fn run<R: Clock + Print + AllocGlobal>(rt: &R, rounds: u32, timed: bool) -> io::Result<ExitCode> {
    let entry = entry_of_keys(rt.alloc())?;
    let set = set_of_keys(rt.alloc())?;
    let start = Instant::now(rt)?;
    let in_entry = read_entries(rt.alloc(), &entry, rounds);
    let entries = start.elapsed(rt)?;
    let start = Instant::now(rt)?;
    let in_set = read_sets(rt.alloc(), &set, rounds);
    let sets = start.elapsed(rt)?;
    match (in_entry, in_set) {
        (Ok(entry_keys), Ok(set_keys)) => println!(rt; "{entry_keys} {set_keys}")?,
        _ => {
            println!(rt; "refused")?;
            return Ok(ExitCode::from(1));
        }
    }
    if timed {
        println!(rt; "{} {} us", entries.as_micros(), sets.as_micros())?;
    }
    Ok(ExitCode::SUCCESS)
}

// How many rounds these arguments ask for, or `None` where they are wrong.
fn rounds_of(arguments: &[String]) -> Option<u32> {
    match arguments {
        [] => Some(1),
        [rounds] => rounds.parse::<u32>().ok(),
        _ => None,
    }
}

fn main(rt: HostRuntime) -> io::Result<ExitCode> {
    let arguments: Vec<String> = env::args(&rt)?.skip(1).collect(rt.alloc())?;
    match rounds_of(&arguments) {
        Some(rounds) => run(&rt, rounds, !arguments.is_empty()),
        None => {
            eprintln!(rt; "usage: bc_records_bench [ROUNDS]")?;
            Ok(ExitCode::from(2))
        }
    }
}
