//! Judges pairs with random changes in their metadata by the check and by the slow programs of
//! `bc_plain_pair`, which compute from the bytes alone whether a pair is sound.
//!
//! The check reads a pair by an index, a table of uses and a walk that goes nowhere twice, and is
//! proved to say what the definitions say. What no proof shows is that the definitions are what
//! was meant. A pair that was damaged at random has the faults of which nobody thought; so both
//! programs have to say the same of each, and what they say is counted, since a kind that never
//! comes was never tried.
#![tactic(auto)]

mod compare;
mod tally;

use crate::compare::compare;
use crate::tally::NAMES;
use std::process::ExitCode;
use std::{env, io};

// What was said of so many pairs: how many there were of each kind, or the kinds of which there was
// none.
fn print_kinds<R: Print + AllocGlobal>(rt: &R, counts: &[u64; 18], each: bool) -> io::Result<()> {
    for i in 0..18usize {
        if each {
            println!(rt; "{} {}", counts[i], NAMES[i])?;
        } else if counts[i] == 0 {
            println!(rt; "none {}", NAMES[i])?;
        }
    }
    Ok(())
}

// Judges the sound pair of each layout, and so many changed ones of each, by both programs. Prints
// how many were judged differently, and each of these, and what was said of all.
fn run<R: Print + AllocGlobal>(rt: &R, rounds: u32, each: bool) -> io::Result<ExitCode> {
    let Ok((sound, tally)) = compare(rt.alloc(), rounds) else {
        println!(rt; "no memory")?;
        return Ok(ExitCode::from(9));
    };
    let changed = u64::from(rounds) * 8;
    println!(rt; "{sound} sound pairs, {changed} changed ones")?;
    println!(rt; "{} judged differently", tally.differing.len())?;
    for difference in tally.differing.iter() {
        println!(rt; "{difference:?}")?;
    }
    print_kinds(rt, &tally.counts, each)?;
    Ok(ExitCode::from(u8::from(!tally.differing.is_empty())))
}

// How many changed pairs of each layout these arguments ask for, or `None` where they are wrong.
fn rounds_of(arguments: &[String]) -> Option<u32> {
    match arguments {
        [pairs] => Some(pairs.parse::<u32>().ok()?.div_ceil(8)),
        _ => None,
    }
}

fn main(rt: HostRuntime) -> io::Result<ExitCode> {
    let arguments: Vec<String> = env::args(&rt)?.skip(1).collect(rt.alloc())?;
    if arguments.is_empty() {
        return run(&rt, 50, false);
    }
    match rounds_of(&arguments) {
        Some(rounds) => run(&rt, rounds, true),
        None => {
            eprintln!(rt; "usage: bc_edits [PAIRS]")?;
            Ok(ExitCode::from(2))
        }
    }
}
