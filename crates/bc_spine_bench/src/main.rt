//! Measures what the path of a sector costs in a tree of a given number of leaves: the number of the
//! leaf that it lies in. `bench/path.c` finds the same by a binary search in a sorted array.
#![tactic(auto)]

ghost use Rattle.std.specs.Prelude.{◌≡◌, ◌%◌, ◌<◌, ◌≤◌};
ghost use Rattle.bc_spine.specs.Leaves.{AreCounted};

use bc_key::Ptr;
use bc_spine::Leaves;
use std::alloc::{AllocError, Global};
use std::process::ExitCode;
use std::time::{CpuClock, Duration};
use std::{env, io};

/// How many sectors a leaf has.
const LONG: u64 = 1024;

/// How much is done.
#[derive(Clone, Copy)]
struct Work {
    /// How many leaves there are.
    leaves: u32,
    /// How many sectors' paths are found.
    calls: u32,
}

/// What a run with no words does.
const SMALL: Work = Work {
    leaves: 1000,
    calls: 1000,
};

/// Numbers that look random.
#[derive(Drop)]
struct Random(u64);

impl Random {
    /// The next one, below `limit`.
    fn below(&mut self, limit: u64) -> u64
        requires { 0 < limit }
        ensures { result < limit }
    {
        self.0 = self
            .0
            .wrapping_mul(6_364_136_223_846_793_005)
            .wrapping_add(1_442_695_040_888_963_407);
        (self.0 >> 33) % limit
    }
}

// Adds a leaf that ends at a multiple of 1,024, where the last one ends before.
fn add(leaves: &mut Leaves, units: u32) -> Result<(), AllocError>
    requires { AreCounted 0 leaves.old.leaves }
    ensures { AreCounted 0 leaves.new.leaves }
{
    let end = u64::from(units) * LONG;
    if leaves.end() >= end {
        return Ok(());
    }
    leaves.push(end, Ptr::ZERO)
}

// So many leaves, one behind the other.
fn filled(alloc: Global, count: u32) -> Result<Leaves, AllocError> {
    let mut leaves = Leaves::new(alloc);
    for i in 0..count {
        add(&mut leaves, i.saturating_add(1))?;
    }
    Ok(leaves)
}

// A number that tells the numbers of the leaves of random sectors from others.
fn find_all(leaves: &Leaves, random: &mut Random, calls: u32) -> u64 {
    let mut sum = 0u64;
    let end = leaves.end();
    if end == 0 {
        return sum;
    }
    for _ in 0..calls {
        let number = leaves.path(random.below(end));
        sum = sum.wrapping_mul(31).wrapping_add(u64::from(number));
    }
    sum
}

// What these arguments ask for, or `None` where they are wrong.
fn work_of(arguments: &[String]) -> Option<Work> {
    match arguments {
        [] => Some(SMALL),
        [leaves, calls] => {
            let leaves = leaves.parse::<u32>().ok()?;
            let calls = calls.parse::<u32>().ok()?;
            Some(Work { leaves, calls })
        }
        _ => None,
    }
}

// Does the work, and prints how many leaves there are, the sum of what was found and the microseconds of
// processor time of that.
fn run<R: CpuClock + Print + AllocGlobal>(rt: &R, work: Work, timed: bool) -> io::Result<ExitCode> {
    let leaves = filled(rt.alloc(), work.leaves)?;
    let mut random = Random(7);
    let begun = rt.process_cpu_time()?;
    let sum = find_all(&leaves, &mut random, work.calls);
    let found = rt.process_cpu_time()?;
    println!(rt; "{} leaves, sum {}", leaves.len(), sum)?;
    if timed {
        let spent = found.checked_sub(begun).unwrap_or(Duration::ZERO);
        println!(rt; "{} us", spent.as_micros())?;
    }
    Ok(ExitCode::SUCCESS)
}

fn main(rt: HostRuntime) -> io::Result<ExitCode> {
    let arguments: Vec<String> = env::args(&rt)?.skip(1).collect(rt.alloc())?;
    match work_of(&arguments) {
        Some(work) => run(&rt, work, !arguments.is_empty()),
        None => {
            eprintln!(rt; "usage: bc_spine_bench [LEAVES CALLS]")?;
            Ok(ExitCode::from(2))
        }
    }
}
