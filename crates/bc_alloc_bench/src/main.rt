//! Measures what a refill costs, on devices of some numbers of buckets with random priorities.
//! `bench/alloc.cpp` chooses the same victims with a sort of the first ones.
#![tactic(auto)]

ghost use Rattle.std.specs.Prelude.{◌≡◌, ◌<◌, ◌≤◌, length, IfOk};
ghost use Rattle.bc_alloc.specs.Buckets.{AreFor};
ghost use Rattle.bc_alloc.specs.Reserves.{newly_raised};

use bc_alloc::Reserves;
use bc_bucket::Buckets;
use bc_disk::gens::Gens;
use bc_disk::geometry::Geometry;
use std::alloc::{AllocError, Global};
use std::process::ExitCode;
use std::time::{CpuClock, Duration};
use std::{env, io};

/// How much is done.
#[derive(Clone, Copy)]
struct Work {
    buckets: u32,
    /// How often the lists are filled from nothing; a bucket may be given up 95 times.
    refills: u32,
    ghost some_buckets: { 128 ≤ buckets },
    ghost not_more: { buckets ≤ 1048576 },
}

/// What a run with no words does.
const SMALL: Work = Work {
    buckets: 1000,
    refills: 10,
};

/// Numbers that look random.
#[derive(Drop)]
struct Random(u64);

impl Random {
    /// The next one, below 65,536.
    fn next(&mut self) -> u16 {
        self.0 = self
            .0
            .wrapping_mul(6_364_136_223_846_793_005)
            .wrapping_add(1_442_695_040_888_963_407);
        (self.0 >> 48) as u16
    }
}

// A device of so many buckets of 1,024 sectors.
fn geometry(work: Work) -> Geometry
    ensures { result.nbuckets ≡ work.buckets }
{
    Geometry {
        block: 1,
        bucket: 1024,
        nbuckets: work.buckets,
        first_bucket: 1,
        journal: 8,
        set_magic: 0,
        node_sectors: 512,
    }
}

// Its buckets, with random priorities.
fn random_buckets(alloc: Global, g: &Geometry) -> Result<Buckets, AllocError>
    ensures { IfOk result (λ b. length b.records ≡ g.now.nbuckets) }
{
    let mut gens = Gens::new(alloc, g)?;
    let mut random = Random(7);
    for k in 0..g.nbuckets {
        gens.set(k, random.next(), 0);
    }
    Buckets::new(alloc, g, &gens)
}

// Lists with no bucket.
fn no_reserves(alloc: Global, g: &Geometry, b: &Buckets) -> Result<Reserves, AllocError>
    requires { length b.now.records ≡ g.now.nbuckets }
    ensures { IfOk result (λ r. AreFor r b.now) }
{
    Reserves::new(alloc, g, &[])
}

// Fills lists from nothing.
fn refill(r: &mut Reserves, b: &mut Buckets) -> u32
    requires { AreFor r.old b.old }
    ensures number { result ≡ length (newly_raised r.old r.new) }
    ensures count { length b.new.records ≡ length b.old.records }
{
    r.refill(b)
}

// A number that tells the generations from others.
fn sum_of(b: &Buckets) -> u64 {
    let mut sum = 0u64;
    for bucket in b.records() {
        sum = sum
            .wrapping_mul(31)
            .wrapping_add(u64::from(bucket.generation));
    }
    sum
}

// What these arguments ask for, or `None` where they are wrong.
fn work_of(arguments: &[String]) -> Option<Work> {
    match arguments {
        [] => Some(SMALL),
        [buckets, refills] => {
            let buckets = buckets.parse::<u32>().ok()?;
            let refills = refills.parse::<u32>().ok()?;
            if buckets < 128 || buckets > 1_048_576 {
                return None;
            }
            Some(Work { buckets, refills })
        }
        _ => None,
    }
}

// Does the work, and prints how many buckets were given up, the sum of their generations and the
// microseconds of processor time of the refills.
fn run<R: CpuClock + Print + AllocGlobal>(rt: &R, work: Work, timed: bool) -> io::Result<ExitCode> {
    let g = geometry(work);
    let mut buckets = random_buckets(rt.alloc(), &g)?;
    let mut raised = 0u64;
    let mut spent = Duration::ZERO;
    for _refill in 0..work.refills {
        let mut reserves = no_reserves(rt.alloc(), &g, &buckets)?;
        let begun = rt.process_cpu_time()?;
        raised = raised.wrapping_add(u64::from(refill(&mut reserves, &mut buckets)));
        let ended = rt.process_cpu_time()?;
        let more = ended.checked_sub(begun).unwrap_or(Duration::ZERO);
        spent = spent.saturating_add(more);
    }
    println!(rt; "{raised} raised, sum {}", sum_of(&buckets))?;
    if timed {
        println!(rt; "{} us", spent.as_micros())?;
    }
    Ok(ExitCode::SUCCESS)
}

fn main(rt: HostRuntime) -> io::Result<ExitCode> {
    let arguments: Vec<String> = env::args(&rt)?.skip(1).collect(rt.alloc())?;
    match work_of(&arguments) {
        Some(work) => run(&rt, work, !arguments.is_empty()),
        None => {
            eprintln!(rt; "usage: bc_alloc_bench [BUCKETS REFILLS]")?;
            Ok(ExitCode::from(2))
        }
    }
}
