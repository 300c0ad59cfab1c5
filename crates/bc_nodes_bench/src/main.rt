//! Measures what the containers of the index cost: a leaf that takes many keys, in an order that looks
//! random, and then writes the set of them; the read of such a node; and journal entries that are
//! sealed. `bench/nodes.cpp` makes the same calls of sorted arrays.
#![tactic(auto)]

mod device;
mod entries;
mod leaves;

use crate::device::device;
use crate::entries::entries;
use crate::leaves::{Spent, leaves};
use bc_disk::disk::Disk;
use bc_disk::geometry::Geometry;
use bc_disk::mem_disk::MemDisk;
use bc_file::file_disk::FileDisk;
use std::process::ExitCode;
use std::time::CpuClock;
use std::{env, io};

/// How much is done.
#[derive(Clone, Copy)]
struct Work {
    /// The keys of a leaf.
    keys: u32,
    /// How many leaves are filled, written and read, and how many entries are sealed.
    rounds: u32,
}

/// Does the work, and prints numbers that tell the keys from others, and where it is timed the
/// microseconds of processor time of the keys added, of the sets written, of the nodes read and of
/// the entries sealed.
fn run<R: CpuClock + Print + AllocGlobal, D: Disk>(
    rt: &R,
    disk: &mut D,
    g: &Geometry,
    work: Work,
    timed: bool,
) -> io::Result<ExitCode> {
    let mut spent = Spent::new();
    let sum = leaves(rt, disk, g, work.keys, work.rounds, &mut spent)?;
    let sealing = entries(rt, work.rounds)?;
    let (Some(sum), Some(sealing)) = (sum, sealing) else {
        println!(rt; "refused")?;
        return Ok(ExitCode::from(1));
    };
    println!(rt; "sum {sum}, {} bytes", sealing.bytes)?;
    if timed {
        for time in [spent.adding, spent.writing, spent.reading, sealing.time] {
            println!(rt; "{} us", time.as_micros())?;
        }
    }
    Ok(ExitCode::SUCCESS)
}

/// What a run with no words does: few keys, on a device in memory.
fn run_small<R: CpuClock + Print + AllocGlobal>(rt: &R) -> io::Result<ExitCode> {
    let alloc = rt.alloc();
    let bytes = vec![in alloc; 0u8; 512 * 64 * 66]?;
    let mut disk = MemDisk::new(alloc, bytes, 200)?;
    let Some(g) = device(64) else {
        return Ok(ExitCode::from(1));
    };
    let work = Work {
        keys: 100,
        rounds: 2,
    };
    run(rt, &mut disk, &g, work, false)
}

fn main(rt: HostRuntime) -> io::Result<ExitCode> {
    let words: Vec<String> = env::args(&rt)?.skip(1).collect(rt.alloc())?;
    let [sectors, keys, rounds, path] = words.as_slice() else {
        return run_small(&rt);
    };
    if let (Ok(sectors), Ok(keys), Ok(rounds)) = (
        sectors.parse::<u16>(),
        keys.parse::<u32>(),
        rounds.parse::<u32>(),
    ) {
        if let Some(g) = device(sectors) {
            let mut disk = FileDisk::open(&rt, path.as_str())?;
            return run(&rt, &mut disk, &g, Work { keys, rounds }, true);
        }
    }
    eprintln!(rt; "usage: bc_nodes_bench [SECTORS KEYS ROUNDS FILE]")?;
    Ok(ExitCode::from(2))
}
