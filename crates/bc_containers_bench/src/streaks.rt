//! Streaks of the workers of a trace.
ghost use Rattle.std.specs.Prelude.{◌<◌, ◌≤◌};

use crate::measured::Measured;
use crate::random::Random;
use bc_mode::{Request, Streaks};
use std::io;
use std::time::CpuClock;

// A request of one of so many workers.
fn some_request(random: &mut Random, workers: u8) -> Request
    requires some { 0 < workers }
    requires few { workers ≤ 16 }
    ensures from { 1 ≤ result.worker }
    ensures to { result.worker ≤ 16 }
    ensures first { result.first ≤ 24 }
{
    Request {
        worker: 1 + random.below(u32::from(workers)) as u8,
        first: 8 * u64::from(random.below(4)),
        count: 8,
    }
}

/// Rounds of 1,000 requests of this many workers.
pub fn measure<R: CpuClock>(rt: &R, workers: u8, rounds: u32) -> io::Result<Measured>
    requires some { 0 < workers }
    requires few { workers ≤ 16 }
{
    let mut streaks = Streaks::new();
    let mut random = Random::new();
    let mut sum = 0u64;
    let begun = rt.process_cpu_time()?;
    for _round in 0..rounds {
        for _request in 0..1000 {
            let request = some_request(&mut random, workers);
            sum = sum.wrapping_mul(31).wrapping_add(streaks.next(request));
        }
    }
    let ended = rt.process_cpu_time()?;
    Ok(Measured::new(sum, begun, ended))
}
