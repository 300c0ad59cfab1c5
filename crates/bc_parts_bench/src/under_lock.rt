//! Threads that put events into a log under one lock.
ghost use Rattle.std.specs.Prelude.{◌+◌, ◌<◌, ◌≤◌};
ghost use Rattle.std.specs.Thread.{IsSync};

use crate::SEATS;
use crate::log::{Entry, Log, Logging};
use bc_parts::machine::Machine;
use std::alloc::{AllocError, Global};
use std::sync::{Mutex, Wait};
use std::thread::{Threads, join};

// Takes the lock and puts one event of the seat, by the calls that a commit makes. There is room, but
// no proof knows what another thread left under the lock: so it is asked.
fn put<R: Wait>(rt: &R, shared: &Mutex<Log>, seat: u32) {
    let entry = Entry { seat };
    let mut guard = shared.lock(rt);
    let log = &mut *guard;
    if log.spare == 0 || Logging::admits(log, &entry).is_err() {
        return;
    }
    Logging::put_event(log, entry);
    let _ = Logging::stopped(log);
}

// Puts so many events of each of so many seats from `first` on, in threads of their own.
fn crowd<R: Threads + Wait + Sync>(rt: &R, shared: &Mutex<Log>, first: u32, seats: u32, events: u32)
    requires { (0 < seats) × (first + seats ≤ SEATS) }
{
    if seats == 1 {
        for _ in 0..events {
            put(rt, shared, first);
        }
        return;
    }
    let half = seats / 2;
    join(
        rt,
        move ||
            requires { IsSync R.row × (0 < half) × (first + half ≤ SEATS) }
        { crowd(rt, shared, first, half, events) },
        move ||
            requires { IsSync R.row × (half < seats) × (first + seats ≤ SEATS) }
        { crowd(rt, shared, first + half, seats - half, events) },
    );
}

/// In each of the threads, puts so many events into one log, for all of which there is room from the
/// start, and gives the log. `Err` comes from want of memory. No clause can say what threads did
/// under a lock, so whoever calls this counts the events.
pub fn run_under_lock<R: Threads + Wait + Sync>(
    rt: &R,
    alloc: Global,
    events: u32,
) -> Result<Log, AllocError> {
    let mut log = Log::new(alloc);
    Logging::reserve(&mut log, SEATS as usize * events as usize)?;
    let shared = Mutex::new(log);
    crowd(rt, &shared, 0, SEATS, events);
    Ok(shared.into_inner())
}
