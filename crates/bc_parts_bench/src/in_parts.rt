//! Threads that commit events to a run in parts.
ghost use Rattle.std.specs.Prelude.{◌≡◌, ℕ, ◌+◌, ◌-◌, ◌*◌, ◌<◌, length, IfOk};
ghost use Rattle.std.specs.Thread.{IsSync};
ghost use Rattle.bc_parts_bench.specs.Seats.{count_of, EachAdded, IsReady, IsSameSeat, HasAdded};

use crate::SEATS;
use crate::log::{Entry, Log, Logging};
use bc_parts::not_made::NotMade;
use bc_parts::parts::Parts;
use bc_parts::seat::Seat;
use std::alloc::{AllocError, Global};
use std::sync::Wait;
use std::thread::{Threads, join};

// A seat after its work, and whether there was memory for its events.
type Worked = (Seat<Logging>, Result<(), AllocError>);

// Commits one event under the seat's first number.
fn append<R: Wait>(rt: &R, parts: &Parts<Logging>, seat: &mut Seat<Logging>)
    requires run { seat.old.run ≡ parts.now.run }
    requires number { seat.old.first < SEATS }
    requires promise { 0 < seat.old.promises }
    ensures seat { IsSameSeat seat.old seat.new }
    ensures promise { seat.new.promises ≡ seat.old.promises - 1 }
    ensures one { count_of seat.old.first seat.new.seen
        ≡ count_of seat.old.first seat.old.seen + 1 }
{
    let entry = Entry {
        seat: seat.number(),
    };
    match parts.commit(rt, seat, entry) {
        Ok(_) => {}
        Err(never) => match never {},
    }
}

// Makes room for so many events, and commits them. Where there is no memory for them, it commits
// none.
fn work<R: Wait>(rt: &R, parts: &Parts<Logging>, mut seat: Seat<Logging>, events: u32) -> Worked
    requires { IsReady parts.now.run 1 SEATS seat }
    ensures { HasAdded events seat result.0 result.1 }
{
    if let Err(error) = parts.promise(rt, &mut seat, events) {
        return (seat, Err(error));
    }
    for _ in 0..events {
        append(rt, parts, &mut seat);
    }
    (seat, Ok(()))
}

// Splits a seat into seats of one number each, which work in threads of their own, and joins them.
fn crowd<R: Threads + Wait + Sync>(
    rt: &R,
    parts: &Parts<Logging>,
    mut seat: Seat<Logging>,
    seats: u32,
    events: u32,
) -> Worked
    requires { IsReady parts.now.run seats SEATS seat }
    ensures { HasAdded events seat result.0 result.1 }
{
    if seats == 1 {
        return work(rt, parts, seat, events);
    }
    let half = seats / 2;
    let at = seat.number() + half;
    let above = parts.split(&mut seat, at);
    let ((mut low, low_made), (high, high_made)) = join(
        rt,
        move || -> Worked
            requires { IsSync R.row × IsReady parts.now.run half SEATS seat }
            ensures { HasAdded events seat result.0 result.1 }
        { crowd(rt, parts, seat, half, events) },
        move || -> Worked
            requires { IsSync R.row × (half < seats)
                × IsReady parts.now.run (seats - half) SEATS above }
            ensures { HasAdded events above result.0 result.1 }
        { crowd(rt, parts, above, seats - half, events) },
    );
    parts.join(&mut low, high);
    (low, low_made.and(high_made))
}

/// In each of the threads, which have a seat each, commits so many events to one run in parts, and
/// gives its log. `Err` comes from want of memory.
pub fn run_in_parts<R: Threads + Wait + Sync>(
    rt: &R,
    alloc: Global,
    events: u32,
) -> Result<Log, AllocError>
    ensures each { IfOk result (λ log. EachAdded 0 SEATS events log.entries.items) }
    ensures all { IfOk result (λ log. length log.entries.items ≡ SEATS * events) }
{
    let log = Log::new(alloc);
    match Parts::<Logging>::new(alloc, Vec::new(alloc), log, SEATS) {
        Ok((parts, seat)) => {
            let (seat, made) = crowd(rt, &parts, seat, SEATS, events);
            let (_, log) = parts.close(seat);
            made?;
            Ok(log)
        }
        Err(NotMade { parts: _, book: _ }) => Err(AllocError),
    }
}
