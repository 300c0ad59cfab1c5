//! The streaks of the workers of a trace.
ghost use Rattle.std.specs.Prelude.{◌≡◌, ◌+◌, ◌<◌, ◌≤◌, ◌^◌, ◌++◌, ◌∷◌, [], List};
ghost use Rattle.bc_mode.specs.declared.streak.Request.{Request};
ghost use Rattle.bc_mode.specs.Streak.{extended};

use std::marker::Model;

/// A read or a write of a trace: `count` sectors from `first` on, for this worker. It counts also
/// where it is refused later, so that a streak depends on the trace alone.
#[derive(Clone, Copy, Debug, PartialEq, Eq, Drop)]
pub struct Request {
    /// From 1 on.
    pub worker: u8,
    pub first: u64,
    pub count: u32,
}

/// The latest read or write of a worker: the sector behind it, and its streak in sectors.
#[derive(Clone, Copy, Debug, PartialEq, Eq, Drop)]
pub struct Tail {
    pub end: u64,
    pub streak: u64,
}

/// The latest request of each of 16 workers.
#[derive(Drop)]
pub struct Streaks {
    tails: [Option<Tail>; 16],
}

impl Model for Streaks {
    ghost use Rattle.std.specs.Prelude.{List, Option};
    ghost use Rattle.bc_mode.specs.declared.streak.Tail.{Tail};

    ghost Value = { List (Option Tail) };

    ghost view = { λ s. s.tails };
}

// The streak of a request that comes behind the worker's latest one.
fn extended(tail: Option<Tail>, first: u64, count: u32) -> u64
    ensures { result ≡ extended tail first count }
{
    match tail {
        Some(tail) if tail.end == first => tail.streak.saturating_add(u64::from(count)),
        _ => u64::from(count),
    }
}

impl Streaks {
    ghost use Rattle.bc_mode.specs.Streak.{IsBehind, capped, streak};

    /// No worker has read or written anything yet.
    pub fn new() -> Streaks
        ensures { IsBehind [] result }
    {
        Streaks { tails: [None; 16] }
    }

    /// The streak of the trace's next read or write: its length in sectors, added to the streak of
    /// the same worker's read or write before it, where it begins at that one's end. A number that
    /// 64 bits don't have counts as the greatest one.
    pub fn next(&mut self, request: Request) -> u64
        requires from { 1 ≤ request.worker }
        requires to { request.worker ≤ 16 }
        requires range { request.first + request.count < 2 ^ 64 }
        ensures streak { (earlier : List Request) → IsBehind earlier self.old
            → result ≡ capped (streak earlier request) }
        ensures behind { (earlier : List Request) → IsBehind earlier self.old
            → IsBehind (earlier ++ request ∷ []) self.new }
    {
        let Request {
            worker,
            first,
            count,
        } = request;
        let place = usize::from(worker - 1);
        let streak = extended(self.tails[place], first, count);
        let end = first + u64::from(count);
        self.tails[place] = Some(Tail { end, streak });
        streak
    }
}
