//! The calls of an object in memory, and which of them are to fail.
ghost use Rattle.std.specs.Prelude.{◌≡◌, ◌+◌, ◌==◌, OnOk, OnErr};
ghost use Rattle.std.specs.List.{list_any};

use crate::disk::Failed;
use std::alloc::{AllocError, Global};
use std::marker::Model;

/// How many calls an object had, how many of them failed, and which are to fail. Calls are counted
/// from 1, and a count stays at 2^64 - 1 once it is there.
#[derive(Drop)]
pub(crate) struct Calls {
    failing: Vec<u64>,
    stop: Option<u64>,
    made: u64,
    faults: u64,
}

impl Model for Calls {
    ghost use Rattle.bc_disk.specs.Tally.{Tally};

    ghost Value = { Tally };

    ghost view = { λ a. record {
      failing = a.failing.items;
      stop = a.stop;
      made = a.made;
      faults = a.faults;
    } };
}

// Whether the call behind so many is among these.
fn has_next(calls: &[u64], made: u64) -> bool
    ensures { result ≡ list_any (λ n. n == made + 1) calls.now }
{
    calls.iter().any(|call| *call > made && *call - 1 == made)
}

impl Calls {
    ghost use Rattle.bc_disk.specs.Tally.{none_made, next_fails, failing_at, stopping_after, succeeded, faulted};

    pub(crate) fn new(alloc: Global) -> Calls
        ensures { result ≡ none_made }
    {
        Calls {
            failing: Vec::new(alloc),
            stop: None,
            made: 0,
            faults: 0,
        }
    }

    /// The call with this number is to fail.
    pub(crate) fn fail(&mut self, call: u64) -> Result<(), AllocError>
        ensures ok { OnOk result (self.new ≡ failing_at call self.old) }
        ensures err { OnErr result (self.new ≡ self.old) }
    {
        self.failing.push(call)?;
        Ok(())
    }

    /// Every call after this many is to fail.
    pub(crate) fn stop_after(&mut self, calls: u64)
        ensures { self.new ≡ stopping_after calls self.old }
    {
        self.stop = match self.stop {
            None => Some(calls),
            Some(stop) => Some(stop.min(calls)),
        };
    }

    pub(crate) fn made(&self) -> u64
        ensures { result ≡ self.now.made }
    {
        self.made
    }

    pub(crate) fn faults(&self) -> u64
        ensures { result ≡ self.now.faults }
    {
        self.faults
    }

    /// Whether the next call is to fail.
    pub(crate) fn next_fails(&self) -> bool
        ensures { result ≡ next_fails self.now }
    {
        let stopped = match self.stop {
            None => false,
            Some(calls) => calls <= self.made,
        };
        stopped || has_next(&self.failing, self.made)
    }

    /// Counts a call that succeeds.
    pub(crate) fn succeed(&mut self)
        ensures { self.new ≡ succeeded self.old }
    {
        self.made = self.made.saturating_add(1);
    }

    /// Counts a call that fails, and gives its error.
    pub(crate) fn fault(&mut self) -> Failed
        ensures { self.new ≡ faulted self.old }
    {
        self.made = self.made.saturating_add(1);
        self.faults = self.faults.saturating_add(1);
        Failed
    }
}
