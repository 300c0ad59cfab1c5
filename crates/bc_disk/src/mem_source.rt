//! A source of bytes in memory, which fails as it is told.
ghost use Rattle.std.specs.Prelude.{◌≡◌, ◌↔◌, ◌++◌, IsTrue, IsErr, IfOk, OnOk, OnErr, length, take, drop, min};

use crate::calls::Calls;
use crate::disk::Failed;
use crate::stream::Source;
use std::alloc::{AllocError, Global};
use std::marker::Model;

/// A source of bytes in memory.
#[derive(Drop)]
pub struct MemSource {
    bytes: Vec<u8>,
    given: usize,
    calls: Calls,
}

impl Model for MemSource {
    ghost use Rattle.std.specs.Prelude.{◌≡◌, ◌≤◌, drop, length, None};
    ghost use Rattle.bc_disk.specs.Text.{Left};

    ghost Value = { Left };

    ghost view = { λ a. record { left = drop a.given a.bytes.items; calls = a.calls } };

    ghost invariant = { λ a. (a.given ≤ length a.bytes.items) × (a.calls.stop ≡ None) };
}

impl MemSource {
    ghost use Rattle.bc_disk.specs.Tally.{none_made, failing_at};

    /// A source that gives these bytes, and takes no memory for them.
    pub fn new(alloc: Global, bytes: Vec<u8>) -> MemSource
        ensures { result ≡ record { left = bytes.items; calls = none_made } }
    {
        MemSource {
            bytes,
            given: 0,
            calls: Calls::new(alloc),
        }
    }

    /// The call with this number fails. Calls are counted from 1. Where no memory is found, nothing
    /// has changed.
    pub fn fail(&mut self, call: u64) -> Result<(), AllocError>
        ensures ok { OnOk result
            (self.new ≡ record self.old { calls = failing_at call self.old.calls }) }
        ensures err { OnErr result (self.new ≡ self.old) }
    {
        self.calls.fail(call)
    }

    /// What is left.
    pub fn left(&self) -> &[u8]
        ensures { result.now ≡ self.now.left }
    {
        &self.bytes[self.given..]
    }

    /// How many calls were made, failed ones too.
    pub fn calls(&self) -> u64
        ensures { result ≡ self.now.calls.made }
    {
        self.calls.made()
    }

    /// How many calls failed.
    pub fn faults(&self) -> u64
        ensures { result ≡ self.now.calls.faults }
    {
        self.calls.faults()
    }
}

impl Source for MemSource {
    ghost use Rattle.bc_disk.specs.Stream.{IsNext};
    ghost use Rattle.bc_disk.specs.Text.{facts_of_left};
    ghost use Rattle.bc_disk.specs.Tally.{is_named, counted};

    ghost facts = { facts_of_left };

    /// Gives as many bytes as there are and fit, and fails exactly where this call was told to.
    /// After `Failed` the slice is as it was.
    fn next(&mut self, into: &mut [u8]) -> Result<usize, Failed>
        ensures next { IsNext result into.new (facts_of_left self.old) (facts_of_left self.new) }

        ensures fails { IsErr result ↔ IsTrue (is_named self.old.calls) }
        ensures many { IfOk result (λ n. n ≡ min (length into.old) (length self.old.left)) }
        ensures into { IfOk result (λ n. into.new ≡ take n self.old.left ++ drop n into.old) }
        ensures kept { OnErr result (into.new ≡ into.old) }
        ensures calls { self.new.calls ≡ counted result self.old.calls }
    {
        if self.calls.next_fails() {
            return Err(self.calls.fault());
        }
        let many = into.len().min(self.bytes.len() - self.given);
        into[..many].copy_from_slice(&self.bytes[self.given..self.given + many]);
        self.given += many;
        self.calls.succeed();
        Ok(many)
    }
}
