//! A sink of bytes in memory, which fails as it is told.
ghost use Rattle.std.specs.Prelude.{◌≡◌, ◌↔◌, ◌-◌, [], IsTrue, IsErr, IfOk, OnOk, OnErr, length, min};

use crate::calls::Calls;
use crate::disk::Failed;
use crate::stream::Sink;
use std::alloc::{AllocError, Global};
use std::marker::Model;

/// A sink in memory, which takes bytes while it has room.
#[derive(Drop)]
pub struct MemSink {
    bytes: Vec<u8>,
    room: usize,
    calls: Calls,
    stops: u64,
}

impl Model for MemSink {
    ghost use Rattle.std.specs.Prelude.{◌≡◌, ◌≤◌, length, vec_capacity, None};
    ghost use Rattle.bc_disk.specs.Text.{Taken};

    ghost Value = { Taken };

    ghost view = { λ a. record {
      taken = a.bytes.items;
      room = a.room;
      calls = a.calls;
      stops = a.stops;
    } };

    ghost invariant = { λ a.
        (length a.bytes.items ≤ a.room) × (a.room ≤ vec_capacity a.bytes) × (a.calls.stop ≡ None) };
}

impl MemSink {
    ghost use Rattle.bc_disk.specs.Tally.{none_made, failing_at};

    /// A sink that takes up to `room` bytes, for which it takes the memory here.
    pub fn new(alloc: Global, room: usize) -> Result<MemSink, AllocError>
        ensures { IfOk result
            (λ s. s ≡ record { taken = []; room = room; calls = none_made; stops = 0 }) }
    {
        Ok(MemSink {
            bytes: Vec::with_capacity(alloc, room)?,
            room,
            calls: Calls::new(alloc),
            stops: 0,
        })
    }

    /// The call with this number fails. Calls are counted from 1. Where no memory is found, nothing
    /// has changed.
    pub fn fail(&mut self, call: u64) -> Result<(), AllocError>
        ensures ok { OnOk result
            (self.new ≡ record self.old { calls = failing_at call self.old.calls }) }
        ensures err { OnErr result (self.new ≡ self.old) }
    {
        self.calls.fail(call)
    }

    /// What was taken.
    pub fn bytes(&self) -> &[u8]
        ensures { result.now ≡ self.now.taken }
    {
        &self.bytes
    }

    /// How many bytes it takes in all.
    pub fn room(&self) -> usize
        ensures { result ≡ self.now.room }
    {
        self.room
    }

    /// How many calls were made, failed ones too.
    pub fn calls(&self) -> u64
        ensures { result ≡ self.now.calls.made }
    {
        self.calls.made()
    }

    /// How many calls took nothing of a piece that isn't empty.
    pub fn stops(&self) -> u64
        ensures { result ≡ self.now.stops }
    {
        self.stops
    }

    /// How many calls failed.
    pub fn faults(&self) -> u64
        ensures { result ≡ self.now.calls.faults }
    {
        self.calls.faults()
    }
}

impl Sink for MemSink {
    ghost use Rattle.bc_disk.specs.Stream.{IsPut};
    ghost use Rattle.bc_disk.specs.Text.{facts_of_taken};
    ghost use Rattle.bc_disk.specs.Tally.{is_named, counted};

    ghost facts = { facts_of_taken };

    /// Takes as many bytes as there are and have room, and fails exactly where this call was told
    /// to.
    fn put(&mut self, bytes: &[u8]) -> Result<usize, Failed>
        ensures put { IsPut result bytes.now (facts_of_taken self.old) (facts_of_taken self.new) }

        ensures fails { IsErr result ↔ IsTrue (is_named self.old.calls) }
        ensures many { IfOk result
            (λ n. n ≡ min (length bytes.now) (self.old.room - length self.old.taken)) }
        ensures room { self.new.room ≡ self.old.room }
        ensures calls { self.new.calls ≡ counted result self.old.calls }
    {
        if self.calls.next_fails() {
            return Err(self.calls.fault());
        }
        let many = bytes.len().min(self.room - self.bytes.len());
        self.bytes.extend_from_slice(&bytes[..many]).unwrap();
        self.calls.succeed();
        if many == 0 && !bytes.is_empty() {
            self.stops = self.stops.saturating_add(1);
        }
        Ok(many)
    }
}
