//! A disk in memory, which fails and crashes as it is told.
ghost use Rattle.std.specs.Prelude.{◌≡◌, ◌↔◌, ◌%◌, ◌^◌, ◌≤◌, ◌||◌, not, ℕ, [], ◌++◌, length, vec_capacity, IsTrue, IsErr, IfOk, OnOk, OnErr};
ghost use Rattle.std.proofs.Props.{props};
ghost use Rattle.bc_disk.specs.Device.{Among};
ghost use Rattle.bc_disk.specs.Bytes.{image_of, put};
ghost use Rattle.bc_disk.specs.Log.{choices, logged, IsWithin};

use crate::bytes::put;
use crate::calls::Calls;
use crate::crash::{Pick, crashed};
use crate::disk::{Disk, Failed};
use crate::log::{Logged, note, settle};
use std::alloc::{AllocError, Global};

/// A disk in memory. It tells what it holds, and fails and crashes as it is told.
///
/// Reads, writes and barriers take no memory: what they need is taken where the disk is made. They
/// are counted from 1, failed ones too, and a count stays at 2^64 - 1 once it is there.
#[derive(Drop)]
pub struct MemDisk {
    stable: Vec<u8>,
    seen: Vec<u8>,
    log: Vec<Logged>,
    room: usize,
    calls: Calls,
    ghost whole: { length seen.items % 512 ≡ 0 },
    ghost small: { length seen.items ≤ 2 ^ 50 },
    ghost same_length: { length stable.items ≡ length seen.items },
    ghost fits: { length log.items ≤ room },
    ghost capacity: { room ≤ vec_capacity log },
    ghost within: { IsWithin (length seen.items) log.items } by { Prim.hlevel props },
    ghost kept: { (s : ℕ) → ∥ Among (image_of seen.items s) (choices stable.items log.items s) ∥₁ },
}

impl MemDisk {
    ghost use Rattle.bc_disk.specs.MemDisk.{memory};
    ghost use Rattle.bc_disk.specs.Memory.{new_disk, IsPossible, IsCrash};
    ghost use Rattle.bc_disk.specs.Tally.{failing_at, stopping_after};

    /// A disk of these bytes, whole sectors of 512, all of them stable. It keeps up to `room`
    /// written sectors between two good barriers.
    pub fn new(alloc: Global, bytes: Vec<u8>, room: usize) -> Result<MemDisk, AllocError>
        requires whole { length bytes.items % 512 ≡ 0 }
        requires small { length bytes.items ≤ 2 ^ 50 }
        ensures { IfOk result (λ d. memory d ≡ new_disk bytes.items room) }
    {
        let stable = Vec::from_slice(alloc, &bytes)?;
        let log = Vec::with_capacity(alloc, room)?;
        Ok(MemDisk {
            stable,
            seen: bytes,
            log,
            room,
            calls: Calls::new(alloc),
        })
    }

    /// What reads give.
    pub fn bytes(&self) -> &[u8]
        ensures { result.now ≡ (memory self.now).bytes }
    {
        &self.seen
    }

    /// What the last good barrier left.
    pub fn stable(&self) -> &[u8]
        ensures { result.now ≡ (memory self.now).stable }
    {
        &self.stable
    }

    /// The sectors written since the last good barrier, in their order, those of failed writes too.
    pub fn written(&self) -> &[Logged]
        ensures { result.now ≡ (memory self.now).written }
    {
        &self.log
    }

    /// How many written sectors it keeps between two good barriers.
    pub fn room(&self) -> usize
        ensures { result ≡ (memory self.now).room }
    {
        self.room
    }

    /// How many reads, writes and barriers were called.
    pub fn calls(&self) -> u64
        ensures { result ≡ (memory self.now).calls.made }
    {
        self.calls.made()
    }

    /// How many of these calls failed.
    pub fn faults(&self) -> u64
        ensures { result ≡ (memory self.now).calls.faults }
    {
        self.calls.faults()
    }

    /// The call with this number fails. Where no memory is found, nothing has changed.
    pub fn fail(&mut self, call: u64) -> Result<(), AllocError>
        ensures ok { let m = memory self.old in
            OnOk result (memory self.new ≡ record m { calls = failing_at call m.calls }) }
        ensures err { OnErr result (memory self.new ≡ memory self.old) }
    {
        self.calls.fail(call)
    }

    /// Every call after this many fails. What was told before stays: of two such numbers the
    /// smaller one counts.
    pub fn stop_after(&mut self, calls: u64)
        ensures { let m = memory self.old in
            memory self.new ≡ record m { calls = stopping_after calls m.calls } }
    {
        self.calls.stop_after(calls);
    }

    /// The disk that a crash at this moment leaves: its bytes are stable, it has the same room, no
    /// call is to fail, and none was made.
    pub fn crash(&self, pick: Pick) -> Result<MemDisk, AllocError>
        ensures crash { IfOk result (λ d. IsCrash pick (memory self.now) (memory d)) }
        ensures possible { IfOk result (λ d.
            IsPossible (memory self.now) (image_of (memory d).bytes)) }
    {
        let alloc = *self.log.allocator();
        let bytes = crashed(alloc, pick, &self.stable, &self.log)?;
        MemDisk::new(alloc, bytes, self.room)
    }
}

impl Disk for MemDisk {
    ghost use Rattle.bc_model.specs.Sector.{values_of};
    ghost use Rattle.bc_disk.specs.Disk.{IsOnDisk, IsRead, IsKept, IsWritten, IsFailedWrite, IsSettled, IsCounted};
    ghost use Rattle.bc_disk.specs.Tally.{next_fails, counted, succeeded, faulted};
    ghost use Rattle.bc_disk.specs.MemDisk.{memory, as_disk, as_disk_is_honest};
    ghost use Rattle.bc_disk.specs.Memory.{has_room, noted};

    ghost facts = { as_disk };

    ghost honest = { as_disk_is_honest };

    fn sectors(&self) -> u64 {
        self.seen.len() as u64 / 512
    }

    /// Fails exactly where this call was told to. After `Failed` the slice is as it was.
    fn read(&mut self, at: u64, into: &mut [u8]) -> Result<(), Failed>
        requires on_disk { IsOnDisk at (length into.old) (as_disk self.old) }

        ensures ok { OnOk result (IsRead at (values_of into.new) (as_disk self.old)) }
        ensures kept { IsKept (as_disk self.old) (as_disk self.new) }
        ensures counted { IsCounted result (as_disk self.old) (as_disk self.new) }

        ensures fails { IsErr result ↔ IsTrue (next_fails (memory self.old).calls) }
        ensures into { OnErr result (into.new ≡ into.old) }
        ensures calls { let m = memory self.old in
            memory self.new ≡ record m { calls = counted result m.calls } }
    {
        if self.calls.next_fails() {
            return Err(self.calls.fault());
        }
        let start = 512 * at as usize;
        into.copy_from_slice(&self.seen[start..start + into.len()]);
        self.calls.succeed();
        Ok(())
    }

    /// Fails exactly where this call was told to, or the sectors have no room. After `Failed` reads
    /// give what they gave, and a crash may leave the values too, if they have room.
    fn write(&mut self, at: u64, bytes: &[u8]) -> Result<(), Failed>
        requires on_disk { IsOnDisk at (length bytes.now) (as_disk self.old) }

        ensures ok { OnOk result
            (IsWritten at (values_of bytes.now) (as_disk self.old) (as_disk self.new)) }
        ensures failed { OnErr result
            (IsFailedWrite at (values_of bytes.now) (as_disk self.old) (as_disk self.new)) }
        ensures counted { IsCounted result (as_disk self.old) (as_disk self.new) }

        ensures fails { let m = memory self.old in IsErr result
            ↔ IsTrue (next_fails m.calls || not (has_room m (length (values_of bytes.now)))) }
        ensures done { let m = memory self.old in
            OnOk result (memory self.new ≡ record m {
              bytes = put at bytes.now m.bytes;
              written = m.written ++ logged at (values_of bytes.now);
              calls = succeeded m.calls;
            }) }
        ensures refused { let m = memory self.old in
            OnErr result (memory self.new ≡ record m {
              written = noted at (values_of bytes.now) m;
              calls = faulted m.calls;
            }) }
    {
        let fits = note(&mut self.log, self.room, at, bytes);
        if self.calls.next_fails() || !fits {
            return Err(self.calls.fault());
        }
        put(&mut self.seen, at, bytes);
        self.calls.succeed();
        Ok(())
    }

    /// Fails exactly where this call was told to. It takes time for the written sectors alone.
    fn barrier(&mut self) -> Result<(), Failed>
        ensures ok { OnOk result (IsSettled (as_disk self.old) (as_disk self.new)) }
        ensures failed { OnErr result (IsKept (as_disk self.old) (as_disk self.new)) }
        ensures counted { IsCounted result (as_disk self.old) (as_disk self.new) }

        ensures fails { IsErr result ↔ IsTrue (next_fails (memory self.old).calls) }
        ensures done { let m = memory self.old in
            OnOk result (memory self.new ≡ record m {
              stable = m.bytes;
              written = [];
              calls = succeeded m.calls;
            }) }
        ensures refused { let m = memory self.old in
            OnErr result (memory self.new ≡ record m { calls = faulted m.calls }) }
    {
        if self.calls.next_fails() {
            return Err(self.calls.fault());
        }
        settle(&mut self.stable, &self.seen, &self.log);
        self.log.clear();
        self.calls.succeed();
        Ok(())
    }
}
