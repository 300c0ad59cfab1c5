//! Keys in a row, of which one more or less costs little, and in memory that is taken before.
//!
//! They stand in rings, all of them full but the last, so that the room for keys is exact. One more
//! key moves the keys behind it in its ring, and one key of each ring behind that.

ghost use Rattle.std.specs.Prelude.{◌≡◌, ℕ, ◌+◌, ◌*◌, ◌^◌, ◌<◌, ◌≤◌, [], length, insert, remove, slice_set, slice_index_or, OnOk, OnErr};
ghost use Rattle.bc_key.specs.declared.key.Key.{Key};
ghost use Rattle.bc_key.specs.Key.{start_of};
ghost use Rattle.bc_extent.specs.Extents.{room_of};

use crate::carry::{insert_within, remove_within};
use crate::ring::Ring;
use crate::slot::Slot;
use crate::slots::LENGTH;
use bc_key::Key;
use std::alloc::{AllocError, Global};
use std::marker::Model;

/// How many rings there are at most, so that their keys can be counted.
const MOST: usize = 1 << 46;

/// Keys in a row.
#[derive(Drop)]
pub struct Rows {
    rings: Vec<Ring>,
    count: usize,
}

impl Model for Rows {
    ghost use Rattle.std.specs.Prelude.{◌*◌, ◌-◌, take, vec_len};
    ghost use Rattle.bc_extent.specs.Extents.{Extents};
    ghost use Rattle.bc_extent.specs.Rings.{joined, HoldRoom};

    ghost Value = { Extents };

    ghost view = { λ r. record {
      keys = take r.count (joined r.rings.items);
      spare = 512 * vec_len r.rings - r.count;
    } };

    ghost invariant = { λ r. HoldRoom r.count r.rings.items };
}

impl Rows {
    /// No keys, and no room for any.
    pub fn new(alloc: Global) -> Rows
        ensures keys { result.keys ≡ [] }
        ensures spare { result.spare ≡ 0 }
    {
        Rows {
            rings: Vec::new(alloc),
            count: 0,
        }
    }

    /// How many keys there are.
    pub fn len(&self) -> usize
        ensures count { result ≡ length self.now.keys }
        ensures small { length self.now.keys + self.now.spare ≤ 2 ^ 55 }
    {
        self.count
    }

    /// How many more keys have room.
    pub fn spare(&self) -> usize
        ensures spare { result ≡ self.now.spare }
        ensures small { self.now.spare ≤ 2 ^ 55 }
    {
        LENGTH * self.rings.len() - self.count
    }

    /// Where the key at this place ends.
    pub fn end(&self, i: usize) -> u64
        requires { i < length self.now.keys }
        ensures { (d : Key) → result ≡ (slice_index_or self.now.keys i d).end }
    {
        self.rings[i / LENGTH].end(i % LENGTH)
    }

    /// Where the key at this place begins.
    pub fn start(&self, i: usize) -> u64
        requires { i < length self.now.keys }
        ensures { (d : Key) → result ≡ start_of (slice_index_or self.now.keys i d) }
    {
        self.rings[i / LENGTH].start(i % LENGTH)
    }

    /// How many pointers the key at this place has.
    pub fn pointers(&self, i: usize) -> u8
        requires { i < length self.now.keys }
        ensures { (d : Key) → result ≡ (slice_index_or self.now.keys i d).count }
    {
        self.rings[i / LENGTH].pointers(i % LENGTH)
    }

    /// The key at this place.
    pub fn key(&self, i: usize) -> Key
        requires { i < length self.now.keys }
        ensures { (d : Key) → result ≡ slice_index_or self.now.keys i d }
    {
        self.rings[i / LENGTH].key(i % LENGTH)
    }

    /// Puts another key at this place, and gives back what stood there.
    pub fn swap_in(&mut self, i: usize, slot: Slot) -> Slot
        requires { i < length self.old.keys }
        ensures keys { self.new.keys ≡ slice_set self.old.keys i slot }
        ensures spare { self.new.spare ≡ self.old.spare }
        ensures old { (d : Key) → result ≡ slice_index_or self.old.keys i d }
    {
        let ring = &mut self.rings[i / LENGTH];
        ring.swap_in(i % LENGTH, slot)
    }

    /// Puts a key before the one at this place. Takes no memory.
    pub fn insert(&mut self, i: usize, slot: Slot)
        requires within { i ≤ length self.old.keys }
        requires spare { 1 ≤ self.old.spare }
        ensures keys { self.new.keys ≡ insert self.old.keys i slot }
        ensures spare { self.new.spare + 1 ≡ self.old.spare }
    {
        insert_within(&mut self.rings, self.count, i, slot);
        self.count += 1;
    }

    /// Takes out the key at this place. Takes no memory.
    pub fn remove(&mut self, i: usize)
        requires { i < length self.old.keys }
        ensures keys { self.new.keys ≡ remove self.old.keys i }
        ensures spare { self.new.spare ≡ self.old.spare + 1 }
    {
        remove_within(&mut self.rings, self.count, i);
        self.count -= 1;
    }

    /// Takes out all keys. The room stays. Takes no memory.
    pub fn clear(&mut self)
        ensures keys { self.new.keys ≡ [] }
        ensures room { room_of self.new ≡ room_of self.old }
    {
        self.count = 0;
    }

    /// Takes memory for one more ring.
    fn grow(&mut self, alloc: Global) -> Result<(), AllocError>
        ensures keys { self.new.keys ≡ self.old.keys }
        ensures ok { OnOk result (self.new.spare ≡ self.old.spare + 512) }
        ensures err { OnErr result (self.new.spare ≡ self.old.spare) }
    {
        if self.rings.len() >= MOST {
            return Err(AllocError);
        }
        let ring = Ring::new(alloc)?;
        self.rings.push(ring)?;
        Ok(())
    }

    /// Gives the memory of so many rings back.
    fn shrink(&mut self, rings: usize)
        requires { 512 * rings ≤ self.old.spare }
        ensures keys { self.new.keys ≡ self.old.keys }
        ensures spare { self.new.spare + 512 * rings ≡ self.old.spare }
    {
        let kept = self.rings.len() - rings;
        self.rings.truncate(kept);
    }

    /// Takes memory where `spare` is below `more`, so that it is `more` at least. Where no memory is
    /// found, nothing has changed.
    pub fn reserve(&mut self, alloc: Global, more: usize) -> Result<(), AllocError>
        ensures keys { self.new.keys ≡ self.old.keys }
        ensures raised { self.old.spare ≤ self.new.spare }
        ensures ok { OnOk result (more ≤ self.new.spare) }
        ensures err { OnErr result ((self.new.spare ≡ self.old.spare) × (self.old.spare < more)) }
    {
        let mut added = 0;
        while self.spare() < more {
            if let Err(refused) = self.grow(alloc) {
                self.shrink(added);
                return Err(refused);
            }
            added += 1;
        }
        Ok(())
    }
}
