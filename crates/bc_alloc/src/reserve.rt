//! A list of buckets of bounded length.
ghost use Rattle.std.specs.Prelude.{◌≡◌, ◌==◌, ◌-◌, ◌<◌, ◌≤◌, ◌∷◌, ◌++◌, [], length, slice_index, IfOk, IfSome, IfNone, MatchOption};
ghost use Rattle.bc_alloc.specs.Reserve.{appended, free, has_room, prepended};

use std::alloc::{AllocError, Global};
use std::collections::VecDeque;
use std::marker::Model;

/// A list of buckets of bounded length. Its memory is taken when it is made.
#[derive(Drop)]
pub struct Reserve {
    room: u32,
    buckets: VecDeque<u32>,
}

impl Model for Reserve {
    ghost use Rattle.std.specs.Prelude.{◌≤◌, ◌<◌, ◌^◌};
    ghost use Rattle.std.specs.VecDeque.{deque_capacity, deque_len};
    ghost use Rattle.bc_alloc.specs.Reserve.{Reserve};

    ghost Value = { Reserve };

    ghost view = { λ r. record { room = r.room; buckets = r.buckets.items } };

    ghost invariant = { λ r. (deque_len r.buckets ≤ r.room)
        × (r.room ≤ deque_capacity r.buckets) × (r.room < 2 ^ 32) };
}

impl Reserve {
    /// No bucket, and room for so many.
    pub fn new(alloc: Global, room: u32) -> Result<Reserve, AllocError>
        ensures { IfOk result (λ r. r ≡ record { room = room; buckets = [] }) }
    {
        let buckets = VecDeque::with_capacity(alloc, room as usize)?;
        Ok(Reserve { room, buckets })
    }

    /// How many buckets are on the list.
    pub fn len(&self) -> u32
        ensures len { result ≡ length self.now.buckets }
        ensures short { result ≤ self.now.room }
    {
        self.buckets.len() as u32
    }

    /// How many buckets it may have.
    pub fn room(&self) -> u32
        ensures { result ≡ self.now.room }
    {
        self.room
    }

    /// Whether no bucket is on the list.
    pub fn is_empty(&self) -> bool
        ensures { result ≡ (length self.now.buckets == 0) }
    {
        self.len() == 0
    }

    /// The bucket at this place, counted from the one that is taken next.
    pub fn get(&self, place: u32) -> u32
        requires { place < length self.now.buckets }
        ensures { result ≡ slice_index self.now.buckets place }
    {
        self.buckets[place as usize]
    }

    /// How many more buckets it may have.
    pub fn free(&self) -> u32
        ensures { result ≡ free self.now }
    {
        self.room - self.len()
    }

    /// Whether it may have one more.
    pub fn has_room(&self) -> bool
        ensures { result ≡ has_room self.now }
    {
        self.len() < self.room
    }

    /// Puts a bucket at the end.
    pub fn push(&mut self, bucket: u32)
        requires { length self.old.buckets < self.old.room }
        ensures { self.new ≡ appended bucket self.old }
    {
        let Ok(()) = self.buckets.push_back(bucket) else {
            unreachable!()
        };
    }

    /// Puts a bucket at the front.
    pub fn push_front(&mut self, bucket: u32)
        requires { length self.old.buckets < self.old.room }
        ensures { self.new ≡ prepended bucket self.old }
    {
        let Ok(()) = self.buckets.push_front(bucket) else {
            unreachable!()
        };
    }

    /// Takes the first bucket, if there is one.
    pub fn pop(&mut self) -> Option<u32>
        ensures some { IfSome result (λ k. self.old.buckets ≡ k ∷ self.new.buckets) }
        ensures none { IfNone result ((self.old.buckets ≡ []) × (self.new ≡ self.old)) }
        ensures room { self.new.room ≡ self.old.room }
    {
        self.buckets.pop_front()
    }
}
