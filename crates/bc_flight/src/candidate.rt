//! Candidates: data that lies on the cache device and may be named by the index later.
//!
//! What a miss read, or a write through the cache wrote, is placed on the cache device at once. The
//! index may name it as clean only once the backing device is known to hold the same for good, behind
//! a barrier: named before, it could be shown after a crash though the backing device holds older
//! data. So it waits here under a number. Whoever makes a barrier reads the next number first, and may
//! then settle the candidates below it. A write claims its range exclusively, and that kills what
//! waits there, since it is about to be replaced.
ghost use Rattle.std.specs.Prelude.{◌≡◌, ◌↔◌, IsTrue, ◌+◌, ◌-◌, ◌<◌, ◌≤◌, ◌^◌, ◌++◌, ◌∷◌, [], IfOk, IfSome, IfNone, true, false, Some, None, length, slice_get};
ghost use Rattle.std.specs.List.{remove};
ghost use Rattle.bc_flight.specs.Candidates.{is_over, is_wanted, first_of, without_first, kill_over, after_claim, key_of, AreNumbered};

use crate::claim::{Claim, Share};
use bc_key::Key;
use std::alloc::{AllocError, Global};
use std::marker::Model;

/// How many candidates may stand, killed ones that weren't taken out included.
pub const MOST: usize = 64;

/// One range of sectors whose data lies on the cache device, where its key says.
#[derive(Clone, Copy, Debug, PartialEq, Eq)]
pub struct Candidate {
    /// Candidates are numbered in their order, each number once.
    pub number: u64,
    /// The range, and where its data lies.
    pub key: Key,
    /// Whether something claimed a part of the range exclusively since.
    pub killed: bool,
}

/// Which candidates are asked for.
#[derive(Clone, Copy, Debug, PartialEq, Eq)]
pub enum Wanted {
    /// Those that were killed.
    Dead,
    /// Those that weren't and have a number below this one.
    Due(u64),
}

/// The candidates that stand. All memory is taken when this is made.
#[derive(Drop)]
pub struct Candidates {
    items: Vec<Candidate>,
    next: u64,
}

impl Model for Candidates {
    ghost use Rattle.std.specs.Prelude.{◌≤◌, length, vec_capacity};
    ghost use Rattle.bc_flight.specs.Candidates.{Waiting, AreNumbered};

    ghost Value = { Waiting };

    ghost view = { λ c. record { candidates = c.items.items; next = c.next } };

    ghost invariant = { λ c. AreNumbered 0 c.next c.items.items × (length c.items.items ≤ 64) × (64 ≤ vec_capacity c.items) };
}

impl Candidate {
    ghost use Rattle.std.specs.Prelude.{◌≡◌, ◌+◌, ◌<◌, ◌^◌};
    ghost use Rattle.bc_flight.specs.Candidates.{is_over, killed_over, is_wanted};

    // Whether one of these sectors is the candidate's.
    fn is_over(&self, first: u64, count: u32) -> bool
        requires { first + count < 2 ^ 64 }
        ensures { result ≡ is_over first count self.now }
    {
        first.max(self.key.start()) < (first + u64::from(count)).min(self.key.end)
    }

    // The candidate, killed where one of these sectors is its.
    fn killed_over(&self, first: u64, count: u32) -> Candidate
        requires { first + count < 2 ^ 64 }
        ensures { result ≡ killed_over first count self.now }
    {
        Candidate {
            killed: self.killed || self.is_over(first, count),
            ..*self
        }
    }

    // Whether it is one of those.
    fn is_wanted(&self, wanted: Wanted) -> bool
        ensures { result ≡ is_wanted wanted self.now }
    {
        match wanted {
            Wanted::Dead => self.killed,
            Wanted::Due(before) => !self.killed && self.number < before,
        }
    }
}

// Where the oldest one stands that is wanted.
fn place_of(items: &[Candidate], wanted: Wanted) -> Option<usize>
    ensures some { IfSome result (λ i. (i < length items.now) × (first_of wanted items.now ≡ slice_get items.now i)) }
    ensures rest { IfSome result (λ i. without_first wanted items.now ≡ remove items.now i) }
    ensures none { IfNone result (first_of wanted items.now ≡ None) }
    ensures all { IfNone result (without_first wanted items.now ≡ items.now) }
{
    for (i, candidate) in items.iter().enumerate() {
        if candidate.is_wanted(wanted) {
            return Some(i);
        }
    }
    None
}

// Kills each that is over the range.
fn kill_each(items: &mut [Candidate], first: u64, count: u32)
    requires { first + count < 2 ^ 64 }
    ensures { items.new ≡ kill_over first count items.old }
{
    for candidate in items.iter_mut() {
        *candidate = candidate.killed_over(first, count);
    }
}

impl Candidates {
    /// No candidate stands, and the first one will have number 0.
    pub fn new(alloc: Global) -> Result<Candidates, AllocError>
        ensures { IfOk result (λ c. (c.candidates ≡ []) × (c.next ≡ 0)) }
    {
        let items = Vec::with_capacity(alloc, MOST)?;
        Ok(Candidates { items, next: 0 })
    }

    /// Adds one, which isn't killed, and answers its number. Takes no memory.
    pub fn add(&mut self, key: Key) -> u64
        requires room { length self.old.candidates < 64 }
        requires number { self.old.next < 2 ^ 64 - 1 }
        ensures number { result ≡ self.old.next }
        ensures candidates { self.new.candidates ≡ self.old.candidates ++ record { number = result; key = key; killed = false } ∷ [] }
        ensures next { self.new.next ≡ self.old.next + 1 }
    {
        let number = self.next;
        let candidate = Candidate {
            number,
            key,
            killed: false,
        };
        let Ok(()) = self.items.push(candidate) else {
            unreachable!()
        };
        self.next += 1;
        number
    }

    /// Takes out the oldest one that is wanted, if there is one.
    pub fn take(&mut self, wanted: Wanted) -> Option<Key>
        ensures key { result ≡ key_of (first_of wanted self.old.candidates) }
        ensures candidates { self.new.candidates ≡ without_first wanted self.old.candidates }
        ensures next { self.new.next ≡ self.old.next }
    {
        let Some(place) = place_of(&self.items, wanted) else {
            return None;
        };
        let taken = self.items.remove(place);
        Some(taken.key)
    }

    /// Kills each that has one of these sectors.
    pub fn kill(&mut self, first: u64, count: u32)
        requires { first + count < 2 ^ 64 }
        ensures candidates { self.new.candidates ≡ kill_over first count self.old.candidates }
        ensures next { self.new.next ≡ self.old.next }
    {
        kill_each(&mut self.items, first, count);
    }

    /// Kills those that a claim overlaps, if it is exclusive.
    pub fn claimed(&mut self, claim: &Claim)
        requires { claim.now.first + claim.now.count < 2 ^ 64 }
        ensures candidates { self.new.candidates ≡ after_claim claim.now self.old.candidates }
        ensures next { self.new.next ≡ self.old.next }
    {
        if claim.share == Share::Exclusive {
            self.kill(claim.first, claim.count);
        }
    }

    /// Those that stand, killed ones that weren't taken out included, the oldest first: 64 at most,
    /// whose numbers rise and stay below the next one.
    pub fn items(&self) -> &[Candidate]
        ensures value { result.now ≡ self.now.candidates }
        ensures numbered { AreNumbered 0 self.now.next self.now.candidates }
        ensures few { length self.now.candidates ≤ 64 }
    {
        &self.items
    }

    /// How many stand, killed ones that weren't taken out included.
    pub fn len(&self) -> usize
        ensures count { result ≡ length self.now.candidates }
        ensures most { result ≤ 64 }
    {
        self.items.len()
    }

    /// Whether none stands.
    pub fn is_empty(&self) -> bool
        ensures { IsTrue result ↔ (self.now.candidates ≡ []) }
    {
        self.items.is_empty()
    }

    /// The number of the next one.
    pub fn next(&self) -> u64
        ensures { result ≡ self.now.next }
    {
        self.next
    }
}
