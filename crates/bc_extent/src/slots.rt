//! Places for keys, in two layers: the fronts of all keys, and their tails. The tails have memory
//! from the beginning, so that a key of any pointers may come without more. It is first touched
//! where a key of several pointers comes, and then there is a tail for each place.

ghost use Rattle.std.specs.Prelude.{◌≡◌, ℕ, ◌<◌, ◌≤◌, List, length, slice_set, slice_index_or, vec_capacity, IfOk};
ghost use Rattle.bc_key.specs.declared.key.Key.{Key};
ghost use Rattle.bc_key.specs.Key.{start_of};
ghost use Rattle.bc_extent.specs.Moved.{IsMoved};
ghost use Rattle.bc_extent.specs.declared.slot.Front.{Front};
ghost use Rattle.bc_extent.specs.declared.slot.Tail.{Tail};
ghost use Rattle.bc_extent.specs.Slot.{no_tail, keys_in, AreAll};

use crate::slot::{Front, Slot, Tail};
use bc_key::Key;
use std::alloc::{AllocError, Global};
use std::marker::Model;
use std::mem;

/// How many places there are.
pub const LENGTH: usize = 512;

/// So many keys.
#[derive(Drop)]
pub struct Slots {
    fronts: Vec<Front>,
    tails: Vec<Tail>,
}

impl Model for Slots {
    ghost use Rattle.std.specs.Prelude.{◌≡◌, ◌≤◌, List, length, vec_capacity};
    ghost use Rattle.bc_key.specs.declared.key.Key.{Key};
    ghost use Rattle.bc_extent.specs.Slot.{keys_in, AreAll};

    ghost Value = { List Key };

    ghost view = { λ s. keys_in s.fronts.items s.tails.items };

    ghost invariant = { λ s. (length s.fronts.items ≡ 512) × AreAll s.tails.items
        × (512 ≤ vec_capacity s.tails) };
}

/// Puts an item at place `a`, moves those from there on back by one, and takes out what stood at
/// `b`.
fn shift_up<T>(items: &mut [T], a: usize, b: usize, item: T) -> T
    requires order { a ≤ b }
    requires within { b < length items.old }
    ensures moved { IsMoved a b items.old items.new }
    ensures first { (d : T) → slice_index_or items.new a d ≡ item }
    ensures out { (d : T) → result ≡ slice_index_or items.old b d }
    ensures length { length items.new ≡ length items.old }
{
    let out = mem::replace(&mut items[b], item);
    items[a..b + 1].rotate_right(1);
    out
}

/// Puts an item at place `b`, moves those up to there to the front by one, and takes out what stood
/// at `a`.
fn shift_down<T>(items: &mut [T], a: usize, b: usize, item: T) -> T
    requires order { a ≤ b }
    requires within { b < length items.old }
    ensures moved { IsMoved a b items.new items.old }
    ensures last { (d : T) → slice_index_or items.new b d ≡ item }
    ensures out { (d : T) → result ≡ slice_index_or items.old a d }
    ensures length { length items.new ≡ length items.old }
{
    let out = mem::replace(&mut items[a], item);
    items[a..b + 1].rotate_left(1);
    out
}

/// Has a tail for each place, where this key needs one.
fn make_room(tails: &mut Vec<Tail>, slot: &Slot)
    requires all { AreAll tails.old.items }
    requires room { 512 ≤ vec_capacity tails.old }
    ensures same { (fronts : List Front)
        → keys_in fronts tails.new.items ≡ keys_in fronts tails.old.items }
    ensures all { AreAll tails.new.items }
    ensures needed { 1 < slot.now.count → length tails.new.items ≡ 512 }
    ensures room { 512 ≤ vec_capacity tails.new }
{
    if slot.front.has_more() {
        while tails.len() < LENGTH {
            tails.push_reserved(Tail::NONE);
        }
    }
}

/// The tail of a place.
fn tail_at(tails: &[Tail], i: usize) -> Tail
    ensures { result ≡ slice_index_or tails.now i no_tail }
{
    if i < tails.len() {
        tails[i]
    } else {
        Tail::NONE
    }
}

/// Puts a tail in a place, where there are tails, and takes out what stood there.
fn swap_tail(tails: &mut [Tail], i: usize, tail: Tail) -> Tail
    ensures new { tails.new ≡ slice_set tails.old i tail }
    ensures old { result ≡ slice_index_or tails.old i no_tail }
{
    if i < tails.len() {
        mem::replace(&mut tails[i], tail)
    } else {
        Tail::NONE
    }
}

/// What `shift_up` does, where there are tails.
fn shift_tails_up(tails: &mut [Tail], a: usize, b: usize, tail: Tail) -> Tail
    requires order { a ≤ b }
    requires within { b < 512 }
    requires all { AreAll tails.old }
    ensures moved { IsMoved a b tails.old tails.new }
    ensures first { 0 < length tails.new → slice_index_or tails.new a no_tail ≡ tail }
    ensures out { result ≡ slice_index_or tails.old b no_tail }
    ensures length { length tails.new ≡ length tails.old }
{
    if b < tails.len() {
        shift_up(tails, a, b, tail)
    } else {
        Tail::NONE
    }
}

/// What `shift_down` does, where there are tails.
fn shift_tails_down(tails: &mut [Tail], a: usize, b: usize, tail: Tail) -> Tail
    requires order { a ≤ b }
    requires within { b < 512 }
    requires all { AreAll tails.old }
    ensures moved { IsMoved a b tails.new tails.old }
    ensures last { 0 < length tails.new → slice_index_or tails.new b no_tail ≡ tail }
    ensures out { result ≡ slice_index_or tails.old a no_tail }
    ensures length { length tails.new ≡ length tails.old }
{
    if b < tails.len() {
        shift_down(tails, a, b, tail)
    } else {
        Tail::NONE
    }
}

impl Slots {
    /// Places that keep nothing.
    pub fn new(alloc: Global) -> Result<Slots, AllocError>
        ensures { IfOk result (λ slots. length slots ≡ 512) }
    {
        let mut fronts = Vec::with_capacity(alloc, LENGTH)?;
        for _ in 0..LENGTH {
            fronts.push(Front::EMPTY)?;
        }
        let tails = Vec::with_capacity(alloc, LENGTH)?;
        Ok(Slots { fronts, tails })
    }

    /// The key at this place.
    pub fn key(&self, i: usize) -> Key
        requires { i < 512 }
        ensures { (d : Key) → result ≡ slice_index_or self.now i d }
    {
        let slot = Slot {
            front: self.fronts[i],
            tail: tail_at(&self.tails, i),
        };
        slot.key()
    }

    /// Where the key at this place ends.
    pub fn end(&self, i: usize) -> u64
        requires { i < 512 }
        ensures { (d : Key) → result ≡ (slice_index_or self.now i d).end }
    {
        self.fronts[i].end()
    }

    /// Where the key at this place begins.
    pub fn start(&self, i: usize) -> u64
        requires { i < 512 }
        ensures { (d : Key) → result ≡ start_of (slice_index_or self.now i d) }
    {
        self.fronts[i].start()
    }

    /// How many pointers the key at this place has.
    pub fn pointers(&self, i: usize) -> u8
        requires { i < 512 }
        ensures { (d : Key) → result ≡ (slice_index_or self.now i d).count }
    {
        self.fronts[i].pointers()
    }

    /// Puts another key at this place, and gives back what stood there.
    pub fn swap_in(&mut self, i: usize, slot: Slot) -> Slot
        requires { i < 512 }
        ensures new { self.new ≡ slice_set self.old i slot }
        ensures old { (d : Key) → result ≡ slice_index_or self.old i d }
    {
        make_room(&mut self.tails, &slot);
        let front = mem::replace(&mut self.fronts[i], slot.front);
        let tail = swap_tail(&mut self.tails, i, slot.tail);
        Slot { front, tail }
    }

    /// Puts a key at place `a`, moves those from there on back by one, and takes out what stood
    /// at `b`.
    pub fn shift_up(&mut self, a: usize, b: usize, slot: Slot) -> Slot
        requires order { a ≤ b }
        requires within { b < 512 }
        ensures moved { IsMoved a b self.old self.new }
        ensures first { (d : Key) → slice_index_or self.new a d ≡ slot }
        ensures out { (d : Key) → result ≡ slice_index_or self.old b d }
        ensures length { length self.new ≡ length self.old }
    {
        make_room(&mut self.tails, &slot);
        let front = shift_up(&mut self.fronts, a, b, slot.front);
        let tail = shift_tails_up(&mut self.tails, a, b, slot.tail);
        Slot { front, tail }
    }

    /// Puts a key at place `b`, moves those up to there to the front by one, and takes out what
    /// stood at `a`.
    pub fn shift_down(&mut self, a: usize, b: usize, slot: Slot) -> Slot
        requires order { a ≤ b }
        requires within { b < 512 }
        ensures moved { IsMoved a b self.new self.old }
        ensures last { (d : Key) → slice_index_or self.new b d ≡ slot }
        ensures out { (d : Key) → result ≡ slice_index_or self.old a d }
        ensures length { length self.new ≡ length self.old }
    {
        make_room(&mut self.tails, &slot);
        let front = shift_down(&mut self.fronts, a, b, slot.front);
        let tail = shift_tails_down(&mut self.tails, a, b, slot.tail);
        Slot { front, tail }
    }
}
