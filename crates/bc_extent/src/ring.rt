//! A full ring of keys. What stands in it moves by one place, for a key that comes in at one end
//! and one that goes out at the other, without being touched.

ghost use Rattle.std.specs.Prelude.{◌≡◌, ℕ, ◌+◌, ◌<◌, ◌≤◌, List, ◌∷◌, ◌++◌, [], length, take, drop, insert, slice_set, slice_index_or, OnOk, IfOk};
ghost use Rattle.bc_key.specs.Key.{start_of};
ghost use Rattle.bc_extent.specs.Turned.{turned};
ghost use Rattle.bc_key.specs.declared.key.Key.{Key};

use crate::slot::Slot;
use crate::slots::{LENGTH, Slots};
use bc_key::Key;
use std::alloc::{AllocError, Global};
use std::marker::Model;

/// So many keys in order.
#[derive(Drop)]
pub struct Ring {
    slots: Slots,
    head: usize,
}

impl Model for Ring {
    ghost use Rattle.std.specs.Prelude.{◌≡◌, ◌<◌, List, length};
    ghost use Rattle.bc_key.specs.declared.key.Key.{Key};
    ghost use Rattle.bc_extent.specs.Turned.{turned};

    ghost Value = { List Key };

    ghost view = { λ r. turned r.head r.slots };

    ghost invariant = { λ r. (r.head < 512) × (length r.slots ≡ 512) };
}

/// Where item `i` of a ring stands that begins at `head`.
fn place(head: usize, i: usize) -> usize
    requires head { head < 512 }
    requires within { i < 512 }
    ensures within { result < 512 }
    ensures before_end { head + i < 512 → result ≡ head + i }
    ensures behind_end { 512 ≤ head + i → result + 512 ≡ head + i }
    ensures is { (slots : List Key) → length slots ≡ 512 → (d : Key)
        → slice_index_or (turned head slots) i d ≡ slice_index_or slots result d }
    ensures set { (slots : List Key) → length slots ≡ 512 → (key : Key)
        → turned head (slice_set slots result key) ≡ slice_set (turned head slots) i key }
{
    let place = head + i;
    if place < LENGTH {
        place
    } else {
        place - LENGTH
    }
}

impl Ring {
    /// A ring of nothing.
    pub fn new(alloc: Global) -> Result<Ring, AllocError>
        ensures { IfOk result (λ ring. length ring ≡ 512) }
    {
        let slots = Slots::new(alloc)?;
        Ok(Ring { slots, head: 0 })
    }

    /// The key at this place.
    pub fn key(&self, i: usize) -> Key
        requires { i < 512 }
        ensures { (d : Key) → result ≡ slice_index_or self.now i d }
    {
        self.slots.key(place(self.head, i))
    }

    /// Where the key at this place ends.
    pub fn end(&self, i: usize) -> u64
        requires { i < 512 }
        ensures { (d : Key) → result ≡ (slice_index_or self.now i d).end }
    {
        self.slots.end(place(self.head, i))
    }

    /// Where the key at this place begins.
    pub fn start(&self, i: usize) -> u64
        requires { i < 512 }
        ensures { (d : Key) → result ≡ start_of (slice_index_or self.now i d) }
    {
        self.slots.start(place(self.head, i))
    }

    /// How many pointers the key at this place has.
    pub fn pointers(&self, i: usize) -> u8
        requires { i < 512 }
        ensures { (d : Key) → result ≡ (slice_index_or self.now i d).count }
    {
        self.slots.pointers(place(self.head, i))
    }

    /// Puts another key at this place, and gives back what stood there.
    pub fn swap_in(&mut self, i: usize, slot: Slot) -> Slot
        requires { i < 512 }
        ensures new { self.new ≡ slice_set self.old i slot }
        ensures old { (d : Key) → result ≡ slice_index_or self.old i d }
        ensures length { (length self.old ≡ 512) × (length self.new ≡ 512) }
    {
        let at = place(self.head, i);
        self.slots.swap_in(at, slot)
    }

    /// Puts a key before all of them, and takes out the last one.
    pub fn push_front(&mut self, slot: Slot) -> Slot
        ensures { self.new ++ result ∷ [] ≡ slot ∷ self.old }
    {
        self.head = if self.head == 0 {
            LENGTH - 1
        } else {
            self.head - 1
        };
        let head = self.head;
        self.slots.swap_in(head, slot)
    }

    /// Puts a key behind all of them, and takes out the first one.
    pub fn push_back(&mut self, slot: Slot) -> Slot
        ensures { result ∷ self.new ≡ self.old ++ slot ∷ [] }
    {
        let head = self.head;
        let first = self.slots.swap_in(head, slot);
        self.head = if head == LENGTH - 1 { 0 } else { head + 1 };
        first
    }

    /// Puts a key at a place, moves those from there on back by one, and takes out what stood at the
    /// last place.
    fn move_up(&mut self, from: usize, last: usize, slot: Slot) -> Slot
        requires order { from ≤ last }
        requires within { last < 512 }
        ensures moved { insert self.new (last + 1) result ≡ insert self.old from slot }
        ensures length { (length self.old ≡ 512) × (length self.new ≡ 512) }
    {
        let a = place(self.head, from);
        let b = place(self.head, last);
        if a <= b {
            return self.slots.shift_up(a, b, slot);
        }
        // Across the end of the slots.
        let carried = self.slots.shift_up(a, LENGTH - 1, slot);
        self.slots.shift_up(0, b, carried)
    }

    /// Takes out what stands at a place, moves those behind it to the front by one, and puts a key at
    /// the last place.
    fn move_down(&mut self, from: usize, last: usize, slot: Slot) -> Slot
        requires order { from ≤ last }
        requires within { last < 512 }
        ensures moved { insert self.new from result ≡ insert self.old (last + 1) slot }
        ensures length { (length self.old ≡ 512) × (length self.new ≡ 512) }
    {
        let a = place(self.head, from);
        let b = place(self.head, last);
        if a <= b {
            return self.slots.shift_down(a, b, slot);
        }
        // Across the end of the slots.
        let carried = self.slots.shift_down(0, b, slot);
        self.slots.shift_down(a, LENGTH - 1, carried)
    }

    /// Puts a key at this place, and takes out the last one. The others move by one place: those
    /// behind it or those before it, whichever are fewer.
    pub fn push_at(&mut self, place: usize, slot: Slot) -> Slot
        requires { place < 512 }
        ensures { self.new ++ result ∷ [] ≡ insert self.old place slot }
    {
        if place >= LENGTH / 2 {
            return self.move_up(place, LENGTH - 1, slot);
        }
        let last = self.push_front(Slot::empty());
        let _ = self.move_down(0, place, slot);
        last
    }

    /// Takes out what stands at this place, and puts a key at the end. The others move by one place:
    /// those behind it or those before it, whichever are fewer.
    pub fn pull_at(&mut self, place: usize, slot: Slot) -> Slot
        requires { place < 512 }
        ensures { insert self.new place result ≡ self.old ++ slot ∷ [] }
    {
        if place >= LENGTH / 2 {
            return self.move_down(place, LENGTH - 1, slot);
        }
        let out = self.move_up(0, place, Slot::empty());
        let _ = self.push_back(slot);
        out
    }
}
