//! The extent map in one vector of keys, with the contract of the real one. An insert or an erase moves
//! every key behind its place.

ghost use Rattle.std.specs.Prelude.{◌≡◌, ◌↔◌, ℕ, ◌+◌, ◌<◌, ◌≤◌, ◌++◌, [], ◌∷◌, All, Contains, IsTrue, IsNone, IfSome, OnOk, OnErr};
ghost use Rattle.std.specs.Bool.{OnTrue, OnFalse};
ghost use Rattle.bc_key.specs.Key.{IsExtent, Covers};
ghost use Rattle.bc_extent.specs.LastKey.{last_key};
ghost use Rattle.bc_extent.specs.Extents.{IsInOrder, Shows, room_of, erased};

mod change;
mod parts;
mod places;
mod sides;
mod splice;

use crate::vector::change::overlay;
use crate::vector::places::{key_at, place_of};
use bc_key::Key;
use std::alloc::{AllocError, Global};
use std::marker::Model;

/// The keys of a backing device's sectors, in the order of their ranges, of which no two overlap. The
/// inode plays no part.
///
/// A place is found in a number of steps that is logarithmic in the number of keys. An insert or an
/// erase then moves the keys behind that place.
#[derive(Drop)]
pub struct PlainExtents {
    keys: Vec<Key>,
}

impl Model for PlainExtents {
    ghost use Rattle.std.specs.Prelude.{◌-◌, vec_capacity, vec_len};
    ghost use Rattle.bc_extent.specs.Extents.{Extents, IsInOrder};

    ghost Value = { Extents };

    ghost view = { λ e. record { keys = e.keys.items; spare = vec_capacity e.keys - vec_len e.keys } };

    ghost invariant = { λ e. IsInOrder e.keys.items };
}

impl PlainExtents {
    /// No keys, and no room for any.
    pub fn new(alloc: Global) -> PlainExtents
        ensures keys { result.keys ≡ [] }
        ensures spare { result.spare ≡ 0 }
    {
        PlainExtents {
            keys: Vec::new(alloc),
        }
    }

    /// The keys, in order.
    pub fn keys(&self) -> &[Key]
        ensures keys { result.now ≡ self.now.keys }
        ensures order { IsInOrder self.now.keys }
    {
        &self.keys
    }

    /// How many more keys have room.
    pub fn spare(&self) -> usize
        ensures { result ≡ self.now.spare }
    {
        self.keys.capacity() - self.keys.len()
    }

    /// Takes memory where `spare` is below `more`, so that it is `more` at least. Where no memory is
    /// found, nothing has changed.
    pub fn reserve(&mut self, more: usize) -> Result<(), AllocError>
        ensures keys { self.new.keys ≡ self.old.keys }
        ensures raised { self.old.spare ≤ self.new.spare }
        ensures ok { OnOk result (more ≤ self.new.spare) }
        ensures err { OnErr result ((self.new.spare ≡ self.old.spare) × (self.old.spare < more)) }
    {
        self.keys.reserve(more)
    }

    /// The key that covers the sector.
    pub fn lookup(&self, sector: u64) -> Option<Key>
        ensures last { result ≡ last_key self.now.keys sector }
        ensures covers { IfSome result (λ key. Covers key sector) }
        ensures none { IsNone result ↔ All (λ key. ¬ (Covers key sector)) self.now.keys }
    {
        key_at(&self.keys, sector)
    }

    /// Adds a key, the newest. Of an older key that it overlaps, the sectors outside its range are
    /// left, as one key or two. A key without pointers is kept like any other, and one of size 0
    /// changes nothing. Takes no memory.
    pub fn insert(&mut self, key: &Key)
        requires spare { 2 ≤ self.old.spare }
        requires extent { IsExtent key.now }
        ensures shows { Shows (last_key (self.old.keys ++ key.now ∷ [])) self.new.keys }
        ensures order { IsInOrder self.new.keys }
        ensures spare { self.old.spare ≤ self.new.spare + 2 }
        ensures room { room_of self.new ≡ room_of self.old }
    {
        if key.size > 0 {
            overlay(&mut self.keys, key.start(), key.end, Some(*key));
        }
    }

    /// Takes `count` sectors from `first` on out of the keys, of which one may be left as two. Every
    /// other sector keeps its key. Takes no memory.
    pub fn erase(&mut self, first: u64, count: u32)
        requires { 1 ≤ self.old.spare }
        ensures shows { Shows (erased first count (last_key self.old.keys)) self.new.keys }
        ensures gone { (sector : ℕ) → first ≤ sector → sector < first + count
            → All (λ key. ¬ (Covers key sector)) self.new.keys }
        ensures order { IsInOrder self.new.keys }
        ensures spare { self.old.spare ≤ self.new.spare + 1 }
        ensures room { room_of self.new ≡ room_of self.old }
    {
        // A key ends at 2^64 - 1 at most, so none covers a sector from there on.
        let end = first.saturating_add(u64::from(count));
        if first < end {
            overlay(&mut self.keys, first, end, None);
        }
    }

    /// Inserts a key in the place of one with the same range, and says whether that key, unchanged,
    /// was there. Where it wasn't, nothing changes. Takes no memory.
    pub fn replace(&mut self, old: &Key, new: &Key) -> bool
        requires end { new.now.end ≡ old.now.end }
        requires size { new.now.size ≡ old.now.size }
        ensures found { IsTrue result ↔ Contains self.old.keys old.now }
        ensures shows { OnTrue result (Shows (last_key (self.old.keys ++ new.now ∷ [])) self.new.keys) }
        ensures same { OnFalse result (self.new.keys ≡ self.old.keys) }
        ensures order { IsInOrder self.new.keys }
        ensures spare { self.new.spare ≡ self.old.spare }
    {
        if let Some(place) = place_of(&self.keys, old) {
            self.keys[place] = *new;
            true
        } else {
            false
        }
    }
}
