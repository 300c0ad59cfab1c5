ghost use Rattle.std.specs.Prelude.{◌≡◌, ◌↔◌, ℕ, ◌+◌, ◌<◌, ◌≤◌, ◌++◌, [], ◌∷◌, ◌^◌, length, slice_get, slice_index_or, All, Contains, IsTrue, IsNone, IfSome, OnOk, OnErr};
ghost use Rattle.std.specs.Bool.{OnTrue, OnFalse};
ghost use Rattle.bc_key.specs.declared.key.Key.{Key};
ghost use Rattle.bc_key.specs.Key.{IsExtent, Covers};
ghost use Rattle.bc_extent.specs.LastKey.{last_key};
ghost use Rattle.bc_extent.specs.Extents.{IsInOrder, Shows, erased, room_of};

use crate::change::{overlay, put_last};
use crate::places::{key_at, last_end, place_of};
use crate::rows::Rows;
use crate::slot::Slot;
use bc_key::Key;
use std::alloc::{AllocError, Global};
use std::marker::Model;

/// The keys of a backing device's sectors, in the order of their ranges, of which no two overlap. The
/// inode plays no part.
///
/// A place is found in a number of steps that is logarithmic in the number of keys. One key more or
/// less moves at most 256 keys beside it, and one of each 512 behind them.
///
/// A key has 64 bytes of memory, of which 40 are for the pointers behind its first one. So a key of
/// any pointers may come in the place of any other, and no call but `reserve` takes memory. As long
/// as no key among 512 has more than one pointer, those bytes are set aside and never written.
#[derive(Drop)]
pub struct Extents {
    rows: Rows,
    alloc: Global,
}

impl Model for Extents {
    ghost use Rattle.bc_extent.specs.Extents.{Extents, IsInOrder};

    ghost Value = { Extents };

    ghost view = { λ e. e.rows };

    ghost invariant = { λ e. IsInOrder e.rows.keys };
}

impl Extents {
    /// No keys, and no room for any.
    pub fn new(alloc: Global) -> Extents
        ensures keys { result.keys ≡ [] }
        ensures spare { result.spare ≡ 0 }
    {
        Extents {
            rows: Rows::new(alloc),
            alloc,
        }
    }

    /// How many keys there are.
    pub fn len(&self) -> usize
        ensures count { result ≡ length self.now.keys }
        ensures small { result ≤ 2 ^ 55 }
        ensures order { IsInOrder self.now.keys }
    {
        self.rows.len()
    }

    /// Whether there is no key.
    pub fn is_empty(&self) -> bool
        ensures { IsTrue result ↔ (self.now.keys ≡ []) }
    {
        self.rows.len() == 0
    }

    /// The key at this place, counted from 0, in the order of their ranges.
    pub fn key(&self, i: usize) -> Key
        requires { i < length self.now.keys }
        ensures key { slice_get self.now.keys i ≡ Some result }
        ensures order { IsInOrder self.now.keys }
    {
        self.rows.key(i)
    }

    /// How many pointers the key at this place has, without the key itself being made.
    pub fn pointers(&self, i: usize) -> u8
        requires { i < length self.now.keys }
        ensures { (d : Key) → result ≡ (slice_index_or self.now.keys i d).count }
    {
        self.rows.pointers(i)
    }

    /// For how many more keys there is room.
    pub fn spare(&self) -> usize
        ensures { result ≡ self.now.spare }
    {
        self.rows.spare()
    }

    /// Takes memory where `spare` is below `more`, so that it is `more` at least. Where no memory is
    /// found, nothing has changed.
    pub fn reserve(&mut self, more: usize) -> Result<(), AllocError>
        ensures keys { self.new.keys ≡ self.old.keys }
        ensures raised { self.old.spare ≤ self.new.spare }
        ensures ok { OnOk result (more ≤ self.new.spare) }
        ensures err { OnErr result ((self.new.spare ≡ self.old.spare) × (self.old.spare < more)) }
    {
        self.rows.reserve(self.alloc, more)
    }

    /// The key that covers the sector.
    pub fn lookup(&self, sector: u64) -> Option<Key>
        ensures last { result ≡ last_key self.now.keys sector }
        ensures covers { IfSome result (λ key. Covers key sector) }
        ensures none { IsNone result ↔ All (λ key. ¬ (Covers key sector)) self.now.keys }
    {
        key_at(&self.rows, sector)
    }

    /// Adds a key, the newest. Of an older key that it overlaps, the sectors outside its range are
    /// left, as one key or two. A key without pointers is kept like any other, and one of size 0
    /// changes nothing. Takes no memory.
    pub fn insert(&mut self, key: &Key)
        requires spare { 2 ≤ self.old.spare }
        requires extent { IsExtent key.now }
        ensures shows { Shows (last_key (self.old.keys ++ key.now ∷ [])) self.new.keys }
        ensures order { IsInOrder self.new.keys }
        ensures spare { self.old.spare ≤ self.new.spare + 2 }
        ensures room { room_of self.new ≡ room_of self.old }
    {
        if key.size > 0 {
            // Keys in order, as a set has them, come behind all others.
            let first = key.start();
            if last_end(&self.rows) <= first {
                put_last(&mut self.rows, key);
            } else {
                overlay(&mut self.rows, first, key.end, &Some(*key));
            }
        }
    }

    /// Takes `count` sectors from `first` on out of the keys, of which one may be left as two. Every
    /// other sector keeps its key. Takes no memory.
    pub fn erase(&mut self, first: u64, count: u32)
        requires { 1 ≤ self.old.spare }
        ensures shows { Shows (erased first count (last_key self.old.keys)) self.new.keys }
        ensures gone { (sector : ℕ) → first ≤ sector → sector < first + count
            → All (λ key. ¬ (Covers key sector)) self.new.keys }
        ensures order { IsInOrder self.new.keys }
        ensures spare { self.old.spare ≤ self.new.spare + 1 }
        ensures room { room_of self.new ≡ room_of self.old }
    {
        // A key ends at 2^64 - 1 at most, so none covers a sector from there on.
        let end = first.saturating_add(u64::from(count));
        if first < end {
            overlay(&mut self.rows, first, end, &None);
        }
    }

    /// Takes out all keys. The room stays. Takes no memory.
    pub fn clear(&mut self)
        ensures keys { self.new.keys ≡ [] }
        ensures room { room_of self.new ≡ room_of self.old }
    {
        self.rows.clear();
    }

    /// Inserts a key in the place of one with the same range, and says whether that key, unchanged,
    /// was there. Where it wasn't, nothing changes. Takes no memory.
    pub fn replace(&mut self, old: &Key, new: &Key) -> bool
        requires end { new.now.end ≡ old.now.end }
        requires size { new.now.size ≡ old.now.size }
        ensures found { IsTrue result ↔ Contains self.old.keys old.now }
        ensures shows { OnTrue result (Shows (last_key (self.old.keys ++ new.now ∷ [])) self.new.keys) }
        ensures same { OnFalse result (self.new.keys ≡ self.old.keys) }
        ensures order { IsInOrder self.new.keys }
        ensures spare { self.new.spare ≡ self.old.spare }
    {
        if let Some(place) = place_of(&self.rows, old) {
            let _ = self.rows.swap_in(place, Slot::new(new));
            true
        } else {
            false
        }
    }
}
