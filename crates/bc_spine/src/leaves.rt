//! The leaves of a tree.
ghost use Rattle.std.specs.Prelude.{◌≡◌, ℕ, ◌+◌, ◌%◌, ◌^◌, ◌<◌, ◌≤◌, ◌++◌, [], ◌∷◌, length, take, drop, slice_get, Some, OnOk, OnErr, IfOk};
ghost use Rattle.bc_model.specs.Pieces.{piece_sectors};
ghost use Rattle.bc_spine.specs.declared.leaf.LeafRange.{LeafRange};
ghost use Rattle.bc_spine.specs.Leaves.{AreCounted, AreLeaves, CanReplace, IsLeafAt, IsNumberAt, IsPushed, Spans};
ghost use Rattle.bc_spine.specs.Numbers.{IsLeastAlike, IsLeastFree};

use crate::leaf::LeafRange;
use crate::numbers::{least_alike, least_free};
use crate::row::{place_of, replace};
use bc_key::Ptr;
use std::alloc::{AllocError, Global};
use std::marker::Model;

/// The leaves of a tree, in the order of their ranges.
#[derive(Drop)]
pub struct Leaves {
    row: Vec<LeafRange>,
    end: u64,
    alloc: Global,
}

impl Model for Leaves {
    ghost use Rattle.std.specs.Prelude.{◌-◌, vec_capacity, vec_len};
    ghost use Rattle.bc_spine.specs.Leaves.{AreLeaves, Leaves};

    ghost Value = { Leaves };

    ghost view = { λ l. record {
      leaves = l.row.items;
      end = l.end;
      spare = vec_capacity l.row - vec_len l.row;
    } };

    ghost invariant = { λ l. AreLeaves l.row.items l.end };
}

impl Leaves {
    /// No leaves.
    pub fn new(alloc: Global) -> Leaves
        ensures leaves { result.leaves ≡ [] }
        ensures end { result.end ≡ 0 }
    {
        Leaves {
            row: Vec::new(alloc),
            end: 0,
            alloc,
        }
    }

    /// Adds a leaf behind the others, as a tree is built. Its number is how many there were. Where
    /// no memory is found, nothing has changed.
    pub fn push(&mut self, end: u64, ptr: Ptr) -> Result<(), AllocError>
        requires end { self.old.end < end }
        requires cut { end % piece_sectors ≡ 0 }
        requires counted { AreCounted 0 self.old.leaves }
        ensures ok { OnOk result (IsPushed self.old self.new end ptr) }
        ensures err { OnErr result ((self.new.leaves ≡ self.old.leaves)
            × (self.new.end ≡ self.old.end)) }
    {
        if self.row.len() > u32::MAX as usize {
            return Err(AllocError);
        }
        let leaf = LeafRange {
            number: self.row.len() as u32,
            from: self.end,
            end,
            ptr,
        };
        self.row.push(leaf)?;
        self.end = end;
        Ok(())
    }

    /// How many leaves there are.
    pub fn len(&self) -> usize
        ensures count { result ≡ length self.now.leaves }
        ensures all { AreLeaves self.now.leaves self.now.end }
    {
        self.row.len()
    }

    /// The sector behind the last leaf.
    pub fn end(&self) -> u64
        ensures { result ≡ self.now.end }
    {
        self.end
    }

    /// How many more leaves have room.
    pub fn spare(&self) -> usize
        ensures { result ≡ self.now.spare }
    {
        self.row.capacity() - self.row.len()
    }

    /// The leaf at a place, counted from 0.
    pub fn leaf(&self, place: usize) -> LeafRange
        requires { place < length self.now.leaves }
        ensures leaf { slice_get self.now.leaves place ≡ Some result }
        ensures all { AreLeaves self.now.leaves self.now.end }
        ensures few { length self.now.leaves < 2 ^ 64 }
    {
        self.row[place]
    }

    /// The place of the leaf that a sector lies in. It takes a number of steps that is logarithmic
    /// in the number of leaves.
    pub fn place(&self, sector: u64) -> usize
        requires { sector < self.now.end }
        ensures { (leaf : LeafRange) × (slice_get self.now.leaves result ≡ Some leaf)
            × Spans leaf sector }
    {
        place_of(&self.row, sector)
    }

    /// The leaf that a sector lies in.
    pub fn find(&self, sector: u64) -> LeafRange
        requires { sector < self.now.end }
        ensures { IsLeafAt self.now.leaves sector result }
    {
        self.row[place_of(&self.row, sector)]
    }

    /// The number of the leaf that a sector lies in.
    pub fn path(&self, sector: u64) -> u32
        requires { sector < self.now.end }
        ensures { IsNumberAt self.now.leaves sector result }
    {
        self.find(sector).number
    }

    /// The least number from `from` on that no leaf has.
    pub fn least_free(&self, from: u32) -> Result<u32, AllocError>
        ensures { IfOk result (IsLeastFree self.now.leaves from) }
    {
        least_free(self.alloc, &self.row, from)
    }

    /// The least number that no leaf has, of those that leave the rest that this one leaves by so
    /// many parts.
    pub fn least_alike(&self, number: u32, parts: u32) -> Result<u32, AllocError>
        requires { 0 < parts }
        ensures { IfOk result (IsLeastAlike self.now.leaves parts (number % parts)) }
    {
        least_alike(self.alloc, &self.row, parts, number % parts)
    }

    /// Takes memory where it lacks, so that `spare` is `more` at least. The leaves stay.
    pub fn reserve(&mut self, more: usize) -> Result<(), AllocError>
        ensures leaves { self.new.leaves ≡ self.old.leaves }
        ensures end { self.new.end ≡ self.old.end }
        ensures raised { self.old.spare ≤ self.new.spare }
        ensures ok { OnOk result (more ≤ self.new.spare) }
    {
        self.row.reserve(more)
    }

    /// Puts leaves in the place of `gone` others from a place on, which have the same sectors.
    /// Takes no memory.
    pub fn replace(&mut self, place: usize, gone: usize, come: &[LeafRange])
        requires within { place + gone ≤ length self.old.leaves }
        requires room { length come.now ≤ self.old.spare + gone }
        requires fits { CanReplace self.old.leaves (take gone (drop place self.old.leaves)) come.now }
        ensures leaves { self.new.leaves
            ≡ take place self.old.leaves ++ come.now ++ drop (place + gone) self.old.leaves }
        ensures all { AreLeaves self.new.leaves self.new.end }
        ensures end { self.new.end ≡ self.old.end }
        ensures spare { self.old.spare + gone ≤ self.new.spare + length come.now }
    {
        replace(&mut self.row, place, gone, come);
    }
}
