//! Changes of leaves.
ghost use Rattle.std.specs.Prelude.{◌≡◌, suc, ◌+◌, ◌<◌, ◌≤◌, ◌++◌, length, take, drop, OnOk, IfOk};
ghost use Rattle.bc_spine.specs.Leaves.{AreLeaves};
ghost use Rattle.bc_spine.specs.Exchange.{CanCut, IsFor, IsMerged, IsMoved, IsSplit, coming};
ghost use Rattle.bc_spine.specs.Numbers.{IsLeastFree};

use crate::leaf::LeafRange;
use crate::leaves::Leaves;
use bc_key::Ptr;
use std::alloc::AllocError;

/// Leaves of a row that go, one or two, and one or two that come in their place.
#[derive(Clone, Copy, Debug, PartialEq, Eq)]
pub struct Exchange {
    /// The place of the first leaf that goes.
    pub place: usize,
    /// How many go.
    pub gone: usize,
    /// The leaf that comes, or the one of the lower sectors.
    pub first: LeafRange,
    /// The one of the higher sectors, where two come.
    pub second: Option<LeafRange>,
}

impl Leaves {
    /// The least two numbers that no leaf has.
    fn two_free(&self) -> Result<(u32, u32), AllocError>
        ensures { IfOk result (λ two. IsLeastFree self.now.leaves 0 two.0
            × IsLeastFree self.now.leaves (suc two.0) two.1) }
    {
        let first = self.least_free(0)?;
        if first == u32::MAX {
            return Err(AllocError);
        }
        let second = self.least_free(first + 1)?;
        Ok((first, second))
    }

    fn split(&self, place: usize, cut: u64, low: Ptr, high: Ptr) -> Result<Exchange, AllocError>
        requires { CanCut self.now.leaves place cut }
        ensures split { IfOk result (IsSplit self.now.leaves place cut low high) }
        ensures fits { IfOk result (IsFor self.now.leaves) }
    {
        let leaf = self.leaf(place);
        let (first, second) = self.two_free()?;
        Ok(Exchange {
            place,
            gone: 1,
            first: LeafRange {
                number: first,
                from: leaf.from,
                end: cut,
                ptr: low,
            },
            second: Some(LeafRange {
                number: second,
                from: cut,
                end: leaf.end,
                ptr: high,
            }),
        })
    }

    fn moved(&self, place: usize, to: Ptr, parts: u32) -> Result<Exchange, AllocError>
        requires within { place < length self.now.leaves }
        requires parts { 0 < parts }
        ensures moved { IfOk result (IsMoved self.now.leaves place parts to) }
        ensures fits { IfOk result (IsFor self.now.leaves) }
    {
        let leaf = self.leaf(place);
        let number = self.least_alike(leaf.number, parts)?;
        Ok(Exchange {
            place,
            gone: 1,
            first: LeafRange {
                number,
                from: leaf.from,
                end: leaf.end,
                ptr: to,
            },
            second: None,
        })
    }

    fn merged(&self, place: usize, to: Ptr) -> Result<Exchange, AllocError>
        requires within { place + 1 < length self.now.leaves }
        ensures merged { IfOk result (IsMerged self.now.leaves place to) }
        ensures fits { IfOk result (IsFor self.now.leaves) }
    {
        let left = self.leaf(place);
        let right = self.leaf(place + 1);
        let number = self.least_free(0)?;
        Ok(Exchange {
            place,
            gone: 2,
            first: LeafRange {
                number,
                from: left.from,
                end: right.end,
                ptr: to,
            },
            second: None,
        })
    }

    /// Plans to cut the leaf at a place in two: the sectors below the cut go to one place of the
    /// device, the others to another. The leaves stay until `install`, for which room is made here.
    pub fn plan_split(
        &mut self,
        place: usize,
        cut: u64,
        low: Ptr,
        high: Ptr,
    ) -> Result<Exchange, AllocError>
        requires { CanCut self.old.leaves place cut }
        ensures split { IfOk result (IsSplit self.new.leaves place cut low high) }
        ensures fits { IfOk result (IsFor self.new.leaves) }
        ensures room { OnOk result (2 ≤ self.new.spare) }
        ensures leaves { self.new.leaves ≡ self.old.leaves }
        ensures end { self.new.end ≡ self.old.end }
        ensures raised { self.old.spare ≤ self.new.spare }
    {
        self.reserve(2)?;
        self.split(place, cut, low, high)
    }

    /// Plans to move the leaf at a place to another one of the device. Its new number leaves the
    /// rest that the old one leaves by so many parts: so who keeps leaves in parts by their numbers
    /// keeps it where it was. The leaves stay until `install`, for which room is made here.
    pub fn plan_rewrite(
        &mut self,
        place: usize,
        to: Ptr,
        parts: u32,
    ) -> Result<Exchange, AllocError>
        requires within { place < length self.old.leaves }
        requires parts { 0 < parts }
        ensures moved { IfOk result (IsMoved self.new.leaves place parts to) }
        ensures fits { IfOk result (IsFor self.new.leaves) }
        ensures room { OnOk result (1 ≤ self.new.spare) }
        ensures leaves { self.new.leaves ≡ self.old.leaves }
        ensures end { self.new.end ≡ self.old.end }
        ensures raised { self.old.spare ≤ self.new.spare }
    {
        self.reserve(1)?;
        self.moved(place, to, parts)
    }

    /// Plans to make one leaf of the one at a place and the next. The leaves stay until `install`,
    /// for which room is made here.
    pub fn plan_merge(&mut self, place: usize, to: Ptr) -> Result<Exchange, AllocError>
        requires within { place + 1 < length self.old.leaves }
        ensures merged { IfOk result (IsMerged self.new.leaves place to) }
        ensures fits { IfOk result (IsFor self.new.leaves) }
        ensures room { OnOk result (1 ≤ self.new.spare) }
        ensures leaves { self.new.leaves ≡ self.old.leaves }
        ensures end { self.new.end ≡ self.old.end }
        ensures raised { self.old.spare ≤ self.new.spare }
    {
        self.reserve(1)?;
        self.merged(place, to)
    }

    /// Puts the leaves that come in the place of those that go, so that each sector still lies in
    /// one leaf. Takes no memory.
    pub fn install(&mut self, e: &Exchange)
        requires made { IsFor self.old.leaves e.now }
        requires room { length (coming e.now) ≤ self.old.spare + e.now.gone }
        ensures leaves { self.new.leaves ≡ take e.now.place self.old.leaves ++ coming e.now
            ++ drop (e.now.place + e.now.gone) self.old.leaves }
        ensures all { AreLeaves self.new.leaves self.new.end }
        ensures end { self.new.end ≡ self.old.end }
        ensures spare { self.old.spare + e.now.gone ≤ self.new.spare + length (coming e.now) }
    {
        match e.second {
            None => self.replace(e.place, e.gone, &[e.first]),
            Some(second) => self.replace(e.place, e.gone, &[e.first, second]),
        }
    }
}
