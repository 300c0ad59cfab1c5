//! The values of neighbouring sectors, kept as runs.
ghost use Rattle.std.specs.Prelude.{◌≡◌, ◌+◌, ◌<◌, ◌≤◌, ◌^◌, ◌++◌, ◌∷◌, [], List, ℕ, length, All, OnOk, OnErr, true, false, slice_get, take, drop, ◌*◌, ◌/◌, ◌↔◌, IfOk, IsTrue};
ghost use Rattle.bc_model.specs.Sector.{sectors, values_of};
ghost use Rattle.bc_model.specs.Values.{all_values, runs_of, values_in, AreJoined, IsRun, patterns};

use crate::kinds::Kind;
use crate::run::{Run, Runs};
use crate::sector::{Sector, kind};
use std::alloc::{AllocError, Global};
use std::marker::Model;

/// The values of neighbouring sectors, below 2^32 of them. Patterns and zeros are kept as runs: those of
/// one stamp that goes on at the next sector, and those of zeros.
#[derive(Drop)]
pub struct Values {
    runs: Runs,
    count: u32,
}

impl Model for Values {
    ghost use Rattle.std.specs.Prelude.{◌≡◌, ◌<◌, ◌^◌, List, ℕ, length, All};
    ghost use Rattle.bc_model.specs.Values.{all_values, runs_of, AreJoined, IsRun};

    ghost Value = { List (List ℕ) };

    ghost view = { λ v. all_values (runs_of v.runs) };

    ghost invariant = { λ v. (length (all_values (runs_of v.runs)) ≡ v.count) × (length (all_values (runs_of v.runs)) < 2 ^ 32) × All IsRun (runs_of v.runs) × AreJoined v.runs };
}

// Puts a sector's value behind the first `place` sectors.
fn put_sector(into: &mut [u8], place: usize, value: &Sector)
    requires { 512 * place + 512 ≤ length into.old }
    ensures { sectors (place + 1) into.new ≡ sectors place into.old ++ value.now ∷ [] }
{
    into[512 * place..512 * place + 512].copy_from_slice(value);
}

impl Values {
    /// No values.
    pub fn new(alloc: Global) -> Values
        ensures { result ≡ [] }
    {
        Values {
            runs: Runs::new(alloc),
            count: 0,
        }
    }

    /// The number of sectors.
    pub fn len(&self) -> u32
        ensures { result ≡ length self.now }
    {
        self.count
    }

    /// Whether there are none.
    pub fn is_empty(&self) -> bool
        ensures { IsTrue result ↔ (self.now ≡ []) }
    {
        self.count == 0
    }

    /// The same values.
    pub fn copy(&self) -> Result<Values, AllocError>
        ensures { IfOk result (λ copy. copy ≡ self.now) }
    {
        let runs = self.runs.copy()?;
        Ok(Values {
            runs,
            count: self.count,
        })
    }

    /// The values of the `count` sectors that begin `from` sectors behind the first, whose number is
    /// `first`.
    pub fn part(&self, first: u64, from: u32, count: u32) -> Result<Values, AllocError>
        requires inside { from + count ≤ length self.now }
        requires range { first + from + count ≤ 2 ^ 64 }
        ensures { IfOk result (λ part. part ≡ take count (drop from self.now)) }
    {
        if count == self.count {
            return self.copy();
        }
        let mut part = Values::new(self.runs.allocator());
        for i in 0..count {
            let value = self.get(from + i);
            part.push(first + u64::from(from + i), &value)?;
        }
        Ok(part)
    }

    /// The runs. Their values, one behind the other, are these; so to go over all of them takes one
    /// step for each run.
    pub fn runs(&self) -> &Runs
        ensures values { all_values (runs_of result.now) ≡ self.now }
        ensures runs { All IsRun (runs_of result.now) }
        ensures few { length self.now < 2 ^ 32 }
        ensures joined { AreJoined result.now }
    {
        &self.runs
    }

    /// The value of the sector that is `i` sectors behind the first. Goes over the runs up to it.
    pub fn get(&self, i: u32) -> Sector
        requires { i < length self.now }
        ensures { slice_get self.now i ≡ Some result }
    {
        self.runs.get(i)
    }

    // Adds a run.
    fn push_run(&mut self, run: Run, count: u32) -> Result<(), AllocError>
        requires run { IsRun run }
        requires count { length (values_in run) ≡ count }
        requires room { length self.old + count < 2 ^ 32 }
        ensures ok { OnOk result (self.new ≡ self.old ++ values_in run) }
        ensures err { OnErr result (self.new ≡ self.old) }
    {
        self.runs.push(run)?;
        self.count += count;
        Ok(())
    }

    /// Adds the patterns of one stamp for the sectors from `first` on.
    pub fn push_pattern(&mut self, stamp: u64, first: u64, count: u32) -> Result<(), AllocError>
        requires stamp { 1 ≤ stamp }
        requires range { first + count ≤ 2 ^ 64 }
        requires room { length self.old + count < 2 ^ 32 }
        ensures ok { OnOk result (self.new ≡ self.old ++ patterns stamp first count) }
        ensures err { OnErr result (self.new ≡ self.old) }
    {
        self.push_run(
            Run::Pattern {
                stamp,
                first,
                count,
            },
            count,
        )
    }

    /// Adds the value of this sector.
    pub fn push(&mut self, sector: u64, value: &Sector) -> Result<(), AllocError>
        requires { length self.old + 1 < 2 ^ 32 }
        ensures ok { OnOk result (self.new ≡ self.old ++ value.now ∷ []) }
        ensures err { OnErr result (self.new ≡ self.old) }
    {
        match kind(sector, value) {
            Kind::Pattern(stamp) => self.push_pattern(stamp, sector, 1),
            Kind::Zero => self.push_run(Run::Zero { count: 1 }, 1),
            Kind::Raw => {
                let bytes = Vec::from_slice(*self.runs.rest.allocator(), value)?;
                self.push_run(Run::Raw { bytes }, 1)
            }
        }
    }

    /// The values of bytes that are whole sectors, the first of them with the number `first`.
    pub fn from_bytes(alloc: Global, first: u64, bytes: &[u8]) -> Result<Values, AllocError>
        requires few { length bytes.now / 512 < 2 ^ 32 }
        requires range { first + length bytes.now / 512 ≤ 2 ^ 64 }
        ensures { IfOk result (λ values. values ≡ values_of bytes.now) }
    {
        let mut values = Values::new(alloc);
        let (sectors, _) = bytes.as_chunks::<512>();
        for (place, value) in sectors.iter().enumerate() {
            values.push(first + place as u64, value)?;
        }
        Ok(values)
    }

    /// The values of bytes that are whole sectors, kept as they are. Takes no memory.
    pub fn from_raw(bytes: Vec<u8>) -> Values
        requires whole { length bytes.items ≡ 512 * (length bytes.items / 512) }
        requires few { length bytes.items / 512 < 2 ^ 32 }
        ensures { result ≡ values_of bytes.items }
    {
        let count = (bytes.as_slice().len() / 512) as u32;
        let alloc = *bytes.allocator();
        let last = Some(Run::Raw { bytes });
        let runs = Runs {
            rest: Vec::new(alloc),
            last,
        };
        Values { runs, count }
    }

    /// The values of whole sectors, of which the first has the number `first`: as runs, or as they
    /// are where there is no memory for that.
    pub fn from_sectors(first: u64, bytes: Vec<u8>) -> Values
        requires whole { length bytes.items ≡ 512 * (length bytes.items / 512) }
        requires few { length bytes.items / 512 < 2 ^ 32 }
        requires range { first + length bytes.items / 512 ≤ 2 ^ 64 }
        ensures { result ≡ values_of bytes.items }
    {
        let alloc = *bytes.allocator();
        match Values::from_bytes(alloc, first, &bytes) {
            Ok(values) => values,
            Err(_) => Values::from_raw(bytes),
        }
    }

    /// Puts the values into `into`, one behind the other.
    pub fn put_into(&self, into: &mut [u8])
        requires { length into.old ≡ 512 * length self.now }
        ensures { values_of into.new ≡ self.now }
    {
        for i in 0..self.len() {
            let value = self.get(i);
            put_sector(into, i as usize, &value);
        }
    }
}

#[cfg(test)]
mod tests {
    use super::*;
    use crate::sector::pattern;
    use std::test::Fail;

    // The first two words of the pattern of stamp 7 for sector 3, each the lowest byte first.
    const FRONT: [u8; 16] = [7, 0, 0, 0, 0, 0, 0, 0, 3, 0, 0, 0, 0, 0, 0, 0];

    #[test]
    fn kinds_of_sectors(rt: HostRuntime) -> Result<(), Fail> {
        let value = pattern(7, 3);
        assert!(rt; value[..16] == FRONT[..]);
        assert!(rt; value[496..] == FRONT[..]);
        assert_eq!(rt; kind(3, &value), Kind::Pattern(7));
        assert_eq!(rt; kind(4, &value), Kind::Raw);
        assert_eq!(rt; kind(3, &[0; 512]), Kind::Zero);
        Ok(())
    }

    #[test]
    fn values_stay_as_they_were(rt: HostRuntime) -> Result<(), Fail> {
        let mut values = Values::new(rt.alloc());
        assert!(rt; values.is_empty());
        values.push_pattern(7, 3, 2)?;
        values.push(5, &pattern(7, 5))?;
        values.push(6, &[0; 512])?;
        values.push(7, &[9; 512])?;
        assert_eq!(rt; values.len(), 5);
        let copy = values.copy()?;
        assert!(rt; copy.len() == 5);
        assert!(rt; copy.get(2) == pattern(7, 5));
        assert!(rt; copy.get(4) == [9; 512]);
        Ok(())
    }
}
