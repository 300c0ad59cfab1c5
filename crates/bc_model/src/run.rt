//! Runs of neighbouring sectors of one kind.
ghost use Rattle.std.specs.Prelude.{◌≡◌, ◌+◌, ◌<◌, ◌≤◌, ◌^◌, ◌++◌, length, slice_get, Some, true, false, All, OnOk, OnErr, IfOk, IfErr, IfSome, IsSome, ◌↔◌, []};
ghost use Rattle.bc_model.specs.declared.run.Run.{Run};
ghost use Rattle.bc_model.specs.Values.{values_in, all_values, AreJoined, AreOne, IsRun, runs_of};
ghost use Rattle.bc_model.specs.Pattern.{zeros};

use crate::sector::{Sector, pattern, sector_at};
use std::alloc::{AllocError, Global};

/// Neighbouring sectors of one kind.
#[derive(Drop)]
pub enum Run {
    /// Patterns of one stamp, for the sectors from `first` on.
    Pattern { stamp: u64, first: u64, count: u32 },
    /// Sectors of zeros.
    Zero { count: u32 },
    /// Sectors with any values.
    Raw { bytes: Vec<u8> },
}

impl Run {
    /// The number of sectors.
    pub fn len(&self) -> u32
        requires { IsRun self.now }
        ensures { result ≡ length (values_in self.now) }
    {
        match self {
            Run::Pattern { count, .. } => *count,
            Run::Zero { count } => *count,
            Run::Raw { bytes } => (bytes.as_slice().len() / 512) as u32,
        }
    }

    /// The value of the sector that is `i` sectors behind the first.
    pub fn get(&self, i: u32) -> Sector
        requires run { IsRun self.now }
        requires inside { i < length (values_in self.now) }
        ensures { slice_get (values_in self.now) i ≡ Some result }
    {
        match self {
            Run::Pattern { stamp, first, .. } => pattern(*stamp, *first + i as u64),
            Run::Zero { .. } => [0; 512],
            Run::Raw { bytes } => sector_at(bytes, i as usize),
        }
    }

    /// The same run.
    pub fn copy(&self, alloc: Global) -> Result<Run, AllocError>
        requires { IsRun self.now }
        ensures { IfOk result (λ copy. (values_in copy ≡ values_in self.now) × IsRun copy) }
    {
        match self {
            Run::Pattern {
                stamp,
                first,
                count,
            } => {
                Ok(Run::Pattern {
                    stamp: *stamp,
                    first: *first,
                    count: *count,
                })
            }
            Run::Zero { count } => Ok(Run::Zero { count: *count }),
            Run::Raw { bytes } => Ok(Run::Raw {
                bytes: Vec::from_slice(alloc, bytes)?,
            }),
        }
    }

    /// The run that stands for this one and the next, where one run can.
    pub fn joined(&self, next: &Run) -> Option<Run>
        requires this { IsRun self.now }
        requires that { IsRun next.now }
        requires room { length (values_in self.now) + length (values_in next.now) < 2 ^ 32 }
        ensures both { IfSome result
            (λ both. (values_in both ≡ values_in self.now ++ values_in next.now) × IsRun both) }
        ensures one { IsSome result ↔ AreOne self.now next.now }
        ensures begins { IfSome result
            (λ both. (before : Run) → AreOne before both → AreOne before self.now) }
    {
        match (self, next) {
            (
                Run::Pattern {
                    stamp,
                    first,
                    count,
                },
                Run::Pattern {
                    stamp: other,
                    first: behind,
                    count: more,
                },
            ) => {
                if *stamp == *other && *first <= *behind && *behind - *first == *count as u64 {
                    Some(Run::Pattern {
                        stamp: *stamp,
                        first: *first,
                        count: *count + *more,
                    })
                } else {
                    None
                }
            }
            (Run::Zero { count }, Run::Zero { count: more }) => Some(Run::Zero {
                count: *count + *more,
            }),
            _ => None,
        }
    }
}

/// Runs one behind the other. A single one takes no memory of its own, and a run that goes on in the
/// next one is one with it.
#[derive(Drop)]
pub struct Runs {
    pub rest: Vec<Run>,
    pub last: Option<Run>,
}

// The value of the sector that is `i` sectors behind the first, or how far it is behind these runs.
fn find(runs: &[Run], i: u32) -> Result<Sector, u32>
    requires { All IsRun runs.now }
    ensures found { IfOk result (λ value. slice_get (all_values runs.now) i ≡ Some value) }
    ensures behind { IfErr result (λ left. left + length (all_values runs.now) ≡ i) }
{
    let mut left = i;
    for run in runs {
        let count = run.len();
        if left < count {
            return Ok(run.get(left));
        }
        left -= count;
    }
    Err(left)
}

impl Runs {
    ghost use Rattle.bc_model.specs.Values.{runs_of};

    /// No runs.
    pub fn new(alloc: Global) -> Runs
        ensures none { runs_of result ≡ [] }
        ensures joined { AreJoined result }
    {
        Runs {
            rest: Vec::new(alloc),
            last: None,
        }
    }

    /// Puts a run behind the last one, as a part of it where that can be.
    pub fn push(&mut self, run: Run) -> Result<(), AllocError>
        requires runs { All IsRun (runs_of self.old) }
        requires run { IsRun run }
        requires room { length (all_values (runs_of self.old)) + length (values_in run) < 2 ^ 32 }
        ensures ok { OnOk result (all_values (runs_of self.new) ≡ all_values (runs_of self.old) ++ values_in run) }
        ensures err { OnErr result (runs_of self.new ≡ runs_of self.old) }
        ensures runs { All IsRun (runs_of self.new) }
        ensures joined { AreJoined self.old → AreJoined self.new }
    {
        let Some(last) = self.last.take() else {
            self.last = Some(run);
            return Ok(());
        };
        if let Some(both) = last.joined(&run) {
            self.last = Some(both);
            return Ok(());
        }
        if let Err(refused) = self.rest.push(last) {
            self.last = Some(refused.value);
            return Err(AllocError);
        }
        self.last = Some(run);
        Ok(())
    }

    /// Where the runs take their memory.
    pub fn allocator(&self) -> Global {
        *self.rest.allocator()
    }

    /// The same values.
    pub fn copy(&self) -> Result<Runs, AllocError>
        requires runs { All IsRun (runs_of self.now) }
        requires room { length (all_values (runs_of self.now)) < 2 ^ 32 }
        ensures { IfOk result (λ copy. (all_values (runs_of copy) ≡ all_values (runs_of self.now))
            × All IsRun (runs_of copy) × AreJoined copy) }
    {
        let alloc = *self.rest.allocator();
        let mut copy = Runs::new(alloc);
        for run in &self.rest {
            copy.push(run.copy(alloc)?)?;
        }
        if let Some(last) = &self.last {
            copy.push(last.copy(alloc)?)?;
        }
        Ok(copy)
    }

    /// The value of the sector that is `i` sectors behind the first.
    pub fn get(&self, i: u32) -> Sector
        requires runs { All IsRun (runs_of self.now) }
        requires inside { i < length (all_values (runs_of self.now)) }
        ensures { slice_get (all_values (runs_of self.now)) i ≡ Some result }
    {
        match find(&self.rest, i) {
            Ok(value) => value,
            Err(left) => {
                let Some(last) = &self.last else {
                    unreachable!()
                };
                last.get(left)
            }
        }
    }
}
