//! Neighbouring sectors that are read by one call.
ghost use Rattle.std.specs.Prelude.{◌≡◌, ◌+◌, ◌-◌, ◌<◌, ◌≤◌, ◌^◌, MatchBool, MatchOption, IfOk, IfSome, IsNone};
ghost use Rattle.bc_reads.specs.Reads.{AreLongest, AreRuns, EndsThere, IsLost, IsRun, HasLost, moved};

use crate::source::{ReadFrom, read_from};
use bc_bucket::Buckets;
use bc_node::Leaf;
use std::alloc::{AllocError, Global};

/// Neighbouring sectors that are read from neighbouring ones of one device, and are dirty all or none.
#[derive(Clone, Copy, Debug, PartialEq, Eq)]
pub struct ReadRun {
    /// The first of the sectors.
    pub first: u64,
    /// How many they are.
    pub count: u32,
    /// From where the first one is read, and the others behind it.
    pub from: ReadFrom,
}

// Whether what is so many sectors behind is read from as many sectors behind.
fn goes_on(from: ReadFrom, count: u32, next: ReadFrom) -> bool
    ensures { MatchBool result (next ≡ moved from count) (¬ (next ≡ moved from count)) }
{
    match (from, next) {
        (ReadFrom::Backing, ReadFrom::Backing) => true,
        (ReadFrom::Cache { at, dirty }, ReadFrom::Cache { at: to, dirty: too }) => {
            dirty == too && at <= to && to - at == u64::from(count)
        }
        _ => false,
    }
}

// The longest run from a sector on that isn't longer than so many, if that sector isn't lost: where
// it is shorter, the sector behind it isn't read from where it would go on.
fn next_run(leaf: &Leaf, buckets: &Buckets, first: u64, count: u32) -> Option<ReadRun>
    requires some { 0 < count }
    requires few { first + count < 2 ^ 64 }
    ensures run { MatchOption result (IsLost leaf.now buckets.now first)
        (λ run. (run.first ≡ first) × (0 < run.count) × (run.count ≤ count)
        × IsRun leaf.now buckets.now run) }
    ensures longest { IfSome result
        (λ run. run.count < count → EndsThere leaf.now buckets.now run) }
{
    let from = read_from(leaf, buckets, first)?;
    for done in 1..count {
        match read_from(leaf, buckets, first + u64::from(done)) {
            Some(next) if goes_on(from, done, next) => {}
            _ => {
                let count = done;
                return Some(ReadRun { first, count, from });
            }
        }
    }
    Some(ReadRun { first, count, from })
}

/// The runs in which so many sectors from `first` on are read, in order, each as long as it can be:
/// none goes on in the one behind it, so that no two of them could be one. None where one of the
/// sectors is lost. Takes no more memory than the runs do.
pub fn runs_of(
    alloc: Global,
    leaf: &Leaf,
    buckets: &Buckets,
    first: u64,
    count: u32,
) -> Result<Option<Vec<ReadRun>>, AllocError>
    requires { first + count < 2 ^ 64 }
    ensures runs { IfOk result (λ o. MatchOption o
        (HasLost leaf.now buckets.now first (first + count))
        (λ runs. AreRuns leaf.now buckets.now first (first + count) runs.items)) }
    ensures longest { IfOk result (λ o. IfSome o (λ runs. AreLongest runs.items)) }
{
    let mut runs = Vec::new(alloc);
    let mut done = 0;
    while done < count {
        let from = first + u64::from(done);
        let Some(run) = next_run(leaf, buckets, from, count - done) else {
            return Ok(None);
        };
        done += run.count;
        runs.push(run)?;
    }
    Ok(Some(runs))
}
