//! How often buckets had been used anew as data in them was looked up.
ghost use Rattle.std.specs.Prelude.{◌≡◌, ◌+◌, ◌/◌, ◌<◌, ◌^◌, ℕ, Bool, Contains, List, All, MatchBool, OnOk, IfOk, length};
ghost use Rattle.bc_reads.specs.declared.source.ReadFrom.{ReadFrom};
ghost use Rattle.bc_reader.specs.Noted.{AreInBuckets, AreNoted, AreNotedFor, IsUnchanged, LieInBuckets, noted_of};
ghost use Rattle.bc_reader.specs.declared.noted.Noted.{Noted};

use bc_bucket::Buckets;
use bc_reads::runs::ReadRun;
use bc_reads::source::ReadFrom;
use std::alloc::{AllocError, Global};

/// How often a bucket had been used anew.
#[derive(Clone, Copy, Debug, PartialEq, Eq)]
pub struct Noted {
    pub bucket: u32,
    pub uses: u64,
}

// Notes the bucket that has a sector of the cache device, unless that was noted last.
fn note_place(noted: &mut Vec<Noted>, buckets: &Buckets, at: u64) -> Result<(), AllocError>
    requires known { at / buckets.now.size < length buckets.now.records }
    ensures kept { (n : Noted) → Contains noted.old.items n → Contains noted.new.items n }
    ensures ok { OnOk result
        (Contains noted.new.items (noted_of buckets.now (at / buckets.now.size))) }
{
    let bucket = (at / u64::from(buckets.bucket_sectors())) as u32;
    let uses = buckets.get(bucket).uses;
    let seen = Noted { bucket, uses };
    if noted.last() == Some(&seen) {
        return Ok(());
    }
    noted.push(seen)?;
    Ok(())
}

// Notes the buckets that have so many sectors of the cache device.
fn note_places(
    noted: &mut Vec<Noted>,
    buckets: &Buckets,
    at: u64,
    count: u32,
) -> Result<(), AllocError>
    requires known { AreInBuckets buckets.now at count }
    ensures kept { (n : Noted) → Contains noted.old.items n → Contains noted.new.items n }
    ensures ok { OnOk result (AreNotedFor noted.new.items buckets.now at count) }
{
    let _size = buckets.bucket_sectors();
    for k in 0..count {
        note_place(noted, buckets, at + u64::from(k))?;
    }
    Ok(())
}

// Notes the buckets from which a run is read.
fn note_run(noted: &mut Vec<Noted>, run: &ReadRun, buckets: &Buckets) -> Result<(), AllocError>
    requires known { (at : ℕ) (dirty : Bool) → run.now.from ≡ ReadFrom.Cache at dirty
        → AreInBuckets buckets.now at run.now.count }
    ensures kept { (n : Noted) → Contains noted.old.items n → Contains noted.new.items n }
    ensures ok { OnOk result ((at : ℕ) (dirty : Bool) → run.now.from ≡ ReadFrom.Cache at dirty
        → AreNotedFor noted.new.items buckets.now at run.now.count) }
{
    match run.from {
        ReadFrom::Backing => Ok(()),
        ReadFrom::Cache { at, dirty: _ } => note_places(noted, buckets, at, run.count),
    }
}

/// Notes the buckets from which these runs are read.
pub fn note_uses(
    alloc: Global,
    runs: &[ReadRun],
    buckets: &Buckets,
) -> Result<Vec<Noted>, AllocError>
    requires { LieInBuckets runs.now buckets.now }
    ensures { IfOk result (λ noted. AreNoted runs.now buckets.now noted.items) }
{
    let mut noted = Vec::new(alloc);
    for run in runs {
        note_run(&mut noted, run, buckets)?;
    }
    Ok(noted)
}

// Whether a bucket was used anew no more often than was noted.
fn is_unchanged(noted: &Noted, buckets: &Buckets) -> bool
    ensures { MatchBool result (IsUnchanged buckets.now noted.now)
        (¬ (IsUnchanged buckets.now noted.now)) }
{
    if buckets.records().len() as u64 <= u64::from(noted.bucket) {
        return false;
    }
    buckets.get(noted.bucket).uses == noted.uses
}

/// Whether none of these buckets was used anew since.
pub fn are_unchanged(noted: &[Noted], buckets: &Buckets) -> bool
    ensures { MatchBool result (All (IsUnchanged buckets.now) noted.now)
        (¬ (All (IsUnchanged buckets.now) noted.now)) }
{
    for seen in noted {
        if !is_unchanged(seen, buckets) {
            return false;
        }
    }
    true
}
