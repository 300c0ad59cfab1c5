//! Reads a chain of sets.
ghost use Rattle.std.specs.Prelude.{◌≡◌, ℕ, ◌+◌, ◌*◌, ◌<◌, ◌≤◌, length, IfOk, IfErr, OnOk};
ghost use Rattle.bc_disk.specs.Disk.{IsKept};
ghost use Rattle.bc_disk.specs.Chain.{bucket_bytes, sets_in_chain};
ghost use Rattle.bc_prio.specs.Chain.{IsPlace, IsChain};
ghost use Rattle.bc_prio.specs.Refusal.{IsFresh, IsMisplaced, IsCause, IsRefused, CallsUntil, HasRead};
ghost use Rattle.bc_prio.specs.Reading.{ReadsNext};

use crate::error::PrioError;
use crate::set::{get_records, next_of};
use bc_disk::chain::sets_in_chain;
use bc_disk::disk::Disk;
use bc_disk::gens::Gens;
use bc_disk::geometry::Geometry;
use std::alloc::Global;

// The bucket of this number, if a set of the chain may stand there, behind those in these buckets.
fn place_of(g: &Geometry, chain: &[u32], at: u64) -> Result<u32, PrioError>
    ensures ok { IfOk result (λ bucket. (bucket ≡ at) × IsFresh g.now chain.now at) }
    ensures refused { IfErr result (λ e. IsMisplaced g.now chain.now at e) }
{
    let first = u64::from(g.first_bucket) + u64::from(g.journal);
    if at < first || at >= u64::from(g.nbuckets) {
        return Err(PrioError::Range);
    }
    let bucket = at as u32;
    if chain.contains(&bucket) {
        return Err(PrioError::Cycle);
    }
    Ok(bucket)
}

// Reads the set of this part, which is to stand in bucket `at`, and gives the bucket that it names.
fn read_next<D: Disk>(
    disk: &mut D,
    g: &Geometry,
    part: u32,
    at: u64,
    gens: &mut Gens,
    buffer: &mut [u8],
) -> Result<u64, PrioError>
    requires room { g.now.bucket * g.now.nbuckets ≤ (D.facts disk.old).sectors }
    requires part { part < sets_in_chain g.now }
    requires chain { length gens.old.chain ≡ part }
    requires records { length gens.old.records ≡ g.now.nbuckets }
    requires whole { length buffer.old ≡ bucket_bytes g.now }
    ensures ok { IfOk result (λ next. ReadsNext g.now (D.facts disk.old) at gens.old gens.new next) }
    ensures refused { IfErr result (λ e. IsCause g.now (D.facts disk.old) gens.old.chain at e) }
    ensures kept { IsKept (D.facts disk.old) (D.facts disk.new) }
    ensures read { OnOk result (HasRead 1 (D.facts disk.old) (D.facts disk.new)) }
    ensures calls { IfErr result (λ e. CallsUntil e 0 (D.facts disk.old) (D.facts disk.new)) }
{
    let bucket = place_of(g, gens.chain(), at)?;
    disk.read(u64::from(g.bucket) * u64::from(bucket), buffer)?;
    let next = next_of(g, part, buffer)?;
    get_records(g, part, buffer, gens);
    gens.add_to_chain(bucket)?;
    Ok(next)
}

/// Reads the chain of priority sets that begins in bucket `first`.
///
/// The error is that of the first set where one holds: `Range`, where a bucket is named that is one
/// of the journal's or before them, or that the device lacks; `Cycle`, where it was read before;
/// `Fault`, where its read failed; `Magic`; `Checksum`; `Count`, where no next set is named before
/// each bucket has a record, or one is named behind them. `Memory` may come at any set. What the
/// device holds stays as it was.
pub fn read_chain<D: Disk>(
    alloc: Global,
    disk: &mut D,
    g: &Geometry,
    first: u64,
) -> Result<Gens, PrioError>
    requires { g.now.bucket * g.now.nbuckets ≤ (D.facts disk.old).sectors }
    ensures ok { IfOk result (λ gens. IsChain g.now (D.facts disk.old) first gens) }
    ensures refused { IfErr result (λ e.
        IsRefused g.now (D.facts disk.old) (D.facts disk.new) first e) }
    ensures kept { IsKept (D.facts disk.old) (D.facts disk.new) }
    ensures read { OnOk result
        (HasRead (sets_in_chain g.now) (D.facts disk.old) (D.facts disk.new)) }
{
    let mut gens = Gens::new(alloc, g)?;
    let mut buffer = vec![in alloc; 0u8; 512 * g.bucket as usize]?;
    let mut at = first;
    for part in 0..sets_in_chain(g) {
        at = read_next(disk, g, part, at, &mut gens, &mut buffer)?;
    }
    Ok(gens)
}
