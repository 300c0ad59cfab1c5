//! Writes a chain of sets.
ghost use Rattle.std.specs.Prelude.{◌≡◌, ◌≢◌, ℕ, ◌+◌, ◌*◌, ◌<◌, ◌≤◌, length, slice_index, All, AllPairs, OnOk};
ghost use Rattle.bc_disk.specs.Chain.{bucket_bytes, sets_in_chain};
ghost use Rattle.bc_prio.specs.Chain.{IsPlace, IsChain};
ghost use Rattle.bc_prio.specs.Writes.{WritesSets};

use crate::set::encode_set;
use bc_disk::disk::{Disk, Failed};
use bc_disk::gens::Gens;
use bc_disk::geometry::Geometry;

// The bucket of the set behind this part's, 0 behind the last one.
fn bucket_behind(into: &[u32], part: usize) -> u32
    requires { part < length into.now }
    ensures { result ≡ slice_index into.now (part + 1) }
{
    into.get(part + 1).copied().unwrap_or(0)
}

/// Writes the records of all buckets as a chain of priority sets into these buckets: as many as a
/// chain has, all different, and none of them the journal's or before them. The chain begins in the
/// first one. After `Failed` the sets of the buckets before the failed write are written. Takes no
/// memory; what the buffer holds afterwards isn't said.
pub fn write_chain<D: Disk>(
    disk: &mut D,
    g: &Geometry,
    gens: &Gens,
    into: &[u32],
    buffer: &mut [u8],
) -> Result<(), Failed>
    requires room { g.now.bucket * g.now.nbuckets ≤ (D.facts disk.old).sectors }
    requires places { All (IsPlace g.now) into.now }
    requires distinct { AllPairs (λ a b. a ≢ b) into.now }
    requires count { length into.now ≡ sets_in_chain g.now }
    requires records { length gens.now.records ≡ g.now.nbuckets }
    requires whole { length buffer.old ≡ bucket_bytes g.now }
    ensures written { WritesSets D.facts g.now gens.now.records result 0 into.now disk.old disk.new }
    ensures chain { OnOk result (IsChain g.now (D.facts disk.new) (slice_index into.now 0)
        (record { records = gens.now.records; chain = into.now })) }
{
    for (part, bucket) in into.iter().enumerate() {
        let next = bucket_behind(into, part);
        encode_set(g, gens, part as u32, next, buffer);
        disk.write(u64::from(g.bucket) * u64::from(*bucket), buffer)?;
    }
    Ok(())
}
