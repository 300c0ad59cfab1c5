//! The table of uuids.
ghost use Rattle.std.specs.Prelude.{◌≡◌, ◌*◌, ◌<◌, ◌≤◌, length, IfOk, IfErr, OnOk};
ghost use Rattle.bc_disk.specs.Disk.{IsKept};
ghost use Rattle.std.specs.Bool.{MatchBool};
ghost use Rattle.bc_replay.specs.Heads.{NamesFirst};
ghost use Rattle.bc_replay.specs.Causes.{DecidesNames, FaultsWith};

use bc_disk::disk::Disk;
use bc_disk::geometry::Geometry;
use bc_key::Key;
use bc_uuid::{UuidError, Uuids, find, read};
use bc_walk::points_into_data;
use std::alloc::Global;

/// Whether the table names this device first.
fn names_first(table: &Uuids, uuid: &[u8; 16]) -> bool
    requires { 0 < length table.now }
    ensures { MatchBool result (NamesFirst table.now uuid.now) (¬ (NamesFirst table.now uuid.now)) }
{
    match find(table, uuid) {
        Some(place) => place == 0,
        None => false,
    }
}

/// Whether the table of uuids that a key points to names this device first. The table is read by
/// one call, in the bucket of the key's first pointer; where the key has no pointer, or one that
/// points elsewhere than into the data buckets, nothing is read.
pub fn names_device<D: Disk>(
    alloc: Global,
    disk: &mut D,
    g: &Geometry,
    key: &Key,
    uuid: &[u8; 16],
) -> Result<bool, UuidError>
    requires { g.now.bucket * g.now.nbuckets ≤ (D.facts disk.old).sectors }
    ensures names { IfOk result (DecidesNames (D.facts disk.old) g.now key.now uuid.now) }
    ensures kept { IsKept (D.facts disk.old) (D.facts disk.new) }
    ensures faults { IfErr result
        (λ e. FaultsWith e (D.facts disk.old).faults (D.facts disk.new).faults) }
    ensures good { OnOk result ((D.facts disk.new).faults ≡ (D.facts disk.old).faults) }
{
    if key.count == 0 || !points_into_data(g, key) {
        return Ok(false);
    }
    let bucket = key.ptrs[0].offset / u64::from(g.bucket);
    let table = read(alloc, disk, g, bucket as u32)?;
    Ok(names_first(&table, uuid))
}
