//! Which device the table of uuids names first.
ghost use Rattle.std.specs.Prelude.{◌≡◌, ◌*◌, ◌/◌, ◌<◌, ◌≤◌, length, IfOk};
ghost use Rattle.std.specs.Bool.{MatchBool};
ghost use Rattle.bc_disk.specs.Bytes.{image_of};
ghost use Rattle.bc_image.specs.Pointers.{PointsIntoData};
ghost use Rattle.bc_plain_pair.specs.Names.{NamesFirst};
ghost use Rattle.bc_plain_pair.specs.PairBytes.{AreSectors};

use crate::shown::bucket_at;
use crate::supers::disk_of;
use bc_disk::geometry::Geometry;
use bc_key::Key;
use bc_uuid::{UuidEntry, UuidError, read};
use std::alloc::{AllocError, Global};

// Whether an entry is that of a device.
fn has_uuid(entry: &UuidEntry, uuid: &[u8; 16]) -> bool
    ensures { MatchBool result (entry.now.uuid ≡ uuid.now) (¬ (entry.now.uuid ≡ uuid.now)) }
{
    entry.uuid == *uuid
}

/// Whether the table of uuids that a key points to names a device first.
pub fn names_first(
    alloc: Global,
    cache: &[u8],
    g: &Geometry,
    key: &Key,
    uuid: &[u8; 16],
) -> Result<bool, AllocError>
    requires whole { AreSectors cache.now }
    requires room { g.now.bucket * g.now.nbuckets ≤ length cache.now / 512 }
    requires pointer { (0 < key.now.count) × PointsIntoData g.now key.now }
    ensures { IfOk result (λ named. MatchBool named
        (NamesFirst g.now (image_of cache.now) key.now uuid.now)
        (¬ (NamesFirst g.now (image_of cache.now) key.now uuid.now))) }
{
    let Some(ptr) = key.pointer() else {
        return Ok(false);
    };
    let bucket = bucket_at(g, ptr.offset);
    let mut disk = disk_of(alloc, cache)?;
    match read(alloc, &mut disk, g, bucket as u32) {
        Ok(table) => Ok(has_uuid(&table.entries()[0], uuid)),
        Err(UuidError::Fault | UuidError::Memory) => Err(AllocError),
    }
}
