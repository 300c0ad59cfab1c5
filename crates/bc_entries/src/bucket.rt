//! The entries in the bytes of one bucket.
ghost use Rattle.std.specs.Prelude.{◌≡◌, ◌≢◌, ◌^◌, ◌+◌, ◌*◌, ◌<◌, ◌≤◌, ℕ, length, IfOk, MatchOption};
ghost use Rattle.bc_disk.specs.Bytes.{image_of};
ghost use Rattle.bc_record.specs.Sectors.{in_blocks};
ghost use Rattle.bc_record.specs.Kind.{IsFound, NoneFound};
ghost use Rattle.bc_jset.specs.Records.{entry_kind, entry_sectors};
ghost use Rattle.bc_jset.specs.declared.error.JsetError.{JsetError};
ghost use Rattle.bc_entries.specs.Reading.{AddsEntries};

use bc_disk::geometry::Geometry;
use bc_jset::{JEntry, JsetError, read_entry};
use bc_record::Placed;
use std::alloc::{AllocError, Global};

/// How many sectors so many bytes take, in whole blocks.
pub fn in_blocks(block: u16, bytes: usize) -> usize
    requires block { 0 < block }
    requires bytes { bytes ≤ 2 ^ 60 }
    ensures { result ≡ in_blocks block bytes }
{
    let block = block as usize;
    block * ((bytes + (512 * block - 1)) / (512 * block))
}

/// Nothing where bytes were refused as no entry; want of memory stays an error.
fn refused(error: JsetError) -> Result<(), AllocError>
    ensures { IfOk result (λ _. error ≢ JsetError.Memory) }
{
    match error {
        JsetError::Memory => Err(AllocError),
        _ => Ok(()),
    }
}

/// The entry at a place in the bytes of a bucket, in sectors, and how many sectors it takes.
fn entry_at(
    alloc: Global,
    g: &Geometry,
    bytes: &[u8],
    place: usize,
) -> Result<Option<(JEntry, usize)>, AllocError>
    requires whole { length bytes.now ≡ 512 * g.now.bucket }
    requires within { place ≤ g.now.bucket }
    ensures { IfOk result (λ o. MatchOption o
        (NoneFound (entry_kind g.now) (image_of bytes.now) g.now.bucket place)
        (λ r. IsFound (entry_kind g.now) (image_of bytes.now) g.now.bucket place r.0
        × (r.1 ≡ entry_sectors g.now r.0))) }
{
    match read_entry(alloc, &bytes[512 * place..], g.set_magic) {
        Ok((entry, length)) => {
            let sectors = in_blocks(g.block, length);
            Ok(Some((entry, sectors)))
        }
        Err(error) => {
            refused(error)?;
            Ok(None)
        }
    }
}

/// Adds the entries in the bytes of the bucket that begins at a sector.
pub fn add_entries(
    alloc: Global,
    g: &Geometry,
    bytes: &[u8],
    start: u64,
    all: &mut Vec<Placed<JEntry>>,
) -> Result<(), AllocError>
    requires whole { length bytes.now ≡ 512 * g.now.bucket }
    requires start { start ≤ 2 ^ 60 }
    ensures { IfOk result (λ _. AddsEntries g.now bytes.now start all.old.items all.new.items) }
{
    let mut place = 0;
    while let Some((item, sectors)) = entry_at(alloc, g, bytes, place)? {
        all.push(Placed {
            place: start + place as u64,
            item,
        })?;
        place += sectors;
    }
    Ok(())
}
