//! Sectors of a device by its bytes. What lies behind the bytes reads as no bytes.
ghost use Rattle.std.specs.Prelude.{◌≡◌, ◌++◌, slice_index, IfOk};
ghost use Rattle.bc_disk.specs.Bytes.{image_of};
ghost use Rattle.bc_record.specs.Sectors.{sector_bytes, bytes_in};

use std::alloc::{AllocError, Global};

/// What the image of these bytes has in a sector: fewer than 512 bytes at their end, and none
/// behind it. The number is a `u128`, since a sum of two sectors may be above 2^64.
pub fn sector_of(bytes: &[u8], sector: u128) -> &[u8]
    ensures { result.now ≡ image_of bytes.now sector }
{
    if sector > bytes.len() as u128 / 512 {
        return &[];
    }
    let start = 512 * sector as usize;
    let len = (bytes.len() - start).min(512);
    &bytes[start..start + len]
}

// Byte i of a value, zero behind its end.
fn byte_of(value: &[u8], i: usize) -> u8
    ensures { result ≡ slice_index value.now i }
{
    value.get(i).copied().unwrap_or(0)
}

// Adds the 512 bytes of a value, with zeros for those that it lacks.
fn add_padded(value: &[u8], all: &mut Vec<u8>) -> Result<(), AllocError>
    ensures { IfOk result (λ _. all.new.items ≡ all.old.items ++ sector_bytes value.now) }
{
    for i in 0..512 {
        all.push(byte_of(value, i))?;
    }
    Ok(())
}

/// The bytes of so many sectors from a place on.
pub fn bytes_in(alloc: Global, bytes: &[u8], place: u64, n: u64) -> Result<Vec<u8>, AllocError>
    ensures { IfOk result (λ v. v.items ≡ bytes_in (image_of bytes.now) place n) }
{
    let mut all = Vec::new(alloc);
    for i in 0..n {
        let sector = sector_of(bytes, u128::from(place) + u128::from(i));
        add_padded(sector, &mut all)?;
    }
    Ok(all)
}
