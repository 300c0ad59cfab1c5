//! Single sectors of images and of runs of values. A sector has a `u128` for its number, since a
//! range that an entry names may end past 2^64.
ghost use Rattle.std.specs.Prelude.{◌≡◌, ◌+◌, ◌*◌, ◌≤◌, length};
ghost use Rattle.bc_model.specs.Sector.{at_run};
ghost use Rattle.bc_disk.specs.Bytes.{image_of};

use bc_model::sector::Sector;
use bc_model::values::Values;

// What the image of these bytes has in this sector: less than 512 bytes at their end, and none past
// it.
pub(crate) fn sector_of(bytes: &[u8], sector: u128) -> &[u8]
    ensures { result.now ≡ image_of bytes.now sector }
{
    if sector > bytes.len() as u128 / 512 {
        return &[];
    }
    let start = 512 * sector as usize;
    let len = (bytes.len() - start).min(512);
    &bytes[start..start + len]
}

// The value of a sector that lies whole within the bytes.
pub(crate) fn value_of(bytes: &[u8], sector: u64) -> Sector
    requires { 512 * sector + 512 ≤ length bytes.now }
    ensures { result ≡ image_of bytes.now sector }
{
    let mut value = [0; 512];
    value.copy_from_slice(sector_of(bytes, u128::from(sector)));
    value
}

// What the values from sector `first` on give to this sector.
pub(crate) fn value_at(first: u64, values: &Values, sector: u128) -> Option<Sector>
    ensures { result ≡ at_run first values.now sector }
{
    let first = u128::from(first);
    if sector < first || sector - first >= u128::from(values.len()) {
        return None;
    }
    Some(values.get((sector - first) as u32))
}
