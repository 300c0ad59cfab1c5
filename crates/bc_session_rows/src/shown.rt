//! What a pair shows.
ghost use Rattle.bc_plain_pair.specs.PairBytes.{AreSectors};

use bc_disk::mem_disk::MemDisk;
use bc_plain_pair::reading::view_of;
use bc_plain_pair::shown::value_of;
use std::alloc::{AllocError, Global};

// The same, of what the devices hold.
fn shown_in(alloc: Global, cache: &[u8], backing: &[u8], count: u64) -> Result<Vec<u8>, AllocError>
    requires cache { AreSectors cache.now }
    requires backing { AreSectors backing.now }
{
    let mut shown = Vec::new(alloc);
    let Some(view) = view_of(alloc, cache, backing)? else {
        return Ok(shown);
    };
    let keys = view.reading().keys(alloc)?;
    for sector in 0..count {
        shown.extend_from_slice(value_of(&view, &keys, cache, backing, sector))?;
    }
    Ok(shown)
}

/// What the pair shows at so many sectors of its data, one behind the other; no bytes where it
/// can't be read.
pub(crate) fn shown_by(
    alloc: Global,
    cache: &MemDisk,
    backing: &MemDisk,
    count: u64,
) -> Result<Vec<u8>, AllocError> {
    shown_in(alloc, cache.bytes(), backing.bytes(), count)
}
