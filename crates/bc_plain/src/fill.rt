//! Which sectors are still to be placed, by asking each open bucket.
ghost use Rattle.std.specs.Prelude.{◌↔◌, ◌+◌, ◌*◌, ◌<◌, ◌≤◌, IsTrue};
ghost use Rattle.bc_fill.specs.Fresh.{IsFreeIn};

use bc_fill::Open;

// Whether the sector is a free one of this bucket of `size` sectors.
fn is_free_of(size: u16, bucket: &Open, sector: u64) -> bool
    ensures { IsTrue result ↔ (bucket.now.bucket * size + bucket.now.next ≤ sector)
        × (sector < bucket.now.bucket * size + size) }
{
    let start = u64::from(bucket.bucket) * u64::from(size);
    start + u64::from(bucket.next) <= sector && sector < start + u64::from(size)
}

/// Whether the sector lies in one of these buckets of `size` sectors, at the next free one or behind
/// it.
pub fn is_free_in(size: u16, buckets: &[Open], sector: u64) -> bool
    ensures { IsTrue result ↔ IsFreeIn size buckets.now sector }
{
    let mut free = false;
    for one in buckets {
        free |= is_free_of(size, one, sector);
    }
    free
}
