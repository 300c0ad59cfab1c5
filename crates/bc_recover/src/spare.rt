//! The buckets that nothing uses.
ghost use Rattle.std.specs.Prelude.{◌≡◌, ◌↔◌, IfOk, IsTrue};
ghost use Rattle.bc_image.specs.Pair.{Pair};
ghost use Rattle.bc_recover.specs.Read.{IsReadOf};
ghost use Rattle.bc_recover.specs.Spare.{AreFilled, AreThose, HasReserves, IsUnused};

use bc_alloc::Reserves;
use bc_disk::geometry::Geometry;
use bc_replay::{Survey, Use};
use std::alloc::{AllocError, Global};

/// Whether the table says that nothing uses the bucket.
fn is_unused(uses: &[Use], bucket: u32) -> bool
    ensures { IsTrue result ↔ IsUnused uses.now bucket }
{
    match uses.get(bucket as usize) {
        Some(Use::None) => true,
        _ => false,
    }
}

/// The buckets of which the table says that nothing uses them, in order.
fn unused(alloc: Global, g: &Geometry, uses: &[Use]) -> Result<Vec<u32>, AllocError>
    ensures { IfOk result (λ ks. AreThose (IsUnused uses.now) g.now.nbuckets ks.items) }
{
    let mut spare = Vec::new(alloc);
    for bucket in 0..g.nbuckets {
        if is_unused(uses, bucket) {
            spare.push(bucket)?;
        }
    }
    Ok(spare)
}

/// The lists, filled with the buckets of which the table says that nothing uses them.
fn filled(alloc: Global, g: &Geometry, uses: &[Use]) -> Result<Reserves, AllocError>
    ensures { IfOk result (AreFilled (IsUnused uses.now) g.now) }
{
    let spare = unused(alloc, g, uses)?;
    Reserves::new(alloc, g, &spare)
}

/// The lists of buckets that are ready to be taken, as a pair that was read has them: the buckets that
/// nothing uses, the lower ones first, go to the list for priorities, then to those for moving, for the
/// tree and for data, as far as each has room. Such a bucket needs no raise, since no key that counts
/// points into it. The time is linear in the number of buckets. They are of all buckets of the
/// survey's geometry, whatever the devices tell.
pub fn reserves_of(alloc: Global, s: &Survey) -> Result<Reserves, AllocError>
    ensures spare { IfOk result (λ r. (p : Pair) → (h : IsReadOf s.now p)
        → HasReserves h.view.geometry h.view.reading r) }
    ensures count { IfOk result (λ r. r.count ≡ s.now.supers.geometry.nbuckets) }
{
    filled(alloc, &s.supers.geometry, &s.uses)
}
