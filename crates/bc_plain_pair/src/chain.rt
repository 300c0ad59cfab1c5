//! The generations that a chain says.
ghost use Rattle.std.specs.Prelude.{◌≡◌, ◌≢◌, ◌*◌, ◌/◌, ◌≤◌, ℕ, length, IfOk};
ghost use Rattle.bc_disk.specs.Bytes.{image_of};
ghost use Rattle.bc_prio.specs.declared.error.PrioError.{PrioError};
ghost use Rattle.bc_prio.specs.Records.{ChainIn};
ghost use Rattle.bc_plain_pair.specs.PairBytes.{AreSectors, Finds};

use crate::supers::disk_of;
use bc_disk::gens::Gens;
use bc_disk::geometry::Geometry;
use bc_prio::{PrioError, read_chain};
use std::alloc::{AllocError, Global};

// Nothing where a chain was refused; a fault and want of memory stay errors.
fn refused(error: PrioError) -> Result<(), AllocError>
    ensures { IfOk result (λ _. (error ≢ PrioError.Fault) × (error ≢ PrioError.Memory)) }
{
    match error {
        PrioError::Fault | PrioError::Memory => Err(AllocError),
        _ => Ok(()),
    }
}

/// The chain that begins in a bucket; nothing where it is refused.
pub fn generations(
    alloc: Global,
    image: &[u8],
    g: &Geometry,
    first: u64,
) -> Result<Option<Gens>, AllocError>
    requires whole { AreSectors image.now }
    requires room { g.now.bucket * g.now.nbuckets ≤ length image.now / 512 }
    ensures { IfOk result (Finds (ChainIn g.now (image_of image.now) first)) }
{
    let mut disk = disk_of(alloc, image)?;
    match read_chain(alloc, &mut disk, g, first) {
        Ok(gens) => Ok(Some(gens)),
        Err(error) => {
            refused(error)?;
            Ok(None)
        }
    }
}
