//! The superblocks of a pair.
ghost use Rattle.std.specs.Prelude.{◌≡◌, IfOk, IfErr, OnOk};
ghost use Rattle.bc_disk.specs.Disk.{IsCounted};
ghost use Rattle.bc_super.specs.Reading.{ReadsCache, ReadsSuper};
ghost use Rattle.bc_pair.specs.Causes.{AreKept, BackingFirst, FaultRose, IsShowCause, good};
ghost use Rattle.bc_pair.specs.Steps.{refusal};

use crate::error::PairError;
use bc_disk::disk::{Device, Disk};
use bc_super::backing::{BackingSuper, read_backing};
use bc_super::cache::{CacheSuper, read_cache};
use bc_super::error::SuperError;

// Why a pair is refused of which this device's superblock can't be read.
fn refusal(device: Device, why: SuperError) -> PairError
    ensures { result ≡ refusal device why }
{
    match why {
        SuperError::Fault => PairError::Fault(device),
        _ => PairError::Superblock { device, why },
    }
}

/// Reads the superblock of the backing device and then that of the cache device, each by one call.
/// Nothing is written.
pub(crate) fn read_pair<C: Disk, B: Disk>(
    cache: &mut C,
    backing: &mut B,
) -> Result<(CacheSuper, BackingSuper), PairError>
    ensures cache { IfOk result (λ both. ReadsCache (C.facts cache.old) both.0) }
    ensures backing { IfOk result (λ both. ReadsSuper (B.facts backing.old) both.1) }
    ensures cause { IfErr result (λ e. IsShowCause e (C.facts cache.old) (B.facts backing.old)) }
    ensures order { IfErr result (λ e. BackingFirst e cache.old cache.new (B.facts backing.old)) }
    ensures kept { AreKept (C.facts cache.old) (C.facts cache.new) (B.facts backing.old) (B.facts backing.new) }
    ensures counted { OnOk result (IsCounted good (C.facts cache.old) (C.facts cache.new) × IsCounted good (B.facts backing.old) (B.facts backing.new)) }
    ensures faults { IfErr result (λ e. FaultRose e (C.facts cache.old) (C.facts cache.new) (B.facts backing.old) (B.facts backing.new)) }
{
    let b = match read_backing(backing) {
        Ok(b) => b,
        Err(why) => return Err(refusal(Device::Backing, why)),
    };
    let c = match read_cache(cache) {
        Ok(c) => c,
        Err(why) => return Err(refusal(Device::Cache, why)),
    };
    Ok((c, b))
}
