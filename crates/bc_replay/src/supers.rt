//! The superblocks of a pair.
ghost use Rattle.std.specs.Prelude.{◌≡◌, ◌≢◌, ◌*◌, ◌≤◌, IfOk, IfErr, OnOk};
ghost use Rattle.bc_disk.specs.Device.{next_count};
ghost use Rattle.bc_disk.specs.Disk.{IsKept};
ghost use Rattle.bc_image.specs.Sound.{HasSuperblocks};
ghost use Rattle.bc_super.specs.Super.{state_number};
ghost use Rattle.bc_replay.specs.Causes.{GivesBacking, GivesCache, IsBackingCause, IsCacheCauseOf, IsMisfit, RisesWith, ReadsSupers, IsReadOnce, IsSupersCause, CountsFault, refusal};

use crate::error::OpenError;
use bc_disk::disk::{Device, Disk};
use bc_disk::geometry::Geometry;
use bc_super::backing::{BackingSuper, read_backing};
use bc_super::cache::{CacheSuper, initialised, read_cache};
use bc_super::division::geometry_of;
use bc_super::error::SuperError;
use bc_super::state::BackingState;

/// The superblocks of a pair that fit each other, and how the cache device is divided.
#[derive(Clone, Copy, Debug, PartialEq, Eq, Drop)]
pub struct Supers {
    /// That of the backing device.
    pub backing: BackingSuper,
    /// That of the cache device.
    pub cache: CacheSuper,
    /// How the cache device is divided.
    pub geometry: Geometry,
}

/// Why a pair can't be opened of which this device's superblock was refused so, or couldn't be read.
pub fn refusal(device: Device, why: SuperError) -> OpenError
    ensures { result ≡ refusal device why }
{
    match why {
        SuperError::Fault => OpenError::Fault(device),
        _ => OpenError::Super { device, why },
    }
}

/// Reads the superblock of the backing device.
fn backing_of<B: Disk>(backing: &mut B) -> Result<BackingSuper, OpenError>
    ensures found { IfOk result (GivesBacking (B.facts backing.old)) }
    ensures refused { IfErr result (IsBackingCause (B.facts backing.old)) }
    ensures kept { IsKept (B.facts backing.old) (B.facts backing.new) }
    ensures faults { RisesWith result (B.facts backing.old).faults (B.facts backing.new).faults }
    ensures called { IsReadOnce (B.facts backing.old).sectors (B.facts backing.old).calls
        (B.facts backing.new).calls }
{
    match read_backing(backing) {
        Ok(b) => Ok(b),
        Err(why) => Err(refusal(Device::Backing, why)),
    }
}

/// Reads the superblock of the cache device.
fn cache_of<C: Disk>(cache: &mut C) -> Result<CacheSuper, OpenError>
    ensures found { IfOk result (GivesCache (C.facts cache.old)) }
    ensures refused { IfErr result (IsCacheCauseOf (C.facts cache.old)) }
    ensures kept { IsKept (C.facts cache.old) (C.facts cache.new) }
    ensures faults { RisesWith result (C.facts cache.old).faults (C.facts cache.new).faults }
    ensures called { IsReadOnce (C.facts cache.old).sectors (C.facts cache.old).calls
        (C.facts cache.new).calls }
{
    match read_cache(cache) {
        Ok(c) => Ok(c),
        Err(why) => Err(refusal(Device::Cache, why)),
    }
}

/// Whether two superblocks fit each other.
fn fit(b: &BackingSuper, c: &CacheSuper) -> Result<(), OpenError>
    requires { state_number b.now.flags ≢ 3 }
    ensures fit { OnOk result (HasSuperblocks b.now c.now) }
    ensures misfit { IfErr result (IsMisfit b.now c.now) }
{
    if b.state() == BackingState::None || !initialised(c) {
        return Err(OpenError::Super {
            device: Device::Cache,
            why: SuperError::NotInitialised,
        });
    }
    if b.set_uuid != c.set_uuid {
        return Err(OpenError::Super {
            device: Device::Backing,
            why: SuperError::OtherSet,
        });
    }
    Ok(())
}

/// Reads the superblock of the backing device and then that of the cache device, each by one call,
/// and tests whether they fit each other. Nothing is written. Takes no memory.
///
/// The error is `Super` or `Fault`. Of the backing device's own faults the first is told, then that
/// of the cache device. Behind both come `NotInitialised` of the cache device, where the backing
/// device has no state or the cache device wasn't set up, and `OtherSet` of the backing device.
pub fn read_supers<C: Disk, B: Disk>(cache: &mut C, backing: &mut B) -> Result<Supers, OpenError>
    ensures found { IfOk result (λ s. ReadsSupers (C.facts cache.old) (B.facts backing.old)
        s.backing s.cache s.geometry) }
    ensures room { IfOk result
        (λ s. s.geometry.bucket * s.geometry.nbuckets ≤ (C.facts cache.new).sectors) }
    ensures refused { IfErr result (IsSupersCause (C.facts cache.old) (B.facts backing.old)
        (C.facts cache.old).calls (C.facts cache.new).calls) }
    ensures cache_kept { IsKept (C.facts cache.old) (C.facts cache.new) }
    ensures backing_kept { IsKept (B.facts backing.old) (B.facts backing.new) }
    ensures faults { IfErr result (λ e. CountsFault e (C.facts cache.old) (C.facts cache.new)
        (B.facts backing.old) (B.facts backing.new)) }
    ensures cache_good { OnOk result ((C.facts cache.new).faults ≡ (C.facts cache.old).faults) }
    ensures backing_good { OnOk result
        ((B.facts backing.new).faults ≡ (B.facts backing.old).faults) }
    ensures cache_called { OnOk result
        ((C.facts cache.new).calls ≡ next_count (C.facts cache.old).calls) }
    ensures backing_called { IsReadOnce (B.facts backing.old).sectors (B.facts backing.old).calls
        (B.facts backing.new).calls }
{
    let b = backing_of(backing)?;
    let c = cache_of(cache)?;
    fit(&b, &c)?;
    Ok(Supers {
        backing: b,
        cache: c,
        geometry: geometry_of(&c),
    })
}
