//! How a pair is opened.
ghost use Rattle.std.specs.Prelude.{◌*◌, ◌≤◌, IfOk, IfErr, OnOk};
ghost use Rattle.bc_disk.specs.Disk.{IsKept};
ghost use Rattle.bc_recover.specs.Read.{HasParts, IsReadOf};
ghost use Rattle.bc_replay.specs.Causes.{OfHeld};
ghost use Rattle.bc_replay.specs.Survey.{CanBeOpened};
ghost use Rattle.bc_top.specs.Opened.{AreQuiet, AreStill, IsLoneCause, IsOpened, IsPairCause, IsReadAgain, IsSameDevice, StandsStill};

use bc_disk::disk::{Device, Disk};
use bc_replay::{OpenError, Survey, refusal, survey};
use bc_super::backing::{BackingSuper, read_backing};
use std::alloc::Global;

/// Makes what the backing device holds all that a crash may leave, and reads its superblock.
pub fn open_backing<B: Disk>(backing: &mut B) -> Result<BackingSuper, OpenError>
    ensures ok { IfOk result (λ s. IsOpened s (B.facts backing.old) (B.facts backing.new)) }
    ensures cause { IfErr result (λ error. IsLoneCause error (B.facts backing.old)
        (B.facts backing.new)) }
    ensures same { IsSameDevice (B.facts backing.old) (B.facts backing.new) }
{
    let Ok(()) = backing.barrier() else {
        return Err(OpenError::Fault(Device::Backing));
    };
    match read_backing(backing) {
        Ok(s) => Ok(s),
        Err(error) => Err(refusal(Device::Backing, error)),
    }
}

/// Tests whether a pair of which the backing device asks for a cache can be opened: makes what the
/// cache device holds all that a crash may leave, and reads all of the pair but its data. No sector
/// is written. The backing device was made so before.
///
/// The error is that a call of a device failed, that memory ran out, or the first refusal of the
/// pair.
pub fn test_pair<C: Disk, B: Disk>(
    alloc: Global,
    cache: &mut C,
    backing: &mut B,
) -> Result<Survey, OpenError>
    requires large { 16 ≤ (B.facts backing.old).sectors }
    requires still { StandsStill (B.facts backing.old) }
    ensures opened { OnOk result (OfHeld CanBeOpened (C.facts cache.old) (B.facts backing.old)) }
    ensures quiet { OnOk result (AreQuiet (C.facts cache.old) (C.facts cache.new)
        (B.facts backing.old) (B.facts backing.new)) }
    ensures again { OnOk result (IsReadAgain (C.facts cache.old) (C.facts cache.new)
        (B.facts backing.old) (B.facts backing.new) (B.facts backing.old).calls) }
    ensures settled { OnOk result (AreStill (C.facts cache.new) (B.facts backing.new)) }
    ensures parts { IfOk result HasParts }
    ensures room { IfOk result (λ s. s.supers.geometry.bucket * s.supers.geometry.nbuckets
        ≤ (C.facts cache.new).sectors) }
    ensures read { IfOk result
        (λ s. OfHeld (IsReadOf s) (C.facts cache.new) (B.facts backing.new)) }
    ensures kept { OnOk result (IsKept (B.facts backing.old) (B.facts backing.new)) }
    ensures cause { IfErr result (IsPairCause (C.facts cache.old) (C.facts cache.new)
        (B.facts backing.old) (B.facts backing.new) (B.facts backing.old).calls) }
    ensures cache_same { IsSameDevice (C.facts cache.old) (C.facts cache.new) }
    ensures backing_same { IsSameDevice (B.facts backing.old) (B.facts backing.new) }
{
    let Ok(()) = cache.barrier() else {
        return Err(OpenError::Fault(Device::Cache));
    };
    let survey = survey(alloc, cache, backing)?;
    Ok(survey)
}
