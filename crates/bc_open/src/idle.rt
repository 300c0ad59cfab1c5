//! A pair is opened and closed, and nothing is asked of it.
ghost use Rattle.std.specs.Prelude.{◌*◌, ◌≤◌, IfErr, OnOk};
ghost use Rattle.bc_recover.specs.Read.{HasParts, IsReadOf};
ghost use Rattle.bc_replay.specs.Causes.{OfHeld};
ghost use Rattle.bc_super.specs.Reading.{ReadsSuper};
ghost use Rattle.bc_open.specs.Idle.{HasIdled, MayBeLeft};
ghost use Rattle.bc_open.specs.Left.{ChangesState, IsStill, LeavesThePair};
ghost use Rattle.bc_open.specs.Open.{IsOpenStop};

use crate::close::close_pair;
use crate::open::open_pair;
use bc_disk::disk::{Device, Disk};
use bc_replay::{OpenError, Survey};
use bc_super::backing::BackingSuper;
use std::alloc::Global;

/// Opens a pair that was read, as `open_pair` does, and closes it again. After `Ok` its backing
/// device says `dirty` exactly where some live data of the cache is all that there is of it, and else
/// `clean`; it was called three times, or five times for `clean`.
///
/// The errors are those of `open_pair`, and `Fault` of the backing device at the closing. Whatever is
/// answered, and wherever a device stops, also within a write, a crash leaves a sound pair that shows
/// what the pair showed, and the backing device as it was or with another state in its superblock:
/// `dirty`, or `clean` where no live data of the cache is all that there is of it.
pub fn open_and_close<C: Disk, B: Disk>(
    alloc: Global,
    cache: &mut C,
    backing: &mut B,
    superblock: &BackingSuper,
    s: &Survey,
) -> Result<(), OpenError>
    requires reads { ReadsSuper (B.facts backing.old) superblock.now }
    requires parts { HasParts s.now }
    requires room { s.now.supers.geometry.bucket * s.now.supers.geometry.nbuckets
        ≤ (C.facts cache.old).sectors }
    requires read { OfHeld (IsReadOf s.now) (C.facts cache.old) (B.facts backing.old) }
    ensures ok { OnOk result (HasIdled C.facts s.now superblock.now cache.old cache.new
        (B.facts backing.old) (B.facts backing.new)) }
    ensures cause { IfErr result (IsOpenStop B.facts s.now 5 (C.facts cache.old) (C.facts cache.new)
        backing.old backing.new) }
    ensures state { IsStill (B.facts backing.old) → ChangesState (MayBeLeft s.now) superblock.now
        (B.facts backing.old) (B.facts backing.new) }
    ensures left { LeavesThePair (C.facts cache.old) (C.facts cache.new)
        (B.facts backing.old) (B.facts backing.new) }
{
    let opened = open_pair(alloc, cache, backing, superblock, s)?;
    if close_pair(backing, superblock, &opened.buckets).is_err() {
        return Err(OpenError::Fault(Device::Backing));
    }
    Ok(())
}
