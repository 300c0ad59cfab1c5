//! What the superblocks of a pair say.
ghost use Rattle.std.specs.Prelude.{◌≡◌, IfOk, IfErr, OnOk, string_bytes};
ghost use Rattle.bc_disk.specs.Disk.{IsCounted};
ghost use Rattle.bc_super.specs.Show.{IsShown};
ghost use Rattle.bc_super.specs.Reading.{ReadsSuper, ReadsCache};
ghost use Rattle.bc_super.specs.declared.backing.BackingSuper.{BackingSuper};
ghost use Rattle.bc_super.specs.declared.cache.CacheSuper.{CacheSuper};
ghost use Rattle.bc_pair.specs.Causes.{AreKept, BackingFirst, FaultRose, IsShowCause, good};
ghost use Rattle.bc_super.specs.Super.{data_sectors};

use crate::error::PairError;
use crate::read::read_pair;
use bc_disk::disk::Disk;
use bc_super::show::show;
use std::alloc::Global;

/// The four lines that tell what the superblocks of a pair say. A cache device that wasn't set up is
/// shown too. The superblock of the backing device is read first, then that of the cache device, each
/// by one call; nothing is written.
///
/// `Superblock` says the first fault of these, and `Fault` that a read failed. `Memory` comes behind
/// both reads, where there was none for the text.
pub fn show_pair<C: Disk, B: Disk>(
    alloc: Global,
    cache: &mut C,
    backing: &mut B,
) -> Result<String, PairError>
    ensures shown { IfOk result (λ text. (b : BackingSuper) × ReadsSuper (B.facts backing.old) b × ((c : CacheSuper) × ReadsCache (C.facts cache.old) c
        × IsShown c b (data_sectors (B.facts backing.old).sectors b) (string_bytes text))) }
    ensures cause { IfErr result (λ e. IsShowCause e (C.facts cache.old) (B.facts backing.old)) }
    ensures order { IfErr result (λ e. BackingFirst e cache.old cache.new (B.facts backing.old)) }
    ensures kept { AreKept (C.facts cache.old) (C.facts cache.new) (B.facts backing.old) (B.facts backing.new) }
    ensures counted { OnOk result (IsCounted good (C.facts cache.old) (C.facts cache.new) × IsCounted good (B.facts backing.old) (B.facts backing.new)) }
    ensures faults { IfErr result (λ e. FaultRose e (C.facts cache.old) (C.facts cache.new) (B.facts backing.old) (B.facts backing.new)) }
{
    let (c, b) = read_pair(cache, backing)?;
    let size = b.data_sectors(backing.sectors());
    Ok(show(alloc, &c, &b, size)?)
}
