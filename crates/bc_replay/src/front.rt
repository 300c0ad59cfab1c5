//! What a pair holds before its index.
ghost use Rattle.std.specs.Prelude.{◌≡◌, ◌*◌, ◌≤◌, IfOk, IfErr, OnOk};
ghost use Rattle.bc_disk.specs.Disk.{IsKept};
ghost use Rattle.bc_replay.specs.Heads.{HasHeads};
ghost use Rattle.bc_replay.specs.Parts.{AreHeads};
ghost use Rattle.bc_replay.specs.Causes.{CountsFault, EndsAtSupers, IsOpenCause, IsReadOnce, OfHeld};

use crate::error::OpenError;
use crate::heads::read_behind;
use crate::supers::{Supers, read_supers};
use bc_disk::disk::Disk;
use bc_disk::gens::Gens;
use bc_entries::Journal;
use std::alloc::Global;

/// What a pair holds before its index.
#[derive(Drop)]
pub struct Front {
    /// The superblocks, and how the cache device is divided.
    pub supers: Supers,
    /// The journal.
    pub journal: Journal,
    /// The generations that the journal's newest entry names.
    pub gens: Gens,
}

/// Reads what a pair holds before its index, in this order: the superblock of the backing device and
/// that of the cache device, the journal, the generations that its newest entry names, and the table
/// of uuids that it names. Nothing is written.
///
/// The error is the first of `Super`, `NoJournal`, `JournalGap`, `JournalEnd`, `Prio` and `Uuid` that
/// holds; `Fault` and `Memory` come wherever they happen.
pub fn read_heads<C: Disk, B: Disk>(
    alloc: Global,
    cache: &mut C,
    backing: &mut B,
) -> Result<Front, OpenError>
    ensures found { IfOk result (λ f. OfHeld
        (λ p. HasHeads p f.supers.backing f.supers.cache f.supers.geometry f.journal f.gens)
        (C.facts cache.old) (B.facts backing.old)) }
    ensures parts { IfOk result (λ f. AreHeads f.supers.geometry f.journal f.gens) }
    ensures room { IfOk result (λ f. f.supers.geometry.bucket * f.supers.geometry.nbuckets
        ≤ (C.facts cache.new).sectors) }
    ensures refused { IfErr result (IsOpenCause (C.facts cache.old) (B.facts backing.old)) }
    ensures supers { IfErr result (EndsAtSupers (C.facts cache.old) (B.facts backing.old)
        (C.facts cache.old).calls (C.facts cache.new).calls) }
    ensures cache_kept { IsKept (C.facts cache.old) (C.facts cache.new) }
    ensures backing_kept { IsKept (B.facts backing.old) (B.facts backing.new) }
    ensures faults { IfErr result (λ e. CountsFault e (C.facts cache.old) (C.facts cache.new)
        (B.facts backing.old) (B.facts backing.new)) }
    ensures cache_good { OnOk result ((C.facts cache.new).faults ≡ (C.facts cache.old).faults) }
    ensures backing_good { OnOk result
        ((B.facts backing.new).faults ≡ (B.facts backing.old).faults) }
    ensures backing_called { IsReadOnce (B.facts backing.old).sectors (B.facts backing.old).calls
        (B.facts backing.new).calls }
{
    let supers = read_supers(cache, backing)?;
    let uuid = supers.backing.uuid;
    let (journal, gens) = read_behind(alloc, cache, &supers.geometry, &uuid)?;
    Ok(Front {
        supers,
        journal,
        gens,
    })
}
