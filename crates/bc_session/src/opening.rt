//! A pair is opened for a run.
ghost use Rattle.std.specs.Prelude.{◌≡◌, ◌*◌, ◌+◌, ◌≤◌, IfErr, IfOk};
ghost use Rattle.bc_started.specs.bc_begun.Opened.{AreBytes};
ghost use Rattle.bc_disk.specs.Disk.{StandsFor};
ghost use Rattle.bc_disk.specs.Stands.{settled_model};
ghost use Rattle.bc_open.specs.Left.{ChangesState, LeavesThePair};
ghost use Rattle.bc_recover.specs.Read.{HasParts, IsReadOf};
ghost use Rattle.bc_replay.specs.Causes.{OfHeld};
ghost use Rattle.bc_session.specs.Open.{IsErrorOf, IsLoaded, IsPartOf, IsRunOver, IsStopOf, ready_of};
ghost use Rattle.bc_started.specs.declared.start.StartError.TheVariants as starts;
ghost use Rattle.bc_super.specs.Reading.{ReadsSuper};
ghost use Rattle.bc_super.specs.Super.{IsUsable};

use crate::odd::{is_odd, newest_number};
use bc_disk::disk::{Device, Disk};
use bc_loaded::Loaded;
use bc_replay::{OpenError, Survey};
use bc_started::bc_begun::are_bytes;
use bc_started::bc_cached::run::Ready;
use bc_started::bc_machine::machine::{CoreParts, CoreSeat};
use bc_started::bc_machine::part::BackingPart;
use bc_started::start::{NotStarted, StartError, start};
use bc_state::write_state;
use bc_super::backing::BackingSuper;
use bc_super::state::BackingState;
use std::alloc::Global;
use std::sync::Wait;

/// Both devices of a pair that isn't opened, and why.
#[derive(Drop)]
pub struct NotOpened<C, B> {
    pub why: OpenError,
    pub cache: C,
    pub backing: B,
}

// The backing device, with its data as its superblock says.
fn part_of<B: Disk>(disk: B, superblock: &BackingSuper) -> BackingPart<B>
    requires usable { IsUsable (B.facts disk).sectors superblock.now }
    ensures part { IsPartOf B.facts superblock.now disk result }
    ensures inside { result.offset + result.size ≤ (B.facts disk).sectors }
{
    let offset = superblock.data_offset;
    let size = superblock.data_sectors(disk.sectors());
    BackingPart { disk, offset, size }
}

// What a run begins with.
fn ready_with<C, B>(loaded: Loaded, cache: C, backing: BackingPart<B>) -> Ready<C, B>
    ensures ready { result ≡ ready_of loaded cache backing }
    ensures bytes { AreBytes loaded.buckets }
{
    are_bytes(&loaded.buckets);
    let Loaded {
        tree,
        leaves,
        buckets,
        reserves,
        chain,
        walk,
        journal,
    } = loaded;
    Ready {
        tree,
        buckets,
        reserves,
        chain,
        walk,
        journal,
        cache,
        backing,
        leaves,
    }
}

// What is handed back where a run wasn't started.
fn not_started<C: Drop, B: Drop>(stopped: NotStarted<C, B>) -> NotOpened<C, B>
    requires { stopped.why ≡ starts.Odd → ⊥ }
    ensures error { IsErrorOf stopped.why result.why }
    ensures cache { result.cache ≡ stopped.cache }
    ensures backing { result.backing ≡ stopped.backing.disk }
{
    let NotStarted {
        why,
        cache,
        backing,
        pass: _,
    } = stopped;
    let why = match why {
        StartError::Odd => unreachable!(),
        StartError::Memory => OpenError::Memory,
        StartError::Fault => OpenError::Fault(Device::Cache),
    };
    let BackingPart {
        disk,
        offset: _,
        size: _,
    } = backing;
    NotOpened {
        why,
        cache,
        backing: disk,
    }
}

/// Opens a pair whose parts are in memory, for a run: says in the superblock of the backing device
/// that its cache may have what it lacks, which is stable then, and starts the run, whose one seat
/// puts the entry of the opening. Both devices are such that a crash would leave exactly what they
/// hold; the superblock is the one that the backing device holds.
///
/// An error hands both devices back. It is `Fault` where a call of a device failed, the last one of
/// both; or `Memory`, and no more was written than the state; a pair whose newest entry is one behind
/// which none can come is refused as `JournalEnd` with that entry's number, and nothing was called.
/// Whatever is answered, and wherever a device stops, also within a write, a crash leaves a sound pair
/// that shows what the pair showed, and the backing device as it was or with `dirty` in its
/// superblock.
pub fn open<C: Disk + Drop, B: Disk + Drop, R: Wait>(
    rt: &R,
    alloc: Global,
    s: &Survey,
    superblock: &BackingSuper,
    loaded: Loaded,
    cache: C,
    backing: B,
) -> Result<(CoreParts<C, B>, CoreSeat<C, B>), NotOpened<C, B>>
    requires parts { HasParts s.now }
    requires room { s.now.supers.geometry.bucket * s.now.supers.geometry.nbuckets
        ≤ (C.facts cache).sectors }
    requires loaded { IsLoaded C.facts s.now cache loaded }
    requires reads { ReadsSuper (B.facts backing) superblock.now }
    requires read { OfHeld (IsReadOf s.now) (C.facts cache) (B.facts backing) }
    requires still { StandsFor (C.facts cache) (settled_model (C.facts cache)) }
    requires rests { StandsFor (B.facts backing) (settled_model (B.facts backing)) }
    ensures opened { IfOk result
        (λ r. IsRunOver C.facts B.facts s.now superblock.now cache backing loaded r.0 r.1) }
    ensures cause { IfErr result
        (λ n. IsStopOf C.facts B.facts s.now superblock.now cache backing n n.why) }
    ensures state { IfErr result (λ n. ChangesState (λ state. state ≡ BackingState.Dirty)
        superblock.now (B.facts backing) (B.facts n.backing)) }
    ensures left { IfErr result (λ n. LeavesThePair (C.facts cache) (C.facts n.cache)
        (B.facts backing) (B.facts n.backing)) }
{
    if is_odd(&s.journal) {
        let why = OpenError::JournalEnd {
            seq: newest_number(&s.journal),
        };
        return Err(NotOpened {
            why,
            cache,
            backing,
        });
    }
    let mut backing = backing;
    if write_state(&mut backing, superblock, BackingState::Dirty).is_err() {
        return Err(NotOpened {
            why: OpenError::Fault(Device::Backing),
            cache,
            backing,
        });
    }
    let backing = part_of(backing, superblock);
    let ready = ready_with(loaded, cache, backing);
    match start(rt, alloc, &s.supers.geometry, &s.journal, ready) {
        Ok(run) => Ok(run),
        Err(stopped) => Err(not_started(stopped)),
    }
}
