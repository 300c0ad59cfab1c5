//! A pair is opened and closed, and nothing is asked of it.
ghost use Rattle.std.specs.Prelude.{◌≡◌, ◌*◌, ◌<◌, ◌≤◌, Err, IfErr, OnOk};
ghost use Rattle.bc_disk.specs.Disk.{StandsFor};
ghost use Rattle.bc_disk.specs.Stands.{settled_model};
ghost use Rattle.bc_disk.specs.declared.disk.Device.{Device};
ghost use Rattle.bc_open.specs.Idle.{HasIdled, MayBeLeft};
ghost use Rattle.bc_open.specs.Left.{ChangesState, LeavesThePair};
ghost use Rattle.bc_recover.specs.Read.{HasParts, IsReadOf};
ghost use Rattle.bc_replay.specs.Causes.{OfHeld};
ghost use Rattle.bc_session.specs.Idle.{IsClosingOf, IsIdleStop, IsOutcomeOf};
ghost use Rattle.bc_session.specs.declared.closing.CloseError.TheVariants as closings;
ghost use Rattle.bc_super.specs.Reading.{ReadsSuper};

use crate::closing::{CloseError, Closed, close};
use crate::opening::{NotOpened, open};
use bc_dirty::marks::has_dirty;
use bc_disk::disk::{Device, Disk};
use bc_loaded::load;
use bc_replay::{OpenError, Survey};
use bc_super::backing::BackingSuper;
use std::alloc::Global;
use std::sync::Wait;

/// Both devices of a pair that was opened and closed, and whether it was.
#[derive(Drop)]
pub struct Idled<C, B> {
    pub cache: C,
    pub backing: B,
    pub result: Result<(), OpenError>,
}

// The error of a closing, of a run that no other seat can have halted.
fn closing_error(why: CloseError) -> OpenError
    requires { (device : Device) → why ≡ closings.Halted device → ⊥ }
    ensures { IsClosingOf why result }
{
    match why {
        CloseError::Fault => OpenError::Fault(Device::Backing),
        CloseError::Halted(_) => unreachable!(),
        CloseError::Memory => OpenError::Memory,
    }
}

// What a closing leaves, as what is left of the pair.
fn answer<C: Drop, B: Drop>(closed: Closed<C, B>) -> Idled<C, B>
    requires { (device : Device) → closed.result ≡ Err (closings.Halted device) → ⊥ }
    ensures outcome { IsOutcomeOf closed.result result.result }
    ensures cache { result.cache ≡ closed.cache }
    ensures backing { result.backing ≡ closed.backing }
{
    let Closed {
        cache,
        backing,
        pass: _,
        result,
    } = closed;
    let result = match result {
        Ok(()) => Ok(()),
        Err(why) => Err(closing_error(why)),
    };
    Idled {
        cache,
        backing,
        result,
    }
}

/// Opens a pair that was surveyed, by a run with so many parts for leaves, of which nothing is asked,
/// and closes it again. Both devices are such that a crash would leave exactly what they hold. After
/// `Ok` the backing device says `dirty` exactly where some live data of the cache is all that there is
/// of it, and else `clean`; it was called three times, or five times for `clean`.
///
/// The errors are those of `load` and `open`, and `Fault` of the backing device or `Memory` at the
/// closing. Whatever is answered, and wherever a device stops, also within a write, a crash leaves a
/// sound pair that shows what the pair showed, and the backing device as it was or with another state
/// in its superblock: `dirty`, or `clean` where no live data of the cache is all that there is of it.
pub fn open_and_close<C: Disk + Drop, B: Disk + Drop, R: Wait>(
    rt: &R,
    alloc: Global,
    s: &Survey,
    superblock: &BackingSuper,
    count: u32,
    cache: C,
    backing: B,
) -> Idled<C, B>
    requires parts { HasParts s.now }
    requires room { s.now.supers.geometry.bucket * s.now.supers.geometry.nbuckets
        ≤ (C.facts cache).sectors }
    requires some { 0 < count }
    requires few { count ≤ 1024 }
    requires reads { ReadsSuper (B.facts backing) superblock.now }
    requires read { OfHeld (IsReadOf s.now) (C.facts cache) (B.facts backing) }
    requires still { StandsFor (C.facts cache) (settled_model (C.facts cache)) }
    requires rests { StandsFor (B.facts backing) (settled_model (B.facts backing)) }
    ensures ok { OnOk result.result (HasIdled C.facts s.now superblock.now cache result.cache
        (B.facts backing) (B.facts result.backing)) }
    ensures cause { IfErr result.result (IsIdleStop C.facts B.facts s.now cache backing result) }
    ensures state { ChangesState (MayBeLeft s.now) superblock.now (B.facts backing)
        (B.facts result.backing) }
    ensures left { LeavesThePair (C.facts cache) (C.facts result.cache)
        (B.facts backing) (B.facts result.backing) }
{
    let mut cache = cache;
    let loaded = match load(alloc, &mut cache, s, count) {
        Ok(loaded) => loaded,
        Err(why) => {
            return Idled {
                cache,
                backing,
                result: Err(why),
            };
        }
    };
    let dirty = has_dirty(loaded.buckets.records());
    match open(rt, alloc, s, superblock, loaded, cache, backing) {
        Ok((parts, seat)) => answer(close(rt, parts, seat, superblock, dirty)),
        Err(
            NotOpened {
                why,
                cache,
                backing,
            },
        ) => Idled {
            cache,
            backing,
            result: Err(why),
        },
    }
}
