//! A pair that is opened for a run, and what a test does with the run before it is closed.
ghost use Rattle.std.specs.Prelude.{◌≡◌, ◌*◌, ◌≤◌, IfOk};
ghost use Rattle.bc_disk.specs.Disk.{StandsFor};
ghost use Rattle.bc_disk.specs.Stands.{settled_model};
ghost use Rattle.bc_place.specs.bc_hand.Seats.{Works, empty};
ghost use Rattle.bc_recover.specs.Read.{HasParts, IsReadOf};
ghost use Rattle.bc_replay.specs.Causes.{OfHeld};
ghost use Rattle.bc_session_rows.specs.Run.{IsAlone, IsOpened, MayHave};
ghost use Rattle.bc_super.specs.Reading.{ReadsSuper};

use bc_disk::disk::Disk;
use bc_disk::modelled::settle;
use bc_place::bc_machine::machine::{CoreParts, CoreSeat};
use bc_replay::{OpenError, Survey, survey};
use bc_session::bc_loaded::load;
use bc_session::{Closed, NotOpened, close, open};
use bc_super::backing::{BackingSuper, read_backing};
use std::alloc::Global;
use std::sync::Wait;
use std::test::Fail;

/// A run with one part for leaves, and its one seat.
pub(crate) struct Opened<C: Disk, B: Disk> {
    pub parts: CoreParts<C, B>,
    pub seat: CoreSeat<C, B>,
    /// What the backing device held when it was opened.
    pub superblock: BackingSuper,
    /// How many buckets lie before the journal's.
    pub before: u32,
}

// Opens a pair that was surveyed.
fn open_surveyed<C: Disk + Drop, B: Disk + Drop, R: Wait>(
    rt: &R,
    alloc: Global,
    s: &Survey,
    superblock: &BackingSuper,
    cache: C,
    backing: B,
) -> Result<Opened<C, B>, OpenError>
    requires parts { HasParts s.now }
    requires room { s.now.supers.geometry.bucket * s.now.supers.geometry.nbuckets
        ≤ (C.facts cache).sectors }
    requires reads { ReadsSuper (B.facts backing) superblock.now }
    requires read { OfHeld (IsReadOf s.now) (C.facts cache) (B.facts backing) }
    requires still { StandsFor (C.facts cache) (settled_model (C.facts cache)) }
    requires rests { StandsFor (B.facts backing) (settled_model (B.facts backing)) }
    ensures works { IfOk result (λ o. Works C.facts B.facts o.parts o.seat empty) }
    ensures opened { IfOk result (λ o. IsOpened C.facts B.facts o.before o.parts) }
    ensures has { IfOk result (λ o. MayHave C.facts B.facts o.superblock o.parts) }
    ensures alone { IfOk result (λ o. IsAlone C.facts B.facts o.seat) }
{
    let mut cache = cache;
    let loaded = load(alloc, &mut cache, s, 1)?;
    match open(rt, alloc, s, superblock, loaded, cache, backing) {
        Ok((parts, seat)) => Ok(Opened {
            parts,
            seat,
            superblock: *superblock,
            before: u32::from(s.supers.geometry.first_bucket),
        }),
        Err(
            NotOpened {
                why,
                cache: _,
                backing: _,
            },
        ) => Err(why),
    }
}

/// Reads a pair, and opens it.
pub(crate) fn open_run<C: Disk + Drop, B: Disk + Drop, R: Wait>(
    rt: &R,
    alloc: Global,
    mut cache: C,
    mut backing: B,
) -> Result<Opened<C, B>, Fail>
    ensures works { IfOk result (λ o. Works C.facts B.facts o.parts o.seat empty) }
    ensures opened { IfOk result (λ o. IsOpened C.facts B.facts o.before o.parts) }
    ensures has { IfOk result (λ o. MayHave C.facts B.facts o.superblock o.parts) }
    ensures alone { IfOk result (λ o. IsAlone C.facts B.facts o.seat) }
{
    settle(&mut cache)?;
    settle(&mut backing)?;
    let superblock = read_backing(&mut backing)?;
    let s = survey(alloc, &mut cache, &mut backing)?;
    Ok(open_surveyed(rt, alloc, &s, &superblock, cache, backing)?)
}

/// Closes the run of a pair of which no data is on the cache device alone.
pub(crate) fn close_run<C: Disk + Drop, B: Disk + Drop, R: Wait>(
    rt: &R,
    opened: Opened<C, B>,
) -> Closed<C, B>
    requires works { Works C.facts B.facts opened.parts opened.seat empty }
    requires opened { IsOpened C.facts B.facts opened.before opened.parts }
    requires has { MayHave C.facts B.facts opened.superblock opened.parts }
    requires alone { IsAlone C.facts B.facts opened.seat }
{
    let Opened {
        parts,
        seat,
        superblock,
        before: _,
    } = opened;
    close(rt, parts, seat, &superblock, false)
}
