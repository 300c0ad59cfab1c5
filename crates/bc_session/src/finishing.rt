//! A run in which keys came in is closed.
ghost use Rattle.std.specs.Prelude.{◌≡◌, ◌<◌, ◌^◌, false, length};
ghost use Rattle.bc_started.specs.bc_hand.Seats.{Works, empty, world};
ghost use Rattle.bc_started.specs.bc_machine.World.{are_plain};
ghost use Rattle.bc_started.specs.First.{HasAll};
ghost use Rattle.bc_super.specs.Super.{IsUsable};
ghost use Rattle.bc_session.specs.Finish.{HasFinished, IsFinishedOf, MayLack};

use crate::closing::{CloseError, Closed, close};
use bc_book::pass::Pass;
use bc_dirty::bc_fetch::error::LeafError;
use bc_dirty::walk::any_dirty;
use bc_disk::disk::Disk;
use bc_started::bc_machine::machine::{CoreParts, CoreSeat};
use bc_super::backing::BackingSuper;
use bc_worker::gate::Gate;
use std::alloc::Global;
use std::sync::Wait;

/// Why a run isn't closed as it should be.
#[derive(Clone, Copy, Debug, PartialEq, Eq, Drop)]
pub enum FinishError {
    /// The backing device isn't settled, or its state isn't written.
    Close(CloseError),
    /// It is settled; but a leaf isn't had, so that nobody knows whether some data is in the cache
    /// alone, and the state isn't written.
    Leaf(LeafError),
}

/// What a run that was finished leaves: its devices, and what it did.
#[derive(Drop)]
pub struct Finished<C, B> {
    pub cache: C,
    pub backing: B,
    pub pass: Pass,
    /// Whether it was closed as it should be.
    pub result: Result<(), FinishError>,
}

// Whether some data may be in the cache alone, by what was asked.
fn may_lack(asked: &Result<bool, LeafError>) -> bool
    ensures { MayLack asked.now result }
{
    match asked {
        Ok(dirty) => *dirty,
        Err(_) => true,
    }
}

// What a closing leaves, with what was asked before it.
fn with_asked<C: Drop, B: Drop>(
    asked: Result<bool, LeafError>,
    closed: Closed<C, B>,
) -> Finished<C, B>
    ensures cache { result.cache ≡ closed.cache }
    ensures backing { result.backing ≡ closed.backing }
    ensures pass { result.pass ≡ closed.pass }
    ensures outcome { IsFinishedOf asked closed.result result.result }
{
    let Closed {
        cache,
        backing,
        pass,
        result,
    } = closed;
    let result = match (result, asked) {
        (Err(why), _) => Err(FinishError::Close(why)),
        (Ok(()), Err(error)) => Err(FinishError::Leaf(error)),
        (Ok(()), Ok(_)) => Ok(()),
    };
    Finished {
        cache,
        backing,
        pass,
        result,
    }
}

/// Closes a run of which the seat has all numbers: it asks whether some data is in the cache alone,
/// makes what the backing device holds stable, and writes the state `clean` where none is. The
/// superblock is the one that the device had when it was opened. What was in memory is dropped.
///
/// Whoever has keys that wait makes them durable before: what a crash shows behind a good closing is
/// each sector's last write only then.
///
/// Where the run was halted, or the barrier fails, or memory is missing for it, the superblock isn't
/// written, and the error is `Close`. Where a leaf isn't had, the barrier is made, the superblock
/// isn't written, and the error is `Leaf`.
pub fn finish<C: Disk + Drop, B: Disk + Drop, R: Wait, G: Gate>(
    rt: &R,
    alloc: Global,
    parts: CoreParts<C, B>,
    seat: CoreSeat<C, B>,
    superblock: &BackingSuper,
    gate: &G,
) -> Finished<C, B>
    requires works { Works C.facts B.facts parts seat empty }
    requires all { HasAll C.facts B.facts seat }
    requires seats { parts.seats ≡ 320 }
    requires cached { are_plain C.facts B.facts parts.run.start ≡ false }
    requires leaves { (6 < length parts.run.start) × (length parts.run.start < 2 ^ 32) }
    requires usable { IsUsable (world C.facts B.facts seat).backing.sectors superblock.now }
    ensures { HasFinished C.facts B.facts superblock.now seat result }
{
    let mut seat = seat;
    let asked = any_dirty(rt, alloc, &parts, &mut seat, gate);
    let dirty = may_lack(&asked);
    with_asked(asked, close(rt, parts, seat, superblock, dirty))
}
