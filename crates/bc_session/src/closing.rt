//! A run over a pair is closed.
ghost use Rattle.std.specs.Prelude.{◌≡◌, false};
ghost use Rattle.bc_started.specs.bc_hand.Seats.{Works, empty, world};
ghost use Rattle.bc_started.specs.bc_machine.World.{are_plain};
ghost use Rattle.bc_started.specs.First.{HasAll};
ghost use Rattle.bc_super.specs.Super.{IsUsable};
ghost use Rattle.bc_session.specs.Close.{HasClosed, HasMade, HasSaidClean, IsLastState};

use bc_book::pass::Pass;
use bc_disk::disk::{Device, Disk};
use bc_started::bc_cached::run::{Ended, end};
use bc_started::bc_deed::backing::backing_barrier;
use bc_started::bc_deed::promise::promise;
use bc_started::bc_hand::error::StepError;
use bc_started::bc_hand::hand::Hand;
use bc_started::bc_machine::machine::{CoreParts, CoreSeat};
use bc_started::bc_machine::part::BackingPart;
use bc_state::write_state;
use bc_super::backing::BackingSuper;
use bc_super::state::BackingState;
use std::sync::Wait;

/// Why a run isn't closed.
#[derive(Clone, Copy, Debug, PartialEq, Eq, Drop)]
pub enum CloseError {
    /// A call of the backing device failed, the last one.
    Fault,
    /// A write or a barrier of this device had failed before, which forbids the closing.
    Halted(Device),
    /// There was no memory for the barrier's event. It wasn't made.
    Memory,
}

/// What a run that was closed leaves: its devices, and what it did.
#[derive(Drop)]
pub struct Closed<C, B> {
    pub cache: C,
    pub backing: B,
    pub pass: Pass,
    /// Whether it was closed as it should be.
    pub result: Result<(), CloseError>,
}

// Makes what the backing device holds stable, unless the run was halted.
fn last_barrier<C: Disk + Drop, B: Disk + Drop, R: Wait>(
    rt: &R,
    parts: &CoreParts<C, B>,
    seat: &mut CoreSeat<C, B>,
) -> Result<(), CloseError>
    requires works { Works C.facts B.facts parts.now seat.old empty }
    ensures works { Works C.facts B.facts parts.now seat.new empty }
    ensures made { HasMade C.facts B.facts result seat.old seat.new }
{
    let mut hand = Hand::empty();
    let Ok(()) = promise(rt, parts, seat, &mut hand, 1) else {
        return Err(CloseError::Memory);
    };
    match backing_barrier(rt, parts, seat, &mut hand) {
        Ok(()) => match seat.heard() {
            None => Ok(()),
            Some(device) => Err(CloseError::Halted(device)),
        },
        Err(StepError::Fault(_)) => Err(CloseError::Fault),
        Err(StepError::Halted(device)) => Err(CloseError::Halted(device)),
        Err(StepError::Memory) => unreachable!(),
    }
}

// Says in the superblock that no data is in the cache alone.
fn say_clean<B: Disk>(disk: &mut B, superblock: &BackingSuper) -> Result<(), CloseError>
    requires usable { IsUsable (B.facts disk.old).sectors superblock.now }
    ensures { HasSaidClean B.facts superblock.now result disk.old disk.new }
{
    match write_state(disk, superblock, BackingState::Clean) {
        Ok(()) => Ok(()),
        Err(_) => Err(CloseError::Fault),
    }
}

// The same, where the barrier was made and it is so.
fn last_state<B: Disk>(
    disk: &mut B,
    superblock: &BackingSuper,
    dirty: bool,
    barrier: Result<(), CloseError>,
) -> Result<(), CloseError>
    requires usable { IsUsable (B.facts disk.old).sectors superblock.now }
    ensures { IsLastState B.facts superblock.now dirty barrier result disk.old disk.new }
{
    if let Err(why) = barrier {
        return Err(why);
    }
    if dirty {
        return Ok(());
    }
    say_clean(disk, superblock)
}

/// Closes a run of which the seat has all numbers, and in which no key waits: what the backing device
/// holds is made stable, and where no data is in the cache alone, its superblock says so. The
/// superblock is the one that the device had when it was opened. What was in memory is dropped.
///
/// `dirty` says whether some data is in the cache alone. Where the run was halted, or the barrier
/// fails, or memory is missing for it, the superblock isn't written.
pub fn close<C: Disk + Drop, B: Disk + Drop, R: Wait>(
    rt: &R,
    parts: CoreParts<C, B>,
    seat: CoreSeat<C, B>,
    superblock: &BackingSuper,
    dirty: bool,
) -> Closed<C, B>
    requires works { Works C.facts B.facts parts seat empty }
    requires all { HasAll C.facts B.facts seat }
    requires seats { parts.seats ≡ 320 }
    requires cached { are_plain C.facts B.facts parts.run.start ≡ false }
    requires usable { IsUsable (world C.facts B.facts seat).backing.sectors superblock.now }
    ensures { HasClosed C.facts B.facts superblock.now dirty seat result }
{
    let mut seat = seat;
    let barrier = last_barrier(rt, &parts, &mut seat);
    let Ended {
        cache,
        backing,
        pass,
    } = end(parts, seat);
    let BackingPart {
        mut disk,
        offset: _,
        size: _,
    } = backing;
    let result = last_state(&mut disk, superblock, dirty, barrier);
    Closed {
        cache,
        backing: disk,
        pass,
        result,
    }
}
