//! How a run is closed.
ghost use Rattle.std.specs.Prelude.{◌≡◌, List};
ghost use Rattle.bc_events.specs.declared.event.Deed.{Deed};
ghost use Rattle.bc_plain_laws.specs.bc_hand.Seats.{Works, empty};
ghost use Rattle.bc_job.specs.bc_deed.Flushed.{HasDone};
ghost use Rattle.bc_serve.specs.Closed.{ClosedBy};

use bc_disk::disk::{Device, Disk};
use bc_job::bc_deed::backing::backing_barrier;
use bc_job::bc_deed::promise::promise;
use bc_plain_laws::bc_hand::error::StepError;
use bc_plain_laws::bc_hand::hand::Hand;
use bc_plain_laws::bc_machine::machine::{CoreParts, CoreSeat};
use std::sync::Wait;

/// How the closing of a run ended.
#[derive(Clone, Copy, Debug, PartialEq, Eq, Drop)]
pub enum Closing {
    /// The last barrier was made: a crash leaves the last writes.
    Done,
    /// The barrier of this device failed.
    Failed(Device),
    /// A write or a barrier of this device had failed before, which forbids the barrier.
    Halted(Device),
    /// There was no memory for the barrier's event. It wasn't made.
    Memory,
}

/// Makes the barrier that closes a run, unless it was halted.
pub fn close<C: Disk + Drop, B: Disk + Drop, R: Wait>(
    rt: &R,
    parts: &CoreParts<C, B>,
    seat: &mut CoreSeat<C, B>,
) -> Closing
    requires works { Works C.facts B.facts parts.now seat.old empty }
    ensures works { Works C.facts B.facts parts.now seat.new empty }
    ensures closed { (ds : List Deed) × HasDone C.facts B.facts ds seat.old seat.new
        × ClosedBy result ds seat.new.seen }
{
    let mut hand = Hand::empty();
    let Ok(()) = promise(rt, parts, seat, &mut hand, 1) else {
        return Closing::Memory;
    };
    match backing_barrier(rt, parts, seat, &mut hand) {
        Ok(()) => match seat.heard() {
            None => Closing::Done,
            Some(device) => Closing::Halted(device),
        },
        Err(StepError::Fault(device)) => Closing::Failed(device),
        Err(StepError::Halted(device)) => Closing::Halted(device),
        Err(StepError::Memory) => unreachable!(),
    }
}
