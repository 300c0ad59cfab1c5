//! The seat of worker 1, cut off from the one seat of a run and taken in again.
//!
//! A seat commits by its first number, and lines are of worker 1, so the one seat of a run can't
//! serve them by itself. But a seat that is cut off knows nothing of what another may do meanwhile.
//! So it is cut off for a step and taken in again behind it: then the one seat, which has all
//! numbers, knows that nothing else happened.
ghost use Rattle.std.specs.Prelude.{◌≡◌};
ghost use Rattle.std.specs.Option.{option_or};
ghost use Rattle.bc_serve.specs.bc_deed.Begun.{HasJoined};
ghost use Rattle.bc_serve.specs.bc_hand.Seats.{Works, empty};
ghost use Rattle.bc_flush.specs.bc_request.Asked.{IsIdle};
ghost use Rattle.bc_cached_serve.specs.Worker.{IsReady, kept_seat, worker_seat};

use bc_disk::disk::Disk;
use bc_serve::bc_machine::machine::{CoreParts, CoreSeat};
use bc_serve::whole_run::WORKER;

// Cuts the seat of worker 1 off from the one seat of a run.
pub(crate) fn cut_off<C: Disk, B: Disk>(
    parts: &CoreParts<C, B>,
    seat: &mut CoreSeat<C, B>,
) -> CoreSeat<C, B>
    requires ready { IsReady C.facts B.facts parts.now seat.old }
    ensures kept { seat.new ≡ kept_seat C.facts B.facts seat.old }
    ensures new { result ≡ worker_seat C.facts B.facts seat.old }
    ensures works { Works C.facts B.facts parts.now seat.new empty }
    ensures idle { IsIdle C.facts B.facts parts.now result }
{
    parts.split(seat, WORKER)
}

// Takes it in again.
pub(crate) fn take_in<C: Disk, B: Disk>(
    parts: &CoreParts<C, B>,
    seat: &mut CoreSeat<C, B>,
    worker: CoreSeat<C, B>,
)
    requires works { Works C.facts B.facts parts.now seat.old empty }
    requires idle { IsIdle C.facts B.facts parts.now worker }
    requires next { worker.first ≡ seat.old.end }
    ensures works { Works C.facts B.facts parts.now seat.new empty }
    ensures joined { HasJoined C.facts B.facts seat.old worker seat.new }
    ensures heard { seat.new.heard ≡ option_or seat.old.heard worker.heard }
{
    parts.join(seat, worker);
}
