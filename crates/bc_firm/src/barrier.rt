//! The step that makes candidates firm.
ghost use Rattle.std.specs.Prelude.{◌≡◌, ◌<◌, None, IfErr, IfOk};
ghost use Rattle.bc_deed.specs.Asked.{HasFailed};
ghost use Rattle.bc_deed.specs.bc_hand.Seats.{HasNoneBehindFlight, Works, kinds};
ghost use Rattle.bc_disk.specs.declared.disk.Device.{Device};
ghost use Rattle.bc_events.specs.declared.event.Deed.{Deed};
ghost use Rattle.bc_events.specs.declared.event.Failure.{Failure};
ghost use Rattle.bc_firm.specs.Firm.{HasMadeFirm};

use bc_deed::backing::backing_barrier;
use bc_deed::bc_hand::error::StepError;
use bc_deed::bc_hand::hand::{Hand, borrow_flight, return_flight};
use bc_deed::bc_machine::machine::{CoreParts, CoreSeat};
use bc_disk::disk::Disk;
use std::sync::Wait;

/// Makes a barrier of the backing device, and answers a number: the candidates below it are firm
/// then. All that the seat had seen noted are among them.
pub fn make_firm<C: Disk + Drop, B: Disk + Drop, R: Wait>(
    rt: &R,
    parts: &CoreParts<C, B>,
    seat: &mut CoreSeat<C, B>,
    hand: &mut Hand<C, B>,
) -> Result<u64, StepError>
    requires works { Works C.facts B.facts parts.now seat.old hand.old }
    requires order { hand.old.flight ≡ None → HasNoneBehindFlight hand.old }
    requires promise { 0 < seat.old.promises }
    ensures works { Works C.facts B.facts parts.now seat.new hand.new }
    ensures hand { kinds hand.new ≡ kinds hand.old }
    ensures ok { IfOk result (λ n. HasMadeFirm C.facts B.facts n seat.old seat.new) }
    ensures err { IfErr result (λ error. HasFailed C.facts B.facts error
        (Deed.DeviceFault (Failure.Barrier Device.Backing)) seat.old seat.new) }
{
    let (flight, taken) = borrow_flight(rt, parts, seat, hand);
    let before = flight.next();
    return_flight(parts, seat, hand, flight, taken);
    match backing_barrier(rt, parts, seat, hand) {
        Ok(()) => Ok(before),
        Err(error) => Err(error),
    }
}
