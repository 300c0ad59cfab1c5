//! Seats of a run.
ghost use Rattle.std.specs.Prelude.{◌≡◌, ◌<◌, ℕ, true, false, length, None, Some, IfErr, OnOk, OnErr};
ghost use Rattle.bc_parts.specs.Seat.{Holds};
ghost use Rattle.bc_events.specs.Columns.{outlasts_halt, halt_of};
ghost use Rattle.bc_machine.specs.World.{changes};
ghost use Rattle.bc_seats.specs.Seats.{Kept};
ghost use Rattle.bc_hand.specs.Seats.{core, by, IsCoreSeat, MayDo, Did};

use bc_disk::disk::{Device, Disk};
use bc_events::event::{Deed, Event};
use bc_machine::machine::{Core, CoreParts, CoreSeat};
use bc_seats::seats;
use std::sync::Wait;

/// Commits a deed of the seat, which may be done in each state in which that can be.
///
/// `Err` has the device that halted the run; then the deed is none that a halt lets through, and the
/// seat has only waited.
pub fn commit<C: Disk, B: Disk, R: Wait>(
    rt: &R,
    parts: &CoreParts<C, B>,
    seat: &mut CoreSeat<C, B>,
    deed: Deed,
) -> Result<(), Device>
    requires run { seat.old.run ≡ parts.now.run }
    requires seat { IsCoreSeat C.facts B.facts seat.old }
    requires promise { 0 < seat.old.promises }
    requires holds { (k : ℕ) → changes (length seat.old.run.start) (by seat.old.first deed) k ≡ true
        → Holds seat.old.parts k }
    requires may { MayDo C.facts B.facts seat.old deed }
    ensures kept { Kept (core C.facts B.facts) seat.old seat.new
        (changes (length seat.old.run.start) (by seat.old.first deed)) }
    ensures ok { OnOk result (Did C.facts B.facts (Some deed) seat.old seat.new) }
    ensures err { OnErr result (Did C.facts B.facts None seat.old seat.new) }
    ensures halted { IfErr result (λ device. halt_of seat.new.seen ≡ Some device) }
    ensures soon { OnErr result (outlasts_halt deed ≡ false) }
{
    let event = Event {
        seat: seat.number(),
        deed,
    };
    seats::commit(rt, parts, seat, event)
}
