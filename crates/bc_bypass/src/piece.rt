//! A piece of a write past the cache, whatever clean keys stand over it.
ghost use Rattle.std.specs.Prelude.{◌≡◌, ◌+◌, ◌<◌, ◌≤◌, ◌^◌, length, IfErr, IfOk};
ghost use Rattle.bc_bypass.specs.Piece.{HasBypassed, HasNotBypassed};
ghost use Rattle.bc_write_back.specs.bc_deed.Asked.{size_of};
ghost use Rattle.bc_write_back.specs.bc_machine.Plain.{worker_of};
ghost use Rattle.bc_write_back.specs.bc_request.Asked.{IsIdle};

use crate::error::{BypassError, Bypassed, Invalidated};
use crate::invalidate::invalidate;
use bc_around::past::Past;
use bc_around::piece::write_piece;
use bc_disk::disk::Disk;
use bc_events::event::LineNumber;
use bc_model::values::Values;
use bc_worker::gate::Gate;
use bc_write_back::bc_machine::machine::{CoreParts, CoreSeat};
use std::alloc::Global;
use std::sync::Wait;

/// Writes the values of a piece for a line to the backing device, under an exclusive claim of its
/// sectors, and where that is forced makes them durable. Where keys stand over the sectors they are
/// taken away first, if none of them is dirty, and then it is tried once more.
///
/// But for `Written` nothing of it was written, and the answer says why. What was done about keys
/// stands each time: a crash shows of these sectors what it would have shown without.
pub fn bypass_piece<C: Disk + Drop, B: Disk + Drop, R: Wait, G: Gate>(
    rt: &R,
    alloc: Global,
    parts: &CoreParts<C, B>,
    seat: &mut CoreSeat<C, B>,
    of: LineNumber,
    first: u64,
    values: &Values,
    force: bool,
    gate: &G,
) -> Result<Bypassed, BypassError>
    requires idle { IsIdle C.facts B.facts parts.now seat.old }
    requires line { worker_of seat.old.first ≡ of.worker }
    requires some { 1 ≤ length values.now }
    requires range { first + length values.now < 2 ^ 64 }
    requires inside { first + length values.now ≤ size_of C.facts B.facts seat.old.run.start }
    ensures idle { IsIdle C.facts B.facts parts.now seat.new }
    ensures ok { IfOk result (λ what. HasBypassed C.facts B.facts parts.now force of first
        values.now what seat.old seat.new) }
    ensures err { IfErr result (λ error. HasNotBypassed C.facts B.facts parts.now force of first
        values.now error seat.old seat.new) }
{
    match write_piece(rt, alloc, parts, seat, of, first, values, force, gate) {
        Ok(Past::Written) => return Ok(Bypassed::Written),
        Ok(Past::Waiting) => return Ok(Bypassed::Waiting),
        Ok(Past::Cached) => {}
        Err(error) => return Err(BypassError::Past(error)),
    }
    match invalidate(rt, alloc, parts, seat, first, values.len(), gate) {
        Ok(Invalidated::Gone) => {}
        Ok(Invalidated::Dirty) => return Ok(Bypassed::Dirty),
        Ok(Invalidated::Lacks(lack)) => return Ok(Bypassed::Lacks(lack)),
        Err(error) => return Err(BypassError::Keys(error)),
    }
    match write_piece(rt, alloc, parts, seat, of, first, values, force, gate) {
        Ok(Past::Written) => Ok(Bypassed::Written),
        Ok(Past::Waiting) => Ok(Bypassed::Waiting),
        Ok(Past::Cached) => Ok(Bypassed::Cached),
        Err(error) => Err(BypassError::Past(error)),
    }
}
