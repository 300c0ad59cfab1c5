//! One piece of a line, under one claim.
ghost use Rattle.std.specs.Prelude.{◌≡◌, ◌+◌, ◌<◌, ◌≤◌, ◌^◌, length, IfErr, IfOk};
ghost use Rattle.bc_stored.specs.bc_deed.Asked.{size_of};
ghost use Rattle.bc_stored.specs.bc_hand.Seats.{core, world};
ghost use Rattle.bc_stored.specs.bc_machine.Plain.{worker_of};
ghost use Rattle.bc_stored.specs.bc_machine.World.{FromEach, cache_among};
ghost use Rattle.bc_stored.specs.bc_place.Place.{HasBefore};
ghost use Rattle.bc_model.specs.Pieces.{piece_sectors};
ghost use Rattle.bc_request.specs.Asked.{IsIdle};
ghost use Rattle.bc_seats.specs.Seats.{Same};
ghost use Rattle.bc_write_back.specs.Piece.{HasNotPutPiece, HasPutPiece};

use crate::claimed::write_claimed;
use crate::error::{Put, WriteError};
use bc_disk::disk::Disk;
use bc_events::event::LineNumber;
use bc_flight::claim::Share;
use bc_model::values::Values;
use bc_request::bc_fetch::error::LeafError;
use bc_request::bc_job::bc_deed::claims::release;
use bc_request::bc_job::bc_deed::promise::promise;
use bc_request::bc_job::claims::claim_range;
use bc_stored::bc_hand::error::StepError;
use bc_stored::bc_hand::hand::Hand;
use bc_stored::bc_machine::machine::{CoreParts, CoreSeat};
use bc_worker::gate::Gate;
use std::alloc::Global;
use std::sync::Wait;

/// Writes values for a line into the cache, to the sectors of a piece from `first` on, under an
/// exclusive claim of them, for which the seat waits. The cache device has so many sectors, and
/// `before` buckets of it lie before the journal's.
///
/// `Written` says that the write stands in the history: who reads these sectors then finds the
/// values. `Lacks` says what had no room for it: once that was made, the piece can be written
/// again. Then, and after an error, nothing came into the index, the places are let go, and so is
/// the claim.
pub fn write_piece<C: Disk + Drop, B: Disk + Drop, R: Wait, G: Gate>(
    rt: &R,
    alloc: Global,
    parts: &CoreParts<C, B>,
    seat: &mut CoreSeat<C, B>,
    before: u32,
    sectors: u64,
    of: LineNumber,
    first: u64,
    values: &Values,
    gate: &G,
) -> Result<Put, WriteError>
    requires idle { IsIdle C.facts B.facts parts.now seat.old }
    requires before { FromEach (world C.facts B.facts seat.old) (HasBefore before) }
    requires sectors { sectors ≡ (cache_among C.facts B.facts parts.now.run.start).sectors }
    requires line { worker_of seat.old.first ≡ of.worker }
    requires some { 1 ≤ length values.now }
    requires piece { length values.now ≤ piece_sectors }
    requires range { first + length values.now < 2 ^ 64 }
    requires inside { first + length values.now ≤ size_of C.facts B.facts seat.old.run.start }
    ensures idle { IsIdle C.facts B.facts parts.now seat.new }
    ensures same { Same (core C.facts B.facts) seat.old seat.new }
    ensures before { FromEach (world C.facts B.facts seat.new) (HasBefore before) }
    ensures ok { IfOk result (λ put. HasPutPiece C.facts B.facts before sectors first values.now put
        of seat.old seat.new) }
    ensures err { IfErr result (λ error. HasNotPutPiece C.facts B.facts before sectors first
        values.now error seat.old seat.new) }
{
    let mut hand = Hand::empty();
    let hand = &mut hand;
    let count = values.len();
    let Ok(()) = promise(rt, parts, seat, hand, 4 * count + 4) else {
        return Err(WriteError::Leaf(LeafError::Step(StepError::Memory)));
    };
    let claim = match claim_range(rt, parts, seat, hand, first, count, Share::Exclusive) {
        Ok(claim) => claim,
        Err(error) => return Err(WriteError::Leaf(LeafError::Step(error))),
    };
    let written = write_claimed(
        rt, alloc, parts, seat, hand, before, sectors, of, first, values, gate,
    );
    release(rt, parts, seat, hand, claim);
    match written {
        Ok(put) => Ok(put),
        Err(error) => Err(error),
    }
}
