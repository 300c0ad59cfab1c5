//! One piece of a request, under one claim.
ghost use Rattle.std.specs.Prelude.{◌≡◌, ◌+◌, ◌*◌, ◌<◌, ◌≤◌, ◌^◌, length, OnOk, IfErr};
ghost use Rattle.bc_job.specs.bc_deed.Asked.{size_of};
ghost use Rattle.bc_job.specs.bc_machine.Plain.{worker_of};
ghost use Rattle.bc_model.specs.Pieces.{piece_sectors};
ghost use Rattle.bc_model.specs.Sector.{values_of};
ghost use Rattle.bc_request.specs.Asked.{IsIdle};
ghost use Rattle.bc_request.specs.Piece.{HasNotReadPiece, HasReadPiece};

use bc_disk::disk::Disk;
use bc_events::event::LineNumber;
use bc_flight::claim::Share;
use bc_job::bc_deed::claims::release;
use bc_job::bc_deed::promise::promise;
use bc_job::bc_hand::error::StepError;
use bc_job::bc_hand::hand::Hand;
use bc_job::bc_machine::machine::{CoreParts, CoreSeat};
use bc_job::claims::claim_range;
use bc_reader::bc_fetch::error::LeafError;
use bc_reader::claimed::read_claimed;
use bc_reader::error::ReadError;
use bc_worker::gate::Gate;
use std::alloc::Global;
use std::sync::Wait;

/// Reads the sectors of a piece into `into` for a line, under a shared claim of them, for which the
/// seat waits. Data that is in the cache is read from there alone, unless the cache device fails to
/// give clean data: the backing device has that too.
///
/// After an error the line isn't answered, the claim is gone, and the bytes of `into` are any.
pub fn read_piece<C: Disk + Drop, B: Disk + Drop, R: Wait, G: Gate>(
    rt: &R,
    alloc: Global,
    parts: &CoreParts<C, B>,
    seat: &mut CoreSeat<C, B>,
    of: LineNumber,
    first: u64,
    count: u32,
    into: &mut [u8],
    gate: &G,
) -> Result<(), ReadError>
    requires idle { IsIdle C.facts B.facts parts.now seat.old }
    requires line { worker_of seat.old.first ≡ of.worker }
    requires some { 1 ≤ count }
    requires piece { count ≤ piece_sectors }
    requires length { length into.old ≡ 512 * count }
    requires range { first + count < 2 ^ 64 }
    requires inside { first + count ≤ size_of C.facts B.facts seat.old.run.start }
    ensures idle { IsIdle C.facts B.facts parts.now seat.new }
    ensures ok { OnOk result (HasReadPiece C.facts B.facts parts.now of first count
        (values_of into.new) seat.old seat.new) }
    ensures err { IfErr result (λ error. HasNotReadPiece C.facts B.facts parts.now first count error
        seat.old seat.new) }
{
    let mut hand = Hand::empty();
    let hand = &mut hand;
    let Ok(()) = promise(rt, parts, seat, hand, 7) else {
        return Err(ReadError::Leaf(LeafError::Step(StepError::Memory)));
    };
    let claim = match claim_range(rt, parts, seat, hand, first, count, Share::Shared) {
        Ok(claim) => claim,
        Err(error) => return Err(ReadError::Leaf(LeafError::Step(error))),
    };
    let read = read_claimed(rt, alloc, parts, seat, hand, of, first, count, into, gate);
    release(rt, parts, seat, hand, claim);
    match read {
        Ok(()) => Ok(()),
        Err(error) => Err(error),
    }
}
