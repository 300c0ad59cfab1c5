//! Reads of lines.
ghost use Rattle.std.specs.Prelude.{◌≡◌, ◌+◌, ◌*◌, ◌/◌, ◌<◌, ◌≤◌, ◌^◌, List, ◌++◌, length, OnOk, IfOk, IfErr};
ghost use Rattle.bc_job.specs.bc_deed.Asked.{size_of};
ghost use Rattle.bc_job.specs.Asked.{IsFor, IsRange};
ghost use Rattle.bc_job.specs.bc_machine.Plain.{worker_of};
ghost use Rattle.bc_model.specs.Pieces.{piece_sectors};
ghost use Rattle.bc_model.specs.Sector.{Value, sectors, values_of};
ghost use Rattle.bc_request.specs.Asked.{IsIdle};
ghost use Rattle.bc_request.specs.Line.{HasNotReadLine, HasReadLine, HasRefusedPiece};
ghost use Rattle.bc_request.specs.Piece.{HasReadPiece};

use crate::error::{RequestError, refusal};
use crate::piece::read_piece;
use bc_disk::disk::Disk;
use bc_events::event::LineNumber;
use bc_job::bc_machine::machine::{CoreParts, CoreSeat};
use bc_job::job::{Job, Piece};
use bc_model::values::Values;
use bc_worker::gate::Gate;
use std::alloc::Global;
use std::sync::Wait;

// Reads the piece for a line into the bytes behind the first `place` sectors, which stay.
fn read_at<C: Disk + Drop, B: Disk + Drop, R: Wait, G: Gate>(
    rt: &R,
    alloc: Global,
    parts: &CoreParts<C, B>,
    seat: &mut CoreSeat<C, B>,
    of: LineNumber,
    piece: Piece,
    bytes: &mut [u8],
    place: usize,
    gate: &G,
) -> Result<(), RequestError>
    requires idle { IsIdle C.facts B.facts parts.now seat.old }
    requires line { worker_of seat.old.first ≡ of.worker }
    requires some { 1 ≤ piece.count }
    requires few { piece.count ≤ piece_sectors }
    requires range { piece.first + piece.count < 2 ^ 64 }
    requires inside { piece.first + piece.count ≤ size_of C.facts B.facts seat.old.run.start }
    requires place { 512 * (place + piece.count) ≤ length bytes.old }
    ensures idle { IsIdle C.facts B.facts parts.now seat.new }
    ensures ok { OnOk result ((own : List Value) × (length own ≡ piece.count)
        × (sectors (place + piece.count) bytes.new ≡ sectors place bytes.old ++ own)
        × HasReadPiece C.facts B.facts parts.now of piece.first piece.count own seat.old seat.new) }
    ensures err { IfErr result (λ error. HasRefusedPiece C.facts B.facts parts.now piece.first
        piece.count error seat.old seat.new) }
{
    let from = 512 * place;
    let into = &mut bytes[from..from + 512 * piece.count as usize];
    match read_piece(
        rt,
        alloc,
        parts,
        seat,
        of,
        piece.first,
        piece.count,
        into,
        gate,
    ) {
        Ok(()) => Ok(()),
        Err(error) => Err(refusal(error)),
    }
}

// Reads the pieces of a line in order, one behind the other in the bytes.
fn read_pieces<C: Disk + Drop, B: Disk + Drop, R: Wait, G: Gate>(
    rt: &R,
    alloc: Global,
    parts: &CoreParts<C, B>,
    seat: &mut CoreSeat<C, B>,
    job: &Job,
    bytes: &mut [u8],
    gate: &G,
) -> Result<(), RequestError>
    requires idle { IsIdle C.facts B.facts parts.now seat.old }
    requires its { IsFor C.facts B.facts job.now seat.old }
    requires range { IsRange job.now }
    requires inside { job.now.first + job.now.count ≤ job.now.size }
    requires length { length bytes.old ≡ 512 * job.now.count }
    ensures idle { IsIdle C.facts B.facts parts.now seat.new }
    ensures ok { OnOk result (HasReadLine C.facts B.facts parts.now job.now (values_of bytes.new)
        seat.old seat.new) }
    ensures err { IfErr result (λ error. HasNotReadLine C.facts B.facts parts.now error job.now
        seat.old seat.new) }
{
    for number in job.first_piece()..job.end_piece() {
        let piece = job.piece(number);
        let place = (piece.first - job.first) as usize;
        match read_at(rt, alloc, parts, seat, job.of(), piece, bytes, place, gate) {
            Ok(()) => {}
            Err(error) => return Err(error),
        }
    }
    Ok(())
}

/// Serves the read of a line: the values of its sectors, piece by piece. Each piece is read under a
/// shared claim of its own, for which the seat waits, and answered by itself. The first refused
/// piece ends the line, and the pieces before it stand in the history.
///
/// `OutOfRange` comes exactly where the line's last sector isn't below the size. All other refusals
/// are those of a piece, but for want of memory for the line's bytes, which comes before any.
pub fn read<C: Disk + Drop, B: Disk + Drop, R: Wait, G: Gate>(
    rt: &R,
    alloc: Global,
    parts: &CoreParts<C, B>,
    seat: &mut CoreSeat<C, B>,
    job: &Job,
    gate: &G,
) -> Result<Values, RequestError>
    requires idle { IsIdle C.facts B.facts parts.now seat.old }
    requires its { IsFor C.facts B.facts job.now seat.old }
    requires range { IsRange job.now }
    ensures idle { IsIdle C.facts B.facts parts.now seat.new }
    ensures count { IfOk result (λ values. length values ≡ job.now.count) }
    ensures ok { IfOk result (λ values. HasReadLine C.facts B.facts parts.now job.now values
        seat.old seat.new) }
    ensures err { IfErr result (λ error. HasNotReadLine C.facts B.facts parts.now error job.now
        seat.old seat.new) }
{
    if job.is_outside() {
        return Err(RequestError::OutOfRange);
    }
    let Ok(mut bytes) = vec![in alloc; 0; 512 * job.count as usize] else {
        return Err(RequestError::Memory);
    };
    match read_pieces(rt, alloc, parts, seat, job, &mut bytes, gate) {
        Ok(()) => Ok(Values::from_sectors(job.first, bytes)),
        Err(error) => Err(error),
    }
}
