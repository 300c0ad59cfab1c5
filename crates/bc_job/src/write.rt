//! Writes.
ghost use Rattle.std.specs.Prelude.{◌≡◌, ◌+◌, ◌-◌, ◌≤◌, length, take, drop, OnOk, IfErr};
ghost use Rattle.bc_deed.specs.Flushed.{HasDone};
ghost use Rattle.bc_job.specs.Asked.{IsFor, IsReady, IsRange, line_of};
ghost use Rattle.bc_job.specs.Deeds.{WriteStop, write_deeds};
ghost use Rattle.bc_job.specs.Requests.{HasNotWritten, HasStoppedBy, HasWritten};

use crate::error::RequestError;
use crate::job::{Job, Piece};
use crate::piece::write_piece;
use crate::stock::Stock;
use bc_deed::bc_machine::machine::{CoreParts, CoreSeat};
use bc_disk::disk::Disk;
use bc_model::values::Values;
use bc_worker::gate::Gate;
use std::alloc::Global;
use std::sync::Wait;

// Writes the piece of a line: its values are those of its sectors among the line's. Those of the
// whole line are written as they are.
fn write_at<C: Disk + Drop, B: Disk + Drop, R: Wait>(
    rt: &R,
    alloc: Global,
    parts: &CoreParts<C, B>,
    seat: &mut CoreSeat<C, B>,
    stock: &mut Stock<C, B>,
    job: &Job,
    values: &Values,
    piece: Piece,
) -> Result<(), RequestError>
    requires ready { IsReady C.facts B.facts parts.now seat.old stock.old }
    requires its { IsFor C.facts B.facts job.now seat.old }
    requires range { IsRange job.now }
    requires inside { job.now.first + job.now.count ≤ job.now.size }
    requires values { length values.now ≡ job.now.count }
    requires piece { (1 ≤ piece.count) × (job.now.first ≤ piece.first)
        × (piece.first + piece.count ≤ job.now.first + job.now.count) }
    ensures ready { IsReady C.facts B.facts parts.now seat.new stock.new }
    ensures ok { OnOk result (HasDone C.facts B.facts (write_deeds job.now.force (line_of job.now)
        piece.first (take piece.count (drop (piece.first - job.now.first) values.now)))
        seat.old seat.new) }
    ensures err { IfErr result (λ error. HasStoppedBy C.facts B.facts error
        (WriteStop error job.now.force (line_of job.now) piece.first
        (take piece.count (drop (piece.first - job.now.first) values.now))) seat.old seat.new) }
{
    let of = job.of();
    let first = piece.first;
    if piece.count == values.len() {
        return write_piece(rt, alloc, parts, seat, stock, of, first, values, job.force);
    }
    let from = (first - job.first) as u32;
    let Ok(part) = values.part(job.first, from, piece.count) else {
        return Err(RequestError::Memory);
    };
    write_piece(rt, alloc, parts, seat, stock, of, first, &part, job.force)
}

/// Serves the write of a line, piece by piece, each under an exclusive claim. At `Ok` every piece
/// has its entry in the history; a crash may still lose it until a flush that begins later is done,
/// unless the job is forced: then each piece was made durable by a barrier of its own before the
/// next one began. The first refused piece ends the line, and the pieces before it stand.
pub fn write<C: Disk + Drop, B: Disk + Drop, R: Wait, G: Gate>(
    rt: &R,
    alloc: Global,
    parts: &CoreParts<C, B>,
    seat: &mut CoreSeat<C, B>,
    stock: &mut Stock<C, B>,
    job: &Job,
    values: &Values,
    _gate: &G,
) -> Result<(), RequestError>
    requires ready { IsReady C.facts B.facts parts.now seat.old stock.old }
    requires its { IsFor C.facts B.facts job.now seat.old }
    requires range { IsRange job.now }
    requires values { length values.now ≡ job.now.count }
    ensures ready { IsReady C.facts B.facts parts.now seat.new stock.new }
    ensures ok { OnOk result (HasWritten C.facts B.facts job.now values.now seat.old seat.new) }
    ensures err { IfErr result (λ error. HasNotWritten C.facts B.facts error job.now values.now
        seat.old seat.new) }
{
    if job.is_outside() {
        return Err(RequestError::OutOfRange);
    }
    for number in job.first_piece()..job.end_piece() {
        let piece = job.piece(number);
        match write_at(rt, alloc, parts, seat, stock, job, values, piece) {
            Ok(()) => {}
            Err(error) => return Err(error),
        }
    }
    Ok(())
}
