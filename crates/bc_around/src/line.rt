//! A line that is written past the cache, piece by piece.
ghost use Rattle.std.specs.Prelude.{◌≡◌, ◌+◌, ◌-◌, ◌≤◌, length, take, drop, MatchOption, IfOk, IfErr};
ghost use Rattle.bc_around.specs.Line.{HasNotWrittenLine, HasStoppedLine, HasWrittenSome, pieces_in};
ghost use Rattle.bc_around.specs.Past.{HasNotPassed, HasPassed};
ghost use Rattle.bc_flush.specs.bc_job.Asked.{IsFor, IsRange, line_of};
ghost use Rattle.bc_flush.specs.bc_request.Asked.{IsIdle};

use crate::past::{Past, PastError};
use crate::piece::write_piece;
use bc_disk::disk::Disk;
use bc_flush::bc_hand::error::StepError;
use bc_flush::bc_job::job::{Job, Piece};
use bc_flush::bc_machine::machine::{CoreParts, CoreSeat};
use bc_model::values::Values;
use bc_worker::gate::Gate;
use std::alloc::Global;
use std::sync::Wait;

/// Where a line stopped: the pieces before this one were written, and this came to another end.
#[derive(Clone, Copy, Debug, PartialEq, Eq, Drop)]
pub struct Stopped {
    pub piece: Piece,
    pub past: Past,
}

/// Why a line wasn't written. The pieces before the refused one stand.
#[derive(Clone, Copy, Debug, PartialEq, Eq, Drop)]
pub enum LineError {
    /// Its last sector lies behind the end. Nothing was done.
    OutOfRange,
    /// One of its pieces was refused.
    Piece(PastError),
}

// Writes the piece of a line: its values are those of its sectors among the line's.
fn write_at<C: Disk + Drop, B: Disk + Drop, R: Wait, G: Gate>(
    rt: &R,
    alloc: Global,
    parts: &CoreParts<C, B>,
    seat: &mut CoreSeat<C, B>,
    job: &Job,
    values: &Values,
    piece: Piece,
    gate: &G,
) -> Result<Past, PastError>
    requires idle { IsIdle C.facts B.facts parts.now seat.old }
    requires its { IsFor C.facts B.facts job.now seat.old }
    requires range { IsRange job.now }
    requires inside { job.now.first + job.now.count ≤ job.now.size }
    requires values { length values.now ≡ job.now.count }
    requires piece { (1 ≤ piece.count) × (job.now.first ≤ piece.first)
        × (piece.first + piece.count ≤ job.now.first + job.now.count) }
    ensures idle { IsIdle C.facts B.facts parts.now seat.new }
    ensures ok { IfOk result (λ past. HasPassed C.facts B.facts past parts.now job.now.force
        (line_of job.now) piece.first
        (take piece.count (drop (piece.first - job.now.first) values.now)) seat.old
        seat.new) }
    ensures err { IfErr result (λ error. HasNotPassed C.facts B.facts error parts.now job.now.force
        (line_of job.now) piece.first
        (take piece.count (drop (piece.first - job.now.first) values.now)) seat.old
        seat.new) }
{
    let of = job.of();
    // There are fewer than 2^32 values, and so are the sectors before the piece.
    let _all = values.len();
    let from = (piece.first - job.first) as u32;
    let Ok(part) = values.part(job.first, from, piece.count) else {
        return Err(PastError::Claim(StepError::Memory));
    };
    write_piece(
        rt,
        alloc,
        parts,
        seat,
        of,
        piece.first,
        &part,
        job.force,
        gate,
    )
}

/// Writes a line past the cache, piece by piece, each under an exclusive claim of its own. At
/// `Ok(None)` every piece has its entry in the history; a crash may still lose it until a flush
/// that begins later is done, unless the job is forced: then each piece was made durable before the
/// next one began. The first piece that isn't written ends the line, and the pieces before it
/// stand: a caller may serve that one another way, and go on behind it by a job for the rest.
///
/// `OutOfRange` comes exactly where the line's last sector isn't below the size.
pub fn write<C: Disk + Drop, B: Disk + Drop, R: Wait, G: Gate>(
    rt: &R,
    alloc: Global,
    parts: &CoreParts<C, B>,
    seat: &mut CoreSeat<C, B>,
    job: &Job,
    values: &Values,
    gate: &G,
) -> Result<Option<Stopped>, LineError>
    requires idle { IsIdle C.facts B.facts parts.now seat.old }
    requires its { IsFor C.facts B.facts job.now seat.old }
    requires range { IsRange job.now }
    requires values { length values.now ≡ job.now.count }
    ensures idle { IsIdle C.facts B.facts parts.now seat.new }
    ensures ok { IfOk result (λ stopped. MatchOption stopped
        (HasWrittenSome C.facts B.facts parts.now job.now values.now
        (pieces_in job.now) seat.old seat.new)
        (λ at. HasStoppedLine C.facts B.facts at parts.now job.now values.now seat.old
        seat.new)) }
    ensures err { IfErr result (λ error. HasNotWrittenLine C.facts B.facts error parts.now job.now
        values.now seat.old seat.new) }
{
    if job.is_outside() {
        return Err(LineError::OutOfRange);
    }
    for number in job.first_piece()..job.end_piece() {
        let piece = job.piece(number);
        let past = match write_at(rt, alloc, parts, seat, job, values, piece, gate) {
            Ok(past) => past,
            Err(error) => return Err(LineError::Piece(error)),
        };
        match past {
            Past::Written => {}
            Past::Cached => return Ok(Some(Stopped { piece, past })),
            Past::Waiting => return Ok(Some(Stopped { piece, past })),
        }
    }
    Ok(None)
}
