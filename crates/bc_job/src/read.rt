//! Reads.
ghost use Rattle.std.specs.Prelude.{◌≡◌, ◌+◌, ◌*◌, ◌/◌, ◌<◌, ◌≤◌, ◌^◌, List, ◌++◌, length, [], MatchOption, OnOk, IfOk, IfErr};
ghost use Rattle.bc_model.specs.Sector.{Value, sectors, values_of};
ghost use Rattle.bc_deed.specs.bc_machine.Plain.{worker_of};
ghost use Rattle.bc_deed.specs.Asked.{size_of};
ghost use Rattle.bc_deed.specs.Flushed.{HasDone};
ghost use Rattle.bc_job.specs.Asked.{IsFor, IsReady, IsRange};
ghost use Rattle.bc_job.specs.Deeds.{ReadStop, read_deeds};
ghost use Rattle.bc_job.specs.Requests.{HasNotRead, HasRead, HasStoppedBy};

use crate::error::RequestError;
use crate::job::{Job, Piece};
use crate::piece::read_piece;
use crate::stock::Stock;
use bc_deed::bc_machine::machine::{CoreParts, CoreSeat};
use bc_disk::disk::Disk;
use bc_events::event::LineNumber;
use bc_model::values::Values;
use bc_worker::gate::Gate;
use std::alloc::Global;
use std::sync::Wait;

// Reads the piece for a line into the bytes behind the first `place` sectors, which stay, and
// answers its values.
fn read_at<C: Disk + Drop, B: Disk + Drop, R: Wait, G: Gate>(
    rt: &R,
    alloc: Global,
    parts: &CoreParts<C, B>,
    seat: &mut CoreSeat<C, B>,
    stock: &mut Stock<C, B>,
    of: LineNumber,
    piece: Piece,
    bytes: &mut [u8],
    place: usize,
    gate: &G,
) -> Result<Values, RequestError>
    requires ready { IsReady C.facts B.facts parts.now seat.old stock.old }
    requires line { worker_of seat.old.first ≡ of.worker }
    requires some { 1 ≤ piece.count }
    requires range { piece.first + piece.count < 2 ^ 64 }
    requires inside { piece.first + piece.count ≤ size_of C.facts B.facts seat.old.run.start }
    requires place { 512 * (place + piece.count) ≤ length bytes.old }
    ensures ready { IsReady C.facts B.facts parts.now seat.new stock.new }
    ensures ok { OnOk result ((own : List Value) × (length own ≡ piece.count)
        × (sectors (place + piece.count) bytes.new ≡ sectors place bytes.old ++ own)
        × HasDone C.facts B.facts (read_deeds of piece.first piece.count own) seat.old seat.new) }
    ensures values { IfOk result (λ own. sectors (place + piece.count) bytes.new
        ≡ sectors place bytes.old ++ own) }
    ensures err { IfErr result (λ error. HasStoppedBy C.facts B.facts error
        (ReadStop error piece.first piece.count) seat.old seat.new) }
{
    let from = 512 * place;
    let into = &mut bytes[from..from + 512 * piece.count as usize];
    match read_piece(
        rt,
        alloc,
        parts,
        seat,
        stock,
        of,
        piece.first,
        piece.count,
        into,
        gate,
    ) {
        Ok(own) => Ok(own),
        Err(error) => Err(error),
    }
}

// Reads the pieces of a line in order, one behind the other in the bytes. Answers the values of the
// last one.
fn read_pieces<C: Disk + Drop, B: Disk + Drop, R: Wait, G: Gate>(
    rt: &R,
    alloc: Global,
    parts: &CoreParts<C, B>,
    seat: &mut CoreSeat<C, B>,
    stock: &mut Stock<C, B>,
    job: &Job,
    bytes: &mut [u8],
    gate: &G,
) -> Result<Option<Values>, RequestError>
    requires ready { IsReady C.facts B.facts parts.now seat.old stock.old }
    requires its { IsFor C.facts B.facts job.now seat.old }
    requires range { IsRange job.now }
    requires inside { job.now.first + job.now.count ≤ job.now.size }
    requires length { length bytes.old ≡ 512 * job.now.count }
    ensures ready { IsReady C.facts B.facts parts.now seat.new stock.new }
    ensures ok { OnOk result (HasRead C.facts B.facts job.now (values_of bytes.new)
        seat.old seat.new) }
    ensures last { IfOk result (λ last. MatchOption last (values_of bytes.new ≡ [])
        (λ own. (before : List Value) × (1 ≤ length own) × (values_of bytes.new ≡ before ++ own))) }
    ensures err { IfErr result (λ error. HasNotRead C.facts B.facts error job.now
        seat.old seat.new) }
{
    let mut last = None;
    for number in job.first_piece()..job.end_piece() {
        let piece = job.piece(number);
        let place = (piece.first - job.first) as usize;
        match read_at(
            rt,
            alloc,
            parts,
            seat,
            stock,
            job.of(),
            piece,
            bytes,
            place,
            gate,
        ) {
            Ok(own) => last = Some(own),
            Err(error) => return Err(error),
        }
    }
    Ok(last)
}

// The values of a line's bytes, where these are those of its last piece. They aren't judged again
// where that is all of the line.
fn values_with(first: u64, bytes: Vec<u8>, last: Option<Values>) -> Values
    requires whole { length bytes.items ≡ 512 * (length bytes.items / 512) }
    requires few { length bytes.items / 512 < 2 ^ 32 }
    requires range { first + length bytes.items / 512 ≤ 2 ^ 64 }
    requires last { MatchOption last (values_of bytes.items ≡ []) (λ own. (before : List Value)
        × (1 ≤ length own) × (values_of bytes.items ≡ before ++ own)) }
    ensures { result ≡ values_of bytes.items }
{
    match last {
        Some(own) if own.len() as usize == bytes.len() / 512 => own,
        _ => Values::from_sectors(first, bytes),
    }
}

// Reads a line of a single sector, for whose bytes no memory is asked.
fn read_one<C: Disk + Drop, B: Disk + Drop, R: Wait, G: Gate>(
    rt: &R,
    alloc: Global,
    parts: &CoreParts<C, B>,
    seat: &mut CoreSeat<C, B>,
    stock: &mut Stock<C, B>,
    job: &Job,
    gate: &G,
) -> Result<Values, RequestError>
    requires ready { IsReady C.facts B.facts parts.now seat.old stock.old }
    requires its { IsFor C.facts B.facts job.now seat.old }
    requires range { IsRange job.now }
    requires inside { job.now.first + job.now.count ≤ job.now.size }
    requires one { job.now.count ≡ 1 }
    ensures ready { IsReady C.facts B.facts parts.now seat.new stock.new }
    ensures count { IfOk result (λ values. length values ≡ job.now.count) }
    ensures ok { IfOk result (λ values. HasRead C.facts B.facts job.now values seat.old seat.new) }
    ensures err { IfErr result (λ error. HasNotRead C.facts B.facts error job.now
        seat.old seat.new) }
{
    let mut sector = [0; 512];
    match read_pieces(rt, alloc, parts, seat, stock, job, &mut sector, gate) {
        Ok(Some(values)) => Ok(values),
        Ok(None) => unreachable!(),
        Err(error) => Err(error),
    }
}

/// Serves the read of a line: the values of its sectors, piece by piece. Each piece is read under a
/// shared claim, by one call of the device, and gives what the last write before it in the history
/// left. The first refused piece ends the line, and the pieces before it stand in the history.
pub fn read<C: Disk + Drop, B: Disk + Drop, R: Wait, G: Gate>(
    rt: &R,
    alloc: Global,
    parts: &CoreParts<C, B>,
    seat: &mut CoreSeat<C, B>,
    stock: &mut Stock<C, B>,
    job: &Job,
    gate: &G,
) -> Result<Values, RequestError>
    requires ready { IsReady C.facts B.facts parts.now seat.old stock.old }
    requires its { IsFor C.facts B.facts job.now seat.old }
    requires range { IsRange job.now }
    ensures ready { IsReady C.facts B.facts parts.now seat.new stock.new }
    ensures count { IfOk result (λ values. length values ≡ job.now.count) }
    ensures ok { IfOk result (λ values. HasRead C.facts B.facts job.now values seat.old seat.new) }
    ensures err { IfErr result (λ error. HasNotRead C.facts B.facts error job.now
        seat.old seat.new) }
{
    if job.is_outside() {
        return Err(RequestError::OutOfRange);
    }
    if job.count == 1 {
        return read_one(rt, alloc, parts, seat, stock, job, gate);
    }
    let Ok(mut bytes) = vec![in alloc; 0; 512 * job.count as usize] else {
        return Err(RequestError::Memory);
    };
    match read_pieces(rt, alloc, parts, seat, stock, job, &mut bytes, gate) {
        Ok(last) => Ok(values_with(job.first, bytes, last)),
        Err(error) => Err(error),
    }
}
