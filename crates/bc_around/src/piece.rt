//! A piece of a write past the cache, from its claim to its release.
ghost use Rattle.std.specs.Prelude.{◌≡◌, ◌+◌, ◌<◌, ◌≤◌, ◌^◌, length, OnOk, IfOk, IfErr};
ghost use Rattle.bc_around.specs.Past.{HasNotPassed, HasNotTried, HasPassed, HasTried};
ghost use Rattle.bc_flush.specs.bc_deed.Asked.{size_of};
ghost use Rattle.bc_flush.specs.Sync.{HasNotSynced, HasSynced};
ghost use Rattle.bc_flush.specs.bc_machine.Plain.{worker_of};
ghost use Rattle.bc_flush.specs.bc_machine.World.{cache_among};
ghost use Rattle.bc_flush.specs.bc_request.Asked.{IsIdle};

use crate::past::{Past, PastError};
use crate::under::write_past;
use crate::write::bytes_of;
use bc_disk::disk::Disk;
use bc_events::event::LineNumber;
use bc_flight::claim::Share;
use bc_flush::bc_deed::claims::release;
use bc_flush::bc_deed::promise::promise;
use bc_flush::bc_hand::error::StepError;
use bc_flush::bc_hand::hand::Hand;
use bc_flush::bc_job::claims::claim_range;
use bc_flush::bc_machine::machine::{CoreParts, CoreSeat};
use bc_flush::error::FlushError;
use bc_flush::sync::sync_journal;
use bc_model::values::Values;
use bc_worker::gate::Gate;
use std::alloc::Global;
use std::sync::Wait;

/// For how many deeds a try takes room, and an entry of the journal.
const TRY: u32 = 7;

const ENTRY: u32 = 5;

/// Writes the values of a piece for a line past the cache, under an exclusive claim of its sectors,
/// for which the seat waits, and where that is forced makes them durable before the claim goes.
/// Nothing is written where a key stands over one of the sectors, or where keys wait for an entry
/// of the journal: a crash may leave an index without them, and what that shows isn't known here.
///
/// All memory is taken before the claim but for what a leaf takes that no slot has.
pub fn try_piece<C: Disk + Drop, B: Disk + Drop, R: Wait, G: Gate>(
    rt: &R,
    alloc: Global,
    parts: &CoreParts<C, B>,
    seat: &mut CoreSeat<C, B>,
    of: LineNumber,
    first: u64,
    values: &Values,
    force: bool,
    gate: &G,
) -> Result<Past, PastError>
    requires idle { IsIdle C.facts B.facts parts.now seat.old }
    requires line { worker_of seat.old.first ≡ of.worker }
    requires some { 1 ≤ length values.now }
    requires range { first + length values.now < 2 ^ 64 }
    requires inside { first + length values.now ≤ size_of C.facts B.facts seat.old.run.start }
    ensures idle { IsIdle C.facts B.facts parts.now seat.new }
    ensures ok { IfOk result (λ past. HasTried C.facts B.facts past parts.now force of first
        values.now seat.old seat.new) }
    ensures err { IfErr result (λ error. HasNotTried C.facts B.facts error parts.now force of first
        values.now seat.old seat.new) }
{
    let mut hand = Hand::empty();
    let hand = &mut hand;
    let Ok(own) = values.copy() else {
        return Err(PastError::Claim(StepError::Memory));
    };
    let Some(bytes) = bytes_of(alloc, values) else {
        return Err(PastError::Claim(StepError::Memory));
    };
    let Ok(()) = promise(rt, parts, seat, hand, TRY) else {
        return Err(PastError::Claim(StepError::Memory));
    };
    let count = values.len();
    let claim = match claim_range(rt, parts, seat, hand, first, count, Share::Exclusive) {
        Ok(claim) => claim,
        Err(error) => return Err(PastError::Claim(error)),
    };
    let tried = write_past(
        rt, alloc, parts, seat, hand, of, first, own, &bytes, force, gate,
    );
    release(rt, parts, seat, hand, claim);
    tried
}

// Puts the keys that wait into an entry, with room for its deeds.
fn make_durable<C: Disk + Drop, B: Disk + Drop, R: Wait>(
    rt: &R,
    alloc: Global,
    parts: &CoreParts<C, B>,
    seat: &mut CoreSeat<C, B>,
) -> Result<(), FlushError>
    requires idle { IsIdle C.facts B.facts parts.now seat.old }
    ensures idle { IsIdle C.facts B.facts parts.now seat.new }
    ensures ok { OnOk result (HasSynced C.facts B.facts seat.old seat.new) }
    ensures err { IfErr result (λ error. HasNotSynced C.facts B.facts
        (cache_among C.facts B.facts parts.now.run.start).sectors error seat.old
        seat.new) }
{
    let mut hand = Hand::empty();
    let Ok(()) = promise(rt, parts, seat, &mut hand, ENTRY) else {
        return Err(FlushError::Memory);
    };
    sync_journal(rt, alloc, parts, seat)
}

/// Writes a piece as `try_piece` does, and where keys wait puts them into an entry and tries once
/// more. So `Waiting` says that keys came in behind that entry.
pub fn write_piece<C: Disk + Drop, B: Disk + Drop, R: Wait, G: Gate>(
    rt: &R,
    alloc: Global,
    parts: &CoreParts<C, B>,
    seat: &mut CoreSeat<C, B>,
    of: LineNumber,
    first: u64,
    values: &Values,
    force: bool,
    gate: &G,
) -> Result<Past, PastError>
    requires idle { IsIdle C.facts B.facts parts.now seat.old }
    requires line { worker_of seat.old.first ≡ of.worker }
    requires some { 1 ≤ length values.now }
    requires range { first + length values.now < 2 ^ 64 }
    requires inside { first + length values.now ≤ size_of C.facts B.facts seat.old.run.start }
    ensures idle { IsIdle C.facts B.facts parts.now seat.new }
    ensures ok { IfOk result (λ past. HasPassed C.facts B.facts past parts.now force of first
        values.now seat.old seat.new) }
    ensures err { IfErr result (λ error. HasNotPassed C.facts B.facts error parts.now force of first
        values.now seat.old seat.new) }
{
    let tried = match try_piece(rt, alloc, parts, seat, of, first, values, force, gate) {
        Ok(tried) => tried,
        Err(error) => return Err(error),
    };
    match tried {
        Past::Waiting => {}
        Past::Written => return Ok(Past::Written),
        Past::Cached => return Ok(Past::Cached),
    }
    match make_durable(rt, alloc, parts, seat) {
        Ok(()) => {}
        Err(error) => return Err(PastError::Journal(error)),
    }
    try_piece(rt, alloc, parts, seat, of, first, values, force, gate)
}
