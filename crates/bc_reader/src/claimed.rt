//! The read of a claim.
ghost use Rattle.std.specs.Prelude.{◌≡◌, ◌+◌, ◌*◌, ◌/◌, ◌<◌, ◌≤◌, ◌^◌, All, false, None, Some, MatchBool, OnOk, OnErr, IfErr, IfOk, length};
ghost use Rattle.bc_fetch.specs.bc_deed.Asked.{IsHaltedOr, IsWithin, size_of};
ghost use Rattle.bc_events.specs.declared.event.Deed.{Deed};
ghost use Rattle.bc_fetch.specs.declared.error.LeafError.{LeafError};
ghost use Rattle.bc_fetch.specs.bc_hand.Seats.{Did, View, Works, empty, note};
ghost use Rattle.bc_fetch.specs.bc_machine.Plain.{worker_of};
ghost use Rattle.bc_fetch.specs.bc_machine.World.{are_plain, cache_among};
ghost use Rattle.bc_model.specs.Pieces.{piece_sectors};
ghost use Rattle.bc_model.specs.Sector.{values_of};
ghost use Rattle.bc_reader.specs.Claimed.{HasAnswered, HasAnsweredAtOnce, HasNotAnswered, HasLeft, HasReadSeen, HasStoppedAtOnce, HasTriedOnce, MayAnswerWith};
ghost use Rattle.bc_reader.specs.Known.{IsSameButDevices};
ghost use Rattle.bc_reader.specs.Look.{HasBuckets, HasSeen, IsOver};
ghost use Rattle.bc_reader.specs.Noted.{IsUnchanged};
ghost use Rattle.bc_reader.specs.Runs.{LieWithin};
ghost use Rattle.bc_reader.specs.declared.error.ReadError.{ReadError};

use crate::error::{ReadError, of_step};
use crate::look::{Seen, give_buckets, look_at, take_buckets};
use crate::noted::{Noted, are_unchanged};
use crate::runs::read_runs;
use bc_disk::disk::Disk;
use bc_events::event::LineNumber;
use bc_fetch::bc_hand::error::StepError;
use bc_fetch::bc_hand::hand::Hand;
use bc_fetch::bc_machine::machine::{CoreParts, CoreSeat};
use bc_model::values::Values;
use bc_reads::bc_sight::answer::answer;
use bc_worker::gate::Gate;
use std::alloc::Global;
use std::sync::Wait;

// Whether no noted bucket was used anew, as those in hand tell.
fn is_current<C, B>(hand: &Hand<C, B>, noted: &[Noted]) -> bool
    requires { HasBuckets hand.now }
    ensures { (b : HasBuckets hand.now) → MatchBool result
        (All (IsUnchanged b.part.buckets) noted.now)
        (¬ (All (IsUnchanged b.part.buckets) noted.now)) }
{
    let Some(part) = &hand.buckets else {
        unreachable!()
    };
    are_unchanged(noted, &part.get().buckets)
}

// Answers a line with the bytes that were read since a look, none of which is out of date.
fn answer_with<C: Disk + Drop, B: Disk + Drop, R: Wait>(
    rt: &R,
    alloc: Global,
    parts: &CoreParts<C, B>,
    seat: &mut CoreSeat<C, B>,
    hand: &mut Hand<C, B>,
    of: LineNumber,
    first: u64,
    bytes: &[u8],
) -> Result<(), StepError>
    requires works { Works C.facts B.facts parts.now seat.old hand.old }
    requires cached { are_plain C.facts B.facts parts.now.run.start ≡ false }
    requires promise { 0 < seat.old.promises }
    requires line { worker_of seat.old.first ≡ of.worker }
    requires few { length bytes.now / 512 < 2 ^ 32 }
    requires end { first + length bytes.now / 512 ≤ 2 ^ 64 }
    requires covered { IsWithin (note C.facts B.facts seat.old).range first (length bytes.now / 512) }
    requires known { MayAnswerWith C.facts B.facts first (values_of bytes.now) seat.old hand.old }
    ensures works { Works C.facts B.facts parts.now seat.new hand.new }
    ensures hand { hand.new ≡ hand.old }
    ensures ok { OnOk result (Did C.facts B.facts
        (Some (Deed.Answer of first (values_of bytes.now))) seat.old seat.new) }
    ensures err { OnErr result (Did C.facts B.facts None seat.old seat.new) }
    ensures cause { IfErr result (λ error. IsHaltedOr error seat.new.seen) }
{
    let Ok(values) = Values::from_bytes(alloc, first, bytes) else {
        return Err(StepError::Memory);
    };
    answer(rt, parts, seat, hand, of, first, &values)
}

// Reads the runs of a look, since when the buckets are in hand, and answers the line.
fn answer_look<C: Disk + Drop, B: Disk + Drop, R: Wait, G: Gate>(
    rt: &R,
    alloc: Global,
    parts: &CoreParts<C, B>,
    seat: &mut CoreSeat<C, B>,
    hand: &mut Hand<C, B>,
    of: LineNumber,
    seen: &Seen,
    first: u64,
    count: u32,
    bytes: &mut [u8],
    gate: &G,
) -> Result<(), StepError>
    requires works { Works C.facts B.facts parts.now seat.old hand.old }
    requires cached { are_plain C.facts B.facts parts.now.run.start ≡ false }
    requires hand { hand.old ≡ record empty { buckets = hand.old.buckets } }
    requires promise { 2 * length seen.now.runs.items < seat.old.promises }
    requires line { worker_of seat.old.first ≡ of.worker }
    requires range { IsOver first count (note C.facts B.facts seat.old).range }
    requires length { length bytes.old ≡ 512 * count }
    requires inside { first + count ≤ size_of C.facts B.facts seat.old.run.start }
    requires few { first + count < 2 ^ 64 }
    requires piece { count ≤ piece_sectors }
    requires cache { LieWithin seen.now.runs.items
        (cache_among C.facts B.facts parts.now.run.start).sectors }
    requires saw { (t : View C.facts B.facts) × HasSeen C.facts B.facts parts.now first count
        seen.now t seat.old hand.old }
    ensures works { Works C.facts B.facts parts.now seat.new hand.new }
    ensures hand { IsSameButDevices hand.old hand.new }
    ensures claim { (note C.facts B.facts seat.new).range ≡ (note C.facts B.facts seat.old).range }
    ensures left { seat.old.promises
        ≤ seat.new.promises + 2 * length seen.now.runs.items + 1 }
    ensures ok { OnOk result ((t : View C.facts B.facts) → HasSeen C.facts B.facts parts.now first
        count seen.now t seat.old hand.old → HasAnsweredAtOnce C.facts B.facts parts.now of first
        count (values_of bytes.new) t seat.new) }
    ensures err { IfErr result (λ error. (t : View C.facts B.facts) → HasSeen C.facts B.facts
        parts.now first count seen.now t seat.old hand.old → HasStoppedAtOnce C.facts B.facts
        parts.now first count (ReadError.Leaf (LeafError.Step error)) t seat.new) }
{
    let runs = &seen.runs;
    match read_runs(
        rt, alloc, parts, seat, hand, runs, first, count, bytes, gate,
    ) {
        Ok(()) => {}
        Err(error) => return Err(error),
    }
    answer_with(rt, alloc, parts, seat, hand, of, first, bytes)
}

// Looks and answers the line, with the buckets in hand from the look to the answer.
fn read_again<C: Disk + Drop, B: Disk + Drop, R: Wait, G: Gate>(
    rt: &R,
    alloc: Global,
    parts: &CoreParts<C, B>,
    seat: &mut CoreSeat<C, B>,
    hand: &mut Hand<C, B>,
    of: LineNumber,
    first: u64,
    count: u32,
    bytes: &mut [u8],
    gate: &G,
) -> Result<(), ReadError>
    requires works { Works C.facts B.facts parts.now seat.old hand.old }
    requires cached { are_plain C.facts B.facts parts.now.run.start ≡ false }
    requires leaves { (6 < length parts.now.run.start) × (length parts.now.run.start < 2 ^ 32) }
    requires empty { hand.old ≡ empty }
    requires promise { 2 < seat.old.promises }
    requires line { worker_of seat.old.first ≡ of.worker }
    requires range { IsOver first count (note C.facts B.facts seat.old).range }
    requires length { length bytes.old ≡ 512 * count }
    requires inside { first + count ≤ size_of C.facts B.facts seat.old.run.start }
    requires few { first + count < 2 ^ 64 }
    requires piece { count ≤ piece_sectors }
    ensures works { Works C.facts B.facts parts.now seat.new hand.new }
    ensures empty { hand.new ≡ empty }
    ensures claim { (note C.facts B.facts seat.new).range ≡ (note C.facts B.facts seat.old).range }
    ensures left { seat.old.promises ≤ seat.new.promises + 3 }
    ensures ok { OnOk result (HasAnsweredAtOnce C.facts B.facts parts.now of first count
        (values_of bytes.new) seat.old seat.new) }
    ensures err { IfErr result (λ error. HasStoppedAtOnce C.facts B.facts parts.now first count error
        seat.old seat.new) }
{
    let seen = match look_at(rt, alloc, parts, seat, hand, first, count, gate) {
        Ok(seen) => seen,
        Err(error) => return Err(error),
    };
    let done = answer_look(
        rt, alloc, parts, seat, hand, of, &seen, first, count, bytes, gate,
    );
    give_buckets(rt, parts, seat, hand);
    match done {
        Ok(()) => Ok(()),
        Err(error) => Err(of_step(error)),
    }
}

// Reads the runs of a look with nothing in hand, and takes the buckets again.
fn read_seen<C: Disk + Drop, B: Disk + Drop, R: Wait, G: Gate>(
    rt: &R,
    alloc: Global,
    parts: &CoreParts<C, B>,
    seat: &mut CoreSeat<C, B>,
    hand: &mut Hand<C, B>,
    seen: &Seen,
    first: u64,
    count: u32,
    bytes: &mut [u8],
    gate: &G,
) -> Result<(), StepError>
    requires works { Works C.facts B.facts parts.now seat.old hand.old }
    requires cached { are_plain C.facts B.facts parts.now.run.start ≡ false }
    requires hand { hand.old ≡ record empty { buckets = hand.old.buckets } }
    requires has { HasBuckets hand.old }
    requires promise { 2 * length seen.now.runs.items ≤ seat.old.promises }
    requires range { IsOver first count (note C.facts B.facts seat.old).range }
    requires length { length bytes.old ≡ 512 * count }
    requires inside { first + count ≤ size_of C.facts B.facts seat.old.run.start }
    requires few { first + count < 2 ^ 64 }
    requires piece { count ≤ piece_sectors }
    requires cache { LieWithin seen.now.runs.items
        (cache_among C.facts B.facts parts.now.run.start).sectors }
    requires saw { (t : View C.facts B.facts) × HasSeen C.facts B.facts parts.now first count
        seen.now t seat.old hand.old }
    ensures works { Works C.facts B.facts parts.now seat.new hand.new }
    ensures hand { OnOk result (hand.new ≡ record empty { buckets = hand.new.buckets }) }
    ensures has { OnOk result (HasBuckets hand.new) }
    ensures empty { OnErr result (hand.new ≡ empty) }
    ensures claim { (note C.facts B.facts seat.new).range ≡ (note C.facts B.facts seat.old).range }
    ensures left { seat.old.promises ≤ seat.new.promises + 2 * length seen.now.runs.items }
    ensures ok { OnOk result ((t : View C.facts B.facts) → HasSeen C.facts B.facts parts.now first
        count seen.now t seat.old hand.old → HasReadSeen C.facts B.facts parts.now first count
        seen.now (values_of bytes.new) t seat.new) }
    ensures err { IfErr result (λ error. (t : View C.facts B.facts) → HasSeen C.facts B.facts
        parts.now first count seen.now t seat.old hand.old → HasStoppedAtOnce C.facts B.facts
        parts.now first count (ReadError.Leaf (LeafError.Step error)) t seat.new) }
{
    give_buckets(rt, parts, seat, hand);
    let runs = &seen.runs;
    match read_runs(
        rt, alloc, parts, seat, hand, runs, first, count, bytes, gate,
    ) {
        Ok(()) => {}
        Err(error) => return Err(error),
    }
    take_buckets(rt, parts, seat, hand);
    Ok(())
}

// Looks, reads what it found, and answers the line, unless a bucket from which it read was used anew
// meanwhile; `false` says that.
fn read_once<C: Disk + Drop, B: Disk + Drop, R: Wait, G: Gate>(
    rt: &R,
    alloc: Global,
    parts: &CoreParts<C, B>,
    seat: &mut CoreSeat<C, B>,
    hand: &mut Hand<C, B>,
    of: LineNumber,
    first: u64,
    count: u32,
    bytes: &mut [u8],
    gate: &G,
) -> Result<bool, ReadError>
    requires works { Works C.facts B.facts parts.now seat.old hand.old }
    requires cached { are_plain C.facts B.facts parts.now.run.start ≡ false }
    requires leaves { (6 < length parts.now.run.start) × (length parts.now.run.start < 2 ^ 32) }
    requires empty { hand.old ≡ empty }
    requires promise { 2 < seat.old.promises }
    requires line { worker_of seat.old.first ≡ of.worker }
    requires range { IsOver first count (note C.facts B.facts seat.old).range }
    requires length { length bytes.old ≡ 512 * count }
    requires inside { first + count ≤ size_of C.facts B.facts seat.old.run.start }
    requires few { first + count < 2 ^ 64 }
    requires piece { count ≤ piece_sectors }
    ensures works { Works C.facts B.facts parts.now seat.new hand.new }
    ensures empty { hand.new ≡ empty }
    ensures claim { (note C.facts B.facts seat.new).range ≡ (note C.facts B.facts seat.old).range }
    ensures left { IfOk result (λ done. HasLeft done seat.old.promises seat.new.promises) }
    ensures ok { IfOk result (λ done. HasTriedOnce C.facts B.facts done parts.now of first count
        (values_of bytes.new) seat.old seat.new) }
    ensures err { IfErr result (λ error. HasStoppedAtOnce C.facts B.facts parts.now first count error
        seat.old seat.new) }
    ensures room { OnErr result (seat.old.promises ≤ seat.new.promises + 3) }
{
    let seen = match look_at(rt, alloc, parts, seat, hand, first, count, gate) {
        Ok(seen) => seen,
        Err(error) => return Err(error),
    };
    match read_seen(
        rt, alloc, parts, seat, hand, &seen, first, count, bytes, gate,
    ) {
        Ok(()) => {}
        Err(error) => return Err(of_step(error)),
    }
    if !is_current(hand, &seen.noted) {
        give_buckets(rt, parts, seat, hand);
        return Ok(false);
    }
    let answered = answer_with(rt, alloc, parts, seat, hand, of, first, bytes);
    give_buckets(rt, parts, seat, hand);
    match answered {
        Ok(()) => Ok(true),
        Err(error) => Err(of_step(error)),
    }
}

/// Reads the sectors of the seat's claim and answers the line with them. What was read from the cache
/// device is answered only where no bucket of it was used anew since the look; else the seat looks
/// once more, and keeps the buckets in hand to the end.
pub fn read_claimed<C: Disk + Drop, B: Disk + Drop, R: Wait, G: Gate>(
    rt: &R,
    alloc: Global,
    parts: &CoreParts<C, B>,
    seat: &mut CoreSeat<C, B>,
    hand: &mut Hand<C, B>,
    of: LineNumber,
    first: u64,
    count: u32,
    bytes: &mut [u8],
    gate: &G,
) -> Result<(), ReadError>
    requires works { Works C.facts B.facts parts.now seat.old hand.old }
    requires cached { are_plain C.facts B.facts parts.now.run.start ≡ false }
    requires leaves { (6 < length parts.now.run.start) × (length parts.now.run.start < 2 ^ 32) }
    requires empty { hand.old ≡ empty }
    requires promise { 4 < seat.old.promises }
    requires line { worker_of seat.old.first ≡ of.worker }
    requires range { IsOver first count (note C.facts B.facts seat.old).range }
    requires length { length bytes.old ≡ 512 * count }
    requires inside { first + count ≤ size_of C.facts B.facts seat.old.run.start }
    requires few { first + count < 2 ^ 64 }
    requires piece { count ≤ piece_sectors }
    ensures works { Works C.facts B.facts parts.now seat.new hand.new }
    ensures empty { hand.new ≡ empty }
    ensures claim { (note C.facts B.facts seat.new).range ≡ (note C.facts B.facts seat.old).range }
    ensures left { seat.old.promises ≤ seat.new.promises + 5 }
    ensures ok { OnOk result (HasAnswered C.facts B.facts parts.now of first count
        (values_of bytes.new) seat.old seat.new) }
    ensures err { IfErr result (λ error. HasNotAnswered C.facts B.facts parts.now first count error
        seat.old seat.new) }
{
    match read_once(rt, alloc, parts, seat, hand, of, first, count, bytes, gate) {
        Ok(true) => Ok(()),
        Ok(false) => read_again(rt, alloc, parts, seat, hand, of, first, count, bytes, gate),
        Err(error) => Err(error),
    }
}
