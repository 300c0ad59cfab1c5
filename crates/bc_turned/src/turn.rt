//! The whole turn.
ghost use Rattle.std.specs.Prelude.{◌≡◌, ◌<◌, ◌≤◌, ◌^◌, ℕ, false, length, None, IfErr, IfOk, OnOk};
ghost use Rattle.bc_flush.specs.Durable.{AreDurable, HaveComeIn};
ghost use Rattle.bc_flush.specs.bc_hand.Seats.{Works, empty, world};
ghost use Rattle.bc_flush.specs.bc_machine.World.{FromEach, Origin, are_plain, cache_among};
ghost use Rattle.bc_turn.specs.bc_place.Written.{KeepsPlaces};
ghost use Rattle.bc_turn.specs.Need.{IsToCome};
ghost use Rattle.bc_turned.specs.Turned.{HasEnded, HasNotEnded, HasNotTurned, HasTurned};

use crate::answer::{Turned, or_halted, refused};
use crate::give_up::give_up;
use crate::low::look_low;
use bc_disk::disk::Disk;
use bc_flush::bc_deed::promise::promise;
use bc_flush::bc_hand::error::StepError;
use bc_flush::bc_hand::hand::Hand;
use bc_flush::bc_machine::machine::{CoreParts, CoreSeat};
use bc_flush::error::FlushError;
use bc_flush::sync::sync_journal;
use bc_turn::heard::or_halt;
use bc_turn::parts::empty_leaves;
use std::alloc::Global;
use std::sync::Wait;

/// Turns the journal's ring: what keeps an entry with keys from beginning the next bucket is needed
/// no more behind it, unless the answer says why not. No part is in hand, before or after.
///
/// All that had come into the index becomes durable first, then the pending keys of old entries go
/// to the nodes of their leaves, and then an entry is put that needs none of the old ones.
///
/// `Fault` is a call of the cache device that failed, which halted the run, and `Halted` names the
/// device that had halted it before. At `Memory` there was none for the next step, or another entry
/// was cut off behind its seal; and this seat hasn't heard of a halt. At `Outside` the journal ends
/// behind the device. What was done before stands, and the seat knows of its places what it knew.
pub fn turn<C: Disk + Drop, B: Disk + Drop, R: Wait>(
    rt: &R,
    alloc: Global,
    parts: &CoreParts<C, B>,
    seat: &mut CoreSeat<C, B>,
    hand: &mut Hand<C, B>,
) -> Result<Turned, FlushError>
    requires works { Works C.facts B.facts parts.now seat.old hand.old }
    requires empty { hand.old ≡ empty }
    requires cached { are_plain C.facts B.facts parts.now.run.start ≡ false }
    requires leaves { (6 < length parts.now.run.start) × (length parts.now.run.start < 2 ^ 32) }
    ensures works { Works C.facts B.facts parts.now seat.new hand.new }
    ensures empty { hand.new ≡ empty }
    ensures promises { seat.old.promises ≤ seat.new.promises }
    ensures ok { IfOk result (λ answer. HasTurned C.facts B.facts parts.now
        (cache_among C.facts B.facts parts.now.run.start).sectors answer seat.old seat.new) }
    ensures durable { OnOk result ((n : Origin → ℕ)
        → FromEach (world C.facts B.facts seat.old) (HaveComeIn n)
        → FromEach (world C.facts B.facts seat.new) (AreDurable n)) }
    ensures memory { IfErr result (λ error. error ≡ FlushError.Memory → seat.new.heard ≡ None) }
    ensures keeps { KeepsPlaces C.facts B.facts seat.old seat.new }
    ensures err { IfErr result (λ error. HasNotTurned C.facts B.facts parts.now
        (cache_among C.facts B.facts parts.now.run.start).sectors error seat.old seat.new) }
{
    let low = look_low(rt, parts, seat, hand);
    let Ok(()) = promise(rt, parts, seat, hand, 5) else {
        return Err(or_halted(seat, FlushError::Memory));
    };
    match sync_journal(rt, alloc, parts, seat) {
        Ok(()) => {}
        Err(error) => return Err(or_halted(seat, error)),
    }
    match turn_synced(rt, alloc, parts, seat, hand, low) {
        Ok(answer) => Ok(answer),
        Err(error) => Err(error),
    }
}

// The same, behind the keys that waited.
fn turn_synced<C: Disk + Drop, B: Disk + Drop, R: Wait>(
    rt: &R,
    alloc: Global,
    parts: &CoreParts<C, B>,
    seat: &mut CoreSeat<C, B>,
    hand: &mut Hand<C, B>,
    low: u64,
) -> Result<Turned, FlushError>
    requires works { Works C.facts B.facts parts.now seat.old hand.old }
    requires empty { hand.old ≡ empty }
    requires cached { are_plain C.facts B.facts parts.now.run.start ≡ false }
    requires leaves { (6 < length parts.now.run.start) × (length parts.now.run.start < 2 ^ 32) }
    requires come { FromEach (world C.facts B.facts seat.old) (IsToCome low) }
    ensures works { Works C.facts B.facts parts.now seat.new hand.new }
    ensures empty { hand.new ≡ empty }
    ensures promises { seat.old.promises ≤ seat.new.promises }
    ensures ok { IfOk result (λ answer. HasEnded C.facts B.facts parts.now
        (cache_among C.facts B.facts parts.now.run.start).sectors low answer seat.old seat.new) }
    ensures memory { IfErr result (λ error. error ≡ FlushError.Memory → seat.new.heard ≡ None) }
    ensures keeps { KeepsPlaces C.facts B.facts seat.old seat.new }
    ensures err { IfErr result (λ error. HasNotEnded C.facts B.facts parts.now
        (cache_among C.facts B.facts parts.now.run.start).sectors low error seat.old seat.new) }
{
    match empty_leaves(rt, alloc, parts, seat, hand, low) {
        Ok(None) => {}
        Ok(Some(left)) => return Ok(Turned::Left(left)),
        Err(error) => return Err(refused(error)),
    }
    let Ok(()) = promise(rt, parts, seat, hand, 5) else {
        return Err(refused(or_halt(seat, StepError::Memory)));
    };
    match give_up(rt, alloc, parts, seat, hand, low) {
        Ok(Ok(())) => Ok(Turned::Done),
        Ok(Err(cause)) => Ok(Turned::NoEntry(cause)),
        Err(error) => Err(error),
    }
}
