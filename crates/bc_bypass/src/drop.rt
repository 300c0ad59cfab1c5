//! Keys without pointers come into a leaf in hand.
ghost use Rattle.std.specs.Prelude.{◌≡◌, ◌+◌, ◌<◌, ◌≤◌, ◌^◌, false, length, IfErr, IfOk, None, OnErr};
ghost use Rattle.bc_bypass.specs.Dropped.{HasComeIn};
ghost use Rattle.bc_bypass.specs.Empty.{alone_at};
ghost use Rattle.bc_write_back.specs.Room.{HasThree};
ghost use Rattle.bc_write_back.specs.bc_deed.Asked.{IsHaltedOr, size_of};
ghost use Rattle.bc_write_back.specs.bc_hand.Seats.{Did, Works, kinds, note};
ghost use Rattle.bc_write_back.specs.bc_machine.World.{are_plain};

use crate::backed::{are_backed_in, bucket_sectors_in};
use crate::error::Invalidated;
use crate::keys::empty_keys;
use bc_disk::disk::Disk;
use bc_write_back::bc_hand::error::StepError;
use bc_write_back::bc_hand::hand::Hand;
use bc_write_back::bc_insert::drop::drop_keys;
use bc_write_back::bc_machine::machine::{CoreParts, CoreSeat};
use bc_write_back::bc_room::leaf::reserve;
use bc_write_back::room::lack_in;
use std::alloc::Global;
use std::sync::Wait;

/// Takes the keys of claimed sectors away in the leaf of this number, which is in hand with the
/// buckets and the journal, where none of them is dirty and there is room.
pub(crate) fn drop_in_hand<C: Disk + Drop, B: Disk + Drop, R: Wait>(
    rt: &R,
    alloc: Global,
    parts: &CoreParts<C, B>,
    seat: &mut CoreSeat<C, B>,
    hand: &mut Hand<C, B>,
    number: u32,
    first: u64,
    count: u32,
) -> Result<Invalidated, StepError>
    requires works { Works C.facts B.facts parts.now seat.old hand.old }
    requires cached { are_plain C.facts B.facts parts.now.run.start ≡ false }
    requires promise { 0 < seat.old.promises }
    requires some { 1 ≤ count }
    requires range { first + count < 2 ^ 64 }
    requires inside { first + count ≤ size_of C.facts B.facts seat.old.run.start }
    requires alone { (note C.facts B.facts seat.old).range ≡ alone_at first count }
    requires three { HasThree hand.old (length parts.now.run.start) number first count }
    ensures works { Works C.facts B.facts parts.now seat.new hand.new }
    ensures kinds { kinds hand.new ≡ kinds hand.old }
    ensures left { seat.old.promises ≤ seat.new.promises + 1 }
    ensures ok { IfOk result (λ what. HasComeIn C.facts B.facts what number first count seat.old
        seat.new) }
    ensures err { OnErr result (Did C.facts B.facts None seat.old seat.new) }
    ensures cause { IfErr result (λ error. IsHaltedOr error seat.new.seen) }
{
    if !are_backed_in(hand, number, first, count) {
        return Ok(Invalidated::Dirty);
    }
    let Ok(keys) = empty_keys(alloc, first, count, bucket_sectors_in(hand)) else {
        return Err(StepError::Memory);
    };
    let keys = keys.as_slice();
    if let Some(lack) = lack_in(hand, number, keys) {
        return Ok(Invalidated::Lacks(lack));
    }
    let Ok(()) = reserve(hand, number, keys.len() as u32) else {
        return Err(StepError::Memory);
    };
    match drop_keys(rt, alloc, parts, seat, hand, number, keys) {
        Ok(()) => Ok(Invalidated::Gone),
        Err(error) => Err(error),
    }
}
