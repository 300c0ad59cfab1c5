//! Keys of claimed sectors.
ghost use Rattle.std.specs.Prelude.{◌≡◌, ◌+◌, ◌<◌, ◌≤◌, ◌^◌, false, length, IfErr, IfOk};
ghost use Rattle.bc_bypass.specs.Dropped.{HasComeTo};
ghost use Rattle.bc_bypass.specs.Empty.{alone_at};
ghost use Rattle.bc_write_back.specs.Put.{HasNotPut};
ghost use Rattle.bc_write_back.specs.bc_deed.Asked.{size_of};
ghost use Rattle.bc_write_back.specs.bc_hand.Seats.{Works, empty, note};
ghost use Rattle.bc_write_back.specs.bc_machine.World.{are_plain};

use crate::drop::drop_in_hand;
use crate::error::Invalidated;
use bc_disk::disk::Disk;
use bc_worker::gate::Gate;
use bc_write_back::bc_fetch::error::LeafError;
use bc_write_back::bc_fetch::leaf::leaf_at;
use bc_write_back::bc_hand::hand::Hand;
use bc_write_back::bc_machine::machine::{CoreParts, CoreSeat};
use bc_write_back::taken::{give_back, take_both};
use std::alloc::Global;
use std::sync::Wait;

/// Takes the keys of sectors away that the seat has claimed for itself. At most one call of the
/// cache device is made, where no slot had the leaf of the sectors, and two of the seat's promises
/// are taken at most.
///
/// But where the answer is `Gone` the index is as it was.
pub fn invalidate_claimed<C: Disk + Drop, B: Disk + Drop, R: Wait, G: Gate>(
    rt: &R,
    alloc: Global,
    parts: &CoreParts<C, B>,
    seat: &mut CoreSeat<C, B>,
    hand: &mut Hand<C, B>,
    first: u64,
    count: u32,
    gate: &G,
) -> Result<Invalidated, LeafError>
    requires works { Works C.facts B.facts parts.now seat.old hand.old }
    requires empty { hand.old ≡ empty }
    requires cached { are_plain C.facts B.facts parts.now.run.start ≡ false }
    requires leaves { (6 < length parts.now.run.start) × (length parts.now.run.start < 2 ^ 32) }
    requires promise { 2 ≤ seat.old.promises }
    requires some { 1 ≤ count }
    requires range { first + count < 2 ^ 64 }
    requires inside { first + count ≤ size_of C.facts B.facts seat.old.run.start }
    requires alone { (note C.facts B.facts seat.old).range ≡ alone_at first count }
    ensures works { Works C.facts B.facts parts.now seat.new hand.new }
    ensures empty { hand.new ≡ empty }
    ensures left { seat.old.promises ≤ seat.new.promises + 2 }
    ensures ok { IfOk result (λ what. HasComeTo C.facts B.facts what first count seat.old
        seat.new) }
    ensures err { IfErr result (λ error. HasNotPut C.facts B.facts first count error seat.old
        seat.new) }
{
    let number = match leaf_at(rt, alloc, parts, seat, hand, first, count, gate) {
        Ok(number) => number,
        Err(error) => return Err(error),
    };
    take_both(rt, parts, seat, hand);
    let done = drop_in_hand(rt, alloc, parts, seat, hand, number, first, count);
    give_back(parts, seat, hand);
    match done {
        Ok(what) => Ok(what),
        Err(error) => Err(LeafError::Step(error)),
    }
}
