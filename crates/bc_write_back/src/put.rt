//! Values that stand at places of the cache device come into the index.
ghost use Rattle.std.specs.Prelude.{◌≡◌, ◌+◌, ◌*◌, ◌<◌, ◌≤◌, ◌^◌, All, false, length, None, OnErr, IfErr, IfOk};
ghost use Rattle.bc_stored.specs.bc_deed.Asked.{IsHaltedOr, MayWrite, size_of};
ghost use Rattle.bc_stored.specs.bc_hand.Seats.{Did, Works, empty, kinds, note, world};
ghost use Rattle.bc_stored.specs.bc_machine.Plain.{worker_of};
ghost use Rattle.bc_stored.specs.bc_machine.World.{FromEach, are_plain};
ghost use Rattle.bc_stored.specs.bc_place.Named.{AreKeysFor, AreOnDevice, sectors_of};
ghost use Rattle.bc_stored.specs.bc_insert.Write.{AreReady};
ghost use Rattle.bc_key.specs.Key.{IsExtent};
ghost use Rattle.bc_node.specs.Leaf.{AreWithin};
ghost use Rattle.bc_write_back.specs.Put.{HasComeIn, HasNotPut, HasPutOr};
ghost use Rattle.bc_write_back.specs.Room.{HasThree};

use crate::error::Put;
use crate::room::lack_in;
use crate::taken::{give_back, take_both};
use bc_disk::disk::Disk;
use bc_events::event::LineNumber;
use bc_fill::Placed;
use bc_key::Key;
use bc_model::values::Values;
use bc_request::bc_fetch::error::LeafError;
use bc_request::bc_fetch::leaf::leaf_at;
use bc_room::leaf::reserve;
use bc_stored::bc_hand::error::StepError;
use bc_stored::bc_hand::hand::Hand;
use bc_stored::bc_insert::write::insert_write;
use bc_stored::bc_machine::machine::{CoreParts, CoreSeat};
use bc_stored::bc_place::keys::keys_for;
use bc_worker::gate::Gate;
use std::alloc::Global;
use std::sync::Wait;

// Puts the keys of stored values into the leaf of this number, which is in hand with the buckets
// and the journal, where these have room for them.
fn put_in_hand<C: Disk + Drop, B: Disk + Drop, R: Wait>(
    rt: &R,
    alloc: Global,
    parts: &CoreParts<C, B>,
    seat: &mut CoreSeat<C, B>,
    hand: &mut Hand<C, B>,
    number: u32,
    keys: &[Key],
    places: &[Placed],
    of: LineNumber,
    first: u64,
    values: &Values,
) -> Result<Put, StepError>
    requires works { Works C.facts B.facts parts.now seat.old hand.old }
    requires cached { are_plain C.facts B.facts parts.now.run.start ≡ false }
    requires promise { 0 < seat.old.promises }
    requires line { worker_of seat.old.first ≡ of.worker }
    requires some { 1 ≤ length values.now }
    requires inside { first + length values.now ≤ size_of C.facts B.facts seat.old.run.start }
    requires may { MayWrite (note C.facts B.facts seat.old) first (length values.now) }
    requires total { sectors_of places.now ≡ length values.now }
    requires keys { AreKeysFor first places.now keys.now }
    requires device { AreOnDevice places.now }
    requires ready { FromEach (world C.facts B.facts seat.old)
        (AreReady seat.old.first first values.now places.now) }
    requires few { length keys.now < 2 ^ 32 }
    requires extents { All IsExtent keys.now }
    requires within { AreWithin first (first + length values.now) keys.now }
    requires three { HasThree hand.old (length parts.now.run.start) number first
        (length values.now) }
    ensures works { Works C.facts B.facts parts.now seat.new hand.new }
    ensures kinds { kinds hand.new ≡ kinds hand.old }
    ensures left { seat.old.promises ≤ seat.new.promises + 1 }
    ensures ok { IfOk result (λ put. HasComeIn C.facts B.facts put number keys.now places.now of
        first values.now seat.old seat.new) }
    ensures err { OnErr result (Did C.facts B.facts None seat.old seat.new) }
    ensures cause { IfErr result (λ error. IsHaltedOr error seat.new.seen) }
{
    if let Some(lack) = lack_in(hand, number, keys) {
        return Ok(Put::Lacks(lack));
    }
    let Ok(()) = reserve(hand, number, keys.len() as u32) else {
        return Err(StepError::Memory);
    };
    match insert_write(
        rt, alloc, parts, seat, hand, number, keys, places, of, first, values,
    ) {
        Ok(()) => Ok(Put::Written),
        Err(error) => Err(error),
    }
}

/// Puts values that stand at these places of the cache device into the index, as a write of a line
/// to the sectors from `first` on, by a seat that has claimed them. At most one call of the cache
/// device is made, where no slot had the leaf of the sectors; and two of the seat's promises are
/// taken at most.
///
/// Where there is no room for the keys, or after an error, the index is as it was, and the places
/// are still the seat's.
pub fn put_stored<C: Disk + Drop, B: Disk + Drop, R: Wait, G: Gate>(
    rt: &R,
    alloc: Global,
    parts: &CoreParts<C, B>,
    seat: &mut CoreSeat<C, B>,
    hand: &mut Hand<C, B>,
    places: &[Placed],
    of: LineNumber,
    first: u64,
    values: &Values,
    gate: &G,
) -> Result<Put, LeafError>
    requires works { Works C.facts B.facts parts.now seat.old hand.old }
    requires empty { hand.old ≡ empty }
    requires cached { are_plain C.facts B.facts parts.now.run.start ≡ false }
    requires leaves { (6 < length parts.now.run.start) × (length parts.now.run.start < 2 ^ 32) }
    requires promise { 2 ≤ seat.old.promises }
    requires line { worker_of seat.old.first ≡ of.worker }
    requires some { 1 ≤ length values.now }
    requires range { first + length values.now < 2 ^ 64 }
    requires inside { first + length values.now ≤ size_of C.facts B.facts seat.old.run.start }
    requires may { MayWrite (note C.facts B.facts seat.old) first (length values.now) }
    requires total { sectors_of places.now ≡ length values.now }
    requires device { AreOnDevice places.now }
    requires few { All (λ p. p.count ≤ 32768) places.now }
    requires filled { All (λ p. 1 ≤ p.count) places.now }
    requires ready { FromEach (world C.facts B.facts seat.old)
        (AreReady seat.old.first first values.now places.now) }
    ensures works { Works C.facts B.facts parts.now seat.new hand.new }
    ensures empty { hand.new ≡ empty }
    ensures left { seat.old.promises ≤ seat.new.promises + 2 }
    ensures ok { IfOk result (λ put. HasPutOr C.facts B.facts put places.now of first values.now
        seat.old seat.new) }
    ensures err { IfErr result (λ error. HasNotPut C.facts B.facts first (length values.now) error
        seat.old seat.new) }
{
    let Ok(keys) = keys_for(alloc, first, places) else {
        return Err(LeafError::Step(StepError::Memory));
    };
    let count = values.len();
    let number = match leaf_at(rt, alloc, parts, seat, hand, first, count, gate) {
        Ok(number) => number,
        Err(error) => return Err(error),
    };
    take_both(rt, parts, seat, hand);
    let keys = keys.as_slice();
    let done = put_in_hand(
        rt, alloc, parts, seat, hand, number, keys, places, of, first, values,
    );
    give_back(parts, seat, hand);
    match done {
        Ok(put) => Ok(put),
        Err(error) => Err(LeafError::Step(error)),
    }
}
