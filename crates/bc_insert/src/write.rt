//! The keys of a write of a line.
ghost use Rattle.std.specs.Prelude.{◌≡◌, ◌+◌, ◌<◌, ◌≤◌, ℕ, false, length, None, Some, OnOk, OnErr, IfErr};
ghost use Rattle.bc_cache.specs.declared.slots.Cached.{Cached};
ghost use Rattle.bc_place.specs.bc_deed.Asked.{IsHaltedOr, MayWrite, size_of};
ghost use Rattle.bc_place.specs.bc_hand.Seats.{Did, Works, note, world};
ghost use Rattle.bc_insert.specs.Insert.{CanPutIn};
ghost use Rattle.bc_insert.specs.Write.{AreReady, HasInserted, HasPutWrite};
ghost use Rattle.bc_place.specs.bc_machine.Plain.{worker_of};
ghost use Rattle.bc_place.specs.bc_machine.World.{FromEach, are_plain};
ghost use Rattle.bc_place.specs.bc_machine.declared.part.BucketsPart.{BucketsPart};
ghost use Rattle.bc_place.specs.Named.{AreKeysFor, AreOnDevice, sectors_of};
ghost use Rattle.bc_place.specs.Next.{HasNamed};
ghost use Rattle.bc_place.specs.Written.{KeepsPlaces};

use crate::put::{next_entry, put_in, slot_in};
use bc_disk::disk::Disk;
use bc_events::event::{Deed, LineNumber};
use bc_fill::Placed;
use bc_key::Key;
use bc_keys::Keys;
use bc_model::values::Values;
use bc_place::bc_hand::error::StepError;
use bc_place::bc_hand::hand::Hand;
use bc_place::bc_hand::seat::commit;
use bc_place::bc_machine::machine::{CoreParts, CoreSeat};
use bc_place::name::name_places;
use std::alloc::Global;
use std::sync::Wait;

/// Writes values for a line to the sectors from `first` on, by keys that come into the leaf of this
/// number. The values stand on the cache device already, at places that the seat filled, one behind
/// the other, and each key names one of them. From then on whoever looks these sectors up finds the
/// places, which are the seat's no more; once an entry with the keys is durable, so does each crash.
/// Under one claim a seat writes once.
///
/// `Err` comes from want of memory, or names the device that halted the run; then nothing is done,
/// and the places are still the seat's.
pub fn insert_write<C: Disk + Drop, B: Disk + Drop, R: Wait>(
    rt: &R,
    alloc: Global,
    parts: &CoreParts<C, B>,
    seat: &mut CoreSeat<C, B>,
    hand: &mut Hand<C, B>,
    leaf: u32,
    keys: &[Key],
    places: &[Placed],
    of: LineNumber,
    first: u64,
    values: &Values,
) -> Result<(), StepError>
    requires works { Works C.facts B.facts parts.now seat.old hand.old }
    requires cached { are_plain C.facts B.facts parts.now.run.start ≡ false }
    requires promise { 0 < seat.old.promises }
    requires line { worker_of seat.old.first ≡ of.worker }
    requires some { 1 ≤ length values.now }
    requires inside { first + length values.now ≤ size_of C.facts B.facts seat.old.run.start }
    requires may { MayWrite (note C.facts B.facts seat.old) first (length values.now) }
    requires total { sectors_of places.now ≡ length values.now }
    requires keys { AreKeysFor first places.now keys.now }
    requires device { AreOnDevice places.now }
    requires ready { FromEach (world C.facts B.facts seat.old)
        (AreReady seat.old.first first values.now places.now) }
    requires can { (slot : ℕ) × (cached : Cached)
        × CanPutIn hand.old (length parts.now.run.start) slot leaf cached keys.now }
    ensures works { Works C.facts B.facts parts.now seat.new hand.new }
    ensures ok { OnOk result (HasInserted C.facts B.facts leaf keys.now places.now of first
        values.now seat.old seat.new) }
    ensures hand { OnOk result ((parts slot : ℕ) (cached : Cached)
        → CanPutIn hand.old parts slot leaf cached keys.now
        → HasPutWrite hand.old hand.new slot cached keys.now places.now) }
    ensures err { OnErr result (Did C.facts B.facts None seat.old seat.new) }
    ensures keeps { OnErr result (KeepsPlaces C.facts B.facts seat.old seat.new) }
    ensures same { OnErr result (hand.new ≡ hand.old) }
    ensures cause { IfErr result (λ error. IsHaltedOr error seat.new.seen) }
{
    if let Some(device) = seat.heard() {
        return Err(StepError::Halted(device));
    }
    let slot = slot_in(hand, leaf);
    let mut own = Vec::new(alloc);
    let Ok(()) = own.extend_from_slice(keys) else {
        return Err(StepError::Memory);
    };
    let Ok(values) = values.copy() else {
        return Err(StepError::Memory);
    };
    let deed = Deed::InsertWrite {
        leaf,
        keys: Keys::from_vec(own),
        of,
        first,
        values,
    };
    if let Err(device) = commit(rt, parts, seat, deed) {
        return Err(StepError::Halted(device));
    }
    put_in(hand, slot, keys);
    name_in(hand, places);
    Ok(())
}

// Notes in the buckets in hand that keys name these places.
fn name_in<C, B>(hand: &mut Hand<C, B>, places: &[Placed])
    requires { (part : BucketsPart) × (hand.now.buckets ≡ Some part) }
    ensures { (part : BucketsPart) → hand.old.buckets ≡ Some part → (next : BucketsPart)
        × HasNamed part places.now next × (hand.new ≡ record hand.old { buckets = Some next }) }
{
    let Some(mut buckets) = hand.buckets.take() else {
        unreachable!()
    };
    name_places(buckets.get_mut(), places);
    hand.buckets = Some(buckets);
}
