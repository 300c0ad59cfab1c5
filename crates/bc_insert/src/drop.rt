//! Keys without pointers.
ghost use Rattle.std.specs.Prelude.{◌≡◌, ◌+◌, ◌<◌, ◌≤◌, ℕ, false, length, None, Some, OnOk, OnErr, IfErr};
ghost use Rattle.bc_cache.specs.declared.slots.Cached.{Cached};
ghost use Rattle.bc_place.specs.bc_deed.Asked.{IsHaltedOr, size_of};
ghost use Rattle.bc_events.specs.declared.event.Deed.{Deed};
ghost use Rattle.bc_events.specs.declared.event.Form.TheVariants as form;
ghost use Rattle.bc_place.specs.bc_hand.Seats.{Did, Works, note};
ghost use Rattle.bc_insert.specs.Drop.{MayDrop};
ghost use Rattle.bc_insert.specs.Insert.{CanPutIn, HasPutIn};
ghost use Rattle.bc_place.specs.bc_machine.World.{are_plain};

use crate::put::{next_entry, put_in, slot_in};
use bc_disk::disk::Disk;
use bc_events::event::{Deed, Form};
use bc_key::Key;
use bc_keys::Keys;
use bc_place::bc_hand::error::StepError;
use bc_place::bc_hand::hand::Hand;
use bc_place::bc_hand::seat::commit;
use bc_place::bc_machine::machine::{CoreParts, CoreSeat};
use std::alloc::Global;
use std::sync::Wait;

/// Takes away what sectors of the seat's exclusive claim have in the cache, by keys without
/// pointers that come into the leaf of this number. The backing device has what the sectors show;
/// once an entry with the keys is durable, no crash leaves anything else there. There is a key, and
/// each has no more sectors than a bucket.
///
/// `Err` comes from want of memory, or names the device that halted the run; then nothing is done.
pub fn drop_keys<C: Disk + Drop, B: Disk + Drop, R: Wait>(
    rt: &R,
    alloc: Global,
    parts: &CoreParts<C, B>,
    seat: &mut CoreSeat<C, B>,
    hand: &mut Hand<C, B>,
    leaf: u32,
    keys: &[Key],
) -> Result<(), StepError>
    requires works { Works C.facts B.facts parts.now seat.old hand.old }
    requires cached { are_plain C.facts B.facts parts.now.run.start ≡ false }
    requires promise { 0 < seat.old.promises }
    requires inside { (note C.facts B.facts seat.old).range.first
        + (note C.facts B.facts seat.old).range.count
        ≤ size_of C.facts B.facts seat.old.run.start }
    requires can { (slot : ℕ) × (cached : Cached)
        × (can : CanPutIn hand.old (length parts.now.run.start) slot leaf cached keys.now)
        × MayDrop (note C.facts B.facts seat.old).range cached.leaf can.buckets.buckets.size
        keys.now }
    ensures works { Works C.facts B.facts parts.now seat.new hand.new }
    ensures ok { OnOk result (Did C.facts B.facts (Some (Deed.Insert leaf keys.now form.Drop))
        seat.old seat.new) }
    ensures hand { OnOk result ((parts slot : ℕ) (cached : Cached)
        → CanPutIn hand.old parts slot leaf cached keys.now
        → HasPutIn hand.old hand.new slot cached keys.now) }
    ensures err { OnErr result (Did C.facts B.facts None seat.old seat.new) }
    ensures same { OnErr result (hand.new ≡ hand.old) }
    ensures cause { IfErr result (λ error. IsHaltedOr error seat.new.seen) }
{
    if let Some(device) = seat.heard() {
        return Err(StepError::Halted(device));
    }
    let slot = slot_in(hand, leaf);
    let _entry = next_entry(hand);
    let mut own = Vec::new(alloc);
    let Ok(()) = own.extend_from_slice(keys) else {
        return Err(StepError::Memory);
    };
    let deed = Deed::Insert {
        leaf,
        keys: Keys::from_vec(own),
        form: Form::Drop,
    };
    if let Err(device) = commit(rt, parts, seat, deed) {
        return Err(StepError::Halted(device));
    }
    put_in(hand, slot, keys);
    Ok(())
}
