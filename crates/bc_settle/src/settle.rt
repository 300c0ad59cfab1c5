//! The step that settles a candidate.
ghost use Rattle.std.specs.Prelude.{◌≡◌, ◌<◌, ℕ, false, length, None, OnErr, IfErr, IfOk};
ghost use Rattle.bc_cache.specs.declared.slots.Cached.{Cached};
ghost use Rattle.bc_candidate.specs.Noted.{KeepsAll};
ghost use Rattle.bc_firm.specs.Firm.{AreFirm};
ghost use Rattle.bc_candidate.specs.bc_deed.Asked.{IsHaltedOr};
ghost use Rattle.bc_candidate.specs.bc_hand.Seats.{Did, Works, world};
ghost use Rattle.bc_candidate.specs.bc_machine.World.{are_plain};
ghost use Rattle.bc_settle.specs.Settle.{CanSettleIn, HasSettledOr};

use crate::due::{due_in, take_due};
use crate::fit::key_in;
use crate::named::name_in;
use crate::outcome::Outcome;
use bc_candidate::bc_hand::error::StepError;
use bc_candidate::bc_hand::hand::Hand;
use bc_candidate::bc_hand::seat::commit;
use bc_candidate::bc_machine::machine::{CoreParts, CoreSeat};
use bc_disk::disk::Disk;
use bc_events::event::Deed;
use bc_insert::put::{next_entry, put_in, slot_in};
use bc_keys::Keys;
use std::alloc::Global;
use std::sync::Wait;

/// Brings the key of the oldest due candidate into the leaf of this number: of those that stand
/// and weren't killed, and have a number below `before`, since all below are firm. The key waits
/// for the journal's next entry then, and who looks these sectors up finds the candidate's places.
///
/// `NoneDue` says that there is no such candidate, and `Left` that its key doesn't fit into the
/// leaf, and why; then nothing is done. So it is after an error, which comes from want of memory,
/// or names the device that halted the run. Of its own places and its claim the seat knows what it
/// knew.
pub fn settle<C: Disk + Drop, B: Disk + Drop, R: Wait>(
    rt: &R,
    alloc: Global,
    parts: &CoreParts<C, B>,
    seat: &mut CoreSeat<C, B>,
    hand: &mut Hand<C, B>,
    leaf: u32,
    before: u64,
) -> Result<Outcome, StepError>
    requires works { Works C.facts B.facts parts.now seat.old hand.old }
    requires cached { are_plain C.facts B.facts parts.now.run.start ≡ false }
    requires promise { 0 < seat.old.promises }
    requires firm { AreFirm before (world C.facts B.facts seat.old) }
    requires can { (slot : ℕ) × (cached : Cached)
        × CanSettleIn hand.old (length parts.now.run.start) slot leaf cached }
    ensures works { Works C.facts B.facts parts.now seat.new hand.new }
    ensures ok { IfOk result (λ outcome. (parts slot : ℕ) (cached : Cached)
        → (can : CanSettleIn hand.old parts slot leaf cached)
        → HasSettledOr C.facts B.facts outcome before leaf slot cached can.flight can.buckets
        hand.old hand.new seat.old seat.new) }
    ensures keeps { KeepsAll C.facts B.facts seat.old seat.new }
    ensures err { OnErr result (Did C.facts B.facts None seat.old seat.new) }
    ensures same { OnErr result (hand.new ≡ hand.old) }
    ensures cause { IfErr result (λ error. IsHaltedOr error seat.new.seen) }
{
    if let Some(device) = seat.heard() {
        return Err(StepError::Halted(device));
    }
    let Some(due) = due_in(hand, before) else {
        return Ok(Outcome::NoneDue);
    };
    let candidate = due.number;
    let Some(ptr) = due.key.pointer() else {
        unreachable!()
    };
    let slot = slot_in(hand, leaf);
    let _entry = next_entry(hand);
    let key = match key_in(hand, slot, &due.key) {
        Ok(key) => key,
        Err(why) => return Ok(Outcome::Left { candidate, why }),
    };
    let mut own = Vec::new(alloc);
    let Ok(()) = own.push(key) else {
        return Err(StepError::Memory);
    };
    let deed = Deed::Settle {
        leaf,
        candidate,
        keys: Keys::from_vec(own),
    };
    if let Err(device) = commit(rt, parts, seat, deed) {
        return Err(StepError::Halted(device));
    }
    put_in(hand, slot, &[key]);
    take_due(hand, before);
    name_in(hand, ptr.offset, due.key.size);
    Ok(Outcome::Settled { candidate })
}
