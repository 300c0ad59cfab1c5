//! One leaf whose pending keys go to its node.
ghost use Rattle.std.specs.Prelude.{◌≡◌, ◌+◌, ◌<◌, ◌≤◌, ℕ, false, length, slice_get, IfErr, IfOk, MatchOption, None, Some};
ghost use Rattle.bc_append.specs.Append.{HasFailedToAppend, HasLeafIn};
ghost use Rattle.bc_cache.specs.Slots.{IsSlotOf};
ghost use Rattle.bc_cache.specs.declared.slots.Cached.{Cached};
ghost use Rattle.bc_node.specs.declared.pending.Entries.{Entries};
ghost use Rattle.bc_append.specs.bc_hand.Seats.{HasNoneBehindLeaves, Works, kinds};
ghost use Rattle.bc_append.specs.bc_machine.World.{are_plain, cache_among};
ghost use Rattle.bc_append.specs.bc_place.Written.{KeepsPlaces};
ghost use Rattle.bc_turn.specs.Empty.{HasEmptied, HasPendingIn, IsClosedBy};

use crate::error::Why;
use crate::heard::or_halt;
use bc_append::append::append_set;
use bc_append::bc_hand::error::StepError;
use bc_append::bc_hand::hand::Hand;
use bc_append::bc_machine::machine::{CoreParts, CoreSeat};
use bc_append::durable::durable_entry;
use bc_append::error::NoRoom;
use bc_cache::NodeCache;
use bc_disk::disk::Disk;
use std::alloc::Global;
use std::sync::Wait;

// Whether somebody holds the leaf in a slot.
fn is_held(cache: &NodeCache, slot: u32) -> bool
    requires { slot < length cache.now.slots }
    ensures { (cached : Cached) → slice_get cache.now.slots slot ≡ Some (Some cached)
        → result ≡ cached.held }
{
    match cache.held(slot) {
        Some(held) => held,
        None => false,
    }
}

// Why nothing goes behind the sets of the leaf of this number, whatever the journal says; else the
// last entry that has keys of it.
fn last_entry<C, B>(hand: &Hand<C, B>, leaf: u32) -> Result<u64, Why>
    requires { (parts slot : ℕ) × HasPendingIn hand.now parts slot leaf }
    ensures { (parts slot : ℕ) (x : HasPendingIn hand.now parts slot leaf)
        → IsClosedBy result x × IsSlotOf x.own.at.leaves.cache.slots leaf slot }
{
    let Some(leaves) = &hand.leaves else {
        unreachable!()
    };
    let Some(slot) = leaves.cache.find(leaf) else {
        unreachable!()
    };
    if is_held(&leaves.cache, slot) {
        return Err(Why::Held);
    }
    let own = leaves.cache.leaf(slot);
    if own.is_loaded() {
        return Err(Why::Closed);
    }
    let Some(entries) = own.entries() else {
        unreachable!()
    };
    Ok(entries.last)
}

/// Writes what is pending of the leaf of this number to its node, as a further set behind the
/// others. The part with the leaf is in hand, and none of the parts that are taken after it.
///
/// An answer says why keys of it are pending still; then nothing was done. Without one nothing is
/// pending.
///
/// `Fault` says that the write itself failed, which is committed then: of the set the device has
/// nothing, or a part, or all, and the leaf is closed, with what is pending. `Halted` says that a
/// device had halted the run before, `Memory` that there was none, and that the seat hasn't heard of
/// a halt; then nothing was done.
pub fn empty_leaf<C: Disk + Drop, B: Disk + Drop, R: Wait>(
    rt: &R,
    alloc: Global,
    parts: &CoreParts<C, B>,
    seat: &mut CoreSeat<C, B>,
    hand: &mut Hand<C, B>,
    leaf: u32,
) -> Result<Option<Why>, StepError>
    requires works { Works C.facts B.facts parts.now seat.old hand.old }
    requires cached { are_plain C.facts B.facts parts.now.run.start ≡ false }
    requires alone { HasNoneBehindLeaves hand.old }
    requires promise { 0 < seat.old.promises }
    requires pending { (slot : ℕ) × HasPendingIn hand.old (length parts.now.run.start) slot leaf }
    ensures works { Works C.facts B.facts parts.now seat.new hand.new }
    ensures kinds { kinds hand.new ≡ kinds hand.old }
    ensures ok { IfOk result (λ left. (slot : ℕ)
        (x : HasPendingIn hand.old (length parts.now.run.start) slot leaf)
        → HasEmptied C.facts B.facts (cache_among C.facts B.facts parts.now.run.start).sectors
        (length parts.now.run.start) leaf left hand.old hand.new seat.old seat.new slot x) }
    ensures err { IfErr result (λ error. HasFailedToAppend C.facts B.facts error leaf hand.old
        hand.new seat.old seat.new) }
    ensures memory { IfErr result (λ error. error ≡ StepError.Memory → seat.new.heard ≡ None) }
    ensures left { seat.old.promises ≤ seat.new.promises + 1 }
    ensures keeps { KeepsPlaces C.facts B.facts seat.old seat.new }
{
    let last = match last_entry(hand, leaf) {
        Ok(last) => last,
        Err(why) => return Ok(Some(why)),
    };
    let durable = durable_entry(rt, parts, seat, hand);
    if durable < last {
        return Ok(Some(Why::Waiting(durable)));
    }
    match append_set(rt, alloc, parts, seat, hand, leaf) {
        Ok(Ok(())) => Ok(None),
        Ok(Err(NoRoom::Full)) => Ok(Some(Why::Full)),
        Ok(Err(NoRoom::Outside)) => Ok(Some(Why::Outside)),
        Err(error) => Err(or_halt(seat, error)),
    }
}
