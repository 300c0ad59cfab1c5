//! What one leaf tells.
ghost use Rattle.std.specs.Prelude.{◌≡◌, ◌+◌, ◌-◌, ◌%◌, ◌<◌, ◌≤◌, ◌^◌, ℕ, false, IfErr, IfOk, OnOk, length, slice_get, take};
ghost use Rattle.std.specs.Bool.{MatchBool};
ghost use Rattle.bc_cache.specs.Slots.{HasLeaf};
ghost use Rattle.bc_cache.specs.declared.slots.Cached.{Cached};
ghost use Rattle.bc_dirty_laws.specs.Dirty.{SaysDirty};
ghost use Rattle.bc_fetch.specs.Fetch.{HasReadOne, HasStoppedAt, OfLeaves};
ghost use Rattle.bc_fetch.specs.bc_hand.Seats.{Works, empty, world};
ghost use Rattle.bc_fetch.specs.bc_machine.World.{are_plain};
ghost use Rattle.bc_dirty.specs.Walk.{HasDirtySector, IsAlone, IsSeenIn, TellsFrom};

use bc_disk::disk::Disk;
use bc_fetch::bc_deed::promise::promise;
use bc_fetch::bc_hand::error::StepError;
use bc_fetch::bc_hand::hand::Hand;
use bc_fetch::bc_machine::machine::{CoreParts, CoreSeat};
use bc_fetch::bc_machine::part::LEAVES;
use bc_fetch::error::LeafError;
use bc_fetch::leaf::{give_leaves, leaf_at};
use bc_node::Leaf;
use bc_worker::gate::Gate;
use std::alloc::Global;
use std::sync::Wait;

/// What was seen of a leaf.
#[derive(Clone, Copy, Debug, PartialEq, Eq, Drop)]
pub struct SeenLeaf {
    /// Whether the last key of one of its sectors is dirty.
    pub dirty: bool,
    /// The sector behind its range.
    pub end: u64,
}

/// Whether the last key of one of a leaf's sectors is dirty.
pub fn has_dirty_key(leaf: &Leaf) -> bool
    ensures { MatchBool result (HasDirtySector leaf.now) (¬ (HasDirtySector leaf.now)) }
{
    let keys = leaf.keys();
    for i in 0..keys.len() {
        let key = keys.key(i);
        if key.dirty && key.count > 0 {
            return true;
        }
    }
    false
}

// What is to be seen of the leaf of this number in the part in hand.
fn seen_in<C, B>(hand: &Hand<C, B>, number: u32) -> SeenLeaf
    requires there { OfLeaves hand.now (λ c. (slot : ℕ) × HasLeaf c.slots slot number) }
    ensures { (slot : ℕ) → OfLeaves hand.now (λ c. HasLeaf c.slots slot number)
        → OfLeaves hand.now (λ c. IsSeenIn c.slots slot number result) }
{
    let Some(leaves) = &hand.leaves else {
        unreachable!()
    };
    let Some(slot) = leaves.cache.find(number) else {
        unreachable!()
    };
    let leaf = leaves.cache.leaf(slot);
    SeenLeaf {
        dirty: has_dirty_key(leaf),
        end: leaf.end(),
    }
}

// Looks at the leaf of a sector, with an empty hand and a promise for the call.
fn see_in<C: Disk + Drop, B: Disk + Drop, R: Wait, G: Gate>(
    rt: &R,
    alloc: Global,
    parts: &CoreParts<C, B>,
    seat: &mut CoreSeat<C, B>,
    hand: &mut Hand<C, B>,
    first: u64,
    gate: &G,
) -> Result<SeenLeaf, LeafError>
    requires works { Works C.facts B.facts parts.now seat.old hand.old }
    requires empty { hand.old ≡ empty }
    requires promise { 0 < seat.old.promises }
    requires cached { are_plain C.facts B.facts parts.now.run.start ≡ false }
    requires leaves { (6 < length parts.now.run.start) × (length parts.now.run.start < 2 ^ 32) }
    requires all { IsAlone C.facts B.facts seat.old }
    requires few { first + 1 < 2 ^ 64 }
    ensures works { Works C.facts B.facts parts.now seat.new empty }
    ensures left { seat.old.promises ≤ seat.new.promises + 1 }
    ensures ok { OnOk result (HasReadOne C.facts B.facts seat.old seat.new) }
    ensures end { IfOk result (λ leaf. first < leaf.end) }
    ensures told { IfOk result (λ leaf. TellsFrom first leaf (world C.facts B.facts seat.new)) }
    ensures stopped { IfErr result (λ error. HasStoppedAt C.facts B.facts first 1 error
        seat.old seat.new) }
{
    let number = match leaf_at(rt, alloc, parts, seat, hand, first, 1, gate) {
        Ok(number) => number,
        Err(error) => return Err(error),
    };
    let seen = seen_in(hand, number);
    let part = LEAVES + number % (parts.part_count() as u32 - LEAVES);
    give_leaves(rt, parts, seat, hand, part);
    Ok(seen)
}

/// Looks at the leaf of a sector, for a seat that has all numbers of its run. The device is called
/// where no slot has the leaf.
///
/// The refusals are those of `leaf_at`, and `Memory` for the event of the call.
pub fn see_leaf<C: Disk + Drop, B: Disk + Drop, R: Wait, G: Gate>(
    rt: &R,
    alloc: Global,
    parts: &CoreParts<C, B>,
    seat: &mut CoreSeat<C, B>,
    first: u64,
    gate: &G,
) -> Result<SeenLeaf, LeafError>
    requires works { Works C.facts B.facts parts.now seat.old empty }
    requires cached { are_plain C.facts B.facts parts.now.run.start ≡ false }
    requires leaves { (6 < length parts.now.run.start) × (length parts.now.run.start < 2 ^ 32) }
    requires all { IsAlone C.facts B.facts seat.old }
    requires few { first + 1 < 2 ^ 64 }
    ensures works { Works C.facts B.facts parts.now seat.new empty }
    ensures left { seat.old.promises ≤ seat.new.promises }
    ensures ok { OnOk result (HasReadOne C.facts B.facts seat.old seat.new) }
    ensures end { IfOk result (λ leaf. first < leaf.end) }
    ensures told { IfOk result (λ leaf. TellsFrom first leaf (world C.facts B.facts seat.new)) }
    ensures stopped { IfErr result (λ error. HasStoppedAt C.facts B.facts first 1 error
        seat.old seat.new) }
{
    let mut hand = Hand::empty();
    let hand = &mut hand;
    let Ok(()) = promise(rt, parts, seat, hand, 1) else {
        return Err(LeafError::Step(StepError::Memory));
    };
    see_in(rt, alloc, parts, seat, hand, first, gate)
}
