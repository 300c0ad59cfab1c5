//! The step that writes all new nodes.
ghost use Rattle.std.specs.Prelude.{◌≡◌, ◌*◌, ◌+◌, ◌<◌, ◌≤◌, ℕ, All, false, true, None, Some, length, vec_capacity, IfErr, IfSome, OnOk, OnErr};
ghost use Rattle.bc_change.specs.Ready.{IsReadyFor};
ghost use Rattle.bc_disk.specs.declared.geometry.Geometry.{Geometry};
ghost use Rattle.bc_held_all.specs.All.{AreHeld};
ghost use Rattle.bc_new_node.specs.Kind.{IsDividedBy};
ghost use Rattle.bc_new_node.specs.bc_hand.Seats.{kinds, world, Works, HasNoneBehindCache};
ghost use Rattle.bc_new_node.specs.bc_machine.World.{FromEach, are_plain, cache_among};
ghost use Rattle.bc_new_node.specs.bc_machine.declared.part.SpinePart.{SpinePart};
ghost use Rattle.bc_new_node.specs.bc_place.Place.{HasBefore};
ghost use Rattle.bc_new_node.specs.bc_place.Written.{KeepsPlaces};
ghost use Rattle.bc_new_nodes.specs.Asked.{ChildrenPoint, MayWriteNodes};
ghost use Rattle.bc_new_nodes.specs.Course.{AreRooms, CanWriteEach, HaveDoneEach, HaveStoppedAt};
ghost use Rattle.bc_new_nodes.specs.Wrote.{HaveNotWritten, HaveWrittenAll, KeepsBuckets, StaysAsked, changed, noted};
ghost use Rattle.bc_tree.specs.Plan.{Fits};

use crate::nodes::{nodes_in, slot_for};
use bc_change::bc_entry::barrier::cache_barrier;
use bc_disk::disk::Disk;
use bc_new_node::bc_hand::error::StepError;
use bc_new_node::bc_hand::hand::Hand;
use bc_new_node::bc_held::held::HeldBucket;
use bc_new_node::bc_machine::machine::{CoreParts, CoreSeat};
use bc_new_node::write::{node_room, write_new_node};
use bc_plan::NewNode;
use bc_tree::Plan;
use std::alloc::Global;
use std::sync::Wait;

/// Writes all new nodes of a plan, whole, to the buckets that the seat holds for them, one behind the
/// other, and makes a barrier of the cache device: then they stand whatever crash comes, and the change
/// that names them may begin. Which bucket is whose follows the places that the plan was made with,
/// from the first one on. The tree is in hand and at rest, which ends with this; it stays in hand.
/// `before` buckets of the device lie before the journal's. Each node takes one promise, and so does
/// the barrier.
///
/// `Memory` says that there was none for the bytes of all nodes; then nothing is done, and the tree is
/// at rest. `Fault` says that a call of the device failed, which is committed then, and `Halted` that a
/// device had halted the run before it. Then it stays noted that the tree changes: some new nodes may
/// be there that nothing names, and in this run nobody changes the tree any more. Whatever comes, the
/// seat keeps its places and its buckets.
pub fn write_new_nodes<C: Disk + Drop, B: Disk + Drop, R: Wait>(
    rt: &R,
    alloc: Global,
    parts: &CoreParts<C, B>,
    seat: &mut CoreSeat<C, B>,
    hand: &mut Hand<C, B>,
    before: u32,
    plan: &mut Plan,
    buckets: &[HeldBucket],
) -> Result<(), StepError>
    requires works { Works C.facts B.facts parts.now seat.old hand.old }
    requires cached { are_plain C.facts B.facts parts.now.run.start ≡ false }
    requires promise { length buckets.now + 1 ≤ seat.old.promises }
    requires order { hand.old.cache ≡ None → HasNoneBehindCache hand.old }
    requires before { FromEach (world C.facts B.facts seat.old) (HasBefore before) }
    requires may { MayWriteNodes hand.old (cache_among C.facts B.facts parts.now.run.start).sectors
        plan.old buckets.now }
    requires divided { (spine : SpinePart) → hand.old.spine ≡ Some spine
        → FromEach (world C.facts B.facts seat.old) (IsDividedBy spine.spine.geometry) }
    requires points { (spine : SpinePart) → hand.old.spine ≡ Some spine
        → FromEach (world C.facts B.facts seat.old) (ChildrenPoint spine.spine.geometry plan.old) }
    requires are { AreHeld C.facts B.facts buckets.now seat.old }
    ensures works { Works C.facts B.facts parts.now seat.new hand.new }
    ensures kinds { kinds hand.new ≡ kinds hand.old }
    ensures ok { OnOk result ((spine : SpinePart) → hand.old.spine ≡ Some spine
        → HaveWrittenAll C.facts B.facts before spine.spine.geometry buckets.now plan.old plan.new
        seat.old seat.new) }
    ensures hand { OnOk result ((spine : SpinePart) → hand.old.spine ≡ Some spine
        → hand.new ≡ changed hand.old spine (length buckets.now) hand.new.cache) }
    ensures ready { OnOk result (FromEach (world C.facts B.facts seat.new)
        (IsReadyFor seat.new.first plan.new)) }
    ensures fits { OnOk result ((spine : SpinePart) → hand.old.spine ≡ Some spine
        → Fits spine.spine plan.new) }
    ensures same { OnOk result (StaysAsked plan.old plan.new) }
    ensures err { IfErr result (λ error. (spine : SpinePart) → hand.old.spine ≡ Some spine
        → HaveNotWritten C.facts B.facts error before buckets.now plan.old plan.new spine hand.old
        hand.new seat.old seat.new) }
    ensures left { seat.old.promises ≤ seat.new.promises + length buckets.now + 1 }
    ensures held { KeepsBuckets C.facts B.facts seat.old seat.new }
    ensures places { KeepsPlaces C.facts B.facts seat.old seat.new }
{
    let Some(nodes) = nodes_in(alloc, plan) else {
        return Err(StepError::Memory);
    };
    let Some(mut rooms) = rooms_for(alloc, hand, buckets.len()) else {
        return Err(StepError::Memory);
    };
    note_change(hand);
    if let Err(error) = write_each(
        rt, parts, seat, hand, before, plan, &nodes, buckets, &mut rooms,
    ) {
        return Err(error);
    }
    cache_barrier(rt, parts, seat, hand)
}

// Room for the bytes of so many nodes of the tree in hand, where there is memory for all.
fn rooms_for<C, B>(alloc: Global, hand: &Hand<C, B>, count: usize) -> Option<Vec<Vec<u8>>>
    requires { (spine : SpinePart) × (hand.now.spine ≡ Some spine) }
    ensures many { IfSome result (λ rooms. length rooms.items ≡ count) }
    ensures are { IfSome result (λ rooms. (spine : SpinePart) → hand.now.spine ≡ Some spine
        → AreRooms spine.spine.geometry rooms.items) }
{
    let Ok(mut rooms) = Vec::with_capacity(alloc, count) else {
        return None;
    };
    let mut done = 0usize;
    while done < count {
        let room = node_room(alloc, hand)?;
        rooms.push_reserved(room);
        done += 1;
    }
    Some(rooms)
}

// Notes that the tree in hand changes.
fn note_change<C, B>(hand: &mut Hand<C, B>)
    requires { (spine : SpinePart) × (hand.old.spine ≡ Some spine) }
    ensures { (spine : SpinePart) → hand.old.spine ≡ Some spine
        → hand.new ≡ noted hand.old spine }
{
    let Some(mut spine) = hand.spine.take() else {
        unreachable!()
    };
    let part = spine.get_mut();
    part.changing = true;
    hand.spine = Some(spine);
}

// Writes these nodes, one behind the other, each to the bucket at its place.
fn write_each<C: Disk + Drop, B: Disk + Drop, R: Wait>(
    rt: &R,
    parts: &CoreParts<C, B>,
    seat: &mut CoreSeat<C, B>,
    hand: &mut Hand<C, B>,
    before: u32,
    plan: &mut Plan,
    nodes: &[NewNode],
    buckets: &[HeldBucket],
    rooms: &mut Vec<Vec<u8>>,
) -> Result<(), StepError>
    requires works { Works C.facts B.facts parts.now seat.old hand.old }
    requires cached { are_plain C.facts B.facts parts.now.run.start ≡ false }
    requires promise { length buckets.now ≤ seat.old.promises }
    requires order { hand.old.cache ≡ None → HasNoneBehindCache hand.old }
    requires before { FromEach (world C.facts B.facts seat.old) (HasBefore before) }
    requires can { CanWriteEach C.facts B.facts hand.old
        (cache_among C.facts B.facts parts.now.run.start).sectors before plan.old nodes.now
        buckets.now rooms.old.items seat.old }
    ensures works { Works C.facts B.facts parts.now seat.new hand.new }
    ensures kinds { kinds hand.new ≡ kinds hand.old }
    ensures ok { OnOk result ((spine : SpinePart) → hand.old.spine ≡ Some spine
        → HaveDoneEach C.facts B.facts before spine nodes.now buckets.now plan.old plan.new hand.old
        hand.new seat.old seat.new) }
    ensures err { IfErr result (λ error. (spine : SpinePart) → hand.old.spine ≡ Some spine
        → HaveStoppedAt C.facts B.facts error before nodes.now buckets.now plan.old plan.new spine
        hand.old hand.new seat.old seat.new) }
    ensures left { seat.old.promises ≤ seat.new.promises + length buckets.now }
    ensures held { KeepsBuckets C.facts B.facts seat.old seat.new }
    ensures places { KeepsPlaces C.facts B.facts seat.old seat.new }
{
    let mut done = 0usize;
    while done < nodes.len() {
        let node = nodes[done];
        let slot = slot_for(plan, node);
        let Some(room) = rooms.pop() else {
            unreachable!()
        };
        if let Err(error) = write_new_node(
            rt,
            parts,
            seat,
            hand,
            before,
            plan,
            node,
            slot,
            buckets[done],
            room,
        ) {
            return Err(error);
        }
        done += 1;
    }
    Ok(())
}
