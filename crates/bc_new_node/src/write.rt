//! The step that writes a new node.
ghost use Rattle.std.specs.Prelude.{◌≡◌, ◌*◌, ◌+◌, ◌-◌, ◌^◌, ◌<◌, ◌≤◌, ℕ, false, true, None, Some, length, IfErr, IfSome, OnOk, OnErr};
ghost use Rattle.bc_disk.specs.declared.geometry.Geometry.{Geometry};
ghost use Rattle.bc_events.specs.Columns.{outlasts_halt};
ghost use Rattle.bc_held.specs.Held.{IsHeldFor, IsVacantIn};
ghost use Rattle.bc_held.specs.bc_hand.Seats.{core, by, kinds, world, IsCoreSeat, MayDo, Works, Did, HasNoneBehindCache};
ghost use Rattle.bc_held.specs.bc_machine.World.{FromEach, are_plain, cache_among, changes};
ghost use Rattle.bc_held.specs.bc_machine.declared.part.SpinePart.{SpinePart};
ghost use Rattle.bc_held.specs.bc_place.Place.{HasBefore};
ghost use Rattle.bc_held.specs.bc_place.Written.{KeepsPlaces};
ghost use Rattle.bc_new_node.specs.Kind.{HasNoNode, IsDividedBy, IsSmall, IsWrittenNew, MayWriteNew};
ghost use Rattle.bc_new_node.specs.Wrote.{HasFailedToWriteNew, HasWrittenNew, IsSentNew, KeepsDraftsBut, answer_to, lost_by, numbered, sent_by, write_by};
ghost use Rattle.bc_parts.specs.Seat.{Holds};
ghost use Rattle.bc_plan.specs.Write.{CanWrite, HasNodeWritten};
ghost use Rattle.bc_seats.specs.Seats.{Kept};
ghost use Rattle.bc_tree.specs.Plan.{Fits};
ghost use Rattle.bc_tree.specs.Spine.{Spine};

use crate::node::write_of;
use bc_disk::disk::{Device, Disk, Failed};
use bc_disk::geometry::Geometry;
use bc_events::event::{Deed, Failure, Written};
use bc_held::bc_hand::error::StepError;
use bc_held::bc_hand::hand::Hand;
use bc_held::bc_hand::lend::{borrow_cache, return_cache};
use bc_held::bc_hand::seat::commit;
use bc_held::bc_machine::machine::{CoreParts, CoreSeat};
use bc_held::held::HeldBucket;
use bc_model::values::Values;
use bc_plan::{NewNode, write_node};
use bc_tree::Plan;
use std::alloc::Global;
use std::sync::Wait;

/// Writes a new node of a plan, whole, to the bucket that the seat holds for it: its first set, with
/// the number that the next new node gets, and zeros behind it. The tree is in hand, of which a
/// change is under way, and `slot` is the number of the leaf, where it is one; the slot of an inner
/// node is its bucket's number. `before` buckets of the device lie before the journal's.
///
/// From then on the slot has the node as a draft, which a barrier of the cache device makes stable.
///
/// `room` is what `node_room` gives: so that a change of which some nodes are written is never given up
/// for want of memory, all of it is there before the first one is.
///
/// `Fault` says that the write itself failed, which is committed then: the node isn't there, and its
/// number is used up all the same. `Halted` says that a device had halted the run before; then
/// nothing was done. Whatever comes, the seat knows of other new nodes, of its places and of the
/// buckets that it holds what it knew.
pub fn write_new_node<C: Disk + Drop, B: Disk + Drop, R: Wait>(
    rt: &R,
    parts: &CoreParts<C, B>,
    seat: &mut CoreSeat<C, B>,
    hand: &mut Hand<C, B>,
    before: u32,
    plan: &mut Plan,
    node: NewNode,
    slot: u32,
    bucket: HeldBucket,
    room: Vec<u8>,
) -> Result<(), StepError>
    requires works { Works C.facts B.facts parts.now seat.old hand.old }
    requires cached { are_plain C.facts B.facts parts.now.run.start ≡ false }
    requires promise { 0 < seat.old.promises }
    requires room { (spine : SpinePart) → hand.old.spine ≡ Some spine
        → length room.items ≡ 512 * spine.spine.geometry.node_sectors }
    requires order { hand.old.cache ≡ None → HasNoneBehindCache hand.old }
    requires before { FromEach (world C.facts B.facts seat.old) (HasBefore before) }
    requires may { MayWriteNew hand.old (cache_among C.facts B.facts parts.now.run.start).sectors
        plan.old node bucket }
    requires divided { (spine : SpinePart) → hand.old.spine ≡ Some spine
        → FromEach (world C.facts B.facts seat.old) (IsDividedBy spine.spine.geometry) }
    requires free { FromEach (world C.facts B.facts seat.old)
        (HasNoNode plan.old node slot (bucket.bucket - before)) }
    requires held { FromEach (world C.facts B.facts seat.old) (IsHeldFor seat.old.first bucket) }
    requires vacant { FromEach (world C.facts B.facts seat.old) (IsVacantIn bucket) }
    ensures works { Works C.facts B.facts parts.now seat.new hand.new }
    ensures kinds { kinds hand.new ≡ kinds hand.old }
    ensures ok { OnOk result ((spine : SpinePart) → hand.old.spine ≡ Some spine
        → HasWrittenNew C.facts B.facts write_by before spine.spine.geometry plan.old node slot
        bucket seat.old seat.new) }
    ensures plan { OnOk result ((spine : SpinePart) → hand.old.spine ≡ Some spine
        → HasNodeWritten spine.spine.geometry node plan.old plan.new
        × Fits spine.spine plan.new) }
    ensures knows { OnOk result ((spine : SpinePart) → hand.old.spine ≡ Some spine
        → FromEach (world C.facts B.facts seat.new)
        (IsWrittenNew spine.spine.geometry plan.old node slot (bucket.bucket - before))) }
    ensures number { OnOk result ((spine : SpinePart) → hand.old.spine ≡ Some spine
        → hand.new ≡ numbered hand.old spine hand.new.cache) }
    ensures err { IfErr result (λ error. (spine : SpinePart) → hand.old.spine ≡ Some spine
        → HasFailedToWriteNew C.facts B.facts error before plan.old node slot bucket spine hand.old
        hand.new seat.old seat.new) }
    ensures kept { OnErr result (plan.new ≡ plan.old) }
    ensures left { seat.old.promises ≤ seat.new.promises + 1 }
    ensures drafts { KeepsDraftsBut C.facts B.facts slot (bucket.bucket - before) bucket seat.old
        seat.new }
    ensures places { KeepsPlaces C.facts B.facts seat.old seat.new }
{
    if let Some(device) = seat.heard() {
        return Err(StepError::Halted(device));
    }
    let g = geometry_in(hand);
    let (mut cache, taken) = borrow_cache(rt, parts, seat, hand);
    let done = write_in(
        rt, parts, seat, hand, before, plan, node, slot, bucket, &g, &mut cache, room,
    );
    return_cache(parts, seat, hand, cache, taken);
    done
}

// How the device is divided, as the tree in hand has it.
fn geometry_in<C, B>(hand: &Hand<C, B>) -> Geometry
    requires { (spine : SpinePart) × (hand.now.spine ≡ Some spine) }
    ensures { (spine : SpinePart) → hand.now.spine ≡ Some spine → result ≡ spine.spine.geometry }
{
    let Some(spine) = &hand.spine else {
        unreachable!()
    };
    *spine.get().spine.geometry()
}

/// Room for the bytes of a node of the tree in hand, where there is memory for it.
pub fn node_room<C, B>(alloc: Global, hand: &Hand<C, B>) -> Option<Vec<u8>>
    requires { (spine : SpinePart) × (hand.now.spine ≡ Some spine) }
    ensures { IfSome result (λ room. (spine : SpinePart) → hand.now.spine ≡ Some spine
        → length room.items ≡ 512 * spine.spine.geometry.node_sectors) }
{
    let g = geometry_in(hand);
    vec![in alloc; 0u8; 512 * usize::from(g.node_sectors)].ok()
}

// Gives the next new node the next number.
fn raise_number<C, B>(hand: &mut Hand<C, B>)
    requires { (spine : SpinePart) × (hand.old.spine ≡ Some spine)
        × (spine.next_seq + 1 < 2 ^ 64) }
    ensures { (spine : SpinePart) → hand.old.spine ≡ Some spine
        → hand.new ≡ numbered hand.old spine hand.old.cache }
{
    let Some(mut spine) = hand.spine.take() else {
        unreachable!()
    };
    let part = spine.get_mut();
    part.next_seq += 1;
    hand.spine = Some(spine);
}

// The same, of the device in hand, with room for a node's bytes.
fn write_in<C: Disk + Drop, B: Disk + Drop, R: Wait>(
    rt: &R,
    parts: &CoreParts<C, B>,
    seat: &mut CoreSeat<C, B>,
    hand: &mut Hand<C, B>,
    before: u32,
    plan: &mut Plan,
    node: NewNode,
    slot: u32,
    bucket: HeldBucket,
    g: &Geometry,
    cache: &mut C,
    buffer: Vec<u8>,
) -> Result<(), StepError>
    requires works { Works C.facts B.facts parts.now seat.old
        (record hand.old { cache = Some cache.old }) }
    requires unheard { seat.old.heard ≡ None }
    requires cached { are_plain C.facts B.facts parts.now.run.start ≡ false }
    requires promise { 0 < seat.old.promises }
    requires may { (can : MayWriteNew hand.old (C.facts cache.old).sectors plan.old node bucket)
        × (g.now ≡ can.spine.spine.geometry) }
    requires whole { length buffer.items ≡ 512 * g.now.node_sectors }
    requires before { FromEach (world C.facts B.facts seat.old) (HasBefore before) }
    requires divided { FromEach (world C.facts B.facts seat.old) (IsDividedBy g.now) }
    requires free { FromEach (world C.facts B.facts seat.old)
        (HasNoNode plan.old node slot (bucket.bucket - before)) }
    requires held { FromEach (world C.facts B.facts seat.old) (IsHeldFor seat.old.first bucket) }
    requires vacant { FromEach (world C.facts B.facts seat.old) (IsVacantIn bucket) }
    ensures works { Works C.facts B.facts parts.now seat.new
        (record hand.new { cache = Some cache.new }) }
    ensures number { (spine : SpinePart) → hand.old.spine ≡ Some spine
        → hand.new ≡ numbered hand.old spine hand.old.cache }
    ensures ok { OnOk result (HasWrittenNew C.facts B.facts write_by before g.now plan.old node slot
        bucket seat.old seat.new) }
    ensures plan { OnOk result (HasNodeWritten g.now node plan.old plan.new) }
    ensures fits { (spine : Spine) → Fits spine plan.old → Fits spine plan.new }
    ensures knows { OnOk result (FromEach (world C.facts B.facts seat.new)
        (IsWrittenNew g.now plan.old node slot (bucket.bucket - before))) }
    ensures err { IfErr result (λ error. (error ≡ StepError.Fault Device.Cache)
        × HasWrittenNew C.facts B.facts lost_by before g.now plan.old node slot bucket seat.old
        seat.new) }
    ensures kept { OnErr result (plan.new ≡ plan.old) }
    ensures left { seat.old.promises ≤ seat.new.promises + 1 }
    ensures drafts { KeepsDraftsBut C.facts B.facts slot (bucket.bucket - before) bucket seat.old
        seat.new }
    ensures places { KeepsPlaces C.facts B.facts seat.old seat.new }
{
    let number = bucket.bucket.saturating_sub(before);
    let (what, values, sent) = send(plan, node, slot, number, g, cache, buffer);
    raise_number(hand);
    commit_sent(rt, parts, seat, bucket.to.offset, what, values, sent)
}

// The one call of the device by which the node is written, with what that is to the core.
fn send<D: Disk>(
    plan: &mut Plan,
    node: NewNode,
    slot: u32,
    number: u32,
    g: &Geometry,
    disk: &mut D,
    mut buffer: Vec<u8>,
) -> (Written, Values, Result<(), Failed>)
    requires fits { (spine : Spine) × (spine.geometry ≡ g.now) × Fits spine plan.old }
    requires can { CanWrite g.now (D.facts disk.old).sectors plan.old node }
    requires small { IsSmall g.now plan.old node }
    requires whole { length buffer.items ≡ 512 * g.now.node_sectors }
    ensures sent { IsSentNew g.now plan.old node slot number result.0 result.1 result.2
        (D.facts disk.old) (D.facts disk.new) }
    ensures plan { OnOk result.2 (HasNodeWritten g.now node plan.old plan.new) }
    ensures kept { OnErr result.2 (plan.new ≡ plan.old) }
    ensures fits { (spine : Spine) → Fits spine plan.old → Fits spine plan.new }
{
    let what = write_of(plan, node, slot, number, g);
    let sent = write_node(plan, node, disk, g, &mut buffer);
    let values = Values::from_raw(buffer);
    (what, values, sent)
}

// Commits the call of the cache device, by what came of it, which no halt keeps out of a seat that
// wasn't told of one.
fn commit_sent<C: Disk, B: Disk, R: Wait>(
    rt: &R,
    parts: &CoreParts<C, B>,
    seat: &mut CoreSeat<C, B>,
    at: u64,
    what: Written,
    values: Values,
    sent: Result<(), Failed>,
) -> Result<(), StepError>
    requires run { seat.old.run ≡ parts.now.run }
    requires seat { IsCoreSeat C.facts B.facts seat.old }
    requires promise { 0 < seat.old.promises }
    requires holds { (k : ℕ) → changes (length seat.old.run.start)
        (by seat.old.first (sent_by at what values sent)) k ≡ true → Holds seat.old.parts k }
    requires may { MayDo C.facts B.facts seat.old (sent_by at what values sent) }
    ensures kept { Kept (core C.facts B.facts) seat.old seat.new
        (changes (length seat.old.run.start) (by seat.old.first (sent_by at what values sent))) }
    ensures did { Did C.facts B.facts (Some (sent_by at what values sent)) seat.old seat.new }
    ensures answer { result ≡ answer_to sent }
{
    match sent {
        Ok(()) => {
            called(rt, parts, seat, Deed::CacheWrite { at, what, values });
            Ok(())
        }
        Err(_) => {
            let failure = Failure::CacheWrite { at, what, values };
            called(rt, parts, seat, Deed::DeviceFault { failure });
            Err(StepError::Fault(Device::Cache))
        }
    }
}

// Commits a call of the cache device.
fn called<C: Disk, B: Disk, R: Wait>(
    rt: &R,
    parts: &CoreParts<C, B>,
    seat: &mut CoreSeat<C, B>,
    deed: Deed,
)
    requires run { seat.old.run ≡ parts.now.run }
    requires seat { IsCoreSeat C.facts B.facts seat.old }
    requires promise { 0 < seat.old.promises }
    requires holds { (k : ℕ) → changes (length seat.old.run.start) (by seat.old.first deed) k ≡ true
        → Holds seat.old.parts k }
    requires may { MayDo C.facts B.facts seat.old deed }
    requires outlasts { outlasts_halt deed ≡ true }
    ensures kept { Kept (core C.facts B.facts) seat.old seat.new
        (changes (length seat.old.run.start) (by seat.old.first deed)) }
    ensures did { Did C.facts B.facts (Some deed) seat.old seat.new }
{
    let Ok(()) = commit(rt, parts, seat, deed) else {
        unreachable!()
    };
}
