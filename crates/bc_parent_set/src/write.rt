//! The step that writes the set by which a change of the tree is made.
ghost use Rattle.std.specs.Prelude.{◌≡◌, ◌*◌, ◌+◌, ◌<◌, ◌≤◌, ℕ, false, true, List, None, Some, length, IfErr, OnOk, OnErr, slice_get, take};
ghost use Rattle.bc_change.specs.Ready.{IsTree};
ghost use Rattle.bc_change.specs.bc_hand.Seats.{Did, IsCoreSeat, MayDo, Works, by, core, kinds, world};
ghost use Rattle.bc_change.specs.bc_machine.World.{are_plain, changes};
ghost use Rattle.bc_change.specs.bc_machine.declared.part.SpinePart.{SpinePart};
ghost use Rattle.bc_append.specs.bc_place.Written.{KeepsPlaces};
ghost use Rattle.bc_events.specs.Columns.{outlasts_halt};
ghost use Rattle.bc_events.specs.declared.event.Deed.{Deed};
ghost use Rattle.bc_inner.specs.Inner.{Inner};
ghost use Rattle.bc_key.specs.declared.key.Key.{Key};
ghost use Rattle.bc_node.specs.Writing.{set_of};
ghost use Rattle.bc_parent_set.specs.Takes.{IsTaker, TakesAlone};
ghost use Rattle.bc_parent_set.specs.Write.{CanSendParent, HasFailedParent, HasSentParent, HasWrittenParent, IsSentParent, MayWriteParent, answer_to, parent_place, sent_by};
ghost use Rattle.bc_parts.specs.Seat.{Holds};
ghost use Rattle.bc_plan.specs.Parent.{TakesSet};
ghost use Rattle.bc_seats.specs.Seats.{Kept};
ghost use Rattle.bc_set.specs.Records.{set_sectors};
ghost use Rattle.bc_tree.specs.Needs.{has_room, words};
ghost use Rattle.bc_tree.specs.Plan.{Fits};
ghost use Rattle.bc_tree.specs.Spine.{bottom};

use bc_change::bc_hand::error::StepError;
use bc_change::bc_hand::hand::Hand;
use bc_change::bc_hand::seat::commit;
use bc_change::bc_machine::machine::{CoreParts, CoreSeat};
use bc_disk::disk::{Device, Disk, Failed};
use bc_events::event::{Change, Deed, Failure, Written};
use bc_inner::Inner;
use bc_key::Key;
use bc_keys::word_count;
use bc_model::values::Values;
use bc_node::in_blocks;
use bc_plan::write_parent;
use bc_tree::{NodeChange, Plan, Spine};
use std::sync::Wait;

/// Writes the set by which a planned change of the tree is made, behind the other sets of the node
/// that takes it, whose slot is given. The tree, the leaves that go and the cache device are in
/// hand, and stay so. The new nodes stand on the device by then. `room` has the length of a node.
///
/// From then on a crash may find the change, and from the next barrier of the cache device on it
/// does. In memory the tree is as it was until the change is installed, but for the set that the
/// node knows now.
///
/// `Fault` says that the write itself failed, which is committed then: of the set the device has
/// nothing, or a part, or all. `Halted` says that a device had halted the run before; then nothing was
/// done. No memory is taken. Whatever comes, the seat knows of its places what it knew.
pub fn write_parent_set<C: Disk + Drop, B: Disk + Drop, R: Wait>(
    rt: &R,
    parts: &CoreParts<C, B>,
    seat: &mut CoreSeat<C, B>,
    hand: &mut Hand<C, B>,
    plan: &Plan,
    slot: u32,
    change: Change,
    room: Vec<u8>,
) -> Result<(), StepError>
    requires works { Works C.facts B.facts parts.now seat.old hand.old }
    requires cached { are_plain C.facts B.facts parts.now.run.start ≡ false }
    requires promise { 0 < seat.old.promises }
    requires may { (may : MayWriteParent hand.old (length parts.now.run.start) seat.old.first
        plan.now slot change (world C.facts B.facts seat.old))
        × ((cache : C) × (hand.old.cache ≡ Some cache)
        × (may.taker.ptr.offset + may.spine.spine.geometry.node_sectors
        ≤ (C.facts cache).sectors))
        × (length room.items ≡ 512 * may.spine.spine.geometry.node_sectors) }
    ensures works { Works C.facts B.facts parts.now seat.new hand.new }
    ensures kinds { kinds hand.new ≡ kinds hand.old }
    ensures ok { OnOk result (HasWrittenParent C.facts B.facts plan.now slot change hand.old
        hand.new seat.old seat.new) }
    ensures err { IfErr result (λ error. HasFailedParent C.facts B.facts error plan.now slot change
        hand.old hand.new seat.old seat.new) }
    ensures left { seat.old.promises ≤ seat.new.promises + 1 }
    ensures keeps { KeepsPlaces C.facts B.facts seat.old seat.new }
{
    if let Some(device) = seat.heard() {
        return Err(StepError::Halted(device));
    }
    let (place, values, sent) = send_in(hand, plan, room);
    let what = Written::Parent {
        inner: slot,
        change,
    };
    commit_sent(rt, parts, seat, place, what, values, sent)
}

// The call of the device that writes the set, of the tree and the device in hand.
fn send_in<C: Disk + Drop, B>(
    hand: &mut Hand<C, B>,
    plan: &Plan,
    room: Vec<u8>,
) -> (u64, Values, Result<(), Failed>)
    requires { (p : SpinePart) × (c : C) × (hand.old.spine ≡ Some p) × (hand.old.cache ≡ Some c)
        × CanSendParent (C.facts c).sectors p.spine plan.now (length room.items) }
    ensures { (p : SpinePart) (c : C) → hand.old.spine ≡ Some p → hand.old.cache ≡ Some c
        → HasSentParent C.facts plan.now result.2 result.0 result.1 p c hand.old hand.new }
{
    let Some(mut spine) = hand.spine.take() else {
        unreachable!()
    };
    let Some(mut cache) = hand.cache.take() else {
        unreachable!()
    };
    let sent = send(&mut spine.get_mut().spine, plan, &mut cache, room);
    hand.spine = Some(spine);
    hand.cache = Some(cache);
    sent
}

/// The node that takes the set, and the keys of it.
pub fn taker_of<'a>(spine: &'a Spine, plan: &'a Plan) -> (&'a Inner, &'a [Key])
    requires takes { (at : ℕ) × (taker : Inner) × (put : List Key)
        × IsTaker spine.now plan.now at taker put }
    requires fits { Fits spine.now plan.now }
    ensures { (at : ℕ) × IsTaker spine.now plan.now at result.0.now result.1.now }
{
    match &plan.bottom {
        NodeChange::Set(keys) => {
            let below = spine.below();
            if below.is_empty() {
                return (spine.root(), keys.as_slice());
            }
            (&below[plan.place], keys.as_slice())
        }
        NodeChange::Move(_) => match &plan.top {
            Some(NodeChange::Set(keys)) => (spine.root(), keys.as_slice()),
            _ => unreachable!(),
        },
    }
}

// The one call of the device by which the set is written, with its place and its values.
fn send<D: Disk>(
    spine: &mut Spine,
    plan: &Plan,
    disk: &mut D,
    mut buffer: Vec<u8>,
) -> (u64, Values, Result<(), Failed>)
    requires { CanSendParent (D.facts disk.old).sectors spine.old plan.now (length buffer.items) }
    ensures sent { IsSentParent plan.now result.2 result.0 result.1 spine.old spine.new
        (D.facts disk.old) (D.facts disk.new) }
    ensures kept { OnErr result.2 (spine.new ≡ spine.old) }
    ensures fits { Fits spine.new plan.now }
    ensures tree { IsTree spine.old }
{
    let _ = spine.len();
    let _ = spine.root();
    let (place, count) = place_and_length(spine, plan);
    let sent = write_parent(spine, plan, disk, &mut buffer);
    buffer.truncate(count);
    (place, Values::from_raw(buffer), sent)
}

// Where the set goes, and how many bytes are written for it, in whole blocks.
fn place_and_length(spine: &Spine, plan: &Plan) -> (u64, usize)
    requires fits { Fits spine.now plan.now }
    requires can { (at : ℕ) × (taker : Inner) × (put : List Key)
        × IsTaker spine.now plan.now at taker put
        × (has_room spine.now.geometry taker (words put) ≡ true) }
    ensures place { (at : ℕ) (taker : Inner) (put : List Key)
        → IsTaker spine.now plan.now at taker put → result.0 ≡ parent_place taker }
    ensures count { (at : ℕ) (taker : Inner) (put : List Key)
        → IsTaker spine.now plan.now at taker put
        → result.1 ≡ 512 * set_sectors spine.now.geometry (set_of taker.seq put) }
{
    let g = *spine.geometry();
    let (node, keys) = taker_of(spine, plan);
    let place = node.ptr().offset + u64::from(node.taken());
    (place, 512 * in_blocks(g.block, 32 + 8 * word_count(keys)))
}

// Commits the call of the cache device, by what came of it, which no halt keeps out of a seat that
// wasn't told of one.
fn commit_sent<C: Disk, B: Disk, R: Wait>(
    rt: &R,
    parts: &CoreParts<C, B>,
    seat: &mut CoreSeat<C, B>,
    at: u64,
    what: Written,
    values: Values,
    sent: Result<(), Failed>,
) -> Result<(), StepError>
    requires run { seat.old.run ≡ parts.now.run }
    requires seat { IsCoreSeat C.facts B.facts seat.old }
    requires promise { 0 < seat.old.promises }
    requires holds { (k : ℕ) → changes (length seat.old.run.start)
        (by seat.old.first (sent_by at what values sent)) k ≡ true → Holds seat.old.parts k }
    requires may { MayDo C.facts B.facts seat.old (sent_by at what values sent) }
    ensures kept { Kept (core C.facts B.facts) seat.old seat.new
        (changes (length seat.old.run.start) (by seat.old.first (sent_by at what values sent))) }
    ensures did { Did C.facts B.facts (Some (sent_by at what values sent)) seat.old seat.new }
    ensures answer { result ≡ answer_to sent }
{
    match sent {
        Ok(()) => {
            called(rt, parts, seat, Deed::CacheWrite { at, what, values });
            Ok(())
        }
        Err(_) => {
            let failure = Failure::CacheWrite { at, what, values };
            called(rt, parts, seat, Deed::DeviceFault { failure });
            Err(StepError::Fault(Device::Cache))
        }
    }
}

// Commits a call of the cache device.
fn called<C: Disk, B: Disk, R: Wait>(
    rt: &R,
    parts: &CoreParts<C, B>,
    seat: &mut CoreSeat<C, B>,
    deed: Deed,
)
    requires run { seat.old.run ≡ parts.now.run }
    requires seat { IsCoreSeat C.facts B.facts seat.old }
    requires promise { 0 < seat.old.promises }
    requires holds { (k : ℕ) → changes (length seat.old.run.start) (by seat.old.first deed) k ≡ true
        → Holds seat.old.parts k }
    requires may { MayDo C.facts B.facts seat.old deed }
    requires outlasts { outlasts_halt deed ≡ true }
    ensures kept { Kept (core C.facts B.facts) seat.old seat.new
        (changes (length seat.old.run.start) (by seat.old.first deed)) }
    ensures did { Did C.facts B.facts (Some deed) seat.old seat.new }
{
    let Ok(()) = commit(rt, parts, seat, deed) else {
        unreachable!()
    };
}
