//! The step that makes buckets ready.
ghost use Rattle.std.specs.Prelude.{◌≡◌, ◌<◌, ◌≤◌, ◌==◌, ℕ, [], false, true, None, Some, is_some, length, take, vec_capacity, OnOk, OnErr, IfErr};
ghost use Rattle.bc_parts.specs.Seat.{Holds};
ghost use Rattle.bc_raise.specs.bc_deed.Asked.{IsHalted};
ghost use Rattle.bc_raise.specs.bc_hand.Seats.{core, world, IsCoreSeat, Works, Did};
ghost use Rattle.bc_raise.specs.bc_machine.World.{AreBuckets, FromEach, are_plain};
ghost use Rattle.bc_raise.specs.bc_machine.declared.part.BucketsPart.{BucketsPart as PartSeen};
ghost use Rattle.bc_raise.specs.bc_place.Place.{HasBefore};
ghost use Rattle.bc_raise.specs.bc_place.Written.{KeepsPlaces};
ghost use Rattle.bc_raise.specs.bc_renew.Ready.{HasMadeReady, MayReady};
ghost use Rattle.bc_ready.specs.Ready.{HasMadeReadyIn, HasReadied};
ghost use Rattle.bc_seats.specs.Seats.{Kept};

use crate::go::go_to_lists;
use crate::plan::{back_in, listed_in};
use bc_disk::disk::Disk;
use bc_events::event::{Deed, Listing};
use bc_raise::bc_hand::error::StepError;
use bc_raise::bc_hand::hand::Hand;
use bc_raise::bc_hand::seat::commit;
use bc_raise::bc_machine::machine::{CoreParts, CoreSeat};
use bc_raise::bc_machine::part::BucketsPart;
use std::sync::Wait;

/// Makes ready what a durable entry with a new chain allows: the buckets `new` of the chain are
/// metadata and no longer held, and it is the chain in hand; those of the one before go back to the
/// list for priority sets, as far as it has room; and the first `named` raised buckets, whose
/// generations the chain has, go to the first list that has room, in the order priorities, moving,
/// tree, plain. A trace round that goes on settles no bucket of the new chain. `back` and `listed`
/// are empty, with room for the event's lists. The buckets and the journal are in hand. `before`
/// buckets of the device lie before the journal's. Takes no memory.
///
/// `Halted` names the device that halted the run; then nothing is done.
pub fn make_ready<C: Disk + Drop, B: Disk + Drop, R: Wait>(
    rt: &R,
    parts: &CoreParts<C, B>,
    seat: &mut CoreSeat<C, B>,
    hand: &mut Hand<C, B>,
    before: u32,
    named: u32,
    new: Vec<u32>,
    back: Vec<u32>,
    listed: Vec<Listing>,
) -> Result<(), StepError>
    requires works { Works C.facts B.facts parts.now seat.old hand.old }
    requires cached { are_plain C.facts B.facts parts.now.run.start ≡ false }
    requires promise { 0 < seat.old.promises }
    requires before { FromEach (world C.facts B.facts seat.old) (HasBefore before) }
    requires journal { is_some hand.old.journal ≡ true }
    requires back { back.items ≡ [] }
    requires listed { (listed.items ≡ []) × (named ≤ vec_capacity listed) }
    requires may { (p : PartSeen) × (hand.old.buckets ≡ Some p)
        × (named ≤ length p.reserves.raised) × (length p.chain.items ≤ vec_capacity back)
        × FromEach (world C.facts B.facts seat.old)
        (MayReady seat.old.first (take named p.reserves.raised) new.items) }
    ensures works { Works C.facts B.facts parts.now seat.new hand.new }
    ensures part { OnOk result (HasMadeReadyIn C.facts B.facts hand.old named new hand.new
        seat.new) }
    ensures ok { OnOk result ((p : PartSeen) × (hand.old.buckets ≡ Some p)
        × HasReadied C.facts B.facts before p named seat.old seat.new) }
    ensures err { OnErr result (Did C.facts B.facts None seat.old seat.new) }
    ensures same { OnErr result (hand.new ≡ hand.old) }
    ensures cause { IfErr result (λ error. IsHalted error seat.new.seen) }
    ensures keeps { KeepsPlaces C.facts B.facts seat.old seat.new }
{
    let Some(mut buckets) = hand.buckets.take() else {
        unreachable!()
    };
    let done = ready_in(
        rt,
        parts,
        seat,
        buckets.get_mut(),
        before,
        named,
        new,
        back,
        listed,
    );
    hand.buckets = Some(buckets);
    done
}

// The same, of the part in hand.
fn ready_in<C: Disk, B: Disk, R: Wait>(
    rt: &R,
    parts: &CoreParts<C, B>,
    seat: &mut CoreSeat<C, B>,
    part: &mut BucketsPart,
    before: u32,
    named: u32,
    new: Vec<u32>,
    mut back: Vec<u32>,
    mut listed: Vec<Listing>,
) -> Result<(), StepError>
    requires run { seat.old.run ≡ parts.now.run }
    requires seat { IsCoreSeat C.facts B.facts seat.old }
    requires cached { are_plain C.facts B.facts parts.now.run.start ≡ false }
    requires promise { 0 < seat.old.promises }
    requires holds { Holds seat.old.parts 2 }
    requires journal { Holds seat.old.parts 3 }
    requires buckets { AreBuckets part.old (world C.facts B.facts seat.old) }
    requires before { FromEach (world C.facts B.facts seat.old) (HasBefore before) }
    requires back { (back.items ≡ []) × (length part.old.chain.items ≤ vec_capacity back) }
    requires listed { (listed.items ≡ []) × (named ≤ vec_capacity listed) }
    requires named { named ≤ length part.old.reserves.raised }
    requires may { FromEach (world C.facts B.facts seat.old)
        (MayReady seat.old.first (take named part.old.reserves.raised) new.items) }
    ensures seat { IsCoreSeat C.facts B.facts seat.new }
    ensures kept { Kept (core C.facts B.facts) seat.old seat.new (λ k. k == 2) }
    ensures buckets { AreBuckets part.new (world C.facts B.facts seat.new) }
    ensures part { OnOk result (FromEach (world C.facts B.facts seat.new)
        (λ o st. HasMadeReady part.old named new part.new)) }
    ensures ok { OnOk result (HasReadied C.facts B.facts before part.old named seat.old
        seat.new) }
    ensures err { OnErr result (Did C.facts B.facts None seat.old seat.new) }
    ensures same { OnErr result (part.new ≡ part.old) }
    ensures cause { IfErr result (λ error. IsHalted error seat.new.seen) }
    ensures keeps { KeepsPlaces C.facts B.facts seat.old seat.new }
{
    back_in(part, before, &mut back);
    listed_in(part, before, named, &mut listed);
    let deed = Deed::Ready {
        back,
        named: listed,
    };
    if let Err(device) = commit(rt, parts, seat, deed) {
        return Err(StepError::Halted(device));
    }
    go_to_lists(part, named, new);
    Ok(())
}
