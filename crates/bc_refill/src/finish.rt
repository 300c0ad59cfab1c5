//! The entry of a new chain, and what it frees made ready.
ghost use Rattle.std.specs.Prelude.{◌≡◌, ◌+◌, ◌*◌, ◌≤◌, [], false, length, Some, vec_capacity, IfErr, OnOk};
ghost use Rattle.bc_new_chain.specs.Beside.{KeepsHeldBeside};
ghost use Rattle.bc_new_chain.specs.Put.{IsChainCause};
ghost use Rattle.bc_new_chain.specs.Seal.{MaySealChain};
ghost use Rattle.bc_new_chain.specs.bc_hand.Seats.{Works, kinds, world};
ghost use Rattle.bc_new_chain.specs.bc_machine.World.{are_plain, cache_among};
ghost use Rattle.bc_new_chain.specs.bc_machine.declared.part.BucketsPart.{BucketsPart as PartSeen};
ghost use Rattle.bc_new_chain.specs.bc_place.Written.{KeepsPlaces};
ghost use Rattle.bc_refill.specs.Hands.{HasAll};
ghost use Rattle.bc_refill.specs.Named.{HasFinished, HasNotFinished};

use bc_disk::disk::Disk;
use bc_disk::geometry::Geometry;
use bc_events::event::Listing;
use bc_new_chain::bc_entry::room::EntryRoom;
use bc_new_chain::bc_hand::error::StepError;
use bc_new_chain::bc_hand::hand::Hand;
use bc_new_chain::bc_machine::machine::{CoreParts, CoreSeat};
use bc_new_chain::put::put_chain_entry;
use bc_new_chain::room::ChainRoom;
use bc_ready::ready::make_ready;
use std::sync::Wait;

// Puts the entry that names the chain in these buckets, and makes ready what it frees: all raised
// buckets, whose generations the chain has, and the chain before. Buckets, journal and cache device
// are in hand. All memory is there; room for six deeds is promised.
pub(crate) fn finish<C: Disk + Drop, B: Disk + Drop, R: Wait>(
    rt: &R,
    parts: &CoreParts<C, B>,
    seat: &mut CoreSeat<C, B>,
    hand: &mut Hand<C, B>,
    g: &Geometry,
    new: Vec<u32>,
    chain: ChainRoom,
    entry: EntryRoom,
    back: Vec<u32>,
    listed: Vec<Listing>,
) -> Result<(), StepError>
    requires works { Works C.facts B.facts parts.now seat.old hand.old }
    requires cached { are_plain C.facts B.facts parts.now.run.start ≡ false }
    requires promise { 6 ≤ seat.old.promises }
    requires all { HasAll g.now hand.old }
    requires may { MaySealChain hand.old seat.old.first new.items
        (world C.facts B.facts seat.old) }
    requires room { length new.items ≤ chain.len }
    requires back { (back.items ≡ []) × ((p : PartSeen) → hand.old.buckets ≡ Some p
        → length p.chain.items ≤ vec_capacity back) }
    requires listed { (listed.items ≡ []) × ((p : PartSeen) → hand.old.buckets ≡ Some p
        → length p.reserves.raised ≤ vec_capacity listed) }
    requires disk { g.now.bucket * g.now.nbuckets
        ≤ (cache_among C.facts B.facts parts.now.run.start).sectors }
    ensures works { Works C.facts B.facts parts.now seat.new hand.new }
    ensures kinds { kinds hand.new ≡ kinds hand.old }
    ensures ok { OnOk result (HasFinished C.facts B.facts g.now new hand.old hand.new seat.old
        seat.new) }
    ensures err { IfErr result (λ error. HasNotFinished C.facts B.facts error new.items hand.old
        hand.new seat.old seat.new) }
    ensures cause { IfErr result (λ error. IsChainCause error seat.new.seen) }
    ensures left { seat.old.promises ≤ seat.new.promises + 6 }
    ensures keeps { KeepsPlaces C.facts B.facts seat.old seat.new }
    ensures held { KeepsHeldBeside C.facts B.facts new.items seat.old seat.new }
{
    match put_chain_entry(rt, parts, seat, hand, &new, chain, entry) {
        Ok(()) => {}
        Err(error) => return Err(error),
    }
    let before = u32::from(g.first_bucket);
    let named = raised_len(hand);
    make_ready(rt, parts, seat, hand, before, named, new, back, listed)
}

// How many raised buckets wait.
pub(crate) fn raised_len<C, B>(hand: &Hand<C, B>) -> u32
    requires { (p : PartSeen) × (hand.now.buckets ≡ Some p) }
    ensures { (p : PartSeen) → hand.now.buckets ≡ Some p → result ≡ length p.reserves.raised }
{
    let Some(buckets) = &hand.buckets else {
        unreachable!()
    };
    buckets.get().reserves.raised_len()
}
