//! Victims that are raised and named.
ghost use Rattle.std.specs.Prelude.{◌≡◌, ◌+◌, ◌*◌, ◌≤◌, All, false, length, Some, vec_capacity, IfErr, OnOk};
ghost use Rattle.bc_alloc.specs.Victims.{AreVictims};
ghost use Rattle.bc_disk.specs.Chain.{sets_in_chain};
ghost use Rattle.bc_journal.specs.Journal.{Journal as JournalSeen};
ghost use Rattle.bc_new_chain.specs.Beside.{KeepsHeldBeside};
ghost use Rattle.bc_new_chain.specs.Put.{IsChainCause};
ghost use Rattle.bc_new_chain.specs.bc_hand.Seats.{Works, kinds};
ghost use Rattle.bc_new_chain.specs.bc_machine.World.{are_plain, cache_among};
ghost use Rattle.bc_new_chain.specs.bc_machine.declared.part.BucketsPart.{BucketsPart as PartSeen};
ghost use Rattle.bc_new_chain.specs.bc_place.Written.{KeepsPlaces};
ghost use Rattle.bc_refill.specs.Hands.{HasAll};
ghost use Rattle.bc_refill.specs.Named.{CanName, IsNamingRoom};
ghost use Rattle.bc_refill.specs.Most.{most_of};
ghost use Rattle.bc_refill.specs.Raised.{HasNotRenewed, HasRenewed, IsSame};
ghost use Rattle.bc_refill.specs.Taken.{AreMine, IsForSet, numbers_of};

use crate::name::name_chain;
use crate::room::NamingRoom;
use bc_disk::disk::Disk;
use bc_disk::geometry::Geometry;
use bc_new_chain::bc_hand::error::StepError;
use bc_new_chain::bc_hand::hand::Hand;
use bc_new_chain::bc_held::held::HeldBucket;
use bc_new_chain::bc_machine::machine::{CoreParts, CoreSeat};
use bc_new_chain::bc_machine::part::BucketsPart;
use bc_ready::bc_raise::raise::raise_all;
use std::sync::Wait;

// Raises the victims of the buckets in hand, and names them and those that were raised before by a
// chain in the buckets that were taken for it. Buckets, journal and cache device are in hand. All
// memory is there; room for as many deeds is promised as the lists have room for buckets and the
// chain has sets, and for six more.
pub(crate) fn renew<C: Disk + Drop, B: Disk + Drop, R: Wait>(
    rt: &R,
    parts: &CoreParts<C, B>,
    seat: &mut CoreSeat<C, B>,
    hand: &mut Hand<C, B>,
    g: &Geometry,
    taken: &[HeldBucket],
    new: Vec<u32>,
    victims: &mut Vec<u32>,
    room: NamingRoom,
) -> Result<(), StepError>
    requires works { Works C.facts B.facts parts.now seat.old hand.old }
    requires cached { are_plain C.facts B.facts parts.now.run.start ≡ false }
    requires all { HasAll g.now hand.old }
    requires can { (p : PartSeen) × (j : JournalSeen) × (hand.old.buckets ≡ Some p)
        × (hand.old.journal ≡ Some j) × CanName g.now p j
        × (most_of p.reserves + (length taken.now + 6) ≤ seat.old.promises)
        × IsNamingRoom g.now (length taken.now) (length p.reserves.raised + most_of p.reserves)
        (length p.chain.items) room }
    requires new { new.items ≡ numbers_of taken.now }
    requires many { length taken.now ≡ sets_in_chain g.now }
    requires fit { All (IsForSet g.now) taken.now }
    requires mine { AreMine C.facts B.facts taken.now seat.old }
    requires room { g.now.nbuckets ≤ vec_capacity victims.old }
    requires disk { g.now.bucket * g.now.nbuckets
        ≤ (cache_among C.facts B.facts parts.now.run.start).sectors }
    ensures works { Works C.facts B.facts parts.now seat.new hand.new }
    ensures kinds { kinds hand.new ≡ kinds hand.old }
    ensures ok { OnOk result (HasRenewed C.facts B.facts g.now new hand.old hand.new seat.old
        seat.new) }
    ensures err { IfErr result (λ error. HasNotRenewed C.facts B.facts error g.now new.items hand.old
        hand.new seat.old seat.new) }
    ensures cause { IfErr result (λ error. IsChainCause error seat.new.seen) }
    ensures left { (p : PartSeen) → hand.old.buckets ≡ Some p
        → seat.old.promises ≤ seat.new.promises + (most_of p.reserves + (length taken.now + 6)) }
    ensures keeps { KeepsPlaces C.facts B.facts seat.old seat.new }
    ensures held { KeepsHeldBeside C.facts B.facts new.items seat.old seat.new }
{
    let _ = taken;
    find_victims(hand, victims);
    let before = u32::from(g.first_bucket);
    match raise_all(rt, parts, seat, hand, before, victims) {
        Ok(()) => {}
        Err(error) => return Err(error),
    }
    name_chain(rt, parts, seat, hand, g, new, room)
}

// Finds the victims of the buckets in hand, which stay as they are.
fn find_victims<C, B>(hand: &mut Hand<C, B>, into: &mut Vec<u32>)
    requires { (p : PartSeen) × (hand.old.buckets ≡ Some p)
        × (length p.buckets.records ≤ vec_capacity into.old) }
    ensures same { (p q : PartSeen) × (hand.old.buckets ≡ Some p)
        × (hand.new ≡ record hand.old { buckets = Some q }) × IsSame p q }
    ensures victims { (p : PartSeen) → hand.old.buckets ≡ Some p
        → AreVictims p.reserves p.buckets into.new.items }
{
    let Some(mut buckets) = hand.buckets.take() else {
        unreachable!()
    };
    search(buckets.get_mut(), into);
    hand.buckets = Some(buckets);
}

// The same, of the part in hand.
fn search(part: &mut BucketsPart, into: &mut Vec<u32>)
    requires { length part.old.buckets.records ≤ vec_capacity into.old }
    ensures same { IsSame part.old part.new }
    ensures victims { AreVictims part.old.reserves part.old.buckets into.new.items }
{
    part.reserves.victims(&part.buckets, into);
}
