//! A chain that is written and named.
ghost use Rattle.std.specs.Prelude.{◌≡◌, ◌+◌, ◌*◌, ◌≤◌, false, length, Some, IfErr, OnOk};
ghost use Rattle.bc_journal.specs.Journal.{Journal as JournalSeen};
ghost use Rattle.bc_new_chain.specs.Beside.{KeepsHeldBeside};
ghost use Rattle.bc_new_chain.specs.Put.{IsChainCause};
ghost use Rattle.bc_new_chain.specs.bc_hand.Seats.{Works, kinds, world};
ghost use Rattle.bc_new_chain.specs.bc_machine.World.{are_plain, cache_among};
ghost use Rattle.bc_new_chain.specs.bc_machine.declared.part.BucketsPart.{BucketsPart as PartSeen};
ghost use Rattle.bc_new_chain.specs.bc_place.Written.{KeepsPlaces};
ghost use Rattle.bc_refill.specs.Hands.{HasAll};
ghost use Rattle.bc_refill.specs.Named.{CanName, HasNamed, HasNotNamed, IsNamingRoom, records_of};
ghost use Rattle.bc_refill.specs.Sets.{AreForSets};

use crate::finish::finish;
use crate::room::NamingRoom;
use crate::sets::write_sets;
use bc_disk::disk::Disk;
use bc_disk::gens::Gens;
use bc_disk::geometry::Geometry;
use bc_new_chain::bc_hand::error::StepError;
use bc_new_chain::bc_hand::hand::Hand;
use bc_new_chain::bc_machine::machine::{CoreParts, CoreSeat};
use std::sync::Wait;

// Writes the generations of the buckets in hand into a chain of these buckets, which the seat holds
// for it, puts the entry that names it, and makes ready what it frees. Buckets, journal and cache
// device are in hand. All memory is there; room for a deed a set is promised, and for six more.
pub(crate) fn name_chain<C: Disk + Drop, B: Disk + Drop, R: Wait>(
    rt: &R,
    parts: &CoreParts<C, B>,
    seat: &mut CoreSeat<C, B>,
    hand: &mut Hand<C, B>,
    g: &Geometry,
    new: Vec<u32>,
    room: NamingRoom,
) -> Result<(), StepError>
    requires works { Works C.facts B.facts parts.now seat.old hand.old }
    requires cached { are_plain C.facts B.facts parts.now.run.start ≡ false }
    requires promise { length new.items + 6 ≤ seat.old.promises }
    requires all { HasAll g.now hand.old }
    requires can { (p : PartSeen) × (j : JournalSeen) × (hand.old.buckets ≡ Some p)
        × (hand.old.journal ≡ Some j) × CanName g.now p j
        × IsNamingRoom g.now (length new.items) (length p.reserves.raised) (length p.chain.items)
        room }
    requires chain { AreForSets g.now seat.old.first new.items (world C.facts B.facts seat.old) }
    requires disk { g.now.bucket * g.now.nbuckets
        ≤ (cache_among C.facts B.facts parts.now.run.start).sectors }
    ensures works { Works C.facts B.facts parts.now seat.new hand.new }
    ensures kinds { kinds hand.new ≡ kinds hand.old }
    ensures ok { OnOk result ((p : PartSeen) → hand.old.buckets ≡ Some p
        → HasNamed C.facts B.facts g.now new p hand.old hand.new seat.old seat.new) }
    ensures err { IfErr result (λ error. (p : PartSeen) → hand.old.buckets ≡ Some p
        → HasNotNamed C.facts B.facts error g.now new.items p hand.old hand.new seat.old
        seat.new) }
    ensures cause { IfErr result (λ error. IsChainCause error seat.new.seen) }
    ensures left { seat.old.promises ≤ seat.new.promises + (length new.items + 6) }
    ensures keeps { KeepsPlaces C.facts B.facts seat.old seat.new }
    ensures held { KeepsHeldBeside C.facts B.facts new.items seat.old seat.new }
{
    let NamingRoom {
        mut sets,
        mut gens,
        chain,
        entry,
        back,
        listed,
    } = room;
    copy_gens(hand, &mut gens);
    match write_sets(rt, parts, seat, hand, g, &gens, &new, &mut sets) {
        Ok(()) => {}
        Err(error) => return Err(error),
    }
    finish(rt, parts, seat, hand, g, new, chain, entry, back, listed)
}

// Writes priority and generation of each bucket in hand.
fn copy_gens<C, B>(hand: &Hand<C, B>, into: &mut Gens)
    requires { (p : PartSeen) × (hand.now.buckets ≡ Some p)
        × (length into.old.records ≡ length p.buckets.records) }
    ensures { (p : PartSeen) → hand.now.buckets ≡ Some p → into.new.records ≡ records_of p }
{
    let Some(buckets) = &hand.buckets else {
        unreachable!()
    };
    buckets.get().buckets.copy_gens(into);
}
