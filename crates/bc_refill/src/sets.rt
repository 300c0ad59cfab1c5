//! The sets of a chain, written one behind the other.
ghost use Rattle.std.specs.Prelude.{◌≡◌, ◌+◌, ◌*◌, ◌<◌, ◌≤◌, false, length, Some, IfErr, OnOk};
ghost use Rattle.bc_new_chain.specs.bc_chained.Chained.{AreForChain, AreSetsOf, next_of};
ghost use Rattle.bc_new_chain.specs.bc_held.Taken.{KeepsHeld};
ghost use Rattle.bc_new_chain.specs.bc_hand.Seats.{Works, world};
ghost use Rattle.bc_new_chain.specs.bc_machine.World.{FromEach, are_plain, cache_among};
ghost use Rattle.bc_new_chain.specs.bc_place.Written.{KeepsPlaces};
ghost use Rattle.bc_refill.specs.Hands.{HasAll};
ghost use Rattle.bc_refill.specs.Sets.{AreForSets, AreRooms, HaveNotWritten, HaveWritten};

use bc_disk::chain::sets_in_chain;
use bc_disk::disk::Disk;
use bc_disk::gens::Gens;
use bc_disk::geometry::Geometry;
use bc_new_chain::bc_chain::write::write_set;
use bc_new_chain::bc_hand::error::StepError;
use bc_new_chain::bc_hand::hand::Hand;
use bc_new_chain::bc_machine::machine::{CoreParts, CoreSeat};
use std::sync::Wait;

// Writes the sets of a chain into these buckets, the first one first, with these records. Each
// names the next one. There is room for the bytes of each. Buckets, journal and cache device are in
// hand. Room for one deed a set is promised.
//
// `Fault` is a write that failed, and `Halted` names the device that had halted the run.
pub(crate) fn write_sets<C: Disk + Drop, B: Disk + Drop, R: Wait>(
    rt: &R,
    parts: &CoreParts<C, B>,
    seat: &mut CoreSeat<C, B>,
    hand: &mut Hand<C, B>,
    g: &Geometry,
    gens: &Gens,
    new: &[u32],
    rooms: &mut Vec<Vec<u8>>,
) -> Result<(), StepError>
    requires works { Works C.facts B.facts parts.now seat.old hand.old }
    requires cached { are_plain C.facts B.facts parts.now.run.start ≡ false }
    requires promise { length new.now ≤ seat.old.promises }
    requires all { HasAll g.now hand.old }
    requires chain { AreForSets g.now seat.old.first new.now (world C.facts B.facts seat.old) }
    requires records { length gens.now.records ≡ g.now.nbuckets }
    requires rooms { (length rooms.old.items ≡ length new.now) × AreRooms g.now rooms.old.items }
    requires disk { g.now.bucket * g.now.nbuckets
        ≤ (cache_among C.facts B.facts parts.now.run.start).sectors }
    ensures works { Works C.facts B.facts parts.now seat.new hand.new }
    ensures all { HasAll g.now hand.new }
    ensures rest { hand.new ≡ record hand.old { cache = hand.new.cache } }
    ensures ok { OnOk result (HaveWritten C.facts B.facts g.now gens.now.records new.now 0
        (length new.now) seat.old seat.new) }
    ensures sets { OnOk result (AreSetsOf g.now gens.now.records new.now
        (world C.facts B.facts seat.new)) }
    ensures each { FromEach (world C.facts B.facts seat.new)
        (AreForChain seat.old.first new.now) }
    ensures err { IfErr result (λ error. HaveNotWritten C.facts B.facts error g.now
        gens.now.records new.now seat.old seat.new) }
    ensures first { seat.new.first ≡ seat.old.first }
    ensures left { seat.old.promises ≤ seat.new.promises + length new.now }
    ensures keeps { KeepsPlaces C.facts B.facts seat.old seat.new }
    ensures held { KeepsHeld C.facts B.facts seat.old seat.new }
{
    let count = sets_in_chain(g);
    let mut part = 0u32;
    while part < count {
        let next = named_next(new, part as usize);
        let Some(bytes) = rooms.pop() else {
            unreachable!()
        };
        let bucket = new[part as usize];
        match write_set(rt, parts, seat, hand, g, gens, bucket, part, next, bytes) {
            Ok(()) => {}
            Err(error) => return Err(error),
        }
        part += 1;
    }
    Ok(())
}

// The bucket that the set of this part names, none in the last one.
fn named_next(new: &[u32], part: usize) -> u32
    requires { part < length new.now }
    ensures { result ≡ next_of new.now part }
{
    if part + 1 < new.len() {
        return new[part + 1];
    }
    0
}
