//! An entry of the journal, as the steps that it takes.
ghost use Rattle.std.specs.Prelude.{◌≡◌, ◌+◌, ◌*◌, ◌≤◌, false, Some, OnOk, IfErr};
ghost use Rattle.bc_entry.specs.Entry.{HasJournalAndCache};
ghost use Rattle.bc_entry.specs.Put.{GoesOn, HasCut, HasPut, IsCause};
ghost use Rattle.bc_entry.specs.Seal.{CanSeal};
ghost use Rattle.bc_deed.specs.bc_hand.Seats.{Works, kinds};
ghost use Rattle.bc_journal.specs.Journal.{Journal};
ghost use Rattle.bc_sealing.specs.bc_machine.World.{are_plain, cache_among};

use crate::barrier::cache_barrier;
use crate::durable::make_durable;
use crate::room::EntryRoom;
use crate::seal::seal;
use crate::write::write_entry;
use bc_deed::bc_hand::error::StepError;
use bc_deed::bc_hand::hand::Hand;
use bc_disk::disk::Disk;
use bc_sealing::bc_machine::machine::{CoreParts, CoreSeat};
use std::alloc::Global;
use std::sync::Wait;

/// Puts the keys that wait into the journal as its newest durable entry, which names what the one
/// before does. The journal and the cache device are in hand, and stay so.
///
/// An error is a call of the device that failed, which is the last deed then; a device that had
/// halted the run before; or want of memory, and nothing was done. How far the entry came is told by
/// the seat's own deeds. All memory is taken before the entry is sealed: behind a seal that came no
/// further no other entry is sealed, so only a run that is halted has such a one.
pub fn put_entry<C: Disk + Drop, B: Disk + Drop, R: Wait>(
    rt: &R,
    alloc: Global,
    parts: &CoreParts<C, B>,
    seat: &mut CoreSeat<C, B>,
    hand: &mut Hand<C, B>,
) -> Result<(), StepError>
    requires works { Works C.facts B.facts parts.now seat.old hand.old }
    requires cached { are_plain C.facts B.facts parts.now.run.start ≡ false }
    requires promise { 5 ≤ seat.old.promises }
    requires hand { HasJournalAndCache hand.old }
    requires journal { (j : Journal) × (hand.old.journal ≡ Some j) × CanSeal j
        × (j.ring.geometry.bucket * j.ring.geometry.nbuckets
        ≤ (cache_among C.facts B.facts parts.now.run.start).sectors) }
    ensures works { Works C.facts B.facts parts.now seat.new hand.new }
    ensures left { seat.old.promises ≤ seat.new.promises + 5 }
    ensures hand { HasJournalAndCache hand.new }
    ensures kinds { kinds hand.new ≡ kinds hand.old }
    ensures journal { OnOk result ((j k : Journal) × (hand.old.journal ≡ Some j)
        × (hand.new.journal ≡ Some k) × GoesOn j k) }
    ensures ok { OnOk result ((j : Journal) × (hand.old.journal ≡ Some j)
        × HasPut C.facts B.facts j seat.old seat.new) }
    ensures err { IfErr result (λ error. (j : Journal) × (hand.old.journal ≡ Some j)
        × HasCut C.facts B.facts error j seat.old seat.new) }
    ensures cause { IfErr result (λ error. IsCause error seat.new.seen) }
{
    let Ok(room) = EntryRoom::new(alloc) else {
        return Err(StepError::Memory);
    };
    let entry = match seal(rt, alloc, parts, seat, hand) {
        Ok(entry) => entry,
        Err(error) => return Err(error),
    };
    match cache_barrier(rt, parts, seat, hand) {
        Ok(()) => {}
        Err(error) => return Err(error),
    }
    match write_entry(rt, parts, seat, hand, &entry, room) {
        Ok(()) => {}
        Err(error) => return Err(error),
    }
    match cache_barrier(rt, parts, seat, hand) {
        Ok(()) => {}
        Err(error) => return Err(error),
    }
    make_durable(rt, parts, seat, hand, entry)
}
