//! A sealed entry, as the steps that make it durable.
ghost use Rattle.std.specs.Prelude.{◌≡◌, ◌+◌, ◌*◌, ◌≤◌, false, true, is_some, None, Some, IfErr, OnOk};
ghost use Rattle.bc_change.specs.Put.{HasCutBehind, HasPutBehind, KeepsByRoot};
ghost use Rattle.bc_entry.specs.Entry.{HasJournalAndCache, IsFixedEntry, IsNewestEntry};
ghost use Rattle.bc_entry.specs.Put.{IsCause};
ghost use Rattle.bc_entry.specs.bc_hand.Seats.{Works, kinds, world};
ghost use Rattle.bc_entry.specs.bc_machine.World.{FromEach, are_plain, cache_among};
ghost use Rattle.bc_journal.specs.Journal.{Journal};
ghost use Rattle.bc_journal.specs.Sealed.{heads_of, numbers_of};

use bc_disk::disk::Disk;
use bc_entry::barrier::cache_barrier;
use bc_entry::bc_hand::error::StepError;
use bc_entry::bc_hand::hand::Hand;
use bc_entry::bc_machine::machine::{CoreParts, CoreSeat};
use bc_entry::durable::make_durable;
use bc_entry::room::EntryRoom;
use bc_entry::write::write_entry;
use bc_journal::Sealed;
use std::sync::Wait;

/// Makes an entry durable that the journal in hand has sealed: a barrier, it is written, a
/// barrier, and it is durable. The journal and the cache device are in hand, and stay so. The tree
/// is in hand too, so what the seat knows of its change goes on to hold, whatever comes of the
/// entry.
///
/// An error is a call of the device that failed, which is the last deed then, or a device that had
/// halted the run before. How far the entry came is told by the seat's own deeds. All memory is
/// there before the seal, so there is never want of it.
pub fn put_sealed<C: Disk + Drop, B: Disk + Drop, R: Wait>(
    rt: &R,
    parts: &CoreParts<C, B>,
    seat: &mut CoreSeat<C, B>,
    hand: &mut Hand<C, B>,
    entry: Sealed,
    room: EntryRoom,
) -> Result<(), StepError>
    requires works { Works C.facts B.facts parts.now seat.old hand.old }
    requires cached { are_plain C.facts B.facts parts.now.run.start ≡ false }
    requires promise { 4 ≤ seat.old.promises }
    requires hand { HasJournalAndCache hand.old }
    requires tree { is_some hand.old.spine ≡ true }
    requires journal { (j : Journal) × (hand.old.journal ≡ Some j)
        × (j.sealed ≡ Some (numbers_of entry.entry)) }
    requires disk { entry.geometry.bucket * entry.geometry.nbuckets
        ≤ (cache_among C.facts B.facts parts.now.run.start).sectors }
    requires fixed { FromEach (world C.facts B.facts seat.old) (IsFixedEntry entry) }
    ensures works { Works C.facts B.facts parts.now seat.new hand.new }
    ensures left { seat.old.promises ≤ seat.new.promises + 4 }
    ensures hand { HasJournalAndCache hand.new }
    ensures kinds { kinds hand.new ≡ kinds hand.old }
    ensures rest { hand.new ≡ record hand.old {
      journal = hand.new.journal;
      cache = hand.new.cache;
    } }
    ensures journal { OnOk result ((j : Journal) → hand.old.journal ≡ Some j
        → hand.new.journal ≡ Some (record j {
          durable = numbers_of entry.entry;
          heads = heads_of entry.entry;
          sealed = None;
        })) }
    ensures newest { OnOk result (FromEach (world C.facts B.facts seat.new)
        (IsNewestEntry entry.geometry entry.entry)) }
    ensures ok { OnOk result (HasPutBehind C.facts B.facts entry seat.old seat.new) }
    ensures err { IfErr result (λ error. HasCutBehind C.facts B.facts error entry seat.old
        seat.new) }
    ensures cause { IfErr result (λ error. IsCause error seat.new.seen) }
    ensures under { KeepsByRoot C.facts B.facts seat.old seat.new }
{
    match cache_barrier(rt, parts, seat, hand) {
        Ok(()) => {}
        Err(error) => return Err(error),
    }
    match write_entry(rt, parts, seat, hand, &entry, room) {
        Ok(()) => {}
        Err(error) => return Err(error),
    }
    match cache_barrier(rt, parts, seat, hand) {
        Ok(()) => {}
        Err(error) => return Err(error),
    }
    make_durable(rt, parts, seat, hand, entry)
}
