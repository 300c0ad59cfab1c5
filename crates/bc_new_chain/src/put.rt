//! An entry with a new chain, as the steps that it takes.
ghost use Rattle.std.specs.Prelude.{◌≡◌, ◌+◌, ◌*◌, ◌≤◌, ℕ, List, false, true, is_some, length, None, Some, IfErr, OnErr, OnOk};
ghost use Rattle.bc_chain.specs.bc_hand.Seats.{Works, kinds, world};
ghost use Rattle.bc_chain.specs.bc_machine.World.{FromEach, are_plain, cache_among};
ghost use Rattle.bc_chain.specs.bc_place.Written.{KeepsPlaces};
ghost use Rattle.bc_chained.specs.bc_renew.Ready.{MayReady};
ghost use Rattle.bc_entry.specs.Entry.{HasJournalAndCache, IsFixedEntry, IsNewestEntry};
ghost use Rattle.bc_held.specs.Taken.{KeepsHeld};
ghost use Rattle.bc_journal.specs.Journal.{Journal as JournalSeen};
ghost use Rattle.bc_journal.specs.Sealed.{heads_of, numbers_of};
ghost use Rattle.bc_new_chain.specs.Beside.{KeepsHeldBeside};
ghost use Rattle.bc_new_chain.specs.Put.{GoesOnWith, HasCutBehind, HasCutChain, HasPutBehind, HasPutChain, IsChainCause, IsRenewingIn, ReadiesChain};
ghost use Rattle.bc_new_chain.specs.Seal.{MaySealChain};

use crate::room::ChainRoom;
use crate::seal::seal_chain;
use bc_chain::bc_hand::error::StepError;
use bc_chain::bc_hand::hand::Hand;
use bc_chain::bc_machine::machine::{CoreParts, CoreSeat};
use bc_disk::disk::Disk;
use bc_entry::barrier::cache_barrier;
use bc_entry::durable::make_durable;
use bc_entry::room::EntryRoom;
use bc_entry::write::write_entry;
use bc_journal::Sealed;
use std::sync::Wait;

/// Puts the keys that wait into the journal as its newest durable entry, which names the chain in
/// these buckets and the root that the one before names. Then what the chain frees may be made
/// ready. The buckets, the journal and the cache device are in hand, and stay so; the sets of the
/// chain were written into the buckets, which the seat holds for it.
///
/// All memory is there before, in `room`, which is for so many buckets at least, and `entry_room`: so
/// there is never want of it behind the sets. An error is a call of the device that failed, which is
/// the last deed then, or a device that had halted the run before. How far the entry came is told by
/// the seat's own deeds; and what is in hand is as it was where nothing was done. Behind a seal that
/// came no further no other entry is sealed: only a run that is halted has such a one.
///
/// Whatever comes, the seat knows of its places and of the other buckets that it holds what it knew.
pub fn put_chain_entry<C: Disk + Drop, B: Disk + Drop, R: Wait>(
    rt: &R,
    parts: &CoreParts<C, B>,
    seat: &mut CoreSeat<C, B>,
    hand: &mut Hand<C, B>,
    new: &[u32],
    room: ChainRoom,
    entry_room: EntryRoom,
) -> Result<(), StepError>
    requires works { Works C.facts B.facts parts.now seat.old hand.old }
    requires cached { are_plain C.facts B.facts parts.now.run.start ≡ false }
    requires promise { 5 ≤ seat.old.promises }
    requires room { length new.now ≤ room.len }
    requires may { MaySealChain hand.old seat.old.first new.now (world C.facts B.facts seat.old) }
    requires disk { (j : JournalSeen) → hand.old.journal ≡ Some j
        → j.ring.geometry.bucket * j.ring.geometry.nbuckets
        ≤ (cache_among C.facts B.facts parts.now.run.start).sectors }
    ensures works { Works C.facts B.facts parts.now seat.new hand.new }
    ensures left { seat.old.promises ≤ seat.new.promises + 5 }
    ensures hand { HasJournalAndCache hand.new }
    ensures kinds { kinds hand.new ≡ kinds hand.old }
    ensures rest { hand.new ≡ record hand.old {
      buckets = hand.new.buckets;
      journal = hand.new.journal;
      cache = hand.new.cache;
    } }
    ensures buckets { OnOk result (IsRenewingIn hand.old hand.new) }
    ensures journal { OnOk result ((j k : JournalSeen) × (hand.old.journal ≡ Some j)
        × (hand.new.journal ≡ Some k) × GoesOnWith j new.now k) }
    ensures ok { OnOk result ((j : JournalSeen) × (hand.old.journal ≡ Some j)
        × HasPutChain C.facts B.facts j new.now seat.old seat.new) }
    ensures next { OnOk result ((raised : List ℕ) → FromEach (world C.facts B.facts seat.new)
        (MayReady seat.old.first raised new.now)) }
    ensures err { IfErr result (λ error. (j : JournalSeen) × (hand.old.journal ≡ Some j)
        × HasCutChain C.facts B.facts error j new.now hand.old hand.new seat.old seat.new) }
    ensures cause { IfErr result (λ error. IsChainCause error seat.new.seen) }
    ensures keeps { KeepsPlaces C.facts B.facts seat.old seat.new }
    ensures held { KeepsHeldBeside C.facts B.facts new.now seat.old seat.new }
{
    let entry = match seal_chain(rt, parts, seat, hand, new, room) {
        Ok(entry) => entry,
        Err(error) => return Err(error),
    };
    put_behind(rt, parts, seat, hand, entry, entry_room)
}

// Makes an entry durable that the journal in hand has sealed: a barrier, it is written, a barrier,
// and it is durable. Buckets, journal and cache device are in hand, and stay so.
fn put_behind<C: Disk + Drop, B: Disk + Drop, R: Wait>(
    rt: &R,
    parts: &CoreParts<C, B>,
    seat: &mut CoreSeat<C, B>,
    hand: &mut Hand<C, B>,
    entry: Sealed,
    room: EntryRoom,
) -> Result<(), StepError>
    requires works { Works C.facts B.facts parts.now seat.old hand.old }
    requires cached { are_plain C.facts B.facts parts.now.run.start ≡ false }
    requires promise { 4 ≤ seat.old.promises }
    requires hand { HasJournalAndCache hand.old }
    requires buckets { is_some hand.old.buckets ≡ true }
    requires journal { (j : JournalSeen) × (hand.old.journal ≡ Some j)
        × (j.sealed ≡ Some (numbers_of entry.entry)) }
    requires disk { entry.geometry.bucket * entry.geometry.nbuckets
        ≤ (cache_among C.facts B.facts parts.now.run.start).sectors }
    requires fixed { FromEach (world C.facts B.facts seat.old) (IsFixedEntry entry) }
    ensures works { Works C.facts B.facts parts.now seat.new hand.new }
    ensures left { seat.old.promises ≤ seat.new.promises + 4 }
    ensures hand { HasJournalAndCache hand.new }
    ensures kinds { kinds hand.new ≡ kinds hand.old }
    ensures rest { hand.new ≡ record hand.old {
      journal = hand.new.journal;
      cache = hand.new.cache;
    } }
    ensures still { OnErr result (hand.new.journal ≡ hand.old.journal) }
    ensures journal { OnOk result ((j : JournalSeen) → hand.old.journal ≡ Some j
        → hand.new.journal ≡ Some (record j {
          durable = numbers_of entry.entry;
          heads = heads_of entry.entry;
          sealed = None;
        })) }
    ensures ok { OnOk result (HasPutBehind C.facts B.facts entry seat.old seat.new) }
    ensures newest { OnOk result (FromEach (world C.facts B.facts seat.new)
        (IsNewestEntry entry.geometry entry.entry)) }
    ensures next { OnOk result (ReadiesChain C.facts B.facts seat.old seat.new) }
    ensures err { IfErr result (λ error. HasCutBehind C.facts B.facts error entry seat.old
        seat.new) }
    ensures cause { IfErr result (λ error. IsChainCause error seat.new.seen) }
    ensures keeps { KeepsPlaces C.facts B.facts seat.old seat.new }
    ensures held { KeepsHeld C.facts B.facts seat.old seat.new }
{
    match cache_barrier(rt, parts, seat, hand) {
        Ok(()) => {}
        Err(error) => return Err(error),
    }
    match write_entry(rt, parts, seat, hand, &entry, room) {
        Ok(()) => {}
        Err(error) => return Err(error),
    }
    match cache_barrier(rt, parts, seat, hand) {
        Ok(()) => {}
        Err(error) => return Err(error),
    }
    make_durable(rt, parts, seat, hand, entry)
}
