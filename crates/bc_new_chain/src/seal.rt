//! The step that seals an entry with a new chain.
ghost use Rattle.std.specs.Prelude.{◌≡◌, ◌+◌, ◌<◌, ◌≤◌, ◌==◌, ◌||◌, List, ℕ, false, length, None, Some, IfErr, IfOk, OnErr, OnOk};
ghost use Rattle.bc_chain.specs.bc_deed.Asked.{IsHalted};
ghost use Rattle.bc_chain.specs.bc_hand.Seats.{core, world, IsCoreSeat, Works, Did};
ghost use Rattle.bc_chain.specs.bc_machine.World.{AreBuckets, FromEach, IsJournal, are_plain};
ghost use Rattle.bc_chain.specs.bc_place.Written.{KeepsPlaces};
ghost use Rattle.bc_chained.specs.Chained.{HasRenewing, IsSealedChain};
ghost use Rattle.bc_disk.specs.declared.gens.BucketRecord.{BucketRecord};
ghost use Rattle.bc_entry.specs.Entry.{IsFixedEntry};
ghost use Rattle.bc_entry.specs.Seal.{CanSeal};
ghost use Rattle.bc_journal.specs.Journal.{IsSealed, Journal as JournalSeen};
ghost use Rattle.bc_new_chain.specs.Beside.{KeepsHeldBeside};
ghost use Rattle.bc_new_chain.specs.Seal.{HasSealedChain, IsReadyChain, IsSealedIn, MaySealChain, with_chain};
ghost use Rattle.bc_parts.specs.Seat.{Holds};
ghost use Rattle.bc_seats.specs.Seats.{Kept};

use crate::names::{heads_with, said_in};
use crate::room::ChainRoom;
use bc_chain::bc_hand::error::StepError;
use bc_chain::bc_hand::hand::Hand;
use bc_chain::bc_hand::seat::commit;
use bc_chain::bc_machine::machine::{CoreParts, CoreSeat};
use bc_chain::bc_machine::part::BucketsPart;
use bc_disk::disk::Disk;
use bc_entry::next::bucket_begun;
use bc_events::event::{Deed, NewChain};
use bc_journal::{Journal, Sealed};
use std::sync::Wait;

/// Seals the keys that wait into an entry that names the chain in these buckets, and the root that
/// the newest durable entry names. The sets of the chain were written into them, with the
/// generations of the buckets in hand, and the seat holds them for it. The buckets, the journal and
/// the cache device are in hand, and stay so; of the buckets it is noted that a newer chain than the
/// one in hand may be named. Takes no memory beside `room`, which is for so many buckets at least.
///
/// `Halted` names the device that halted the run; then nothing is done. Whatever comes, the seat knows
/// of its places and of the other buckets that it holds what it knew.
pub fn seal_chain<C: Disk + Drop, B: Disk + Drop, R: Wait>(
    rt: &R,
    parts: &CoreParts<C, B>,
    seat: &mut CoreSeat<C, B>,
    hand: &mut Hand<C, B>,
    new: &[u32],
    room: ChainRoom,
) -> Result<Sealed, StepError>
    requires works { Works C.facts B.facts parts.now seat.old hand.old }
    requires cached { are_plain C.facts B.facts parts.now.run.start ≡ false }
    requires promise { 0 < seat.old.promises }
    requires room { length new.now ≤ room.len }
    requires may { MaySealChain hand.old seat.old.first new.now (world C.facts B.facts seat.old) }
    ensures works { Works C.facts B.facts parts.now seat.new hand.new }
    ensures left { seat.old.promises ≤ seat.new.promises + 1 }
    ensures ok { IfOk result (λ entry. (j k : JournalSeen)
        × IsSealedIn hand.old new.now entry hand.new j k
        × HasSealedChain C.facts B.facts j new.now entry seat.old seat.new) }
    ensures fixed { IfOk result (λ entry. FromEach (world C.facts B.facts seat.new)
        (IsFixedEntry entry)) }
    ensures chain { OnOk result (FromEach (world C.facts B.facts seat.new)
        (IsSealedChain seat.old.first new.now)) }
    ensures err { OnErr result (Did C.facts B.facts None seat.old seat.new) }
    ensures same { OnErr result (hand.new ≡ hand.old) }
    ensures cause { IfErr result (λ error. IsHalted error seat.new.seen) }
    ensures keeps { KeepsPlaces C.facts B.facts seat.old seat.new }
    ensures held { KeepsHeldBeside C.facts B.facts new.now seat.old seat.new }
{
    if let Some(device) = seat.heard() {
        return Err(StepError::Halted(device));
    }
    let Some(mut buckets) = hand.buckets.take() else {
        unreachable!()
    };
    let Some(mut journal) = hand.journal.take() else {
        unreachable!()
    };
    let part = buckets.get_mut();
    let done = seal_in(rt, parts, seat, part, journal.get_mut(), new, room);
    hand.buckets = Some(buckets);
    hand.journal = Some(journal);
    done
}

// The same, of the parts in hand.
fn seal_in<C: Disk, B: Disk, R: Wait>(
    rt: &R,
    parts: &CoreParts<C, B>,
    seat: &mut CoreSeat<C, B>,
    part: &mut BucketsPart,
    journal: &mut Journal,
    new: &[u32],
    room: ChainRoom,
) -> Result<Sealed, StepError>
    requires run { seat.old.run ≡ parts.now.run }
    requires seat { IsCoreSeat C.facts B.facts seat.old }
    requires cached { are_plain C.facts B.facts parts.now.run.start ≡ false }
    requires promise { 0 < seat.old.promises }
    requires room { length new.now ≤ room.len }
    requires holds { Holds seat.old.parts 2 × Holds seat.old.parts 3 × Holds seat.old.parts 4 }
    requires buckets { AreBuckets part.old (world C.facts B.facts seat.old) }
    requires journal { IsJournal journal.old (world C.facts B.facts seat.old) }
    requires can { CanSeal journal.old }
    requires settled { part.old.renewing ≡ false }
    requires chain { (records : List BucketRecord) × IsReadyChain seat.old.first records new.now
        part.old journal.old (world C.facts B.facts seat.old) }
    ensures seat { IsCoreSeat C.facts B.facts seat.new }
    ensures left { seat.old.promises ≤ seat.new.promises + 1 }
    ensures kept { Kept (core C.facts B.facts) seat.old seat.new (λ k. (k == 2) || (k == 3)) }
    ensures buckets { AreBuckets part.new (world C.facts B.facts seat.new) }
    ensures journal { IsJournal journal.new (world C.facts B.facts seat.new) }
    ensures renews { OnOk result (HasRenewing part.old part.new) }
    ensures sealed { IfOk result (λ entry. IsSealed journal.old
        (with_chain journal.old.heads new.now) entry journal.new) }
    ensures ok { IfOk result (λ entry. HasSealedChain C.facts B.facts journal.old new.now entry
        seat.old seat.new) }
    ensures fixed { IfOk result (λ entry. FromEach (world C.facts B.facts seat.new)
        (IsFixedEntry entry)) }
    ensures chain { OnOk result (FromEach (world C.facts B.facts seat.new)
        (IsSealedChain seat.old.first new.now)) }
    ensures err { OnErr result (Did C.facts B.facts None seat.old seat.new) }
    ensures same { OnErr result (part.new ≡ part.old) }
    ensures same_journal { OnErr result (journal.new ≡ journal.old) }
    ensures cause { IfErr result (λ error. IsHalted error seat.new.seen) }
    ensures keeps { KeepsPlaces C.facts B.facts seat.old seat.new }
    ensures held { KeepsHeldBeside C.facts B.facts new.now seat.old seat.new }
{
    let heads = heads_with(journal, new);
    let last_seq = journal.needed();
    let bucket = bucket_begun(journal);
    let (rest, buckets) = said_in(journal, &heads, new, room);
    let deed = Deed::Seal {
        last_seq,
        bucket,
        rest,
        new_root: None,
        chain: Some(NewChain { buckets }),
    };
    if let Err(device) = commit(rt, parts, seat, deed) {
        return Err(StepError::Halted(device));
    }
    part.renewing = true;
    let Ok(entry) = journal.seal(&heads) else {
        unreachable!()
    };
    Ok(entry)
}
