//! The step that seals an entry.
ghost use Rattle.std.specs.Prelude.{◌≡◌, ◌+◌, ◌<◌, ◌≤◌, ◌==◌, ℕ, false, Some, OnErr, IfOk, IfErr};
ghost use Rattle.bc_deed.specs.Asked.{IsHaltedOr};
ghost use Rattle.bc_entry.specs.Entry.{IsFixedEntry};
ghost use Rattle.bc_entry.specs.Seal.{CanSeal, HasSealed};
ghost use Rattle.bc_deed.specs.bc_hand.Seats.{core, IsCoreSeat, Works, Did, world};
ghost use Rattle.bc_journal.specs.Journal.{IsSealed, Journal};
ghost use Rattle.bc_sealing.specs.bc_machine.World.{FromEach, IsJournal, are_plain};
ghost use Rattle.bc_parts.specs.Seat.{Holds};
ghost use Rattle.bc_seats.specs.Seats.{Kept};

use crate::next::{bucket_begun, rest_in};
use bc_deed::bc_hand::error::StepError;
use bc_deed::bc_hand::hand::Hand;
use bc_deed::bc_hand::seat::commit;
use bc_disk::disk::Disk;
use bc_events::event::Deed;
use bc_journal::{Journal, Sealed};
use bc_sealing::bc_machine::machine::{CoreParts, CoreSeat};
use std::alloc::Global;
use std::sync::Wait;

/// Seals the keys that wait into an entry, which names what the newest durable one does: the same
/// root and the same priorities. The journal is in hand.
///
/// `Err` comes from want of memory, or names the device that halted the run; then nothing is done.
pub fn seal<C: Disk + Drop, B: Disk + Drop, R: Wait>(
    rt: &R,
    alloc: Global,
    parts: &CoreParts<C, B>,
    seat: &mut CoreSeat<C, B>,
    hand: &mut Hand<C, B>,
) -> Result<Sealed, StepError>
    requires works { Works C.facts B.facts parts.now seat.old hand.old }
    requires cached { are_plain C.facts B.facts parts.now.run.start ≡ false }
    requires promise { 0 < seat.old.promises }
    requires journal { (j : Journal) × (hand.old.journal ≡ Some j) × CanSeal j }
    ensures works { Works C.facts B.facts parts.now seat.new hand.new }
    ensures left { seat.old.promises ≤ seat.new.promises + 1 }
    ensures ok { IfOk result (λ entry. (j k : Journal) × (hand.old.journal ≡ Some j)
        × (hand.new ≡ record hand.old { journal = Some k }) × IsSealed j j.heads entry k
        × HasSealed C.facts B.facts j entry seat.old seat.new) }
    ensures knows { IfOk result (λ entry. FromEach (world C.facts B.facts seat.new)
        (IsFixedEntry entry)) }
    ensures err { OnErr result (Did C.facts B.facts None seat.old seat.new) }
    ensures same { OnErr result (hand.new ≡ hand.old) }
    ensures cause { IfErr result (λ error. IsHaltedOr error seat.new.seen) }
{
    if let Some(device) = seat.heard() {
        return Err(StepError::Halted(device));
    }
    let Some(mut journal) = hand.journal.take() else {
        unreachable!()
    };
    let done = seal_in(rt, alloc, parts, seat, journal.get_mut());
    hand.journal = Some(journal);
    done
}

// The same, of the journal in hand.
fn seal_in<C: Disk, B: Disk, R: Wait>(
    rt: &R,
    alloc: Global,
    parts: &CoreParts<C, B>,
    seat: &mut CoreSeat<C, B>,
    journal: &mut Journal,
) -> Result<Sealed, StepError>
    requires run { seat.old.run ≡ parts.now.run }
    requires seat { IsCoreSeat C.facts B.facts seat.old }
    requires cached { are_plain C.facts B.facts parts.now.run.start ≡ false }
    requires promise { 0 < seat.old.promises }
    requires holds { Holds seat.old.parts 3 }
    requires journal { IsJournal journal.old (world C.facts B.facts seat.old) }
    requires can { CanSeal journal.old }
    ensures seat { IsCoreSeat C.facts B.facts seat.new }
    ensures left { seat.old.promises ≤ seat.new.promises + 1 }
    ensures kept { Kept (core C.facts B.facts) seat.old seat.new (λ k. k == 3) }
    ensures journal { IsJournal journal.new (world C.facts B.facts seat.new) }
    ensures sealed { IfOk result (λ entry. IsSealed journal.old journal.old.heads entry
        journal.new) }
    ensures ok { IfOk result (λ entry. HasSealed C.facts B.facts journal.old entry seat.old
        seat.new) }
    ensures knows { IfOk result (λ entry. FromEach (world C.facts B.facts seat.new)
        (IsFixedEntry entry)) }
    ensures err { OnErr result (Did C.facts B.facts None seat.old seat.new) }
    ensures same { OnErr result (journal.new ≡ journal.old) }
    ensures cause { IfErr result (λ error. IsHaltedOr error seat.new.seen) }
{
    let last_seq = journal.needed();
    let heads = *journal.heads();
    let bucket = bucket_begun(journal);
    let Ok(rest) = rest_in(alloc, journal.waiting(), &heads) else {
        return Err(StepError::Memory);
    };
    let deed = Deed::Seal {
        last_seq,
        bucket,
        rest,
        new_root: None,
        chain: None,
    };
    if let Err(device) = commit(rt, parts, seat, deed) {
        return Err(StepError::Halted(device));
    }
    let Ok(entry) = journal.seal(&heads) else {
        unreachable!()
    };
    Ok(entry)
}
