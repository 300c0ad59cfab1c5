//! The step that makes a written entry the newest durable one.
ghost use Rattle.std.specs.Prelude.{◌≡◌, ◌+◌, ◌<◌, ◌≤◌, false, None, Some, OnOk, OnErr, IfErr};
ghost use Rattle.bc_deed.specs.Asked.{IsHalted};
ghost use Rattle.bc_entry.specs.Entry.{IsNewestEntry, IsSafeEntry};
ghost use Rattle.bc_events.specs.declared.event.Deed.{Deed};
ghost use Rattle.bc_deed.specs.bc_hand.Seats.{Works, Did, world};
ghost use Rattle.bc_journal.specs.Journal.{Journal};
ghost use Rattle.bc_journal.specs.Sealed.{heads_of, numbers_of};
ghost use Rattle.bc_sealing.specs.bc_machine.World.{FromEach, are_plain};

use bc_deed::bc_hand::error::StepError;
use bc_deed::bc_hand::hand::Hand;
use bc_deed::bc_hand::seat::commit;
use bc_disk::disk::Disk;
use bc_events::event::Deed;
use bc_journal::Sealed;
use bc_sealing::bc_machine::machine::{CoreParts, CoreSeat};
use std::sync::Wait;

/// Makes the entry the newest durable one, once a barrier came behind its write. The journal is in
/// hand, gets the entry's memory back, and has what the entry names.
///
/// `Err` names the device that halted the run; then nothing is done, and no entry is sealed any
/// more.
pub fn make_durable<C: Disk + Drop, B: Disk + Drop, R: Wait>(
    rt: &R,
    parts: &CoreParts<C, B>,
    seat: &mut CoreSeat<C, B>,
    hand: &mut Hand<C, B>,
    entry: Sealed,
) -> Result<(), StepError>
    requires works { Works C.facts B.facts parts.now seat.old hand.old }
    requires cached { are_plain C.facts B.facts parts.now.run.start ≡ false }
    requires promise { 0 < seat.old.promises }
    requires journal { (j : Journal) × (hand.old.journal ≡ Some j)
        × (j.sealed ≡ Some (numbers_of entry.entry)) }
    requires safe { FromEach (world C.facts B.facts seat.old) (IsSafeEntry entry) }
    ensures works { Works C.facts B.facts parts.now seat.new hand.new }
    ensures left { seat.old.promises ≤ seat.new.promises + 1 }
    ensures ok { OnOk result (Did C.facts B.facts (Some Deed.Sealed) seat.old seat.new) }
    ensures journal { OnOk result ((j : Journal) → hand.old.journal ≡ Some j
        → hand.new ≡ record hand.old {
          journal = Some (record j {
            durable = numbers_of entry.entry;
            heads = heads_of entry.entry;
            sealed = None;
          });
        }) }
    ensures knows { OnOk result (FromEach (world C.facts B.facts seat.new)
        (IsNewestEntry entry.geometry entry.entry)) }
    ensures err { OnErr result (Did C.facts B.facts None seat.old seat.new) }
    ensures same { OnErr result (hand.new ≡ hand.old) }
    ensures halted { IfErr result (λ error. IsHalted error seat.new.seen) }
{
    if let Some(device) = seat.heard() {
        return Err(StepError::Halted(device));
    }
    if let Err(device) = commit(rt, parts, seat, Deed::Sealed) {
        return Err(StepError::Halted(device));
    }
    let Some(mut journal) = hand.journal.take() else {
        unreachable!()
    };
    journal.get_mut().written(entry);
    hand.journal = Some(journal);
    Ok(())
}
