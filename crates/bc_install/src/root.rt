//! An entry with a new root, as the steps that it takes.
ghost use Rattle.std.specs.Prelude.{◌≡◌, ◌+◌, ◌*◌, ◌≤◌, false, Some, length, IfErr, OnOk};
ghost use Rattle.bc_append.specs.bc_place.Written.{KeepsPlaces};
ghost use Rattle.bc_change.specs.Root.{IsUnheard, MaySealRoot};
ghost use Rattle.bc_change.specs.bc_entry.Entry.{HasJournalAndCache};
ghost use Rattle.bc_change.specs.bc_entry.Put.{IsCause};
ghost use Rattle.bc_change.specs.bc_hand.Seats.{Works, kinds, world};
ghost use Rattle.bc_change.specs.bc_machine.World.{are_plain, cache_among};
ghost use Rattle.bc_install.specs.RootPut.{GoesOnWith, HasCutRoot, HasPutRoot};
ghost use Rattle.bc_journal.specs.Journal.{Journal};
ghost use Rattle.bc_jset.specs.EntryBytes.{IsLevel};

use bc_change::bc_entry::room::EntryRoom;
use bc_change::bc_hand::error::StepError;
use bc_change::bc_hand::hand::Hand;
use bc_change::bc_machine::machine::{CoreParts, CoreSeat};
use bc_change::put::put_sealed;
use bc_change::root::seal_root;
use bc_disk::disk::Disk;
use bc_events::event::Change;
use bc_journal::Heads;
use bc_tree::Plan;
use std::alloc::Global;
use std::sync::Wait;

/// Makes a planned change of the tree by an entry with a new root, which has the keys that wait and
/// is the newest durable one then. The new nodes stand on the cache device by then. The tree, the
/// leaves that go, the journal and the cache device are in hand, and stay so; in memory the tree is
/// as it was until the change is installed.
///
/// An error is a call of the device that failed, which is the last deed then; a device that had
/// halted the run before; or want of memory, where the seat had heard of no halt, and nothing was
/// done. How far the entry came is told by the seat's own deeds. Where nothing was done, what is in
/// hand is as it was, so it may be tried again. All memory is taken before the entry is sealed.
/// Whatever comes, the seat keeps its places.
pub fn put_root_entry<C: Disk + Drop, B: Disk + Drop, R: Wait>(
    rt: &R,
    alloc: Global,
    parts: &CoreParts<C, B>,
    seat: &mut CoreSeat<C, B>,
    hand: &mut Hand<C, B>,
    plan: &Plan,
    heads: &Heads,
    root: u32,
    change: Change,
) -> Result<(), StepError>
    requires works { Works C.facts B.facts parts.now seat.old hand.old }
    requires cached { are_plain C.facts B.facts parts.now.run.start ≡ false }
    requires promise { 5 ≤ seat.old.promises }
    requires level { IsLevel heads.now.level }
    requires hand { HasJournalAndCache hand.old }
    requires may { MaySealRoot hand.old (length parts.now.run.start) seat.old.first plan.now
        heads.now root change (world C.facts B.facts seat.old) }
    requires disk { (j : Journal) × (hand.old.journal ≡ Some j)
        × (j.ring.geometry.bucket * j.ring.geometry.nbuckets
        ≤ (cache_among C.facts B.facts parts.now.run.start).sectors) }
    ensures works { Works C.facts B.facts parts.now seat.new hand.new }
    ensures left { seat.old.promises ≤ seat.new.promises + 5 }
    ensures hand { HasJournalAndCache hand.new }
    ensures kinds { kinds hand.new ≡ kinds hand.old }
    ensures rest { hand.new ≡ record hand.old {
      journal = hand.new.journal;
      cache = hand.new.cache;
    } }
    ensures journal { OnOk result ((j k : Journal) × (hand.old.journal ≡ Some j)
        × (hand.new.journal ≡ Some k) × GoesOnWith j heads.now k) }
    ensures ok { OnOk result ((j : Journal) × (hand.old.journal ≡ Some j)
        × HasPutRoot C.facts B.facts j heads.now root plan.now change seat.old seat.new) }
    ensures err { IfErr result (λ error. (j : Journal) × (hand.old.journal ≡ Some j)
        × HasCutRoot C.facts B.facts error j heads.now root change hand.old hand.new seat.old
        seat.new) }
    ensures cause { IfErr result (λ error. IsCause error seat.new.seen) }
    ensures memory { IfErr result (λ error. IsUnheard error seat.new.heard) }
    ensures places { KeepsPlaces C.facts B.facts seat.old seat.new }
{
    if let Some(device) = seat.heard() {
        return Err(StepError::Halted(device));
    }
    let Ok(room) = EntryRoom::new(alloc) else {
        return Err(StepError::Memory);
    };
    let entry = match seal_root(rt, alloc, parts, seat, hand, plan, heads, root, change) {
        Ok(entry) => entry,
        Err(error) => return Err(error),
    };
    put_sealed(rt, parts, seat, hand, entry, room)
}
