//! The step that seals an entry with a new root, by which a change of the tree is made.
ghost use Rattle.std.specs.Prelude.{◌≡◌, ◌+◌, ◌<◌, ◌≤◌, false, None, Some, length, IfErr, IfOk, OnErr};
ghost use Rattle.bc_change.specs.Ready.{IsTree};
ghost use Rattle.bc_change.specs.Root.{HasSealedRoot, IsUnheard, MaySealRoot};
ghost use Rattle.bc_change.specs.Under.{IsByRoot};
ghost use Rattle.bc_entry.specs.bc_deed.Asked.{IsHaltedOr};
ghost use Rattle.bc_entry.specs.Entry.{IsFixedEntry};
ghost use Rattle.bc_entry.specs.bc_hand.Seats.{Did, Works, world};
ghost use Rattle.bc_journal.specs.Journal.{IsSealed, Journal};
ghost use Rattle.bc_jset.specs.EntryBytes.{IsLevel};
ghost use Rattle.bc_entry.specs.bc_machine.World.{FromEach, are_plain};
ghost use Rattle.bc_entry.specs.bc_machine.declared.part.SpinePart.{SpinePart};

use bc_disk::disk::Disk;
use bc_entry::bc_hand::error::StepError;
use bc_entry::bc_hand::hand::Hand;
use bc_entry::bc_hand::seat::commit;
use bc_entry::bc_machine::machine::{CoreParts, CoreSeat};
use bc_entry::next::{next_in, seal_next};
use bc_events::event::{Change, Deed, NewRoot};
use bc_journal::{Heads, Sealed};
use bc_tree::{Plan, Spine};
use std::alloc::Global;
use std::sync::Wait;

/// Seals the keys that wait into an entry that names a new root, with which a planned change of
/// the tree begins. Its new nodes stand on the cache device by then: a crash finds the old tree,
/// or, where the entry is durable, the new one. The tree, the leaves that go and the journal are
/// in hand, and stay so; in memory the tree is as it was until the change is over.
///
/// `Err` comes from want of memory, where the seat had heard of no halt, or names the device that
/// halted the run; then nothing is done, and what is in hand is as it was.
pub fn seal_root<C: Disk + Drop, B: Disk + Drop, R: Wait>(
    rt: &R,
    alloc: Global,
    parts: &CoreParts<C, B>,
    seat: &mut CoreSeat<C, B>,
    hand: &mut Hand<C, B>,
    plan: &Plan,
    heads: &Heads,
    root: u32,
    change: Change,
) -> Result<Sealed, StepError>
    requires works { Works C.facts B.facts parts.now seat.old hand.old }
    requires cached { are_plain C.facts B.facts parts.now.run.start ≡ false }
    requires promise { 0 < seat.old.promises }
    requires level { IsLevel heads.now.level }
    requires may { MaySealRoot hand.old (length parts.now.run.start) seat.old.first plan.now
        heads.now root change (world C.facts B.facts seat.old) }
    ensures works { Works C.facts B.facts parts.now seat.new hand.new }
    ensures left { seat.old.promises ≤ seat.new.promises + 1 }
    ensures ok { IfOk result (λ entry. (j k : Journal) × (hand.old.journal ≡ Some j)
        × (hand.new ≡ record hand.old { journal = Some k }) × IsSealed j heads.now entry k
        × HasSealedRoot C.facts B.facts j entry root change seat.old seat.new) }
    ensures fixed { IfOk result (λ entry. FromEach (world C.facts B.facts seat.new)
        (IsFixedEntry entry)) }
    ensures under { IfOk result (λ entry. FromEach (world C.facts B.facts seat.new)
        (IsByRoot seat.old.first plan.now change entry.entry.seq root)) }
    ensures err { OnErr result (Did C.facts B.facts None seat.old seat.new) }
    ensures same { OnErr result (hand.new ≡ hand.old) }
    ensures cause { IfErr result (λ error. IsHaltedOr error seat.new.seen) }
    ensures memory { IfErr result (λ error. IsUnheard error seat.new.heard) }
{
    if let Some(device) = seat.heard() {
        return Err(StepError::Halted(device));
    }
    let _tree = tree_in(hand);
    let Some(next) = next_in(alloc, hand, heads) else {
        return Err(StepError::Memory);
    };
    let deed = Deed::Seal {
        last_seq: next.last_seq,
        bucket: next.bucket,
        rest: next.rest,
        new_root: Some(NewRoot {
            inner: root,
            change,
        }),
        chain: None,
    };
    if let Err(by) = commit(rt, parts, seat, deed) {
        return Err(StepError::Halted(by));
    }
    Ok(seal_next(hand, heads))
}

// The tree in hand. What its type says holds once it is read.
fn tree_in<C, B>(hand: &Hand<C, B>) -> &Spine
    requires { (p : SpinePart) × (hand.now.spine ≡ Some p) }
    ensures { (p : SpinePart) → hand.now.spine ≡ Some p
        → (p.spine ≡ result.now) × IsTree p.spine }
{
    let Some(part) = &hand.spine else {
        unreachable!()
    };
    let spine = &part.get().spine;
    let _ = spine.len();
    let _ = spine.root();
    spine
}
