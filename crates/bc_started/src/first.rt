//! The entry of an opening, put by the first seat of its run.
ghost use Rattle.std.specs.Prelude.{◌≡◌, false, IfErr, OnOk};
ghost use Rattle.bc_seats.specs.Seats.{Waited};
ghost use Rattle.bc_entry.specs.Put.{HasCut, HasPut};
ghost use Rattle.bc_entry.specs.bc_hand.Seats.{Works, core, empty, kinds};
ghost use Rattle.bc_entry.specs.bc_machine.World.{are_plain};
ghost use Rattle.bc_started.specs.Stop.{IsNoHalt};
ghost use Rattle.bc_started.specs.First.{CanPutFirst, HasAll, IsNew, journal_and_cache};

use bc_disk::disk::Disk;
use bc_entry::bc_deed::promise::promise;
use bc_entry::bc_hand::error::StepError;
use bc_entry::bc_hand::hand::Hand;
use bc_entry::bc_hand::lend::{borrow_cache, borrow_journal, return_cache, return_journal};
use bc_entry::bc_machine::machine::{CoreParts, CoreSeat};
use bc_entry::bc_machine::part::Apart;
use bc_entry::put::put_entry;
use bc_journal::Journal;
use std::alloc::Global;
use std::sync::Wait;

/// How many deeds an entry is.
const DEEDS: u32 = 5;

/// Puts an entry as the first that happens in a run, by its one seat. The journal comes in the place
/// of the one with which the run began, and is as that but for what it needs: a part that was taken
/// tells what it stands for, and not that it is the very one.
///
/// An error is a call of the cache device that failed, or want of memory; nothing is in hand then
/// either.
pub fn put_first<C: Disk + Drop, B: Disk + Drop, R: Wait>(
    rt: &R,
    alloc: Global,
    parts: &CoreParts<C, B>,
    seat: &mut CoreSeat<C, B>,
    journal: Apart<Journal>,
) -> Result<(), StepError>
    requires works { Works C.facts B.facts parts.now seat.old empty }
    requires new { IsNew C.facts B.facts seat.old }
    requires cached { are_plain C.facts B.facts parts.now.run.start ≡ false }
    requires can { CanPutFirst C.facts B.facts parts.now.run.start journal }
    ensures works { Works C.facts B.facts parts.now seat.new empty }
    ensures all { HasAll C.facts B.facts seat.new }
    ensures ok { OnOk result (HasPut C.facts B.facts journal seat.old seat.new) }
    ensures err { IfErr result
        (λ error. HasCut C.facts B.facts error journal seat.old seat.new) }
    ensures no_halt { IfErr result IsNoHalt }
{
    let mut hand = Hand::empty();
    let Ok(()) = promise(rt, parts, seat, &mut hand, DEEDS) else {
        return Err(StepError::Memory);
    };
    let (_began_with, _taken) = borrow_journal(rt, parts, seat, &mut hand);
    hand.journal = Some(journal);
    let (cache, _taken) = borrow_cache(rt, parts, seat, &mut hand);
    hand.cache = Some(cache);
    let done = put_entry(rt, alloc, parts, seat, &mut hand);
    give_back(parts, seat, hand);
    done
}

// Gives journal and cache device back to their slots, of which nothing else is in hand.
fn give_back<C: Disk + Drop, B: Disk + Drop>(
    parts: &CoreParts<C, B>,
    seat: &mut CoreSeat<C, B>,
    hand: Hand<C, B>,
)
    requires works { Works C.facts B.facts parts.now seat.old hand }
    requires both { kinds hand ≡ journal_and_cache }
    ensures works { Works C.facts B.facts parts.now seat.new empty }
    ensures waited { Waited (core C.facts B.facts) seat.old seat.new }
    ensures seen { seat.new.seen ≡ seat.old.seen }
{
    let mut hand = hand;
    let Some(cache) = hand.cache.take() else {
        unreachable!()
    };
    return_cache(parts, seat, &mut hand, cache, true);
    let Some(journal) = hand.journal.take() else {
        unreachable!()
    };
    return_journal(parts, seat, &mut hand, journal, true);
}
