//! The step that writes a sealed entry to the cache device.
ghost use Rattle.std.specs.Prelude.{◌≡◌, ◌+◌, ◌*◌, ◌<◌, ◌≤◌, ◌==◌, ℕ, List, false, None, Some, length, OnOk, IfErr};
ghost use Rattle.bc_disk.specs.declared.disk.Device.{Device};
ghost use Rattle.bc_entry.specs.Entry.{HasJournalAndCache, IsReadyEntry, IsWrittenEntry};
ghost use Rattle.bc_entry.specs.Failed.{HasFailedToWrite, HasWritten};
ghost use Rattle.bc_events.specs.Columns.{outlasts_halt};
ghost use Rattle.bc_events.specs.declared.event.Deed.{Deed};
ghost use Rattle.bc_deed.specs.bc_hand.Seats.{core, by, IsCoreSeat, MayDo, Works, Did, world};
ghost use Rattle.bc_journal.specs.Sealed.{AreBytesOf};
ghost use Rattle.bc_sealing.specs.bc_machine.World.{FromEach, IsCache, are_plain, cache_among, changes};
ghost use Rattle.bc_model.specs.Sector.{values_of};
ghost use Rattle.bc_parts.specs.Seat.{Holds};
ghost use Rattle.bc_seats.specs.Seats.{Kept};

use crate::barrier::called;
use crate::room::EntryRoom;
use bc_deed::bc_hand::error::StepError;
use bc_deed::bc_hand::hand::Hand;
use bc_disk::disk::{Device, Disk};
use bc_events::event::{Deed, Failure, Written};
use bc_journal::Sealed;
use bc_model::values::Values;
use bc_sealing::bc_machine::machine::{CoreParts, CoreSeat};
use std::sync::Wait;

/// Writes the sealed entry to its place, once a barrier came behind the seal: what the entry names
/// is durable then. The journal and the cache device are in hand, and stay so.
///
/// `Fault` says that the write itself failed, which is committed then: the entry stands there in
/// part, whole or not at all. `Halted` says that a device had halted the run before; then nothing
/// was done. The memory is there already, so there is never want of it.
pub fn write_entry<C: Disk + Drop, B: Disk + Drop, R: Wait>(
    rt: &R,
    parts: &CoreParts<C, B>,
    seat: &mut CoreSeat<C, B>,
    hand: &mut Hand<C, B>,
    entry: &Sealed,
    room: EntryRoom,
) -> Result<(), StepError>
    requires works { Works C.facts B.facts parts.now seat.old hand.old }
    requires cached { are_plain C.facts B.facts parts.now.run.start ≡ false }
    requires promise { 0 < seat.old.promises }
    requires hand { HasJournalAndCache hand.old }
    requires disk { entry.now.geometry.bucket * entry.now.geometry.nbuckets
        ≤ (cache_among C.facts B.facts parts.now.run.start).sectors }
    requires ready { FromEach (world C.facts B.facts seat.old) (IsReadyEntry entry.now) }
    ensures works { Works C.facts B.facts parts.now seat.new hand.new }
    ensures left { seat.old.promises ≤ seat.new.promises + 1 }
    ensures hand { HasJournalAndCache hand.new }
    ensures rest { hand.new ≡ record hand.old { cache = hand.new.cache } }
    ensures ok { OnOk result (HasWritten C.facts B.facts entry.now seat.old seat.new) }
    ensures knows { OnOk result (FromEach (world C.facts B.facts seat.new)
        (IsWrittenEntry entry.now)) }
    ensures err { IfErr result (λ error. HasFailedToWrite C.facts B.facts error entry.now
        seat.old seat.new) }
{
    if let Some(device) = seat.heard() {
        return Err(StepError::Halted(device));
    }
    let bytes = entry.bytes();
    let values = values_in(entry, bytes, room);
    let Some(mut cache) = hand.cache.take() else {
        unreachable!()
    };
    let done = write_in(rt, parts, seat, &mut cache, entry, bytes, values);
    hand.cache = Some(cache);
    done
}

// The values of an entry's bytes, in the memory that was taken for them.
fn values_in(entry: &Sealed, bytes: &[u8], room: EntryRoom) -> Values
    requires bytes { AreBytesOf entry.now.geometry entry.now.entry bytes.now }
    requires few { length bytes.now ≤ 32768 }
    ensures { result ≡ values_of bytes.now }
{
    let _sectors = entry.sectors();
    room.values(bytes)
}

// The same, of the device in hand, with the values of the entry's bytes.
fn write_in<C: Disk, B: Disk, R: Wait>(
    rt: &R,
    parts: &CoreParts<C, B>,
    seat: &mut CoreSeat<C, B>,
    cache: &mut C,
    entry: &Sealed,
    bytes: &[u8],
    values: Values,
) -> Result<(), StepError>
    requires run { seat.old.run ≡ parts.now.run }
    requires seat { IsCoreSeat C.facts B.facts seat.old }
    requires unheard { seat.old.heard ≡ None }
    requires cached { are_plain C.facts B.facts parts.now.run.start ≡ false }
    requires promise { 0 < seat.old.promises }
    requires holds { Holds seat.old.parts 3 × Holds seat.old.parts 4 }
    requires cache { IsCache C.facts B.facts cache.old (world C.facts B.facts seat.old) }
    requires disk { entry.now.geometry.bucket * entry.now.geometry.nbuckets
        ≤ (cache_among C.facts B.facts parts.now.run.start).sectors }
    requires bytes { AreBytesOf entry.now.geometry entry.now.entry bytes.now }
    requires values { values ≡ values_of bytes.now }
    requires ready { FromEach (world C.facts B.facts seat.old) (IsReadyEntry entry.now) }
    ensures seat { IsCoreSeat C.facts B.facts seat.new }
    ensures left { seat.old.promises ≤ seat.new.promises + 1 }
    ensures kept { Kept (core C.facts B.facts) seat.old seat.new (λ k. k == 4) }
    ensures cache { IsCache C.facts B.facts cache.new (world C.facts B.facts seat.new) }
    ensures ok { OnOk result (HasWritten C.facts B.facts entry.now seat.old seat.new) }
    ensures err { IfErr result (λ error. HasFailedToWrite C.facts B.facts error entry.now
        seat.old seat.new) }
{
    // An entry lies in its bucket, as its place does.
    let _place = entry.place();
    let at = entry.sector();
    match cache.write(at, bytes) {
        Ok(()) => {
            let what = Written::Entry;
            called(rt, parts, seat, Deed::CacheWrite { at, what, values });
            Ok(())
        }
        Err(_) => {
            let what = Written::Entry;
            let failure = Failure::CacheWrite { at, what, values };
            called(rt, parts, seat, Deed::DeviceFault { failure });
            Err(StepError::Fault(Device::Cache))
        }
    }
}
