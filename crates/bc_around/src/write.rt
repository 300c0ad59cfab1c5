//! The step that writes values to the backing device, past the cache.
ghost use Rattle.std.specs.Prelude.{◌≡◌, ◌+◌, ◌*◌, ◌<◌, ◌≤◌, ◌==◌, ℕ, true, false, None, Some, length, OnOk, IfErr, IfSome};
ghost use Rattle.bc_around.specs.Bare.{AreBare};
ghost use Rattle.bc_flush.specs.bc_deed.Asked.{HasFailed, HasFailedOr, MayWrite, size_of};
ghost use Rattle.bc_events.specs.Columns.{outlasts_halt};
ghost use Rattle.bc_events.specs.declared.event.Deed.{Deed};
ghost use Rattle.bc_events.specs.declared.event.Failure.{Failure};
ghost use Rattle.bc_flush.specs.bc_hand.Seats.{core, by, IsCoreSeat, MayDo, Works, Did, kinds, note, world};
ghost use Rattle.bc_flush.specs.bc_machine.Plain.{worker_of};
ghost use Rattle.bc_flush.specs.bc_machine.World.{IsBacking, are_plain, changes};
ghost use Rattle.bc_model.specs.Sector.{values_of};
ghost use Rattle.bc_parts.specs.Seat.{Holds};
ghost use Rattle.bc_seats.specs.Seats.{Kept};

use bc_disk::disk::{Device, Disk};
use bc_events::event::{Deed, Failure, LineNumber};
use bc_flush::bc_hand::error::StepError;
use bc_flush::bc_hand::hand::{Hand, borrow_backing, return_backing};
use bc_flush::bc_hand::seat::commit;
use bc_flush::bc_machine::machine::{CoreParts, CoreSeat};
use bc_flush::bc_machine::part::BackingPart;
use bc_model::values::Values;
use std::alloc::Global;
use std::sync::Wait;

// Commits a call of the backing device, which no halt keeps out of a seat that wasn't told of one.
fn called<C: Disk, B: Disk, R: Wait>(
    rt: &R,
    parts: &CoreParts<C, B>,
    seat: &mut CoreSeat<C, B>,
    deed: Deed,
)
    requires run { seat.old.run ≡ parts.now.run }
    requires seat { IsCoreSeat C.facts B.facts seat.old }
    requires promise { 0 < seat.old.promises }
    requires holds { Holds seat.old.parts 5 }
    requires alone { (k : ℕ) → changes (length seat.old.run.start) (by seat.old.first deed) k
        ≡ (k == 5) }
    requires may { MayDo C.facts B.facts seat.old deed }
    requires outlasts { outlasts_halt deed ≡ true }
    ensures kept { Kept (core C.facts B.facts) seat.old seat.new (λ k. k == 5) }
    ensures did { Did C.facts B.facts (Some deed) seat.old seat.new }
{
    let Ok(()) = commit(rt, parts, seat, deed) else {
        unreachable!()
    };
}

/// Writes these values to the sectors from `first` on of the backing device, for a line, in a run
/// with a cache: under the seat's exclusive claim, over which no key stands in any index that a
/// crash may still leave. Under one claim a seat writes once.
///
/// `Fault` says that the write itself failed, which is committed then: each sector reads as before
/// or as the new value. `Halted` names the device that had halted the run, and `Memory` comes
/// before the call; then nothing was done.
pub fn write_around<C: Disk + Drop, B: Disk + Drop, R: Wait>(
    rt: &R,
    alloc: Global,
    parts: &CoreParts<C, B>,
    seat: &mut CoreSeat<C, B>,
    hand: &mut Hand<C, B>,
    first: u64,
    values: &Values,
    of: LineNumber,
) -> Result<(), StepError>
    requires works { Works C.facts B.facts parts.now seat.old hand.old }
    requires cached { are_plain C.facts B.facts parts.now.run.start ≡ false }
    requires promise { 0 < seat.old.promises }
    requires line { worker_of seat.old.first ≡ of.worker }
    requires some { 0 < length values.now }
    requires inside { first + length values.now ≤ size_of C.facts B.facts seat.old.run.start }
    requires may { MayWrite (note C.facts B.facts seat.old) first (length values.now) }
    requires bare { AreBare C.facts B.facts first (length values.now) seat.old }
    ensures works { Works C.facts B.facts parts.now seat.new hand.new }
    ensures hand { kinds hand.new ≡ kinds hand.old }
    ensures ok { OnOk result (Did C.facts B.facts
        (Some (Deed.BackingWrite first (Some of) values.now)) seat.old seat.new) }
    ensures err { IfErr result (λ error. HasFailedOr C.facts B.facts error
        (Deed.DeviceFault (Failure.BackingWrite first (Some of) values.now)) seat.old seat.new) }
{
    if let Some(device) = seat.heard() {
        return Err(StepError::Halted(device));
    }
    let Ok(values) = values.copy() else {
        return Err(StepError::Memory);
    };
    if values.len() == 1 {
        let mut sector = [0; 512];
        values.put_into(&mut sector);
        return write_bytes(rt, parts, seat, hand, first, values, &sector, of);
    }
    let Some(bytes) = bytes_of(alloc, &values) else {
        return Err(StepError::Memory);
    };
    write_bytes(rt, parts, seat, hand, first, values, &bytes, of)
}

// The bytes of these values.
pub(crate) fn bytes_of(alloc: Global, values: &Values) -> Option<Vec<u8>>
    ensures { IfSome result (λ bytes. (values_of bytes.items ≡ values.now)
        × (length bytes.items ≡ 512 * length values.now)) }
{
    let len = 512 * values.len() as usize;
    let mut bytes = vec![in alloc; 0; len].ok()?;
    values.put_into(&mut bytes);
    Some(bytes)
}

/// The same, of values that have these bytes, for which no memory is asked. The seat wasn't told of
/// a halt.
pub(crate) fn write_bytes<C: Disk + Drop, B: Disk + Drop, R: Wait>(
    rt: &R,
    parts: &CoreParts<C, B>,
    seat: &mut CoreSeat<C, B>,
    hand: &mut Hand<C, B>,
    first: u64,
    values: Values,
    bytes: &[u8],
    of: LineNumber,
) -> Result<(), StepError>
    requires works { Works C.facts B.facts parts.now seat.old hand.old }
    requires unheard { seat.old.heard ≡ None }
    requires cached { are_plain C.facts B.facts parts.now.run.start ≡ false }
    requires promise { 0 < seat.old.promises }
    requires line { worker_of seat.old.first ≡ of.worker }
    requires some { 0 < length values }
    requires inside { first + length values ≤ size_of C.facts B.facts seat.old.run.start }
    requires bytes { (values_of bytes.now ≡ values) × (length bytes.now ≡ 512 * length values) }
    requires may { MayWrite (note C.facts B.facts seat.old) first (length values) }
    requires bare { AreBare C.facts B.facts first (length values) seat.old }
    ensures works { Works C.facts B.facts parts.now seat.new hand.new }
    ensures hand { kinds hand.new ≡ kinds hand.old }
    ensures ok { OnOk result (Did C.facts B.facts
        (Some (Deed.BackingWrite first (Some of) values)) seat.old seat.new) }
    ensures err { IfErr result (λ error. HasFailed C.facts B.facts error
        (Deed.DeviceFault (Failure.BackingWrite first (Some of) values)) seat.old seat.new) }
{
    let (mut backing, taken) = borrow_backing(rt, parts, seat, hand);
    let done = write_in(rt, parts, seat, &mut backing, first, values, bytes, of);
    return_backing(parts, seat, hand, backing, taken);
    done
}

// The same, of the device in hand.
fn write_in<C: Disk, B: Disk, R: Wait>(
    rt: &R,
    parts: &CoreParts<C, B>,
    seat: &mut CoreSeat<C, B>,
    backing: &mut BackingPart<B>,
    first: u64,
    values: Values,
    bytes: &[u8],
    of: LineNumber,
) -> Result<(), StepError>
    requires run { seat.old.run ≡ parts.now.run }
    requires seat { IsCoreSeat C.facts B.facts seat.old }
    requires unheard { seat.old.heard ≡ None }
    requires cached { are_plain C.facts B.facts parts.now.run.start ≡ false }
    requires promise { 0 < seat.old.promises }
    requires holds { Holds seat.old.parts 5 }
    requires backing { IsBacking C.facts B.facts backing.old (world C.facts B.facts seat.old) }
    requires line { worker_of seat.old.first ≡ of.worker }
    requires some { 0 < length values }
    requires inside { first + length values ≤ backing.old.size }
    requires bytes { (values_of bytes.now ≡ values) × (length bytes.now ≡ 512 * length values) }
    requires may { MayWrite (note C.facts B.facts seat.old) first (length values) }
    requires bare { AreBare C.facts B.facts first (length values) seat.old }
    ensures seat { IsCoreSeat C.facts B.facts seat.new }
    ensures kept { Kept (core C.facts B.facts) seat.old seat.new (λ k. k == 5) }
    ensures backing { IsBacking C.facts B.facts backing.new (world C.facts B.facts seat.new) }
    ensures ok { OnOk result (Did C.facts B.facts
        (Some (Deed.BackingWrite first (Some of) values)) seat.old seat.new) }
    ensures err { IfErr result (λ error. HasFailed C.facts B.facts error
        (Deed.DeviceFault (Failure.BackingWrite first (Some of) values)) seat.old seat.new) }
{
    let at = backing.offset + first;
    match backing.disk.write(at, bytes) {
        Ok(()) => {
            let of = Some(of);
            called(rt, parts, seat, Deed::BackingWrite { first, of, values });
            Ok(())
        }
        Err(_) => {
            let failure = Failure::BackingWrite {
                first,
                of: Some(of),
                values,
            };
            called(rt, parts, seat, Deed::DeviceFault { failure });
            Err(StepError::Fault(Device::Backing))
        }
    }
}
