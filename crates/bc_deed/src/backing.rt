//! The steps that call the backing device. A sector counts from the first one of its data.
ghost use Rattle.std.specs.Prelude.{◌≡◌, ◌+◌, ◌*◌, ◌/◌, ◌<◌, ◌≤◌, ◌^◌, ◌==◌, ℕ, true, false, None, Some, length, vec_capacity, [], OnOk, IfOk, IfErr, IfSome};
ghost use Rattle.bc_model.specs.Sector.{values_of};
ghost use Rattle.bc_parts.specs.Seat.{Holds};
ghost use Rattle.bc_seats.specs.Seats.{Kept};
ghost use Rattle.bc_events.specs.Columns.{outlasts_halt};
ghost use Rattle.bc_hand.specs.bc_machine.World.{IsBacking, are_plain, changes};
ghost use Rattle.bc_events.specs.declared.event.Deed.{Deed};
ghost use Rattle.bc_events.specs.declared.event.Failure.{Failure};
ghost use Rattle.bc_disk.specs.declared.disk.Device.{Device};
ghost use Rattle.bc_hand.specs.Seats.{core, by, IsCoreSeat, MayDo, Works, Did, kinds, note, world};
ghost use Rattle.bc_deed.specs.Asked.{AreSectors, HasFailed, HasFailedOr, IsWithin, MayWrite, size_of};
ghost use Rattle.bc_hand.specs.bc_machine.Plain.{worker_of};

use bc_disk::disk::{Device, Disk};
use bc_events::event::{Deed, Failure, LineNumber};
use bc_hand::bc_machine::machine::{CoreParts, CoreSeat};
use bc_hand::bc_machine::part::BackingPart;
use bc_hand::error::StepError;
use bc_hand::hand::{Hand, borrow_backing, return_backing};
use bc_hand::seat::commit;
use bc_model::values::Values;
use bc_worker::gate::{Gate, Point};
use std::alloc::Global;
use std::sync::Wait;

// Commits a call of the backing device, which no halt keeps out of a seat that wasn't told of one.
fn called<C: Disk, B: Disk, R: Wait>(
    rt: &R,
    parts: &CoreParts<C, B>,
    seat: &mut CoreSeat<C, B>,
    deed: Deed,
)
    requires run { seat.old.run ≡ parts.now.run }
    requires seat { IsCoreSeat C.facts B.facts seat.old }
    requires promise { 0 < seat.old.promises }
    requires holds { Holds seat.old.parts 5 }
    requires alone { (k : ℕ) → changes (length seat.old.run.start) (by seat.old.first deed) k
        ≡ (k == 5) }
    requires may { MayDo C.facts B.facts seat.old deed }
    requires outlasts { outlasts_halt deed ≡ true }
    ensures kept { Kept (core C.facts B.facts) seat.old seat.new (λ k. k == 5) }
    ensures did { Did C.facts B.facts (Some deed) seat.old seat.new }
{
    let Ok(()) = commit(rt, parts, seat, deed) else {
        unreachable!()
    };
}

/// Makes a barrier on the backing device.
pub fn backing_barrier<C: Disk + Drop, B: Disk + Drop, R: Wait>(
    rt: &R,
    parts: &CoreParts<C, B>,
    seat: &mut CoreSeat<C, B>,
    hand: &mut Hand<C, B>,
) -> Result<(), StepError>
    requires works { Works C.facts B.facts parts.now seat.old hand.old }
    requires promise { 0 < seat.old.promises }
    ensures works { Works C.facts B.facts parts.now seat.new hand.new }
    ensures hand { kinds hand.new ≡ kinds hand.old }
    ensures ok { OnOk result (Did C.facts B.facts (Some Deed.BackingBarrier) seat.old seat.new) }
    ensures err { IfErr result (λ error. HasFailed C.facts B.facts error
        (Deed.DeviceFault (Failure.Barrier Device.Backing)) seat.old seat.new) }
{
    if let Some(device) = seat.heard() {
        return Err(StepError::Halted(device));
    }
    let (mut backing, taken) = borrow_backing(rt, parts, seat, hand);
    let done = barrier_in(rt, parts, seat, &mut backing);
    return_backing(parts, seat, hand, backing, taken);
    done
}

// The same, of the device in hand.
fn barrier_in<C: Disk, B: Disk, R: Wait>(
    rt: &R,
    parts: &CoreParts<C, B>,
    seat: &mut CoreSeat<C, B>,
    backing: &mut BackingPart<B>,
) -> Result<(), StepError>
    requires run { seat.old.run ≡ parts.now.run }
    requires seat { IsCoreSeat C.facts B.facts seat.old }
    requires unheard { seat.old.heard ≡ None }
    requires promise { 0 < seat.old.promises }
    requires holds { Holds seat.old.parts 5 }
    requires backing { IsBacking C.facts B.facts backing.old (world C.facts B.facts seat.old) }
    ensures seat { IsCoreSeat C.facts B.facts seat.new }
    ensures kept { Kept (core C.facts B.facts) seat.old seat.new (λ k. k == 5) }
    ensures backing { IsBacking C.facts B.facts backing.new (world C.facts B.facts seat.new) }
    ensures ok { OnOk result (Did C.facts B.facts (Some Deed.BackingBarrier) seat.old seat.new) }
    ensures err { IfErr result (λ error. HasFailed C.facts B.facts error
        (Deed.DeviceFault (Failure.Barrier Device.Backing)) seat.old seat.new) }
{
    match backing.disk.barrier() {
        Ok(()) => {
            called(rt, parts, seat, Deed::BackingBarrier);
            Ok(())
        }
        Err(_) => {
            let failure = Failure::Barrier {
                device: Device::Backing,
            };
            called(rt, parts, seat, Deed::DeviceFault { failure });
            Err(StepError::Fault(Device::Backing))
        }
    }
}

/// Reads the sectors from `first` on into `into`, under the seat's claim, after the gate at
/// `BeforeRead`, and answers their values too, where there is memory for them. After an error the
/// bytes of `into` are any.
pub fn backing_read<C: Disk + Drop, B: Disk + Drop, R: Wait, G: Gate>(
    rt: &R,
    alloc: Global,
    parts: &CoreParts<C, B>,
    seat: &mut CoreSeat<C, B>,
    hand: &mut Hand<C, B>,
    first: u64,
    into: &mut [u8],
    gate: &G,
) -> Result<Option<Values>, StepError>
    requires works { Works C.facts B.facts parts.now seat.old hand.old }
    requires promise { 0 < seat.old.promises }
    requires sectors { AreSectors first (length into.old) (size_of C.facts B.facts seat.old.run.start) }
    requires looked { (note C.facts B.facts seat.old).looked ≡ true }
    requires covered { IsWithin (note C.facts B.facts seat.old).range first (length into.old / 512) }
    ensures works { Works C.facts B.facts parts.now seat.new hand.new }
    ensures hand { kinds hand.new ≡ kinds hand.old }
    ensures rest { hand.new ≡ record hand.old { backing = hand.new.backing } }
    ensures ok { OnOk result (Did C.facts B.facts
        (Some (Deed.BackingRead first (values_of into.new))) seat.old seat.new) }
    ensures values { IfOk result (λ some. IfSome some (λ values. values ≡ values_of into.new)) }
    ensures err { IfErr result (λ error. HasFailedOr C.facts B.facts error
        (Deed.DeviceFault (Failure.Read Device.Backing)) seat.old seat.new) }
{
    if let Some(device) = seat.heard() {
        return Err(StepError::Halted(device));
    }
    let Ok(bytes) = Vec::with_capacity(alloc, into.len()) else {
        return Err(StepError::Memory);
    };
    let (mut backing, taken) = borrow_backing(rt, parts, seat, hand);
    gate.at(rt, seat.number(), Point::BeforeRead(Device::Backing));
    let done = read_in(rt, parts, seat, &mut backing, first, into, bytes);
    return_backing(parts, seat, hand, backing, taken);
    done
}

// The same, of the device in hand, with room for what is read.
fn read_in<C: Disk, B: Disk, R: Wait>(
    rt: &R,
    parts: &CoreParts<C, B>,
    seat: &mut CoreSeat<C, B>,
    backing: &mut BackingPart<B>,
    first: u64,
    into: &mut [u8],
    bytes: Vec<u8>,
) -> Result<Option<Values>, StepError>
    requires run { seat.old.run ≡ parts.now.run }
    requires seat { IsCoreSeat C.facts B.facts seat.old }
    requires unheard { seat.old.heard ≡ None }
    requires promise { 0 < seat.old.promises }
    requires holds { Holds seat.old.parts 5 }
    requires backing { IsBacking C.facts B.facts backing.old (world C.facts B.facts seat.old) }
    requires room { (bytes.items ≡ []) × (length into.old ≤ vec_capacity bytes) }
    requires sectors { AreSectors first (length into.old) backing.old.size }
    requires looked { (note C.facts B.facts seat.old).looked ≡ true }
    requires covered { IsWithin (note C.facts B.facts seat.old).range first (length into.old / 512) }
    ensures seat { IsCoreSeat C.facts B.facts seat.new }
    ensures kept { Kept (core C.facts B.facts) seat.old seat.new (λ k. k == 5) }
    ensures backing { IsBacking C.facts B.facts backing.new (world C.facts B.facts seat.new) }
    ensures ok { OnOk result (Did C.facts B.facts
        (Some (Deed.BackingRead first (values_of into.new))) seat.old seat.new) }
    ensures values { IfOk result (λ some. IfSome some (λ values. values ≡ values_of into.new)) }
    ensures err { IfErr result (λ error. HasFailed C.facts B.facts error
        (Deed.DeviceFault (Failure.Read Device.Backing)) seat.old seat.new) }
{
    let mut bytes = bytes;
    let at = backing.offset + first;
    match backing.disk.read(at, into) {
        Ok(()) => {
            let Ok(()) = bytes.extend_from_slice(into) else {
                unreachable!()
            };
            let values = Values::from_sectors(first, bytes);
            let copy = values.copy().ok();
            called(rt, parts, seat, Deed::BackingRead { first, values });
            Ok(copy)
        }
        Err(_) => {
            let failure = Failure::Read {
                device: Device::Backing,
            };
            called(rt, parts, seat, Deed::DeviceFault { failure });
            Err(StepError::Fault(Device::Backing))
        }
    }
}

/// Writes these values to the sectors from `first` on, for a line, under the seat's exclusive claim;
/// under one claim a seat writes once.
pub fn backing_write<C: Disk + Drop, B: Disk + Drop, R: Wait>(
    rt: &R,
    alloc: Global,
    parts: &CoreParts<C, B>,
    seat: &mut CoreSeat<C, B>,
    hand: &mut Hand<C, B>,
    first: u64,
    values: &Values,
    of: LineNumber,
) -> Result<(), StepError>
    requires works { Works C.facts B.facts parts.now seat.old hand.old }
    requires plain { are_plain C.facts B.facts parts.now.run.start ≡ true }
    requires promise { 0 < seat.old.promises }
    requires line { worker_of seat.old.first ≡ of.worker }
    requires some { 0 < length values.now }
    requires inside { first + length values.now ≤ size_of C.facts B.facts seat.old.run.start }
    requires may { MayWrite (note C.facts B.facts seat.old) first (length values.now) }
    ensures works { Works C.facts B.facts parts.now seat.new hand.new }
    ensures hand { kinds hand.new ≡ kinds hand.old }
    ensures ok { OnOk result (Did C.facts B.facts
        (Some (Deed.BackingWrite first (Some of) values.now)) seat.old seat.new) }
    ensures err { IfErr result (λ error. HasFailedOr C.facts B.facts error
        (Deed.DeviceFault (Failure.BackingWrite first (Some of) values.now)) seat.old seat.new) }
{
    if let Some(device) = seat.heard() {
        return Err(StepError::Halted(device));
    }
    let Ok(values) = values.copy() else {
        return Err(StepError::Memory);
    };
    if values.len() == 1 {
        let mut sector = [0; 512];
        values.put_into(&mut sector);
        return write_bytes(rt, parts, seat, hand, first, values, &sector, of);
    }
    let Some(bytes) = bytes_of(alloc, &values) else {
        return Err(StepError::Memory);
    };
    write_bytes(rt, parts, seat, hand, first, values, &bytes, of)
}

// The same, of values that have these bytes.
fn write_bytes<C: Disk + Drop, B: Disk + Drop, R: Wait>(
    rt: &R,
    parts: &CoreParts<C, B>,
    seat: &mut CoreSeat<C, B>,
    hand: &mut Hand<C, B>,
    first: u64,
    values: Values,
    bytes: &[u8],
    of: LineNumber,
) -> Result<(), StepError>
    requires works { Works C.facts B.facts parts.now seat.old hand.old }
    requires unheard { seat.old.heard ≡ None }
    requires plain { are_plain C.facts B.facts parts.now.run.start ≡ true }
    requires promise { 0 < seat.old.promises }
    requires line { worker_of seat.old.first ≡ of.worker }
    requires some { 0 < length values }
    requires inside { first + length values ≤ size_of C.facts B.facts seat.old.run.start }
    requires bytes { (values_of bytes.now ≡ values) × (length bytes.now ≡ 512 * length values) }
    requires may { MayWrite (note C.facts B.facts seat.old) first (length values) }
    ensures works { Works C.facts B.facts parts.now seat.new hand.new }
    ensures hand { kinds hand.new ≡ kinds hand.old }
    ensures ok { OnOk result (Did C.facts B.facts
        (Some (Deed.BackingWrite first (Some of) values)) seat.old seat.new) }
    ensures err { IfErr result (λ error. HasFailedOr C.facts B.facts error
        (Deed.DeviceFault (Failure.BackingWrite first (Some of) values)) seat.old seat.new) }
{
    let (mut backing, taken) = borrow_backing(rt, parts, seat, hand);
    let done = write_in(rt, parts, seat, &mut backing, first, values, bytes, of);
    return_backing(parts, seat, hand, backing, taken);
    done
}

// The bytes of these values.
fn bytes_of(alloc: Global, values: &Values) -> Option<Vec<u8>>
    ensures { IfSome result (λ bytes. (values_of bytes.items ≡ values.now)
        × (length bytes.items ≡ 512 * length values.now)) }
{
    let len = 512 * values.len() as usize;
    let mut bytes = vec![in alloc; 0; len].ok()?;
    values.put_into(&mut bytes);
    Some(bytes)
}

// The same, of the device in hand.
fn write_in<C: Disk, B: Disk, R: Wait>(
    rt: &R,
    parts: &CoreParts<C, B>,
    seat: &mut CoreSeat<C, B>,
    backing: &mut BackingPart<B>,
    first: u64,
    values: Values,
    bytes: &[u8],
    of: LineNumber,
) -> Result<(), StepError>
    requires run { seat.old.run ≡ parts.now.run }
    requires seat { IsCoreSeat C.facts B.facts seat.old }
    requires unheard { seat.old.heard ≡ None }
    requires plain { are_plain C.facts B.facts parts.now.run.start ≡ true }
    requires promise { 0 < seat.old.promises }
    requires holds { Holds seat.old.parts 5 }
    requires backing { IsBacking C.facts B.facts backing.old (world C.facts B.facts seat.old) }
    requires line { worker_of seat.old.first ≡ of.worker }
    requires some { 0 < length values }
    requires inside { first + length values ≤ backing.old.size }
    requires bytes { (values_of bytes.now ≡ values) × (length bytes.now ≡ 512 * length values) }
    requires may { MayWrite (note C.facts B.facts seat.old) first (length values) }
    ensures seat { IsCoreSeat C.facts B.facts seat.new }
    ensures kept { Kept (core C.facts B.facts) seat.old seat.new (λ k. k == 5) }
    ensures backing { IsBacking C.facts B.facts backing.new (world C.facts B.facts seat.new) }
    ensures ok { OnOk result (Did C.facts B.facts
        (Some (Deed.BackingWrite first (Some of) values)) seat.old seat.new) }
    ensures err { IfErr result (λ error. HasFailed C.facts B.facts error
        (Deed.DeviceFault (Failure.BackingWrite first (Some of) values)) seat.old seat.new) }
{
    let at = backing.offset + first;
    match backing.disk.write(at, bytes) {
        Ok(()) => {
            let of = Some(of);
            called(rt, parts, seat, Deed::BackingWrite { first, of, values });
            Ok(())
        }
        Err(_) => {
            let failure = Failure::BackingWrite {
                first,
                of: Some(of),
                values,
            };
            called(rt, parts, seat, Deed::DeviceFault { failure });
            Err(StepError::Fault(Device::Backing))
        }
    }
}
