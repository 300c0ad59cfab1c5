//! The reads of runs.
ghost use Rattle.std.specs.Prelude.{◌≡◌, ◌+◌, ◌*◌, ◌/◌, ◌<◌, ◌≤◌, ◌^◌, ◌++◌, ℕ, Bool, true, false, List, MatchBool, None, Some, length, OnOk, IfErr};
ghost use Rattle.bc_bucket.specs.Buckets.{Buckets};
ghost use Rattle.bc_fetch.specs.bc_deed.Asked.{AreSectors, HasFailedOr, IsWithin, size_of};
ghost use Rattle.bc_disk.specs.declared.disk.Device.{Device};
ghost use Rattle.bc_events.specs.declared.event.Deed.{Deed};
ghost use Rattle.bc_fetch.specs.bc_hand.declared.error.StepError.{StepError};
ghost use Rattle.bc_fetch.specs.bc_hand.Seats.{Did, HasNoneBehindCache, Works, kinds, note};
ghost use Rattle.bc_fetch.specs.bc_machine.World.{are_plain, cache_among};
ghost use Rattle.bc_model.specs.Pieces.{piece_sectors};
ghost use Rattle.bc_model.specs.Sector.{Value, values_of};
ghost use Rattle.bc_node.specs.Leaf.{Leaf};
ghost use Rattle.bc_reads.specs.Reads.{IsRun};
ghost use Rattle.bc_reads.specs.declared.source.ReadFrom.{ReadFrom};
ghost use Rattle.bc_reader.specs.Deeds.{AreRunDeeds, HasDoneSome, HasStoppedBy, RunStop, backing_fault};
ghost use Rattle.bc_reader.specs.Known.{HasValues, IsSameClaim, IsSeenRun, IsSameButDevices};

use bc_disk::disk::Disk;
use bc_fetch::bc_deed::backing;
use bc_fetch::bc_hand::error::StepError;
use bc_fetch::bc_hand::hand::Hand;
use bc_fetch::bc_machine::machine::{CoreParts, CoreSeat};
use bc_reads::bc_sight::cache::cache_read;
use bc_reads::runs::ReadRun;
use bc_reads::source::ReadFrom;
use bc_worker::gate::Gate;
use std::alloc::Global;
use std::sync::Wait;

// A read of the backing device, of which the bytes alone are wanted.
fn backing_read<C: Disk + Drop, B: Disk + Drop, R: Wait, G: Gate>(
    rt: &R,
    alloc: Global,
    parts: &CoreParts<C, B>,
    seat: &mut CoreSeat<C, B>,
    hand: &mut Hand<C, B>,
    first: u64,
    into: &mut [u8],
    gate: &G,
) -> Result<(), StepError>
    requires works { Works C.facts B.facts parts.now seat.old hand.old }
    requires promise { 0 < seat.old.promises }
    requires sectors { AreSectors first (length into.old) (size_of C.facts B.facts seat.old.run.start) }
    requires looked { (note C.facts B.facts seat.old).looked ≡ true }
    requires covered { IsWithin (note C.facts B.facts seat.old).range first (length into.old / 512) }
    ensures works { Works C.facts B.facts parts.now seat.new hand.new }
    ensures hand { kinds hand.new ≡ kinds hand.old }
    ensures rest { hand.new ≡ record hand.old { backing = hand.new.backing } }
    ensures ok { OnOk result (Did C.facts B.facts
        (Some (Deed.BackingRead first (values_of into.new))) seat.old seat.new) }
    ensures err { IfErr result (λ error. HasFailedOr C.facts B.facts error backing_fault
        seat.old seat.new) }
{
    match backing::backing_read(rt, alloc, parts, seat, hand, first, into, gate) {
        Ok(_) => Ok(()),
        Err(error) => Err(error),
    }
}

// Whether a device failed.
fn is_fault(error: StepError) -> bool
    ensures { MatchBool result ((device : Device) × (error ≡ StepError.Fault device))
        ((device : Device) → ¬ (error ≡ StepError.Fault device)) }
{
    match error {
        StepError::Fault(_) => true,
        StepError::Halted(_) => false,
        StepError::Memory => false,
    }
}

/// Reads a run for sectors of the seat's claim, which it has looked up: in one call of the device from
/// which the run is read, after the gate at `BeforeRead`. Where the cache device fails to give clean
/// data, that is read from the backing device, which has it too. From then on the seat knows these
/// values as well.
///
/// `Fault` names the device that failed: the cache device where the data is dirty. After an error the
/// bytes of `into` are any.
pub fn read_run<C: Disk + Drop, B: Disk + Drop, R: Wait, G: Gate>(
    rt: &R,
    alloc: Global,
    parts: &CoreParts<C, B>,
    seat: &mut CoreSeat<C, B>,
    hand: &mut Hand<C, B>,
    run: &ReadRun,
    into: &mut [u8],
    gate: &G,
) -> Result<(), StepError>
    requires works { Works C.facts B.facts parts.now seat.old hand.old }
    requires cached { are_plain C.facts B.facts parts.now.run.start ≡ false }
    requires order { hand.old.cache ≡ None → HasNoneBehindCache hand.old }
    requires promise { 1 < seat.old.promises }
    requires some { 0 < run.now.count }
    requires piece { run.now.count ≤ piece_sectors }
    requires length { length into.old ≡ 512 * run.now.count }
    requires cache { (at : ℕ) (dirty : Bool) → run.now.from ≡ ReadFrom.Cache at dirty
        → at + run.now.count ≤ (cache_among C.facts B.facts parts.now.run.start).sectors }
    requires backing { run.now.first + run.now.count ≤ size_of C.facts B.facts seat.old.run.start }
    requires few { run.now.first + run.now.count < 2 ^ 64 }
    requires looked { (note C.facts B.facts seat.old).looked ≡ true }
    requires covered { IsWithin (note C.facts B.facts seat.old).range run.now.first run.now.count }
    requires seen { IsSeenRun C.facts B.facts run.now seat.old }
    ensures works { Works C.facts B.facts parts.now seat.new hand.new }
    ensures hand { IsSameButDevices hand.old hand.new }
    ensures claim { IsSameClaim (note C.facts B.facts seat.old) (note C.facts B.facts seat.new) }
    ensures left { seat.old.promises ≤ seat.new.promises + 2 }
    ensures ok { OnOk result (HasDoneSome C.facts B.facts
        (AreRunDeeds run.now (values_of into.new)) seat.old seat.new) }
    ensures knows { OnOk result ((leaf : Leaf) (b : Buckets) (first : ℕ) (values : List Value)
        → HasValues C.facts B.facts leaf b first values seat.old → IsRun leaf b run.now
        → run.now.first ≡ first + length values
        → HasValues C.facts B.facts leaf b first (values ++ values_of into.new) seat.new) }
    ensures err { IfErr result (λ error. HasStoppedBy C.facts B.facts error
        (RunStop error run.now) seat.old seat.new) }
{
    match run.from {
        ReadFrom::Backing => backing_read(rt, alloc, parts, seat, hand, run.first, into, gate),
        ReadFrom::Cache { at, dirty } => {
            let error = match cache_read(rt, alloc, parts, seat, hand, run.first, at, into, gate) {
                Ok(()) => return Ok(()),
                Err(error) => error,
            };
            if dirty || !is_fault(error) {
                return Err(error);
            }
            backing_read(rt, alloc, parts, seat, hand, run.first, into, gate)
        }
    }
}
