//! The reads of runs, one behind the other.
ghost use Rattle.std.specs.Prelude.{◌≡◌, ◌+◌, ◌*◌, ◌<◌, ◌≤◌, ◌^◌, ℕ, Bool, true, false, None, OnOk, IfErr, length};
ghost use Rattle.bc_fetch.specs.bc_deed.Asked.{IsWithin, size_of};
ghost use Rattle.bc_fetch.specs.bc_hand.Seats.{HasNoneBehindCache, Works, note};
ghost use Rattle.bc_fetch.specs.bc_machine.World.{are_plain, cache_among};
ghost use Rattle.bc_model.specs.Pieces.{piece_sectors};
ghost use Rattle.bc_model.specs.Sector.{values_of};
ghost use Rattle.bc_reads.specs.declared.source.ReadFrom.{ReadFrom};
ghost use Rattle.bc_reader.specs.Deeds.{HasStoppedBy, RunStop, RunsStop};
ghost use Rattle.bc_reader.specs.Known.{IsSameButDevices, IsSameClaim, IsSeenRun};
ghost use Rattle.bc_reader.specs.Runs.{HasReadAll, HasReadAt, IsSeenAll, LieWithin};

use crate::run::read_run;
use bc_disk::disk::Disk;
use bc_fetch::bc_hand::error::StepError;
use bc_fetch::bc_hand::hand::Hand;
use bc_fetch::bc_machine::machine::{CoreParts, CoreSeat};
use bc_reads::runs::ReadRun;
use bc_worker::gate::Gate;
use std::alloc::Global;
use std::sync::Wait;

// Reads a run into the bytes behind the first `place` sectors, which stay.
fn read_at<C: Disk + Drop, B: Disk + Drop, R: Wait, G: Gate>(
    rt: &R,
    alloc: Global,
    parts: &CoreParts<C, B>,
    seat: &mut CoreSeat<C, B>,
    hand: &mut Hand<C, B>,
    run: &ReadRun,
    bytes: &mut [u8],
    place: usize,
    gate: &G,
) -> Result<(), StepError>
    requires works { Works C.facts B.facts parts.now seat.old hand.old }
    requires cached { are_plain C.facts B.facts parts.now.run.start ≡ false }
    requires order { hand.old.cache ≡ None → HasNoneBehindCache hand.old }
    requires promise { 1 < seat.old.promises }
    requires some { 0 < run.now.count }
    requires piece { run.now.count ≤ piece_sectors }
    requires place { 512 * (place + run.now.count) ≤ length bytes.old }
    requires cache { (at : ℕ) (dirty : Bool) → run.now.from ≡ ReadFrom.Cache at dirty
        → at + run.now.count ≤ (cache_among C.facts B.facts parts.now.run.start).sectors }
    requires backing { run.now.first + run.now.count ≤ size_of C.facts B.facts seat.old.run.start }
    requires few { run.now.first + run.now.count < 2 ^ 64 }
    requires looked { (note C.facts B.facts seat.old).looked ≡ true }
    requires covered { IsWithin (note C.facts B.facts seat.old).range run.now.first run.now.count }
    requires seen { IsSeenRun C.facts B.facts run.now seat.old }
    ensures works { Works C.facts B.facts parts.now seat.new hand.new }
    ensures hand { IsSameButDevices hand.old hand.new }
    ensures claim { IsSameClaim (note C.facts B.facts seat.old) (note C.facts B.facts seat.new) }
    ensures left { seat.old.promises ≤ seat.new.promises + 2 }
    ensures ok { OnOk result (HasReadAt C.facts B.facts run.now place bytes.old bytes.new
        seat.old seat.new) }
    ensures err { IfErr result (λ error. HasStoppedBy C.facts B.facts error
        (RunStop error run.now) seat.old seat.new) }
{
    let from = 512 * place;
    let into = &mut bytes[from..from + 512 * run.count as usize];
    match read_run(rt, alloc, parts, seat, hand, run, into, gate) {
        Ok(()) => Ok(()),
        Err(error) => Err(error),
    }
}

/// Reads the runs of a range from `first` on in order, one behind the other in the bytes, for which
/// the seat has room for two deeds each. After an error the bytes are any.
pub fn read_runs<C: Disk + Drop, B: Disk + Drop, R: Wait, G: Gate>(
    rt: &R,
    alloc: Global,
    parts: &CoreParts<C, B>,
    seat: &mut CoreSeat<C, B>,
    hand: &mut Hand<C, B>,
    runs: &[ReadRun],
    first: u64,
    count: u32,
    bytes: &mut [u8],
    gate: &G,
) -> Result<(), StepError>
    requires works { Works C.facts B.facts parts.now seat.old hand.old }
    requires cached { are_plain C.facts B.facts parts.now.run.start ≡ false }
    requires order { hand.old.cache ≡ None → HasNoneBehindCache hand.old }
    requires promise { 2 * length runs.now ≤ seat.old.promises }
    requires piece { count ≤ piece_sectors }
    requires length { length bytes.old ≡ 512 * count }
    requires cache { LieWithin runs.now (cache_among C.facts B.facts parts.now.run.start).sectors }
    requires backing { first + count ≤ size_of C.facts B.facts seat.old.run.start }
    requires few { first + count < 2 ^ 64 }
    requires looked { (note C.facts B.facts seat.old).looked ≡ true }
    requires covered { IsWithin (note C.facts B.facts seat.old).range first count }
    requires seen { IsSeenAll C.facts B.facts first count runs.now seat.old }
    ensures works { Works C.facts B.facts parts.now seat.new hand.new }
    ensures hand { IsSameButDevices hand.old hand.new }
    ensures claim { IsSameClaim (note C.facts B.facts seat.old) (note C.facts B.facts seat.new) }
    ensures left { seat.old.promises ≤ seat.new.promises + 2 * length runs.now }
    ensures ok { OnOk result (HasReadAll C.facts B.facts first runs.now (values_of bytes.new)
        seat.old seat.new) }
    ensures err { IfErr result (λ error. HasStoppedBy C.facts B.facts error
        (RunsStop error runs.now) seat.old seat.new) }
{
    let mut place = 0;
    for run in runs {
        match read_at(rt, alloc, parts, seat, hand, run, bytes, place, gate) {
            Ok(()) => {}
            Err(error) => return Err(error),
        }
        place += run.count as usize;
    }
    Ok(())
}
