//! The step that makes a barrier on the cache device.
ghost use Rattle.std.specs.Prelude.{◌≡◌, ◌+◌, ◌<◌, ◌≤◌, ◌==◌, ℕ, true, false, None, Some, length, OnOk, IfErr};
ghost use Rattle.bc_parts.specs.Seat.{Holds};
ghost use Rattle.bc_seats.specs.Seats.{Kept};
ghost use Rattle.bc_events.specs.Columns.{outlasts_halt};
ghost use Rattle.bc_events.specs.declared.event.Deed.{Deed};
ghost use Rattle.bc_events.specs.declared.event.Failure.{Failure};
ghost use Rattle.bc_disk.specs.declared.disk.Device.{Device};
ghost use Rattle.bc_sealing.specs.bc_machine.World.{IsCache, are_plain, changes};
ghost use Rattle.bc_deed.specs.bc_hand.Seats.{core, by, world, kinds};
ghost use Rattle.bc_deed.specs.bc_hand.Seats.{IsCoreSeat, MayDo, Works, Did, HasNoneBehindCache};
ghost use Rattle.bc_entry.specs.Entry.{HasJournalAndCache, MakesFirm};
ghost use Rattle.bc_entry.specs.Failed.{HasFailedAtCache};

use bc_deed::bc_hand::error::StepError;
use bc_deed::bc_hand::hand::Hand;
use bc_deed::bc_hand::lend::{borrow_cache, return_cache};
use bc_deed::bc_hand::seat::commit;
use bc_disk::disk::{Device, Disk};
use bc_events::event::{Deed, Failure};
use bc_sealing::bc_machine::machine::{CoreParts, CoreSeat};
use std::sync::Wait;

// Commits a call of the cache device, which no halt keeps out of a seat that wasn't told of one.
pub(crate) fn called<C: Disk, B: Disk, R: Wait>(
    rt: &R,
    parts: &CoreParts<C, B>,
    seat: &mut CoreSeat<C, B>,
    deed: Deed,
)
    requires run { seat.old.run ≡ parts.now.run }
    requires seat { IsCoreSeat C.facts B.facts seat.old }
    requires promise { 0 < seat.old.promises }
    requires holds { Holds seat.old.parts 4 }
    requires alone { (k : ℕ) → changes (length seat.old.run.start) (by seat.old.first deed) k
        ≡ (k == 4) }
    requires may { MayDo C.facts B.facts seat.old deed }
    requires outlasts { outlasts_halt deed ≡ true }
    ensures kept { Kept (core C.facts B.facts) seat.old seat.new (λ k. k == 4) }
    ensures did { Did C.facts B.facts (Some deed) seat.old seat.new }
{
    let Ok(()) = commit(rt, parts, seat, deed) else {
        unreachable!()
    };
}

/// Makes a barrier on the cache device. It may come at any time. Of an entry that the seat has
/// sealed, and keeps journal and device in hand for, it makes one that may be written, or a durable
/// one.
///
/// `Fault` says that the barrier itself failed, which is committed then, and `Halted` that a device
/// had halted the run before; then nothing was done.
pub fn cache_barrier<C: Disk + Drop, B: Disk + Drop, R: Wait>(
    rt: &R,
    parts: &CoreParts<C, B>,
    seat: &mut CoreSeat<C, B>,
    hand: &mut Hand<C, B>,
) -> Result<(), StepError>
    requires works { Works C.facts B.facts parts.now seat.old hand.old }
    requires cached { are_plain C.facts B.facts parts.now.run.start ≡ false }
    requires promise { 0 < seat.old.promises }
    requires order { hand.old.cache ≡ None → HasNoneBehindCache hand.old }
    ensures works { Works C.facts B.facts parts.now seat.new hand.new }
    ensures left { seat.old.promises ≤ seat.new.promises + 1 }
    ensures hand { kinds hand.new ≡ kinds hand.old }
    ensures rest { hand.new ≡ record hand.old { cache = hand.new.cache } }
    ensures ok { OnOk result (Did C.facts B.facts (Some Deed.CacheBarrier) seat.old seat.new) }
    ensures firm { OnOk result (HasJournalAndCache hand.old
        → MakesFirm C.facts B.facts seat.old seat.new) }
    ensures err { IfErr result (λ error. HasFailedAtCache C.facts B.facts error
        (Deed.DeviceFault (Failure.Barrier Device.Cache)) seat.old seat.new) }
{
    if let Some(device) = seat.heard() {
        return Err(StepError::Halted(device));
    }
    let (mut cache, taken) = borrow_cache(rt, parts, seat, hand);
    let done = barrier_in(rt, parts, seat, &mut cache);
    return_cache(parts, seat, hand, cache, taken);
    done
}

// The same, of the device in hand.
fn barrier_in<C: Disk, B: Disk, R: Wait>(
    rt: &R,
    parts: &CoreParts<C, B>,
    seat: &mut CoreSeat<C, B>,
    cache: &mut C,
) -> Result<(), StepError>
    requires run { seat.old.run ≡ parts.now.run }
    requires seat { IsCoreSeat C.facts B.facts seat.old }
    requires cached { are_plain C.facts B.facts parts.now.run.start ≡ false }
    requires unheard { seat.old.heard ≡ None }
    requires promise { 0 < seat.old.promises }
    requires holds { Holds seat.old.parts 4 }
    requires cache { IsCache C.facts B.facts cache.old (world C.facts B.facts seat.old) }
    ensures seat { IsCoreSeat C.facts B.facts seat.new }
    ensures left { seat.old.promises ≤ seat.new.promises + 1 }
    ensures kept { Kept (core C.facts B.facts) seat.old seat.new (λ k. k == 4) }
    ensures cache { IsCache C.facts B.facts cache.new (world C.facts B.facts seat.new) }
    ensures ok { OnOk result (Did C.facts B.facts (Some Deed.CacheBarrier) seat.old seat.new) }
    ensures err { IfErr result (λ error. HasFailedAtCache C.facts B.facts error
        (Deed.DeviceFault (Failure.Barrier Device.Cache)) seat.old seat.new) }
{
    match cache.barrier() {
        Ok(()) => {
            called(rt, parts, seat, Deed::CacheBarrier);
            Ok(())
        }
        Err(_) => {
            let failure = Failure::Barrier {
                device: Device::Cache,
            };
            called(rt, parts, seat, Deed::DeviceFault { failure });
            Err(StepError::Fault(Device::Cache))
        }
    }
}
