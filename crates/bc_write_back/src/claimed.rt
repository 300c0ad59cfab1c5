//! A write under a claim.
ghost use Rattle.std.specs.Prelude.{◌≡◌, ◌+◌, ◌*◌, ◌<◌, ◌≤◌, ◌^◌, false, length, IfErr, IfOk};
ghost use Rattle.bc_stored.specs.bc_deed.Asked.{MayWrite, size_of};
ghost use Rattle.bc_stored.specs.bc_hand.Seats.{Works, empty, note, world};
ghost use Rattle.bc_stored.specs.bc_machine.Plain.{worker_of};
ghost use Rattle.bc_stored.specs.bc_machine.World.{FromEach, are_plain, cache_among};
ghost use Rattle.bc_stored.specs.bc_place.Place.{HasBefore};
ghost use Rattle.bc_write_back.specs.Claimed.{HasComeTo, HasNotWritten};

use crate::error::{Put, WriteError, unstored};
use crate::put::put_stored;
use bc_disk::disk::Disk;
use bc_events::event::LineNumber;
use bc_model::values::Values;
use bc_stored::all::{let_go, store};
use bc_stored::bc_hand::hand::Hand;
use bc_stored::bc_machine::machine::{CoreParts, CoreSeat};
use bc_worker::gate::Gate;
use std::alloc::Global;
use std::sync::Wait;

/// Writes values for a line into the cache, to the sectors from `first` on, which the seat has
/// claimed for itself and not written to. The cache device has so many sectors, and `before`
/// buckets of it lie before the journal's.
///
/// Where there was no room, or after an error, nothing came into the index, and each place that was
/// pinned is let go.
pub fn write_claimed<C: Disk + Drop, B: Disk + Drop, R: Wait, G: Gate>(
    rt: &R,
    alloc: Global,
    parts: &CoreParts<C, B>,
    seat: &mut CoreSeat<C, B>,
    hand: &mut Hand<C, B>,
    before: u32,
    sectors: u64,
    of: LineNumber,
    first: u64,
    values: &Values,
    gate: &G,
) -> Result<Put, WriteError>
    requires works { Works C.facts B.facts parts.now seat.old hand.old }
    requires empty { hand.old ≡ empty }
    requires cached { are_plain C.facts B.facts parts.now.run.start ≡ false }
    requires leaves { (6 < length parts.now.run.start) × (length parts.now.run.start < 2 ^ 32) }
    requires promise { 4 * length values.now + 2 ≤ seat.old.promises }
    requires before { FromEach (world C.facts B.facts seat.old) (HasBefore before) }
    requires sectors { sectors ≡ (cache_among C.facts B.facts parts.now.run.start).sectors }
    requires line { worker_of seat.old.first ≡ of.worker }
    requires some { 1 ≤ length values.now }
    requires range { first + length values.now < 2 ^ 64 }
    requires inside { first + length values.now ≤ size_of C.facts B.facts seat.old.run.start }
    requires may { MayWrite (note C.facts B.facts seat.old) first (length values.now) }
    ensures works { Works C.facts B.facts parts.now seat.new hand.new }
    ensures empty { hand.new ≡ empty }
    ensures left { seat.old.promises ≤ seat.new.promises + 4 * length values.now + 2 }
    ensures claim { (note C.facts B.facts seat.new).range ≡ (note C.facts B.facts seat.old).range }
    ensures ok { IfOk result (λ put. HasComeTo C.facts B.facts before sectors first values.now put
        of seat.old seat.new) }
    ensures err { IfErr result (λ error. HasNotWritten C.facts B.facts before sectors first
        values.now error seat.old seat.new) }
{
    let places = match store(rt, alloc, parts, seat, hand, before, sectors, first, values) {
        Ok(places) => places,
        Err(error) => return unstored(error),
    };
    match put_stored(
        rt, alloc, parts, seat, hand, &places, of, first, values, gate,
    ) {
        Ok(Put::Written) => Ok(Put::Written),
        Ok(Put::Lacks(lack)) => {
            let_go(rt, parts, seat, hand, &places);
            Ok(Put::Lacks(lack))
        }
        Err(error) => {
            let_go(rt, parts, seat, hand, &places);
            Err(WriteError::Leaf(error))
        }
    }
}
