//! Values that are put to as many places as they need.
ghost use Rattle.std.specs.Prelude.{◌≡◌, ◌+◌, ◌*◌, ◌≤◌, ◌^◌, All, false, length, IfErr, IfOk};
ghost use Rattle.bc_insert.specs.bc_deed.Flushed.{HasDone};
ghost use Rattle.bc_insert.specs.bc_hand.Seats.{Works, empty, world};
ghost use Rattle.bc_insert.specs.Write.{AreReady};
ghost use Rattle.bc_insert.specs.bc_machine.World.{FromEach, are_plain, cache_among};
ghost use Rattle.bc_insert.specs.bc_place.Named.{AreOnDevice, sectors_of};
ghost use Rattle.bc_insert.specs.bc_place.Place.{HasBefore};
ghost use Rattle.bc_stored.specs.All.{AreOwnApart, HaveNotStored, HaveStored, unpins};

use crate::error::StoreError;
use crate::one::store_one;
use bc_disk::disk::Disk;
use bc_fill::Placed;
use bc_insert::bc_hand::error::StepError;
use bc_insert::bc_hand::hand::Hand;
use bc_insert::bc_machine::machine::{CoreParts, CoreSeat};
use bc_insert::bc_place::unpin::unpin;
use bc_model::values::Values;
use std::alloc::Global;
use std::sync::Wait;

/// Puts values to fresh places of the cache device, which has so many sectors, one behind the other;
/// `first` is the sector of the first of them, and `before` buckets of the device lie before the
/// journal's. So keys that name the places in this order write the values to the sectors from
/// `first` on.
///
/// After an error each place that was pinned is let go. Room for four deeds a sector has to be
/// promised before, since each may need a place of its own; of that there is enough left to let the
/// places go that come back.
pub fn store<C: Disk + Drop, B: Disk + Drop, R: Wait>(
    rt: &R,
    alloc: Global,
    parts: &CoreParts<C, B>,
    seat: &mut CoreSeat<C, B>,
    hand: &mut Hand<C, B>,
    before: u32,
    sectors: u64,
    first: u64,
    values: &Values,
) -> Result<Vec<Placed>, StoreError>
    requires works { Works C.facts B.facts parts.now seat.old hand.old }
    requires empty { hand.old ≡ empty }
    requires cached { are_plain C.facts B.facts parts.now.run.start ≡ false }
    requires promise { 4 * length values.now ≤ seat.old.promises }
    requires before { FromEach (world C.facts B.facts seat.old) (HasBefore before) }
    requires sectors { sectors ≡ (cache_among C.facts B.facts parts.now.run.start).sectors }
    requires range { first + length values.now ≤ 2 ^ 64 }
    ensures works { Works C.facts B.facts parts.now seat.new hand.new }
    ensures empty { hand.new ≡ empty }
    ensures ok { IfOk result (λ places. HaveStored C.facts B.facts before sectors places.items
        values.now seat.old seat.new) }
    ensures all { IfOk result (λ places. sectors_of places.items ≡ length values.now) }
    ensures ready { IfOk result (λ places. FromEach (world C.facts B.facts seat.new)
        (AreReady seat.new.first first values.now places.items)) }
    ensures device { IfOk result (λ places. AreOnDevice places.items) }
    ensures few { IfOk result (λ places. All (λ p. p.count ≤ 32768) places.items) }
    ensures room { IfOk result (λ places. seat.old.promises + length places.items
        ≤ seat.new.promises + 4 * length values.now) }
    ensures left { seat.old.promises ≤ seat.new.promises + 4 * length values.now }
    ensures err { IfErr result (λ error. HaveNotStored C.facts B.facts before sectors error
        values.now seat.old seat.new) }
{
    let Ok(mut places) = Vec::with_capacity(alloc, values.len() as usize) else {
        return Err(StoreError::Step(StepError::Memory));
    };
    let mut done = 0;
    while done < values.len() {
        match store_one(
            rt, alloc, parts, seat, hand, before, sectors, first, values, done,
        ) {
            Ok(place) => {
                done += place.count;
                places.push_reserved(place);
            }
            Err(error) => {
                let_go(rt, parts, seat, hand, &places);
                return Err(error);
            }
        }
    }
    Ok(places)
}

/// Lets these places of the seat go, one behind the other, also after a halt.
pub fn let_go<C: Disk + Drop, B: Disk + Drop, R: Wait>(
    rt: &R,
    parts: &CoreParts<C, B>,
    seat: &mut CoreSeat<C, B>,
    hand: &mut Hand<C, B>,
    places: &[Placed],
)
    requires works { Works C.facts B.facts parts.now seat.old hand.old }
    requires empty { hand.old ≡ empty }
    requires cached { are_plain C.facts B.facts parts.now.run.start ≡ false }
    requires promise { length places.now ≤ seat.old.promises }
    requires own { FromEach (world C.facts B.facts seat.old)
        (AreOwnApart seat.old.first places.now) }
    ensures works { Works C.facts B.facts parts.now seat.new hand.new }
    ensures empty { hand.new ≡ empty }
    ensures done { HasDone C.facts B.facts (unpins places.now) seat.old seat.new }
    ensures left { seat.old.promises ≡ seat.new.promises + length places.now }
{
    for place in places {
        unpin(rt, parts, seat, hand, *place);
    }
}
