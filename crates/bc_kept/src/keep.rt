//! Places that become candidates, one behind the other.
ghost use Rattle.std.specs.Prelude.{◌≡◌, ◌+◌, ◌<◌, ◌≤◌, ◌^◌, All, false, length, IfErr, IfOk};
ghost use Rattle.bc_kept.specs.Kept.{AreFit, AreKeepable, HaveKept, HaveNotKept, HaveStopped};
ghost use Rattle.bc_stored.specs.All.{AreOwnApart};
ghost use Rattle.bc_stored.specs.bc_hand.Seats.{Works, empty, world};
ghost use Rattle.bc_stored.specs.bc_machine.World.{FromEach, are_plain};
ghost use Rattle.bc_stored.specs.bc_place.Named.{sectors_of};

use bc_candidate::note::note_candidate;
use bc_disk::disk::Disk;
use bc_fill::Placed;
use bc_stored::all::let_go;
use bc_stored::bc_hand::error::StepError;
use bc_stored::bc_hand::hand::Hand;
use bc_stored::bc_machine::machine::{CoreParts, CoreSeat};
use std::sync::Wait;

/// Notes places of the seat as candidates for the sectors from `first` on, one behind the other, as
/// long as one more may stand, and answers how many. Those behind them are let go: none of the
/// places is the seat's then. Takes no memory.
///
/// `Halted` names the device that halted the run; then the first places may be candidates, and the
/// others are let go.
pub fn keep_all<C: Disk + Drop, B: Disk + Drop, R: Wait>(
    rt: &R,
    parts: &CoreParts<C, B>,
    seat: &mut CoreSeat<C, B>,
    hand: &mut Hand<C, B>,
    first: u64,
    places: &[Placed],
) -> Result<usize, StepError>
    requires works { Works C.facts B.facts parts.now seat.old hand.old }
    requires empty { hand.old ≡ empty }
    requires cached { are_plain C.facts B.facts parts.now.run.start ≡ false }
    requires promise { length places.now ≤ seat.old.promises }
    requires fit { AreFit places.now }
    requires range { first + sectors_of places.now < 2 ^ 64 }
    requires own { FromEach (world C.facts B.facts seat.old)
        (AreOwnApart seat.old.first places.now) }
    requires keep { FromEach (world C.facts B.facts seat.old)
        (AreKeepable seat.old.first first places.now) }
    ensures works { Works C.facts B.facts parts.now seat.new hand.new }
    ensures empty { hand.new ≡ empty }
    ensures ok { IfOk result (λ count. HaveKept C.facts B.facts first count places.now seat.old
        seat.new) }
    ensures err { IfErr result (λ error. HaveNotKept C.facts B.facts first error places.now
        seat.old seat.new) }
    ensures left { seat.old.promises ≡ seat.new.promises + length places.now }
{
    let (noted, error) = note_each(rt, parts, seat, hand, first, places);
    let_go(rt, parts, seat, hand, &places[noted..]);
    match error {
        None => Ok(noted),
        Some(error) => Err(error),
    }
}

// Notes these places as long as that can be, and answers how many were, with the error that came
// then.
fn note_each<C: Disk + Drop, B: Disk + Drop, R: Wait>(
    rt: &R,
    parts: &CoreParts<C, B>,
    seat: &mut CoreSeat<C, B>,
    hand: &mut Hand<C, B>,
    first: u64,
    places: &[Placed],
) -> (usize, Option<StepError>)
    requires works { Works C.facts B.facts parts.now seat.old hand.old }
    requires empty { hand.old ≡ empty }
    requires cached { are_plain C.facts B.facts parts.now.run.start ≡ false }
    requires promise { length places.now ≤ seat.old.promises }
    requires fit { AreFit places.now }
    requires range { first + sectors_of places.now < 2 ^ 64 }
    requires own { FromEach (world C.facts B.facts seat.old)
        (AreOwnApart seat.old.first places.now) }
    requires keep { FromEach (world C.facts B.facts seat.old)
        (AreKeepable seat.old.first first places.now) }
    ensures works { Works C.facts B.facts parts.now seat.new hand.new }
    ensures empty { hand.new ≡ empty }
    ensures stopped { HaveStopped C.facts B.facts first result.0 result.1 places.now seat.old
        seat.new }
    ensures left { seat.old.promises ≡ seat.new.promises + result.0 }
{
    let mut next = first;
    for (i, place) in places.iter().enumerate() {
        match note_candidate(rt, parts, seat, hand, next, *place) {
            Ok(Some(_)) => next += u64::from(place.count),
            Ok(None) => return (i, None),
            Err(error) => return (i, Some(error)),
        }
    }
    (places.len(), None)
}
