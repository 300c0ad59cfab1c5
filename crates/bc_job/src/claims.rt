//! A claim for which a seat waits.
ghost use Rattle.std.specs.Prelude.{◌≡◌, ◌+◌, ◌<◌, ◌≤◌, ◌^◌, [], IfOk, IfErr};
ghost use Rattle.bc_deed.specs.Asked.{IsHalted, size_of};
ghost use Rattle.bc_deed.specs.Flushed.{HasDone};
ghost use Rattle.bc_deed.specs.bc_hand.Seats.{Works, empty, note};
ghost use Rattle.bc_job.specs.Pieces.{HasMadeClaim};

use bc_deed::bc_hand::error::StepError;
use bc_deed::bc_hand::hand::Hand;
use bc_deed::bc_machine::machine::{CoreParts, CoreSeat};
use bc_deed::claims::claim;
use bc_disk::disk::Disk;
use bc_flight::claim::{Claim, Share};
use crossbeam_utils::Backoff;
use std::sync::Wait;

/// Waits until no claim that conflicts stands, and claims the sectors. The seat has nothing in hand
/// meanwhile, so that those who wait keep nobody from letting go.
///
/// `Err` names the device that halted the run; then nothing is done.
pub fn claim_range<C: Disk + Drop, B: Disk + Drop, R: Wait>(
    rt: &R,
    parts: &CoreParts<C, B>,
    seat: &mut CoreSeat<C, B>,
    hand: &mut Hand<C, B>,
    first: u64,
    count: u32,
    share: Share,
) -> Result<Claim, StepError>
    requires works { Works C.facts B.facts parts.now seat.old hand.old }
    requires empty { hand.old ≡ empty }
    requires promise { 0 < seat.old.promises }
    requires none { (note C.facts B.facts seat.old).range.count ≡ 0 }
    requires range { (1 ≤ count) × (first + count < 2 ^ 64) }
    requires inside { first + count ≤ size_of C.facts B.facts seat.old.run.start }
    ensures works { Works C.facts B.facts parts.now seat.new hand.new }
    ensures empty { hand.new ≡ empty }
    ensures left { seat.old.promises ≤ seat.new.promises + 1 }
    ensures ok { IfOk result (λ claim. HasMadeClaim C.facts B.facts claim first count share
        seat.old seat.new) }
    ensures err { IfErr result (λ error. IsHalted error seat.new.seen
        × HasDone C.facts B.facts [] seat.old seat.new
        × ((note C.facts B.facts seat.new).range.count ≡ 0)) }
{
    let backoff = Backoff::new();
    for _ in rt.forever() {
        match claim(rt, parts, seat, hand, first, count, share) {
            Ok(true) => {
                return Ok(Claim {
                    seat: seat.number(),
                    first,
                    count,
                    share,
                });
            }
            Ok(false) => backoff.snooze(),
            Err(error) => return Err(error),
        }
    }
    unreachable!()
}
