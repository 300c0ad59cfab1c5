//! The keys of a range, from its claim to its release.
ghost use Rattle.std.specs.Prelude.{ℕ, ◌+◌, ◌<◌, ◌≤◌, ◌^◌, IfErr, IfOk};
ghost use Rattle.bc_bypass.specs.Invalidated.{HasInvalidated, HasNotInvalidated};
ghost use Rattle.bc_seats.specs.Seats.{Same};
ghost use Rattle.bc_write_back.specs.bc_deed.Asked.{size_of};
ghost use Rattle.bc_write_back.specs.bc_hand.Seats.{core, world};
ghost use Rattle.bc_write_back.specs.bc_machine.World.{FromEach};
ghost use Rattle.bc_write_back.specs.bc_place.Place.{HasBefore};
ghost use Rattle.bc_write_back.specs.bc_request.Asked.{IsIdle};

use crate::claimed::invalidate_claimed;
use crate::error::Invalidated;
use bc_disk::disk::Disk;
use bc_flight::claim::Share;
use bc_worker::gate::Gate;
use bc_write_back::bc_fetch::error::LeafError;
use bc_write_back::bc_hand::error::StepError;
use bc_write_back::bc_hand::hand::Hand;
use bc_write_back::bc_machine::machine::{CoreParts, CoreSeat};
use bc_write_back::bc_request::bc_job::bc_deed::claims::release;
use bc_write_back::bc_request::bc_job::bc_deed::promise::promise;
use bc_write_back::bc_request::bc_job::claims::claim_range;
use std::alloc::Global;
use std::sync::Wait;

// The claim, the read of a leaf, the keys, and the release.
const DEEDS: u32 = 4;

/// Takes the keys of so many sectors from `first` on away, under an exclusive claim of them, for
/// which the seat waits. All of them lie in one leaf, as those of a piece of a line do.
///
/// `Gone` says that the keys without pointers are in the index, and wait for an entry of the
/// journal. Else nothing came into the index: `Dirty` says that a sector's data are in the cache
/// alone, and `Lacks` what had no room. The claim is let go each time.
pub fn invalidate<C: Disk + Drop, B: Disk + Drop, R: Wait, G: Gate>(
    rt: &R,
    alloc: Global,
    parts: &CoreParts<C, B>,
    seat: &mut CoreSeat<C, B>,
    first: u64,
    count: u32,
    gate: &G,
) -> Result<Invalidated, LeafError>
    requires idle { IsIdle C.facts B.facts parts.now seat.old }
    requires some { 1 ≤ count }
    requires range { first + count < 2 ^ 64 }
    requires inside { first + count ≤ size_of C.facts B.facts seat.old.run.start }
    ensures idle { IsIdle C.facts B.facts parts.now seat.new }
    ensures same { Same (core C.facts B.facts) seat.old seat.new }
    ensures before { (n : ℕ) → FromEach (world C.facts B.facts seat.old) (HasBefore n)
        → FromEach (world C.facts B.facts seat.new) (HasBefore n) }
    ensures ok { IfOk result (λ what. HasInvalidated C.facts B.facts what first count seat.old
        seat.new) }
    ensures err { IfErr result (λ error. HasNotInvalidated C.facts B.facts error first count
        seat.old seat.new) }
{
    let mut hand = Hand::empty();
    let hand = &mut hand;
    let Ok(()) = promise(rt, parts, seat, hand, DEEDS) else {
        return Err(LeafError::Step(StepError::Memory));
    };
    let claim = match claim_range(rt, parts, seat, hand, first, count, Share::Exclusive) {
        Ok(claim) => claim,
        Err(error) => return Err(LeafError::Step(error)),
    };
    let done = invalidate_claimed(rt, alloc, parts, seat, hand, first, count, gate);
    release(rt, parts, seat, hand, claim);
    match done {
        Ok(what) => Ok(what),
        Err(error) => Err(error),
    }
}
