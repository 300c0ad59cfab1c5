//! The step that lets the place of a killed candidate go.
ghost use Rattle.std.specs.Prelude.{◌≡◌, ◌+◌, ◌<◌, ◌^◌, ◌==◌, ◌||◌, ℕ, false, Some};
ghost use Rattle.bc_candidate.specs.Dead.{HasDropped, HasLeft, HasLetGo, HasTaken, place_let_go, run_let_go};
ghost use Rattle.bc_flight.specs.Candidates.{first_of};
ghost use Rattle.bc_flight.specs.Flight.{InFlight};
ghost use Rattle.bc_flight.specs.declared.candidate.Wanted.{Wanted};
ghost use Rattle.bc_parts.specs.Seat.{Holds};
ghost use Rattle.bc_place.specs.bc_hand.Seats.{core, world, IsCoreSeat, Works};
ghost use Rattle.bc_place.specs.bc_machine.World.{AreBuckets, IsFlight, are_plain};
ghost use Rattle.bc_place.specs.bc_machine.declared.part.BucketsPart.{BucketsPart as PartSeen};
ghost use Rattle.bc_seats.specs.Seats.{Kept};

use bc_bucket::Buckets;
use bc_disk::disk::Disk;
use bc_events::event::{Deed, UnpinKind};
use bc_flight::candidate::Candidate;
use bc_flight::flight::Flight;
use bc_place::bc_hand::hand::Hand;
use bc_place::bc_hand::seat::commit;
use bc_place::bc_machine::machine::{CoreParts, CoreSeat};
use bc_place::bc_machine::part::BucketsPart;
use std::sync::Wait;

/// Lets the place go of the oldest candidate that was killed, also after a halt, and answers its
/// number. Claims and buckets are in hand. Nobody writes or names the place any more until its
/// bucket is used anew. Of the buckets only the pins of that place change. Takes no memory.
///
/// `None` says that no candidate stands that was killed; then nothing is done.
pub fn drop_dead<C: Disk + Drop, B: Disk + Drop, R: Wait>(
    rt: &R,
    parts: &CoreParts<C, B>,
    seat: &mut CoreSeat<C, B>,
    hand: &mut Hand<C, B>,
) -> Option<u64>
    requires works { Works C.facts B.facts parts.now seat.old hand.old }
    requires cached { are_plain C.facts B.facts parts.now.run.start ≡ false }
    requires promise { 0 < seat.old.promises }
    requires flight { (flight : InFlight) × (hand.old.flight ≡ Some flight) }
    requires buckets { (part : PartSeen) × (hand.old.buckets ≡ Some part) }
    ensures works { Works C.facts B.facts parts.now seat.new hand.new }
    ensures flight { (flight : InFlight) → hand.old.flight ≡ Some flight
        → (left : InFlight) × (hand.new.flight ≡ Some left) × HasTaken result flight left }
    ensures buckets { (flight : InFlight) → hand.old.flight ≡ Some flight
        → (part : PartSeen) → hand.old.buckets ≡ Some part
        → (left : PartSeen) × (hand.new.buckets ≡ Some left) × HasLeft result flight part left }
    ensures rest { hand.new
        ≡ record hand.old { flight = hand.new.flight; buckets = hand.new.buckets } }
    ensures done { HasDropped C.facts B.facts result seat.old seat.new }
{
    let Some(mut flight) = hand.flight.take() else {
        unreachable!()
    };
    let Some(mut buckets) = hand.buckets.take() else {
        unreachable!()
    };
    let done = dead_in(rt, parts, seat, &mut flight, buckets.get_mut());
    hand.buckets = Some(buckets);
    hand.flight = Some(flight);
    done
}

// The same, of the parts in hand.
fn dead_in<C: Disk, B: Disk, R: Wait>(
    rt: &R,
    parts: &CoreParts<C, B>,
    seat: &mut CoreSeat<C, B>,
    flight: &mut Flight,
    part: &mut BucketsPart,
) -> Option<u64>
    requires run { seat.old.run ≡ parts.now.run }
    requires seat { IsCoreSeat C.facts B.facts seat.old }
    requires cached { are_plain C.facts B.facts parts.now.run.start ≡ false }
    requires promise { 0 < seat.old.promises }
    requires holds { Holds seat.old.parts 1 × Holds seat.old.parts 2 }
    requires flight { IsFlight flight.old (world C.facts B.facts seat.old) }
    requires buckets { AreBuckets part.old (world C.facts B.facts seat.old) }
    ensures seat { IsCoreSeat C.facts B.facts seat.new }
    ensures kept { Kept (core C.facts B.facts) seat.old seat.new (λ k. k == 1 || k == 2) }
    ensures flight { IsFlight flight.new (world C.facts B.facts seat.new) }
    ensures buckets { AreBuckets part.new (world C.facts B.facts seat.new) }
    ensures took { HasTaken result flight.old flight.new }
    ensures left { HasLeft result flight.old part.old part.new }
    ensures done { HasDropped C.facts B.facts result seat.old seat.new }
{
    let Some(dead) = first_dead(flight.candidates()) else {
        return None;
    };
    let Some(ptr) = dead.key.pointer() else {
        unreachable!()
    };
    let kind = UnpinKind::Dead {
        candidate: dead.number,
    };
    let Ok(()) = commit(rt, parts, seat, Deed::Unpin { kind }) else {
        unreachable!()
    };
    flight.dead();
    let_go(part, ptr.offset, u32::from(dead.key.size));
    Some(dead.number)
}

// The oldest of these that was killed.
fn first_dead(items: &[Candidate]) -> Option<Candidate>
    ensures { result ≡ first_of Wanted.Dead items.now }
{
    for candidate in items {
        if candidate.killed {
            return Some(*candidate);
        }
    }
    None
}

// Takes back the pins of so many places from there on.
fn let_go(part: &mut BucketsPart, at: u64, count: u32)
    requires { at + count < 2 ^ 64 }
    ensures { HasLetGo part.old at count part.new }
{
    let_go_each(&mut part.buckets, at, count);
}

// Each in its bucket, where that is one of the device.
fn let_go_each(buckets: &mut Buckets, at: u64, count: u32)
    requires { at + count < 2 ^ 64 }
    ensures { buckets.new ≡ run_let_go at count buckets.old }
{
    for done in 0..count {
        let_go_one(buckets, at + u64::from(done));
    }
}

// One place.
fn let_go_one(buckets: &mut Buckets, place: u64)
    ensures { buckets.new ≡ place_let_go place buckets.old }
{
    let size = u64::from(buckets.bucket_sectors());
    let bucket = place / size;
    if bucket < buckets.records().len() as u64 && buckets.get(bucket as u32).pins > 0 {
        buckets.unpin(bucket as u32);
    }
}
