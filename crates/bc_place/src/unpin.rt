//! The step that lets a place go.
ghost use Rattle.std.specs.Prelude.{◌≡◌, ◌<◌, ◌==◌, ℕ, false, None, Some, length};
ghost use Rattle.bc_bucket.specs.Buckets.{changed};
ghost use Rattle.bc_deed.specs.bc_hand.Seats.{core, world, kinds, IsCoreSeat, Works, Did, HasNoneBehindBuckets};
ghost use Rattle.bc_deed.specs.bc_machine.World.{FromEach, AreBuckets, are_plain};
ghost use Rattle.bc_parts.specs.Seat.{Holds};
ghost use Rattle.bc_place.specs.Next.{IsLetGo, without_pins};
ghost use Rattle.bc_place.specs.Place.{IsOwn};
ghost use Rattle.bc_place.specs.Written.{HasUnpinned};
ghost use Rattle.bc_seats.specs.Seats.{Kept};

use bc_bucket::Buckets;
use bc_deed::bc_hand::hand::Hand;
use bc_deed::bc_hand::lend::{borrow_buckets, return_buckets};
use bc_deed::bc_hand::seat::commit;
use bc_deed::bc_machine::machine::{CoreParts, CoreSeat};
use bc_deed::bc_machine::part::BucketsPart;
use bc_disk::disk::Disk;
use bc_events::event::{Deed, UnpinKind};
use bc_fill::Placed;
use std::sync::Wait;

/// Lets a place go that the seat pinned, and that no key names, also after a halt. Nobody writes
/// there any more until its bucket is used anew.
pub fn unpin<C: Disk + Drop, B: Disk + Drop, R: Wait>(
    rt: &R,
    parts: &CoreParts<C, B>,
    seat: &mut CoreSeat<C, B>,
    hand: &mut Hand<C, B>,
    place: Placed,
)
    requires works { Works C.facts B.facts parts.now seat.old hand.old }
    requires cached { are_plain C.facts B.facts parts.now.run.start ≡ false }
    requires order { hand.old.buckets ≡ None → HasNoneBehindBuckets hand.old }
    requires promise { 0 < seat.old.promises }
    requires own { FromEach (world C.facts B.facts seat.old) (IsOwn seat.old.first place) }
    ensures works { Works C.facts B.facts parts.now seat.new hand.new }
    ensures hand { kinds hand.new ≡ kinds hand.old }
    ensures rest { hand.new ≡ record hand.old { buckets = hand.new.buckets } }
    ensures did { HasUnpinned C.facts B.facts place seat.old seat.new }
{
    let (mut buckets, taken) = borrow_buckets(rt, parts, seat, hand);
    unpin_in(rt, parts, seat, buckets.get_mut(), place);
    return_buckets(parts, seat, hand, buckets, taken);
}

// The same, of the part in hand.
fn unpin_in<C: Disk, B: Disk, R: Wait>(
    rt: &R,
    parts: &CoreParts<C, B>,
    seat: &mut CoreSeat<C, B>,
    part: &mut BucketsPart,
    place: Placed,
)
    requires run { seat.old.run ≡ parts.now.run }
    requires seat { IsCoreSeat C.facts B.facts seat.old }
    requires cached { are_plain C.facts B.facts parts.now.run.start ≡ false }
    requires promise { 0 < seat.old.promises }
    requires holds { Holds seat.old.parts 2 }
    requires buckets { AreBuckets part.old (world C.facts B.facts seat.old) }
    requires own { FromEach (world C.facts B.facts seat.old) (IsOwn seat.old.first place) }
    ensures seat { IsCoreSeat C.facts B.facts seat.new }
    ensures kept { Kept (core C.facts B.facts) seat.old seat.new (λ k. k == 2) }
    ensures buckets { AreBuckets part.new (world C.facts B.facts seat.new) }
    ensures did { HasUnpinned C.facts B.facts place seat.old seat.new }
{
    let at = place.ptr.offset;
    let count = place.count;
    let kind = UnpinKind::Place { at, count };
    let Ok(()) = commit(rt, parts, seat, Deed::Unpin { kind }) else {
        unreachable!()
    };
    let_go(part, place);
}

// Takes back the pins of a place.
fn let_go(part: &mut BucketsPart, place: Placed)
    ensures { IsLetGo part.old place part.new }
{
    let size = u64::from(part.buckets.bucket_sectors());
    let bucket = place.ptr.offset / size;
    if bucket < part.buckets.records().len() as u64 {
        unpin_each(&mut part.buckets, bucket as u32, place.count);
    }
}

// Takes back so many pins of a bucket, as far as it has them.
pub(crate) fn unpin_each(buckets: &mut Buckets, bucket: u32, count: u32)
    requires { bucket < length buckets.old.records }
    ensures { buckets.new ≡ changed (without_pins count) bucket buckets.old }
{
    for _ in 0..count {
        if buckets.get(bucket).pins > 0 {
            buckets.unpin(bucket);
        }
    }
}
