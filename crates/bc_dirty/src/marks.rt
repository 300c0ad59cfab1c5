//! What the buckets in memory tell.
ghost use Rattle.std.specs.Prelude.{◌≡◌, false, IsTrue, Any};
ghost use Rattle.std.specs.Bool.{MatchBool};
ghost use Rattle.bc_bucket.specs.declared.bucket.Mark.TheVariants as marks;
ghost use Rattle.bc_dirty_laws.specs.Dirty.{IsNoneDirty};
ghost use Rattle.bc_fetch.specs.bc_hand.Seats.{Works, core, empty, world};
ghost use Rattle.bc_fetch.specs.bc_machine.World.{FromEach, are_plain};
ghost use Rattle.bc_seats.specs.Seats.{Waited};
ghost use Rattle.bc_dirty.specs.Walk.{HasMarked};

use bc_bucket::{Bucket, Mark};
use bc_disk::disk::Disk;
use bc_fetch::bc_hand::hand::Hand;
use bc_fetch::bc_hand::lend::{borrow_buckets, return_buckets};
use bc_fetch::bc_machine::machine::{CoreParts, CoreSeat};
use std::sync::Wait;

/// Whether one of the buckets is marked as one with data that is in the cache alone.
pub fn has_dirty(buckets: &[Bucket]) -> bool
    ensures { MatchBool result (Any (λ b. b.mark ≡ marks.Dirty) buckets.now)
        (¬ (Any (λ b. b.mark ≡ marks.Dirty) buckets.now)) }
{
    for bucket in buckets {
        if bucket.mark == Mark::Dirty {
            return true;
        }
    }
    false
}

/// Whether one of a run's buckets is marked so. Where none is, no sector's last key is dirty.
pub fn any_marked<C: Disk + Drop, B: Disk + Drop, R: Wait>(
    rt: &R,
    parts: &CoreParts<C, B>,
    seat: &mut CoreSeat<C, B>,
) -> bool
    requires works { Works C.facts B.facts parts.now seat.old empty }
    requires cached { are_plain C.facts B.facts parts.now.run.start ≡ false }
    ensures works { Works C.facts B.facts parts.now seat.new empty }
    ensures waited { Waited (core C.facts B.facts) seat.old seat.new }
    ensures some { IsTrue result → HasMarked (world C.facts B.facts seat.new) }
    ensures none { result ≡ false → FromEach (world C.facts B.facts seat.new) IsNoneDirty }
{
    let mut hand = Hand::empty();
    let (buckets, _taken) = borrow_buckets(rt, parts, seat, &mut hand);
    let marked = has_dirty(buckets.get().buckets.records());
    return_buckets(parts, seat, &mut hand, buckets, true);
    marked
}
