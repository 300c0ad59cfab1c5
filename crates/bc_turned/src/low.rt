//! Which entries have to go, so that the ring has room.
ghost use Rattle.std.specs.Prelude.{◌≡◌, ◌<◌, false};
ghost use Rattle.bc_flush.specs.bc_hand.Seats.{Works, empty, world};
ghost use Rattle.bc_flush.specs.bc_machine.World.{FromEach, are_plain};
ghost use Rattle.bc_journal.specs.Ring.{following};
ghost use Rattle.bc_turn.specs.Need.{IsToCome};
ghost use Rattle.bc_turned.specs.Turned.{HasLooked, greater, lesser, low_of};

use bc_disk::disk::Disk;
use bc_disk::geometry::Geometry;
use bc_flush::bc_hand::hand::Hand;
use bc_flush::bc_hand::lend::{borrow_journal, return_journal};
use bc_flush::bc_machine::machine::{CoreParts, CoreSeat};
use bc_journal::Journal;
use std::sync::Wait;

// The journal bucket that is used after one.
fn following(g: &Geometry, bucket: u32) -> u32
    requires { bucket < g.now.journal }
    ensures value { result ≡ following g.now bucket }
    ensures within { result < g.now.journal }
{
    if bucket + 1 < u32::from(g.journal) {
        bucket + 1
    } else {
        0
    }
}

fn greater(a: u64, b: u64) -> u64
    ensures { result ≡ greater a b }
{
    if a < b { b } else { a }
}

fn lesser(a: u64, b: u64) -> u64
    ensures { result ≡ lesser a b }
{
    if a < b { a } else { b }
}

/// The number behind the entries that have to go, so that an entry with keys may begin a bucket.
pub fn low_in(journal: &Journal) -> u64
    ensures { result ≡ low_of journal.now }
{
    let ring = journal.ring();
    let g = ring.geometry();
    let next = following(g, ring.next().bucket);
    let behind = following(g, next);
    let newest = ring.newest();
    let ahead = greater(newest[next as usize], newest[behind as usize]);
    lesser(ahead, journal.durable()) + 1
}

/// The same of the journal as it stands now. No part is in hand, before or after.
pub fn look_low<C: Disk + Drop, B: Disk + Drop, R: Wait>(
    rt: &R,
    parts: &CoreParts<C, B>,
    seat: &mut CoreSeat<C, B>,
    hand: &mut Hand<C, B>,
) -> u64
    requires works { Works C.facts B.facts parts.now seat.old hand.old }
    requires empty { hand.old ≡ empty }
    requires cached { are_plain C.facts B.facts parts.now.run.start ≡ false }
    ensures works { Works C.facts B.facts parts.now seat.new hand.new }
    ensures empty { hand.new ≡ empty }
    ensures looked { HasLooked C.facts B.facts result seat.old seat.new }
    ensures come { FromEach (world C.facts B.facts seat.new) (IsToCome result) }
{
    let (journal, _) = borrow_journal(rt, parts, seat, hand);
    let low = low_in(journal.get());
    return_journal(parts, seat, hand, journal, true);
    low
}
