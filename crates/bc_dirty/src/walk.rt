//! All leaves, one behind the other.
ghost use Rattle.std.specs.Prelude.{◌≡◌, ◌<◌, ◌≤◌, ◌^◌, false, IfErr, IfOk, length};
ghost use Rattle.bc_fetch.specs.bc_hand.Seats.{Works, core, empty, world};
ghost use Rattle.bc_fetch.specs.bc_machine.World.{are_plain};
ghost use Rattle.bc_seats.specs.Seats.{Waited};
ghost use Rattle.bc_dirty.specs.Walk.{HasAsked, HasStoppedAsking, HasStoppedWalk, HasWalked, IsAlone, TellsDirt};

use crate::leaf::see_leaf;
use crate::marks::any_marked;
use bc_disk::disk::Disk;
use bc_fetch::bc_hand::hand::{Hand, borrow_backing, return_backing};
use bc_fetch::bc_machine::machine::{CoreParts, CoreSeat};
use bc_fetch::error::LeafError;
use bc_worker::gate::Gate;
use std::alloc::Global;
use std::sync::Wait;

// How many sectors the run's data has on the backing device.
fn data_size<C: Disk + Drop, B: Disk + Drop, R: Wait>(
    rt: &R,
    parts: &CoreParts<C, B>,
    seat: &mut CoreSeat<C, B>,
) -> u64
    requires works { Works C.facts B.facts parts.now seat.old empty }
    ensures works { Works C.facts B.facts parts.now seat.new empty }
    ensures waited { Waited (core C.facts B.facts) seat.old seat.new }
    ensures size { (world C.facts B.facts seat.new).opening.machine.flow.books.size ≡ result }
{
    let mut hand = Hand::empty();
    let (backing, _taken) = borrow_backing(rt, parts, seat, &mut hand);
    let size = backing.size;
    return_backing(parts, seat, &mut hand, backing, true);
    size
}

// Looks at one leaf behind the other, up to a sector of which none is behind the run's data, until
// one has a dirty key.
fn walk<C: Disk + Drop, B: Disk + Drop, R: Wait, G: Gate>(
    rt: &R,
    alloc: Global,
    parts: &CoreParts<C, B>,
    seat: &mut CoreSeat<C, B>,
    size: u64,
    gate: &G,
) -> Result<bool, LeafError>
    requires works { Works C.facts B.facts parts.now seat.old empty }
    requires cached { are_plain C.facts B.facts parts.now.run.start ≡ false }
    requires leaves { (6 < length parts.now.run.start) × (length parts.now.run.start < 2 ^ 32) }
    requires all { IsAlone C.facts B.facts seat.old }
    requires size { (world C.facts B.facts seat.old).opening.machine.flow.books.size ≡ size }
    ensures works { Works C.facts B.facts parts.now seat.new empty }
    ensures left { seat.old.promises ≤ seat.new.promises }
    ensures walked { IfOk result (λ dirty. HasWalked C.facts B.facts seat.old seat.new) }
    ensures told { IfOk result (λ dirty. TellsDirt dirty (world C.facts B.facts seat.new)) }
    ensures stopped { IfErr result (λ error. HasStoppedWalk C.facts B.facts error
        seat.old seat.new) }
{
    let mut first = 0;
    while first < size {
        match see_leaf(rt, alloc, parts, seat, first, gate) {
            Ok(leaf) => {
                if leaf.dirty {
                    return Ok(true);
                }
                first = leaf.end;
            }
            Err(LeafError::Missing) => return Ok(false),
            Err(error) => return Err(error),
        }
    }
    Ok(false)
}

/// Whether the last key of some sector is dirty, for a seat that has all numbers of its run, so that
/// nothing else goes on. The leaves are looked at only where some bucket is marked as one with dirty
/// data, and no further than up to a leaf that has a dirty key; the device is called for those that
/// no slot has.
///
/// `Memory` says that there was none for a leaf or for the event of a call; `Fault` is a call of the
/// cache device that failed, and `Halted` names the device that had halted the run before. `Busy`
/// comes where a leaf is in no slot, and each slot of its part has one of which keys are pending or
/// that is held; `Outside` and `Node` where a leaf isn't one, which no sound pair has.
pub fn any_dirty<C: Disk + Drop, B: Disk + Drop, R: Wait, G: Gate>(
    rt: &R,
    alloc: Global,
    parts: &CoreParts<C, B>,
    seat: &mut CoreSeat<C, B>,
    gate: &G,
) -> Result<bool, LeafError>
    requires works { Works C.facts B.facts parts.now seat.old empty }
    requires cached { are_plain C.facts B.facts parts.now.run.start ≡ false }
    requires leaves { (6 < length parts.now.run.start) × (length parts.now.run.start < 2 ^ 32) }
    requires all { IsAlone C.facts B.facts seat.old }
    ensures works { Works C.facts B.facts parts.now seat.new empty }
    ensures left { seat.old.promises ≤ seat.new.promises }
    ensures asked { IfOk result (λ dirty. HasAsked C.facts B.facts dirty seat.old seat.new) }
    ensures stopped { IfErr result (λ error. HasStoppedAsking C.facts B.facts error
        seat.old seat.new) }
{
    if !any_marked(rt, parts, seat) {
        return Ok(false);
    }
    let size = data_size(rt, parts, seat);
    walk(rt, alloc, parts, seat, size, gate)
}
