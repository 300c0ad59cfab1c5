//! All leaves.
ghost use Rattle.std.specs.Prelude.{◌≡◌, ◌+◌, ◌-◌, ◌<◌, ◌≤◌, ◌^◌, false, length, IfErr, IfNone, IfOk, IfSome};
ghost use Rattle.bc_append.specs.bc_hand.Seats.{Works, core, empty, world};
ghost use Rattle.bc_fetch.specs.Fetch.{HasPart};
ghost use Rattle.bc_append.specs.bc_machine.World.{FromEach, are_plain, cache_among};
ghost use Rattle.bc_append.specs.bc_place.Written.{KeepsPlaces};
ghost use Rattle.bc_needs.specs.Needs.{NeedsFrom};
ghost use Rattle.bc_seats.specs.Seats.{Waited};
ghost use Rattle.bc_turn.specs.Need.{IsToCome, PartNeedsFrom};
ghost use Rattle.bc_turn.specs.Part.{HasFailed, HasWrittenSets};
ghost use Rattle.bc_turn.specs.Parts.{WasLeft};

use crate::error::Left;
use crate::part::empty_part;
use bc_append::bc_hand::error::StepError;
use bc_append::bc_hand::hand::Hand;
use bc_append::bc_hand::lend::{borrow_leaves, return_leaves};
use bc_append::bc_machine::machine::{CoreParts, CoreSeat};
use bc_append::bc_machine::part::LEAVES;
use bc_disk::disk::Disk;
use bc_fetch::leaf::give_leaves;
use std::alloc::Global;
use std::sync::Wait;

// Takes a part with leaves; nothing is in hand before.
fn take_part<C: Disk + Drop, B: Disk + Drop, R: Wait>(
    rt: &R,
    parts: &CoreParts<C, B>,
    seat: &mut CoreSeat<C, B>,
    hand: &mut Hand<C, B>,
    part: u32,
)
    requires works { Works C.facts B.facts parts.now seat.old hand.old }
    requires empty { hand.old ≡ empty }
    requires cached { are_plain C.facts B.facts parts.now.run.start ≡ false }
    requires part { (6 ≤ part) × (part < length parts.now.run.start) }
    ensures works { Works C.facts B.facts parts.now seat.new hand.new }
    ensures waited { Waited (core C.facts B.facts) seat.old seat.new }
    ensures hand { hand.new ≡ record empty { leaves = hand.new.leaves } }
    ensures has { HasPart hand.new part }
{
    let (leaves, _) = borrow_leaves(rt, parts, seat, hand, part);
    return_leaves(parts, seat, hand, part, leaves, false);
}

// The same as `empty_part`, of a part that is taken for it and given back.
fn empty_taken<C: Disk + Drop, B: Disk + Drop, R: Wait>(
    rt: &R,
    alloc: Global,
    parts: &CoreParts<C, B>,
    seat: &mut CoreSeat<C, B>,
    hand: &mut Hand<C, B>,
    part: u32,
    low: u64,
) -> Result<Option<Left>, StepError>
    requires works { Works C.facts B.facts parts.now seat.old hand.old }
    requires empty { hand.old ≡ empty }
    requires cached { are_plain C.facts B.facts parts.now.run.start ≡ false }
    requires leaves { (6 < length parts.now.run.start) × (length parts.now.run.start < 2 ^ 32) }
    requires part { (6 ≤ part) × (part < length parts.now.run.start) }
    requires come { FromEach (world C.facts B.facts seat.old) (IsToCome low) }
    ensures works { Works C.facts B.facts parts.now seat.new hand.new }
    ensures empty { hand.new ≡ empty }
    ensures come { FromEach (world C.facts B.facts seat.new) (IsToCome low) }
    ensures promises { seat.old.promises ≤ seat.new.promises }
    ensures most { seat.new.promises ≤ seat.old.promises + 1 }
    ensures even { IfOk result (λ left. IfNone left (seat.new.promises ≡ seat.old.promises)) }
    ensures keeps { KeepsPlaces C.facts B.facts seat.old seat.new }
    ensures ok { IfOk result (λ left. HasWrittenSets C.facts B.facts parts.now low seat.old
        seat.new) }
    ensures left { IfOk result (λ left. IfSome left (WasLeft C.facts B.facts parts.now
        (cache_among C.facts B.facts parts.now.run.start).sectors low seat.old seat.new)) }
    ensures knows { IfOk result (λ left. IfNone left (FromEach (world C.facts B.facts seat.new)
        (PartNeedsFrom (length parts.now.run.start - 6) (part - 6) low))) }
    ensures err { IfErr result (λ error. HasFailed C.facts B.facts parts.now low error seat.old
        seat.new) }
{
    take_part(rt, parts, seat, hand, part);
    let done = empty_part(rt, alloc, parts, seat, hand, part, low);
    give_leaves(rt, parts, seat, hand, part);
    done
}

/// Writes what is pending of all leaves to their nodes, as `empty_part` does for each part. No part is
/// in hand, before or after.
///
/// An answer names a leaf of which a key of an entry below `low` was pending still, and says why.
/// Without one no leaf waits for an entry below `low`, nor ever will: so none is needed.
pub fn empty_leaves<C: Disk + Drop, B: Disk + Drop, R: Wait>(
    rt: &R,
    alloc: Global,
    parts: &CoreParts<C, B>,
    seat: &mut CoreSeat<C, B>,
    hand: &mut Hand<C, B>,
    low: u64,
) -> Result<Option<Left>, StepError>
    requires works { Works C.facts B.facts parts.now seat.old hand.old }
    requires empty { hand.old ≡ empty }
    requires cached { are_plain C.facts B.facts parts.now.run.start ≡ false }
    requires leaves { (6 < length parts.now.run.start) × (length parts.now.run.start < 2 ^ 32) }
    requires come { FromEach (world C.facts B.facts seat.old) (IsToCome low) }
    ensures works { Works C.facts B.facts parts.now seat.new hand.new }
    ensures empty { hand.new ≡ empty }
    ensures come { FromEach (world C.facts B.facts seat.new) (IsToCome low) }
    ensures promises { seat.old.promises ≤ seat.new.promises }
    ensures most { seat.new.promises ≤ seat.old.promises + 1 }
    ensures even { IfOk result (λ left. IfNone left (seat.new.promises ≡ seat.old.promises)) }
    ensures keeps { KeepsPlaces C.facts B.facts seat.old seat.new }
    ensures ok { IfOk result (λ left. HasWrittenSets C.facts B.facts parts.now low seat.old
        seat.new) }
    ensures left { IfOk result (λ left. IfSome left (WasLeft C.facts B.facts parts.now
        (cache_among C.facts B.facts parts.now.run.start).sectors low seat.old seat.new)) }
    ensures knows { IfOk result (λ left. IfNone left (FromEach (world C.facts B.facts seat.new)
        (λ o st. NeedsFrom low st))) }
    ensures err { IfErr result (λ error. HasFailed C.facts B.facts parts.now low error seat.old
        seat.new) }
{
    for part in LEAVES..parts.part_count() as u32 {
        match empty_taken(rt, alloc, parts, seat, hand, part, low) {
            Ok(None) => {}
            Ok(Some(left)) => return Ok(Some(left)),
            Err(error) => return Err(error),
        }
    }
    Ok(None)
}
