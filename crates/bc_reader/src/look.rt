//! The look at the sectors of a claim.
ghost use Rattle.std.specs.Prelude.{◌≡◌, ◌+◌, ◌-◌, ◌*◌, ◌%◌, ◌<◌, ◌≤◌, ◌^◌, ◌++◌, [], ◌∷◌, ℕ, Bool, true, false, Some, None, OnOk, OnErr, IfOk, IfErr, MatchBool, length};
ghost use Rattle.bc_fetch.specs.bc_deed.Flushed.{HasDone};
ghost use Rattle.bc_events.specs.declared.event.Deed.{Deed};
ghost use Rattle.bc_fetch.specs.Fetch.{HasPart, IsSameButCache};
ghost use Rattle.bc_fetch.specs.bc_hand.Seats.{HasNoneBehindBuckets, HasNoneBehindCache, Works, core, empty, note};
ghost use Rattle.bc_fetch.specs.bc_machine.World.{are_plain, cache_among};
ghost use Rattle.bc_model.specs.Pieces.{piece_sectors};
ghost use Rattle.bc_reads.specs.declared.runs.ReadRun.{ReadRun};
ghost use Rattle.bc_seats.specs.Seats.{Waited};
ghost use Rattle.bc_reads.specs.bc_sight.Sight.{HasLeaf, Knows, OfClaim};
ghost use Rattle.bc_cache.specs.declared.slots.Cached.{Cached};
ghost use Rattle.bc_fetch.specs.bc_machine.declared.part.BucketsPart.{BucketsPart};
ghost use Rattle.bc_reader.specs.Known.{IsSameClaim};
ghost use Rattle.bc_reader.specs.Look.{HasBoth, HasBuckets, HasSeen, IsFound, IsNotFound, IsOver, IsSeenBy, LookStop, NotSeen, NotSeenBy};
ghost use Rattle.bc_reader.specs.Runs.{EndsBy, LieWithin};

use crate::error::{ReadError, of_step};
use crate::noted::{Noted, note_uses};
use bc_bucket::Buckets;
use bc_disk::disk::Disk;
use bc_fetch::bc_deed::promise::promise;
use bc_fetch::bc_hand::error::StepError;
use bc_fetch::bc_hand::hand::Hand;
use bc_fetch::bc_hand::lend::{borrow_buckets, return_buckets};
use bc_fetch::bc_machine::machine::{CoreParts, CoreSeat};
use bc_fetch::bc_machine::part::LEAVES;
use bc_fetch::error::LeafError;
use bc_fetch::leaf::{give_leaves, leaf_at};
use bc_fetch::node::cache_sectors;
use bc_node::Leaf;
use bc_reads::bc_sight::look::look;
use bc_reads::runs::{ReadRun, runs_of};
use bc_reads::source::ReadFrom;
use bc_worker::gate::Gate;
use std::alloc::Global;
use std::sync::Wait;

/// What a look found.
#[derive(Drop)]
pub struct Seen {
    /// The runs in which the sectors are read, in order.
    pub runs: Vec<ReadRun>,
    /// How often the buckets had been used anew from which these are read.
    pub noted: Vec<Noted>,
}

/// Takes the buckets.
pub(crate) fn take_buckets<C: Disk + Drop, B: Disk + Drop, R: Wait>(
    rt: &R,
    parts: &CoreParts<C, B>,
    seat: &mut CoreSeat<C, B>,
    hand: &mut Hand<C, B>,
)
    requires works { Works C.facts B.facts parts.now seat.old hand.old }
    requires cached { are_plain C.facts B.facts parts.now.run.start ≡ false }
    requires order { hand.old.buckets ≡ None → HasNoneBehindBuckets hand.old }
    ensures works { Works C.facts B.facts parts.now seat.new hand.new }
    ensures waited { Waited (core C.facts B.facts) seat.old seat.new }
    ensures heard { seat.new.heard ≡ seat.old.heard }
    ensures hand { hand.new ≡ record hand.old { buckets = hand.new.buckets } }
    ensures has { HasBuckets hand.new }
{
    let (buckets, _) = borrow_buckets(rt, parts, seat, hand);
    return_buckets(parts, seat, hand, buckets, false);
}

/// Gives the buckets in hand back.
pub(crate) fn give_buckets<C: Disk + Drop, B: Disk + Drop, R: Wait>(
    rt: &R,
    parts: &CoreParts<C, B>,
    seat: &mut CoreSeat<C, B>,
    hand: &mut Hand<C, B>,
)
    requires works { Works C.facts B.facts parts.now seat.old hand.old }
    requires cached { are_plain C.facts B.facts parts.now.run.start ≡ false }
    requires has { HasBuckets hand.old }
    ensures works { Works C.facts B.facts parts.now seat.new hand.new }
    ensures waited { Waited (core C.facts B.facts) seat.old seat.new }
    ensures heard { seat.new.heard ≡ seat.old.heard }
    ensures hand { hand.new ≡ record hand.old { buckets = None } }
{
    let (buckets, _) = borrow_buckets(rt, parts, seat, hand);
    return_buckets(parts, seat, hand, buckets, true);
}

// Whether a run ends by this sector, if it is read from the cache device.
fn is_within(run: &ReadRun, end: u64) -> bool
    ensures { MatchBool result (EndsBy end run.now) (¬ (EndsBy end run.now)) }
{
    match run.from {
        ReadFrom::Backing => true,
        ReadFrom::Cache { at, dirty: _ } => at <= end && u64::from(run.count) <= end - at,
    }
}

// Whether each run that is read from the cache device ends by this sector.
fn are_within(runs: &[ReadRun], end: u64) -> bool
    ensures { MatchBool result (LieWithin runs.now end) (¬ (LieWithin runs.now end)) }
{
    for run in runs {
        if !is_within(run, end) {
            return false;
        }
    }
    true
}

// The runs of a range, by a leaf and the buckets, with what is noted of those.
fn seen_by(
    alloc: Global,
    leaf: &Leaf,
    buckets: &Buckets,
    first: u64,
    count: u32,
    sectors: u64,
) -> Result<Seen, ReadError>
    requires { first + count < 2 ^ 64 }
    ensures ok { IfOk result (λ seen. IsSeenBy leaf.now buckets.now first (first + count) seen
        × LieWithin seen.runs.items sectors) }
    ensures err { IfErr result (λ error. NotSeenBy leaf.now buckets.now first (first + count)
        sectors error) }
{
    let _size = buckets.bucket_sectors();
    let Ok(found) = runs_of(alloc, leaf, buckets, first, count) else {
        return Err(of_step(StepError::Memory));
    };
    let Some(runs) = found else {
        return Err(ReadError::Lost);
    };
    if !are_within(&runs, sectors) {
        return Err(ReadError::Lost);
    }
    let Ok(noted) = note_uses(alloc, &runs, buckets) else {
        return Err(of_step(StepError::Memory));
    };
    Ok(Seen { runs, noted })
}

// The same, by the leaf of this number and the buckets in hand.
fn find_runs<C, B>(
    alloc: Global,
    hand: &Hand<C, B>,
    number: u32,
    first: u64,
    count: u32,
    sectors: u64,
) -> Result<Seen, ReadError>
    requires both { HasBoth hand.now number first count }
    requires few { first + count < 2 ^ 64 }
    ensures ok { IfOk result (λ seen. IsFound hand.now number first count seen
        × LieWithin seen.runs.items sectors) }
    ensures err { IfErr result (λ error. IsNotFound hand.now number first count sectors error) }
{
    let Some(leaves) = &hand.leaves else {
        unreachable!()
    };
    let Some(part) = &hand.buckets else {
        unreachable!()
    };
    let Some(slot) = leaves.cache.find(number) else {
        unreachable!()
    };
    let leaf = leaves.cache.leaf(slot);
    let buckets = &part.get().buckets;
    match seen_by(alloc, leaf, buckets, first, count, sectors) {
        Ok(seen) => Ok(seen),
        Err(error) => Err(error),
    }
}

// Looks the claim up in the leaf in hand, with room for two deeds of each run.
fn look_in<C: Disk + Drop, B: Disk + Drop, R: Wait>(
    rt: &R,
    alloc: Global,
    parts: &CoreParts<C, B>,
    seat: &mut CoreSeat<C, B>,
    hand: &mut Hand<C, B>,
    number: u32,
    first: u64,
    count: u32,
) -> Result<Seen, ReadError>
    requires works { Works C.facts B.facts parts.now seat.old hand.old }
    requires cached { are_plain C.facts B.facts parts.now.run.start ≡ false }
    requires order { hand.old.cache ≡ None → HasNoneBehindCache hand.old }
    requires promise { 0 < seat.old.promises }
    requires both { HasBoth hand.old number first count }
    requires range { IsOver first count (note C.facts B.facts seat.old).range }
    requires few { first + count < 2 ^ 64 }
    requires piece { count ≤ piece_sectors }
    ensures works { Works C.facts B.facts parts.now seat.new hand.new }
    ensures hand { IsSameButCache hand.old hand.new }
    ensures claim { (note C.facts B.facts seat.new).range ≡ (note C.facts B.facts seat.old).range }
    ensures ok { IfOk result (λ seen. IsFound hand.new number first count seen
        × LieWithin seen.runs.items (cache_among C.facts B.facts parts.now.run.start).sectors
        × (seat.old.promises + 2 * length seen.runs.items ≤ seat.new.promises + 1)) }
    ensures did { OnOk result (HasDone C.facts B.facts (Deed.Look number ∷ []) seat.old seat.new) }
    ensures looked { OnOk result ((note C.facts B.facts seat.new).looked ≡ true) }
    ensures knows { OnOk result ((slot : ℕ) (cached : Cached) (b : BucketsPart)
        → HasLeaf hand.new number first count slot cached → hand.new.buckets ≡ Some b
        → OfClaim C.facts B.facts seat.new (λ o c. Knows o cached.leaf b.buckets (λ _. None) c)) }
    ensures err { IfErr result (λ error. LookStop C.facts B.facts hand.new number first count
        (cache_among C.facts B.facts parts.now.run.start).sectors error seat.old seat.new) }
    ensures left { seat.old.promises ≤ seat.new.promises + 1 }
{
    let sectors = cache_sectors(rt, parts, seat, hand);
    let seen = match find_runs(alloc, hand, number, first, count, sectors) {
        Ok(seen) => seen,
        Err(error) => return Err(error),
    };
    let Ok(()) = promise(rt, parts, seat, hand, 2 * seen.runs.len() as u32) else {
        return Err(of_step(StepError::Memory));
    };
    match look(rt, parts, seat, hand, number) {
        Ok(()) => Ok(seen),
        Err(error) => Err(of_step(error)),
    }
}

/// Looks up the sectors of the seat's claim, and gives the runs in which they are read. From then on
/// the buckets are in hand, and the seat has room for two deeds of each run. At most one call of the
/// cache device is made, where no slot had the leaf.
///
/// After an error the hand is empty again, and nothing was done but that call.
pub fn look_at<C: Disk + Drop, B: Disk + Drop, R: Wait, G: Gate>(
    rt: &R,
    alloc: Global,
    parts: &CoreParts<C, B>,
    seat: &mut CoreSeat<C, B>,
    hand: &mut Hand<C, B>,
    first: u64,
    count: u32,
    gate: &G,
) -> Result<Seen, ReadError>
    requires works { Works C.facts B.facts parts.now seat.old hand.old }
    requires cached { are_plain C.facts B.facts parts.now.run.start ≡ false }
    requires leaves { (6 < length parts.now.run.start) × (length parts.now.run.start < 2 ^ 32) }
    requires empty { hand.old ≡ empty }
    requires promise { 1 < seat.old.promises }
    requires range { IsOver first count (note C.facts B.facts seat.old).range }
    requires few { first + count < 2 ^ 64 }
    requires piece { count ≤ piece_sectors }
    ensures works { Works C.facts B.facts parts.now seat.new hand.new }
    ensures hand { OnOk result (hand.new ≡ record empty { buckets = hand.new.buckets }) }
    ensures empty { OnErr result (hand.new ≡ empty) }
    ensures claim { (note C.facts B.facts seat.new).range ≡ (note C.facts B.facts seat.old).range }
    ensures ok { IfOk result (λ seen. HasSeen C.facts B.facts parts.now first count seen
        seat.old seat.new hand.new
        × LieWithin seen.runs.items (cache_among C.facts B.facts parts.now.run.start).sectors
        × (seat.old.promises + 2 * length seen.runs.items ≤ seat.new.promises + 2)) }
    ensures err { IfErr result (λ error. NotSeen C.facts B.facts parts.now first count error
        seat.old seat.new) }
    ensures left { seat.old.promises ≤ seat.new.promises + 2 }
{
    let number = match leaf_at(rt, alloc, parts, seat, hand, first, count, gate) {
        Ok(number) => number,
        Err(error) => return Err(ReadError::Leaf(error)),
    };
    take_buckets(rt, parts, seat, hand);
    let found = look_in(rt, alloc, parts, seat, hand, number, first, count);
    let part = LEAVES + number % (parts.part_count() as u32 - LEAVES);
    give_leaves(rt, parts, seat, hand, part);
    match found {
        Ok(seen) => Ok(seen),
        Err(error) => {
            give_buckets(rt, parts, seat, hand);
            Err(error)
        }
    }
}
