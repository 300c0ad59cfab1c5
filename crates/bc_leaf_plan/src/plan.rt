//! The plan for a leaf that gives way, with the checks that its nodes can be written.
ghost use Rattle.std.specs.Prelude.{◌≡◌, ◌↔◌, ◌+◌, ◌<◌, ◌^◌, All, Contains, Some, length, IfErr, IfNone, IfOk, IfSome, IsTrue};
ghost use Rattle.bc_held.specs.bc_machine.declared.part.SpinePart.{SpinePart as SpineSeen};
ghost use Rattle.bc_leaf_plan.specs.Leaf.{EndsWithin, HasFor, HasSlot, HasNoPlan, HasPlan, IsPlanned, IsProperPending, IsUnplanned};
ghost use Rattle.bc_leaf_plan.specs.Way.{IsFullAbove, IsLongFor, IsNeededBy, IsNotPlannedBy, IsPlanBy, places, refused_by};
ghost use Rattle.bc_tree.specs.LastKeys.{StandsInFor};
ghost use Rattle.bc_tree.specs.Plan.{Fits, IsOfSpine, new_count};
ghost use Rattle.bc_tree.specs.Same.{IsSameTree};
ghost use Rattle.bc_tree.specs.declared.needs.Needs.{Needs as NeedsSeen};

use crate::refused::Refused;
use crate::up::moves_up;
use crate::way::Way;
use bc_held::bc_hand::hand::Hand;
use bc_held::bc_machine::part::SpinePart;
use bc_held::held::HeldBucket;
use bc_key::Ptr;
use bc_node::Leaf;
use bc_tree::{Needs, Plan, PlanError, Spine};
use std::alloc::{AllocError, Global};

// How many buckets the new nodes take. None where a node above has to give way to two, and the root
// has no room for one more child.
fn needs_for(spine: &Spine, leaf: &Leaf, way: Way) -> Option<Needs>
    requires { leaf.now.from < spine.now.root.end }
    ensures some { IfSome result (IsNeededBy way spine.now leaf.now) }
    ensures none { IfNone result (IsFullAbove way spine.now leaf.now) }
{
    match way {
        Way::Rewrite => Some(spine.rewrite_needs(leaf)),
        Way::Split => spine.split_needs(leaf),
    }
}

/// How many the leaf in this slot of the part in hand needs.
pub fn needs_in<C, B>(hand: &Hand<C, B>, slot: u32, way: Way) -> Option<Needs>
    requires { HasSlot hand.now slot }
    ensures some { (at : HasSlot hand.now slot) → IfSome result
        (IsNeededBy way at.spine.spine at.cached.leaf) }
    ensures none { (at : HasSlot hand.now slot) → IfNone result
        (IsFullAbove way at.spine.spine at.cached.leaf) }
{
    let Some(spine) = &hand.spine else {
        unreachable!()
    };
    let Some(leaves) = &hand.leaves else {
        unreachable!()
    };
    needs_for(&spine.get().spine, leaves.cache.leaf(slot), way)
}

/// Whether so many numbers are left for new nodes, and one more.
pub fn numbers_left<C, B>(hand: &Hand<C, B>, count: u32) -> bool
    requires { (spine : SpineSeen) × (hand.now.spine ≡ Some spine) }
    ensures { (spine : SpineSeen) → hand.now.spine ≡ Some spine
        → IsTrue result ↔ (spine.next_seq + count < 2 ^ 64) }
{
    let Some(spine) = &hand.spine else {
        unreachable!()
    };
    spine.get().next_seq.checked_add(u64::from(count)).is_some()
}

// Where these buckets begin.
fn places_of(alloc: Global, buckets: &[HeldBucket]) -> Result<Vec<Ptr>, AllocError>
    ensures { IfOk result (λ to. to.items ≡ places buckets.now) }
{
    let mut to = Vec::with_capacity(alloc, buckets.len())?;
    for bucket in buckets {
        to.push_reserved(bucket.to);
    }
    Ok(to)
}

// The first bucket in which a node would end behind a device of so many sectors.
fn outside(spine: &Spine, buckets: &[HeldBucket], sectors: u64) -> Option<HeldBucket>
    ensures some { IfSome result (λ b. Contains buckets.now b
        × (EndsWithin sectors spine.now b → ⊥)) }
    ensures none { IfNone result (All (EndsWithin sectors spine.now) buckets.now) }
{
    let node = u64::from(spine.geometry().node_sectors);
    for bucket in buckets {
        if sectors < node || sectors - node < bucket.to.offset {
            return Some(*bucket);
        }
    }
    None
}

// The plan itself.
fn plan_by(
    alloc: Global,
    spine: &mut Spine,
    leaf: &Leaf,
    way: Way,
    to: &[Ptr],
    seq: u64,
    count: u32,
) -> Result<Plan, PlanError>
    requires count { 0 < count }
    requires leaf { IsOfSpine spine.old leaf.now }
    requires long { IsLongFor way leaf.now }
    requires places { (n : NeedsSeen) × IsNeededBy way spine.old leaf.now n
        × (length to.now ≡ n.tree + n.moving) }
    ensures fits { IfOk result (Fits spine.new) }
    ensures planned { IfOk result (IsPlanBy way count spine.old leaf.now to.now seq) }
    ensures kept { IfOk result (StandsInFor spine.old.leaves leaf.now) }
    ensures count { IfOk result (λ plan. new_count plan ≡ length to.now) }
    ensures tree { IsSameTree spine.old spine.new }
    ensures refused { IfErr result (IsNotPlannedBy way spine.old leaf.now) }
{
    match way {
        Way::Rewrite => spine.plan_rewrite(alloc, leaf, to, seq, count),
        Way::Split => spine.plan_split(alloc, leaf, to, seq),
    }
}

// What is pending of leaves that come is in order, each within its leaf.
fn proper_pending(plan: &Plan)
    ensures { IsProperPending plan.now }
{
    let _ = plan.first.pending();
    if let Some(second) = &plan.second {
        let _ = second.pending();
    }
}

// What a plan's refusal is as one of the whole.
fn refused(error: PlanError) -> Refused
    ensures { result ≡ refused_by error }
{
    match error {
        PlanError::Large => Refused::Large,
        PlanError::Memory => Refused::Memory,
    }
}

// The plan, where its nodes can be written.
fn plan_in(
    alloc: Global,
    part: &mut SpinePart,
    leaf: &Leaf,
    way: Way,
    buckets: &[HeldBucket],
    sectors: u64,
    count: u32,
) -> Result<Plan, Refused>
    requires count { 0 < count }
    requires leaf { IsOfSpine part.old.spine leaf.now }
    requires long { IsLongFor way leaf.now }
    requires needed { (n : NeedsSeen) × IsNeededBy way part.old.spine leaf.now n
        × (length buckets.now ≡ n.tree + n.moving) }
    ensures part { part.new ≡ record part.old { spine = part.new.spine } }
    ensures tree { IsSameTree part.old.spine part.new.spine }
    ensures ok { IfOk result (IsPlanned way count sectors part.old leaf.now buckets.now
        part.new.spine) }
    ensures err { IfErr result (IsUnplanned way count sectors part.old leaf.now buckets.now) }
{
    let Ok(to) = places_of(alloc, buckets) else {
        return Err(Refused::Memory);
    };
    if outside(&part.spine, buckets, sectors).is_some() {
        return Err(Refused::Outside);
    }
    let seq = part.next_seq;
    let plan = match plan_by(alloc, &mut part.spine, leaf, way, &to, seq, count) {
        Ok(plan) => plan,
        Err(error) => return Err(refused(error)),
    };
    if !moves_up(&part.spine, &plan) {
        return Err(Refused::BySet);
    }
    proper_pending(&plan);
    Ok(plan)
}

/// Plans what becomes of the leaf in this slot of the part in hand, for these buckets, on a device
/// of so many sectors, where leaves are in so many parts. The tree in hand stays as it is, but for
/// its room.
pub fn plan_for<C, B>(
    alloc: Global,
    hand: &mut Hand<C, B>,
    slot: u32,
    way: Way,
    buckets: &[HeldBucket],
    sectors: u64,
    count: u32,
) -> Result<Plan, Refused>
    requires count { 0 < count }
    requires at { HasFor hand.old slot way buckets.now }
    ensures ok { (at : HasFor hand.old slot way buckets.now) → IfOk result (HasPlan way count sectors
        hand.old at.spine at.cached.leaf buckets.now hand.new) }
    ensures err { (at : HasFor hand.old slot way buckets.now) → IfErr result (HasNoPlan way count
        sectors hand.old at.spine at.cached.leaf buckets.now hand.new) }
{
    let Some(mut spine) = hand.spine.take() else {
        unreachable!()
    };
    let Some(leaves) = &hand.leaves else {
        unreachable!()
    };
    let leaf = leaves.cache.leaf(slot);
    let plan = plan_in(alloc, spine.get_mut(), leaf, way, buckets, sectors, count);
    hand.spine = Some(spine);
    plan
}
