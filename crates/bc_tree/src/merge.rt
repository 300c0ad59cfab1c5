//! Plans for two leaves that become one.
ghost use Rattle.std.specs.Prelude.{◌≡◌, ◌↔◌, ◌+◌, ◌≤◌, ◌++◌, true, false, length, slice_get, Some, IfErr, IfOk, IfSome, IsNone, OnOk, Option};
ghost use Rattle.bc_inner.specs.Inner.{Inner};
ghost use Rattle.bc_tree.specs.LastKeys.{StandsInForBoth};
ghost use Rattle.bc_tree.specs.Needs.{IsNeededForBoth, can_merge};
ghost use Rattle.bc_tree.specs.Merge.{CanJoinHere, HasNextLeaf, IsJoined, IsLeafMerge, IsMadeJoin, IsMergePlan, IsNotMerged};
ghost use Rattle.bc_tree.specs.Plan.{Fits, IsOfSpine, above_count, moves, new_count};
ghost use Rattle.bc_tree.specs.Same.{IsSameTree};
ghost use Rattle.bc_tree.specs.Spine.{IsPlaceAt, bottom};
ghost use Rattle.bc_tree.specs.declared.needs.Needs.{Needs};

use crate::install::NewLeaves;
use crate::needs::can_merge;
use crate::place::LeafPlace;
use crate::plan::{Plan, PlanError, leaf_with};
use crate::spine::Spine;
use bc_extent::Extents;
use bc_key::{Key, Ptr};
use bc_node::Leaf;
use std::alloc::{AllocError, Global};

/// Adds keys behind others.
fn push_keys(all: &mut Vec<Key>, keys: &Extents) -> Result<(), AllocError>
    ensures { OnOk result (all.new.items ≡ all.old.items ++ keys.now.keys) }
{
    for i in 0..keys.len() {
        all.push(keys.key(i))?;
    }
    Ok(())
}

/// The leaf of the keys of two neighbours.
fn joined(alloc: Global, left: &Leaf, right: &Leaf, to: &Ptr, seq: u64) -> Result<Leaf, AllocError>
    requires beside { left.now.end ≡ right.now.from }
    requires left { left.now.from ≤ left.now.end }
    requires right { right.now.from ≤ right.now.end }
    ensures { IfOk result (IsJoined left.now right.now to.now seq) }
{
    let mut keys = Vec::new(alloc);
    push_keys(&mut keys, left.keys())?;
    push_keys(&mut keys, right.keys())?;
    leaf_with(alloc, left.from(), right.end(), to, seq, &keys)
}

impl Spine {
    /// Plans that a leaf comes in the place of the one that stands here and of the next, where the
    /// node above has both. The nodes above that move go to these places.
    fn join_to(
        &mut self,
        alloc: Global,
        place: &LeafPlace,
        first: Leaf,
        to: &[Ptr],
        seq: u64,
    ) -> Result<Plan, AllocError>
        requires stands { IsPlaceAt self.old first.from place.now }
        requires next { HasNextLeaf self.old place.now first.end }
        requires places { (node : Inner)
            → slice_get (bottom self.old.root self.old.below) place.now.node ≡ Some node
            → moves self.old node 5 ≤ length to.now }
        ensures fits { IfOk result (Fits self.new) }
        ensures plan { IfOk result (IsMergePlan self.old place.now first to.now seq) }
        ensures tree { IsSameTree self.old self.new }
    {
        let _ = self.root();
        let key = Key::new(first.end(), 0, false, Some(first.ptr()));
        let leaves = self.merge_leaf(place.leaf, first.ptr())?;
        let new = NewLeaves {
            leaves,
            first,
            second: None,
        };
        self.plan_siblings(alloc, new, place, 2, &[key], to, seq)
    }

    /// Plans that a leaf comes in the place of the one that stands here and of the next, which
    /// begins at a sector. The new nodes above go to these places.
    fn join_here(
        &mut self,
        alloc: Global,
        place: &LeafPlace,
        first: Leaf,
        next: u64,
        to: &[Ptr],
        seq: u64,
    ) -> Result<Plan, AllocError>
        requires stands { IsPlaceAt self.old first.from place.now }
        requires can { (node : Inner)
            × (slice_get (bottom self.old.root self.old.below) place.now.node ≡ Some node)
            × CanJoinHere self.old place.now node next first.end (length to.now) }
        ensures fits { IfOk result (Fits self.new) }
        ensures plan { IfOk result (λ plan. (node : Inner)
            × (slice_get (bottom self.old.root self.old.below) place.now.node ≡ Some node)
            × IsMadeJoin self.old place.now node next first to.now seq plan) }
        ensures count { IfOk result (λ plan. above_count plan ≡ length to.now) }
        ensures tree { IsSameTree self.old self.new }
    {
        let _ = self.root();
        if next < self.node(place.node).end() {
            return self.join_to(alloc, place, first, to, seq);
        }
        self.across_to(alloc, place, first, to, seq)
    }

    /// Plans what `plan_merge` does, where both leaves together take at most half a node.
    fn plan_join(
        &mut self,
        alloc: Global,
        left: &Leaf,
        right: &Leaf,
        to: &[Ptr],
        seq: u64,
    ) -> Result<Plan, PlanError>
        requires left { IsOfSpine self.old left.now }
        requires right { IsOfSpine self.old right.now }
        requires beside { left.now.end ≡ right.now.from }
        requires can { can_merge self.old.geometry left.now right.now ≡ true }
        requires places { (n : Needs) × IsNeededForBoth self.old left.now right.now (Some n)
            × (length to.now ≡ n.tree + n.moving) }
        ensures fits { IfOk result (Fits self.new) }
        ensures planned { IfOk result (IsLeafMerge self.old left.now right.now to.now seq) }
        ensures kept { IfOk result (StandsInForBoth self.old.leaves left.now right.now) }
        ensures count { IfOk result (λ plan. new_count plan ≡ length to.now) }
        ensures tree { IsSameTree self.old self.new }
        ensures refused { IfErr result (IsNotMerged self.old left.now right.now) }
    {
        let _ = self.len();
        let _ = self.root();
        let _ = left.keys();
        let _ = right.keys();
        let place = self.place(left.from());
        let first = joined(alloc, left, right, &to[0], seq)?;
        if first.is_full(self.geometry()) {
            return Err(PlanError::Large);
        }
        let next = right.from();
        let number = seq.wrapping_add(1);
        let plan = self.join_here(alloc, &place, first, next, &to[1..], number)?;
        Ok(plan)
    }

    /// Plans that a leaf becomes one with the next: a leaf with the keys of both comes in their
    /// place, at the first of these places and with this number, and the nodes above them that take
    /// no further set move to the others. Where the leaves are children of two nodes, one comes in
    /// the place of both if it takes at most half a node, or if the second has no other child; else
    /// both move. There are as many places as `merge_needs` says. None exactly where the keys of
    /// both take more than half a node together. The tree stays as it is, but for its room, until
    /// `install`.
    ///
    /// The refusal is `Large` where the keys don't fit in a node, and `Memory`.
    pub fn plan_merge(
        &mut self,
        alloc: Global,
        left: &Leaf,
        right: &Leaf,
        to: &[Ptr],
        seq: u64,
    ) -> Result<Option<Plan>, PlanError>
        requires left { IsOfSpine self.old left.now }
        requires right { IsOfSpine self.old right.now }
        requires beside { left.now.end ≡ right.now.from }
        requires places { (n : Option Needs) × IsNeededForBoth self.old left.now right.now n
            × IfSome n (λ some. length to.now ≡ some.tree + some.moving) }
        ensures none { IfOk result (λ plan. IsNone plan
            ↔ (can_merge self.old.geometry left.now right.now ≡ false)) }
        ensures fits { IfOk result (λ plan. IfSome plan (Fits self.new)) }
        ensures planned { IfOk result (λ plan. IfSome plan
            (IsLeafMerge self.old left.now right.now to.now seq)) }
        ensures kept { IfOk result (λ plan. IfSome plan
            (StandsInForBoth self.old.leaves left.now right.now)) }
        ensures count { IfOk result (λ plan. IfSome plan (λ p. new_count p ≡ length to.now)) }
        ensures tree { IsSameTree self.old self.new }
        ensures refused { IfErr result (IsNotMerged self.old left.now right.now) }
    {
        if !can_merge(self.geometry(), left, right) {
            return Ok(None);
        }
        let plan = self.plan_join(alloc, left, right, to, seq)?;
        Ok(Some(plan))
    }
}
