//! Plans for a leaf that moves.
ghost use Rattle.std.specs.Prelude.{◌≡◌, ◌+◌, ◌<◌, ◌≤◌, length, slice_get, Some, IfErr, IfOk};
ghost use Rattle.bc_inner.specs.Inner.{Inner};
ghost use Rattle.bc_tree.specs.LastKeys.{StandsInFor};
ghost use Rattle.bc_tree.specs.Needs.{IsNeeded, rewrite_needs};
ghost use Rattle.bc_tree.specs.Plan.{Fits, IsOfSpine, moves, new_count};
ghost use Rattle.bc_tree.specs.Rewrite.{IsMovePlan, IsNotRewritten, IsRewrite};
ghost use Rattle.bc_tree.specs.Same.{IsSameTree};
ghost use Rattle.bc_tree.specs.Spine.{IsPlaceAt, bottom};
ghost use Rattle.bc_tree.specs.declared.needs.Needs.{Needs};

use crate::install::NewLeaves;
use crate::place::LeafPlace;
use crate::plan::{Plan, PlanError, coming};
use crate::spine::Spine;
use bc_key::{Key, Ptr};
use bc_node::Leaf;
use std::alloc::{AllocError, Global};

impl Spine {
    /// Plans that a leaf comes in the place of the one that stands here, whose range it has. The
    /// nodes above that move go to these places.
    fn move_to(
        &mut self,
        alloc: Global,
        place: &LeafPlace,
        first: Leaf,
        to: &[Ptr],
        seq: u64,
        parts: u32,
    ) -> Result<Plan, AllocError>
        requires stands { IsPlaceAt self.old first.from place.now }
        requires parts { 0 < parts }
        requires end { first.end ≡ place.now.range.end }
        requires places { (node : Inner)
            → slice_get (bottom self.old.root self.old.below) place.now.node ≡ Some node
            → moves self.old node 3 ≤ length to.now }
        ensures fits { IfOk result (Fits self.new) }
        ensures plan { IfOk result (IsMovePlan self.old place.now parts first to.now seq) }
        ensures tree { IsSameTree self.old self.new }
    {
        let _ = self.root();
        let key = Key::new(first.end(), 0, false, Some(first.ptr()));
        let leaves = self.move_leaf(place.leaf, first.ptr(), parts)?;
        let new = NewLeaves {
            leaves,
            first,
            second: None,
        };
        self.plan_siblings(alloc, new, place, 1, &[key], to, seq)
    }

    /// Plans that a leaf moves to the first of these places, with a number: so do the nodes above
    /// it that take no further set, to the other places and with the next numbers. There are as
    /// many places as `rewrite_needs` says. Among so many parts, in which leaves are kept by their
    /// numbers, the leaf stays in its own. The tree stays as it is, but for its room, until
    /// `install`.
    ///
    /// The refusal is `Large` where the leaf's keys don't fit in a node, and `Memory`.
    pub fn plan_rewrite(
        &mut self,
        alloc: Global,
        leaf: &Leaf,
        to: &[Ptr],
        seq: u64,
        parts: u32,
    ) -> Result<Plan, PlanError>
        requires parts { 0 < parts }
        requires leaf { IsOfSpine self.old leaf.now }
        requires places { (n : Needs) × IsNeeded (rewrite_needs self.old) self.old leaf.now.from n
            × (length to.now ≡ n.tree + n.moving) }
        ensures fits { IfOk result (Fits self.new) }
        ensures planned { IfOk result (IsRewrite self.old parts leaf.now to.now seq) }
        ensures kept { IfOk result (StandsInFor self.old.leaves leaf.now) }
        ensures count { IfOk result (λ plan. new_count plan ≡ length to.now) }
        ensures tree { IsSameTree self.old self.new }
        ensures refused { IfErr result (IsNotRewritten self.old leaf.now) }
    {
        let _ = self.root();
        let place = self.place(leaf.from());
        let first = coming(alloc, leaf.keys(), leaf.from(), leaf.end(), &to[0], seq)?;
        if first.is_full(self.geometry()) {
            return Err(PlanError::Large);
        }
        let plan = self.move_to(alloc, &place, first, &to[1..], seq.wrapping_add(1), parts)?;
        Ok(plan)
    }
}
