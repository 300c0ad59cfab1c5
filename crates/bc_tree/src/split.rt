//! Plans for a leaf that is split in two.
ghost use Rattle.std.specs.Prelude.{◌≡◌, ◌+◌, ◌%◌, ◌<◌, ◌≤◌, true, length, slice_get, Some, IfErr, IfOk};
ghost use Rattle.bc_inner.specs.Inner.{Inner};
ghost use Rattle.bc_model.specs.Pieces.{piece_sectors};
ghost use Rattle.bc_tree.specs.LastKeys.{StandsInFor};
ghost use Rattle.bc_tree.specs.Needs.{IsNeeded, fits_node, split_needs, words};
ghost use Rattle.bc_tree.specs.Plan.{Fits, IsOfSpine, above_count, moves, new_count};
ghost use Rattle.bc_tree.specs.Split.{AreHalves, AreSplitPlaces, IsLeafSplit, IsMadeSplit, IsNoHalf, IsNotSplit, IsSplitPlan};
ghost use Rattle.bc_tree.specs.Same.{IsSameTree};
ghost use Rattle.bc_tree.specs.Spine.{IsPlaceAt, bottom};
ghost use Rattle.bc_tree.specs.declared.needs.Needs.{Needs};

use crate::install::NewLeaves;
use crate::needs::fits_node;
use crate::parts::cut_of;
use crate::place::LeafPlace;
use crate::plan::{Plan, PlanError, coming};
use crate::spine::Spine;
use bc_disk::geometry::Geometry;
use bc_key::{Key, Ptr};
use bc_node::Leaf;
use std::alloc::{AllocError, Global};

/// The leaves that come in the place of one.
#[derive(Drop)]
pub(crate) struct Halves {
    /// The one of the lower sectors.
    pub low: Leaf,
    /// The one of the higher sectors.
    pub high: Leaf,
}

/// The leaves of the keys that one has below a sector and from there on, at these places.
fn cut_leaf(
    alloc: Global,
    g: &Geometry,
    leaf: &Leaf,
    cut: u64,
    to: &[Ptr],
    seq: u64,
) -> Result<Halves, PlanError>
    requires above { leaf.now.from < cut }
    requires below { cut < leaf.now.end }
    requires places { 2 ≤ length to.now }
    ensures halves { IfOk result (λ h. AreHalves g.now leaf.now cut to.now seq h.low h.high) }
    ensures refused { IfErr result (IsNoHalf g.now leaf.now cut) }
{
    let low = coming(alloc, leaf.keys(), leaf.from(), cut, &to[0], seq)?;
    if low.is_full(g) {
        return Err(PlanError::Large);
    }
    let next = seq.wrapping_add(1);
    let high = coming(alloc, leaf.keys(), cut, leaf.end(), &to[1], next)?;
    if high.is_full(g) {
        return Err(PlanError::Large);
    }
    Ok(Halves { low, high })
}

impl Spine {
    /// Plans that two leaves come in the place of the one that stands here, where the node above
    /// has room for one child more. The nodes above that move go to these places.
    fn split_to(
        &mut self,
        alloc: Global,
        place: &LeafPlace,
        two: Halves,
        to: &[Ptr],
        seq: u64,
    ) -> Result<Plan, AllocError>
        requires stands { IsPlaceAt self.old two.low.from place.now }
        requires cut { (place.now.range.from < two.low.end) × (two.low.end < place.now.range.end)
            × (two.low.end % piece_sectors ≡ 0) }
        requires end { two.high.end ≡ place.now.range.end }
        requires fits { (node : Inner)
            → slice_get (bottom self.old.root self.old.below) place.now.node ≡ Some node
            → fits_node self.old.geometry (words node.children + 3) ≡ true }
        requires places { (node : Inner)
            → slice_get (bottom self.old.root self.old.below) place.now.node ≡ Some node
            → moves self.old node 6 ≤ length to.now }
        ensures fits { IfOk result (Fits self.new) }
        ensures plan { IfOk result (IsSplitPlan self.old place.now two.low two.high to.now seq) }
        ensures tree { IsSameTree self.old self.new }
    {
        let _ = self.root();
        let Halves { low, high } = two;
        let low_key = Key::new(low.end(), 0, false, Some(low.ptr()));
        let high_key = Key::new(high.end(), 0, false, Some(high.ptr()));
        let leaves = self.split_leaf(place.leaf, low.end(), low.ptr(), high.ptr())?;
        let new = NewLeaves {
            leaves,
            first: low,
            second: Some(high),
        };
        self.plan_siblings(alloc, new, place, 1, &[low_key, high_key], to, seq)
    }

    /// Plans that two leaves come in the place of the one that stands here. Where the node above
    /// has no room for one child more, two come in its place too. The new nodes above go to these
    /// places.
    fn split_here(
        &mut self,
        alloc: Global,
        place: &LeafPlace,
        two: Halves,
        to: &[Ptr],
        seq: u64,
    ) -> Result<Plan, AllocError>
        requires stands { IsPlaceAt self.old two.low.from place.now }
        requires cut { (place.now.range.from < two.low.end) × (two.low.end < place.now.range.end)
            × (two.low.end % piece_sectors ≡ 0) }
        requires end { two.high.end ≡ place.now.range.end }
        requires places { (node : Inner)
            → slice_get (bottom self.old.root self.old.below) place.now.node ≡ Some node
            → AreSplitPlaces self.old node (length to.now) }
        ensures fits { IfOk result (Fits self.new) }
        ensures plan { IfOk result (λ plan. (node : Inner)
            × (slice_get (bottom self.old.root self.old.below) place.now.node ≡ Some node)
            × IsMadeSplit self.old place.now node two.low two.high to.now seq plan) }
        ensures count { IfOk result (λ plan. above_count plan ≡ length to.now) }
        ensures tree { IsSameTree self.old self.new }
    {
        let _ = self.root();
        if fits_node(self.geometry(), self.node(place.node), 3) {
            return self.split_to(alloc, place, two, to, seq);
        }
        self.halve_to(alloc, place, two, to, seq)
    }

    /// Plans that a leaf of more than 256 sectors is split: two with its keys come in its place, at
    /// the first two places and with numbers from this one on, and the nodes above it that take no
    /// further set move to the others. Where the node above has no room for one child more, two
    /// come in its place too. There are as many places as `split_needs` says. The tree stays as it
    /// is, but for its room, until `install`.
    ///
    /// The refusal is `Large` where the keys of one of the two don't fit in a node, and `Memory`.
    pub fn plan_split(
        &mut self,
        alloc: Global,
        leaf: &Leaf,
        to: &[Ptr],
        seq: u64,
    ) -> Result<Plan, PlanError>
        requires leaf { IsOfSpine self.old leaf.now }
        requires long { leaf.now.from + piece_sectors < leaf.now.end }
        requires places { (n : Needs)
            × IsNeeded (split_needs self.old) self.old leaf.now.from (Some n)
            × (length to.now ≡ n.tree + n.moving) }
        ensures fits { IfOk result (Fits self.new) }
        ensures planned { IfOk result (IsLeafSplit self.old leaf.now to.now seq) }
        ensures kept { IfOk result (StandsInFor self.old.leaves leaf.now) }
        ensures count { IfOk result (λ plan. new_count plan ≡ length to.now) }
        ensures tree { IsSameTree self.old self.new }
        ensures refused { IfErr result (IsNotSplit self.old leaf.now) }
    {
        let _ = self.root();
        let place = self.place(leaf.from());
        let cut = cut_of(leaf.keys(), leaf.from(), leaf.end());
        let two = cut_leaf(alloc, self.geometry(), leaf, cut, to, seq)?;
        let plan = self.split_here(alloc, &place, two, &to[2..], seq.wrapping_add(2))?;
        Ok(plan)
    }
}
