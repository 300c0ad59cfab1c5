//! Plans for a leaf that is split where the node above it has no room for one child more: that node
//! gives way to two, which its own parent names in its place. Where it is the root, a root of level
//! 2 comes above the two.
ghost use Rattle.std.specs.Prelude.{◌≡◌, ◌+◌, ◌%◌, ◌^◌, ◌<◌, ◌≤◌, ◌∷◌, [], true, false, length, slice_get, Some, IfOk, OnOk};
ghost use Rattle.bc_inner.specs.Inner.{Inner};
ghost use Rattle.bc_key.specs.declared.key.Key.{Key};
ghost use Rattle.bc_model.specs.Pieces.{piece_sectors};
ghost use Rattle.bc_tree.specs.Change.{CanChange};
ghost use Rattle.bc_tree.specs.Group.{AreNeighbours};
ghost use Rattle.bc_tree.specs.Needs.{fits_node, has_room, words};
ghost use Rattle.bc_tree.specs.Halves.{CanHalve, CanHalveAt, IsAboveHalves, IsHalved, IsHalvingOf, IsRaised, IsRegrouped, halves_count};
ghost use Rattle.bc_tree.specs.Plan.{Fits, Names};
ghost use Rattle.bc_tree.specs.Split.{IsHalvesPlan};
ghost use Rattle.bc_tree.specs.Same.{IsSameTree};
ghost use Rattle.bc_tree.specs.Spine.{IsPlaceAt, bottom};
ghost use Rattle.bc_tree.specs.declared.beside.Beside.TheVariants as besides;

use crate::beside::Beside;
use crate::change::{NodeChange, change_node};
use crate::children::replaced;
use crate::group::{Group, Two, divided, fresh, name_of};
use crate::install::NewLeaves;
use crate::place::LeafPlace;
use crate::plan::Plan;
use crate::spine::Spine;
use crate::split::Halves;
use bc_inner::Inner;
use bc_key::{Key, Ptr};
use std::alloc::{AllocError, Global};

impl Spine {
    /// A root of level 2 above two nodes, in the place of the one whose children they have.
    fn raised(&self, alloc: Global, two: Two, to: &[Ptr], seq: u64) -> Result<Group, AllocError>
        requires beside { AreNeighbours self.now.root.from self.now.root.end two.low two.high }
        requires place { 0 < length to.now }
        ensures root { IfOk result (λ group.
            IsRaised self.now.root two.low two.high to.now seq group.bottom group.top) }
        ensures beside { IfOk result (λ group. group.beside ≡ besides.Under two.low two.high) }
    {
        let old = self.root();
        let keys = Vec::from_slice(alloc, &[name_of(&two.low), name_of(&two.high)])?;
        let root = fresh(alloc, 2, old.from(), old.end(), keys, &to[0], seq);
        Ok(Group {
            bottom: NodeChange::Move(root),
            top: None,
            beside: Beside::Under(two.low, two.high),
        })
    }

    /// What becomes of the root where two nodes come in the place of the one at a place below it.
    fn halved_below(
        &self,
        alloc: Global,
        place: usize,
        two: Two,
        to: &[Ptr],
        seq: u64,
    ) -> Result<Group, AllocError>
        requires can { (low high : Key) → Names low two.low → Names high two.high
            → CanChange self.now.geometry self.now.root place 1 (low ∷ high ∷ []) }
        requires place { has_room self.now.geometry self.now.root 6 ≡ false → 0 < length to.now }
        ensures root { IfOk result (λ group.
            IsRegrouped self.now.geometry self.now.root place 1 two.low two.high to.now seq
            group.bottom group.top) }
        ensures beside { IfOk result (λ group. group.beside ≡ besides.Comes two.high) }
    {
        let g = self.geometry();
        let keys = [name_of(&two.low), name_of(&two.high)];
        let top = change_node(alloc, g, self.root(), place, 1, &keys, to, seq)?;
        Ok(Group {
            bottom: NodeChange::Move(two.low),
            top: Some(top),
            beside: Beside::Comes(two.high),
        })
    }

    /// What becomes of the nodes above a leaf that gives way to two, where the one that has it as a
    /// child gives way to two as well.
    fn halved(
        &self,
        alloc: Global,
        place: usize,
        at: usize,
        come: &[Key],
        to: &[Ptr],
        seq: u64,
    ) -> Result<Group, AllocError>
        requires can { (node : Inner) × CanHalve self.now.geometry self.now.root self.now.below
            node place at come.now }
        requires places { length to.now ≡ halves_count self.now }
        ensures { IfOk result (λ group. (node : Inner)
            × (slice_get (bottom self.now.root self.now.below) place ≡ Some node)
            × IsHalved self.now.geometry self.now.root self.now.below node place at come.now
            to.now seq group.bottom group.top group.beside) }
    {
        let _ = self.root();
        let node = self.node(place);
        let all = replaced(alloc, node.children(), at, 1, come)?;
        let two = divided(alloc, node.from(), node.end(), &all, all.len() / 2, to, seq)?;
        let next = seq.wrapping_add(2);
        if self.below().is_empty() {
            return self.raised(alloc, two, &to[2..], next);
        }
        self.halved_below(alloc, place, two, &to[2..], next)
    }

    /// Makes room for two more nodes below the root.
    fn make_room_beside(&mut self) -> Result<(), AllocError>
        ensures only { self.new ≡ record self.old { room = self.new.room } }
        ensures room { OnOk result (2 ≤ self.new.room) }
    {
        self.below.reserve(2)
    }

    /// Makes room for two more nodes below the root, and in the root.
    pub(crate) fn make_room_for_two(&mut self) -> Result<(), AllocError>
        ensures tree { IsSameTree self.old self.new }
        ensures spare { self.new.spare ≡ self.old.spare }
        ensures below { OnOk result (2 ≤ self.new.room) }
        ensures root { OnOk result (4 ≤ self.new.root.spare) }
    {
        self.make_room_above()?;
        self.make_room_beside()
    }

    /// Plans an exchange of leaves, where the node above gives way to two.
    fn plan_halves(
        &mut self,
        alloc: Global,
        new: NewLeaves,
        place: &LeafPlace,
        come: &[Key],
        to: &[Ptr],
        seq: u64,
    ) -> Result<Plan, AllocError>
        requires can { CanHalveAt self.old new.leaves place.now come.now }
        requires places { length to.now ≡ halves_count self.old }
        ensures fits { IfOk result (Fits self.new) }
        ensures plan { IfOk result (IsHalvingOf self.old new place.now come.now to.now seq) }
        ensures tree { IsSameTree self.old self.new }
    {
        let _ = self.root();
        let group = self.halved(alloc, place.node, place.child, come, to, seq)?;
        self.make_room_for_two()?;
        Ok(Plan {
            leaves: new.leaves,
            first: new.first,
            second: new.second,
            place: place.node,
            bottom: group.bottom,
            beside: group.beside,
            top: group.top,
        })
    }

    /// Plans that two leaves come in the place of the one that stands here, where the node above
    /// has no room for one child more and gives way to two. The new nodes above go to these places.
    pub(crate) fn halve_to(
        &mut self,
        alloc: Global,
        place: &LeafPlace,
        two: Halves,
        to: &[Ptr],
        seq: u64,
    ) -> Result<Plan, AllocError>
        requires stands { IsPlaceAt self.old two.low.from place.now }
        requires cut { (place.now.range.from < two.low.end) × (two.low.end < place.now.range.end)
            × (two.low.end % piece_sectors ≡ 0) }
        requires end { two.high.end ≡ place.now.range.end }
        requires fits { 0 < length self.old.below
            → fits_node self.old.geometry (words self.old.root.children + 3) ≡ true }
        requires places { length to.now ≡ halves_count self.old }
        ensures fits { IfOk result (Fits self.new) }
        ensures plan { IfOk result (IsHalvesPlan self.old place.now two.low two.high to.now seq) }
        ensures tree { IsSameTree self.old self.new }
    {
        let _ = self.root();
        let Halves { low, high } = two;
        let low_key = Key::new(low.end(), 0, false, Some(low.ptr()));
        let high_key = Key::new(high.end(), 0, false, Some(high.ptr()));
        let leaves = self.split_leaf(place.leaf, low.end(), low.ptr(), high.ptr())?;
        let new = NewLeaves {
            leaves,
            first: low,
            second: Some(high),
        };
        self.plan_halves(alloc, new, place, &[low_key, high_key], to, seq)
    }
}
