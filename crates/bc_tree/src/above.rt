//! What becomes of the nodes above leaves that give way to others.
ghost use Rattle.std.specs.Prelude.{◌≡◌, ◌+◌, ◌<◌, ◌≤◌, ◌∷◌, [], false, Some, length, slice_get, IfOk, OnOk};
ghost use Rattle.bc_inner.specs.Inner.{Inner};
ghost use Rattle.bc_key.specs.declared.key.Key.{Key};
ghost use Rattle.bc_spine.specs.Exchange.{CanCut, IsFor, IsMerged, IsMoved as IsMovedLeaf, IsSplit};
ghost use Rattle.bc_tree.specs.Change.{CanChange, IsChangeOf, set_words};
ghost use Rattle.bc_tree.specs.Needs.{has_room};
ghost use Rattle.bc_tree.specs.Next.{node_next};
ghost use Rattle.bc_tree.specs.Plan.{HasRoomAt, HavePlaces, IsAbove, IsTopChange, Names, moves};
ghost use Rattle.bc_tree.specs.Same.{IsSameButSpare, IsSameTree};
ghost use Rattle.bc_tree.specs.Spine.{bottom};

use crate::change::{NodeChange, change_node};
use crate::spine::Spine;
use bc_inner::Inner;
use bc_key::{Key, Ptr};
use bc_spine::Exchange;
use std::alloc::{AllocError, Global};

/// What becomes of the nodes above leaves.
#[derive(Drop)]
pub struct Above {
    /// Of the one whose children they are.
    pub bottom: NodeChange,
    /// Of the root, where it is another and changes.
    pub top: Option<NodeChange>,
}

impl Spine {
    /// What becomes of the root where the node at a place below it moves.
    fn root_change(
        &self,
        alloc: Global,
        place: usize,
        next: &Inner,
        to: &[Ptr],
        seq: u64,
    ) -> Result<NodeChange, AllocError>
        requires below { (node : Inner) × (slice_get self.now.below place ≡ Some node)
            × (next.now.end ≡ node.end) }
        requires room { has_room self.now.geometry self.now.root 3 ≡ false → 0 < length to.now }
        ensures { IfOk result (λ change. (key : Key) × Names key next.now
            × IsChangeOf self.now.geometry self.now.root place 1 (key ∷ []) to.now seq change) }
    {
        let key = Key::new(next.end(), 0, false, Some(next.ptr()));
        change_node(
            alloc,
            self.geometry(),
            self.root(),
            place,
            1,
            &[key],
            to,
            seq,
        )
    }

    /// What becomes of the root, by what becomes of the node at a place above leaves.
    fn top_change(
        &self,
        alloc: Global,
        place: usize,
        change: &NodeChange,
        to: &[Ptr],
        seq: u64,
    ) -> Result<Option<NodeChange>, AllocError>
        requires node { (node : Inner)
            × (slice_get (bottom self.now.root self.now.below) place ≡ Some node)
            × ((node_next node change.now).end ≡ node.end) }
        requires room { HavePlaces self.now change.now to.now }
        ensures { IfOk result
            (IsTopChange self.now.geometry self.now.root self.now.below place change.now to.now seq) }
    {
        if self.below().is_empty() {
            return Ok(None);
        }
        match change {
            NodeChange::Set(_) => Ok(None),
            NodeChange::Move(next) => {
                let top = self.root_change(alloc, place, next, &to[1..], seq.wrapping_add(1))?;
                Ok(Some(top))
            }
        }
    }

    /// What becomes of the nodes above leaves, where `gone` children of the one at a place among
    /// those whose children are leaves give way to others. Those that move go to the first of these
    /// places, with numbers from this one on.
    pub(crate) fn above(
        &self,
        alloc: Global,
        place: usize,
        at: usize,
        gone: usize,
        come: &[Key],
        to: &[Ptr],
        seq: u64,
    ) -> Result<Above, AllocError>
        requires node { (node : Inner)
            × (slice_get (bottom self.now.root self.now.below) place ≡ Some node)
            × CanChange self.now.geometry node at gone come.now
            × (moves self.now node (set_words gone come.now) ≤ length to.now) }
        requires few { set_words gone come.now ≤ 8 }
        ensures { IfOk result (λ a. (node : Inner)
            × (slice_get (bottom self.now.root self.now.below) place ≡ Some node)
            × IsAbove self.now node place at gone come.now to.now seq a.bottom a.top) }
    {
        let _ = self.root();
        let node = self.node(place);
        let bottom = change_node(alloc, self.geometry(), node, at, gone, come, to, seq)?;
        let top = self.top_change(alloc, place, &bottom, to, seq)?;
        Ok(Above { bottom, top })
    }

    /// Makes room in the node at a place below the root.
    pub(crate) fn make_room_below(&mut self, place: usize) -> Result<(), AllocError>
        requires { place < length self.old.below }
        ensures tree { IsSameTree self.old self.new }
        ensures root { self.new.root ≡ self.old.root }
        ensures spare { self.new.spare ≡ self.old.spare }
        ensures room { OnOk result ((node : Inner)
            → slice_get self.new.below place ≡ Some node → 4 ≤ node.spare) }
    {
        self.below[place].reserve(4)
    }

    /// Makes room in the root.
    pub(crate) fn make_room_above(&mut self) -> Result<(), AllocError>
        ensures tree { IsSameTree self.old self.new }
        ensures below { self.new.below ≡ self.old.below }
        ensures spare { self.new.spare ≡ self.old.spare }
        ensures room { OnOk result (4 ≤ self.new.root.spare) }
    {
        self.root.reserve(4)
    }

    /// Plans that the leaf at a place moves.
    pub(crate) fn move_leaf(
        &mut self,
        place: usize,
        to: Ptr,
        parts: u32,
    ) -> Result<Exchange, AllocError>
        requires place { place < length self.old.leaves }
        requires parts { 0 < parts }
        ensures only { IsSameButSpare self.old self.new }
        ensures moved { IfOk result (IsMovedLeaf self.new.leaves place parts to) }
        ensures fits { IfOk result (IsFor self.new.leaves) }
    {
        self.leaves.plan_rewrite(place, to, parts)
    }

    /// Plans that the leaf at a place is cut in two at a sector.
    pub(crate) fn split_leaf(
        &mut self,
        place: usize,
        cut: u64,
        low: Ptr,
        high: Ptr,
    ) -> Result<Exchange, AllocError>
        requires { CanCut self.old.leaves place cut }
        ensures only { IsSameButSpare self.old self.new }
        ensures split { IfOk result (IsSplit self.new.leaves place cut low high) }
        ensures fits { IfOk result (IsFor self.new.leaves) }
        ensures room { OnOk result (2 ≤ self.new.spare) }
    {
        self.leaves.plan_split(place, cut, low, high)
    }

    /// Plans that the leaf at a place and the next become one.
    pub(crate) fn merge_leaf(&mut self, place: usize, to: Ptr) -> Result<Exchange, AllocError>
        requires { place + 1 < length self.old.leaves }
        ensures only { IsSameButSpare self.old self.new }
        ensures merged { IfOk result (IsMerged self.new.leaves place to) }
        ensures fits { IfOk result (IsFor self.new.leaves) }
    {
        self.leaves.plan_merge(place, to)
    }
}
