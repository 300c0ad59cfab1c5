//! Plans for two leaves that become one where they are children of two nodes: one node comes in the
//! place of both, or the leaf that comes is the last child of the first, and both move.
ghost use Rattle.std.specs.Prelude.{◌≡◌, ◌+◌, ◌<◌, ◌≤◌, ◌∷◌, [], true, false, length, slice_get, Some, IfOk};
ghost use Rattle.bc_inner.specs.Inner.{Inner};
ghost use Rattle.bc_key.specs.declared.key.Key.{Key};
ghost use Rattle.bc_tree.specs.Change.{CanChange};
ghost use Rattle.bc_tree.specs.Needs.{has_room};
ghost use Rattle.bc_tree.specs.Across.{CanJoinAcross, CanJoinAt, HasNextAcross, IsAcross, IsAcrossOf, IsAcrossPlan, IsOneBelow, across_count, children_across};
ghost use Rattle.bc_tree.specs.Halves.{IsRegrouped};
ghost use Rattle.bc_tree.specs.Plan.{Fits, Names};
ghost use Rattle.bc_tree.specs.Same.{IsSameTree};
ghost use Rattle.bc_tree.specs.declared.beside.Beside.TheVariants as besides;

use crate::beside::Beside;
use crate::change::{NodeChange, change_node};
use crate::children::replaced;
use crate::group::{Group, Two, divided, fresh, name_of};
use crate::install::NewLeaves;
use crate::needs::become_one;
use crate::place::LeafPlace;
use crate::plan::Plan;
use crate::spine::Spine;
use bc_inner::Inner;
use bc_key::{Key, Ptr};
use bc_node::Leaf;
use std::alloc::{AllocError, Global};

/// The children of two neighbouring nodes, where the last of the one and the first of the other
/// give way to one.
fn both(alloc: Global, left: &Inner, right: &Inner, key: &Key) -> Result<Vec<Key>, AllocError>
    requires left { 0 < length left.now.children }
    requires right { 0 < length right.now.children }
    ensures { IfOk result (λ keys. keys.items ≡ children_across left.now right.now key.now) }
{
    let mut keys = Vec::from_slice(alloc, left.children())?;
    keys.extend_from_slice(right.children())?;
    replaced(alloc, &keys, left.children().len() - 1, 2, &[*key])
}

impl Spine {
    /// What becomes of the root where one node comes in the place of the one at a place below it
    /// and of the next.
    fn one_below(
        &self,
        alloc: Global,
        place: usize,
        one: Inner,
        to: &[Ptr],
        seq: u64,
    ) -> Result<Group, AllocError>
        requires can { (key : Key) → Names key one
            → CanChange self.now.geometry self.now.root place 2 (key ∷ []) }
        requires place { has_room self.now.geometry self.now.root 5 ≡ false → 0 < length to.now }
        ensures root { IfOk result (λ group. IsOneBelow self.now.geometry self.now.root place one
            to.now seq group.bottom group.top) }
        ensures beside { IfOk result (λ group. group.beside ≡ besides.Goes) }
    {
        let keys = [name_of(&one)];
        let top = change_node(
            alloc,
            self.geometry(),
            self.root(),
            place,
            2,
            &keys,
            to,
            seq,
        )?;
        Ok(Group {
            bottom: NodeChange::Move(one),
            top: Some(top),
            beside: Beside::Goes,
        })
    }

    /// What becomes of the root where two nodes come in the place of the one at a place below it
    /// and of the next.
    fn two_below(
        &self,
        alloc: Global,
        place: usize,
        two: Two,
        to: &[Ptr],
        seq: u64,
    ) -> Result<Group, AllocError>
        requires can { (low high : Key) → Names low two.low → Names high two.high
            → CanChange self.now.geometry self.now.root place 2 (low ∷ high ∷ []) }
        requires place { has_room self.now.geometry self.now.root 8 ≡ false → 0 < length to.now }
        ensures root { IfOk result (λ group. IsRegrouped self.now.geometry self.now.root place 2
            two.low two.high to.now seq group.bottom group.top) }
        ensures beside { IfOk result (λ group. group.beside ≡ besides.Moves two.high) }
    {
        let g = self.geometry();
        let keys = [name_of(&two.low), name_of(&two.high)];
        let top = change_node(alloc, g, self.root(), place, 2, &keys, to, seq)?;
        Ok(Group {
            bottom: NodeChange::Move(two.low),
            top: Some(top),
            beside: Beside::Moves(two.high),
        })
    }

    /// What becomes of the nodes above two leaves that become one, where the first is the last
    /// child of the node at a place below the root, and the second the first child of the next.
    fn joined_across(
        &self,
        alloc: Global,
        place: usize,
        key: &Key,
        to: &[Ptr],
        seq: u64,
    ) -> Result<Group, AllocError>
        requires can { (left : Inner) × (right : Inner)
            × CanJoinAcross self.now.below left right place key.now
            × (length to.now ≡ across_count self.now left right) }
        ensures { IfOk result (λ group. (left : Inner) × (right : Inner)
            × CanJoinAcross self.now.below left right place key.now
            × IsAcross self.now.geometry self.now.root left right place key.now to.now seq
            group.bottom group.top group.beside) }
    {
        let _ = self.root();
        let nodes = self.below();
        let left = &nodes[place];
        let right = &nodes[place + 1];
        let all = both(alloc, left, right, key)?;
        if become_one(self.geometry(), left, right) {
            let one = fresh(alloc, 1, left.from(), right.end(), all, &to[0], seq);
            return self.one_below(alloc, place, one, &to[1..], seq.wrapping_add(1));
        }
        let cut = left.children().len();
        let two = divided(alloc, left.from(), right.end(), &all, cut, to, seq)?;
        self.two_below(alloc, place, two, &to[2..], seq.wrapping_add(2))
    }

    /// Plans an exchange of leaves, of which two go that are children of two nodes.
    fn plan_across(
        &mut self,
        alloc: Global,
        new: NewLeaves,
        place: &LeafPlace,
        key: &Key,
        to: &[Ptr],
        seq: u64,
    ) -> Result<Plan, AllocError>
        requires can { (left : Inner) × (right : Inner)
            × CanJoinAt self.old new.leaves left right place.now key.now
            × (length to.now ≡ across_count self.old left right) }
        ensures fits { IfOk result (Fits self.new) }
        ensures plan { IfOk result (IsAcrossOf self.old new place.now key.now to.now seq) }
        ensures tree { IsSameTree self.old self.new }
    {
        let _ = self.root();
        let group = self.joined_across(alloc, place.node, key, to, seq)?;
        self.make_room_for_two()?;
        Ok(Plan {
            leaves: new.leaves,
            first: new.first,
            second: new.second,
            place: place.node,
            bottom: group.bottom,
            beside: group.beside,
            top: group.top,
        })
    }

    /// Plans that a leaf comes in the place of the one that stands here and of the next, where
    /// these are children of two nodes. The new nodes above go to these places.
    pub(crate) fn across_to(
        &mut self,
        alloc: Global,
        place: &LeafPlace,
        first: Leaf,
        to: &[Ptr],
        seq: u64,
    ) -> Result<Plan, AllocError>
        requires next { (left : Inner) × (right : Inner)
            × HasNextAcross self.old place.now left right first.end
            × (length to.now ≡ across_count self.old left right) }
        ensures fits { IfOk result (Fits self.new) }
        ensures plan { IfOk result (IsAcrossPlan self.old place.now first to.now seq) }
        ensures tree { IsSameTree self.old self.new }
    {
        let _ = self.root();
        let key = Key::new(first.end(), 0, false, Some(first.ptr()));
        let leaves = self.merge_leaf(place.leaf, first.ptr())?;
        let new = NewLeaves {
            leaves,
            first,
            second: None,
        };
        self.plan_across(alloc, new, place, &key, to, seq)
    }
}
