//! Plans for leaves below one node that give way to others.
ghost use Rattle.std.specs.Prelude.{◌≡◌, ◌≤◌, ◌<◌, length, slice_get, Some, IfOk, OnOk};
ghost use Rattle.bc_inner.specs.Inner.{Inner};
ghost use Rattle.bc_tree.specs.Change.{set_words};
ghost use Rattle.bc_tree.specs.Plan.{CanExchange, Fits, HasRoomAt, IsPlanOf, moves};
ghost use Rattle.bc_tree.specs.Same.{IsSameTree};
ghost use Rattle.bc_tree.specs.Spine.{bottom};

use crate::beside::Beside;
use crate::install::NewLeaves;
use crate::place::LeafPlace;
use crate::plan::Plan;
use crate::spine::Spine;
use bc_key::{Key, Ptr};
use std::alloc::{AllocError, Global};

impl Spine {
    /// Makes room in the node at a place above leaves, and in the root.
    fn make_room(&mut self, place: usize) -> Result<(), AllocError>
        requires { place < length (bottom self.old.root self.old.below) }
        ensures tree { IsSameTree self.old self.new }
        ensures spare { self.new.spare ≡ self.old.spare }
        ensures room { OnOk result (HasRoomAt self.new place) }
    {
        self.make_room_above()?;
        if self.below().is_empty() {
            return Ok(());
        }
        self.make_room_below(place)
    }

    /// Plans an exchange of leaves, where `gone` children of the node above them give way to others
    /// from the place of the first on. The nodes that move go to these places.
    pub(crate) fn plan_siblings(
        &mut self,
        alloc: Global,
        new: NewLeaves,
        place: &LeafPlace,
        gone: usize,
        come: &[Key],
        to: &[Ptr],
        seq: u64,
    ) -> Result<Plan, AllocError>
        requires can { CanExchange self.old new.leaves place.now gone come.now }
        requires few { set_words gone come.now ≤ 8 }
        requires places { (node : Inner)
            → slice_get (bottom self.old.root self.old.below) place.now.node ≡ Some node
            → moves self.old node (set_words gone come.now) ≤ length to.now }
        ensures fits { IfOk result (Fits self.new) }
        ensures plan { IfOk result (IsPlanOf self.old new place.now gone come.now to.now seq) }
        ensures tree { IsSameTree self.old self.new }
    {
        let _ = self.root();
        let above = self.above(alloc, place.node, place.child, gone, come, to, seq)?;
        self.make_room(place.node)?;
        Ok(Plan {
            leaves: new.leaves,
            first: new.first,
            second: new.second,
            place: place.node,
            bottom: above.bottom,
            beside: Beside::Stays,
            top: above.top,
        })
    }
}
