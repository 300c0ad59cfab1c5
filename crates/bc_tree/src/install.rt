//! A plan, put into the tree.
ghost use Rattle.std.specs.Prelude.{◌≡◌, IfSome, Some, slice_get, vec_capacity};
ghost use Rattle.bc_inner.specs.Inner.{Inner};
ghost use Rattle.bc_spine.specs.Leaves.{AreLeaves};
ghost use Rattle.bc_tree.specs.LastKeys.{AreKept};
ghost use Rattle.bc_tree.specs.Next.{below_next, leaves_next, nodes_next, root_next};
ghost use Rattle.bc_tree.specs.Plan.{CanTake, Fits};
ghost use Rattle.bc_tree.specs.Same.{SameNode, SameNodes};
ghost use Rattle.bc_tree.specs.Spine.{bottom};

use crate::beside::set_beside;
use crate::change::NodeChange;
use crate::plan::{Plan, change};
use crate::spine::Spine;
use bc_inner::Inner;
use bc_node::Leaf;
use bc_spine::Exchange;

/// The leaves that a plan has brought.
#[derive(Drop)]
pub struct NewLeaves {
    /// Their ranges and numbers, and those of the leaves that went.
    pub leaves: Exchange,
    /// The one of the lower sectors.
    pub first: Leaf,
    /// The one of the higher sectors, where two have come.
    pub second: Option<Leaf>,
}

/// Does to the node at a place above leaves, and to the root, what changes say.
fn change_nodes(
    root: &mut Inner,
    below: &mut Vec<Inner>,
    place: usize,
    lower: NodeChange,
    upper: Option<NodeChange>,
)
    requires node { (node : Inner) × (slice_get (bottom root.old below.old.items) place ≡ Some node)
        × CanTake node lower }
    requires root { IfSome upper (CanTake root.old) }
    ensures root { SameNode (root_next root.old below.old.items lower upper) root.new }
    ensures below { SameNodes (nodes_next below.old.items place lower) below.new.items }
    ensures room { vec_capacity below.new ≡ vec_capacity below.old }
{
    if below.is_empty() {
        change(root, lower);
        return;
    }
    change(&mut below[place], lower);
    if let Some(upper) = upper {
        change(root, upper);
    }
}

impl Spine {
    /// Puts what was planned in the place of what goes. Each sector still lies in one leaf, which
    /// has the last key that the sector had, wherever the leaves that come have those of the ones
    /// that go. Takes no memory.
    pub fn install(&mut self, plan: Plan) -> NewLeaves
        requires { Fits self.old plan }
        ensures geometry { self.new.geometry ≡ self.old.geometry }
        ensures root { SameNode (root_next self.old.root self.old.below plan.bottom plan.top)
            self.new.root }
        ensures below { SameNodes
            (below_next self.old.below plan.place plan.bottom plan.beside) self.new.below }
        ensures leaves { self.new.leaves ≡ leaves_next self.old.leaves plan.leaves }
        ensures cover { AreLeaves self.new.leaves self.old.root.end }
        ensures kept { AreKept self.old.leaves plan self.new.leaves }
        ensures exchange { result.leaves ≡ plan.leaves }
        ensures first { result.first ≡ plan.first }
        ensures second { result.second ≡ plan.second }
    {
        let _ = self.len();
        let Plan {
            leaves,
            first,
            second,
            place,
            bottom,
            beside,
            top,
        } = plan;
        self.leaves.install(&leaves);
        change_nodes(&mut self.root, &mut self.below, place, bottom, top);
        set_beside(&mut self.below, place, beside);
        NewLeaves {
            leaves,
            first,
            second,
        }
    }
}
