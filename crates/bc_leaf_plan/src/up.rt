//! Whether a plan moves all nodes that change.
ghost use Rattle.std.specs.Prelude.{◌≡◌};
ghost use Rattle.bc_leaf_plan.specs.Way.{moves_up};
ghost use Rattle.bc_planned.specs.Nodes.{is_moved, top_is_moved};

use bc_tree::{NodeChange, Plan, Spine};

// Whether the node moves.
fn is_moved(change: &NodeChange) -> bool
    ensures { result ≡ is_moved change.now }
{
    match change {
        NodeChange::Set(_) => false,
        NodeChange::Move(_) => true,
    }
}

// Whether the root moves, where it is another node.
fn top_is_moved(top: &Option<NodeChange>) -> bool
    ensures { result ≡ top_is_moved top.now }
{
    match top {
        Some(change) => is_moved(change),
        None => false,
    }
}

/// Whether each node that changes moves, up to the root.
pub fn moves_up(spine: &Spine, plan: &Plan) -> bool
    ensures { result ≡ moves_up spine.now.below plan.now.bottom plan.now.top }
{
    if spine.below().is_empty() {
        return is_moved(&plan.bottom);
    }
    is_moved(&plan.bottom) && top_is_moved(&plan.top)
}
