//! Which new nodes a plan brings, and in which slots leaves come.
ghost use Rattle.std.specs.Prelude.{◌≡◌, ◌+◌, ◌<◌, ◌++◌, IfSome, length, vec_capacity};
ghost use Rattle.bc_planned.specs.Nodes.{are_under, comes_behind, is_moved, nodes_of, slot_of, top_is_moved, when};

use bc_plan::NewNode;
use bc_tree::{Beside, NodeChange, Plan};
use std::alloc::Global;

// Whether the node moves.
fn is_moved(change: &NodeChange) -> bool
    ensures { result ≡ is_moved change.now }
{
    match change {
        NodeChange::Set(_) => false,
        NodeChange::Move(_) => true,
    }
}

// Whether the root moves, where it is another node.
fn top_is_moved(top: &Option<NodeChange>) -> bool
    ensures { result ≡ top_is_moved top.now }
{
    match top {
        Some(change) => is_moved(change),
        None => false,
    }
}

// Whether two nodes come below a new root.
fn are_under(beside: &Beside) -> bool
    ensures { result ≡ are_under beside.now }
{
    match beside {
        Beside::Stays => false,
        Beside::Comes(_) => false,
        Beside::Moves(_) => false,
        Beside::Goes => false,
        Beside::Under(_, _) => true,
    }
}

// Whether one comes behind the one that moves.
fn comes_behind(beside: &Beside) -> bool
    ensures { result ≡ comes_behind beside.now }
{
    match beside {
        Beside::Stays => false,
        Beside::Comes(_) => true,
        Beside::Moves(_) => true,
        Beside::Goes => false,
        Beside::Under(_, _) => false,
    }
}

// One more, if there is one.
fn add(nodes: &mut Vec<NewNode>, really: bool, node: NewNode)
    requires { length nodes.old.items < vec_capacity nodes.old }
    ensures items { nodes.new.items ≡ nodes.old.items ++ when really node }
    ensures capacity { vec_capacity nodes.new ≡ vec_capacity nodes.old }
    ensures length { length nodes.new.items < length nodes.old.items + 2 }
{
    if really {
        nodes.push_reserved(node);
    }
}

/// The new nodes of a plan, where there is memory for the list of them.
pub(crate) fn nodes_in(alloc: Global, plan: &Plan) -> Option<Vec<NewNode>>
    ensures { IfSome result (λ nodes. nodes.items ≡ nodes_of plan.now) }
{
    let Ok(mut nodes) = Vec::with_capacity(alloc, 7) else {
        return None;
    };
    nodes.push_reserved(NewNode::First);
    add(&mut nodes, plan.second.is_some(), NewNode::Second);
    let under = are_under(&plan.beside);
    add(&mut nodes, under, NewNode::Lowest);
    add(&mut nodes, under, NewNode::Behind);
    add(&mut nodes, is_moved(&plan.bottom), NewNode::Parent);
    add(&mut nodes, comes_behind(&plan.beside), NewNode::Behind);
    add(&mut nodes, top_is_moved(&plan.top), NewNode::Root);
    Some(nodes)
}

/// The slot in which a leaf comes.
pub(crate) fn slot_for(plan: &Plan, node: NewNode) -> u32
    ensures { result ≡ slot_of plan.now node }
{
    match node {
        NewNode::First => plan.leaves.first.number,
        NewNode::Second => match &plan.leaves.second {
            Some(range) => range.number,
            None => 0,
        },
        NewNode::Parent => 0,
        NewNode::Root => 0,
        NewNode::Behind => 0,
        NewNode::Lowest => 0,
    }
}
