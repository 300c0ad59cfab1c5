//! The new nodes of a plan, as the events name them.
ghost use Rattle.std.specs.Prelude.{◌≡◌, ◌≤◌, ◌^◌, ◌<◌, None, Some, IfSome};
ghost use Rattle.bc_inner.specs.Inner.{Inner, children_set};
ghost use Rattle.bc_new_node.specs.Kind.{IsInnerOf, IsLeafOf, IsSmall, IsWriteOf, inner_node, leaf_node};
ghost use Rattle.bc_node.specs.Leaf.{Leaf, pending_set};
ghost use Rattle.bc_set.specs.Records.{set_sectors};
ghost use Rattle.bc_set.specs.SetBytes.{bytes_of};
ghost use Rattle.bc_tree.specs.declared.change.NodeChange.TheVariants as changes;

use bc_disk::geometry::Geometry;
use bc_events::event::{NewNode as Named, Written};
use bc_inner::Inner;
use bc_node::{Leaf, in_blocks, word_of};
use bc_plan::NewNode;
use bc_tree::{Beside, NodeChange, Plan};

// A leaf that comes, in this slot and this bucket.
fn leaf_named(leaf: &Leaf, slot: u32, bucket: u32, g: &Geometry) -> Named
    requires block { 0 < g.now.block }
    requires few { set_sectors g.now (pending_set leaf.now) < 2 ^ 32 }
    ensures { result ≡ leaf_node slot bucket g.now leaf.now }
{
    Named {
        slot,
        first: leaf.from(),
        end: leaf.end(),
        bucket,
        word: word_of(&leaf.ptr()),
        height: 0,
        sectors: in_blocks(g.block, leaf.pending_length()) as u32,
    }
}

// An inner node that comes, whose slot is its bucket.
fn inner_named(node: &Inner, bucket: u32, g: &Geometry) -> Named
    requires block { 0 < g.now.block }
    requires length { bytes_of (children_set node.now) ≤ 2 ^ 62 }
    requires few { set_sectors g.now (children_set node.now) < 2 ^ 32 }
    ensures { result ≡ inner_node bucket g.now node.now }
{
    Named {
        slot: bucket,
        first: node.from(),
        end: node.end(),
        bucket,
        word: word_of(&node.ptr()),
        height: node.level().saturating_sub(1),
        sectors: in_blocks(g.block, node.length()) as u32,
    }
}

// The inner node that a change brings, if it does.
fn moved(change: &NodeChange) -> Option<&Inner>
    ensures some { IfSome result (λ node. change.now ≡ changes.Move node.now) }
    ensures none { result ≡ None → (node : Inner) → change.now ≡ changes.Move node → ⊥ }
{
    match change {
        NodeChange::Move(node) => Some(node),
        NodeChange::Set(_) => None,
    }
}

// The inner node that is the new node of a plan, if it is one.
fn inner_of(plan: &Plan, node: NewNode) -> Option<&Inner>
    ensures some { IfSome result (λ n. IsInnerOf plan.now node n.now) }
    ensures none { result ≡ None → (n : Inner) → IsInnerOf plan.now node n → ⊥ }
{
    match node {
        NewNode::First => None,
        NewNode::Second => None,
        NewNode::Parent => moved(&plan.bottom),
        NewNode::Root => match &plan.top {
            Some(change) => moved(change),
            None => None,
        },
        NewNode::Behind => match &plan.beside {
            Beside::Comes(node) => Some(node),
            Beside::Moves(node) => Some(node),
            Beside::Under(_, node) => Some(node),
            Beside::Stays => None,
            Beside::Goes => None,
        },
        NewNode::Lowest => match &plan.beside {
            Beside::Under(node, _) => Some(node),
            _ => None,
        },
    }
}

// The leaf that is the new node of a plan, if it is one.
fn leaf_of(plan: &Plan, node: NewNode) -> &Leaf
    ensures { (leaf : Leaf) → IsLeafOf plan.now node leaf → result.now ≡ leaf }
{
    match (node, &plan.second) {
        (NewNode::Second, Some(leaf)) => leaf,
        _ => &plan.first,
    }
}

// What the write of a new node is.
pub(crate) fn write_of(plan: &Plan, node: NewNode, slot: u32, bucket: u32, g: &Geometry) -> Written
    requires block { 0 < g.now.block }
    requires small { IsSmall g.now plan.now node }
    ensures { IsWriteOf g.now plan.now node slot bucket result }
{
    if let Some(inner) = inner_of(plan, node) {
        return Written::Inner {
            node: inner_named(inner, bucket, g),
        };
    }
    Written::Leaf {
        node: leaf_named(leaf_of(plan, node), slot, bucket, g),
    }
}
