//! A planned change of the tree, as events name it.
ghost use Rattle.std.specs.Prelude.{◌≡◌, ◌+◌, ◌^◌, ◌<◌, ◌≤◌, ◌++◌, ◌∷◌, [], Some, drop, length, slice_get, take, IfOk, IfSome, OnOk};
ghost use Rattle.bc_change.specs.Goes.{beside_come, beside_gone, gives_way, moved, new_nodes, numbers, old_nodes, top_gives_way, top_moved};
ghost use Rattle.bc_inner.specs.Inner.{Inner};
ghost use Rattle.bc_install.specs.Numbered.{IsChangeIn, bucket_by, end_by, node_buckets};
ghost use Rattle.bc_spine.specs.Exchange.{coming, going};
ghost use Rattle.bc_tree.specs.Plan.{Fits};
ghost use Rattle.bc_tree.specs.Spine.{bottom};

use bc_disk::geometry::Geometry;
use bc_events::event::Change;
use bc_inner::Inner;
use bc_key::Ptr;
use bc_spine::Exchange;
use bc_tree::{Beside, NodeChange, Plan, Spine};
use std::alloc::{AllocError, Global};

/// The number that the core has for the bucket in which a place lies.
pub fn bucket_by(g: &Geometry, ptr: &Ptr) -> u32
    requires { 0 < g.now.bucket }
    ensures { result ≡ bucket_by g.now ptr.now }
{
    let bucket = ptr.offset / u64::from(g.bucket);
    let number = bucket.saturating_sub(u64::from(g.first_bucket)) % (1 << 32);
    number as u32
}

// Adds the bucket of a node.
fn push_node(list: &mut Vec<u32>, g: &Geometry, node: &Inner) -> Result<(), AllocError>
    requires { 0 < g.now.bucket }
    ensures { OnOk result (list.new.items ≡ list.old.items ++ node_buckets g.now (node.now ∷ [])) }
{
    list.push(bucket_by(g, &node.ptr()))?;
    Ok(())
}

// Adds that of what a node moves to, where it does.
fn push_moved(list: &mut Vec<u32>, g: &Geometry, change: &NodeChange) -> Result<(), AllocError>
    requires { 0 < g.now.bucket }
    ensures { OnOk result (list.new.items
        ≡ list.old.items ++ node_buckets g.now (moved change.now)) }
{
    match change {
        NodeChange::Set(_) => Ok(()),
        NodeChange::Move(next) => push_node(list, g, next),
    }
}

// The same of the root.
fn push_top(list: &mut Vec<u32>, g: &Geometry, top: &Option<NodeChange>) -> Result<(), AllocError>
    requires { 0 < g.now.bucket }
    ensures { OnOk result (list.new.items
        ≡ list.old.items ++ node_buckets g.now (top_moved top.now)) }
{
    match top {
        None => Ok(()),
        Some(change) => push_moved(list, g, change),
    }
}

// Adds those of the nodes that come beside a node.
fn push_beside(list: &mut Vec<u32>, g: &Geometry, beside: &Beside) -> Result<(), AllocError>
    requires { 0 < g.now.bucket }
    ensures { OnOk result (list.new.items
        ≡ list.old.items ++ node_buckets g.now (beside_come beside.now)) }
{
    match beside {
        Beside::Stays => Ok(()),
        Beside::Goes => Ok(()),
        Beside::Comes(node) => push_node(list, g, node),
        Beside::Moves(node) => push_node(list, g, node),
        Beside::Under(low, high) => {
            push_node(list, g, low)?;
            push_node(list, g, high)
        }
    }
}

// Adds those of all inner nodes that a plan brings.
pub(crate) fn push_new(list: &mut Vec<u32>, g: &Geometry, plan: &Plan) -> Result<(), AllocError>
    requires { 0 < g.now.bucket }
    ensures { OnOk result (list.new.items
        ≡ list.old.items ++ node_buckets g.now (new_nodes plan.now)) }
{
    push_moved(list, g, &plan.bottom)?;
    push_top(list, g, &plan.top)?;
    push_beside(list, g, &plan.beside)
}

// Adds a node's own, where it moves.
fn push_gone(
    list: &mut Vec<u32>,
    g: &Geometry,
    change: &NodeChange,
    node: &Inner,
) -> Result<(), AllocError>
    requires { 0 < g.now.bucket }
    ensures { OnOk result (list.new.items
        ≡ list.old.items ++ node_buckets g.now (gives_way change.now (node.now ∷ []))) }
{
    match change {
        NodeChange::Set(_) => Ok(()),
        NodeChange::Move(_) => push_node(list, g, node),
    }
}

// The root's, where it moves.
fn push_root(
    list: &mut Vec<u32>,
    g: &Geometry,
    top: &Option<NodeChange>,
    root: &Inner,
) -> Result<(), AllocError>
    requires { 0 < g.now.bucket }
    ensures { OnOk result (list.new.items
        ≡ list.old.items ++ node_buckets g.now (top_gives_way top.now root.now)) }
{
    match top {
        None => Ok(()),
        Some(change) => push_gone(list, g, change, root),
    }
}

// That of the node at a place, where it goes.
fn push_behind(
    list: &mut Vec<u32>,
    g: &Geometry,
    beside: &Beside,
    below: &[Inner],
    place: usize,
) -> Result<(), AllocError>
    requires { 0 < g.now.bucket }
    ensures { OnOk result (list.new.items
        ≡ list.old.items ++ node_buckets g.now (beside_gone beside.now (drop place below.now))) }
{
    match beside {
        Beside::Stays => Ok(()),
        Beside::Comes(_) => Ok(()),
        Beside::Under(_, _) => Ok(()),
        Beside::Moves(_) => push_at(list, g, below, place),
        Beside::Goes => push_at(list, g, below, place),
    }
}

// That of the node at a place, if there is one.
fn push_at(
    list: &mut Vec<u32>,
    g: &Geometry,
    below: &[Inner],
    place: usize,
) -> Result<(), AllocError>
    requires { 0 < g.now.bucket }
    ensures { OnOk result (list.new.items
        ≡ list.old.items ++ node_buckets g.now (take 1 (drop place below.now))) }
{
    match below.get(place) {
        None => Ok(()),
        Some(node) => push_node(list, g, node),
    }
}

// The node above the leaves of a change, of those whose children are leaves.
fn bottom_at(spine: &Spine, place: usize) -> &Inner
    requires { (node : Inner)
        × (slice_get (bottom spine.now.root spine.now.below) place ≡ Some node) }
    ensures { slice_get (bottom spine.now.root spine.now.below) place ≡ Some result.now }
{
    let below = spine.below();
    if below.is_empty() {
        return spine.root();
    }
    &below[place]
}

// Adds the buckets of all inner nodes that a plan takes away.
pub(crate) fn push_old(
    list: &mut Vec<u32>,
    g: &Geometry,
    spine: &Spine,
    plan: &Plan,
) -> Result<(), AllocError>
    requires some { 0 < g.now.bucket }
    requires fits { Fits spine.now plan.now }
    ensures { OnOk result (list.new.items
        ≡ list.old.items ++ node_buckets g.now (old_nodes spine.now plan.now)) }
{
    push_gone(list, g, &plan.bottom, bottom_at(spine, plan.place))?;
    push_root(list, g, &plan.top, spine.root())?;
    push_behind(
        list,
        g,
        &plan.beside,
        spine.below(),
        plan.place.saturating_add(1),
    )
}

// Adds the numbers of the leaves that go.
fn push_going(list: &mut Vec<u32>, spine: &Spine, e: &Exchange) -> Result<(), AllocError>
    requires { e.now.place + e.now.gone ≤ length spine.now.leaves }
    ensures { OnOk result (list.new.items
        ≡ list.old.items ++ numbers (going spine.now.leaves e.now)) }
{
    let _ = spine.len();
    for i in 0..e.gone {
        list.push(spine.leaf(e.place + i).number)?;
    }
    Ok(())
}

// Adds the numbers of those that come.
fn push_coming(list: &mut Vec<u32>, e: &Exchange) -> Result<(), AllocError>
    ensures numbers { OnOk result (list.new.items ≡ list.old.items ++ numbers (coming e.now)) }
    ensures few { OnOk result ((e.now.first.number < 2 ^ 32)
        × IfSome e.now.second (λ leaf. leaf.number < 2 ^ 32)) }
{
    list.push(e.first.number)?;
    if let Some(second) = &e.second {
        list.push(second.number)?;
    }
    Ok(())
}

// The sector behind the last one of those.
fn end_of(e: &Exchange) -> u64
    ensures { result ≡ end_by e.now.first e.now.second }
{
    match &e.second {
        None => e.first.end,
        Some(second) => second.end,
    }
}

/// The change that a plan makes of the tree, as events name it: leaves by their numbers, and inner
/// nodes by their buckets. `Err` is want of memory.
pub fn change_of(
    alloc: Global,
    g: &Geometry,
    spine: &Spine,
    plan: &Plan,
) -> Result<Change, AllocError>
    requires some { 0 < g.now.bucket }
    requires fits { Fits spine.now plan.now }
    ensures { IfOk result (IsChangeIn g.now spine.now plan.now) }
{
    let _ = spine.len();
    let leaves = &plan.leaves;
    let mut gone = Vec::new(alloc);
    push_going(&mut gone, spine, leaves)?;
    let mut come = Vec::new(alloc);
    push_coming(&mut come, leaves)?;
    let mut old = Vec::new(alloc);
    push_old(&mut old, g, spine, plan)?;
    let mut new = Vec::new(alloc);
    push_new(&mut new, g, plan)?;
    Ok(Change {
        low: leaves.first.from,
        high: end_of(leaves),
        gone,
        come,
        old,
        new,
    })
}
