//! The buckets of what comes with a planned change of the tree, and of what goes.
ghost use Rattle.std.specs.Prelude.{◌≡◌, ◌↔◌, ◌+◌, ◌<◌, ◌≤◌, ◌++◌, IsTrue, length, IfOk, OnOk};
ghost use Rattle.bc_install.specs.Ended.{AreEach};
ghost use Rattle.bc_install.specs.Ends.{AreEndsIn, IsWith, all_come, all_gone, leaf_buckets};
ghost use Rattle.bc_meta.specs.Facts.{In};
ghost use Rattle.bc_spine.specs.Exchange.{coming, going};
ghost use Rattle.bc_tree.specs.Plan.{Fits};

use crate::change::{bucket_by, push_new, push_old};
use bc_disk::geometry::Geometry;
use bc_spine::Exchange;
use bc_tree::{Plan, Spine};
use std::alloc::{AllocError, Global};

/// The buckets of what comes with a change, each once, and those of what goes, as events name them.
#[derive(Drop)]
pub struct Ends {
    pub come: Vec<u32>,
    pub gone: Vec<u32>,
}

// Whether a number is one of these.
fn is_in(list: &[u32], number: u32) -> bool
    ensures { IsTrue result ↔ In number list.now }
{
    for other in list {
        if *other == number {
            return true;
        }
    }
    false
}

// Adds a number that isn't there.
fn push_once(list: &mut Vec<u32>, number: u32) -> Result<(), AllocError>
    ensures { OnOk result (IsWith number list.old.items list.new.items) }
{
    if is_in(list, number) {
        return Ok(());
    }
    list.push(number)?;
    Ok(())
}

// These numbers, each once.
fn each_of(alloc: Global, all: &[u32]) -> Result<Vec<u32>, AllocError>
    ensures { IfOk result (λ each. AreEach all.now each.items) }
{
    let mut each = Vec::new(alloc);
    for number in all {
        push_once(&mut each, *number)?;
    }
    Ok(each)
}

// Adds the buckets of the leaves that come.
fn push_coming(list: &mut Vec<u32>, g: &Geometry, e: &Exchange) -> Result<(), AllocError>
    requires { 0 < g.now.bucket }
    ensures { OnOk result (list.new.items
        ≡ list.old.items ++ leaf_buckets g.now (coming e.now)) }
{
    list.push(bucket_by(g, &e.first.ptr))?;
    if let Some(second) = &e.second {
        list.push(bucket_by(g, &second.ptr))?;
    }
    Ok(())
}

// Adds those of the leaves that go.
fn push_going(
    list: &mut Vec<u32>,
    g: &Geometry,
    spine: &Spine,
    e: &Exchange,
) -> Result<(), AllocError>
    requires some { 0 < g.now.bucket }
    requires within { e.now.place + e.now.gone ≤ length spine.now.leaves }
    ensures { OnOk result (list.new.items
        ≡ list.old.items ++ leaf_buckets g.now (going spine.now.leaves e.now)) }
{
    let _ = spine.len();
    for i in 0..e.gone {
        let leaf = spine.leaf(e.place + i);
        list.push(bucket_by(g, &leaf.ptr))?;
    }
    Ok(())
}

// The buckets of all that comes.
fn come_of(alloc: Global, g: &Geometry, plan: &Plan) -> Result<Vec<u32>, AllocError>
    requires { 0 < g.now.bucket }
    ensures { IfOk result (λ come. AreEach (all_come g.now plan.now) come.items) }
{
    let mut all = Vec::new(alloc);
    push_coming(&mut all, g, &plan.leaves)?;
    push_new(&mut all, g, plan)?;
    each_of(alloc, &all)
}

// Those of all that goes.
fn gone_of(alloc: Global, g: &Geometry, spine: &Spine, plan: &Plan) -> Result<Vec<u32>, AllocError>
    requires some { 0 < g.now.bucket }
    requires fits { Fits spine.now plan.now }
    ensures { IfOk result (λ gone. AreEach (all_gone g.now spine.now plan.now) gone.items) }
{
    let mut all = Vec::new(alloc);
    push_going(&mut all, g, spine, &plan.leaves)?;
    push_old(&mut all, g, spine, plan)?;
    each_of(alloc, &all)
}

/// The buckets whose nodes come with the change that a plan makes of the tree, and those whose
/// nodes go, each once, whichever share one. `Err` is want of memory.
pub fn ends_of(alloc: Global, g: &Geometry, spine: &Spine, plan: &Plan) -> Result<Ends, AllocError>
    requires some { 0 < g.now.bucket }
    requires fits { Fits spine.now plan.now }
    ensures { IfOk result (λ e. AreEndsIn g.now spine.now plan.now e.come.items e.gone.items) }
{
    let come = come_of(alloc, g, plan)?;
    let gone = gone_of(alloc, g, spine, plan)?;
    Ok(Ends { come, gone })
}
