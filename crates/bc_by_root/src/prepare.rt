//! What is in memory for a change of the tree before any of it is done.
ghost use Rattle.std.specs.Prelude.{◌≡◌, ◌==◌, length, IfOk};
ghost use Rattle.bc_by_root.specs.Prepared.{IsForInstall, IsPrepared, NamesNode, SameChange};
ghost use Rattle.bc_install.specs.bc_change.Goes.{BringsRoot};
ghost use Rattle.bc_inner.specs.Inner.{Inner as InnerSeen};
ghost use Rattle.bc_tree.specs.Plan.{Fits};
ghost use Rattle.bc_tree.specs.Spine.{Spine as SpineSeen};

use bc_disk::geometry::Geometry;
use bc_events::event::Change;
use bc_inner::Inner;
use bc_install::change::{bucket_by, change_of};
use bc_install::ends::ends_of;
use bc_journal::Heads;
use bc_key::Key;
use bc_tree::{NodeChange, Plan, Spine};
use std::alloc::{AllocError, Global};

/// What an install takes.
#[derive(Drop)]
pub struct Installing {
    /// The bucket from which on the core counts.
    pub first: u32,
    /// The change.
    pub change: Change,
    /// The buckets of what comes.
    pub come: Vec<u32>,
    /// Those of what goes.
    pub gone: Vec<u32>,
    /// The buckets of what comes once more.
    pub made: Vec<u32>,
    /// And those of what goes.
    pub unmade: Vec<u32>,
}

/// What an entry takes that makes a change, and the install behind it.
#[derive(Drop)]
pub struct Prepared {
    /// What the entry names.
    pub heads: Heads,
    /// The slot of the root that it names.
    pub slot: u32,
    /// The change.
    pub change: Change,
    /// What the install takes.
    pub later: Installing,
}

// The root that a plan brings to a tree without nodes between it and the leaves, or to one with
// some.
fn root_of(is_low: bool, plan: &Plan) -> &Inner
    requires { (spine : SpineSeen) × (root : InnerSeen) × BringsRoot spine plan.now root
        × (is_low ≡ (length spine.below == 0)) }
    ensures { (spine : SpineSeen) (root : InnerSeen) → BringsRoot spine plan.now root
        → is_low ≡ (length spine.below == 0) → root ≡ result.now }
{
    if is_low {
        match &plan.bottom {
            NodeChange::Move(next) => return next,
            NodeChange::Set(_) => unreachable!(),
        }
    }
    let Some(top) = &plan.top else { unreachable!() };
    match top {
        NodeChange::Move(up) => up,
        NodeChange::Set(_) => unreachable!(),
    }
}

// What the entry names: this root, and else what the one before names.
fn heads_with(heads: &Heads, root: &Inner) -> Heads
    ensures { NamesNode heads.now root.now result }
{
    let old = *heads;
    Heads {
        root: Key::new(root.end(), 0, false, Some(root.ptr())),
        level: root.level(),
        ..old
    }
}

// The change, in memory of its own.
fn copy_of(alloc: Global, change: &Change) -> Result<Change, AllocError>
    ensures { IfOk result (SameChange change.now) }
{
    let gone = change.gone.to_vec(alloc)?;
    let come = change.come.to_vec(alloc)?;
    let old = change.old.to_vec(alloc)?;
    let new = change.new.to_vec(alloc)?;
    Ok(Change {
        low: change.low,
        high: change.high,
        gone,
        come,
        old,
        new,
    })
}

/// What the install of a change takes. `Err` is want of memory.
pub fn install_for(
    alloc: Global,
    g: &Geometry,
    spine: &Spine,
    plan: &Plan,
    change: &Change,
) -> Result<Installing, AllocError>
    requires { Fits spine.now plan.now }
    ensures { IfOk result (IsForInstall g.now spine.now plan.now change.now) }
{
    let copy = copy_of(alloc, change)?;
    let ends = ends_of(alloc, g, spine, plan)?;
    let made = ends.come.to_vec(alloc)?;
    let unmade = ends.gone.to_vec(alloc)?;
    Ok(Installing {
        first: u32::from(g.first_bucket),
        change: copy,
        come: ends.come,
        gone: ends.gone,
        made,
        unmade,
    })
}

/// All memory for a change that a plan makes of the tree by an entry with a new root: what the
/// entry takes, and what the install takes. `Err` is want of memory.
pub fn prepare(
    alloc: Global,
    g: &Geometry,
    spine: &Spine,
    plan: &Plan,
    heads: &Heads,
) -> Result<Prepared, AllocError>
    requires fits { Fits spine.now plan.now }
    requires root { (root : InnerSeen) × BringsRoot spine.now plan.now root }
    ensures { IfOk result (λ p. (root : InnerSeen) → BringsRoot spine.now plan.now root
        → IsPrepared g.now spine.now plan.now root heads.now p) }
{
    let change = change_of(alloc, g, spine, plan)?;
    let later = install_for(alloc, g, spine, plan, &change)?;
    let root = root_of(spine.below().is_empty(), plan);
    Ok(Prepared {
        heads: heads_with(heads, root),
        slot: bucket_by(g, &root.ptr()),
        change,
        later,
    })
}
