//! What is in memory for a change by a set before any of it is done.
ghost use Rattle.std.specs.Prelude.{◌≡◌, ◌*◌, ℕ, List, length, IfOk};
ghost use Rattle.bc_by_set.specs.Prepared.{IsPreparedSet};
ghost use Rattle.bc_inner.specs.Inner.{Inner as InnerSeen};
ghost use Rattle.bc_key.specs.declared.key.Key.{Key as KeySeen};
ghost use Rattle.bc_by_root.specs.bc_install.bc_parent_set.Takes.{IsTaker};
ghost use Rattle.bc_tree.specs.Plan.{Fits};

use bc_by_root::bc_install::bc_parent_set::write::taker_of;
use bc_by_root::bc_install::change::{bucket_by, change_of};
use bc_by_root::prepare::{Installing, install_for};
use bc_disk::geometry::Geometry;
use bc_events::event::Change;
use bc_tree::{Plan, Spine};
use std::alloc::{AllocError, Global};

/// What the write of the set takes by which a change is made, and the install behind it.
#[derive(Drop)]
pub struct PreparedSet {
    /// The slot of the node that takes the set.
    pub slot: u32,
    /// The change.
    pub change: Change,
    /// The bytes of a node.
    pub room: Vec<u8>,
    /// What the install takes.
    pub later: Installing,
}

// Room for the bytes of a node.
fn room_for(alloc: Global, g: &Geometry) -> Result<Vec<u8>, AllocError>
    ensures { IfOk result (λ room. length room.items ≡ 512 * g.now.node_sectors) }
{
    vec![in alloc; 0u8; 512 * usize::from(g.node_sectors)]
}

/// All memory for a change that a plan makes of the tree by a set: what its write takes, and what
/// the install takes. `Err` is want of memory.
pub fn prepare_set(
    alloc: Global,
    g: &Geometry,
    spine: &Spine,
    plan: &Plan,
) -> Result<PreparedSet, AllocError>
    requires fits { Fits spine.now plan.now }
    requires takes { (at : ℕ) × (taker : InnerSeen) × (put : List KeySeen)
        × IsTaker spine.now plan.now at taker put }
    ensures { IfOk result (λ p. (at : ℕ) (taker : InnerSeen) (put : List KeySeen)
        → IsTaker spine.now plan.now at taker put
        → IsPreparedSet g.now spine.now plan.now taker p) }
{
    let change = change_of(alloc, g, spine, plan)?;
    let later = install_for(alloc, g, spine, plan, &change)?;
    let room = room_for(alloc, spine.geometry())?;
    let (taker, _) = taker_of(spine, plan);
    Ok(PreparedSet {
        slot: bucket_by(g, &taker.ptr()),
        change,
        room,
        later,
    })
}
