//! Changes of the tree, planned and made.
ghost use Rattle.std.specs.Prelude.{◌≡◌, ◌<◌, ◌≤◌, All, IfOk};
ghost use Rattle.bc_extent.specs.Extents.{IsInOrder};
ghost use Rattle.bc_tree.specs.Parts.{LiesBetween};
ghost use Rattle.bc_tree.specs.Next.{node_next};
ghost use Rattle.bc_tree.specs.Plan.{CanTake, IsComing, IsLeafWith};
ghost use Rattle.bc_tree.specs.Same.{SameNode};
ghost use Rattle.bc_tree.specs.declared.plan.PlanError.TheVariants as errors;

use crate::beside::Beside;
use crate::change::NodeChange;
use crate::parts::keys_between;
use bc_extent::Extents;
use bc_inner::Inner;
use bc_key::{Key, Ptr};
use bc_node::Leaf;
use bc_spine::Exchange;
use std::alloc::{AllocError, Global};

/// A change of the tree that was planned: nothing of it is written, and the tree is as it was.
#[derive(Drop)]
pub struct Plan {
    /// The leaves that go and come.
    pub leaves: Exchange,
    /// The leaf that comes, or the one of the lower sectors.
    pub first: Leaf,
    /// The one of the higher sectors, where two come.
    pub second: Option<Leaf>,
    /// The place of the node above them, among the nodes whose children are leaves.
    pub place: usize,
    /// What becomes of it.
    pub bottom: NodeChange,
    /// What becomes of the one behind it.
    pub beside: Beside,
    /// What becomes of the root, where that is another node and changes.
    pub top: Option<NodeChange>,
}

/// Why a change wasn't planned.
#[derive(Clone, Copy, Debug, PartialEq, Eq, Drop)]
pub enum PlanError {
    /// A leaf that would come doesn't fit in a node.
    Large,
    /// Memory ran out.
    Memory,
}

impl From<AllocError> for PlanError {
    ghost from_gives = { λ _ e. e ≡ errors.Memory };

    fn from(_failed: AllocError) -> PlanError {
        PlanError::Memory
    }
}

/// A leaf of these keys, none of which is in a set yet.
pub(crate) fn leaf_with(
    alloc: Global,
    from: u64,
    end: u64,
    to: &Ptr,
    seq: u64,
    keys: &[Key],
) -> Result<Leaf, AllocError>
    requires order { IsInOrder keys.now }
    requires within { All (LiesBetween from end) keys.now }
    ensures { IfOk result (IsLeafWith from end to.now seq keys.now) }
{
    if keys.len() > u32::MAX as usize {
        return Err(AllocError);
    }
    let key = Key::new(end, 0, false, Some(*to));
    let mut leaf = Leaf::new(alloc, &key, from, seq);
    leaf.reserve(keys.len() as u32)?;
    leaf.add(keys, 0);
    Ok(leaf)
}

/// A leaf that has the keys that these have between two sectors.
pub(crate) fn coming(
    alloc: Global,
    keys: &Extents,
    from: u64,
    end: u64,
    to: &Ptr,
    seq: u64,
) -> Result<Leaf, AllocError>
    requires { from < end }
    ensures { IfOk result (IsComing keys.now.keys from end to.now seq) }
{
    let parts = keys_between(alloc, keys, from, end)?;
    leaf_with(alloc, from, end, to, seq, &parts)
}

/// Does to a node what a change says, which takes no memory.
pub(crate) fn change(node: &mut Inner, change: NodeChange)
    requires { CanTake node.old change }
    ensures { SameNode (node_next node.old change) node.new }
{
    match change {
        NodeChange::Set(keys) => node.put(keys.as_slice()),
        NodeChange::Move(next) => *node = next,
    }
}
