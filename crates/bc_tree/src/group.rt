//! Nodes above leaves that come in the place of others.
ghost use Rattle.std.specs.Prelude.{◌≡◌, ◌≤◌, ◌<◌, length, IfOk};
ghost use Rattle.bc_inner.specs.Inner.{CoverRange};
ghost use Rattle.bc_tree.specs.Group.{AreTwo, IsFresh};
ghost use Rattle.bc_tree.specs.Plan.{Names};

use crate::beside::Beside;
use crate::change::NodeChange;
use bc_inner::Inner;
use bc_key::{Key, Ptr};
use bc_keys::Keys;
use std::alloc::{AllocError, Global};

/// What becomes of the nodes above leaves, where one of them gives way to others.
#[derive(Drop)]
pub(crate) struct Group {
    /// Of the one whose children they are.
    pub bottom: NodeChange,
    /// Of the root, where it is another and changes.
    pub top: Option<NodeChange>,
    /// Of the node behind it.
    pub beside: Beside,
}

/// Two nodes that have the children of others between them.
#[derive(Drop)]
pub(crate) struct Two {
    /// The one of the lower sectors.
    pub low: Inner,
    /// The one of the higher sectors.
    pub high: Inner,
}

/// The key by which a node is named.
pub(crate) fn name_of(node: &Inner) -> Key
    ensures { Names result node.now }
{
    Key::new(node.end(), 0, false, Some(node.ptr()))
}

/// A node of a level, with these sectors and children, of which nothing is written.
pub(crate) fn fresh(
    alloc: Global,
    level: u16,
    from: u64,
    end: u64,
    children: Vec<Key>,
    to: &Ptr,
    seq: u64,
) -> Inner
    requires { CoverRange from end children.items }
    ensures { IsFresh level from end children.items to.now seq result }
{
    let key = Key::new(end, 0, false, Some(*to));
    Inner::new(alloc, &key, level, from, seq, Keys::from_vec(children))
}

/// Two nodes above leaves that have all these children between them, at the first two of these
/// places: so many of them go to the first.
pub(crate) fn divided(
    alloc: Global,
    from: u64,
    end: u64,
    all: &[Key],
    cut: usize,
    to: &[Ptr],
    seq: u64,
) -> Result<Two, AllocError>
    requires cover { CoverRange from end all.now }
    requires some { 0 < cut }
    requires more { cut < length all.now }
    requires places { 2 ≤ length to.now }
    ensures { IfOk result (λ two. AreTwo from end cut all.now to.now seq two.low two.high) }
{
    let low = Vec::from_slice(alloc, &all[..cut])?;
    let high = Vec::from_slice(alloc, &all[cut..])?;
    let middle = all[cut - 1].end;
    let next = seq.wrapping_add(1);
    Ok(Two {
        low: fresh(alloc, 1, from, middle, low, &to[0], seq),
        high: fresh(alloc, 1, middle, end, high, &to[1], next),
    })
}
