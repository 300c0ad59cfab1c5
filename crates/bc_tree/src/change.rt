//! What becomes of an inner node some of whose children give way to others.
ghost use Rattle.std.specs.Prelude.{◌≡◌, ◌<◌, ◌≤◌, false, length, IfOk};
ghost use Rattle.bc_inner.specs.Inner.{CoverRange};
ghost use Rattle.bc_tree.specs.Change.{CanChange, IsChangeOf, IsMoved, set_words};
ghost use Rattle.bc_tree.specs.Needs.{has_room};

use crate::children::{replaced, set_keys};
use crate::needs::has_room;
use bc_disk::geometry::Geometry;
use bc_inner::Inner;
use bc_key::{Key, Ptr};
use bc_keys::{Keys, word_count};
use std::alloc::{AllocError, Global};

/// What becomes of an inner node.
#[derive(Drop)]
pub enum NodeChange {
    /// A further set of these keys is written behind its others.
    Set(Keys),
    /// It moves: this one comes in its place.
    Move(Inner),
}

/// The node at another place, with other children, and without sets.
fn moved(alloc: Global, node: &Inner, children: Keys, to: &Ptr, seq: u64) -> Inner
    requires { CoverRange node.now.from node.now.end children }
    ensures { IsMoved node.now children to.now seq result }
{
    let key = Key::new(node.end(), 0, false, Some(*to));
    Inner::new(alloc, &key, node.level(), node.from(), seq, children)
}

/// What becomes of a node where `gone` of its children from a place on give way to others: it takes
/// a further set where it was written in this run and has room, and else it moves to the first of
/// these places, with this number.
pub fn change_node(
    alloc: Global,
    g: &Geometry,
    node: &Inner,
    at: usize,
    gone: usize,
    come: &[Key],
    to: &[Ptr],
    seq: u64,
) -> Result<NodeChange, AllocError>
    requires can { CanChange g.now node.now at gone come.now }
    requires few { set_words gone come.now ≤ 8 }
    requires place { has_room g.now node.now (set_words gone come.now) ≡ false → 0 < length to.now }
    ensures { IfOk result (IsChangeOf g.now node.now at gone come.now to.now seq) }
{
    let keys = set_keys(alloc, node.children(), at, gone, come)?;
    if has_room(g, node, word_count(&keys)) {
        return Ok(NodeChange::Set(Keys::from_vec(keys)));
    }
    let children = replaced(alloc, node.children(), at, gone, come)?;
    let next = moved(alloc, node, Keys::from_vec(children), &to[0], seq);
    Ok(NodeChange::Move(next))
}
