//! How many buckets a change of the tree takes.
ghost use Rattle.std.specs.Prelude.{◌≡◌, ◌+◌, ◌<◌, ◌≤◌};
ghost use Rattle.bc_tree.specs.Needs.{IsNeeded, IsNeededForBoth, across_needs, become_one, can_merge, fits_node, halved_needs, has_room, inside_needs, is_low, rewrite_needs, split_needs, takes_set, with_parent, with_root, words};
ghost use Rattle.bc_tree.specs.Spine.{IsProper};

use crate::spine::Spine;
use bc_disk::geometry::Geometry;
use bc_inner::Inner;
use bc_node::{Leaf, in_blocks};

/// How many buckets the new nodes of a change take, by the purpose for which they are taken.
#[derive(Clone, Copy, Debug, PartialEq, Eq)]
pub struct Needs {
    /// Those of nodes that come beside others: at most 5.
    pub tree: u32,
    /// Those of nodes that move: at most 4.
    pub moving: u32,
}

/// Whether the children of a node, and `more` words more, fit in one set.
pub(crate) fn fits_node(g: &Geometry, node: &Inner, more: usize) -> bool
    requires proper { IsProper g.now node.now }
    requires few { more ≤ 8 }
    ensures { result ≡ fits_node g.now (words node.now.children + more) }
{
    node.length() + 8 * more <= 512 * usize::from(g.node_sectors)
}

/// Whether a set of so many words can be put behind the others of a node.
pub(crate) fn has_room(g: &Geometry, node: &Inner, set: usize) -> bool
    requires few { set ≤ 8 }
    ensures { result ≡ has_room g.now node.now set }
{
    let behind = usize::from(node.taken()) + in_blocks(g.block, 32 + 8 * set);
    !node.is_loaded() && node.taken() > 0 && behind <= usize::from(g.node_sectors)
}

/// Whether a further set of so many words can change the children of a node, which then take `more`
/// words more.
fn takes_set(g: &Geometry, node: &Inner, set: usize, more: usize) -> bool
    requires proper { IsProper g.now node.now }
    requires set { set ≤ 8 }
    requires more { more ≤ 8 }
    ensures { result ≡ takes_set g.now node.now set more }
{
    has_room(g, node, set) && fits_node(g, node, more)
}

/// Whether the keys of two leaves together take at most half a node.
pub(crate) fn can_merge(g: &Geometry, left: &Leaf, right: &Leaf) -> bool
    ensures { result ≡ can_merge g.now left.now right.now }
{
    let half = 256 * usize::from(g.node_sectors);
    let first = left.length();
    let second = right.length();
    first <= half && second <= half && first + second - 32 <= half
}

/// Whether one node comes in the place of two neighbouring ones, when the last leaf of the one and
/// the first of the other become one.
pub(crate) fn become_one(g: &Geometry, left: &Inner, right: &Inner) -> bool
    requires left { IsProper g.now left.now }
    requires right { IsProper g.now right.now }
    ensures { result ≡ become_one g.now left.now right.now }
{
    let half = 256 * usize::from(g.node_sectors);
    right.children().len() == 1 || left.length() + right.length() - 32 <= half
}

impl Spine {
    /// Whether the leaves are the root's children.
    fn is_low(&self) -> bool
        ensures { result ≡ is_low self.now }
    {
        self.root().level() == 1
    }

    /// What a change of the root's children by a set of so many words needs, beside these.
    fn with_root(&self, set: usize, tree: u32, moving: u32) -> Needs
        requires few { set ≤ 8 }
        requires least { moving < 4 }
        ensures { result ≡ with_root self.now set tree moving }
    {
        if takes_set(self.geometry(), self.root(), set, 0) {
            return Needs { tree, moving };
        }
        Needs {
            tree,
            moving: moving + 1,
        }
    }

    /// What is needed where the parent of a leaf moves, beside these.
    fn with_parent(&self, tree: u32, moving: u32) -> Needs
        requires least { moving < 3 }
        ensures { result ≡ with_parent self.now tree moving }
    {
        let moving = moving + 1;
        if self.is_low() {
            return Needs { tree, moving };
        }
        self.with_root(3, tree, moving)
    }

    /// What is needed where the parent of a leaf gives way to two nodes.
    fn halved_needs(&self) -> Option<Needs>
        ensures { result ≡ halved_needs self.now }
    {
        if self.is_low() {
            return Some(Needs { tree: 5, moving: 0 });
        }
        if takes_set(self.geometry(), self.root(), 6, 3) {
            return Some(Needs { tree: 4, moving: 0 });
        }
        if fits_node(self.geometry(), self.root(), 3) {
            return Some(Needs { tree: 4, moving: 1 });
        }
        None
    }

    /// The buckets that a rewrite of a leaf takes: for the leaf, and for the nodes above it that
    /// move with it since they were read from the device or have no room for a further set.
    pub fn rewrite_needs(&self, leaf: &Leaf) -> Needs
        requires { leaf.now.from < self.now.root.end }
        ensures { IsNeeded (rewrite_needs self.now) self.now leaf.now.from result }
    {
        let parent = self.parent(leaf.from());
        if takes_set(self.geometry(), parent, 3, 0) {
            return Needs { tree: 0, moving: 1 };
        }
        self.with_parent(0, 1)
    }

    /// The buckets that a split of a leaf takes: for the two that come in its place, and for the
    /// nodes above that move or are split. None where a node above would have to be split whose
    /// parent, a root of level 2, has no room for one more child.
    pub fn split_needs(&self, leaf: &Leaf) -> Option<Needs>
        requires { leaf.now.from < self.now.root.end }
        ensures { IsNeeded (split_needs self.now) self.now leaf.now.from result }
    {
        let parent = self.parent(leaf.from());
        if takes_set(self.geometry(), parent, 6, 3) {
            return Some(Needs { tree: 2, moving: 0 });
        }
        if fits_node(self.geometry(), parent, 3) {
            return Some(self.with_parent(2, 0));
        }
        self.halved_needs()
    }

    /// What is needed where two leaves of one parent become one.
    fn inside_needs(&self, parent: &Inner) -> Needs
        requires { IsProper self.now.geometry parent.now }
        ensures { result ≡ inside_needs self.now parent.now }
    {
        if takes_set(self.geometry(), parent, 5, 0) {
            return Needs { tree: 0, moving: 1 };
        }
        self.with_parent(0, 1)
    }

    /// What is needed where two leaves of neighbouring parents become one.
    fn across_needs(&self, left: &Inner, right: &Inner) -> Needs
        requires left { IsProper self.now.geometry left.now }
        requires right { IsProper self.now.geometry right.now }
        ensures { result ≡ across_needs self.now left.now right.now }
    {
        if become_one(self.geometry(), left, right) {
            return self.with_root(5, 0, 2);
        }
        self.with_root(8, 0, 3)
    }

    /// The buckets that a merge of a leaf with the next one takes: for the one that comes in their
    /// place, and for the nodes above that move. None exactly where the keys of both take more than
    /// half a node together.
    pub fn merge_needs(&self, left: &Leaf, right: &Leaf) -> Option<Needs>
        requires some { left.now.from < left.now.end }
        requires beside { left.now.end ≡ right.now.from }
        requires within { right.now.from < self.now.root.end }
        ensures { IsNeededForBoth self.now left.now right.now result }
    {
        let parent = self.parent(left.from());
        let other = self.parent(right.from());
        if !can_merge(self.geometry(), left, right) {
            return None;
        }
        if right.from() < parent.end() {
            return Some(self.inside_needs(parent));
        }
        Some(self.across_needs(parent, other))
    }
}
