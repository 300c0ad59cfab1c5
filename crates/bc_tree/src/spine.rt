//! The tree above the leaves.
ghost use Rattle.std.specs.Prelude.{◌≡◌, ◌<◌, ◌≤◌, length, Some, slice_get, IfOk};
ghost use Rattle.bc_inner.specs.Inner.{Inner};
ghost use Rattle.bc_spine.specs.declared.leaf.LeafRange.{LeafRange};
ghost use Rattle.bc_spine.specs.Leaves.{AreLeaves, IsLeafAt, IsNumberAt, Spans};
ghost use Rattle.bc_tree.specs.Spine.{AreInner, IsNewSpine, IsParentAt, IsPlaceAt, IsProper, IsSpine, bottom};

use crate::build::leaves_below;
use crate::place::LeafPlace;
use bc_disk::geometry::Geometry;
use bc_inner::Inner;
use bc_spine::{LeafRange, Leaves};
use std::alloc::{AllocError, Global};
use std::marker::Model;

/// The inner nodes of the index, and its leaves.
#[derive(Drop)]
pub struct Spine {
    pub(crate) g: Geometry,
    pub(crate) root: Inner,
    pub(crate) below: Vec<Inner>,
    pub(crate) leaves: Leaves,
}

impl Model for Spine {
    ghost use Rattle.std.specs.Prelude.{◌≡◌, ◌-◌, vec_capacity, vec_len};
    ghost use Rattle.bc_tree.specs.Spine.{IsSpine, Spine};

    ghost Value = { Spine };

    ghost view = { λ s. record {
      geometry = s.g;
      root = s.root;
      below = s.below.items;
      leaves = s.leaves.leaves;
      spare = s.leaves.spare;
      room = vec_capacity s.below - vec_len s.below;
    } };

    ghost invariant = { λ s. IsSpine s.g s.root s.below.items s.leaves.leaves
        × (s.leaves.end ≡ s.root.end) };
}

impl Spine {
    /// The tree of a root of level 1, or of one of level 2 with the nodes of level 1 that are its
    /// children, in the order of their ranges. Its leaves have the numbers from 0 on, in the order
    /// of their ranges.
    pub fn new(
        alloc: Global,
        g: &Geometry,
        root: Inner,
        below: Vec<Inner>,
    ) -> Result<Spine, AllocError>
        requires { AreInner g.now root below.items }
        ensures { IfOk result (IsNewSpine g.now root below.items) }
    {
        let leaves = leaves_below(alloc, &root, below.as_slice())?;
        Ok(Spine {
            g: *g,
            root,
            below,
            leaves,
        })
    }

    /// The root.
    pub fn root(&self) -> &Inner
        ensures root { result.now ≡ self.now.root }
        ensures spine { IsSpine self.now.geometry self.now.root self.now.below self.now.leaves }
        ensures proper { IsProper self.now.geometry result.now }
    {
        &self.root
    }

    /// How the cache device is divided.
    pub fn geometry(&self) -> &Geometry
        ensures { result.now ≡ self.now.geometry }
    {
        &self.g
    }

    /// The nodes between the root and the leaves, in the order of their ranges; none where the
    /// leaves are the root's children.
    pub fn below(&self) -> &[Inner]
        ensures { result.now ≡ self.now.below }
    {
        self.below.as_slice()
    }

    /// How many leaves there are.
    pub fn len(&self) -> usize
        ensures count { result ≡ length self.now.leaves }
        ensures all { AreLeaves self.now.leaves self.now.root.end }
    {
        self.leaves.len()
    }

    /// The leaf at a place, counted from 0.
    pub fn leaf(&self, place: usize) -> LeafRange
        requires { place < length self.now.leaves }
        ensures leaf { slice_get self.now.leaves place ≡ Some result }
        ensures all { AreLeaves self.now.leaves self.now.root.end }
    {
        self.leaves.leaf(place)
    }

    /// For how many more leaves there is room.
    pub fn spare(&self) -> usize
        ensures { result ≡ self.now.spare }
    {
        self.leaves.spare()
    }

    /// The leaf that a sector lies in. It takes a number of steps that is logarithmic in the number
    /// of leaves.
    pub fn find(&self, sector: u64) -> LeafRange
        requires { sector < self.now.root.end }
        ensures { IsLeafAt self.now.leaves sector result }
    {
        self.leaves.find(sector)
    }

    /// The number of the leaf that a sector lies in.
    pub fn path(&self, sector: u64) -> u32
        requires { sector < self.now.root.end }
        ensures { IsNumberAt self.now.leaves sector result }
    {
        self.leaves.path(sector)
    }

    /// The node that has the leaf of a sector as a child.
    pub fn parent(&self, sector: u64) -> &Inner
        requires { sector < self.now.root.end }
        ensures parent { IsParentAt self.now sector result.now }
        ensures proper { IsProper self.now.geometry result.now }
    {
        if self.below.is_empty() {
            return &self.root;
        }
        &self.below[self.root.place_of(sector)]
    }

    /// The place, among the nodes whose children are leaves, of the one that covers a sector.
    fn node_place(&self, sector: u64) -> usize
        requires { sector < self.now.root.end }
        ensures node { (node : Inner)
            × (slice_get (bottom self.now.root self.now.below) result ≡ Some node)
            × (node.from ≤ sector) × (sector < node.end) }
        ensures spine { IsSpine self.now.geometry self.now.root self.now.below self.now.leaves }
    {
        if self.below.is_empty() {
            return 0;
        }
        self.root.place_of(sector)
    }

    /// The node at a place among those whose children are leaves.
    pub(crate) fn node(&self, place: usize) -> &Inner
        requires { place < length (bottom self.now.root self.now.below) }
        ensures { slice_get (bottom self.now.root self.now.below) place ≡ Some result.now }
    {
        if self.below.is_empty() {
            return &self.root;
        }
        &self.below[place]
    }

    /// The place among the leaves of the one that a sector lies in.
    fn leaf_place(&self, sector: u64) -> usize
        requires { sector < self.now.root.end }
        ensures { (leaf : LeafRange) × (slice_get self.now.leaves result ≡ Some leaf)
            × Spans leaf sector }
    {
        self.leaves.place(sector)
    }

    /// Where the leaf of a sector stands in the tree: its place among the leaves, and that of its
    /// key among the children of its parent. It takes a number of steps that is logarithmic in the
    /// number of leaves.
    pub fn place(&self, sector: u64) -> LeafPlace
        requires { sector < self.now.root.end }
        ensures { IsPlaceAt self.now sector result }
    {
        let node = self.node_place(sector);
        let child = self.node(node).place_of(sector);
        let leaf = self.leaf_place(sector);
        let range = self.leaf(leaf);
        LeafPlace {
            node,
            child,
            leaf,
            range,
        }
    }
}
