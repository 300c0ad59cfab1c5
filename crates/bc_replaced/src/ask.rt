//! Whether a leaf in hand may give way.
ghost use Rattle.std.specs.Prelude.{◌≡◌, ◌-◌, ◌<◌, ℕ, Contains, IsTrue};
ghost use Rattle.bc_leaf_plan.specs.Leaf.{HasLeafToGo};
ghost use Rattle.bc_leaf_plan.specs.Way.{IsLongFor};
ghost use Rattle.bc_spine.specs.declared.leaf.LeafRange.{LeafRange};

use bc_cache::Cached;
use bc_disk::geometry::Geometry;
use bc_leaf_plan::way::Way;
use bc_new_nodes::bc_hand::hand::Hand;
use bc_new_nodes::bc_machine::part::LEAVES;
use bc_node::Leaf;
use bc_tree::Spine;

// Whether both divide the device in one way.
fn is_same(a: &Geometry, b: &Geometry) -> bool
    ensures { IsTrue result → a.now ≡ b.now }
{
    *a == *b
}

// Whether the tree has a leaf of this number and these sectors.
fn is_of(spine: &Spine, cached: &Cached) -> bool
    ensures { IsTrue result → (range : LeafRange) × Contains spine.now.leaves range
        × (cached.now.number ≡ range.number) × (cached.now.leaf.from ≡ range.from)
        × (cached.now.leaf.end ≡ range.end) }
{
    let leaf = &cached.leaf;
    if leaf.from() >= spine.root().end() {
        return false;
    }
    let range = spine.find(leaf.from());
    if range.number != cached.number || range.from != leaf.from() || range.end != leaf.end() {
        return false;
    }
    true
}

// Whether the leaf has enough sectors.
fn is_long(leaf: &Leaf, way: Way) -> bool
    ensures { IsTrue result → IsLongFor way leaf.now }
{
    match way {
        Way::Rewrite => true,
        Way::Split => leaf.end() > leaf.from() && leaf.end() - leaf.from() > 256,
    }
}

/// Whether the leaf in this slot may give way: it is held, it is one of the tree's, and both are in
/// hand, of one device, with the tree at rest. Leaves are in so many parts.
pub fn may_go<C, B>(hand: &Hand<C, B>, slot: u32, way: Way, count: u32) -> bool
    requires { 0 < count }
    ensures { IsTrue result → (parts : ℕ) → parts - 6 ≡ count
        → HasLeafToGo hand.now parts way slot }
{
    let Some(part) = &hand.spine else {
        return false;
    };
    let Some(leaves) = &hand.leaves else {
        return false;
    };
    let part = part.get();
    if part.changing || slot >= leaves.cache.len() {
        return false;
    }
    let Some(cached) = leaves.cache.slot(slot) else {
        return false;
    };
    if leaves.part < LEAVES || leaves.part - LEAVES != cached.number % count {
        return false;
    }
    if !cached.held || !is_same(leaves.cache.geometry(), part.spine.geometry()) {
        return false;
    }
    if !is_of(&part.spine, cached) {
        return false;
    }
    is_long(&cached.leaf, way)
}
