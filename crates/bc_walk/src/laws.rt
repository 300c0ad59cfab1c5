//! What the definitions come to: each law is the contract of a function.
ghost use Rattle.std.specs.Prelude.{◌≡◌, ℕ, Ok};
ghost use Rattle.bc_disk.specs.declared.geometry.Geometry.{Geometry};
ghost use Rattle.bc_key.specs.declared.key.Key.{Key};
ghost use Rattle.bc_model.specs.Sector.{Image};
ghost use Rattle.bc_walk.specs.Tree.{AreMet, IsTree};
ghost use Rattle.bc_walk.specs.Walk.{Found, IsIndexSearch, Way};

/// A walk goes one way at most.
pub fn one_way()
    ensures { (g : Geometry) (image : Image) (level : ℕ) (root : Key) (a b : Way)
        → IsIndexSearch g image level root a → IsIndexSearch g image level root b → a ≡ b }
{}

/// Where a walk met a node at each key, it has found the nodes of the tree, in their order, and the
/// tree's keys; each node keeps its range, and no two lie in one bucket. Of such a tree it finds just
/// that.
pub fn walk_is_tree()
    ensures tree { (g : Geometry) (image : Image) (level : ℕ) (root : Key) (found : Found)
        → IsIndexSearch g image level root (Ok found) → AreMet found.visits
        → IsTree g image level root found }
    ensures walk { (g : Geometry) (image : Image) (level : ℕ) (root : Key) (found : Found)
        → IsTree g image level root found → IsIndexSearch g image level root (Ok found) }
    ensures met { (g : Geometry) (image : Image) (level : ℕ) (root : Key) (found : Found)
        → IsTree g image level root found → AreMet found.visits }
{}
