//! What becomes of the keys of data.
ghost use Rattle.std.specs.Prelude.{◌≡◌, ◌++◌, List, IfOk, Option, None};
ghost use Rattle.bc_image.specs.Tree.{set_keys};
ghost use Rattle.bc_key.specs.declared.key.Key.{Key};
ghost use Rattle.bc_node.specs.Sets.{AreProper};
ghost use Rattle.bc_set.specs.declared.set.SetKind.{SetKind};
ghost use Rattle.bc_walk.specs.Rule.{Rule};

use bc_set::Set;
use std::alloc::AllocError;

/// Takes the keys of an index, leaf by leaf.
pub trait Gather {
    // It was made of these keys, in this order, the oldest first.
    ghost took: { Self → List Key → Type 0 };

    // It judges the keys by this, where it does. That never changes.
    ghost rule: { Self → Option Rule } = { λ _. None };

    /// Takes the keys of a leaf, set after set.
    fn take(&mut self, sets: &[Set]) -> Result<(), AllocError>
        requires { AreProper SetKind.Extents sets.now }
        ensures took { IfOk result (λ _. (keys : List Key) → took self.old keys
            → took self.new (keys ++ set_keys sets.now)) }
        ensures rule { rule self.new ≡ rule self.old };
}
