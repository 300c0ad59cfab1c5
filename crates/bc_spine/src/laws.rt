//! What the definitions come to: each law is the contract of a function.
ghost use Rattle.std.specs.Prelude.{◌≡◌, ℕ, ◌<◌, List};
ghost use Rattle.bc_spine.specs.declared.leaf.LeafRange.{LeafRange};
ghost use Rattle.bc_spine.specs.Leaves.{AreLeaves, IsLeafAt};

/// Each sector below the end lies in one leaf, and in no other.
pub fn each_sector_has_one_leaf()
    ensures some { (leaves : List LeafRange) (end sector : ℕ) → AreLeaves leaves end → sector < end
        → (leaf : LeafRange) × IsLeafAt leaves sector leaf }
    ensures one { (leaves : List LeafRange) (end sector : ℕ) (a b : LeafRange)
        → AreLeaves leaves end → IsLeafAt leaves sector a → IsLeafAt leaves sector b → a ≡ b }
{}
