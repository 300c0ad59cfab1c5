//! What a tree and a plan in memory keep.
ghost use Rattle.std.specs.Prelude.{◌≡◌, Some};
ghost use Rattle.bc_by_root.specs.bc_install.bc_change.Ready.{IsTree};
ghost use Rattle.bc_replaced.specs.Given.{HasProperLast};
ghost use Rattle.bc_new_nodes.specs.bc_machine.declared.part.SpinePart.{SpinePart};

use bc_new_nodes::bc_hand::hand::Hand;
use bc_tree::Plan;

/// The tree in hand is one.
pub(crate) fn tree_in<C, B>(hand: &Hand<C, B>)
    requires { (spine : SpinePart) × (hand.now.spine ≡ Some spine) }
    ensures { (spine : SpinePart) → hand.now.spine ≡ Some spine → IsTree spine.spine }
{
    let Some(part) = &hand.spine else {
        unreachable!()
    };
    let spine = &part.get().spine;
    let _ = spine.root();
    let _ = spine.len();
}

/// The keys of leaves that come are in order, each within its leaf.
pub(crate) fn proper_keys(plan: &Plan)
    ensures { HasProperLast plan.now }
{
    let _ = plan.first.keys();
    if let Some(second) = &plan.second {
        let _ = second.keys();
    }
}
