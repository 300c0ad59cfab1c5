//! What becomes of the nodes beside one that changes.
ghost use Rattle.std.specs.Prelude.{◌≡◌, ◌-◌, length, vec_capacity};
ghost use Rattle.bc_tree.specs.Next.{beside_next};
ghost use Rattle.bc_tree.specs.Group.{CanStand};

use bc_inner::Inner;

/// What becomes of the nodes beside one that changes, among those whose children are leaves.
#[derive(Drop)]
pub enum Beside {
    /// Nothing.
    Stays,
    /// This one comes behind it.
    Comes(Inner),
    /// This one comes in the place of the one behind it.
    Moves(Inner),
    /// The one behind it goes.
    Goes,
    /// These two come below the root, whose children were leaves until then.
    Under(Inner, Inner),
}

/// Does to the nodes beside the one at a place what is said, which takes no memory.
pub(crate) fn set_beside(nodes: &mut Vec<Inner>, place: usize, beside: Beside)
    requires { CanStand (length nodes.old.items)
        (vec_capacity nodes.old - length nodes.old.items) place beside }
    ensures { nodes.new.items ≡ beside_next nodes.old.items place beside }
{
    match beside {
        Beside::Stays => {}
        Beside::Comes(node) => {
            let _ = nodes.insert(place + 1, node);
        }
        Beside::Moves(node) => nodes[place + 1] = node,
        Beside::Goes => {
            let _ = nodes.remove(place + 1);
        }
        Beside::Under(low, high) => {
            let _ = nodes.push(low);
            let _ = nodes.push(high);
        }
    }
}
