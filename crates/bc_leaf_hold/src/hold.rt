//! Holds of leaves in hand.
ghost use Rattle.std.specs.Prelude.{◌≡◌, true, false};
ghost use Rattle.bc_hand.specs.Seats.{View, Works, kinds};
ghost use Rattle.bc_hand.specs.bc_machine.declared.part.CorePart.{CorePart};
ghost use Rattle.bc_leaf_hold.specs.Hold.{HasLeafAt, HasTreeAtRest, IsSetIn};
ghost use Rattle.bc_parts.specs.Seat.{PartsView};

use bc_disk::disk::Disk;
use bc_hand::hand::Hand;

/// Begins a hold of the leaf in this slot of the part in hand, which nobody holds: it stays there
/// until it is let go. Whichever seat has the hand, it works with it still.
pub fn hold_leaf<C: Disk + Drop, B: Disk + Drop>(hand: &mut Hand<C, B>, slot: u32)
    requires { HasLeafAt hand.old slot false }
    ensures held { IsSetIn slot true hand.old hand.new }
    ensures works { (parts : PartsView (CorePart C B)) (v : View C.facts B.facts)
        → Works C.facts B.facts parts v hand.old → Works C.facts B.facts parts v hand.new }
    ensures kinds { kinds hand.new ≡ kinds hand.old }
{
    let Some(mut leaves) = hand.leaves.take() else {
        unreachable!()
    };
    leaves.cache.hold(slot);
    hand.leaves = Some(leaves);
}

/// Ends the hold of the leaf in this slot of the part in hand, while the tree is in hand and at
/// rest.
pub fn let_go_leaf<C: Disk + Drop, B: Disk + Drop>(hand: &mut Hand<C, B>, slot: u32)
    requires leaf { HasLeafAt hand.old slot true }
    requires rest { HasTreeAtRest hand.old }
    ensures held { IsSetIn slot false hand.old hand.new }
    ensures works { (parts : PartsView (CorePart C B)) (v : View C.facts B.facts)
        → Works C.facts B.facts parts v hand.old → Works C.facts B.facts parts v hand.new }
    ensures kinds { kinds hand.new ≡ kinds hand.old }
{
    let Some(mut leaves) = hand.leaves.take() else {
        unreachable!()
    };
    leaves.cache.let_go(slot);
    hand.leaves = Some(leaves);
}
