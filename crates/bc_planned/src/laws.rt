//! Each law is the contract of a function.
ghost use Rattle.bc_planned.specs.Laws.{LawChildren, LawMoves, LawNewMoved, LawNewSplit, LawSplits};

/// The new nodes of a leaf that moves stand at the places that the plan was made with, in their
/// order, with the numbers from its first one on.
pub fn law_moves()
    ensures { LawMoves }
{}

/// So do those of a leaf that is split.
pub fn law_splits()
    ensures { LawSplits }
{}

/// What nodes of a tree name is where other nodes of it stand. So where two ways to number a place
/// agree for the nodes of the tree, they agree for what these name.
pub fn law_children()
    ensures { LawChildren }
{}

/// What the new nodes of a leaf that moves name is where nodes of the tree stand, or new ones.
pub fn law_new_moved()
    ensures { LawNewMoved }
{}

/// So it is with those of a leaf that is split.
pub fn law_new_split()
    ensures { LawNewSplit }
{}
