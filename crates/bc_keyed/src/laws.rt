//! What keys that come in make of each part: each law is the contract of a function.
ghost use Rattle.bc_keyed.specs.Came.{LawCame, LawJournal, LawLeaf};
ghost use Rattle.bc_keyed.specs.Parts.{LawLeaves, LawNowhere};

/// Keys that come into a leaf change what is pending there, and what waits in the journal; nothing
/// else of the tree.
pub fn law_came()
    ensures { LawCame }
{}

/// The journal in memory stands for the state behind it, once the keys were added to those that
/// wait.
pub fn law_journal()
    ensures { LawJournal }
{}

/// The leaf in memory does, once they were added to it with the number of the entry that will hold
/// them.
pub fn law_leaf()
    ensures { LawLeaf }
{}

/// Of the leaves in memory the part that has this one stands for it then, with all its other leaves.
pub fn law_leaves()
    ensures { LawLeaves }
{}

/// Keys without pointers leave each bucket as it was.
pub fn law_nowhere()
    ensures { LawNowhere }
{}
