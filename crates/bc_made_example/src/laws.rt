//! Runs that bring a key: each law is the contract of a function.
ghost use Rattle.bc_made_example.specs.Laws.{HasInsert, HasLeaf, HasNode, LawInsert};

/// Each pair that was made anew, over more than five sectors of data, is opened, and a run from
/// there brings a key that is well made, with all else that is asked of a run on a sound pair.
pub fn law_insert()
    ensures { LawInsert }
{}

/// There is such a run.
pub fn insert_exists()
    ensures { HasInsert }
{}

/// There is a run that writes a new inner node whose key of a child is well made, with all else
/// that is asked of a run on a sound pair.
pub fn node_exists()
    ensures { HasNode }
{}

/// So there is one that writes a new leaf, whose key of eight sectors points to data and is well
/// made.
pub fn leaf_exists()
    ensures { HasLeaf }
{}
