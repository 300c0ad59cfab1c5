//! What holds in each state of a run with a cache, each law the contract of a function.
ghost use Rattle.bc_fetched.specs.Fetched.{LawFetched, LawFound, LawSets};

/// A node's sets, as the machine reads them of any image that a read may give, are those that were
/// written, or besides one whose write failed.
pub fn law_sets()
    ensures { LawSets }
{}

/// Where a key points to a leaf of the tree, each read finds the sets of a node.
pub fn law_found()
    ensures { LawFound }
{}

/// A leaf of the tree that has nothing pending, read of the cache device, says of each sector what
/// the machine's leaf says.
pub fn law_fetched()
    ensures { LawFetched }
{}
