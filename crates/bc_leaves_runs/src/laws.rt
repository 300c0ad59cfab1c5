//! What the definitions come to: each law is the contract of a function.
ghost use Rattle.bc_leaves_runs.specs.Reopen.{LawReplays, LawReopen, LawNextParts};
ghost use Rattle.bc_leaves_runs.specs.Example.{HasExample};

/// A leaf of any range has pending keys that say there what the keys of the entries say.
pub fn law_replays()
    ensures { LawReplays }
{}

/// Read with either entry that a crash may find, whatever the nodes read as: the leaves and inner
/// nodes of its tree, with the keys of the entries as pending, fit again.
pub fn law_reopen()
    ensures { LawReopen }
{}

/// So runs compose: each image that a crash may leave is a sound opening whose parts fit.
pub fn law_next_parts()
    ensures { LawNextParts }
{}

/// There are readable records that parts fit, and runs: a commit, a split under a new root, a
/// further set, a rewrite in the bucket that was given up, a merge, and a root above the root.
pub fn example_exists()
    ensures { HasExample }
{}
