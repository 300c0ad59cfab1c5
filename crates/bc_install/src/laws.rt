//! Each law is the contract of a function.
ghost use Rattle.bc_install.specs.Ended.{LawBuckets, LawLeaves, LawMay, LawTree};
ghost use Rattle.bc_install.specs.Ends.{LawEnds};
ghost use Rattle.bc_install.specs.Numbered.{LawChange};

/// What memory has of a planned change is the change as the core has it, from each opening.
pub fn law_change()
    ensures { LawChange }
{}

/// And the buckets that it has for what comes and goes are the change's ends.
pub fn law_ends()
    ensures { LawEnds }
{}

/// A change that was made by a new root may be installed.
pub fn law_may()
    ensures { LawMay }
{}

/// Behind that the tree in memory with the plan in it stands for the core's, and is at rest.
pub fn law_tree()
    ensures { LawTree }
{}

/// So do the leaves in memory without those that went.
pub fn law_leaves()
    ensures { LawLeaves }
{}

/// And so do the buckets, once those of new keys are touched, what came is made nodes, and what
/// went isn't any more.
pub fn law_buckets()
    ensures { LawBuckets }
{}
