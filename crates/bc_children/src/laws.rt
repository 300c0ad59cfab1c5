//! Each law is the contract of a function.
ghost use Rattle.bc_children.specs.Children.{LawInside, LawTree};

/// Each node of a tree lies in the bucket that its place names.
pub fn law_tree()
    ensures { LawTree }
{}

/// So does whatever lies in one of the core's buckets.
pub fn law_inside()
    ensures { LawInside }
{}
