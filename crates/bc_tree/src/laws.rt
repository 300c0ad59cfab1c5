//! What the definitions come to: each law is the contract of a function.
ghost use Rattle.bc_tree.specs.Laws.{MergeIsFew, ReadIsProper, RewriteIsFew, SplitIsFew};

/// A change takes at most 5 buckets for the tree and at most 4 for what moves: no more than are
/// kept for either.
pub fn a_change_takes_few_buckets()
    ensures rewrite { RewriteIsFew }
    ensures split { SplitIsFew }
    ensures merge { MergeIsFew }
{}

/// An inner node that was read from a device may stand in a tree: its children have pointers, and
/// fit in one set, since they stood in sets that fit in the node.
pub fn a_node_that_was_read_is_proper()
    ensures { ReadIsProper }
{}
