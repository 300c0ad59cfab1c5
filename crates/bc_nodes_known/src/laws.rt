//! What holds of nodes in each state of a run with a cache, each law the contract of a function.
ghost use Rattle.bc_nodes_known.specs.Nodes.{LawOwn, LawStill, LawAppend, LawAppendParent, LawSaid, LawNodes, LawListed, LawUnnamed, LawDraft, LawBarrier, LawVacant, LawRoot, LawBare, LawRegroup, LawInstall};

/// Of each node that wasn't read from the device, the core has its number and the place behind its
/// sets.
pub fn law_own()
    ensures { LawOwn }
{}

/// No set of a leaf is under way while it has pending keys, all of them durable; nor one of an inner
/// node, but that which makes a change.
pub fn law_still()
    ensures { LawStill }
{}

/// The set of what is pending may go behind the sets of a leaf in memory that this run wrote, at the
/// place that memory has.
pub fn law_append()
    ensures { LawAppend }
{}

/// So may a set behind those of an inner node.
pub fn law_append_parent()
    ensures { LawAppendParent }
{}

/// What a leaf in memory says is what the leaves that take its place have to say.
pub fn law_said()
    ensures { LawSaid }
{}

/// The bucket of each node of the tree is known as a node's, so that nobody holds it.
pub fn law_nodes()
    ensures { LawNodes }
{}

/// No node lies in a bucket that is on a list.
pub fn law_listed()
    ensures { LawListed }
{}

/// No chain is in a bucket that is held for something else.
pub fn law_unnamed()
    ensures { LawUnnamed }
{}

/// While nobody changes the tree, a new leaf that nothing names yet stays as it was written.
pub fn law_draft()
    ensures { LawDraft }
{}

/// A barrier makes stable what was written.
pub fn law_barrier()
    ensures { LawBarrier }
{}

/// While nobody changes the tree, no node comes to lie in a bucket where none did.
pub fn law_vacant()
    ensures { LawVacant }
{}

/// While nobody changes the tree, entries name the new root from the one on that was sealed with it.
pub fn law_root()
    ensures { LawRoot }
{}

/// A leaf that nothing names yet has nothing pending, nor has one that comes.
pub fn law_bare()
    ensures { LawBare }
{}

/// Where the leaves of a change are all of a range, an install of it may do to the index what it does.
pub fn law_regroup()
    ensures { LawRegroup }
{}

/// Who holds the buckets of what comes may install a change that is made.
pub fn law_install()
    ensures { LawInstall }
{}
