//! What a seat goes on to know of the new nodes that it wrote: each law is the contract of a function.
ghost use Rattle.bc_drafts.specs.Laws.{LawDrafts, LawStill};

/// While nobody changes the tree, a new node that nothing names yet stays as it was written.
pub fn law_still()
    ensures { LawStill }
{}

/// A barrier of the cache device makes new nodes stable, so that a change may name them.
pub fn law_drafts()
    ensures { LawDrafts }
{}
