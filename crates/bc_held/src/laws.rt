//! What a seat goes on to know of the buckets that it holds: each law is the contract of a function.
ghost use Rattle.bc_held.specs.Laws.{LawHeld, LawHeldKept, LawVacant};

/// A bucket that a seat holds stays its own while others act, and no place of it is pinned.
pub fn law_others()
    ensures { LawHeld }
{}

/// So it is while the seat itself leaves it alone.
pub fn law_itself()
    ensures { LawHeldKept }
{}

/// No node comes to lie in it while nobody changes the tree.
pub fn law_vacant()
    ensures { LawVacant }
{}
