//! What a seat goes on to know of a change that a set makes, each law the contract of a function.
ghost use Rattle.bc_parent_set.specs.Laws.{LawBySet, LawStays};

/// The root stays the one that entries name until a change of the tree names another.
pub fn law_stays()
    ensures { LawStays }
{}

/// A change that a set makes stays under way, and made, while nobody else changes the tree; and a
/// barrier of the cache device makes it.
pub fn law_by_set()
    ensures { LawBySet }
{}
