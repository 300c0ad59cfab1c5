//! What holds of openings of sound pairs: each law is the contract of a function.
ghost use Rattle.bc_opening.specs.Cut.{LawCut};
ghost use Rattle.bc_opening.specs.Laws.{HasExample, LawChoices, LawOne, LawOpening};
ghost use Rattle.bc_opening.specs.Nodes.{LawNodes};
ghost use Rattle.bc_opening.specs.Ring.{LawRing};

/// Each sound pair with a cache is opened, whatever of that which is free is chosen; and what is
/// then held is a sound opening of the machine.
pub fn law_opening()
    ensures { LawOpening }
{}

/// In one way: whatever a run asks of two openings of one pair by the same choices, they answer
/// alike. So a program whose parts are those that were read and chosen stands for just this one.
pub fn law_one()
    ensures { LawOne }
{}

/// There always is something to choose, so each sound pair with a cache is opened.
pub fn law_choices()
    ensures { LawChoices }
{}

/// The small pair that was made anew, byte by byte, is opened so.
pub fn example()
    ensures { HasExample }
{}

/// What a leaf gets back may be all keys of the entries from the oldest one on that is needed, each
/// cut to the leaf's range, with the number of its entry.
pub fn law_cut()
    ensures { LawCut }
{}

/// Of a journal bucket the machine knows entries that a reader finds there, and no other one.
pub fn law_ring()
    ensures { LawRing }
{}

/// Each node that was read is one of the machine's, with the sets that were read.
pub fn law_nodes()
    ensures { LawNodes }
{}
