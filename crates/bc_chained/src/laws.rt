//! What holds of a chain that an entry may name, each law the contract of a function.
ghost use Rattle.bc_chained.specs.Laws.{LawBehind, LawChain};

/// A chain whose sets stand in the buckets that a seat holds for it may be named by an entry.
pub fn law_chain()
    ensures { LawChain }
{}

/// A chain says the generations of all buckets: there is none behind the device's last one.
pub fn law_behind()
    ensures { LawBehind }
{}
