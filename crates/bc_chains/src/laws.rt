//! What holds of sets of a chain, each law the contract of a function.
ghost use Rattle.bc_chains.specs.Laws.{LawMade, LawWrite};

/// A set may be written into a bucket that the seat holds for a chain, and is made then.
pub fn law_write()
    ensures { LawWrite }
{}

/// What was written there stays, while nobody changes the buckets or calls the cache device.
pub fn law_made()
    ensures { LawMade }
{}
