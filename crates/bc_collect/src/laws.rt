//! What holds of every run of the books about collection and room, each law the contract of a
//! function, and runs that exist.
ghost use Rattle.bc_collect.specs.Collect.{LawCollect, LawHad};
ghost use Rattle.bc_collect.specs.Spare.{LawSpare, LawReserve};
ghost use Rattle.bc_collect.specs.Next.{LawNext, LawListed};
ghost use Rattle.bc_collect.specs.Example.{LawCollects, LawRoomy};

/// After a round that nobody disturbed a bucket is reclaimable where no use forbids it, and nowhere
/// else.
pub fn law_collect()
    ensures { LawCollect }
{}

/// A bucket that could be had all the time of a round, and that nobody touched, may be raised at
/// its end.
pub fn law_had()
    ensures { LawHad }
{}

/// Whatever a crash leaves has as many buckets without use as the next chain asks for.
pub fn law_spare()
    ensures { LawSpare }
{}

/// Where the list priorities refuses a bucket only when it has enough, as many buckets as a chain
/// asks for are on it or held for a chain: so a next chain can always be written.
pub fn law_reserve()
    ensures { LawReserve }
{}

/// What a crash leaves is a sound opening again, whatever nodes its tree has and however its lists
/// are filled from buckets without use: so runs compose.
pub fn law_next()
    ensures { LawNext }
{}

/// And they can be filled so that the list priorities has as many buckets as a chain asks for.
pub fn law_listed()
    ensures { LawListed }
{}

/// There is a round that the laws on collection speak of.
pub fn law_collects()
    ensures { LawCollects }
{}

/// There is a run of all steps in which the list priorities has room for what goes back to it.
pub fn law_roomy()
    ensures { LawRoomy }
{}
