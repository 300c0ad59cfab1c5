//! What is read stands for what is shown.
ghost use Rattle.bc_reads.specs.Laws.{LawBacking, LawClean, LawPoints, LawStill};

/// A sector that is read from the backing device is one that that device has.
pub fn law_backing()
    ensures { LawBacking }
{}

/// A sector that is read from the cache device and isn't dirty is one that the backing device has.
pub fn law_clean()
    ensures { LawClean }
{}

/// A run that is read from the cache device is one of neighbouring places to which the leaf's keys
/// point, which a read of them asks for.
pub fn law_points()
    ensures { LawPoints }
{}

/// A sector that is read from the cache device may be answered as long as its bucket wasn't used
/// anew since.
pub fn law_still()
    ensures { LawStill }
{}
