//! What holds in each state of a run with a cache, each law the contract of a function.
ghost use Rattle.bc_looks.specs.Looks.{LawSlots, LawKeys, LawAges, LawLive};

/// A sector's keys are in the leaf of the tree whose range has it.
pub fn law_slots()
    ensures { LawSlots }
{}

/// A leaf's keys, with those that are pending, say of its sectors what the index says.
pub fn law_keys()
    ensures { LawKeys }
{}

/// A pointer in the index is at most 96 generations behind its bucket, and never before it.
pub fn law_ages()
    ensures { LawAges }
{}

/// A dirty pointer has the generation of its bucket, and a pointer that has it lies in a bucket of
/// the device.
pub fn law_live()
    ensures { LawLive }
{}
