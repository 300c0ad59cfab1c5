//! What holds of every run: each law is the contract of a function.
ghost use Rattle.bc_sound.specs.Events.{LawEvents};
ghost use Rattle.bc_sound.specs.Laws.{LawSound};
ghost use Rattle.bc_sound.specs.Still.{LawStill};
ghost use Rattle.bc_sound.specs.Teeth.{NeedsSectors};

/// In front of the buckets of a cache device, and in the bucket of the uuid table, a crash leaves
/// what was there at the opening.
pub fn law_still()
    ensures { LawStill }
{}

/// Whatever a crash leaves of a pair, behind any run from an opening of a sound one, is a sound
/// pair again, but for the number of its newest entry: with the superblocks that the pair had, a
/// reading, and by that each part of soundness.
///
/// The premises are that no torn record matches by chance, and that what the run brings is well
/// made, each key and each node by itself (`bc_ranges`).
pub fn law_sound()
    ensures { LawSound }
{}

/// The same of runs of events.
pub fn law_events()
    ensures { LawEvents }
{}

/// That a key of data has a sector is needed: one without any lies outside of a leaf into which the
/// machine lets it.
pub fn law_teeth_sectors()
    ensures { NeedsSectors }
{}
