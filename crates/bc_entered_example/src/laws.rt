//! What meets the premises on an opening's entry: each law is the contract of a function.
ghost use Rattle.bc_entered_example.specs.Laws.{HasEntered, HasHeld, HasReady, LawReady, LawTears};

/// Whatever a crash leaves of an opening's entry on a pair that was made anew, no entry is read but
/// the one that was there and the new one.
pub fn law_tears()
    ensures { LawTears }
{}

/// Each opening's entry over what was read of a sound pair can be the first one of a run, by
/// whatever workers: the pair is opened so that the entry may be sealed and written.
pub fn law_ready()
    ensures { LawReady }
{}

/// There is a device that holds a sound pair, a journal that was read of it, and an entry that
/// comes next, with its bytes, of which no part is torn by chance: what `bc_entered::enter` rests
/// on.
pub fn held_exists()
    ensures { HasHeld }
{}

/// There is such an entry behind the last one and at the front of another bucket, and a pair that a
/// crash left of its writing.
pub fn entered_exists()
    ensures { HasEntered }
{}

/// There is a machine that is ready for it, in either place.
pub fn ready_exists()
    ensures { HasReady }
{}
