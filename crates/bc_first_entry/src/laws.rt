//! What an opening's entry is to a run: each law is the contract of a function.
ghost use Rattle.bc_first_entry.specs.Laws.{LawEnters, LawFirst, LawStopped, LawQuiet};

/// From each sound opening the machine seals and writes an entry without keys, whatever oldest entry
/// it still needs, where it has a place in the ring.
pub fn law_enters()
    ensures { LawEnters }
{}

/// From each sound opening an entry without keys is sealed, written and made durable, where it has
/// a place in the ring.
pub fn law_first()
    ensures { LawFirst }
{}

/// So it is wherever one of its calls fails.
pub fn law_stopped()
    ensures { LawStopped }
{}

/// Nothing of it is in the history.
pub fn law_quiet()
    ensures { LawQuiet }
{}
