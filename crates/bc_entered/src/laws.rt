//! What is left of a pair that is being opened: each law is the contract of a function.
ghost use Rattle.bc_entered.specs.Laws.{LawEntered, LawLeft, LawNext};

/// However much of an opening's entry stands in the journal, the pair is sound and shows what it
/// showed. The premise is that no torn entry is read as a whole one by chance.
pub fn law_entered()
    ensures { LawEntered }
{}

/// So it is, whatever of the two states of its cache the backing device says.
pub fn law_left()
    ensures { LawLeft }
{}

/// The entry that `bc_enter::next_entry` seals behind a journal that was read is one of which the
/// others speak, under their premise.
pub fn law_next()
    ensures { LawNext }
{}
