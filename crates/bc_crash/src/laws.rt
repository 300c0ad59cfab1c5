//! What a crash leaves at every state of every run.
ghost use Rattle.bc_crash.specs.Kept.{LawOpened, LawKept};
ghost use Rattle.bc_crash.specs.Laws.{LawCrash, LawClosed};
ghost use Rattle.bc_crash.specs.Next.{LawNext};
ghost use Rattle.bc_crash.specs.Teeth.{LawCloses};

/// A sound pair of devices meets the invariant.
pub fn law_opened()
    ensures { LawOpened }
{}

/// Each act that is enabled keeps the invariant, from any state that meets it and that on answers.
pub fn law_kept()
    ensures { LawKept }
{}

/// Whatever a crash leaves shows allowed values, and its devices agree where a key is live and
/// clean.
pub fn law_crash()
    ensures { LawCrash }
{}

/// After a closing each sector shows its last write, whatever a crash leaves.
pub fn law_closed()
    ensures { LawClosed }
{}

/// What a crash leaves is an opened pair again, and what it shows is allowed: so runs compose.
pub fn law_next()
    ensures { LawNext }
{}

/// There is a run that ends closed.
pub fn law_closes()
    ensures { LawCloses }
{}
