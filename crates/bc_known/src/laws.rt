//! What holds of every run, each law the contract of a function.
ghost use Rattle.bc_known.specs.Collect.{LawCollect, LawHad};
ghost use Rattle.bc_known.specs.Workers.{LawWorkers};
ghost use Rattle.bc_known.specs.Laws.{LawWhole, LawNow, LawCrash, LawNext, LawRaise};

/// Each run is one of the whole machine.
pub fn law_whole()
    ensures { LawWhole }
{}

/// Each answer's values are those of the last writes before it.
pub fn law_now()
    ensures { LawNow }
{}

/// Whatever a crash leaves of both devices reads as entries with a chain, shows allowed values, and
/// is a sound pair again.
///
/// The premise is that no torn record matches by chance.
pub fn law_crash()
    ensures { LawCrash }
{}

/// Each such pair is sound again, and what it shows is allowed: so runs compose.
pub fn law_next()
    ensures { LawNext }
{}

/// What may be raised is no metadata, in memory and in whatever a crash may leave.
pub fn law_raise()
    ensures { LawRaise }
{}

/// After a round that nobody disturbed a bucket is reclaimable where no use forbids it, and nowhere
/// else.
pub fn law_collect()
    ensures { LawCollect }
{}

/// A bucket that could be had all the time of a round, and that nobody touched, may be raised at its
/// end, whatever others did meanwhile.
pub fn law_had()
    ensures { LawHad }
{}

/// Where the seats that a history names get other numbers, which tell them apart, it says the same:
/// it is legal as before, and allows the same after a crash.
pub fn law_workers()
    ensures { LawWorkers }
{}
