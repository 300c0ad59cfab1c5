//! What holds of every run, each law the contract of a function.
ghost use Rattle.bc_events.specs.Collect.{LawCollect, LawHad};
ghost use Rattle.bc_events.specs.Example.{LawPlainRuns, LawPlainTooth};
ghost use Rattle.bc_events.specs.Keys.{LawKeys};
ghost use Rattle.bc_events.specs.Laws.{LawMachine, LawFirstWrite};
ghost use Rattle.bc_events.specs.Laws.{LawNow, LawCrash, LawRaise, LawNext, LawWorkers};
ghost use Rattle.bc_events.specs.Laws.{LawPlainNow, LawPlainCrash, LawPlainStable, LawPlainCache};

/// Each run is one of the machine: each event is some acts of it.
pub fn law_machine()
    ensures { LawMachine }
{}

/// The values of a new node, a set and zeros over the rest, are a write of that set.
pub fn law_first_write()
    ensures { LawFirstWrite }
{}

/// Each answer's values are those of the last writes before it.
pub fn law_now()
    ensures { LawNow }
{}

/// Whatever a crash leaves of both devices reads as entries with a chain, shows allowed values, and
/// is a sound pair again.
///
/// The premise is that no torn record matches by chance.
pub fn law_crash()
    ensures { LawCrash }
{}

/// What may be raised is no metadata, in memory and in whatever a crash may leave.
pub fn law_raise()
    ensures { LawRaise }
{}

/// Each such pair is sound again, and what it shows is allowed: so runs compose.
pub fn law_next()
    ensures { LawNext }
{}

/// After a round that nobody disturbed a bucket is reclaimable where no use forbids it, and nowhere
/// else.
pub fn law_collect()
    ensures { LawCollect }
{}

/// A bucket that could be had all the time of a round, and that nobody touched, may be raised at
/// its
/// end, whatever others did meanwhile.
pub fn law_had()
    ensures { LawHad }
{}

/// The history by workers says what the history by seats says.
pub fn law_workers()
    ensures { LawWorkers }
{}

/// Over the backing device alone each answer's values are those of the last writes before it.
pub fn law_plain_now()
    ensures { LawPlainNow }
{}

/// What a crash leaves of it is allowed, sector by sector.
pub fn law_plain_crash()
    ensures { LawPlainCrash }
{}

/// Behind a good barrier, where no call halted the run, it is what was written last.
pub fn law_plain_stable()
    ensures { LawPlainStable }
{}

/// And the cache device is as it was.
pub fn law_plain_cache()
    ensures { LawPlainCache }
{}

/// There is a plain run: a forced write that is acknowledged, and a flush.
pub fn law_plain_runs()
    ensures { LawPlainRuns }
{}

/// Without its barrier the write isn't acknowledged.
pub fn law_plain_tooth()
    ensures { LawPlainTooth }
{}

/// Keys with the bytes of generations and keys with versions say the same of each sector, where the
/// bytes are read as the greatest versions that have them.
pub fn law_keys()
    ensures { LawKeys }
{}
