//! What holds of every run of the books, each law the contract of a function, and runs that exist.
ghost use Rattle.bc_books.specs.Laws.{LawOpened, LawKept, LawRaise, LawWindow, LawPlace, LawStays, LawApart, LawUses};
ghost use Rattle.bc_books.specs.Example.{LawRuns};

/// The opening of a sound pair meets the invariant.
pub fn law_opened()
    ensures { LawOpened }
{}

/// Each step that is enabled keeps the invariant, from any state that meets it.
pub fn law_kept()
    ensures { LawKept }
{}

/// What may be raised has no dirty data in memory or in any index that a crash may leave, and is no
/// bucket of superblock, journal or uuid table, of a node, or of a priority chain.
pub fn law_raise()
    ensures { LawRaise }
{}

/// Each pointer is 0 to 96 generations behind its bucket, in memory and in whatever a crash may
/// leave, a dirty one is live, and the tests on bytes are the tests that are meant.
pub fn law_window()
    ensures { LawWindow }
{}

/// A place that a pin stands on has its bucket's memory generation in whatever a crash may leave,
/// and no live key names it.
pub fn law_place()
    ensures { LawPlace }
{}

/// Later states have the keys that came in and the durable generations of earlier ones, and nobody
/// may write where a key points that is live anywhere: so what a key points to stays what it was.
pub fn law_stays()
    ensures { LawStays }
{}

/// Buckets of superblock, journal and uuid table, of nodes that stand or may come to stand, and of
/// chains that a crash may leave aren't raised, on a list, open or pinned, and no live key points
/// there.
pub fn law_apart()
    ensures { LawApart }
{}

/// The uses of a bucket rise by one at its raise, and never otherwise.
pub fn law_uses()
    ensures { LawUses }
{}

/// There is a run in which each step is taken.
pub fn law_runs()
    ensures { LawRuns }
{}
