//! What holds of every run of the data machine, each law the contract of a function, and a run that
//! exists.
ghost use Rattle.bc_data.specs.Example.{LawRuns, LawPlain};
ghost use Rattle.bc_data.specs.Laws.{LawOpened, LawKept, LawNow, LawBooks};

/// A sound pair of devices meets the invariant.
pub fn law_opened()
    ensures { LawOpened }
{}

/// Each act that is enabled keeps the invariant, from any state that meets it.
pub fn law_kept()
    ensures { LawKept }
{}

/// Each answer's values are those of the last writes before it.
pub fn law_now()
    ensures { LawNow }
{}

/// Each event is at most some steps of the books, so that the books' laws hold of every run.
pub fn law_books()
    ensures { LawBooks }
{}

/// There is a run in which every act is done.
pub fn law_runs()
    ensures { LawRuns }
{}

/// There is one that uses the backing device alone.
pub fn law_plain()
    ensures { LawPlain }
{}
