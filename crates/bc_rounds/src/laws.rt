//! Each law is the contract of a function.
ghost use Rattle.bc_rounds.specs.Rounds.{LawBegun, LawDropped, LawEnded, LawWalked};
ghost use Rattle.bc_rounds.specs.Rows.{LawAlike, LawRow};
ghost use Rattle.bc_rounds.specs.Unseen.{LawUnseen};

/// Buckets in memory stand for the books as a round is open, once it was begun in them.
pub fn law_begun()
    ensures { LawBegun }
{}

/// They do once a leaf was walked behind those before it, and the walk has what the round has seen.
pub fn law_walked()
    ensures { LawWalked }
{}

/// They stand for the books behind a round that was given up.
pub fn law_dropped()
    ensures { LawDropped }
{}

/// Settled by what the walk found they stand for the books behind a round that ended.
pub fn law_ended()
    ensures { LawEnded }
{}

/// Once a row of a leaf was counted, the walk has found what the round saw, the row's sectors among
/// it: the marks of the buckets, and the oldest generations.
pub fn law_row()
    ensures { LawRow }
{}

/// It has that too where each sector pointed to the same.
pub fn law_alike()
    ensures { LawAlike }
{}

/// Buckets in memory go on to stand for the books where priorities, used sectors and durable
/// generations alone are others.
pub fn law_unseen()
    ensures { LawUnseen }
{}
