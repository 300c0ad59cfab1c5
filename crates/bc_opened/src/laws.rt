//! What holds of every opening: the law is the contract of a function.
ghost use Rattle.bc_opened.specs.Laws.{LawOldKeys};

/// Each key that an opening has lies in data whole, and is of data that the backing device has.
pub fn law_old_keys()
    ensures { LawOldKeys }
{}
