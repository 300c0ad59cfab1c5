//! What the counts come to: each law is the contract of a function.
ghost use Rattle.bc_counts.specs.Laws.{LawDirty, LawLive};

/// Where rows are counted that are live in a bucket, or that are dirty too, the sectors are counted
/// whose last key is.
pub fn rows_count()
    ensures live { LawLive }
    ensures dirty { LawDirty }
{}
