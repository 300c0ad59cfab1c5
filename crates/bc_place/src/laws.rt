//! What a seat goes on to know of its places: each law is the contract of a function.
ghost use Rattle.bc_place.specs.Laws.{LawBefore, LawNamed, LawOwn, LawOwnKept, LawSaid, LawWritten, LawWrittenKept};

/// A place that a seat pinned stays its own while others act, and what it wrote there is still that.
pub fn law_others()
    ensures own { LawOwn }
    ensures written { LawWritten }
{}

/// So it is while the seat itself leaves its places alone.
pub fn law_itself()
    ensures own { LawOwnKept }
    ensures written { LawWrittenKept }
{}

/// The buckets that the core doesn't count are those before the journal.
pub fn law_before()
    ensures { LawBefore }
{}

/// Keys that name places of a seat make of the buckets what `name_places` does, and say of each
/// sector the same to the leaf as to the books.
pub fn law_named()
    ensures buckets { LawNamed }
    ensures said { LawSaid }
{}
