//! What others leave a seat: each law is the contract of a function.
ghost use Rattle.bc_holds.specs.Laws.{LawPinned, LawHeld, LawLater};

/// Whatever another seat does, a place that this one pinned is still its own, and the bucket has the
/// generation that it had.
pub fn law_pinned()
    ensures { LawPinned }
{}

/// A bucket that this seat holds is still held by it, for the same purpose.
pub fn law_held()
    ensures { LawHeld }
{}

/// No event takes back a raise or an insertion.
pub fn law_later()
    ensures { LawLater }
{}
