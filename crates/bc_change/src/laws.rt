//! What holds of a change that is ready to be made, each law the contract of a function.
ghost use Rattle.bc_change.specs.Laws.{LawBegin, LawByRoot, LawReady};

/// A change whose new nodes stand on the device, and say what those say that go, may begin.
pub fn law_begin()
    ensures { LawBegin }
{}

/// While a seat has the spine in hand, the new nodes of its plan stay ready, whatever others do.
pub fn law_ready()
    ensures { LawReady }
{}

/// A change that is under way stays so while nobody else changes the tree: what leaves and what
/// comes, and which root entries name.
pub fn law_by_root()
    ensures { LawByRoot }
{}
