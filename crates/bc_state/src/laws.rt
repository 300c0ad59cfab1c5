//! What the state means to a pair: each law is the contract of a function.
ghost use Rattle.bc_state.specs.Laws.{LawFlags, LawState, LawUsable};

/// The flags say the state, and the mode that they said.
pub fn law_flags()
    ensures { LawFlags }
{}

/// A superblock that can be used can be used in each state that a device with a cache may have.
pub fn law_usable()
    ensures { LawUsable }
{}

/// A sound pair in another state is sound, and shows what it showed.
pub fn law_state()
    ensures { LawState }
{}
