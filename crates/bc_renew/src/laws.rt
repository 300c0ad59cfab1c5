//! What holds of buckets that are raised and made ready, each law the contract of a function.
ghost use Rattle.bc_renew.specs.Laws.{LawGo, LawRaise, LawReady};

/// A bucket that the containers would give up may be raised, and they stand for the state behind
/// it.
pub fn law_raise()
    ensures { LawRaise }
{}

/// Where a durable entry names the next chain, neither it nor the chain in hand is on a list, and
/// both may go where they belong.
pub fn law_go()
    ensures { LawGo }
{}

/// What a durable entry with a new chain allows may be made ready, and the containers stand for the
/// state behind it.
pub fn law_ready()
    ensures { LawReady }
{}
