//! Conditions that can't be left out: for each a run after which a law is broken without it.
ghost use Rattle.bc_books.specs.Teeth.{LawTeethMark, LawTeethFirm, LawTeethWalked, LawTeethTouched, LawTeethReady, LawTeethPin, LawTeethPurpose, LawTeethChain, LawTeethPut, LawTeethVersion, LawTeethNear};

/// Where a raise doesn't ask for the mark, live dirty data is lost.
pub fn law_teeth_mark()
    ensures { LawTeethMark }
{}

/// Where a round ends before the journal is durable up to what it saw, a crash may leave dirty data
/// in a bucket that may be raised.
pub fn law_teeth_firm()
    ensures { LawTeethFirm }
{}

/// Where a round ends before each leaf was walked, live dirty data is in a bucket that may be
/// raised.
pub fn law_teeth_walked()
    ensures { LawTeethWalked }
{}

/// Where a round lowers the mark of a bucket that a key touched behind the walk, live dirty data is
/// in a bucket that may be raised.
pub fn law_teeth_touched()
    ensures { LawTeethTouched }
{}

/// Where a raised bucket is taken before its generation is durable, a seat writes where a live key
/// of a crash points.
pub fn law_teeth_ready()
    ensures { LawTeethReady }
{}

/// Where a place is pinned twice, a seat writes where a live key points.
pub fn law_teeth_pin()
    ensures { LawTeethPin }
{}

/// Where data goes into a bucket that is held for a chain, a seat writes where a crash may find the
/// chain.
pub fn law_teeth_purpose()
    ensures { LawTeethPurpose }
{}

/// Where a chain is made ready before its entry is durable, a bucket of the chain that a crash
/// finds is on a list.
pub fn law_teeth_chain()
    ensures { LawTeethChain }
{}

/// Where a raise doesn't ask how far the oldest key is behind, a pointer leaves the window.
pub fn law_teeth_near()
    ensures { LawTeethNear }
{}

/// Where a key points to a place that isn't pinned, a chain is written over live dirty data.
pub fn law_teeth_put()
    ensures { LawTeethPut }
{}

/// Where a key has another version than its bucket's, what was written is stale at once.
pub fn law_teeth_version()
    ensures { LawTeethVersion }
{}
