//! Conditions that can't be left out: for each a run after which a crash leaves what is wrong
//! without it.
ghost use Rattle.bc_crash.specs.Teeth.{LawTeethClean, LawTeethBypass, LawTeethFlush, LawTeethEntry};

/// Where keys become clean before a barrier came behind the copies, a crash leaves a live clean key
/// and a backing device without its value.
pub fn law_teeth_clean()
    ensures { LawTeethClean }
{}

/// Where a write goes around the cache before its drop is durable, a crash leaves a live clean key
/// with an old value.
pub fn law_teeth_bypass()
    ensures { LawTeethBypass }
{}

/// Where an entry is taken as durable before a barrier came behind what its keys point to, a crash
/// shows the value before a write that a flush covers.
pub fn law_teeth_entry()
    ensures { LawTeethEntry }
{}

/// Where a flush ends with a barrier of the backing device alone, a crash shows the value before a
/// write that it covers.
pub fn law_teeth_flush()
    ensures { LawTeethFlush }
{}
