//! Conditions that can't be left out: for each a run, and a step that some of what a crash may
//! leave would read wrongly without it, so that the records refuse it.
ghost use Rattle.bc_leaves_runs.specs.Teeth.{LawTeethSeal, LawTeethDurable, LawTeethStable};
ghost use Rattle.bc_leaves_runs.specs.Teeth.{LawTeethInstall, LawTeethLost, LawTeethRoot};

/// Where an entry gives up one that holds a key since a leaf's last set, the key is lost.
pub fn law_teeth_seal()
    ensures { LawTeethSeal }
{}

/// Where a leaf's further set has a key that isn't durable, a crash may find a key that the index
/// lacks.
pub fn law_teeth_durable()
    ensures { LawTeethDurable }
{}

/// Where a parent's set names a leaf whose first set isn't stable, a crash may find the one without
/// the other.
pub fn law_teeth_stable()
    ensures { LawTeethStable }
{}

/// Where a change is installed before the parent's set is stable, a crash may find the old tree in
/// buckets that were given up.
pub fn law_teeth_install()
    ensures { LawTeethInstall }
{}

/// So it may where the write of that set failed, whatever barrier was made since.
pub fn law_teeth_lost()
    ensures { LawTeethLost }
{}

/// And so it may where the entry of a new root isn't durable yet.
pub fn law_teeth_root()
    ensures { LawTeethRoot }
{}
