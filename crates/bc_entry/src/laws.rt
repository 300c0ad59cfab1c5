//! What the first seat of a run knows as the run begins: each law is the contract of a function.
ghost use Rattle.bc_entry.specs.Laws.{LawAlone, LawNeeds};

use bc_disk::disk::Disk;

/// Nothing happens while a seat waits that has all numbers of its run.
pub fn law_alone<C: Disk, B: Disk>()
    ensures { LawAlone C.facts B.facts }
{}

/// No leaf waits for a key of an older entry than the leaves in memory do with which the run began.
pub fn law_needs()
    ensures { LawNeeds }
{}
