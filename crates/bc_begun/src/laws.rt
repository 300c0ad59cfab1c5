//! What a run begins with: each law is the contract of a function. One that speaks of a device says
//! it of what that held when the parts were read.
ghost use Rattle.bc_begun.specs.Laws.{LawBuckets, LawJournal, LawLeaves, LawOrigin, LawSpine};

use bc_disk::disk::Disk;

/// The tree in memory has just the machine's nodes, in their slots.
pub fn law_spine()
    ensures { LawSpine }
{}

/// Each bucket's record, and the lists, are the books'; no bucket is open.
pub fn law_buckets()
    ensures { LawBuckets }
{}

/// The journal's newest entry is the machine's, no keys wait, and the next entry goes where the
/// machine has it.
pub fn law_journal()
    ensures { LawJournal }
{}

/// Each leaf in memory says what the machine's leaf in its slot says, with the same keys pending; a
/// leaf that isn't in memory has none.
pub fn law_leaves<C: Disk>(_cache: &C)
    ensures { LawLeaves (C.facts _cache.now) }
{}

/// So there is a sound opening of the machine from which a run with these parts is seen, over the
/// pair that both devices hold.
pub fn law_origin<C: Disk, B: Disk>(_cache: &C, _backing: &B)
    ensures { LawOrigin C.facts B.facts }
{}
