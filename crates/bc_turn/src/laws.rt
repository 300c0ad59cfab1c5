//! What the leaves of a part wait for: each law is the contract of a function.
ghost use Rattle.bc_turn.specs.Laws.{LawAll, LawKnown, LawLasts, LawTold};
ghost use Rattle.bc_turn.specs.Needed.{LawNeeded};

use bc_disk::disk::Disk;

/// A part in memory tells what its leaves wait for, and what none of them waits for none ever will.
pub fn law_part()
    ensures told { LawTold }
    ensures lasts { LawLasts }
{}

/// What is known of each part is known of all leaves.
pub fn law_all()
    ensures { LawAll }
{}

/// A journal that needs less goes on to stand for the run's.
pub fn law_needed<C: Disk, B: Disk>(_cache: &C, _backing: &B)
    ensures { LawNeeded C.facts B.facts }
{}

/// A seat goes on to know it.
pub fn law_known<C: Disk, B: Disk>(_cache: &C, _backing: &B)
    ensures { LawKnown C.facts B.facts }
{}
