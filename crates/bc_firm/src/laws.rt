//! What makes candidates firm, and that they stay so: each law is the contract of a function.
ghost use Rattle.bc_firm.specs.Laws.{LawBarrier, LawBehind, LawCount, LawInside, LawKept, LawLasts};

use bc_disk::disk::Disk;

/// Candidates that are firm stay so, whatever happens, and a barrier of the backing device makes
/// those firm that were noted before it.
pub fn law_lasts()
    ensures lasts { LawLasts }
    ensures barrier { LawBarrier }
{}

/// The number of the next candidate is how many were noted.
pub fn law_count()
    ensures { LawCount }
{}

/// A candidate that stands has sectors of the backing device alone.
pub fn law_inside()
    ensures { LawInside }
{}

/// They stay firm for a seat, and behind its own barrier of the backing device, as in a flush, all
/// are firm that had been noted before.
pub fn law_behind<C: Disk, B: Disk>()
    ensures kept { LawKept C.facts B.facts }
    ensures behind { LawBehind C.facts B.facts }
{}
