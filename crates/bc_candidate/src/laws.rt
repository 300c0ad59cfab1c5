//! What a seat may note as a candidate, and what holds of each that stands: each law is the
//! contract of a function.
ghost use Rattle.bc_candidate.specs.Laws.{LawKept, LawRead, LawThrough};

use bc_disk::disk::Disk;

/// The places of a candidate that stands are its own.
pub fn law_kept()
    ensures { LawKept }
{}

/// What a seat read from the backing device under its shared claim, where that device has what is
/// shown, may be kept as a candidate; and so may what it wrote around the cache.
pub fn law_keepable<C: Disk, B: Disk>()
    ensures read { LawRead C.facts B.facts }
    ensures through { LawThrough C.facts B.facts }
{}
