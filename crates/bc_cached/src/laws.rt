//! What a run that begins is seen from: each law is the contract of a function.
ghost use Rattle.bc_cached.specs.Laws.{LawFit, LawSeen};

use bc_disk::disk::Disk;

/// The lists that an opening makes are of the buckets that it knows: none that is listed is held.
pub fn law_fit()
    ensures { LawFit }
{}

/// A run that begins with what was read of a sound pair, which both devices hold, is seen from a
/// sound opening of the core.
pub fn law_seen<C: Disk, B: Disk>(_cache: &C, _backing: &B)
    ensures { LawSeen C.facts B.facts }
{}
