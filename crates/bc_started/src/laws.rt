//! What a run that was started stands for: each law is the contract of a function.
ghost use Rattle.bc_started.specs.Laws.{LawOwn, LawStarted};
ghost use Rattle.bc_started.specs.Stored.{LawStored};

use bc_disk::disk::Disk;

/// A seat that has all numbers has seen just what it did itself.
pub fn law_own<C: Disk, B: Disk>()
    ensures { LawOwn C.facts B.facts }
{}

/// A run that was started over a sound pair, which both devices hold, is seen from a sound opening
/// of the core.
pub fn law_started<C: Disk, B: Disk>(_cache: &C, _backing: &B)
    ensures { LawStarted C.facts B.facts }
{}

/// Once such a run has ended, its entry stands on the cache device, which holds nothing else that is
/// new, and it was called three times.
pub fn law_stored<C: Disk, B: Disk>(_cache: &C, _backing: &B)
    ensures { LawStored C.facts B.facts }
{}
