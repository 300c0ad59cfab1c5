//! What a run over a pair that was opened stands for: each law is the contract of a function.
ghost use Rattle.bc_session.specs.Laws.{LawRests, LawSession};

use bc_disk::disk::Disk;

/// A run over a sound pair that was opened is seen from a sound opening of the core.
pub fn law_session<C: Disk, B: Disk>(_cache: &C, _backing: &B)
    ensures { LawSession C.facts B.facts }
{}

/// Wherever its devices stop before the run does more than put its first entry, they leave a sound
/// pair that shows what the pair showed.
pub fn law_rests<C: Disk, B: Disk>(_cache: &C, _backing: &B)
    ensures { LawRests C.facts B.facts }
{}
