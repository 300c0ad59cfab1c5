//! What a run that serves lines finds of a sound pair: each law is the contract of a function.
ghost use Rattle.bc_sound_reads.specs.Laws.{LawNotRefused};

use bc_disk::disk::Disk;

/// Over a sound pair no line finds a damaged node, and the run stops at a line for a busy part
/// alone, as long as no torn record matched by chance.
pub fn law_not_refused<C: Disk, B: Disk>(_cache: &C, _backing: &B)
    ensures { LawNotRefused C.facts B.facts }
{}
