//! What a seat goes on to know of the journal: each law is the contract of a function.
ghost use Rattle.bc_append.specs.Durable.{LawKnown, LawLasts, LawTold};

use bc_disk::disk::Disk;

/// An entry that is durable stays so, and a journal in memory tells which are.
pub fn law_durable()
    ensures lasts { LawLasts }
    ensures told { LawTold }
{}

/// A seat that knows it goes on to know it.
pub fn law_known<C: Disk, B: Disk>(_cache: &C, _backing: &B)
    ensures { LawKnown C.facts B.facts }
{}
