//! How far the journal is durable: each law is the contract of a function.
ghost use Rattle.bc_flush.specs.Laws.{LawLasts, LawPut};

use bc_disk::disk::Disk;

/// Behind an entry that a seat put, all is durable that had come into the index before its first
/// deed.
pub fn law_put<C: Disk, B: Disk>()
    ensures { LawPut C.facts B.facts }
{}

/// What has come in stays, and what is durable stays so.
pub fn law_lasts()
    ensures { LawLasts }
{}
