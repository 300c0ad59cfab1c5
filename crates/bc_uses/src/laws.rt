//! What holds of every run: the law is the contract of a function.
ghost use Rattle.bc_uses.specs.Laws.{LawSpare, LawUses};

/// In each pair that a crash may leave no sector's pointer lies further behind its bucket than 96
/// generations, and none of a dirty key lies behind it at all; and each bucket has one use at most,
/// data among them, but for the uuid table's.
///
/// The premise is that no torn record matches by chance.
pub fn law_uses()
    ensures { LawUses }
{}

/// So many different buckets as a chain takes have no use in such a pair, not even as data; and what
/// the books know as superblock's, journal's or uuid table's has no other use.
pub fn law_spare()
    ensures { LawSpare }
{}
