//! What holds in each state of a run, each law the contract of a function.
ghost use Rattle.bc_always.specs.Crash.{LawClosed, LawClean, LawCleanInMemory, LawClosesClean};
ghost use Rattle.bc_always.specs.Raise.{LawRaised, LawRefused, LawDirty};
ghost use Rattle.bc_always.specs.Claims.{LawClaims, LawApart, LawAlone, LawTwoSeats};
ghost use Rattle.bc_always.specs.Entries.{LawCut, LawTeethDropped, LawTeethEarly};

/// After a closing whatever a crash leaves shows each sector's last write.
///
/// The premise is that no torn record matches by chance.
pub fn law_closed()
    ensures { LawClosed }
{}

/// After a closing, where a reader finds no live dirty key, the backing device alone has the last
/// writes.
pub fn law_clean()
    ensures { LawClean }
{}

/// So it has where no key in memory is dirty.
pub fn law_clean_in_memory()
    ensures { LawCleanInMemory }
{}

/// There is a run that ends so, with keys.
pub fn law_closes_clean()
    ensures { LawClosesClean }
{}

/// What may be raised has no dirty key, in memory or in what was sealed since the durable entry,
/// and no metadata.
pub fn law_raised()
    ensures { LawRaised }
{}

/// No seat may raise a bucket into which a live dirty key points.
pub fn law_refused()
    ensures { LawRefused }
{}

/// There is such a bucket, of which nothing but its mark forbids that it is raised.
pub fn law_dirty()
    ensures { LawDirty }
{}

/// A claim that may be made conflicts with no other seat's.
pub fn law_claims()
    ensures { LawClaims }
{}

/// No two seats have claims that conflict.
pub fn law_apart()
    ensures { LawApart }
{}

/// What a seat writes for a line, or tries to, is of sectors on which no other has a claim.
pub fn law_alone()
    ensures { LawAlone }
{}

/// A second seat's claim waits until the first one's, which is exclusive, is released.
pub fn law_two_seats()
    ensures { LawTwoSeats }
{}

/// A write that is cut before its entry shows what was there before it, and behind its entry
/// itself.
pub fn law_cut()
    ensures { LawCut }
{}

/// A reader that passes over the last entry loses what a flush covers.
pub fn law_teeth_dropped()
    ensures { LawTeethDropped }
{}

/// A reader that finds an entry before a barrier came behind its seal shows what the sector never
/// was since the flush.
pub fn law_teeth_early()
    ensures { LawTeethEarly }
{}
