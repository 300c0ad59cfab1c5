//! What the ring says of an entry on its way to the device, each law the contract of a function.
ghost use Rattle.bc_sealing.specs.Laws.{LawActs, LawPlaces, LawRead, LawRing, LawStage};

/// What beginning a bucket, sealing an entry and its being durable change of the journal's share.
pub fn law_acts()
    ensures { LawActs }
{}

/// The ring with a sealed entry in it is the machine's again, and it stays so once that is durable.
pub fn law_ring()
    ensures { LawRing }
{}

/// A bucket that is free by the ring may be begun, and a sealed entry is written where the ring put
/// it and fits there.
pub fn law_places()
    ensures { LawPlaces }
{}

/// Which entries a run began with, the cache device tells, whatever opening the run is seen from.
pub fn law_read()
    ensures { LawRead }
{}

/// While the journal isn't touched, a written entry stays written and a safe one safe; and one that
/// may be written may still be, unless it is written.
pub fn law_stage()
    ensures { LawStage }
{}
