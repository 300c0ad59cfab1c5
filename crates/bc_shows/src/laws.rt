//! What a reader finds that has two images: each law is the contract of a function.
ghost use Rattle.bc_shows.specs.Events.{LawEvents};
ghost use Rattle.bc_shows.specs.Teeth.{NeedsOneBucket};
ghost use Rattle.bc_shows.specs.Laws.{LawKeys, LawShows, LawShown};

/// Each pair of images that a crash may leave has a reading. By it each sector has a value that the
/// run allows; the devices agree where a sector's key is live and clean; after a run that was
/// closed each sector has the value that it had last; and each key lies in data whole, as each did
/// that the opening had or that came in.
///
/// The premise is that no torn record matches by chance.
pub fn law_shows()
    ensures { LawShows }
{}

/// So whatever is seen as the view of such a pair shows each sector with a value that the run
/// allows.
pub fn law_shown()
    ensures { LawShown }
{}

/// The same of runs of events, and by the history that names workers.
pub fn law_events()
    ensures { LawEvents }
{}

/// Each key that is read of what a crash leaves was the opening's, or came in with an act of the
/// run.
pub fn law_keys()
    ensures { LawKeys }
{}

/// That a key lies in one bucket is needed: there is one that doesn't, of which a reader shows what
/// lies in the second bucket, while the machine knows that this was given up.
pub fn law_teeth_bucket()
    ensures { NeedsOneBucket }
{}
