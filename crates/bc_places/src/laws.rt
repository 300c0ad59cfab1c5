//! What open buckets and lists stand for: each law is the contract of a function.
ghost use Rattle.bc_places.specs.Example.{LawExample};
ghost use Rattle.bc_places.specs.Laws.{LawBegins, LawSteps, LawPlaces, LawRefused, LawKept};

/// At an opening no bucket is open, and the lists are those that were found.
pub fn law_begins()
    ensures { LawBegins }
{}

/// A place that is given is a bucket taken for data, if none was open, a run of fresh places that
/// is pinned, and a bucket that is shut, if that filled it: the books allow these steps, and what
/// they leave is what the open buckets and the lists stand for then.
pub fn law_steps()
    ensures { LawSteps }
{}

/// So it is with events of the core, in each state of a run from a sound opening that nothing has
/// halted.
pub fn law_places()
    ensures { LawPlaces }
{}

/// Where no place is given, no bucket is open to the core, and none may be taken for data.
pub fn law_refused()
    ensures { LawRefused }
{}

/// An event that doesn't touch the buckets' share of the state leaves what they stand for.
pub fn law_kept()
    ensures { LawKept }
{}

/// A bucket of two sectors is opened, filled by two places, and shut.
pub fn law_example()
    ensures { LawExample }
{}
