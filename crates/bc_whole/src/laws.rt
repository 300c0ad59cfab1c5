//! What holds of every run of the whole machine, each law the contract of a function.
ghost use Rattle.bc_whole.specs.Laws.{LawNow, LawCrash, LawRaise};
ghost use Rattle.bc_whole.specs.Example.{HasExample};
ghost use Rattle.bc_whole.specs.Uses.{HasAllActs};

/// Each answer's values are those of the last writes before it.
pub fn law_now()
    ensures { LawNow }
{}

/// Whatever a crash leaves of both devices reads as entries with a chain, shows allowed values, and
/// is a sound pair again.
///
/// The premise is that no torn record matches by chance.
pub fn law_crash()
    ensures { LawCrash }
{}

/// What may be raised is no metadata, in memory and in whatever a crash may leave.
pub fn law_raise()
    ensures { LawRaise }
{}

/// Runs exist that the laws speak of: a sound opening, and a run from it in which data is written
/// through the cache and durable, a forced write is acknowledged, a bucket is raised and another
/// chain is durable and ready, another root is durable over a leaf that gets a further set, and
/// which ends with a write that fails and a barrier that comes late. What a crash may leave of it
/// meets the premise of `law_crash`.
pub fn example_exists()
    ensures { HasExample }
{}

/// A sound opening and a run from it exist in which each kind of act is done.
pub fn each_act_exists()
    ensures { HasAllActs }
{}
