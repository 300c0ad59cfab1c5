//! What holds of runs on sound pairs: each law is the contract of a function.
ghost use Rattle.bc_opening_runs.specs.Example.{HasReplay};
ghost use Rattle.bc_opening_runs.specs.Laws.{LawOldKeys, LawShown};

/// Each key that an opening of a sound pair has lies whole in data buckets.
pub fn law_old_keys()
    ensures { LawOldKeys }
{}

/// So whatever a crash leaves of a sound pair, behind any run of which all keys lie in data whole,
/// shows each sector with a value that the run allows, over what the pair showed.
///
/// The premise is that no torn record matches by chance.
pub fn law_shown()
    ensures { LawShown }
{}

/// There is a pair, byte by byte, with a dirty key that its journal alone has, and it is opened.
pub fn has_replay()
    ensures { HasReplay }
{}
