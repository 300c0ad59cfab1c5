//! What holds of pairs that were made anew: each law is the contract of a function.
ghost use Rattle.bc_anew.specs.Laws.{HasExample, HasOpening, HasRun, LawAnew, LawOpening, LawShown};

/// Each pair that was made anew is opened: by a machine of its device, with both devices' data and
/// no key, which shows what the backing device has.
pub fn law_anew()
    ensures { LawAnew }
{}

/// So whatever a crash leaves of such a pair, behind any run of which all keys lie in data whole,
/// shows each sector with a value that the run allows, over what the backing device had.
///
/// The premise is that no torn record matches by chance.
pub fn law_shown()
    ensures { LawShown }
{}

/// There is such a pair, byte by byte; so there is a run of which all holds that is asked of runs
/// on a device.
pub fn example()
    ensures { HasExample }
{}

/// Each pair that was made anew is opened as a sound pair is: with the view that it has.
pub fn law_opening()
    ensures { LawOpening }
{}

/// So there is an opening of a sound pair.
pub fn opening_exists()
    ensures { HasOpening }
{}

/// And there is a run from it that seals an entry, of which all holds that is asked of runs on a
/// sound pair.
pub fn run_exists()
    ensures { HasRun }
{}
