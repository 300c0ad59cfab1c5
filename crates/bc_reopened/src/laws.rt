//! That runs on a device go on after each crash: each law is the contract of a function.
ghost use Rattle.bc_reopened.specs.Laws.{LawOpened, LawAgain};

/// An opening of a sound pair, whatever was chosen, has no keys and no nodes but those of the pair.
pub fn law_opened()
    ensures { LawOpened }
{}

/// Whatever a crash leaves of a run on a sound pair is a sound pair. It shows each sector with a
/// value that the run allows, over what the pair showed; and it is opened, by each choice, as a pair
/// that the next run may begin on, with just these values.
///
/// The premises are that no torn record matches by chance, and that what the run brings is well
/// made, each key and each node by itself.
pub fn law_again()
    ensures { LawAgain }
{}
