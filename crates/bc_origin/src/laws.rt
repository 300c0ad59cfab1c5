//! What holds of every run: the law is the contract of a function.
ghost use Rattle.bc_origin.specs.Laws.{LawOrigin};

/// Each key that is read of what a crash leaves was the opening's, or came in with an act of the
/// run.
///
/// The premise is that no torn record matches by chance.
pub fn law_origin()
    ensures { LawOrigin }
{}
