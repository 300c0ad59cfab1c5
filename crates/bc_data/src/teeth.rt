//! Conditions that can't be left out: for each a run after which answers are wrong without it.
ghost use Rattle.bc_data.specs.Teeth.{LawTeethAnswer, LawTeethMove};

/// Where an answer doesn't test the version of the bucket that it was read from, it gives what was
/// written there since.
pub fn law_teeth_answer()
    ensures { LawTeethAnswer }
{}

/// Where a move doesn't ask whether its key changed, it brings back one that was dropped, and what
/// is written around the cache is hidden.
pub fn law_teeth_move()
    ensures { LawTeethMove }
{}
