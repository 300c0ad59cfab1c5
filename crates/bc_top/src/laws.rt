//! What the definitions come to: each law is the contract of a function.
ghost use Rattle.std.specs.Prelude.{◌≡◌, ◌↔◌};
ghost use Rattle.bc_image.specs.Pair.{Pair};
ghost use Rattle.bc_replay.specs.Survey.{IsFirst};
ghost use Rattle.bc_replay.specs.declared.error.OpenError.{OpenError};
ghost use Rattle.bc_top.specs.Opened.{IsAnswerTo};
ghost use Rattle.bc_top.specs.declared.stop.Stop.{Stop};
ghost use Rattle.bc_top.specs.declared.stop.Stop.TheVariants as stops;

/// A pair with a cache has one answer at most, and it is answered that what is asked of it isn't
/// served yet exactly where it has no refusal.
pub fn one_answer()
    ensures one { (p : Pair) (a b : Stop) → IsAnswerTo p a → IsAnswerTo p b → a ≡ b }
    ensures unserved { (p : Pair)
        → IsAnswerTo p stops.Unserved ↔ ((error : OpenError) → IsFirst p error → ⊥) }
{}
