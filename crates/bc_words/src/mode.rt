//! The word of a mode.
ghost use Rattle.std.specs.Prelude.{◌≡◌, MatchOption};
ghost use Rattle.bc_mode.specs.declared.mode.Mode.{Mode};
ghost use Rattle.bc_mode.specs.Mode.{mode_text};

use bc_mode::Mode;

// The mode that a word names.
pub(crate) fn mode_of(word: &str) -> Option<Mode>
    ensures { MatchOption result ((mode : Mode) → word.now ≡ mode_text mode → ⊥)
        (λ mode. word.now ≡ mode_text mode) }
{
    match word {
        "writethrough" => Some(Mode::Writethrough),
        "writeback" => Some(Mode::Writeback),
        "writearound" => Some(Mode::Writearound),
        "none" => Some(Mode::None),
        _ => None,
    }
}
