//! Why words are refused.
ghost use Rattle.std.specs.Prelude.{◌≡◌};
ghost use Rattle.bc_words.specs.declared.error.WordsError.TheVariants.{Memory};

use std::alloc::AllocError;

/// Why no command was read.
#[derive(Clone, Copy, Debug, PartialEq, Eq, Drop)]
pub enum WordsError {
    /// The words spell no command: one is missing, unknown or one too many, or out of its range.
    Usage,
    /// Memory ran out.
    Memory,
}

impl From<AllocError> for WordsError {
    ghost from_gives = { λ _ e. e ≡ Memory };

    fn from(_e: AllocError) -> WordsError {
        WordsError::Memory
    }
}
