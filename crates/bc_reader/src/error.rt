//! Why sectors aren't read.
ghost use Rattle.std.specs.Prelude.{◌≡◌};
ghost use Rattle.bc_fetch.specs.declared.error.LeafError.{LeafError};
ghost use Rattle.bc_reader.specs.declared.error.ReadError.{ReadError};

use bc_fetch::bc_hand::error::StepError;
use bc_fetch::error::LeafError;

/// Why sectors of a claim weren't read.
#[derive(Clone, Copy, Debug, PartialEq, Eq, Drop)]
pub enum ReadError {
    /// Their leaf wasn't had; or a step didn't come to an end, which is this one's `Step`.
    Leaf(LeafError),
    /// The leaf's last key of one of them points past the end of the cache device, or is dirty and
    /// points into a bucket that was used anew. No sound pair has such a key.
    Lost,
}

/// The refusal of a step.
pub(crate) fn of_step(error: StepError) -> ReadError
    ensures { result ≡ ReadError.Leaf (LeafError.Step error) }
{
    ReadError::Leaf(LeafError::Step(error))
}
