//! Why a flush was refused.
ghost use Rattle.std.specs.Prelude.{◌≡◌};
ghost use Rattle.bc_flush.specs.Refusals.{refusal};

use bc_disk::disk::Device;
use bc_entry::bc_hand::error::StepError;

/// Why a flush over a cache was refused. What it did before stands, and no acknowledgement.
#[derive(Clone, Copy, Debug, PartialEq, Eq, Drop)]
pub enum FlushError {
    /// A call of this device, which the flush made, failed.
    Fault(Device),
    /// A write or a barrier of this device had failed before, which halted the run.
    Halted(Device),
    /// There was no memory; or an entry was sealed before that nobody writes any more, in a run that
    /// a device has halted by then, whose keys are in no other entry.
    Memory,
    /// The journal ends behind the cache device. No sound pair has such a journal.
    Outside,
}

// The refusal of a flush of which a step was refused.
pub(crate) fn refusal(error: StepError) -> FlushError
    ensures { result ≡ refusal error }
{
    match error {
        StepError::Fault(device) => FlushError::Fault(device),
        StepError::Halted(device) => FlushError::Halted(device),
        StepError::Memory => FlushError::Memory,
    }
}
