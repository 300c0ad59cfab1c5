//! Why a request was refused.
ghost use Rattle.std.specs.Prelude.{◌≡◌};
ghost use Rattle.bc_job.specs.Refusals.{refusal};

use bc_deed::bc_hand::error::StepError;
use bc_disk::disk::Device;

/// Why a request was refused. What it did before stands.
#[derive(Clone, Copy, Debug, PartialEq, Eq, Drop)]
pub enum RequestError {
    /// Its last sector lies behind the end. Nothing was done.
    OutOfRange,
    /// A call of this device, which the request made, failed.
    Fault(Device),
    /// A write or a barrier of this device had failed before, which halted the run.
    Halted(Device),
    /// There was no memory.
    Memory,
}

// The refusal of a request of which a step was refused.
pub(crate) fn refusal(error: StepError) -> RequestError
    ensures { result ≡ refusal error }
{
    match error {
        StepError::Fault(device) => RequestError::Fault(device),
        StepError::Halted(device) => RequestError::Halted(device),
        StepError::Memory => RequestError::Memory,
    }
}
