//! Why a step did nothing, or not all of it.
use bc_disk::disk::Device;

/// Why a step committed no deed but its own call's failure.
#[derive(Clone, Copy, Debug, PartialEq, Eq, Drop)]
pub enum StepError {
    /// The step's own call of this device failed, and the step committed that.
    Fault(Device),
    /// A write or a barrier of this device had failed before, which halted the run. Nothing was
    /// done.
    Halted(Device),
    /// There was no memory. Nothing was done.
    Memory,
}
