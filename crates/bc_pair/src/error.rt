//! Why a pair isn't made or shown.
ghost use Rattle.std.specs.Prelude.{◌≡◌};
ghost use Rattle.bc_pair.specs.declared.error.PairError.TheVariants as errors;

use bc_disk::disk::Device;
use bc_super::error::SuperError;
use std::alloc::{AllocError, AllocFailed};

/// Why a pair isn't made or shown.
#[derive(Clone, Copy, Debug, PartialEq, Eq, Drop)]
pub enum PairError {
    /// The superblock of this device has this fault, or would have it. Nothing was written.
    Superblock { device: Device, why: SuperError },
    /// A call of this device failed. What was written before stands.
    Fault(Device),
    /// There was no memory. Nothing was written.
    Memory,
}

impl From<Device> for PairError {
    ghost from_gives = { λ device e. e ≡ errors.Fault device };

    fn from(device: Device) -> PairError {
        PairError::Fault(device)
    }
}

impl From<AllocError> for PairError {
    ghost from_gives = { λ _ e. e ≡ errors.Memory };

    fn from(_failed: AllocError) -> PairError {
        PairError::Memory
    }
}

impl<T: Drop> From<AllocFailed<T>> for PairError {
    ghost from_gives = { λ _ e. e ≡ errors.Memory };

    fn from(_failed: AllocFailed<T>) -> PairError {
        PairError::Memory
    }
}
