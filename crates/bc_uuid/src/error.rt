//! Why the table can't be read.
ghost use Rattle.std.specs.Prelude.{◌≡◌};
ghost use Rattle.bc_uuid.specs.declared.error.UuidError.TheVariants as errors;

use bc_disk::disk::Failed;
use std::alloc::{AllocError, AllocFailed};

/// Why the uuid table can't be read.
#[derive(Clone, Copy, Debug, PartialEq, Eq, Drop)]
pub enum UuidError {
    /// The device failed while the table was read.
    Fault,
    /// No memory was found.
    Memory,
}

impl From<Failed> for UuidError {
    ghost from_gives = { λ _ e. e ≡ errors.Fault };

    fn from(_failed: Failed) -> UuidError {
        UuidError::Fault
    }
}

impl From<AllocError> for UuidError {
    ghost from_gives = { λ _ e. e ≡ errors.Memory };

    fn from(_failed: AllocError) -> UuidError {
        UuidError::Memory
    }
}

impl<T: Drop> From<AllocFailed<T>> for UuidError {
    ghost from_gives = { λ _ e. e ≡ errors.Memory };

    fn from(_failed: AllocFailed<T>) -> UuidError {
        UuidError::Memory
    }
}
