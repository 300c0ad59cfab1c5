//! What may be wrong with a chain of priority sets.
ghost use Rattle.std.specs.Prelude.{◌≡◌};
ghost use Rattle.bc_prio.specs.declared.error.PrioError.TheVariants as errors;

use bc_disk::disk::Failed;
use std::alloc::AllocError;

/// Why a chain of priority sets can't be read. At one set the first cause is answered, in the order
/// `Range`, `Cycle`, `Fault`, `Magic`, `Checksum`, `Count`.
#[derive(Clone, Copy, Debug, PartialEq, Eq, Drop)]
pub enum PrioError {
    /// The bytes don't begin as a set of this cache does.
    Magic,
    /// The checksum is wrong.
    Checksum,
    /// A bucket is named in which a set of the chain was read before.
    Cycle,
    /// A bucket is named that is one of the journal's or before them, or that the device lacks.
    Range,
    /// The chain ends before it has a record of each bucket, or goes on behind them.
    Count,
    /// The device failed while a set was read.
    Fault,
    /// No memory was found.
    Memory,
}

impl From<Failed> for PrioError {
    ghost from_gives = { λ _ e. e ≡ errors.Fault };

    fn from(_failed: Failed) -> PrioError {
        PrioError::Fault
    }
}

impl From<AllocError> for PrioError {
    ghost from_gives = { λ _ e. e ≡ errors.Memory };

    fn from(_failed: AllocError) -> PrioError {
        PrioError::Memory
    }
}
