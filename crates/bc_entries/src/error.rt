//! Why a journal is refused.
ghost use Rattle.std.specs.Prelude.{◌≡◌};
ghost use Rattle.bc_entries.specs.declared.error.JournalError.TheVariants as errors;

use bc_disk::disk::Failed;
use std::alloc::{AllocError, AllocFailed};

/// Why a journal is refused, in the order in which the causes are tested; `Fault` and `Memory` come
/// wherever they happen.
#[derive(Clone, Copy, Debug, PartialEq, Eq, Drop)]
pub enum JournalError {
    /// There is no whole entry.
    NoJournal,
    /// The numbers from `from` to `to` are missing, the first that do of those that the newest entry
    /// needs. Or that entry needs one that is newer than itself: then `from` is its own number, and
    /// `to` is the needed one.
    Gap { from: u64, to: u64 },
    /// The newest entry has this number, and behind it numbers are used up, or the ring has no room
    /// for one more entry.
    End { seq: u64 },
    /// The device failed.
    Fault,
    /// Memory ran out.
    Memory,
}

impl From<Failed> for JournalError {
    ghost from_gives = { λ _ e. e ≡ errors.Fault };

    fn from(_failed: Failed) -> JournalError {
        JournalError::Fault
    }
}

impl From<AllocError> for JournalError {
    ghost from_gives = { λ _ e. e ≡ errors.Memory };

    fn from(_failed: AllocError) -> JournalError {
        JournalError::Memory
    }
}

impl<T: Drop> From<AllocFailed<T>> for JournalError {
    ghost from_gives = { λ _ e. e ≡ errors.Memory };

    fn from(_failed: AllocFailed<T>) -> JournalError {
        JournalError::Memory
    }
}
