//! Why a pair can't be opened.
ghost use Rattle.std.specs.Prelude.{◌≡◌};
ghost use Rattle.bc_replay.specs.declared.error.OpenError.TheVariants as errors;
ghost use Rattle.bc_replay.specs.Numbers.{number_of};

use bc_disk::disk::Device;
use bc_node::NodeError;
use bc_prio::PrioError;
use bc_super::error::SuperError;
use std::alloc::AllocError;
use thiserror::Error;

/// Why a pair can't be opened. The causes are tested in this order; `Fault` and `Memory` come
/// wherever they happen.
#[derive(Clone, Copy, Debug, PartialEq, Eq, Drop, Error)]
pub enum OpenError {
    /// The superblock of this device has this fault, which is never that its device failed.
    #[error("superblock: {why}")]
    Super { device: Device, why: SuperError },
    /// There is no whole entry in the journal.
    #[error("there is no whole entry in the journal")]
    NoJournal,
    /// The entries of the journal with the numbers from `from` to `to` are missing; or the newest
    /// one, `from`, needs `to`, which is newer than itself.
    #[error("the entries of the journal from {from} to {to} are missing")]
    JournalGap { from: u64, to: u64 },
    /// Behind the newest entry, which has this number, the journal can't go on.
    #[error("the journal can't go on behind entry {seq}")]
    JournalEnd { seq: u64 },
    /// The chain of generations has this fault, which is neither that the device failed nor want of
    /// memory.
    #[error("the chain of generations has a fault")]
    Prio(PrioError),
    /// The first entry of the table of uuids isn't the backing device's, or there is no table.
    #[error("the table of uuids does not name the backing device")]
    Uuid,
    /// The node in this bucket has this fault.
    #[error("the node in bucket {bucket} has a fault")]
    Node { bucket: u32, why: NodeError },
    /// This pointer points where it may not.
    #[error("pointer {word} points where it may not")]
    PointerRange { word: u64 },
    /// This bucket is used twice.
    #[error("bucket {bucket} is used twice")]
    TwoUses { bucket: u32 },
    /// So few buckets are spare.
    #[error("{found} buckets are spare, which is too few")]
    NoSpare { found: u32 },
    /// A call of this device failed.
    #[error("a device failed")]
    Fault(Device),
    /// Memory ran out.
    #[error("memory ran out")]
    Memory,
}

impl OpenError {
    /// The number by which the error is printed.
    pub fn number(&self) -> u8
        ensures { result ≡ number_of self.now }
    {
        match self {
            OpenError::Super { .. } => 1,
            OpenError::NoJournal => 2,
            OpenError::JournalGap { .. } => 3,
            OpenError::Prio(_) => 4,
            OpenError::Node { .. } => 5,
            OpenError::PointerRange { .. } => 6,
            OpenError::Fault(_) => 7,
            OpenError::Memory => 8,
            OpenError::JournalEnd { .. } => 9,
            OpenError::TwoUses { .. } => 10,
            OpenError::Uuid => 11,
            OpenError::NoSpare { .. } => 12,
        }
    }
}

impl From<AllocError> for OpenError {
    ghost from_gives = { λ _ e. e ≡ errors.Memory };

    fn from(_failed: AllocError) -> OpenError {
        OpenError::Memory
    }
}
