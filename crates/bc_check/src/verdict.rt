//! What is said of a pair, and why nothing is.
ghost use Rattle.std.specs.Prelude.{◌≡◌};
ghost use Rattle.bc_check.specs.Calls.{check_of};
ghost use Rattle.bc_check.specs.declared.verdict.CheckError.TheVariants as checks;

use bc_disk::disk::Device;
use bc_replay::OpenError;
use std::alloc::AllocError;

/// What is said of a pair, whose parts are tested in this order: those that `survey` tests, the
/// journal, how far pointers lie behind, and the data.
#[derive(Clone, Copy, Debug, PartialEq, Eq, Drop)]
pub enum Verdict {
    /// It is sound: the backing device serves alone.
    PassThrough,
    /// It is sound. So many sectors have live data on the cache device, dirty and clean.
    Sound { dirty: u64, clean: u64 },
    /// In this bucket of the journal, the least such, there stands a whole entry that isn't one of
    /// those that count, and it has the number of one that counts or is to come.
    Journal { bucket: u32 },
    /// The pointer of this sector, the least such, lies too far behind its bucket.
    Age { sector: u64 },
    /// The live clean data of this sector, the least such, isn't the backing device's.
    Agree { sector: u64 },
}

/// Why nothing is said of a pair.
#[derive(Clone, Copy, Debug, PartialEq, Eq, Drop)]
pub enum CheckError {
    /// It can't be opened, for this reason, which is neither `Fault` nor `Memory`.
    Open(OpenError),
    /// A call of this device failed.
    Fault(Device),
    /// Memory ran out.
    Memory,
}

impl From<OpenError> for CheckError {
    ghost from_gives = { λ why e. e ≡ check_of why };

    fn from(why: OpenError) -> CheckError {
        match why {
            OpenError::Fault(device) => CheckError::Fault(device),
            OpenError::Memory => CheckError::Memory,
            why => CheckError::Open(why),
        }
    }
}

impl From<AllocError> for CheckError {
    ghost from_gives = { λ _ e. e ≡ checks.Memory };

    fn from(_failed: AllocError) -> CheckError {
        CheckError::Memory
    }
}
