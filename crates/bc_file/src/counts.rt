//! How often something of the outside was called, and how often it failed.
ghost use Rattle.std.specs.Prelude.{◌≡◌, Ok, IfOk, OnErr, IsErr};

use bc_disk::disk::Failed;
use std::io;

/// How many calls were made, failed ones too, and how many of them failed. A count stays at
/// 2^64 - 1 once it is there.
#[derive(Clone, Copy, Debug, PartialEq, Eq)]
pub struct Counts {
    pub calls: u64,
    pub faults: u64,
}

impl Counts {
    ghost use Rattle.bc_file.specs.Counts.{none_made, counted};

    /// No call was made.
    pub(crate) fn none() -> Counts
        ensures { result ≡ none_made }
    {
        Counts {
            calls: 0,
            faults: 0,
        }
    }

    /// Counts a call by its outcome, which it gives back without the reason of a failure.
    pub(crate) fn count<T: Drop>(&mut self, outcome: io::Result<T>) -> Result<T, Failed>
        ensures ok { IfOk result (λ x. outcome ≡ Ok x) }
        ensures failed { OnErr result (IsErr outcome) }
        ensures counts { self.new ≡ counted result self.old }
    {
        self.calls = self.calls.saturating_add(1);
        match outcome {
            Ok(x) => Ok(x),
            Err(_) => {
                self.faults = self.faults.saturating_add(1);
                Err(Failed)
            }
        }
    }
}
