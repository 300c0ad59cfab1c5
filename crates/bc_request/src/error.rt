//! Why a request over a cache was refused.
ghost use Rattle.std.specs.Prelude.{◌≡◌};
ghost use Rattle.bc_request.specs.Refusals.{of_leaf, of_step, refusal};

use bc_disk::disk::Device;
use bc_job::bc_hand::error::StepError;
use bc_node::NodeError;
use bc_reader::bc_fetch::error::LeafError;
use bc_reader::error::ReadError;

/// Why a request over a cache was refused. What it did before stands.
///
/// `Outside`, `Missing` and `Lost` say what the index in memory is like: each has its cause in the
/// index as the request found it, and none is expected over a sound pair.
#[derive(Clone, Copy, Debug, PartialEq, Eq, Drop)]
pub enum RequestError {
    /// Its last sector lies behind the end. Nothing was done.
    OutOfRange,
    /// A call of this device, which the request made, failed.
    Fault(Device),
    /// A write or a barrier of this device had failed before, which halted the run.
    Halted(Device),
    /// There was no memory.
    Memory,
    /// What the cache device gave for a leaf, which begins in this bucket, is no leaf of its
    /// sectors; `why` is `First` or `Ranges`.
    Node { bucket: u32, why: NodeError },
    /// Each slot for a leaf has one that somebody holds, or of which some keys are pending.
    Busy,
    /// A leaf ends behind the cache device, or begins in none of its buckets.
    Outside,
    /// No leaf has all sectors of a piece.
    Missing,
    /// The last key of a sector points past the end of the cache device, or is dirty and points
    /// into a bucket that was used anew.
    Lost,
}

// The refusal of a request of which a step was refused.
fn of_step(error: StepError) -> RequestError
    ensures { result ≡ of_step error }
{
    match error {
        StepError::Fault(device) => RequestError::Fault(device),
        StepError::Halted(device) => RequestError::Halted(device),
        StepError::Memory => RequestError::Memory,
    }
}

// The refusal of one that hadn't its leaf.
fn of_leaf(error: LeafError) -> RequestError
    ensures { result ≡ of_leaf error }
{
    match error {
        LeafError::Step(error) => of_step(error),
        LeafError::Busy => RequestError::Busy,
        LeafError::Outside => RequestError::Outside,
        LeafError::Missing => RequestError::Missing,
        LeafError::Node { bucket, why } => RequestError::Node { bucket, why },
    }
}

// The refusal of one of which a piece wasn't read.
pub(crate) fn refusal(error: ReadError) -> RequestError
    ensures { result ≡ refusal error }
{
    match error {
        ReadError::Leaf(error) => of_leaf(error),
        ReadError::Lost => RequestError::Lost,
    }
}
