//! Why a walk ends early.
ghost use Rattle.std.specs.Prelude.{◌≡◌};
ghost use Rattle.bc_walk.specs.declared.error.WalkError.TheVariants as errors;
ghost use Rattle.bc_walk.specs.Loading.{error_of};

use bc_node::NodeError;
use std::alloc::{AllocError, AllocFailed};

/// Why a walk ends early. `Fault` and `Memory` come wherever they happen.
#[derive(Clone, Copy, Debug, PartialEq, Eq, Drop)]
pub enum WalkError {
    /// The node in this bucket, the first on the way that has one, has this fault, which is neither
    /// that the device failed nor want of memory.
    Node { bucket: u32, why: NodeError },
    /// The device failed.
    Fault,
    /// Memory ran out.
    Memory,
}

impl From<AllocError> for WalkError {
    ghost from_gives = { λ _ e. e ≡ errors.Memory };

    fn from(_failed: AllocError) -> WalkError {
        WalkError::Memory
    }
}

impl<T: Drop> From<AllocFailed<T>> for WalkError {
    ghost from_gives = { λ _ e. e ≡ errors.Memory };

    fn from(_failed: AllocFailed<T>) -> WalkError {
        WalkError::Memory
    }
}

/// The fault of the node in a bucket for that of its walk.
pub fn error_of(bucket: u32, why: NodeError) -> WalkError
    ensures { result ≡ error_of bucket why }
{
    match why {
        NodeError::Fault => WalkError::Fault,
        NodeError::Memory => WalkError::Memory,
        why => WalkError::Node { bucket, why },
    }
}
