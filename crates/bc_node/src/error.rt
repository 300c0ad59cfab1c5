//! Why a node wasn't read.
ghost use Rattle.std.specs.Prelude.{◌≡◌};
ghost use Rattle.bc_node.specs.Cause.{error_of};
ghost use Rattle.bc_node.specs.declared.error.NodeError.TheVariants as errors;

use bc_disk::disk::Failed;
use bc_set::SetError;
use std::alloc::AllocError;

/// Why a node wasn't read.
#[derive(Clone, Copy, Debug, PartialEq, Eq, Drop)]
pub enum NodeError {
    /// There is no set at the node's first sector, for this reason, which is never want of memory.
    First(SetError),
    /// A key of any of its sets lies outside the node's range.
    Ranges,
    /// The device failed.
    Fault,
    /// Memory ran out.
    Memory,
}

impl From<Failed> for NodeError {
    ghost from_gives = { λ _ e. e ≡ errors.Fault };

    fn from(_failed: Failed) -> NodeError {
        NodeError::Fault
    }
}

impl From<AllocError> for NodeError {
    ghost from_gives = { λ _ e. e ≡ errors.Memory };

    fn from(_failed: AllocError) -> NodeError {
        NodeError::Memory
    }
}

impl From<SetError> for NodeError {
    ghost from_gives = { λ cause e. e ≡ error_of cause };

    fn from(cause: SetError) -> NodeError {
        match cause {
            SetError::Memory => NodeError::Memory,
            other => NodeError::First(other),
        }
    }
}
