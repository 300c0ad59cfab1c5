//! Why a leaf wasn't fetched.
ghost use Rattle.std.specs.Prelude.{◌≡◌};
ghost use Rattle.bc_cache.specs.declared.error.FetchError.TheVariants as errors;

use bc_node::NodeError;

/// Why a leaf wasn't fetched.
#[derive(Clone, Copy, Debug, PartialEq, Eq, Drop)]
pub enum FetchError {
    /// Each slot has a leaf that somebody holds, or of which some keys are pending.
    Busy,
    /// It wasn't read, for this reason.
    Node(NodeError),
}

impl From<NodeError> for FetchError {
    ghost from_gives = { λ cause e. e ≡ errors.Node cause };

    fn from(cause: NodeError) -> FetchError {
        FetchError::Node(cause)
    }
}
