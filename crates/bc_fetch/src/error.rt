//! Why a leaf isn't had.
use bc_node::NodeError;
use bc_sight::bc_hand::error::StepError;

/// Why a leaf isn't in a slot of its part.
#[derive(Clone, Copy, Debug, PartialEq, Eq, Drop)]
pub enum LeafError {
    /// The step didn't come to an end: for its own call, a halt, or want of memory.
    Step(StepError),
    /// Each slot of the part has a leaf that somebody holds, or of which some keys are pending.
    Busy,
    /// The leaf ends behind the cache device, or begins in none of its buckets.
    Outside,
    /// No leaf has all of the sectors.
    Missing,
    /// What the device gave for the leaf, which begins in this bucket, is no leaf of its sectors;
    /// `why` is `First` or `Ranges`.
    Node { bucket: u32, why: NodeError },
}
