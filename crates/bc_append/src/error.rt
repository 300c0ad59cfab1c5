//! Why a leaf gets no further set.

/// Why what is pending of a leaf doesn't go to its node.
#[derive(Clone, Copy, Debug, PartialEq, Eq, Drop)]
pub enum NoRoom {
    /// It doesn't fit behind the node's sets.
    Full,
    /// The node ends behind the cache device.
    Outside,
}
