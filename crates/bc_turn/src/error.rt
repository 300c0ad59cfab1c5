//! Why keys of a leaf are still pending.

/// Why what is pending of a leaf doesn't go to its node as a further set.
#[derive(Clone, Copy, Debug, PartialEq, Eq, Drop)]
pub enum Why {
    /// A change of the tree holds the leaf.
    Held,
    /// The node was read from the device, or a set of it failed to be written: nothing goes behind
    /// its sets.
    Closed,
    /// A key of it is in an entry behind this one, which is the newest durable one: it waits yet, or
    /// the entry is being written.
    Waiting(u64),
    /// The set doesn't fit behind the node's sets.
    Full,
    /// The node ends behind the cache device. No sound pair has such a node.
    Outside,
}

/// A leaf of which keys are pending still.
#[derive(Clone, Copy, Debug, PartialEq, Eq, Drop)]
pub struct Left {
    /// Its number.
    pub leaf: u32,
    pub why: Why,
}
