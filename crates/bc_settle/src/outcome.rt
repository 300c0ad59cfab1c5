//! What becomes of the candidate that is due.

/// Why a candidate's key doesn't come into a leaf: the first of these that holds.
#[derive(Clone, Copy, Debug, PartialEq, Eq, Drop)]
pub enum Reason {
    /// The leaf doesn't have all of its sectors.
    Elsewhere,
    /// Its places don't lie in one bucket for data, so that no one key can name them.
    Scattered,
    /// A key stands over one of its sectors.
    Keyed,
    /// The leaf has no room for one more key.
    Full,
}

/// What a step that was to settle the oldest due candidate did.
#[derive(Clone, Copy, Debug, PartialEq, Eq, Drop)]
pub enum Outcome {
    /// None is due; nothing was done.
    NoneDue,
    /// The key of the candidate with this number came into the leaf.
    Settled { candidate: u64 },
    /// It can't, and nothing was done.
    Left { candidate: u64, why: Reason },
}
