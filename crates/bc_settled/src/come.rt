//! What becomes of the oldest candidate that is due.
use bc_settle::outcome::Outcome;

/// What isn't ready for a candidate's key.
#[derive(Clone, Copy, Debug, PartialEq, Eq, Drop)]
pub enum Lack {
    /// Somebody holds the leaf, which is being moved.
    Leaf,
    /// The entry for which keys wait has no room for one more, or has no place in the ring then.
    Entry,
    /// The journal has no number left for that entry.
    Number,
}

/// What a try to bring the oldest due candidate into its leaf came to.
#[derive(Clone, Copy, Debug, PartialEq, Eq, Drop)]
pub enum Come {
    /// The step was made, and this is what it answered.
    Tried(Outcome),
    /// Leaf or journal weren't ready, and the step wasn't made.
    Lacks(Lack),
}
