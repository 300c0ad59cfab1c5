//! Why a change of the tree came no further.

use bc_install::bc_hand::error::StepError;

/// Why no entry was begun. Nothing was done, and it may be tried again: the seat had heard of no
/// halt.
#[derive(Clone, Copy, Debug, PartialEq, Eq, Drop)]
pub enum NotBegun {
    /// There was no memory.
    Memory,
    /// An entry was sealed before that nobody writes any more, in a run that a device has halted.
    Unwritten,
    /// No number is left for an entry: they end at 2^63.
    Number,
    /// The ring has no place for an entry: older ones have to go first.
    Place,
    /// A leaf that goes has keys pending of an entry that isn't durable yet.
    Pending,
    /// The journal ends behind the cache device. No sound pair has such a journal.
    Outside,
}

/// Why a change came no further.
#[derive(Clone, Copy, Debug, PartialEq, Eq, Drop)]
pub enum ByRootError {
    /// No entry was begun, and nothing was done.
    NotBegun(NotBegun),
    /// A call of the cache device failed, or a device had halted the run, and the entry came no
    /// further, as the seat's deeds tell. The tree in memory is as it was.
    Entry(StepError),
    /// The entry is durable, and the change wasn't installed. The tree in memory is as it was.
    Install(StepError),
}
