//! Why a change of the tree by a set came no further.

use bc_by_root::bc_install::bc_hand::error::StepError;

/// Why no set was written. Nothing was done, and it may be tried again: the seat had heard of no
/// halt.
#[derive(Clone, Copy, Debug, PartialEq, Eq, Drop)]
pub enum NoSet {
    /// There was no memory.
    Memory,
    /// A leaf that goes has keys pending of an entry that isn't durable yet.
    Pending,
    /// The node that takes the set ends behind the cache device. No sound pair has such a node.
    Outside,
}

/// Why a change came no further.
#[derive(Clone, Copy, Debug, PartialEq, Eq, Drop)]
pub enum BySetError {
    /// No set was begun, and nothing was done.
    NotBegun(NoSet),
    /// The write of the set failed, or a device had halted the run before it. The tree in memory is
    /// as it was.
    Set(StepError),
    /// The set was written, and the barrier behind it failed, or a device had halted the run before
    /// it. The node in memory has the set, and its old children.
    Barrier(StepError),
    /// The change is made, and wasn't installed. The node in memory has the set, and its old
    /// children.
    Install(StepError),
}
