//! Why a leaf wasn't replaced.

use bc_by_root::error::NotBegun;
use bc_leaf_plan::refused::Refused;
use bc_new_nodes::bc_hand::error::StepError;
use bc_tree::Plan;

/// Why a planned change came no further.
#[derive(Drop)]
pub enum MakeError {
    /// There was no memory, and nothing was done.
    Memory,
    /// A new node wasn't written, or the barrier behind them failed. The tree in memory is as it
    /// was, and it stays noted that it changes.
    Nodes(StepError),
    /// The new nodes stand, and no entry was begun. The plan says what they are: with it the entry
    /// may be tried again, as long as the tree stays in hand.
    NotBegun(NotBegun, Plan),
    /// The entry came no further. The tree in memory is as it was.
    Entry(StepError),
    /// The entry is durable, and the change wasn't installed. The tree in memory is as it was.
    Install(StepError),
}

/// Why a leaf wasn't replaced.
#[derive(Drop)]
pub enum ReplaceError {
    /// The tree is as it was, at rest. The buckets that were taken were let go.
    Refused(Refused),
    /// A device had halted the run before the first new node. The tree is as it was, at rest.
    Before(StepError),
    /// The change was begun, and came no further.
    Made(MakeError),
}
