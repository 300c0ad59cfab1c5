//! Why a full trace was refused.
ghost use Rattle.bc_trace.specs.Trace.{IsMissed};

use bc_disk::disk::Disk;
use bc_flush::bc_fetch::error::LeafError;
use bc_flush::error::FlushError;
use bc_leaf_walk::bc_hand::error::StepError;
use bc_leaf_walk::bc_machine::machine::CoreSeat;

/// Why a full trace was refused. Nothing of what it found is taken then, and its round is given up
/// unless the run was halted or there was no memory for that.
#[derive(Clone, Copy, Debug, PartialEq, Eq, Drop)]
pub enum TraceError {
    /// Another seat's round is open. Nothing was done.
    Open,
    /// The round isn't where this seat left it, or the leaf of the next sector begins before that.
    /// Another seat went on with the round, or changed the tree there.
    Moved,
    /// A device had halted the run; or there was no memory for the events, and the seat hasn't heard of
    /// a halt.
    Step(StepError),
    /// The leaf of the next sector wasn't had.
    Leaf(LeafError),
    /// The journal wasn't made durable.
    Journal(FlushError),
}

// What is answered where there was no memory: a halt of which the seat has heard comes first.
pub(crate) fn missed<C: Disk, B: Disk>(seat: &CoreSeat<C, B>) -> StepError
    ensures { IsMissed seat.now.heard seat.now.seen result }
{
    match seat.heard() {
        Some(device) => StepError::Halted(device),
        None => StepError::Memory,
    }
}
