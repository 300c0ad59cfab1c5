//! How a turn of the ring ends.
ghost use Rattle.std.specs.Prelude.{◌≡◌};
ghost use Rattle.bc_flush.specs.Refusals.{refusal};
ghost use Rattle.bc_turned.specs.Turned.{IsRefusalFor};

use bc_disk::disk::Disk;
use bc_flush::bc_hand::error::StepError;
use bc_flush::bc_machine::machine::CoreSeat;
use bc_flush::error::FlushError;
use bc_turn::error::Left;

/// Why there can be no entry.
#[derive(Clone, Copy, Debug, PartialEq, Eq, Drop)]
pub enum NoEntry {
    /// No number is left for it: they end at 2^63.
    Number,
    /// The ring has no place for it.
    Place,
}

/// How a turn of the ring ends that wasn't refused.
#[derive(Clone, Copy, Debug, PartialEq, Eq, Drop)]
pub enum Turned {
    /// The newest durable entry needs none of the oldest ones any more.
    Done,
    /// A leaf has keys pending of one of these, which don't go to its node: it has to be rewritten
    /// first. No entry was put.
    Left(Left),
    /// No leaf needs the oldest entries, but there can be no entry that says so.
    NoEntry(NoEntry),
}

// The refusal of a turn of which a step was refused.
pub(crate) fn refused(error: StepError) -> FlushError
    ensures { result ≡ refusal error }
{
    match error {
        StepError::Fault(device) => FlushError::Fault(device),
        StepError::Halted(device) => FlushError::Halted(device),
        StepError::Memory => FlushError::Memory,
    }
}

// The refusal of a step that was refused so: where the seat has heard of a halt, `Halted` in place
// of `Memory`.
pub(crate) fn or_halted<C: Disk, B: Disk>(seat: &CoreSeat<C, B>, error: FlushError) -> FlushError
    ensures { IsRefusalFor error seat.now.heard seat.now.seen result }
{
    match error {
        FlushError::Memory => missed(seat),
        FlushError::Fault(device) => FlushError::Fault(device),
        FlushError::Halted(device) => FlushError::Halted(device),
        FlushError::Outside => FlushError::Outside,
    }
}

// The same of want of memory.
fn missed<C: Disk, B: Disk>(seat: &CoreSeat<C, B>) -> FlushError
    ensures { IsRefusalFor FlushError.Memory seat.now.heard seat.now.seen result }
{
    match seat.heard() {
        Some(device) => FlushError::Halted(device),
        None => FlushError::Memory,
    }
}
