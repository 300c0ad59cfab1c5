//! A halt of which a seat has heard comes before want of memory.
ghost use Rattle.bc_turn.specs.Heard.{IsAnswerTo};

use bc_append::bc_hand::error::StepError;
use bc_append::bc_machine::machine::CoreSeat;
use bc_disk::disk::Disk;

/// What a step of the seat answers to an error: where the seat has heard of a halt, `Halted` in place
/// of `Memory`. So nobody who is told that memory lacked tries again in a run that was halted before
/// the seat's eyes.
pub fn or_halt<C: Disk, B: Disk>(seat: &CoreSeat<C, B>, error: StepError) -> StepError
    ensures { IsAnswerTo error seat.now.heard seat.now.seen result }
{
    match error {
        StepError::Memory => missed(seat),
        StepError::Halted(device) => StepError::Halted(device),
        StepError::Fault(device) => StepError::Fault(device),
    }
}

// The same of want of memory.
fn missed<C: Disk, B: Disk>(seat: &CoreSeat<C, B>) -> StepError
    ensures { IsAnswerTo StepError.Memory seat.now.heard seat.now.seen result }
{
    match seat.heard() {
        Some(device) => StepError::Halted(device),
        None => StepError::Memory,
    }
}
