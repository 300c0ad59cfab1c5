//! How what a seat knows goes on, each law the contract of a function.
ghost use Rattle.bc_seats.specs.Laws.{LawHeld, LawWaited, LawCommitted, LawBoth};

use bc_parts::machine::Machine;

/// What a part in hand stands for, it goes on to stand for.
pub fn law_held<M: Machine>()
    ensures { LawHeld M.Machine }
{}

/// Who only waited did nothing of its own.
pub fn law_waited<M: Machine>()
    ensures { LawWaited M.Machine }
{}

/// Who committed an event did that.
pub fn law_committed<M: Machine>()
    ensures { LawCommitted M.Machine }
{}

/// What a seat did, and what it did then, is one way.
pub fn law_both<M: Machine>()
    ensures { LawBoth M.Machine }
{}
