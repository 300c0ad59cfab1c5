//! What a text of one line says.
ghost use Rattle.std.specs.Prelude.{◌≡◌, ◌<◌, ◌^◌};
ghost use Rattle.bc_script.specs.Trace.{line_of, phase_after};

use crate::line::{Action, Line};

/// What a text of one line says, whichever phase it stands in.
#[derive(Clone, Copy, Debug, PartialEq, Eq, Drop)]
pub enum Form {
    /// It is a comment, or has no words.
    Quiet,
    /// It ends a phase.
    PhaseEnd,
    /// It asks a worker for something.
    Asked { worker: u8, action: Action },
}

impl Form {
    /// The line that has this form in this phase.
    pub(crate) fn in_phase(self, phase: u32) -> Line
        ensures { result ≡ line_of phase self }
    {
        match self {
            Form::Quiet | Form::PhaseEnd => Line::Silent,
            Form::Asked { worker, action } => Line::Request {
                worker,
                phase,
                action,
            },
        }
    }

    /// The phase of the next line.
    pub(crate) fn phase_after(self, phase: u32) -> u32
        requires { phase < 2 ^ 31 }
        ensures { result ≡ phase_after phase self }
    {
        match self {
            Form::PhaseEnd => phase + 1,
            Form::Quiet | Form::Asked { .. } => phase,
        }
    }
}
