//! The lines of a trace, and why a trace is refused.
ghost use Rattle.std.specs.Prelude.{◌≡◌, ◌↔◌, [], length, IsTrue};
ghost use Rattle.bc_script.specs.declared.script.TraceError.TheVariants.{Memory};

use crate::line::Line;
use crate::reason::Reason;
use std::alloc::{AllocError, AllocFailed, Global};
use std::marker::Model;

/// The lines of a trace, in order.
#[derive(Drop)]
pub struct Script {
    lines: Vec<Line>,
}

impl Model for Script {
    ghost use Rattle.std.specs.Prelude.{List};
    ghost use Rattle.bc_script.specs.declared.line.Line.{Line};

    ghost Value = { List Line };

    ghost view = { λ s. s.lines.items };
}

impl Script {
    /// No lines.
    pub fn new(alloc: Global) -> Script
        ensures { result ≡ [] }
    {
        Script {
            lines: Vec::new(alloc),
        }
    }

    /// These lines.
    pub fn from_lines(lines: Vec<Line>) -> Script
        ensures { result ≡ lines.items }
    {
        Script { lines }
    }

    /// The lines.
    pub fn into_lines(self) -> Vec<Line>
        ensures { result.items ≡ self }
    {
        let Script { lines } = self;
        lines
    }

    /// The lines.
    pub fn lines(&self) -> &[Line]
        ensures { result.now ≡ self.now }
    {
        self.lines.as_slice()
    }

    /// The number of lines.
    pub fn len(&self) -> usize
        ensures { result ≡ length self.now }
    {
        self.lines.len()
    }

    /// Whether there are none.
    pub fn is_empty(&self) -> bool
        ensures { IsTrue result ↔ (self.now ≡ []) }
    {
        self.lines.is_empty()
    }
}

/// The first line of a trace that is refused.
#[derive(Clone, Copy, Debug, PartialEq, Eq, Drop)]
pub struct ScriptError {
    /// Its number, counted from 1: at most 262,145.
    pub line: u32,
    /// Why it is refused.
    pub why: Reason,
}

/// Why no script was read.
#[derive(Clone, Copy, Debug, PartialEq, Eq, Drop)]
pub enum TraceError {
    /// A line was refused.
    Script(ScriptError),
    /// The source failed.
    Fault,
    /// Memory ran out.
    Memory,
}

impl From<AllocError> for TraceError {
    ghost from_gives = { λ _ e. e ≡ Memory };

    fn from(_e: AllocError) -> TraceError {
        TraceError::Memory
    }
}

impl<T: Drop> From<AllocFailed<T>> for TraceError {
    ghost from_gives = { λ _ e. e ≡ Memory };

    fn from(_e: AllocFailed<T>) -> TraceError {
        TraceError::Memory
    }
}
