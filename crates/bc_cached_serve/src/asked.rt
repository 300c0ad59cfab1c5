//! What the lines of a trace ask for.
ghost use Rattle.std.specs.Prelude.{All};
ghost use Rattle.std.specs.Bool.{MatchBool};
ghost use Rattle.bc_cached_serve.specs.Answered.{KeepsValues};

use bc_script::line::{Action, Line};

// Whether the line asks for nothing, to read, or to flush.
fn keeps_values(line: &Line) -> bool
    ensures { MatchBool result (KeepsValues line.now) (¬ (KeepsValues line.now)) }
{
    match line {
        Line::Silent => true,
        Line::Request { action, .. } => match action {
            Action::Read { .. } => true,
            Action::Flush => true,
            _ => false,
        },
    }
}

/// Whether each line asks for nothing, to read, or to flush, none of which changes a value of a
/// sector.
pub fn keep_values(lines: &[Line]) -> bool
    ensures { MatchBool result (All KeepsValues lines.now) (¬ (All KeepsValues lines.now)) }
{
    for line in lines {
        if !keeps_values(line) {
            return false;
        }
    }
    true
}
