//! Reads a trace from a source.
ghost use Rattle.std.specs.Prelude.{IfOk, IfErr};
ghost use Rattle.bc_disk.specs.Stream.{BothToldText};
ghost use Rattle.bc_script.specs.Trace.{IsTrace, IsWhole, IsCause, TakesAtMost};

use crate::draft::Draft;
use crate::script::{Script, TraceError};
use bc_disk::stream::Source;
use std::alloc::Global;

// The most bytes that are asked for at once.
const BUFFER: usize = 4096;
// The most bytes that are taken: 262,144 lines of 81 bytes and one more.
const MOST_TAKEN: usize = 21_233_665;

/// Reads a trace to the end of the source: lines of words between spaces, of which the numbers are
/// decimal. `N w FIRST COUNT STAMP` has worker N write, `N W FIRST COUNT STAMP` does so and has it
/// durable, `N r FIRST COUNT` reads, `N f` flushes, and `N b`, `N c` and `N m` make a writeback, a
/// tracing and a moving round. A line of spaces or none, and one that begins with `#`, asks for
/// nothing, and `-` ends a phase. Workers above 1 and lines `W` are refused as yet.
///
/// The first line that is refused ends the reading, and so does a fault of the source. At most
/// 21,233,665 bytes are taken of any source, and of one with a line that is refused at most 4,095
/// beyond 81 for each line up to it.
pub fn read_trace<S: Source>(alloc: Global, source: &mut S) -> Result<Script, TraceError>
    ensures trace { IfOk result IsTrace }
    // The source was read to its end, and its text spells the lines.
    ensures whole { IfOk result (IsWhole (S.facts source.old) (S.facts source.new)) }
    // The line is the first that is refused; the source failed in this call.
    ensures cause { IfErr result (IsCause (S.facts source.old) (S.facts source.new)) }
    ensures taken { BothToldText (TakesAtMost 21233665)
        (S.facts source.old).text (S.facts source.new).text }
{
    let mut draft = Draft::new(alloc)?;
    let mut buffer = [0; BUFFER];
    let mut taken = 0;
    loop {
        let room = BUFFER.min(MOST_TAKEN - taken);
        let Ok(count) = source.next(&mut buffer[..room]) else {
            return Err(TraceError::Fault);
        };
        if count == 0 {
            return draft.end();
        }
        draft.take_all(&buffer[..count])?;
        taken += count;
    }
}
