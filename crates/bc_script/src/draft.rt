//! A trace as far as it was read.
ghost use Rattle.std.specs.Prelude.{◌≡◌, ◌+◌, ◌<◌, ◌≤◌, ◌∷◌, ◌++◌, [], List, ℕ, suc, length, OnOk, IfOk, IfErr, MatchOption, MatchResult};
ghost use Rattle.bc_script.specs.Proper.{IsLine};
ghost use Rattle.bc_script.specs.Unserved.{line_in};
ghost use Rattle.bc_script.specs.Trace.{HasNoNewline, line_of, lines_of, SpellAll, IsTrace};

use crate::form::Form;
use crate::line::Line;
use crate::parse::line_of;
use crate::reason::Reason;
use crate::script::{Script, ScriptError, TraceError};
use memchr::memchr;
use std::alloc::{AllocError, Global};

// The most lines of a trace.
const MOST_LINES: usize = 262_144;
// The most bytes of a line, its newline not counted.
const MOST_BYTES: usize = 80;
// Room for so many lines is taken at once: it is large enough to be grown without a copy, and costs
// little where few lines come.
const FIRST_LINES: usize = 4096;

// The first line of a text, without its newline, and the text behind it; `None` where no newline
// stands in the text.
fn first_line(text: &[u8]) -> Option<(&[u8], &[u8])>
    ensures { MatchOption result (HasNoNewline text.now)
        (λ found. HasNoNewline found.0.now × (text.now ≡ found.0.now ++ 10 ∷ found.1.now)) }
{
    let end = memchr(b'\n', text)?;
    Some((&text[..end], &text[end + 1..]))
}

/// Whole lines, and the bytes of the next that have come.
#[derive(Drop)]
pub(crate) struct Draft {
    lines: Vec<Line>,
    // The phase of the next line.
    phase: u32,
    part: Vec<u8>,
}

impl Draft {
    ghost use Rattle.bc_script.specs.Draft.{IsEmpty, IsValid, Continues, Reaches, size_of, line_count, Stops, IsAfter};

    /// Nothing has come.
    pub(crate) fn new(alloc: Global) -> Result<Draft, AllocError>
        ensures { IfOk result (λ draft. IsEmpty draft) }
    {
        let lines = Vec::with_capacity(alloc, FIRST_LINES)?;
        Ok(Draft {
            lines,
            phase: 0,
            part: Vec::new(alloc),
        })
    }

    // The line that is read is refused.
    fn refusal(&self, why: Reason) -> TraceError
        requires { line_count self.now ≤ 262144 }
        ensures { result ≡ TraceError.Script
            (record { line = suc (line_count self.now); why = why }) }
    {
        TraceError::Script(ScriptError {
            line: self.lines.len() as u32 + 1,
            why,
        })
    }

    // What was read of the text of the next line, which is whole.
    fn push_line(&mut self, read: Result<Form, Reason>) -> Result<(), TraceError>
        requires draft { IsValid self.old }
        requires room { line_count self.old < 262144 }
        requires proper { IfOk read (λ form. (phase : ℕ) → IsLine (line_of phase form)) }
        ensures draft { OnOk result (IsValid self.new) }
        ensures empty { OnOk result (self.new.part.items ≡ []) }
        ensures lines { OnOk result (line_count self.new ≡ suc (line_count self.old)) }
        ensures after { IfErr result (IsAfter (line_count self.old)) }
        ensures text { (text left line : List ℕ) → read ≡ line_in line
            → Reaches text self.old line (10 ∷ left)
            → MatchResult result (λ _. Continues text self.new left) (Stops text) }
    {
        let form = match read {
            Ok(form) => form,
            Err(why) => return Err(self.refusal(why)),
        };
        self.lines.push(form.in_phase(self.phase))?;
        self.phase = form.phase_after(self.phase);
        self.part.clear();
        Ok(())
    }

    // The line that has come is whole.
    fn end_line(&mut self) -> Result<(), TraceError>
        requires draft { IsValid self.old }
        requires room { line_count self.old < 262144 }
        ensures draft { OnOk result (IsValid self.new) }
        ensures empty { OnOk result (self.new.part.items ≡ []) }
        ensures lines { OnOk result (line_count self.new ≡ suc (line_count self.old)) }
        ensures after { IfErr result (IsAfter (line_count self.old)) }
        ensures text { (text left : List ℕ) → Continues text self.old (10 ∷ left)
            → MatchResult result (λ _. Continues text self.new left) (Stops text) }
    {
        let read = line_of(&self.part);
        self.push_line(read)
    }

    // Whether bytes of the next line may come, none of which is a newline, with something behind
    // them where there are none.
    fn check(&self, bytes: &[u8]) -> Result<(), TraceError>
        requires draft { IsValid self.now }
        requires part { HasNoNewline bytes.now }
        ensures lines { OnOk result (line_count self.now < 262144) }
        ensures short { OnOk result (length self.now.part.items + length bytes.now ≤ 80) }
        ensures after { IfErr result (IsAfter (line_count self.now)) }
        ensures text { (text left : List ℕ) → 0 < length bytes.now + length left
            → Continues text self.now (bytes.now ++ left) → IfErr result (Stops text) }
    {
        if self.lines.len() == MOST_LINES {
            return Err(self.refusal(Reason::TooMany));
        }
        if bytes.len() > MOST_BYTES - self.part.len() {
            return Err(self.refusal(Reason::Length));
        }
        Ok(())
    }

    // Bytes of the next line come, none of which is a newline.
    fn take_part(&mut self, bytes: &[u8]) -> Result<(), TraceError>
        requires draft { IsValid self.old }
        requires part { HasNoNewline bytes.now }
        ensures draft { OnOk result (IsValid self.new) }
        ensures more { OnOk result (size_of self.new ≡ size_of self.old + length bytes.now) }
        ensures after { IfErr result (IsAfter (line_count self.old)) }
        ensures text { (text left : List ℕ) → Continues text self.old (bytes.now ++ left)
            → MatchResult result (λ _. Continues text self.new left) (Stops text) }
    {
        if bytes.is_empty() {
            return Ok(());
        }
        self.check(bytes)?;
        self.part.extend_from_slice(bytes)?;
        Ok(())
    }

    // The rest of a line comes, and its newline.
    fn take_line(&mut self, rest: &[u8]) -> Result<(), TraceError>
        requires draft { IsValid self.old }
        requires part { HasNoNewline rest.now }
        ensures draft { OnOk result (IsValid self.new) }
        ensures lines { OnOk result (line_count self.old ≤ line_count self.new) }
        ensures more { OnOk result (size_of self.old + length rest.now < size_of self.new) }
        ensures after { IfErr result (IsAfter (line_count self.old)) }
        ensures text { (text left : List ℕ) → Continues text self.old (rest.now ++ 10 ∷ left)
            → MatchResult result (λ _. Continues text self.new left) (Stops text) }
    {
        self.check(rest)?;
        if self.part.is_empty() {
            return self.push_line(line_of(rest));
        }
        self.part.extend_from_slice(rest)?;
        self.end_line()
    }

    /// The next bytes come.
    pub(crate) fn take_all(&mut self, bytes: &[u8]) -> Result<(), TraceError>
        requires { IsValid self.old }
        ensures draft { OnOk result (IsValid self.new) }
        ensures more { OnOk result (size_of self.old + length bytes.now ≤ size_of self.new) }
        ensures after { IfErr result (IsAfter (line_count self.old)) }
        ensures text { (text left : List ℕ) → Continues text self.old (bytes.now ++ left)
            → MatchResult result (λ _. Continues text self.new left) (Stops text) }
    {
        let mut rest = bytes;
        while let Some((line, behind)) = first_line(rest) {
            self.take_line(line)?;
            rest = behind;
        }
        self.take_part(rest)
    }

    /// No more comes: the last line may lack its newline.
    pub(crate) fn end(mut self) -> Result<Script, TraceError>
        requires { IsValid self }
        ensures trace { IfOk result IsTrace }
        ensures after { IfErr result (IsAfter (line_count self)) }
        ensures text { (text : List ℕ) → Continues text self []
            → MatchResult result (SpellAll (lines_of text)) (Stops text) }
    {
        if !self.part.is_empty() {
            self.end_line()?;
        }
        Ok(Script::from_lines(self.lines))
    }
}
