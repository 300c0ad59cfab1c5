//! Puts the lines of answers to a sink.
ghost use Rattle.std.specs.Prelude.{◌≡◌, ◌<◌, ◌≤◌, ◌++◌, List, ℕ, All, Err, OnOk, OnErr, IfErr, MatchResult, false, length, take};
ghost use Rattle.std.specs.Bool.{OnFalse};
ghost use Rattle.bc_disk.specs.Device.{HasRisen};
ghost use Rattle.bc_script.specs.Answer.{IsPrintable};
ghost use Rattle.bc_output.specs.Put.{Takes, IsWriteFault};
ghost use Rattle.bc_output.specs.Lines.{IsFirstLoud, IsLineOf, AreLines, StandForAll, IsCut};

use crate::put::{WriteFault, put_all};
use bc_disk::stream::Sink;
use bc_script::answer::Answer;
use bc_script::print::print_answer;
use std::alloc::{AllocError, Global};

/// How answers were put.
#[derive(Clone, Copy, Debug, PartialEq, Eq, Drop)]
pub struct Printed {
    /// Whether no memory was found for the text of some answer, for which `memory` was put.
    pub memory_missed: bool,
    /// Whether every line was put whole, and why not.
    pub put: Result<(), WriteFault>,
}

// How many of the answers were put at once.
#[derive(Drop)]
struct Batch {
    count: usize,
    printed: Printed,
}

// The lines of answers are gathered up to at least so many bytes before they are put.
const GATHERED: usize = 4096;

// Prints the line of an answer behind these bytes, which stay as they were where there is no
// memory.
fn print_line(answer: &Answer, lines: &mut Vec<u8>) -> Result<(), AllocError>
    requires { IsPrintable answer.now }
    ensures ok { OnOk result ((line : List ℕ) × IsLineOf answer.now line
        × (lines.new.items ≡ lines.old.items ++ line)) }
    ensures err { OnErr result (lines.new.items ≡ lines.old.items) }
    ensures loud { OnErr result (answer.now ≡ Answer.Silent → ⊥) }
{
    if answer.is_silent() {
        return Ok(());
    }
    let before = lines.len();
    print_answer(answer, lines)?;
    if lines.push(b'\n').is_err() {
        lines.truncate(before);
        return Err(AllocError);
    }
    Ok(())
}

// Prints the lines of the first answers in place of these bytes, and answers how many: none only
// where there are none, or no memory was found for the first.
fn gather(answers: &[Answer], lines: &mut Vec<u8>) -> usize
    requires { All IsPrintable answers.now }
    ensures count { result ≤ length answers.now }
    ensures lines { StandForAll false (take result answers.now) lines.new.items }
    ensures loud { result ≡ 0 → IsFirstLoud answers.now }
{
    lines.clear();
    let mut count = 0;
    while count < answers.len() && lines.len() < GATHERED {
        if print_line(&answers[count], lines).is_err() {
            return count;
        }
        count += 1;
    }
    count
}

// Puts the lines of the first answers, one at least, which are printed in place of these bytes; or
// `memory` for the first.
fn put_some<K: Sink>(answers: &[Answer], lines: &mut Vec<u8>, out: &mut K) -> Batch
    requires printable { All IsPrintable answers.now }
    requires some { 0 < length answers.now }
    ensures count { (0 < result.count) × (result.count ≤ length answers.now) }
    ensures put { (text : List ℕ)
        × StandForAll result.printed.memory_missed (take result.count answers.now) text
        × MatchResult result.printed.put
        (λ _. Takes text (K.facts out.old) (K.facts out.new))
        (λ cause. IsWriteFault cause text (K.facts out.old) (K.facts out.new)) }
    ensures risen { result.printed.put ≡ Err WriteFault.Failed →
        HasRisen (K.facts out.old).faults (K.facts out.new).faults }
{
    let count = gather(answers, lines);
    if count == 0 {
        Batch {
            count: 1,
            printed: Printed {
                memory_missed: true,
                put: put_all(out, b"memory\n"),
            },
        }
    } else {
        Batch {
            count,
            printed: Printed {
                memory_missed: false,
                put: put_all(out, lines),
            },
        }
    }
}

/// Puts the line of each answer in order: its text and a newline, and nothing for one that is
/// silent. Where no memory is found for a text its line is `memory`. Lines are put some at a time;
/// the first write fault ends this, and the sink has then taken less than all lines up to there.
pub fn put_answers<K: Sink>(alloc: Global, answers: &[Answer], out: &mut K) -> Printed
    requires { All IsPrintable answers.now }

    // Where memory was found for each text the sink has taken the lines of the answers.
    ensures whole { OnOk result.put (OnFalse result.memory_missed ((text : List ℕ)
        × AreLines answers.now text × Takes text (K.facts out.old) (K.facts out.new))) }
    ensures put { OnOk result.put ((text : List ℕ)
        × StandForAll result.memory_missed answers.now text
        × Takes text (K.facts out.old) (K.facts out.new)) }

    ensures fault { IfErr result.put (λ cause. IsCut
        result.memory_missed cause answers.now (K.facts out.old) (K.facts out.new)) }
    ensures risen { result.put ≡ Err WriteFault.Failed →
        HasRisen (K.facts out.old).faults (K.facts out.new).faults }
{
    let mut lines = Vec::new(alloc);
    let mut memory_missed = false;
    let mut next = 0;
    while next < answers.len() {
        let some = put_some(&answers[next..], &mut lines, out);
        memory_missed |= some.printed.memory_missed;
        if some.printed.put.is_err() {
            return Printed {
                memory_missed,
                put: some.printed.put,
            };
        }
        next += some.count;
    }
    Printed {
        memory_missed,
        put: Ok(()),
    }
}
