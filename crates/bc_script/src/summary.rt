//! What is said of a trace that was served as a whole.
ghost use Rattle.std.specs.Prelude.{◌≡◌, ◌+◌, ◌<◌, ◌≤◌, ◌%◌, ◌^◌, ◌++◌, ℕ, List, length, All, IfOk, OnOk, count_by, sum_by};
ghost use Rattle.std.specs.Fmt.{decimal};
ghost use Rattle.bc_script.specs.Answer.{IsPrintable};
ghost use Rattle.bc_script.specs.Runs.{AreSeen};
ghost use Rattle.bc_script.specs.Summary.{AllSumTo, IsSummary, SumsTo, asks, flushes, is_refused, reads, stamp_of, summary_text, writes};
ghost use Rattle.bc_script.specs.declared.seen.Seen.{Seen};

use crate::answer::Answer;
use crate::line::{Action, Line};
use crate::print::push_number;
use crate::seen::Seen;
use bc_model::values::Values;
use std::alloc::{AllocError, Global};

/// How many lines a trace has, of each kind, how many were refused, and the sum, modulo 2^64, of the
/// stamps of all sectors that were read and held their pattern.
#[derive(Clone, Copy, Debug, PartialEq, Eq, Drop)]
pub struct Summary {
    pub lines: u64,
    pub writes: u64,
    pub reads: u64,
    pub flushes: u64,
    pub refused: u64,
    pub sum: u64,
}

fn writes(line: &Line) -> bool
    ensures { result ≡ asks writes line.now }
{
    matches!(
        line,
        Line::Request {
            action: Action::Write { .. } | Action::ForcedWrite { .. },
            ..
        }
    )
}

fn reads(line: &Line) -> bool
    ensures { result ≡ asks reads line.now }
{
    matches!(
        line,
        Line::Request {
            action: Action::Read { .. },
            ..
        }
    )
}

fn flushes(line: &Line) -> bool
    ensures { result ≡ asks flushes line.now }
{
    matches!(
        line,
        Line::Request {
            action: Action::Flush,
            ..
        }
    )
}

fn is_refused(answer: &Answer) -> bool
    ensures { result ≡ is_refused answer.now }
{
    matches!(answer, Answer::Refused(_))
}

// The stamp of a sector that holds its pattern.
fn stamp_of(seen: &Seen) -> u64
    ensures { result ≡ stamp_of seen.now }
{
    match seen {
        Seen::Stamp(stamp) => *stamp,
        Seen::Zero | Seen::Other(_) => 0,
    }
}

// The sum of the stamps of the sectors from `first` on.
fn sum_of_values(first: u64, values: &Values) -> u64
    requires { first + length values.now < 2 ^ 64 }
    ensures { (seen : List Seen) × AreSeen first values.now seen
        × (result ≡ sum_by stamp_of seen % 2 ^ 64) }
{
    let mut sum: u64 = 0;
    for place in 0..values.len() {
        let seen = Seen::new(first + place as u64, &values.get(place));
        sum = sum.wrapping_add(stamp_of(&seen));
    }
    sum
}

// The sum of the stamps that an answer shows.
fn sum_of(answer: &Answer) -> u64
    requires { IsPrintable answer.now }
    ensures { (total : ℕ) × SumsTo answer.now total × (result ≡ total % 2 ^ 64) }
{
    match answer {
        Answer::Runs { first, values } => sum_of_values(*first, values),
        _ => 0,
    }
}

// The sum of the stamps that all answers show.
fn sum_of_all(answers: &[Answer]) -> u64
    requires { All IsPrintable answers.now }
    ensures { (total : ℕ) × AllSumTo answers.now total × (result ≡ total % 2 ^ 64) }
{
    let mut sum: u64 = 0;
    for answer in answers {
        sum = sum.wrapping_add(sum_of(answer));
    }
    sum
}

fn count_writes(lines: &[Line]) -> usize
    ensures { result ≡ count_by (asks writes) lines.now }
{
    lines.iter().filter(|line| writes(line)).count()
}

fn count_reads(lines: &[Line]) -> usize
    ensures { result ≡ count_by (asks reads) lines.now }
{
    lines.iter().filter(|line| reads(line)).count()
}

fn count_flushes(lines: &[Line]) -> usize
    ensures { result ≡ count_by (asks flushes) lines.now }
{
    lines.iter().filter(|line| flushes(line)).count()
}

fn count_refused(answers: &[Answer]) -> usize
    ensures { result ≡ count_by is_refused answers.now }
{
    answers.iter().filter(|answer| is_refused(answer)).count()
}

/// The summary of a trace and its answers.
pub fn summary_of(lines: &[Line], answers: &[Answer]) -> Summary
    requires { All IsPrintable answers.now }
    ensures { IsSummary lines.now answers.now result }
{
    Summary {
        lines: lines.len() as u64,
        writes: count_writes(lines) as u64,
        reads: count_reads(lines) as u64,
        flushes: count_flushes(lines) as u64,
        refused: count_refused(answers) as u64,
        sum: sum_of_all(answers),
    }
}

// A word and a number behind it.
fn push_field(text: &mut Vec<u8>, word: &[u8], number: u64) -> Result<(), AllocError>
    ensures { OnOk result (text.new.items ≡ text.old.items ++ (word.now ++ decimal number)) }
{
    text.extend_from_slice(word)?;
    push_number(text, number)
}

/// The line of a summary without its newline:
/// `lines L writes W reads R flushes F refused X sum S`.
pub fn print_summary(alloc: Global, summary: &Summary) -> Result<Vec<u8>, AllocError>
    ensures { IfOk result (λ text. text.items ≡ summary_text summary.now) }
{
    let mut text = Vec::new(alloc);
    push_field(&mut text, b"lines ", summary.lines)?;
    push_field(&mut text, b" writes ", summary.writes)?;
    push_field(&mut text, b" reads ", summary.reads)?;
    push_field(&mut text, b" flushes ", summary.flushes)?;
    push_field(&mut text, b" refused ", summary.refused)?;
    push_field(&mut text, b" sum ", summary.sum)?;
    Ok(text)
}
