//! A line of a trace, word by word, as the grammar has it.
ghost use Rattle.std.specs.Prelude.{◌≡◌, ◌≤◌, ◌==◌, Ok, Err, MatchResult, IfOk, filter, length, not};
ghost use Rattle.std.specs.List.{slice_split};
ghost use Rattle.bc_script.specs.Line.{action_in, asked_by, at_end, field_at, form_in, number_at, number_in, range_at, request_in, said_in, stamped_in, words, is_comment};
ghost use Rattle.bc_script.specs.declared.reason.Reason.{Reason};
ghost use Rattle.bc_plain.specs.PlainLine.{texts};

use bc_script::form::Form;
use bc_script::line::{Action, Rounds};
use bc_script::reason::Reason;
use std::alloc::{AllocError, Global};

// What stands between the spaces, but for what is empty.
fn pieces_of<'a>(alloc: Global, text: &'a [u8]) -> Result<Vec<&'a [u8]>, AllocError>
    ensures { IfOk result (λ said. texts said.items
        ≡ filter (λ word. not (length word == 0))
        (slice_split (λ byte. byte == 32) text.entry.now)) }
{
    text.split(|byte| *byte == b' ')
        .filter(|word| !word.is_empty())
        .collect(alloc)
}

// The words.
fn words_of<'a>(alloc: Global, text: &'a [u8]) -> Result<Vec<&'a [u8]>, AllocError>
    ensures { IfOk result (λ said. texts said.items ≡ words text.entry.now) }
{
    pieces_of(alloc, text)
}

// The number that a word spells.
fn number_of(word: &[u8]) -> Option<u64>
    ensures { result ≡ number_in word.now }
{
    if word.is_empty() {
        return None;
    }
    let mut value: u64 = 0;
    for byte in word {
        if !byte.is_ascii_digit() {
            return None;
        }
        value = value.checked_mul(10)?.checked_add((*byte - b'0') as u64)?;
    }
    Some(value)
}

// The number in the first word, which is to lie in this range, and the words behind it.
#[tactic(auto, unfolding(bc_script::specs::Line::field_at))]
fn first_field<'a>(
    said: &'a [&'a [u8]],
    why: Reason,
    least: u64,
    most: u64,
) -> Result<(u64, &'a [&'a [u8]]), Reason>
    ensures found { MatchResult result
        (λ found. field_at why least most (texts said.entry.now) ≡ Ok (found.0, texts found.1.now))
        (λ e. field_at why least most (texts said.entry.now) ≡ Err e) }
    ensures range { IfOk result (λ found. (least ≤ found.0) × (found.0 ≤ most)) }
{
    let [word, rest @ ..] = said else {
        return Err(Reason::Word);
    };
    match number_of(word) {
        None => Err(Reason::Number),
        Some(value) if value < least || value > most => Err(why),
        Some(value) => Ok((value, rest)),
    }
}

// What a line asks for that ends here.
fn ending(said: &[&[u8]], action: Action) -> Result<Action, Reason>
    ensures { result ≡ at_end (texts said.now) action }
{
    match said {
        [] => Ok(action),
        _ => Err(Reason::Word),
    }
}

// FIRST and COUNT, and the words behind them.
#[tactic(auto, unfolding(bc_script::specs::Line::range_at))]
fn first_range<'a>(said: &'a [&'a [u8]]) -> Result<(u64, u32, &'a [&'a [u8]]), Reason>
    ensures { MatchResult result
        (λ found. range_at (texts said.entry.now) ≡ Ok (found.0, found.1, texts found.2.now))
        (λ e. range_at (texts said.entry.now) ≡ Err e) }
{
    let (first, rest) = first_field(said, Reason::Range, 0, 1 << 40)?;
    let (count, rest) = first_field(rest, Reason::Range, 1, 2048)?;
    Ok((first, count as u32, rest))
}

// FIRST, COUNT and STAMP, and no further word.
#[tactic(auto, unfolding(bc_script::specs::Line::stamped_in))]
fn stamped_of(said: &[&[u8]]) -> Result<(u64, u32, u64), Reason>
    ensures { result ≡ stamped_in (texts said.now) }
{
    let (first, count, rest) = first_range(said)?;
    let (stamp, rest) = first_field(rest, Reason::Range, 1, u64::MAX)?;
    match rest {
        [] => Ok((first, count, stamp)),
        _ => Err(Reason::Word),
    }
}

// What a letter asks for.
#[tactic(auto, unfolding(bc_script::specs::Line::asked_by, bc_script::specs::Line::write_in, bc_script::specs::Line::forced_in, bc_script::specs::Line::read_in))]
fn asked_by(letter: u8, said: &[&[u8]]) -> Result<Action, Reason>
    ensures { result ≡ asked_by letter (texts said.now) }
{
    match letter {
        b'w' => {
            let (first, count, stamp) = stamped_of(said)?;
            Ok(Action::Write {
                first,
                count,
                stamp,
            })
        }
        b'W' => {
            let (first, count, stamp) = stamped_of(said)?;
            Ok(Action::ForcedWrite {
                first,
                count,
                stamp,
            })
        }
        b'r' => {
            let (first, count, rest) = first_range(said)?;
            ending(rest, Action::Read { first, count })
        }
        b'f' => ending(said, Action::Flush),
        b'b' => ending(said, Action::Round(Rounds::Writeback)),
        b'c' => ending(said, Action::Round(Rounds::Tracing)),
        b'm' => ending(said, Action::Round(Rounds::Moving)),
        _ => Err(Reason::Word),
    }
}

// What the words behind the worker's ask for.
fn action_of(said: &[&[u8]]) -> Result<Action, Reason>
    ensures { result ≡ action_in (texts said.now) }
{
    match said {
        [[letter], rest @ ..] => asked_by(*letter, rest),
        _ => Err(Reason::Word),
    }
}

// What the words of a request say.
#[tactic(auto, unfolding(bc_script::specs::Line::request_in))]
fn request_of(said: &[&[u8]]) -> Result<Form, Reason>
    ensures { result ≡ request_in (texts said.now) }
{
    let (worker, rest) = first_field(said, Reason::Worker, 1, 16)?;
    let action = action_of(rest)?;
    Ok(Form::Asked {
        worker: worker as u8,
        action,
    })
}

// What the words of a line that is no comment say.
fn said_of(said: &[&[u8]]) -> Result<Form, Reason>
    ensures { result ≡ said_in (texts said.now) }
{
    match said {
        [] => Ok(Form::Quiet),
        [[b'-']] => Ok(Form::PhaseEnd),
        _ => request_of(said),
    }
}

// Whether a text is a comment.
fn is_comment(text: &[u8]) -> bool
    ensures { result ≡ is_comment text.now }
{
    match text {
        [first, ..] => *first == b'#',
        [] => false,
    }
}

/// What the text of a line says, without its newline, by the whole grammar, or why it is refused.
#[tactic(auto, unfolding(bc_script::specs::Line::form_in))]
pub fn form_of(alloc: Global, text: &[u8]) -> Result<Result<Form, Reason>, AllocError>
    ensures { IfOk result (λ read. read ≡ form_in text.now) }
{
    if text.len() > 80 {
        return Ok(Err(Reason::Length));
    }
    if is_comment(text) {
        return Ok(Ok(Form::Quiet));
    }
    let said = words_of(alloc, text)?;
    Ok(said_of(&said))
}
