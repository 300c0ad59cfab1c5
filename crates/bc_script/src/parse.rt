//! Reads the text of one line.
ghost use Rattle.std.specs.Prelude.{◌≡◌, ◌+◌, ◌≤◌, ◌<◌, ◌^◌, ◌-◌, ℕ, List, [], ◌∷◌, Some, None, Ok, Err, MatchOption, MatchResult, IfOk, IsTrue, not, length, ◌↔◌};
ghost use Rattle.std.specs.List.{position_or_len};
ghost use Rattle.bc_script.specs.Line.{is_space, front, is_comment, is_phase_end, words, number_in, number_at, field_at, at_end, range_at, stamped_in, write_in, forced_in, read_in, asked_by, action_in, request_in, said_in, form_in};
ghost use Rattle.bc_script.specs.Proper.{IsProper, IsProperForm, IsRange, IsLine};
ghost use Rattle.bc_script.specs.Unserved.{line_in};
ghost use Rattle.bc_script.specs.Trace.{line_of};
ghost use Rattle.bc_script.specs.declared.line.Action.{Action};
ghost use Rattle.bc_script.specs.declared.form.Form.{Form};
ghost use Rattle.bc_script.specs.declared.reason.Reason.{Reason};

use crate::form::Form;
use crate::line::{Action, Rounds};
use crate::reason::Reason;
use crate::simple::simple_request;
use crate::unserved::if_served;

// The most bytes of a line, its newline not counted.
const MOST_BYTES: usize = 80;
/// The last sector that a range may begin at.
pub(crate) const MOST_FIRST: u64 = 1 << 40;
/// The most sectors of a range.
pub(crate) const MOST_COUNT: u64 = 2048;
/// The greatest number of a worker.
pub(crate) const MOST_WORKER: u64 = 16;

// How many spaces stand in front.
#[inline(always)]
fn blank_len(text: &[u8]) -> usize
    ensures place { result ≡ position_or_len (λ b. not (is_space b)) text.now }
    ensures within { result ≤ length text.now }
{
    for (at, byte) in text.iter().enumerate() {
        if *byte != b' ' {
            return at;
        }
    }
    text.len()
}

// How many bytes stand before the first space.
#[inline(always)]
fn word_len(text: &[u8]) -> usize
    ensures place { result ≡ position_or_len is_space text.now }
    ensures within { result ≤ length text.now }
{
    for (at, byte) in text.iter().enumerate() {
        if *byte == b' ' {
            return at;
        }
    }
    text.len()
}

// The first word, and the text behind it.
#[inline(always)]
fn first_word(text: &[u8]) -> Option<(&[u8], &[u8])>
    ensures { MatchOption result (words text.now ≡ [])
        (λ found. words text.now ≡ found.0.now ∷ words found.1.now) }
{
    let (_, text) = text.split_at(blank_len(text));
    let end = word_len(text);
    if end == 0 {
        return None;
    }
    Some(text.split_at(end))
}

// The number in the word in front of a text, and how many bytes it has.
#[inline(always)]
fn front_number(text: &[u8]) -> Option<(u64, usize)>
    requires { 0 < position_or_len is_space text.now }
    ensures { MatchOption result (number_in (front text.now) ≡ None)
        (λ found. (number_in (front text.now) ≡ Some found.0)
        × (found.1 ≡ position_or_len is_space text.now)) }
{
    let mut value: u64 = 0;
    for (at, byte) in text.iter().enumerate() {
        if !byte.is_ascii_digit() {
            if *byte == b' ' {
                return Some((value, at));
            }
            return None;
        }
        value = value.checked_mul(10)?.checked_add((*byte - b'0') as u64)?;
    }
    Some((value, text.len()))
}

// The number in the first word, and the text behind it.
#[inline(always)]
fn first_number(text: &[u8]) -> Result<(u64, &[u8]), Reason>
    ensures { MatchResult result
        (λ found. number_at (words text.now) ≡ Ok (found.0, words found.1.now))
        (λ why. number_at (words text.now) ≡ Err why) }
{
    let (_, text) = text.split_at(blank_len(text));
    if text.is_empty() {
        return Err(Reason::Word);
    }
    match front_number(text) {
        Some((value, end)) => Ok((value, text.split_at(end).1)),
        None => Err(Reason::Number),
    }
}

// The number in the first word, which is to lie in this range, else the line is refused for that.
#[inline(always)]
#[tactic(auto, unfolding(crate::specs::Line::field_at))]
fn first_field(text: &[u8], why: Reason, least: u64, most: u64) -> Result<(u64, &[u8]), Reason>
    ensures found { MatchResult result
        (λ found. field_at why least most (words text.now) ≡ Ok (found.0, words found.1.now))
        (λ e. field_at why least most (words text.now) ≡ Err e) }
    ensures range { IfOk result (λ found. (least ≤ found.0) × (found.0 ≤ most)) }
{
    let (value, rest) = first_number(text)?;
    if value < least || value > most {
        return Err(why);
    }
    Ok((value, rest))
}

// What a line asks for that ends here.
#[inline(always)]
fn ending(text: &[u8], action: Action) -> Result<Action, Reason>
    ensures { result ≡ at_end (words text.now) action }
{
    if first_word(text).is_some() {
        return Err(Reason::Word);
    }
    Ok(action)
}

// FIRST and COUNT, and the text behind them.
#[inline(always)]
#[tactic(auto, unfolding(crate::specs::Line::range_at))]
fn first_range(text: &[u8]) -> Result<(u64, u32, &[u8]), Reason>
    ensures found { MatchResult result
        (λ found. range_at (words text.now) ≡ Ok (found.0, found.1, words found.2.now))
        (λ e. range_at (words text.now) ≡ Err e) }
    ensures range { IfOk result (λ found. IsRange found.0 found.1) }
{
    let (first, rest) = first_field(text, Reason::Range, 0, MOST_FIRST)?;
    let (count, rest) = first_field(rest, Reason::Range, 1, MOST_COUNT)?;
    Ok((first, count as u32, rest))
}

// FIRST, COUNT and STAMP.
#[inline(always)]
#[tactic(auto, unfolding(crate::specs::Line::stamped_in))]
fn stamped_of(text: &[u8]) -> Result<(u64, u32, u64), Reason>
    ensures found { result ≡ stamped_in (words text.now) }
    ensures range { IfOk result (λ found. IsRange found.0 found.1 × (1 ≤ found.2)) }
{
    let (first, count, rest) = first_range(text)?;
    let (stamp, rest) = first_field(rest, Reason::Range, 1, u64::MAX)?;
    if first_word(rest).is_some() {
        return Err(Reason::Word);
    }
    Ok((first, count, stamp))
}

#[inline(always)]
#[tactic(auto, unfolding(crate::specs::Line::write_in))]
fn write_of(text: &[u8]) -> Result<Action, Reason>
    ensures found { result ≡ write_in (words text.now) }
    ensures proper { IfOk result IsProper }
{
    let (first, count, stamp) = stamped_of(text)?;
    Ok(Action::Write {
        first,
        count,
        stamp,
    })
}

#[inline(always)]
#[tactic(auto, unfolding(crate::specs::Line::forced_in))]
fn forced_of(text: &[u8]) -> Result<Action, Reason>
    ensures found { result ≡ forced_in (words text.now) }
    ensures proper { IfOk result IsProper }
{
    let (first, count, stamp) = stamped_of(text)?;
    Ok(Action::ForcedWrite {
        first,
        count,
        stamp,
    })
}

#[inline(always)]
#[tactic(auto, unfolding(crate::specs::Line::read_in))]
fn read_of(text: &[u8]) -> Result<Action, Reason>
    ensures found { result ≡ read_in (words text.now) }
    ensures proper { IfOk result IsProper }
{
    let (first, count, rest) = first_range(text)?;
    ending(rest, Action::Read { first, count })
}

#[inline(always)]
#[tactic(auto, unfolding(crate::specs::Line::asked_by))]
fn asked_by(letter: u8, text: &[u8]) -> Result<Action, Reason>
    ensures found { result ≡ asked_by letter (words text.now) }
    ensures proper { IfOk result IsProper }
{
    match letter {
        b'w' => write_of(text),
        b'W' => forced_of(text),
        b'r' => read_of(text),
        b'f' => ending(text, Action::Flush),
        b'b' => ending(text, Action::Round(Rounds::Writeback)),
        b'c' => ending(text, Action::Round(Rounds::Tracing)),
        b'm' => ending(text, Action::Round(Rounds::Moving)),
        _ => Err(Reason::Word),
    }
}

// What the words behind the worker's ask for.
#[inline(always)]
fn action_of(text: &[u8]) -> Result<Action, Reason>
    ensures found { result ≡ action_in (words text.now) }
    ensures proper { IfOk result IsProper }
{
    let Some((word, rest)) = first_word(text) else {
        return Err(Reason::Word);
    };
    match word {
        [letter] => asked_by(*letter, rest),
        _ => Err(Reason::Word),
    }
}

#[inline(always)]
#[tactic(auto, unfolding(crate::specs::Line::request_in))]
fn request_of(text: &[u8]) -> Result<Form, Reason>
    ensures found { result ≡ request_in (words text.now) }
    ensures proper { IfOk result IsProperForm }
{
    let (worker, rest) = first_field(text, Reason::Worker, 1, MOST_WORKER)?;
    let action = action_of(rest)?;
    Ok(Form::Asked {
        worker: worker as u8,
        action,
    })
}

// What the words of a line that is no comment say.
#[inline(always)]
#[tactic(auto, using(crate::proofs::Digits::said_request))]
fn said_of(text: &[u8]) -> Result<Form, Reason>
    ensures found { result ≡ said_in (words text.now) }
    ensures proper { IfOk result IsProperForm }
{
    if let Some(form) = simple_request(text) {
        return Ok(form);
    }
    let Some((word, rest)) = first_word(text) else {
        return Ok(Form::Quiet);
    };
    if word == b"-".as_slice() && first_word(rest).is_none() {
        return Ok(Form::PhaseEnd);
    }
    request_of(text)
}

// Whether a text is a comment.
#[inline(always)]
fn is_comment(text: &[u8]) -> bool
    ensures { result ≡ is_comment text.now }
{
    match text {
        [first, ..] => *first == b'#',
        [] => false,
    }
}

// What the text of a line says, by the whole grammar.
#[inline(always)]
#[tactic(auto, unfolding(crate::specs::Line::form_in))]
fn form_of(text: &[u8]) -> Result<Form, Reason>
    ensures found { result ≡ form_in text.now }
    ensures proper { IfOk result IsProperForm }
{
    if text.len() > MOST_BYTES {
        return Err(Reason::Length);
    }
    if is_comment(text) {
        return Ok(Form::Quiet);
    }
    said_of(text)
}

/// What the text of a line says, without its newline, where it is served.
#[inline(always)]
#[tactic(auto, unfolding(crate::specs::Unserved::line_in))]
pub(crate) fn line_of(text: &[u8]) -> Result<Form, Reason>
    ensures found { result ≡ line_in text.now }
    ensures proper { IfOk result (λ form. (phase : ℕ) → IsLine (line_of phase form)) }
{
    if_served(form_of(text)?)
}
