//! Reads a request as programs write it: numbers of few digits, one space between two words, and none
//! elsewhere. Most lines of a long trace are such, and each of their bytes is looked at once. What
//! is found here is what the whole grammar says, and every other line is left to it.
ghost use Rattle.std.specs.Prelude.{◌≡◌, ◌≤◌, ◌^◌, Ok, IfSome};
ghost use Rattle.bc_script.specs.Line.{action_in, field_at, number_at, range_at, read_in, request_in, words, write_in};
ghost use Rattle.bc_script.specs.Proper.{IsProper, IsProperForm, IsRange};
ghost use Rattle.bc_script.specs.declared.reason.Reason.{Reason};

use crate::form::Form;
use crate::line::Action;
use crate::parse::{MOST_COUNT, MOST_FIRST, MOST_WORKER};

// The most digits of which every number fits.
const MOST_DIGITS: usize = 19;

// The number in front and the text behind the one space behind it, or nothing where the text ends.
#[inline(always)]
fn simple_number(text: &[u8]) -> Option<(u64, &[u8])>
    ensures { IfSome result
        (λ found. number_at (words text.now) ≡ Ok (found.0, words found.1.now)) }
{
    let most = text.len().min(MOST_DIGITS);
    let mut value: u64 = 0;
    let mut at = 0;
    while at < most && text[at].is_ascii_digit() {
        value = 10 * value + (text[at] - b'0') as u64;
        at += 1;
    }
    if at == 0 {
        return None;
    }
    if at == text.len() {
        return Some((value, &text[at..]));
    }
    if text[at] != b' ' {
        return None;
    }
    Some((value, &text[at + 1..]))
}

// The same of a number in this range.
#[inline(always)]
#[tactic(auto, unfolding(crate::specs::Line::field_at))]
fn simple_field(text: &[u8], least: u64, most: u64) -> Option<(u64, &[u8])>
    ensures found { (why : Reason) → IfSome result
        (λ found. field_at why least most (words text.now) ≡ Ok (found.0, words found.1.now)) }
    ensures range { IfSome result (λ found. (least ≤ found.0) × (found.0 ≤ most)) }
{
    let (value, rest) = simple_number(text)?;
    if value < least || value > most {
        return None;
    }
    Some((value, rest))
}

// FIRST and COUNT, and the text behind them.
#[inline(always)]
#[tactic(auto, unfolding(crate::specs::Line::range_at))]
fn simple_range(text: &[u8]) -> Option<(u64, u32, &[u8])>
    ensures found { IfSome result
        (λ found. range_at (words text.now) ≡ Ok (found.0, found.1, words found.2.now)) }
    ensures range { IfSome result (λ found. IsRange found.0 found.1) }
{
    let (first, rest) = simple_field(text, 0, MOST_FIRST)?;
    let (count, rest) = simple_field(rest, 1, MOST_COUNT)?;
    Some((first, count as u32, rest))
}

#[inline(always)]
#[tactic(auto, unfolding(crate::specs::Line::stamped_in, crate::specs::Line::write_in))]
fn simple_write(text: &[u8]) -> Option<Action>
    ensures found { IfSome result (λ action. write_in (words text.now) ≡ Ok action) }
    ensures proper { IfSome result IsProper }
{
    let (first, count, rest) = simple_range(text)?;
    let (stamp, rest) = simple_field(rest, 1, u64::MAX)?;
    if !rest.is_empty() {
        return None;
    }
    Some(Action::Write {
        first,
        count,
        stamp,
    })
}

#[inline(always)]
#[tactic(auto, unfolding(crate::specs::Line::read_in))]
fn simple_read(text: &[u8]) -> Option<Action>
    ensures found { IfSome result (λ action. read_in (words text.now) ≡ Ok action) }
    ensures proper { IfSome result IsProper }
{
    let (first, count, rest) = simple_range(text)?;
    if !rest.is_empty() {
        return None;
    }
    Some(Action::Read { first, count })
}

// What the words behind the worker's ask for.
#[inline(always)]
#[tactic(auto, unfolding(crate::specs::Line::asked_by))]
fn simple_action(text: &[u8]) -> Option<Action>
    ensures found { IfSome result (λ action. action_in (words text.now) ≡ Ok action) }
    ensures proper { IfSome result IsProper }
{
    if text.len() < 2 || text[1] != b' ' {
        return None;
    }
    match text[0] {
        b'w' => simple_write(&text[2..]),
        b'r' => simple_read(&text[2..]),
        _ => None,
    }
}

/// What the words of a line ask for, where they are such.
#[inline(always)]
#[tactic(auto, unfolding(crate::specs::Line::request_in))]
pub(crate) fn simple_request(text: &[u8]) -> Option<Form>
    ensures found { IfSome result (λ form. request_in (words text.now) ≡ Ok form) }
    ensures proper { IfSome result IsProperForm }
{
    let (worker, rest) = simple_field(text, 1, MOST_WORKER)?;
    let action = simple_action(rest)?;
    Some(Form::Asked {
        worker: worker as u8,
        action,
    })
}
