//! Prints answers.
ghost use Rattle.std.specs.Prelude.{◌≡◌, ◌+◌, ◌<◌, ◌≤◌, ◌^◌, ◌++◌, [], List, length, OnOk, OnErr, IfOk};
ghost use Rattle.std.specs.Char.{digit_char};
ghost use Rattle.std.specs.Fmt.{decimal};
ghost use Rattle.bc_script.specs.Runs.{AreSeen, hex, seen_text, runs_text};
ghost use Rattle.bc_script.specs.Answer.{asked_text, device_text, numbers_text, refusal_text, IsGrown, IsPrintable, AppendsText};
ghost use Rattle.bc_script.specs.declared.seen.Seen.{Seen};

use crate::answer::{Answer, Asked, Refusal};
use crate::last::Last;
use crate::seen::Seen;
use bc_disk::disk::Device;
use bc_model::run::Run;
use bc_model::values::Values;
use itoa::Buffer;
use std::alloc::{AllocError, Global};

// A lower-case hexadecimal digit.
fn hex_digit(value: u8) -> u8
    requires { value < 16 }
    ensures { result ≡ digit_char value }
{
    if value < 10 {
        b'0' + value
    } else {
        b'a' + (value - 10)
    }
}

// Two digits for each byte.
fn push_hex(text: &mut Vec<u8>, bytes: &[u8]) -> Result<(), AllocError>
    ensures { OnOk result (text.new.items ≡ text.old.items ++ hex bytes.now) }
{
    for byte in bytes {
        text.push(hex_digit(*byte / 16))?;
        text.push(hex_digit(*byte % 16))?;
    }
    Ok(())
}

// A number in decimal digits.
pub(crate) fn push_number(text: &mut Vec<u8>, number: u64) -> Result<(), AllocError>
    ensures ok { OnOk result (text.new.items ≡ text.old.items ++ decimal number) }
    ensures err { OnErr result (text.new.items ≡ text.old.items) }
{
    let mut digits = Buffer::new();
    text.extend_from_slice(digits.format(number).as_bytes())
}

// So many sectors with the patterns of a stamp.
fn push_stamp(text: &mut Vec<u8>, stamp: u64, count: u32) -> Result<(), AllocError>
    ensures ok { OnOk result
        (text.new.items ≡ text.old.items ++ seen_text (Seen.Stamp stamp) count) }
    ensures err { OnErr result (IsGrown text.old.items text.new.items) }
{
    push_number(text, stamp)?;
    text.extend_from_slice(b"x")?;
    push_number(text, u64::from(count))
}

// So many sectors of zeros.
fn push_zeros(text: &mut Vec<u8>, count: u32) -> Result<(), AllocError>
    ensures ok { OnOk result (text.new.items ≡ text.old.items ++ seen_text Seen.Zero count) }
    ensures err { OnErr result (IsGrown text.old.items text.new.items) }
{
    text.extend_from_slice(b"zerox")?;
    push_number(text, u64::from(count))
}

/// So many sectors of one run.
pub(crate) fn push_seen(text: &mut Vec<u8>, seen: &Seen, count: u32) -> Result<(), AllocError>
    ensures { OnOk result (text.new.items ≡ text.old.items ++ seen_text seen.now count) }
{
    match seen {
        Seen::Stamp(stamp) => push_stamp(text, *stamp, count),
        Seen::Zero => push_zeros(text, count),
        Seen::Other(value) => {
            text.extend_from_slice(b"raw:")?;
            push_hex(text, value)
        }
    }
}

// The runs of the sectors from `first` on.
fn runs_of(alloc: Global, first: u64, values: &Values) -> Result<Vec<u8>, AllocError>
    requires range { first + length values.now < 2 ^ 64 }
    ensures { IfOk result (λ text. (seen : List Seen)
        × AreSeen first values.now seen × (text.items ≡ runs_text seen)) }
{
    let mut text = Vec::new(alloc);
    let runs = values.runs();
    let mut last = Last::none();
    let next = last.push_runs(first, &runs.rest, &mut text)?;
    last.push_option(next, &runs.last, &mut text)?;
    last.end(&mut text)?;
    Ok(text)
}

// The runs of the sectors from `first` on, behind these bytes. Where all sectors are of one run, as
// most lines read, they take no text of their own.
fn push_runs(first: u64, values: &Values, into: &mut Vec<u8>) -> Result<(), AllocError>
    requires range { first + length values.now < 2 ^ 64 }
    ensures ok { OnOk result ((seen : List Seen) × AreSeen first values.now seen
        × (into.new.items ≡ into.old.items ++ runs_text seen)) }
    ensures err { OnErr result (IsGrown into.old.items into.new.items) }
{
    let runs = values.runs();
    if let Some(run) = &runs.last
        && runs.rest.is_empty()
    {
        match run {
            Run::Pattern {
                stamp,
                first: own,
                count,
            } if *own == first && *count > 0 => return push_stamp(into, *stamp, *count),
            Run::Zero { count } if *count > 0 => return push_zeros(into, *count),
            _ => {}
        }
    }
    let text = runs_of(*into.allocator(), first, values)?;
    into.extend_from_slice(&text)
}

fn device_of(device: Device) -> &'static [u8]
    ensures { result.now ≡ device_text device }
{
    match device {
        Device::Cache => b"cache",
        Device::Backing => b"backing",
    }
}

fn asked_of(purpose: Asked) -> &'static [u8]
    ensures { result.now ≡ asked_text purpose }
{
    match purpose {
        Asked::Tree => b"tree",
        Asked::Moving => b"moving",
    }
}

// Two numbers with a space between them.
fn push_numbers(text: &mut Vec<u8>, first: u64, second: u64) -> Result<(), AllocError>
    ensures { OnOk result (text.new.items ≡ text.old.items ++ numbers_text first second) }
{
    push_number(text, first)?;
    text.extend_from_slice(b" ")?;
    push_number(text, second)
}

fn refusal_of(alloc: Global, refusal: Refusal) -> Result<Vec<u8>, AllocError>
    ensures { IfOk result (λ text. text.items ≡ refusal_text refusal) }
{
    let mut text = Vec::new(alloc);
    match refusal {
        Refusal::OutOfRange => text.extend_from_slice(b"out-of-range")?,
        Refusal::NoBucket {
            purpose,
            none_len,
            own_len,
        } => {
            text.extend_from_slice(b"no-bucket ")?;
            text.extend_from_slice(asked_of(purpose))?;
            text.extend_from_slice(b" ")?;
            push_numbers(&mut text, none_len as u64, own_len as u64)?;
        }
        Refusal::Fault(device) => {
            text.extend_from_slice(b"fault ")?;
            text.extend_from_slice(device_of(device))?;
        }
        Refusal::Halted(device) => {
            text.extend_from_slice(b"halted ")?;
            text.extend_from_slice(device_of(device))?;
        }
        Refusal::Memory => text.extend_from_slice(b"memory")?,
        Refusal::JournalEnd => text.extend_from_slice(b"journal-end")?,
        Refusal::Node { bucket, why } => {
            text.extend_from_slice(b"node ")?;
            push_numbers(&mut text, bucket as u64, why as u64)?;
        }
    }
    Ok(text)
}

/// Puts the text of an answer, without a newline, behind the bytes of `into`; after an error these
/// are as before.
///
/// Of a line that asked for nothing there is none. Else it is `done`; the runs of the sectors, with a space between two: `STAMPxCOUNT` for neighbours
/// that hold the patterns of that stamp for their own numbers, `zerox` and a count for zeros, and
/// `raw:` and 1,024 hexadecimal digits for any other sector; or why the line was refused:
/// `out-of-range`, `no-bucket` with the purpose and both lengths, `fault` or `halted` with the
/// device, `memory`, `journal-end`, or `node` with the bucket and the number of the reason.
pub fn print_answer(answer: &Answer, into: &mut Vec<u8>) -> Result<(), AllocError>
    requires { IsPrintable answer.now }
    ensures ok { OnOk result (AppendsText answer.now into.old.items into.new.items) }
    ensures err { OnErr result (into.new.items ≡ into.old.items) }
{
    match answer {
        Answer::Silent => Ok(()),
        Answer::Done => into.extend_from_slice(b"done"),
        Answer::Runs { first, values } => {
            let before = into.len();
            if push_runs(*first, values, into).is_err() {
                into.truncate(before);
                return Err(AllocError);
            }
            Ok(())
        }
        Answer::Refused(refusal) => {
            let text = refusal_of(*into.allocator(), *refusal)?;
            into.extend_from_slice(&text)
        }
    }
}
