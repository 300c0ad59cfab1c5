//! Two superblocks as text.
ghost use Rattle.std.specs.Prelude.{◌≡◌, ◌++◌, ◌/◌, ◌%◌, ◌^◌, ◌<◌, OnOk, IfOk};
ghost use Rattle.std.specs.Char.{digit_char};
ghost use Rattle.std.specs.Fmt.{decimal};
ghost use Rattle.std.specs.String.{string_bytes};
ghost use Rattle.bc_mode.specs.Mode.{mode_text};
ghost use Rattle.bc_super.specs.Show.{IsShown, backing_line, cache_line, hex, pair, replacement_text, state_text, uuid_line};

use crate::backing::BackingSuper;
use crate::cache::CacheSuper;
use crate::state::BackingState;
use bc_mode::Mode;
use std::alloc::{AllocError, Global};

fn mode_word(mode: Mode) -> &'static str
    ensures { result.now ≡ mode_text mode }
{
    match mode {
        Mode::Writethrough => "writethrough",
        Mode::Writeback => "writeback",
        Mode::Writearound => "writearound",
        Mode::None => "none",
    }
}

fn state_word(state: BackingState) -> &'static str
    ensures { result.now ≡ state_text state }
{
    match state {
        BackingState::None => "none",
        BackingState::Clean => "clean",
        BackingState::Dirty => "dirty",
        BackingState::Stale => "stale",
    }
}

fn replacement_word(replacement: u64) -> &'static str
    ensures { result.now ≡ replacement_text replacement }
{
    match replacement {
        0 => "lru",
        1 => "fifo",
        2 => "random",
        _ => "other",
    }
}

// A lower-case hexadecimal digit.
fn hex_digit(value: u8) -> u8
    requires { value < 16 }
    ensures { result ≡ digit_char value }
{
    if value < 10 {
        b'0' + value
    } else {
        b'a' + (value - 10)
    }
}

// Two digits for each byte.
fn push_hex(text: &mut String, bytes: &[u8]) -> Result<(), AllocError>
    ensures { OnOk result (string_bytes text.new ≡ string_bytes text.old ++ hex bytes.now) }
{
    for byte in bytes {
        text.push(char::from(hex_digit(*byte / 16)))?;
        text.push(char::from(hex_digit(*byte % 16)))?;
    }
    Ok(())
}

// A word and its value.
fn push_pair(text: &mut String, word: &str, value: &str) -> Result<(), AllocError>
    ensures { OnOk result (string_bytes text.new ≡ string_bytes text.old ++ pair word.now value.now) }
{
    text.push_str(" ")?;
    text.push_str(word)?;
    text.push_str(" ")?;
    text.push_str(value)
}

// A word and a number.
fn push_number(text: &mut String, word: &str, number: u64) -> Result<(), AllocError>
    ensures { OnOk result (string_bytes text.new ≡ string_bytes text.old ++ pair word.now (decimal number)) }
{
    let digits = number.to_string(*text.allocator())?;
    push_pair(text, word, digits.as_str())
}

// A word and a uuid.
fn push_uuid(text: &mut String, word: &str, uuid: &[u8; 16]) -> Result<(), AllocError>
    ensures { OnOk result (string_bytes text.new ≡ string_bytes text.old ++ pair word.now (hex uuid.now)) }
{
    push_pair(text, word, "")?;
    push_hex(text, uuid)
}

fn push_uuids(
    text: &mut String,
    device: &str,
    uuid: &[u8; 16],
    set: &[u8; 16],
) -> Result<(), AllocError>
    ensures { OnOk result (string_bytes text.new ≡ string_bytes text.old ++ uuid_line device.now uuid.now set.now) }
{
    text.push_str(device)?;
    push_uuid(text, "uuid", uuid)?;
    push_uuid(text, "set", set)?;
    text.push_str("\n")
}

fn push_cache(text: &mut String, c: &CacheSuper) -> Result<(), AllocError>
    ensures { OnOk result (string_bytes text.new ≡ string_bytes text.old ++ cache_line c.now) }
{
    text.push_str("cache")?;
    push_number(text, "version", c.version)?;
    push_number(text, "block", u64::from(c.block))?;
    push_number(text, "bucket", u64::from(c.bucket))?;
    push_number(text, "buckets", u64::from(c.nbuckets))?;
    push_number(text, "first", u64::from(c.first_bucket))?;
    push_number(text, "journal", u64::from(c.journal))?;
    push_pair(text, "replacement", replacement_word(c.replacement()))?;
    push_number(text, "sync", c.sync())?;
    push_number(text, "discard", c.discard())?;
    text.push_str("\n")
}

fn push_backing(
    text: &mut String,
    b: &BackingSuper,
    mode: Mode,
    state: BackingState,
    size: u64,
) -> Result<(), AllocError>
    ensures { OnOk result (string_bytes text.new ≡ string_bytes text.old ++ backing_line b.now size mode state) }
{
    text.push_str("backing")?;
    push_number(text, "version", b.version)?;
    push_number(text, "offset", b.data_offset)?;
    push_number(text, "size", size)?;
    push_pair(text, "mode", mode_word(mode))?;
    push_pair(text, "state", state_word(state))?;
    text.push_str("\n")
}

/// The four lines that show the superblocks of a cache device, which need not be set up, and of a
/// backing device whose data has so many sectors. Numbers are decimal, and uuids have 32 lower-case
/// hexadecimal digits.
pub fn show(
    alloc: Global,
    c: &CacheSuper,
    b: &BackingSuper,
    size: u64,
) -> Result<String, AllocError>
    ensures { IfOk result (λ text. IsShown c.now b.now size (string_bytes text)) }
{
    let mut text = String::new(alloc);
    push_cache(&mut text, c)?;
    push_uuids(&mut text, "cache", &c.uuid, &c.set_uuid)?;
    push_backing(&mut text, b, b.mode(), b.state(), size)?;
    push_uuids(&mut text, "backing", &b.uuid, &b.set_uuid)?;
    Ok(text)
}
