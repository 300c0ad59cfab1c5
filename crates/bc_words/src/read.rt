//! Reads the words of a command line.
ghost use Rattle.std.specs.Prelude.{◌≡◌, ◌≤◌, ◌<◌, ◌^◌, ℕ, List, Option, None, map, codes, string_bytes, option_map, MatchOption, IfOk, IfErr};
ghost use Rattle.std.specs.Fmt.{decimal};
ghost use Rattle.hex.specs.Hex.{encode_lower};
ghost use Rattle.clap.specs.Words.{first_of, first_value, found_of, rows_of};
ghost use Rattle.bc_words.specs.Words.{IsFlag, IsNumberOr, IsModeIfGiven, IsModeOr, IsUuid, IsSize, IsWithin, IsInRange, Spells};
ghost use Rattle.bc_words.specs.Reading.{IsCause, Reads, ReadsOptions, ReadsValues};
ghost use Rattle.bc_words.specs.declared.command.Command.{Command};
ghost use Rattle.bc_mode.specs.declared.mode.Mode.{Mode};

use crate::command::{Command, Options};
use crate::error::WordsError;
use crate::mode::mode_of;
use crate::parser::parse;
use bc_mode::Mode;
use clap::ArgMatches;
use hex::{FromHex, encode_to_slice};
use std::alloc::Global;

// The most sectors of a block.
const MOST_BLOCK: u64 = 8;
// The fewest sectors of a bucket.
const LEAST_BUCKET: u64 = 64;
// The most sectors of a bucket.
const MOST_BUCKET: u64 = 32_768;
// The fewest sectors before the data, as bc_super has them; this crate stands on no format.
const LEAST_OFFSET: u64 = 16;
// The most sectors before the data.
const MOST_OFFSET: u64 = 1 << 40;
// The most sectors of a cutoff.
const MOST_CUTOFF: u64 = 1 << 40;
// The most slots.
const MOST_SLOTS: u64 = 1024;

// The uuid that a word spells.
fn uuid_of(word: &str) -> Option<[u8; 16]>
    ensures { MatchOption result
        ((uuid : List ℕ) → IsUuid uuid → word.now ≡ encode_lower uuid → ⊥)
        (λ uuid. IsUuid uuid × (word.now ≡ encode_lower uuid)) }
{
    let uuid = <[u8; 16]>::from_hex(word).ok()?;
    // Upper-case digits were read too, but they aren't how the uuid is written.
    let mut digits = [0; 32];
    encode_to_slice(uuid, &mut digits).ok()?;
    if digits.as_slice() != word.as_bytes() {
        return None;
    }
    Some(uuid)
}

// The number that a word spells.
fn number_of(word: &str) -> Option<u64>
    ensures { MatchOption result
        ((number : ℕ) → number < 2 ^ 64 → word.now ≡ decimal number → ⊥)
        (λ number. word.now ≡ decimal number) }
{
    let first = *word.as_bytes().first()?;
    // A sign and zeros in front could be parsed too.
    if first == b'+' {
        return None;
    }
    if first == b'0' && word.len() != 1 {
        return None;
    }
    word.parse().ok()
}

// The number that a word spells, or the default where there is no word.
fn given_or(default: u64, word: Option<&str>) -> Option<u64>
    ensures { MatchOption result
        ((number : ℕ) → number < 2 ^ 64
        → IsNumberOr default (option_map (λ s. s.now) word.entry) number → ⊥)
        (λ number. IsNumberOr default (option_map (λ s. s.now) word.entry) number) }
{
    match word {
        None => Some(default),
        Some(word) => number_of(word),
    }
}

// The same of a number in this range.
fn number_or(default: u64, word: Option<&str>, least: u64, most: u64) -> Option<u64>
    ensures { MatchOption result
        ((number : ℕ) → IsWithin least most number
        → IsNumberOr default (option_map (λ s. s.now) word.entry) number → ⊥)
        (λ number. IsWithin least most number
        × IsNumberOr default (option_map (λ s. s.now) word.entry) number) }
{
    let number = given_or(default, word)?;
    if number < least || number > most {
        return None;
    }
    Some(number)
}

// The same of a power of two.
fn size_or(default: u64, word: Option<&str>, least: u64, most: u64) -> Option<u64>
    ensures { MatchOption result
        ((size : ℕ) → IsSize least most size
        → IsNumberOr default (option_map (λ s. s.now) word.entry) size → ⊥)
        (λ size. IsSize least most size
        × IsNumberOr default (option_map (λ s. s.now) word.entry) size) }
{
    let size = number_or(default, word, least, most)?;
    if !size.is_power_of_two() {
        return None;
    }
    Some(size)
}

// The mode that a word names, if there is a word.
fn mode_if_given(word: Option<&str>) -> Option<Option<Mode>>
    ensures { MatchOption result
        ((mode : Option Mode) → IsModeIfGiven (option_map (λ s. s.now) word.entry) mode → ⊥)
        (λ mode. IsModeIfGiven (option_map (λ s. s.now) word.entry) mode) }
{
    match word {
        None => Some(None),
        Some(word) => Some(Some(mode_of(word)?)),
    }
}

// The mode that a word names, or the default where there is no word.
fn mode_or(default: Mode, word: Option<&str>) -> Option<Mode>
    ensures { MatchOption result
        ((mode : Mode) → IsModeOr default (option_map (λ s. s.now) word.entry) mode → ⊥)
        (λ mode. IsModeOr default (option_map (λ s. s.now) word.entry) mode) }
{
    match word {
        None => Some(default),
        Some(word) => mode_of(word),
    }
}

// The value of the option of this name.
fn value_of<'a>(matches: &ArgMatches<'a>, name: &str) -> Option<&'a str>
    ensures { option_map (λ s. s.now) result ≡ first_of name.now (rows_of (found_of matches.now)) }
{
    matches.get_str(name)
}

// What the options of `format` ask for.
fn format_of(matches: &ArgMatches<'_>) -> Option<Command>
    ensures { ReadsValues (codes "format") (rows_of (found_of matches.now)) result }
{
    let set = uuid_of(value_of(matches, "set")?)?;
    if set == [0; 16] {
        return None;
    }
    let cuuid = uuid_of(value_of(matches, "cuuid")?)?;
    let buuid = uuid_of(value_of(matches, "buuid")?)?;
    let block = size_or(1, value_of(matches, "block"), 1, MOST_BLOCK)?;
    let bucket = size_or(1024, value_of(matches, "bucket"), LEAST_BUCKET, MOST_BUCKET)?;
    let mode = mode_or(Mode::Writethrough, value_of(matches, "mode"))?;
    let offset = number_or(16, value_of(matches, "offset"), LEAST_OFFSET, MOST_OFFSET)?;
    Some(Command::Format {
        set,
        cuuid,
        buuid,
        block: block as u16,
        bucket: bucket as u16,
        mode,
        offset,
    })
}

// What the options of `serve` say.
fn options_of(matches: &ArgMatches<'_>) -> Option<Options>
    ensures { ReadsOptions (rows_of (found_of matches.now)) result }
{
    let mode = mode_if_given(value_of(matches, "mode"))?;
    let cutoff = number_or(8192, value_of(matches, "cutoff"), 0, MOST_CUTOFF)?;
    let slots = number_or(1024, value_of(matches, "slots"), 1, MOST_SLOTS)?;
    Some(Options {
        mode,
        cutoff,
        slots: slots as u32,
    })
}

// Whether the flag of this name is given.
fn is_given(matches: &ArgMatches<'_>, name: &str) -> bool
    ensures { IsFlag (first_of name.now (rows_of (found_of matches.now))) result }
{
    match value_of(matches, name) {
        Some(word) => word == "true",
        None => false,
    }
}

// What the command of this name asks for.
fn command_of(name: &str, matches: &ArgMatches<'_>) -> Option<Command>
    ensures { ReadsValues name.now (rows_of (found_of matches.now)) result }
{
    match name {
        "format" => format_of(matches),
        "adopt" => Some(Command::Adopt),
        "show" => Some(Command::Show),
        "check" => Some(Command::Check(is_given(matches, "list"))),
        "serve" => Some(Command::Serve(options_of(matches)?)),
        _ => None,
    }
}

// What the words ask for, and nothing only where they spell no command.
fn command_in(alloc: Global, words: &[String]) -> Result<Command, WordsError>
    ensures { Reads (map string_bytes words.now) result }
{
    let matches = parse(alloc, words)?;
    let Some((name, values)) = matches.subcommand() else {
        return Err(WordsError::Usage);
    };
    command_of(name, values).ok_or(WordsError::Usage)
}

/// The command that the words spell: `adopt`, `show`, `check`, `format` or `serve`, and behind it
/// options, `--list` of `check` alone and the others with a value each, as `--NAME VALUE` or `--NAME=VALUE`, in any order and each once at most.
///
/// `format` has `--set X --cuuid X --buuid X`, and may have `--block N` (1 where it isn't given),
/// `--bucket N` (1024), `--mode M` (writethrough) and `--offset N` (16). An X is the 32 lower-case
/// hexadecimal digits of a uuid, byte by byte, and the set's isn't all zero. An N is in decimal
/// digits without a zero in front, and counts sectors: a block has 1, 2, 4 or 8, a bucket a power of
/// two from 64 to 32,768, and before the data are 16 to 2^40. An M is writethrough, writeback,
/// writearound or none. `serve` may have `--mode M`, `--cutoff N` (8192; 0 to 2^40 sectors) and
/// `--slots N` (1024; 1 to 1,024). Any other words are `Usage`.
pub fn read_words(alloc: Global, words: &[String]) -> Result<Command, WordsError>
    ensures spelled { IfOk result (λ command. IsInRange command
        × Spells (map string_bytes words.now) command) }
    // Without memory nothing is known of the words.
    ensures refused { IfErr result (IsCause (map string_bytes words.now)) }
    // What is spelled is read, and no other command.
    ensures read { (command : Command) → IsInRange command
        → Spells (map string_bytes words.now) command
        → IfOk result (λ found. found ≡ command) }
{
    command_in(alloc, words)
}
