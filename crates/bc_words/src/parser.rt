//! The command line as clap is told it.
ghost use Rattle.std.specs.Prelude.{◌≡◌, [], ℕ, false, map, string_bytes, IfOk, IfErr};
ghost use Rattle.clap.specs.Words.{app_of, rule_of, fault_of, subcommand_of, subcommand_rows_of};
ghost use Rattle.clap.specs.declared.builder.command.Command.TheViews.{out-Command};
ghost use Rattle.bc_words.specs.Program.{optional, required, flag, check_app, format_app, serve_app, program};
ghost use Rattle.bc_words.specs.Reading.{IsParseCause};

use crate::error::WordsError;
use clap::error::ErrorKind;
use clap::{Arg, ArgAction, ArgMatches, Command};
use std::alloc::{AllocError, Global};

// An option of this name with a value.
fn optional<'a>(alloc: Global, name: &'a str) -> Arg<'a>
    ensures rule { rule_of result ≡ optional name.entry.now }
    ensures own { result.global ≡ false }
{
    Arg::new(alloc, name).long(name)
}

// An option of this name that may not be missing.
fn required<'a>(alloc: Global, name: &'a str) -> Arg<'a>
    ensures rule { rule_of result ≡ required name.entry.now }
    ensures own { result.global ≡ false }
{
    optional(alloc, name).required(true)
}

// An option of this name without a value.
fn flag<'a>(alloc: Global, name: &'a str) -> Arg<'a>
    ensures rule { rule_of result ≡ flag name.entry.now }
    ensures own { result.global ≡ false }
{
    Arg::new(alloc, name).long(name).action(ArgAction::SetTrue)
}

fn format_parser<'a>(alloc: Global) -> Result<Command<'a>, AllocError>
    ensures app { IfOk result (λ c. app_of c ≡ format_app) }
    ensures own { IfOk result (λ c. (out-Command c).has_globals ≡ false) }
{
    Command::new(alloc, "format")
        .arg(required(alloc, "set"))?
        .arg(required(alloc, "cuuid"))?
        .arg(required(alloc, "buuid"))?
        .arg(optional(alloc, "block"))?
        .arg(optional(alloc, "bucket"))?
        .arg(optional(alloc, "mode"))?
        .arg(optional(alloc, "offset"))
}

fn serve_parser<'a>(alloc: Global) -> Result<Command<'a>, AllocError>
    ensures app { IfOk result (λ c. app_of c ≡ serve_app) }
    ensures own { IfOk result (λ c. (out-Command c).has_globals ≡ false) }
{
    Command::new(alloc, "serve")
        .arg(optional(alloc, "mode"))?
        .arg(optional(alloc, "cutoff"))?
        .arg(optional(alloc, "slots"))
}

fn check_parser<'a>(alloc: Global) -> Result<Command<'a>, AllocError>
    ensures app { IfOk result (λ c. app_of c ≡ check_app) }
    ensures own { IfOk result (λ c. (out-Command c).has_globals ≡ false) }
{
    Command::new(alloc, "check").arg(flag(alloc, "list"))
}

fn parser<'a>(alloc: Global) -> Result<Command<'a>, AllocError>
    ensures app { IfOk result (λ c. app_of c ≡ program) }
{
    Command::new(alloc, "bcache")
        .no_binary_name(true)
        .disable_help_flag(true)
        .disable_help_subcommand(true)
        .subcommand_required(true)
        .subcommand(format_parser(alloc)?)?
        .subcommand(Command::new(alloc, "adopt"))?
        .subcommand(Command::new(alloc, "show"))?
        .subcommand(serve_parser(alloc)?)?
        .subcommand(check_parser(alloc)?)
}

/// What clap finds in the words.
pub(crate) fn parse<'a>(alloc: Global, words: &'a [String]) -> Result<ArgMatches<'a>, WordsError>
    ensures taken { IfOk result (λ m. fault_of program (map string_bytes words.entry.now) ≡ []) }
    ensures found { IfOk result (λ m. subcommand_rows_of m
        ≡ subcommand_of program (map string_bytes words.entry.now)) }
    ensures cause { IfErr result (IsParseCause (map string_bytes words.entry.now)) }
{
    match parser(alloc)?.try_get_matches_from(words) {
        Ok(matches) => Ok(matches),
        Err(error) => Err(match error.kind() {
            ErrorKind::OutOfMemory => WordsError::Memory,
            _ => WordsError::Usage,
        }),
    }
}
