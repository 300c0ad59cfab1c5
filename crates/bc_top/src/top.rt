//! The program but for its two files: from the words of a command to what is printed.
ghost use Rattle.std.specs.Prelude.{◌≡◌, IfSome};
ghost use Rattle.bc_output.specs.declared.message.Message.{Message};
ghost use Rattle.bc_top.specs.Call.{EndsWell, HasCause, IsUnknown, Obeys, OnlyTells, ServesOver};
ghost use Rattle.bc_top.specs.Top.{IsServe, Says, SaysNone};
ghost use Rattle.bc_pair.specs.Causes.{KeepsOthers};
ghost use Rattle.bc_words.specs.declared.command.Command.{Command};

use crate::exit::Exit;
use crate::pairs::{adopt_pair, format_pair, print_check, print_pair};
use crate::serve::serve;
use crate::stop::{Stop, tell};
use bc_disk::disk::Disk;
use bc_disk::stream::{Sink, Source};
use bc_output::status::Status;
use bc_pair::pair::NewPair;
use bc_words::{Command, read_words};
use std::alloc::Global;
use std::sync::Wait;

/// Runs a command over a cache device and a backing device. The words are those behind the two
/// devices, as `read_words` reads them: `serve` serves a trace and prints its answers; `format`
/// makes a new pair, and `adopt` takes one into use that another tool formatted; `show` prints what
/// the superblocks say, and `check` whether a pair is sound. Both devices come back.
pub fn bcache<R: Wait, C: Disk + Drop, B: Disk + Drop, S: Source, K: Sink>(
    rt: &R,
    alloc: Global,
    words: &[String],
    trace: &mut S,
    cache: C,
    backing: B,
    out: &mut K,
) -> Exit<C, B>
    // `Usage` comes where the words spell no command, unless memory for them runs out. Then nothing
    // is done but that this is told.
    ensures usage { result.status ≡ Status.Usage → SaysNone words.now }
    ensures unknown { SaysNone words.now → IsUnknown cache backing result (K.facts out.old)
        (K.facts out.new) }
    ensures told { result.status ≡ Status.Usage → OnlyTells cache backing result Message.Usage
        (K.facts out.old) (K.facts out.new) }

    // What a command but `serve` does. None of them writes a sector of data.
    ensures does { (command : Command) → Says words.now command → Obeys C.facts B.facts
        cache backing result command (K.facts out.old) (K.facts out.new) }
    ensures data { (IsServe words.now → ⊥)
        → KeepsOthers (B.facts backing) (B.facts result.backing) }

    ensures unread { (IsServe words.now → ⊥) → trace.new ≡ trace.old }

    // `serve` serves a trace. No other command begins a run.
    ensures serves { IsServe words.now → ServesOver C.facts B.facts cache backing result
        (S.facts trace.old) (S.facts trace.new) (K.facts out.old) (K.facts out.new) }
    ensures begun { IfSome result.pass (λ _. IsServe words.now) }

    // Why it ends so; `Memory` alone needs no cause.
    ensures cause { HasCause C.facts B.facts cache backing result (S.facts trace.old)
        (S.facts trace.new) (K.facts out.old) (K.facts out.new) }

    // Where nothing fails, any other command is done or says why it isn't.
    ensures ends { (IsServe words.now → ⊥) → EndsWell C.facts B.facts cache backing result
        words.now (K.facts out.old) (K.facts out.new) }
{
    match read_words(alloc, words) {
        Ok(Command::Serve(_)) => serve(rt, alloc, trace, cache, backing, out),
        Ok(
            Command::Format {
                set,
                cuuid,
                buuid,
                block,
                bucket,
                mode,
                offset,
            },
        ) => {
            let pair = NewPair {
                set_uuid: set,
                cache_uuid: cuuid,
                backing_uuid: buuid,
                block,
                bucket,
                mode,
                offset,
            };
            format_pair(alloc, &pair, cache, backing, out)
        }
        Ok(Command::Adopt) => adopt_pair(alloc, cache, backing, out),
        Ok(Command::Show) => print_pair(alloc, cache, backing, out),
        Ok(Command::Check(list)) => print_check(alloc, list, cache, backing, out),
        Err(error) => Exit {
            status: tell(&Stop::from(error), out),
            cache,
            backing,
            pass: None,
        },
    }
}
