//! The command that serves a trace.
ghost use Rattle.std.specs.Prelude.{◌≡◌, ◌*◌, ◌≤◌, false, true, All, IfOk, IfErr};
ghost use Rattle.std.specs.Bool.{MatchBool};
ghost use Rattle.bc_sound_reads.specs.bc_cached_serve.Answered.{KeepsValues};
ghost use Rattle.bc_script.specs.Trace.{IsTrace, IsWhole};
ghost use Rattle.bc_session_laws.specs.bc_open.Left.{LeavesThePair};
ghost use Rattle.bc_recover.specs.Read.{HasParts, IsReadOf};
ghost use Rattle.bc_replay.specs.Causes.{OfHeld};
ghost use Rattle.bc_super.specs.Reading.{ReadsSuper};
ghost use Rattle.bc_top.specs.Opened.{AreStill, IsOpeningCause};
ghost use Rattle.bc_top.specs.Idle.{EndsOpening};
ghost use Rattle.bc_top.specs.Ready.{IsCached, IsReady};
ghost use Rattle.bc_top.specs.Call.{HasCause, ServesOver};
ghost use Rattle.bc_top.specs.Top.{AreSame, AskNothing, AskSomething, IsServeCause};

use crate::cached::{PARTS, serve_cached};
use crate::ending::report;
use crate::exit::Exit;
use crate::opening::{open_backing, test_pair};
use crate::stop::{Stop, tell};
use bc_disk::disk::Disk;
use bc_disk::stream::{Sink, Source};
use bc_output::status::Status;
use bc_replay::Survey;
use bc_script::line::Line;
use bc_script::trace::read_trace;
use bc_session_laws::bc_machine::part::BackingPart;
use bc_session_laws::bc_session::{Idled, open_and_close};
use bc_sound_reads::bc_cached_serve::asked::keep_values;
use bc_sound_reads::bc_serve::whole_run::run_trace;
use bc_super::backing::BackingSuper;
use bc_worker::gate::NoGate;
use std::alloc::Global;
use std::sync::Wait;

// What stands ready of a pair.
#[derive(Drop)]
enum Opening {
    // The backing device serves alone, with this superblock.
    Alone(BackingSuper),
    // It has a cache, and the pair can be opened.
    Cached(BackingSuper, Survey),
}

// What a call is made of.
#[derive(Drop)]
struct Prepared {
    lines: Vec<Line>,
    opening: Opening,
}

// Whether a line asks for something.
fn ask_something(lines: &[Line]) -> bool
    ensures { MatchBool result (AskSomething lines.now) (AskNothing lines.now) }
{
    for line in lines {
        match line {
            Line::Silent => {}
            Line::Request { .. } => return true,
        }
    }
    false
}

// Opens the pair for a run over the backing device alone, or tests it for an opening. Of a pair
// with a cache a write or a round isn't served yet.
fn open<C: Disk, B: Disk>(
    alloc: Global,
    cache: &mut C,
    backing: &mut B,
    more: bool,
) -> Result<Opening, Stop>
    ensures ready { IfOk result (IsReady C.facts B.facts cache.old cache.new
        backing.old backing.new) }
    ensures served { IfOk result (λ o. IsCached o → more ≡ false) }
    ensures unserved { IfErr result (λ stop. stop ≡ Stop.Unserved → more ≡ true) }
    ensures cause { IfErr result (IsOpeningCause (C.facts cache.old) (C.facts cache.new)
        (B.facts backing.old) (B.facts backing.new)) }
    ensures same { AreSame (C.facts cache.old) (C.facts cache.new) (B.facts backing.old)
        (B.facts backing.new) }
{
    let superblock = open_backing(backing)?;
    if superblock.is_pass_through() {
        return Ok(Opening::Alone(superblock));
    }
    let survey = test_pair(alloc, cache, backing)?;
    if more {
        return Err(Stop::Unserved);
    }
    Ok(Opening::Cached(superblock, survey))
}

// Reads the whole trace, then the pair.
fn prepare<C: Disk, B: Disk, S: Source>(
    alloc: Global,
    trace: &mut S,
    cache: &mut C,
    backing: &mut B,
) -> Result<Prepared, Stop>
    ensures lines { IfOk result (λ p. IsTrace p.lines.items
        × IsWhole (S.facts trace.old) (S.facts trace.new) p.lines.items) }
    ensures ready { IfOk result (λ p. IsReady C.facts B.facts cache.old cache.new
        backing.old backing.new p.opening) }
    ensures keep { IfOk result (λ p. IsCached p.opening → All KeepsValues p.lines.items) }
    ensures cause { IfErr result (λ stop. IsServeCause stop (S.facts trace.old) (S.facts trace.new)
        (C.facts cache.old) (C.facts cache.new) (B.facts backing.old) (B.facts backing.new)) }
    ensures same { AreSame (C.facts cache.old) (C.facts cache.new) (B.facts backing.old)
        (B.facts backing.new) }
{
    let script = read_trace(alloc, trace)?;
    let lines = script.into_lines();
    let keep = keep_values(&lines);
    let opening = open(alloc, cache, backing, !keep)?;
    Ok(Prepared { lines, opening })
}

// Opens a pair that was tested, for a run of which nothing is asked, closes it, and answers the
// status with both devices; where that fails the message is put.
fn open_idle<R: Wait, C: Disk + Drop, B: Disk + Drop, K: Sink>(
    rt: &R,
    alloc: Global,
    cache: C,
    backing: B,
    superblock: &BackingSuper,
    survey: &Survey,
    out: &mut K,
) -> (Status, C, B)
    requires reads { ReadsSuper (B.facts backing) superblock.now }
    requires parts { HasParts survey.now }
    requires room { survey.now.supers.geometry.bucket * survey.now.supers.geometry.nbuckets
        ≤ (C.facts cache).sectors }
    requires read { OfHeld (IsReadOf survey.now) (C.facts cache) (B.facts backing) }
    requires still { AreStill (C.facts cache) (B.facts backing) }
    ensures ends { EndsOpening C.facts B.facts superblock.now survey.now cache result.1 backing
        result.2 result.0 (K.facts out.old) (K.facts out.new) }
    ensures left { LeavesThePair (C.facts cache) (C.facts result.1) (B.facts backing)
        (B.facts result.2) }
{
    let Idled {
        cache,
        backing,
        result,
    } = open_and_close(rt, alloc, survey, superblock, PARTS, cache, backing);
    match result {
        Ok(()) => (Status::Done, cache, backing),
        Err(error) => (tell(&Stop::from(error), out), cache, backing),
    }
}

/// Serves a trace over a pair. Where the superblock of the backing device asks for no cache, that
/// device serves alone, and the cache device isn't touched.
///
/// The whole trace is read first, then the superblock of the backing device and, where it asks for
/// a cache, all of the pair but its data; the first of these that is refused ends the call with a
/// message, as does a cache over which a line asks for a write or a round, which isn't served yet,
/// and no sector is written. Then each line is served in order, a last barrier is made, and the
/// answers are put in order. A pair with a cache is opened for that and closed behind it, also
/// where no line asks anything. A line that finds its index unsound, or a part of it busy, ends the
/// run: the lines before it are answered, and a message names it.
pub fn serve<R: Wait, C: Disk + Drop, B: Disk + Drop, S: Source, K: Sink>(
    rt: &R,
    alloc: Global,
    trace: &mut S,
    cache: C,
    backing: B,
    out: &mut K,
) -> Exit<C, B>
    ensures serves { ServesOver C.facts B.facts cache backing result (S.facts trace.old)
        (S.facts trace.new) (K.facts out.old) (K.facts out.new) }
    ensures cause { HasCause C.facts B.facts cache backing result (S.facts trace.old)
        (S.facts trace.new) (K.facts out.old) (K.facts out.new) }
    ensures used { result.status ≡ Status.Usage → ⊥ }
{
    let mut cache = cache;
    let mut backing = backing;
    let prepared = match prepare(alloc, trace, &mut cache, &mut backing) {
        Ok(prepared) => prepared,
        Err(stop) => {
            return Exit {
                status: tell(&stop, out),
                cache,
                backing,
                pass: None,
            };
        }
    };
    let Prepared { lines, opening } = prepared;
    let superblock = match opening {
        Opening::Alone(superblock) => superblock,
        Opening::Cached(superblock, survey) => {
            if ask_something(&lines) {
                return serve_cached(rt, alloc, cache, backing, &superblock, &survey, &lines, out);
            }
            let (status, cache, backing) = open_idle(
                rt,
                alloc,
                cache,
                backing,
                &superblock,
                &survey,
                out,
            );
            return Exit {
                status,
                cache,
                backing,
                pass: None,
            };
        }
    };
    let offset = superblock.data_offset;
    let size = superblock.data_sectors(backing.sectors());
    let backing = BackingPart {
        disk: backing,
        offset,
        size,
    };
    match run_trace::<C, B, R, NoGate>(rt, alloc, backing, &lines, &NoGate) {
        Ok(outcome) => Exit {
            status: report(alloc, &outcome.answers, None, outcome.closing, out),
            cache,
            backing: outcome.backing.disk,
            pass: Some(outcome.pass),
        },
        Err(backing) => Exit {
            status: tell(&Stop::Memory, out),
            cache,
            backing: backing.disk,
            pass: None,
        },
    }
}
