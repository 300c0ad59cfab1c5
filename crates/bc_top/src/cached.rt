//! A trace that changes no value, served over a pair with a cache.
//!
//! The pair was tested before. What is left is to read its parts into memory, to open it for a run,
//! which makes its backing device say that its cache may have what it lacks, to serve the lines,
//! and to close it again.
ghost use Rattle.std.specs.Prelude.{◌≡◌, ◌*◌, ◌<◌, ◌≤◌, ◌^◌, All, IfErr, IfOk, IfSome, IsNone, length};
ghost use Rattle.bc_sound_reads.specs.bc_cached_serve.Answered.{KeepsValues};
ghost use Rattle.bc_session_laws.specs.bc_open.Left.{LeavesThePair};
ghost use Rattle.bc_recover.specs.Read.{HasParts, IsReadOf};
ghost use Rattle.bc_replay.specs.Causes.{OfHeld};
ghost use Rattle.bc_script.specs.Answer.{IsPrintable};
ghost use Rattle.bc_script.specs.Proper.{IsLine};
ghost use Rattle.bc_session_laws.specs.bc_session.Idle.{IsIdleStop};
ghost use Rattle.bc_super.specs.Reading.{ReadsSuper};
ghost use Rattle.bc_top.specs.Cached.{HasReported, HasRunFrom, closing_of, stopped_at};
ghost use Rattle.bc_top.specs.Idle.{EndsUnopened, left_with};
ghost use Rattle.bc_top.specs.Opened.{AreStill};

use crate::ending::report;
use crate::exit::Exit;
use crate::stop::{Stop, tell};
use bc_disk::disk::{Device, Disk};
use bc_disk::stream::Sink;
use bc_replay::Survey;
use bc_script::line::Line;
use bc_session_laws::bc_loaded::load;
use bc_session_laws::bc_session::{CloseError, NotOpened, has_dirty};
use bc_sound_reads::bc_cached_serve::unsound::Unsound;
use bc_sound_reads::bc_cached_serve::whole_run::{Outcome, run_lines};
use bc_sound_reads::bc_serve::closing::Closing;
use bc_super::backing::BackingSuper;
use bc_worker::gate::NoGate;
use std::alloc::Global;
use std::sync::Wait;

// How many parts the leaves of a pair are kept in: there is one worker.
pub(crate) const PARTS: u32 = 1;

// The number of the line at which a run stopped.
fn stopped_at(served: Result<(), Unsound>) -> Option<u32>
    ensures { result ≡ stopped_at served }
{
    match served {
        Ok(()) => None,
        Err(stop) => Some(stop.line),
    }
}

// How a run was closed.
fn closing_of(closed: Result<(), CloseError>) -> Closing
    ensures { result ≡ closing_of closed }
{
    match closed {
        Ok(()) => Closing::Done,
        Err(CloseError::Fault) => Closing::Failed(Device::Backing),
        Err(CloseError::Halted(device)) => Closing::Halted(device),
        Err(CloseError::Memory) => Closing::Memory,
    }
}

// Reads the parts of a pair that was tested, opens it, serves the lines, and closes it. The error
// is why it wasn't opened, and hands both devices back.
fn run_cached<R: Wait, C: Disk + Drop, B: Disk + Drop>(
    rt: &R,
    alloc: Global,
    cache: C,
    backing: B,
    superblock: &BackingSuper,
    survey: &Survey,
    lines: &[Line],
) -> Result<Outcome<C, B>, NotOpened<C, B>>
    requires reads { ReadsSuper (B.facts backing) superblock.now }
    requires parts { HasParts survey.now }
    requires room { survey.now.supers.geometry.bucket * survey.now.supers.geometry.nbuckets
        ≤ (C.facts cache).sectors }
    requires read { OfHeld (IsReadOf survey.now) (C.facts cache) (B.facts backing) }
    requires still { AreStill (C.facts cache) (B.facts backing) }
    requires lines { All IsLine lines.now }
    requires keep { All KeepsValues lines.now }
    requires few { length lines.now < 2 ^ 32 }
    ensures printable { IfOk result (λ o. All IsPrintable o.answers.items) }
    ensures run { IfOk result
        (HasRunFrom C.facts B.facts superblock.now survey.now cache backing lines.now) }
    ensures cause { IfErr result (λ n. IsIdleStop C.facts B.facts survey.now cache backing
        (left_with n.why n.cache n.backing) n.why) }
    ensures left { IfErr result (λ n. LeavesThePair (C.facts cache) (C.facts n.cache)
        (B.facts backing) (B.facts n.backing)) }
{
    let mut cache = cache;
    let loaded = match load(alloc, &mut cache, survey, PARTS) {
        Ok(loaded) => loaded,
        Err(why) => {
            return Err(NotOpened {
                why,
                cache,
                backing,
            });
        }
    };
    let dirty = has_dirty(loaded.buckets.records());
    run_lines::<C, B, R, NoGate>(
        rt, alloc, survey, superblock, loaded, dirty, cache, backing, lines, &NoGate,
    )
}

/// Serves the lines of a trace, each of which reads, flushes or asks for nothing, over a pair that
/// was tested, and puts the answers in order and behind them the message. The backing device has
/// this superblock.
///
/// There is a pass where the pair was opened. Else a message says why it wasn't, and a crash leaves
/// a sound pair that shows what the pair showed.
pub(crate) fn serve_cached<R: Wait, C: Disk + Drop, B: Disk + Drop, K: Sink>(
    rt: &R,
    alloc: Global,
    cache: C,
    backing: B,
    superblock: &BackingSuper,
    survey: &Survey,
    lines: &[Line],
    out: &mut K,
) -> Exit<C, B>
    requires reads { ReadsSuper (B.facts backing) superblock.now }
    requires parts { HasParts survey.now }
    requires room { survey.now.supers.geometry.bucket * survey.now.supers.geometry.nbuckets
        ≤ (C.facts cache).sectors }
    requires read { OfHeld (IsReadOf survey.now) (C.facts cache) (B.facts backing) }
    requires still { AreStill (C.facts cache) (B.facts backing) }
    requires lines { All IsLine lines.now }
    requires keep { All KeepsValues lines.now }
    requires few { length lines.now < 2 ^ 32 }
    ensures ran { IfSome result.pass (HasReported C.facts B.facts superblock.now survey.now cache
        backing lines.now result (K.facts out.old) (K.facts out.new)) }
    ensures unopened { IsNone result.pass → EndsUnopened C.facts B.facts superblock.now survey.now
        cache result.cache backing result.backing result.status (K.facts out.old)
        (K.facts out.new) }
    ensures left { IsNone result.pass → LeavesThePair (C.facts cache) (C.facts result.cache)
        (B.facts backing) (B.facts result.backing) }
{
    match run_cached(rt, alloc, cache, backing, superblock, survey, lines) {
        Ok(outcome) => {
            let stopped = stopped_at(outcome.served);
            let closing = closing_of(outcome.closed.result);
            Exit {
                status: report(alloc, &outcome.answers, stopped, closing, out),
                cache: outcome.closed.cache,
                backing: outcome.closed.backing,
                pass: Some(outcome.closed.pass),
            }
        }
        Err(
            NotOpened {
                why,
                cache,
                backing,
            },
        ) => Exit {
            status: tell(&Stop::from(why), out),
            cache,
            backing,
            pass: None,
        },
    }
}
