//! The commands that make, show and check a pair.
ghost use Rattle.std.specs.Prelude.{◌≡◌, IsNone, string_bytes};
ghost use Rattle.bc_top.specs.Stops.{verdict_status};
ghost use Rattle.bc_top.specs.Pairs.{EndsChecking, EndsPrinting, EndsSilently, HasAdopted, HasChecked, HasFormatted, HasShown};

use crate::exit::Exit;
use crate::stop::{Stop, tell};
use bc_check::{CheckError, ReportText, Verdict, tell_pair};
use bc_disk::disk::Disk;
use bc_disk::stream::Sink;
use bc_output::put::put_all;
use bc_output::status::Status;
use bc_pair::adopt::adopt;
use bc_pair::error::PairError;
use bc_pair::format::format;
use bc_pair::pair::NewPair;
use bc_pair::show::show_pair;
use std::alloc::Global;

// The status of a command that prints nothing of its own.
fn end_silently<K: Sink>(answer: Result<(), PairError>, out: &mut K) -> Status
    ensures { EndsSilently answer result (K.facts out.old) (K.facts out.new) }
{
    match answer {
        Ok(()) => Status::Done,
        Err(error) => tell(&Stop::from(error), out),
    }
}

// Prints what a command answers, which has the status.
fn end_printing<K: Sink>(answer: &Result<String, PairError>, out: &mut K) -> Status
    ensures { EndsPrinting answer.now result (K.facts out.old) (K.facts out.new) }
{
    match answer {
        Ok(text) => match put_all(out, text.as_bytes()) {
            Ok(()) => Status::Done,
            Err(_) => Status::Sink,
        },
        Err(error) => tell(&Stop::from(*error), out),
    }
}

// The status of a verdict.
fn status_of(verdict: Verdict) -> Status
    ensures { result ≡ verdict_status verdict }
{
    match verdict {
        Verdict::PassThrough | Verdict::Sound { .. } => Status::Done,
        Verdict::Journal { .. } | Verdict::Age { .. } | Verdict::Agree { .. } => Status::Image,
    }
}

// Prints a verdict, which has its own status.
fn end_checking<K: Sink>(answer: &Result<ReportText, CheckError>, out: &mut K) -> Status
    ensures { EndsChecking answer.now result (K.facts out.old) (K.facts out.new) }
{
    match answer {
        Ok(report) => match put_all(out, report.text.as_bytes()) {
            Ok(()) => status_of(report.verdict),
            Err(_cut) => Status::Sink,
        },
        Err(error) => tell(&Stop::from(*error), out),
    }
}

/// Makes a new pair of these devices.
pub fn format_pair<C: Disk, B: Disk, K: Sink>(
    alloc: Global,
    pair: &NewPair,
    cache: C,
    backing: B,
    out: &mut K,
) -> Exit<C, B>
    ensures formatted { HasFormatted C.facts B.facts result.status cache result.cache
        backing result.backing (K.facts out.old) (K.facts out.new) pair.now }
    ensures none { IsNone result.pass }
{
    let (mut cache, mut backing) = (cache, backing);
    let answer = format(alloc, &mut cache, &mut backing, pair);
    Exit {
        status: end_silently(answer, out),
        cache,
        backing,
        pass: None,
    }
}

/// Sets up a cache for a pair that another tool formatted.
pub fn adopt_pair<C: Disk, B: Disk, K: Sink>(
    alloc: Global,
    cache: C,
    backing: B,
    out: &mut K,
) -> Exit<C, B>
    ensures adopted { HasAdopted C.facts B.facts result.status cache result.cache
        backing result.backing (K.facts out.old) (K.facts out.new) }
    ensures none { IsNone result.pass }
{
    let (mut cache, mut backing) = (cache, backing);
    let answer = adopt(alloc, &mut cache, &mut backing);
    Exit {
        status: end_silently(answer, out),
        cache,
        backing,
        pass: None,
    }
}

/// Prints what the superblocks of a pair say.
pub fn print_pair<C: Disk, B: Disk, K: Sink>(
    alloc: Global,
    cache: C,
    backing: B,
    out: &mut K,
) -> Exit<C, B>
    ensures shown { HasShown C.facts B.facts result.status cache result.cache
        backing result.backing (K.facts out.old) (K.facts out.new) }
    ensures none { IsNone result.pass }
{
    let (mut cache, mut backing) = (cache, backing);
    let answer = show_pair(alloc, &mut cache, &mut backing);
    Exit {
        status: end_printing(&answer, out),
        cache,
        backing,
        pass: None,
    }
}

/// Prints whether a pair is sound, and of a sound one what its buckets hold, if that is asked for.
pub fn print_check<C: Disk, B: Disk, K: Sink>(
    alloc: Global,
    list: bool,
    cache: C,
    backing: B,
    out: &mut K,
) -> Exit<C, B>
    ensures checked { HasChecked C.facts B.facts result.status cache result.cache
        backing result.backing (K.facts out.old) (K.facts out.new) list }
    ensures none { IsNone result.pass }
{
    let (mut cache, mut backing) = (cache, backing);
    let answer = tell_pair(alloc, &mut cache, &mut backing, list);
    Exit {
        status: end_checking(&answer, out),
        cache,
        backing,
        pass: None,
    }
}
