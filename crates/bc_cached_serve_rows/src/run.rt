//! A trace that is served over a pair, and what its lines are answered.
ghost use Rattle.std.specs.Prelude.{◌≡◌, ◌*◌, ◌≤◌, All, length};
ghost use Rattle.bc_disk.specs.Disk.{StandsFor};
ghost use Rattle.bc_disk.specs.Stands.{settled_model};
ghost use Rattle.bc_recover.specs.Read.{HasParts, IsReadOf};
ghost use Rattle.bc_replay.specs.Causes.{OfHeld};
ghost use Rattle.bc_script.specs.Trace.{IsTrace};
ghost use Rattle.bc_super.specs.Reading.{ReadsSuper};
ghost use Rattle.bc_cached_serve.specs.Answered.{KeepsValues};

use bc_cached_serve::asked::keep_values;
use bc_cached_serve::bc_loaded::load;
use bc_cached_serve::bc_session::NotOpened;
use bc_cached_serve::whole_run::{Outcome, run_lines};
use bc_disk::disk::Disk;
use bc_disk::mem_source::MemSource;
use bc_disk::modelled::settle;
use bc_model::values::Values;
use bc_replay::{OpenError, Survey, survey};
use bc_script::answer::{Answer, Refusal};
use bc_script::line::Line;
use bc_script::trace::read_trace;
use bc_super::backing::{BackingSuper, read_backing};
use bc_worker::gate::NoGate;
use std::alloc::{AllocError, Global};
use std::process::Abort;
use std::sync::Wait;
use std::test::Fail;

/// What a line is answered, with the first byte of each of 32 sectors that it read.
#[derive(Clone, Copy, Debug, PartialEq, Eq, Drop)]
pub(crate) enum Told {
    Silent,
    Read([u8; 32]),
    Done,
    Refused(Refusal),
    Other,
}

// The first bytes of 32 values.
fn firsts_of(values: &Values) -> [u8; 32]
    requires { length values.now ≡ 32 }
{
    let mut firsts = [0; 32];
    for i in 0..32 {
        let value = values.get(i as u32);
        firsts[i] = value[0];
    }
    firsts
}

fn told_by(answer: &Answer) -> Told {
    match answer {
        Answer::Silent => Told::Silent,
        Answer::Done => Told::Done,
        Answer::Runs { first: _, values } => {
            if values.len() == 32 {
                Told::Read(firsts_of(values))
            } else {
                Told::Other
            }
        }
        Answer::Refused(why) => Told::Refused(*why),
    }
}

/// What the lines were answered, in order.
pub(crate) fn tell<C, B>(alloc: Global, outcome: &Outcome<C, B>) -> Result<Vec<Told>, AllocError> {
    let mut told = Vec::new(alloc);
    for answer in &outcome.answers {
        told.push(told_by(answer))?;
    }
    Ok(told)
}

// Serves the lines over a pair that was surveyed.
fn serve_surveyed<C: Disk + Drop, B: Disk + Drop, R: Wait>(
    rt: &R,
    alloc: Global,
    s: &Survey,
    superblock: &BackingSuper,
    cache: C,
    backing: B,
    lines: &[Line],
) -> Result<Outcome<C, B>, OpenError>
    requires parts { HasParts s.now }
    requires room { s.now.supers.geometry.bucket * s.now.supers.geometry.nbuckets
        ≤ (C.facts cache).sectors }
    requires holds { ReadsSuper (B.facts backing) superblock.now }
    requires read { OfHeld (IsReadOf s.now) (C.facts cache) (B.facts backing) }
    requires still { StandsFor (C.facts cache) (settled_model (C.facts cache)) }
    requires rests { StandsFor (B.facts backing) (settled_model (B.facts backing)) }
    requires trace { IsTrace lines.now }
    requires keep { All KeepsValues lines.now }
{
    let mut cache = cache;
    let loaded = load(alloc, &mut cache, s, 1)?;
    match run_lines(
        rt, alloc, s, superblock, loaded, true, cache, backing, lines, &NoGate,
    ) {
        Ok(outcome) => Ok(outcome),
        Err(
            NotOpened {
                why,
                cache: _,
                backing: _,
            },
        ) => Err(why),
    }
}

// Reads a pair, and serves the lines over it.
fn serve_lines_over<C: Disk + Drop, B: Disk + Drop, R: Abort + Wait>(
    rt: &R,
    alloc: Global,
    mut cache: C,
    mut backing: B,
    lines: &[Line],
) -> Result<Outcome<C, B>, Fail>
    requires trace { IsTrace lines.now }
{
    if !keep_values(lines) {
        return Err(Fail::from(OpenError::Memory));
    }
    settle(&mut cache)?;
    settle(&mut backing)?;
    let superblock = read_backing(&mut backing)?;
    let s = survey(alloc, &mut cache, &mut backing)?;
    Ok(serve_surveyed(rt, alloc, &s, &superblock, cache, backing, lines)?)
}

/// Reads a pair, and serves the lines of a trace over it, which read or flush.
pub(crate) fn served<C: Disk + Drop, B: Disk + Drop, R: Abort + Wait>(
    rt: &R,
    alloc: Global,
    cache: C,
    backing: B,
    trace: &str,
) -> Result<Outcome<C, B>, Fail> {
    let bytes = Vec::from_slice(alloc, trace.as_bytes())?;
    let lines = read_trace(alloc, &mut MemSource::new(alloc, bytes))?.into_lines();
    serve_lines_over(rt, alloc, cache, backing, &lines)
}
