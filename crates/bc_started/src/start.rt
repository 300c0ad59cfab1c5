//! A run is started over a pair that was read.
ghost use Rattle.std.specs.Prelude.{◌≡◌, All, IfErr, IfOk, None, Some};
ghost use Rattle.bc_enter.specs.Begun.{IsUnsealed};
ghost use Rattle.bc_entries.specs.Lists.{IsFit};
ghost use Rattle.bc_entries.specs.Reading.{StandsWithin};
ghost use Rattle.bc_started.specs.Start.{CanStart, HasStarted};
ghost use Rattle.bc_started.specs.Stop.{IsCauseOf, IsEarly, IsNoHalt, IsNotStarted};

use crate::first::put_first;
use bc_book::pass::Pass;
use bc_cached::run::{Devices, Ended, Ready, begin, end};
use bc_disk::disk::Disk;
use bc_disk::geometry::Geometry;
use bc_enter::next_journal;
use bc_entries::Journal as Entries;
use bc_entry::bc_hand::error::StepError;
use bc_entry::bc_machine::machine::{CoreParts, CoreSeat};
use bc_entry::bc_machine::part::{Apart, BackingPart};
use bc_journal::Journal;
use std::alloc::Global;
use std::sync::Wait;

/// Why a run isn't started.
#[derive(Clone, Copy, Debug, PartialEq, Eq, Drop)]
pub enum StartError {
    /// The newest entry tells no level of a root, or still needs an entry of number 0. No run began.
    Odd,
    /// There was no memory. The entry wasn't written.
    Memory,
    /// A call of the cache device failed, the last one of the run.
    Fault,
}

/// Both devices of a run that isn't started, and why.
#[derive(Drop)]
pub struct NotStarted<C, B> {
    pub why: StartError,
    pub cache: C,
    pub backing: BackingPart<B>,
    /// What was done, where a run began.
    pub pass: Option<Pass>,
}

// The journal that puts the entry, apart: one that goes on behind what was read, as that of the run
// does.
fn first_journal(alloc: Global, g: &Geometry, read: &Entries) -> Result<Apart<Journal>, StartError>
    requires fit { IsFit g.now read.now.all read.now.entries }
    requires places { All (StandsWithin g.now) read.now.all }
    ensures found { IfOk result (IsUnsealed g.now read.now) }
    ensures cause { IfErr result (IsEarly read.now) }
{
    let journal = match next_journal(alloc, g, read) {
        Ok(Some(journal)) => journal,
        Ok(None) => return Err(StartError::Odd),
        Err(_) => return Err(StartError::Memory),
    };
    match Apart::new(alloc, journal) {
        Ok(journal) => Ok(journal),
        Err(_) => Err(StartError::Memory),
    }
}

// The devices of what a run isn't begun with.
fn devices_of<C: Drop, B: Drop>(ready: Ready<C, B>) -> Devices<C, B>
    ensures cache { result.cache ≡ ready.cache }
    ensures backing { result.backing ≡ ready.backing }
{
    let Ready {
        tree: _,
        buckets: _,
        reserves: _,
        chain: _,
        walk: _,
        journal: _,
        cache,
        backing,
        leaves: _,
    } = ready;
    Devices { cache, backing }
}

// What is handed back where no run began.
fn unbegun<C, B>(why: StartError, devices: Devices<C, B>) -> NotStarted<C, B>
    ensures { result ≡ record {
      why = why;
      cache = devices.cache;
      backing = devices.backing;
      pass = None;
    } }
{
    let Devices { cache, backing } = devices;
    NotStarted {
        why,
        cache,
        backing,
        pass: None,
    }
}

// What is handed back where the run ended, which no other seat can have halted.
fn ended<C, B>(error: StepError, run: Ended<C, B>) -> NotStarted<C, B>
    requires { IsNoHalt error }
    ensures cause { IsCauseOf error result.why }
    ensures cache { result.cache ≡ run.cache }
    ensures backing { result.backing ≡ run.backing }
    ensures pass { result.pass ≡ Some run.pass }
{
    let why = match error {
        StepError::Fault(_) => StartError::Fault,
        StepError::Memory => StartError::Memory,
        StepError::Halted(_) => unreachable!(),
    };
    let Ended {
        cache,
        backing,
        pass,
    } = run;
    NotStarted {
        why,
        cache,
        backing,
        pass: Some(pass),
    }
}

/// Starts a run over a pair that was read: it begins with what was read, and its one seat, which has
/// all numbers, puts an entry into the journal. The entry has the number behind the newest one's and
/// names what that names; it needs the entries that have keys, and those behind them. Both devices
/// are such that a crash would leave exactly what they hold.
///
/// An error hands both devices back. It is `Odd` or `Memory`, and no run began; or `Memory` or
/// `Fault`, and what the run did before it ended is told: it never has more of the entry than a
/// crash could leave of it.
pub fn start<C: Disk + Drop, B: Disk + Drop, R: Wait>(
    rt: &R,
    alloc: Global,
    g: &Geometry,
    read: &Entries,
    ready: Ready<C, B>,
) -> Result<(CoreParts<C, B>, CoreSeat<C, B>), NotStarted<C, B>>
    requires can { CanStart C.facts B.facts g.now read.now ready }
    ensures ok { IfOk result (λ r. HasStarted C.facts B.facts g.now read.now ready r.0 r.1) }
    ensures err { IfErr result (IsNotStarted C.facts B.facts g.now read.now ready) }
{
    let journal = match first_journal(alloc, g, read) {
        Ok(journal) => journal,
        Err(why) => return Err(unbegun(why, devices_of(ready))),
    };
    let (parts, mut seat) = match begin(alloc, ready) {
        Ok(run) => run,
        Err(devices) => return Err(unbegun(StartError::Memory, devices)),
    };
    match put_first(rt, alloc, &parts, &mut seat, journal) {
        Ok(()) => Ok((parts, seat)),
        Err(error) => Err(ended(error, end(parts, seat))),
    }
}
