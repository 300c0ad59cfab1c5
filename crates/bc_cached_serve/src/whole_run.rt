//! A trace served in a run with a cache, from what the opening left of it to its end.
ghost use Rattle.std.specs.Prelude.{◌≡◌, ◌*◌, ◌<◌, ◌≤◌, ◌^◌, All, [], false, length, vec_capacity, IfErr, IfOk};
ghost use Rattle.bc_serve.specs.bc_deed.Asked.{size_of};
ghost use Rattle.bc_disk.specs.Disk.{StandsFor};
ghost use Rattle.bc_disk.specs.Stands.{settled_model};
ghost use Rattle.bc_serve.specs.bc_hand.Seats.{Works, empty, world};
ghost use Rattle.bc_serve.specs.bc_machine.World.{FromEach, are_plain};
ghost use Rattle.bc_session.specs.bc_open.Left.{ChangesState, LeavesThePair};
ghost use Rattle.bc_recover.specs.Read.{HasParts, IsReadOf};
ghost use Rattle.bc_replay.specs.Causes.{OfHeld};
ghost use Rattle.bc_script.specs.Answer.{IsPrintable};
ghost use Rattle.bc_script.specs.Proper.{IsLine};
ghost use Rattle.bc_session.specs.Open.{IsLoaded, IsStopOf};
ghost use Rattle.bc_super.specs.Reading.{ReadsSuper};
ghost use Rattle.bc_super.specs.Super.{IsUsable};
ghost use Rattle.bc_cached_serve.specs.Answered.{KeepsValues};
ghost use Rattle.bc_cached_serve.specs.Run.{HasRunOn, HasRunOver, IsAlone};
ghost use Rattle.bc_cached_serve.specs.Worker.{AreAllDurable};

use crate::in_order::serve_lines;
use crate::unsound::Unsound;
use bc_disk::disk::Disk;
use bc_replay::{OpenError, Survey};
use bc_script::answer::Answer;
use bc_script::line::Line;
use bc_serve::bc_machine::machine::{CoreParts, CoreSeat};
use bc_session::bc_loaded::Loaded;
use bc_session::{Closed, NotOpened, close, open};
use bc_super::backing::BackingSuper;
use bc_super::state::BackingState;
use bc_worker::gate::Gate;
use std::alloc::Global;
use std::sync::Wait;

/// What a run that served a trace leaves.
#[derive(Drop)]
pub struct Outcome<C, B> {
    /// The answers to the lines, in order, up to one at which the run stopped.
    pub answers: Vec<Answer>,
    /// Whether each line was answered.
    pub served: Result<(), Unsound>,
    /// Both devices, what the run did, and whether it was closed as it should be.
    pub closed: Closed<C, B>,
}

/// Serves the lines of a trace, each of which reads, flushes or asks for nothing, in a run of which
/// the one seat did all that has happened, as it did once a pair was opened, and closes the run.
/// All that has come into the index is durable. The lines are served by the seat of worker 1, over
/// a device of so many data sectors, and there is room for an answer to each. The superblock is the
/// one that the backing device had when it was opened, and `dirty` says whether some data is in the
/// cache alone, which such lines don't change.
///
/// Where a line was refused for a cause of which no answer has a word, the lines behind it aren't
/// served, and the run is closed all the same.
pub fn serve_run<C: Disk + Drop, B: Disk + Drop, R: Wait, G: Gate>(
    rt: &R,
    alloc: Global,
    parts: CoreParts<C, B>,
    seat: CoreSeat<C, B>,
    superblock: &BackingSuper,
    dirty: bool,
    size: u64,
    lines: &[Line],
    answers: Vec<Answer>,
    gate: &G,
) -> Outcome<C, B>
    requires works { Works C.facts B.facts parts seat empty }
    requires alone { IsAlone C.facts B.facts seat }
    requires durable { FromEach (world C.facts B.facts seat) AreAllDurable }
    requires seats { parts.seats ≡ 320 }
    requires cached { are_plain C.facts B.facts parts.run.start ≡ false }
    requires leaves { (6 < length parts.run.start) × (length parts.run.start < 2 ^ 32) }
    requires size { size ≡ size_of C.facts B.facts seat.run.start }
    requires usable { IsUsable (world C.facts B.facts seat).backing.sectors superblock.now }
    requires lines { All IsLine lines.now }
    requires keep { All KeepsValues lines.now }
    requires few { length lines.now < 2 ^ 32 }
    requires none { answers.items ≡ [] }
    requires room { length lines.now ≤ vec_capacity answers }
    ensures printable { All IsPrintable result.answers.items }
    ensures run { HasRunOn C.facts B.facts parts superblock.now dirty size lines.now seat result }
{
    let mut seat = seat;
    let mut answers = answers;
    let served = serve_lines(
        rt,
        alloc,
        &parts,
        &mut seat,
        size,
        lines,
        &mut answers,
        gate,
    );
    let closed = close(rt, parts, seat, superblock, dirty);
    Outcome {
        answers,
        served,
        closed,
    }
}

/// Opens a pair whose parts are in memory, serves the lines of a trace, each of which reads,
/// flushes or asks for nothing, and closes the pair. Both devices are such that a crash would leave
/// exactly what they hold; the superblock is the one that the backing device holds, and `dirty`
/// says whether some data is in the cache alone.
///
/// An error is that of `open`, or `Memory`, where there was none for the answers, and hands both
/// devices back: no line was served. A crash leaves a sound pair then that shows what the pair
/// showed, and the backing device as it was or with `dirty` in its superblock.
pub fn run_lines<C: Disk + Drop, B: Disk + Drop, R: Wait, G: Gate>(
    rt: &R,
    alloc: Global,
    s: &Survey,
    superblock: &BackingSuper,
    loaded: Loaded,
    dirty: bool,
    cache: C,
    backing: B,
    lines: &[Line],
    gate: &G,
) -> Result<Outcome<C, B>, NotOpened<C, B>>
    requires parts { HasParts s.now }
    requires room { s.now.supers.geometry.bucket * s.now.supers.geometry.nbuckets
        ≤ (C.facts cache).sectors }
    requires loaded { IsLoaded C.facts s.now cache loaded }
    requires holds { ReadsSuper (B.facts backing) superblock.now }
    requires read { OfHeld (IsReadOf s.now) (C.facts cache) (B.facts backing) }
    requires still { StandsFor (C.facts cache) (settled_model (C.facts cache)) }
    requires rests { StandsFor (B.facts backing) (settled_model (B.facts backing)) }
    requires lines { All IsLine lines.now }
    requires keep { All KeepsValues lines.now }
    requires few { length lines.now < 2 ^ 32 }
    ensures printable { IfOk result (λ o. All IsPrintable o.answers.items) }
    ensures run { IfOk result (λ o. HasRunOver C.facts B.facts s.now superblock.now dirty cache
        backing loaded lines.now o) }
    ensures cause { IfErr result
        (λ n. IsStopOf C.facts B.facts s.now superblock.now cache backing n n.why) }
    ensures state { IfErr result (λ n. ChangesState (λ state. state ≡ BackingState.Dirty)
        superblock.now (B.facts backing) (B.facts n.backing)) }
    ensures left { IfErr result (λ n. LeavesThePair (C.facts cache) (C.facts n.cache)
        (B.facts backing) (B.facts n.backing)) }
{
    let Ok(answers) = Vec::with_capacity(alloc, lines.len()) else {
        return Err(NotOpened {
            why: OpenError::Memory,
            cache,
            backing,
        });
    };
    let size = superblock.data_sectors(backing.sectors());
    match open(rt, alloc, s, superblock, loaded, cache, backing) {
        Ok((parts, seat)) => Ok(serve_run(
            rt, alloc, parts, seat, superblock, dirty, size, lines, answers, gate,
        )),
        Err(stopped) => Err(stopped),
    }
}
