//! Whether a pair is sound.
ghost use Rattle.std.specs.Prelude.{◌≡◌, ◌≢◌, ◌*◌, ◌≤◌, ◌↔◌, false, true, IfOk, IfErr, MatchResult, OnOk, IsTrue};
ghost use Rattle.bc_disk.specs.Device.{next_count};
ghost use Rattle.bc_disk.specs.Disk.{IsKept};
ghost use Rattle.bc_disk.specs.declared.disk.Device.TheVariants as device;
ghost use Rattle.bc_image.specs.Pair.{Pair};
ghost use Rattle.bc_replay.specs.Causes.{IsReadOnce, OfHeld};
ghost use Rattle.bc_replay.specs.Survey.{HasSurvey};
ghost use Rattle.bc_super.specs.declared.error.SuperError.{SuperError};
ghost use Rattle.bc_disk.specs.declared.disk.Device.{Device};
ghost use Rattle.bc_check.specs.declared.verdict.CheckError.{CheckError};
ghost use Rattle.bc_check.specs.Calls.{BothKept, CountsFault, EndsAlone, EndsAtSuper, IsWant, IsWantOf, NoneFailed};
ghost use Rattle.bc_check.specs.Verdict.{DecidesAlone, IsCheckCause, IsVerdict, ListsIf};

use crate::data::first_apart;
use crate::lines::{BucketLine, list_buckets};
use crate::strays::first_stray;
use crate::totals::count_sectors;
use crate::verdict::{CheckError, Verdict};
use crate::window::first_aged;
use bc_disk::disk::{Device, Disk};
use bc_replay::{Survey, survey};
use bc_super::backing::read_backing;
use bc_super::error::SuperError;
use std::alloc::{AllocError, Global};

/// That the backing device doesn't serve alone, since its superblock was refused for this reason; a
/// fault stays one.
fn refused(why: SuperError) -> Result<bool, CheckError>
    ensures { MatchResult result (λ alone. (alone ≡ false) × (why ≢ SuperError.Fault))
        (λ e. (e ≡ CheckError.Fault Device.Backing) × (why ≡ SuperError.Fault)) }
{
    match why {
        SuperError::Fault => Err(CheckError::Fault(Device::Backing)),
        _ => Ok(false),
    }
}

/// Whether the backing device serves alone. One whose superblock is refused doesn't.
fn serves_alone<B: Disk>(backing: &mut B) -> Result<bool, CheckError>
    ensures found { IfOk result (DecidesAlone (B.facts backing.old)) }
    ensures kept { IsKept (B.facts backing.old) (B.facts backing.new) }
    ensures want { IfErr result
        (λ e. IsWantOf device.Backing e (B.facts backing.old).faults (B.facts backing.new).faults) }
    ensures good { OnOk result ((B.facts backing.new).faults ≡ (B.facts backing.old).faults) }
    ensures called { IsReadOnce (B.facts backing.old).sectors (B.facts backing.old).calls
        (B.facts backing.new).calls }
    ensures alone { IfOk result (λ alone. alone ≡ true
        → (B.facts backing.new).calls ≡ next_count (B.facts backing.old).calls) }
{
    match read_backing(backing) {
        Ok(b) => Ok(b.is_pass_through()),
        Err(why) => refused(why),
    }
}

/// What is said of a surveyed pair: its journal, the ages of its pointers and its data are tested,
/// in this order.
fn verdict_of<C: Disk, B: Disk>(
    alloc: Global,
    cache: &mut C,
    backing: &mut B,
    s: &Survey,
) -> Result<Verdict, CheckError>
    requires { s.now.supers.geometry.bucket * s.now.supers.geometry.nbuckets
        ≤ (C.facts cache.old).sectors }
    ensures found { IfOk result (λ v. OfHeld (λ p. HasSurvey p s.now.supers.backing
        s.now.supers.cache s.now.supers.geometry s.now.journal s.now.gens s.now.seen.items
        s.now.index.keys s.now.uses.items → IsVerdict p v) (C.facts cache.old)
        (B.facts backing.old)) }
    ensures want { IfErr result IsWant }
    ensures other { IfOk result (λ v. v ≢ Verdict.PassThrough) }
    ensures kept { BothKept (C.facts cache.old) (C.facts cache.new) (B.facts backing.old)
        (B.facts backing.new) }
    ensures faults { IfErr result (λ e. CountsFault e (C.facts cache.old) (C.facts cache.new)
        (B.facts backing.old) (B.facts backing.new)) }
    ensures good { OnOk result (NoneFailed (C.facts cache.old) (C.facts cache.new)
        (B.facts backing.old) (B.facts backing.new)) }
{
    if let Some(bucket) = first_stray(alloc, cache, &s.supers.geometry, &s.journal)? {
        return Ok(Verdict::Journal { bucket });
    }
    if let Some(sector) = first_aged(s) {
        return Ok(Verdict::Age { sector });
    }
    if let Some(sector) = first_apart(alloc, cache, backing, s)? {
        return Ok(Verdict::Agree { sector });
    }
    let totals = count_sectors(s);
    Ok(Verdict::Sound {
        dirty: totals.dirty,
        clean: totals.clean,
    })
}

/// The lines of the buckets of a surveyed pair that is sound, where they are asked for.
fn lines_if(
    alloc: Global,
    s: &Survey,
    list: bool,
    verdict: Verdict,
) -> Result<Vec<BucketLine>, AllocError>
    ensures { IfOk result (λ v. (p : Pair) → HasSurvey p s.now.supers.backing s.now.supers.cache
        s.now.supers.geometry s.now.journal s.now.gens s.now.seen.items s.now.index.keys
        s.now.uses.items → ListsIf list p verdict v.items) }
{
    match verdict {
        Verdict::Sound { .. } if list => list_buckets(alloc, s),
        _ => Ok(Vec::new(alloc)),
    }
}

/// What is said of a pair, and of its buckets.
#[derive(Drop)]
pub struct Report {
    /// Whether it is sound.
    pub verdict: Verdict,
    /// A line for each bucket that has a use, in their order, where the pair is sound and its
    /// buckets were asked for; else none.
    pub lines: Vec<BucketLine>,
}

/// Says whether the pair that two devices hold is sound, and what its buckets hold, if that is
/// asked for and it is. Nothing is written.
///
/// The superblock of the backing device is read first: where it asks for no cache, the verdict is
/// `PassThrough`, and there are no lines. Then all that `survey` tests is tested, by which the pair
/// is refused as `Open`; then the journal's entries, the ages of pointers and the data of live clean
/// sectors, each by a verdict of its own, which is the first that holds. `Fault` and `Memory` come
/// wherever they happen. Of the data only that of live clean sectors is read, 256 sectors by a call
/// at most. The time is linear in what is read but for a logarithm.
pub fn examine<C: Disk, B: Disk>(
    alloc: Global,
    cache: &mut C,
    backing: &mut B,
    list: bool,
) -> Result<Report, CheckError>
    ensures found { IfOk result (λ r. OfHeld (λ p. IsVerdict p r.verdict
        × ListsIf list p r.verdict r.lines.items) (C.facts cache.old) (B.facts backing.old)) }
    ensures refused { IfErr result (IsCheckCause (C.facts cache.old) (B.facts backing.old)) }
    ensures supers { IfErr result (EndsAtSuper (C.facts cache.old) (C.facts cache.new)
        (B.facts backing.old) (B.facts backing.new)) }
    ensures alone { IfOk result (λ r. EndsAlone (C.facts cache.old) (C.facts cache.new)
        (B.facts backing.old) (B.facts backing.new) r.verdict) }
    ensures kept { BothKept (C.facts cache.old) (C.facts cache.new) (B.facts backing.old)
        (B.facts backing.new) }
    ensures faults { IfErr result (λ e. CountsFault e (C.facts cache.old) (C.facts cache.new)
        (B.facts backing.old) (B.facts backing.new)) }
    ensures good { OnOk result (NoneFailed (C.facts cache.old) (C.facts cache.new)
        (B.facts backing.old) (B.facts backing.new)) }
{
    if serves_alone(backing)? {
        return Ok(Report {
            verdict: Verdict::PassThrough,
            lines: Vec::new(alloc),
        });
    }
    let s = survey(alloc, cache, backing)?;
    let verdict = verdict_of(alloc, cache, backing, &s)?;
    let lines = lines_if(alloc, &s, list, verdict)?;
    Ok(Report { verdict, lines })
}

/// Says whether the pair that two devices hold is sound, as `examine` does. Nothing is written.
pub fn check_pair<C: Disk, B: Disk>(
    alloc: Global,
    cache: &mut C,
    backing: &mut B,
) -> Result<Verdict, CheckError>
    ensures found { IfOk result (λ v. OfHeld (λ p. IsVerdict p v) (C.facts cache.old)
        (B.facts backing.old)) }
    ensures refused { IfErr result (IsCheckCause (C.facts cache.old) (B.facts backing.old)) }
    ensures supers { IfErr result (EndsAtSuper (C.facts cache.old) (C.facts cache.new)
        (B.facts backing.old) (B.facts backing.new)) }
    ensures alone { IfOk result (EndsAlone (C.facts cache.old) (C.facts cache.new)
        (B.facts backing.old) (B.facts backing.new)) }
    ensures kept { BothKept (C.facts cache.old) (C.facts cache.new) (B.facts backing.old)
        (B.facts backing.new) }
    ensures faults { IfErr result (λ e. CountsFault e (C.facts cache.old) (C.facts cache.new)
        (B.facts backing.old) (B.facts backing.new)) }
    ensures good { OnOk result (NoneFailed (C.facts cache.old) (C.facts cache.new)
        (B.facts backing.old) (B.facts backing.new)) }
{
    let report = examine(alloc, cache, backing, false)?;
    Ok(report.verdict)
}
