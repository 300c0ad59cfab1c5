//! The whole of what a pair holds.
ghost use Rattle.std.specs.Prelude.{◌≡◌, ◌*◌, ◌≤◌, true, List, length, IfOk, IfErr, OnOk, MatchOption};
ghost use Rattle.bc_disk.specs.Disk.{IsKept};
ghost use Rattle.bc_key.specs.declared.key.Key.{Key};
ghost use Rattle.bc_replay.specs.Causes.{CountsFault, EndsAtSupers, IsReadOnce, OfHeld};
ghost use Rattle.bc_replay.specs.Index.{IsIndexed};
ghost use Rattle.bc_replay.specs.Judge.{IsKnown, IsJudged, IsJudgedCause, held_of};
ghost use Rattle.bc_replay.specs.Limits.{rule_in};
ghost use Rattle.bc_replay.specs.Parts.{AreParts};
ghost use Rattle.bc_replay.specs.Refused.{TellTrue, MayPoint, IsFirstPointer};
ghost use Rattle.bc_replay.specs.Survey.{HasSurvey, IsSurveyCause};

use crate::error::OpenError;
use crate::front::{Front, read_heads};
use crate::held::Survey;
use crate::index::Index;
use crate::pointers::barred_word;
use crate::replay::read_index;
use crate::uses::{Table, Use, count_spare, used_twice};
use bc_disk::chain::sets_in_chain;
use bc_disk::disk::Disk;
use bc_disk::gens::Gens;
use bc_key::Key;
use bc_walk::Visit;
use std::alloc::Global;

/// The word of the first pointer that may not be as it is.
fn first_pointer(seen: &[Visit], index: &Index) -> Option<u64>
    ensures { (keys : List Key)
        → IsIndexed (rule_in index.now.limits) keys index.now.keys.keys index.now.word
        → TellTrue index.now.limits.geometry true seen.now
        → MatchOption result (MayPoint (rule_in index.now.limits) seen.now keys)
        (IsFirstPointer (rule_in index.now.limits) seen.now keys) }
{
    match barred_word(&index.limits.geometry, seen) {
        Some(word) => Some(word),
        None => index.word,
    }
}

/// Judges the pointers and the buckets of an index, and tells what each bucket is used for.
fn judge(
    alloc: Global,
    gens: &Gens,
    uuid_bucket: &Key,
    seen: &[Visit],
    index: &Index,
) -> Result<Vec<Use>, OpenError>
    ensures judged { IfOk result (λ uses. (keys : List Key)
        → IsKnown (rule_in index.now.limits) gens.now uuid_bucket.now seen.now keys
        index.now.keys.keys index.now.word → IsJudged (rule_in index.now.limits)
        (held_of (rule_in index.now.limits) gens.now uuid_bucket.now seen.now keys) uses.items) }
    ensures each { IfOk result
        (λ uses. length uses.items ≡ index.now.limits.geometry.nbuckets) }
    ensures refused { IfErr result (IsJudgedCause (rule_in index.now.limits) gens.now
        uuid_bucket.now seen.now index.now.keys.keys index.now.word) }
{
    if let Some(word) = first_pointer(seen, index) {
        return Err(OpenError::PointerRange { word });
    }
    let g = &index.limits.geometry;
    let table = Table::of(alloc, g, gens, uuid_bucket, seen, &index.keys)?;
    if let Some(bucket) = used_twice(g, &table, seen) {
        return Err(OpenError::TwoUses {
            bucket: bucket as u32,
        });
    }
    let found = count_spare(g, &table.uses);
    if found < sets_in_chain(g) {
        return Err(OpenError::NoSpare { found });
    }
    let Table { uses, mixed: _ } = table;
    Ok(uses)
}

/// Reads all of a pair but its data: what `read_heads` and `read_index` read, and tests the pointers
/// of the index and what each bucket is used for. Nothing is written. The time is linear in what is
/// read but for a logarithm.
///
/// The error is the first that holds, in the order of `OpenError`; `Fault` and `Memory` come wherever
/// they happen. A node to which a pointer may not point isn't read, and the answer is then
/// `PointerRange`, unless another node has a fault. Of several pointers the first is told: those of
/// the nodes' keys come before those of keys of data, each in the order in which they are read; of a
/// node's key that has none, the word is 0. Of several buckets with two uses the least is told. A
/// pair of which the backing device serves alone is refused as one whose cache device wasn't set up.
pub fn survey<C: Disk, B: Disk>(
    alloc: Global,
    cache: &mut C,
    backing: &mut B,
) -> Result<Survey, OpenError>
    ensures found { IfOk result (λ s. OfHeld (λ p. HasSurvey p s.supers.backing s.supers.cache
        s.supers.geometry s.journal s.gens s.seen.items s.index.keys s.uses.items)
        (C.facts cache.old) (B.facts backing.old)) }
    ensures parts { IfOk result
        (λ s. AreParts s.supers.geometry s.journal s.gens s.uses.items) }
    ensures room { IfOk result (λ s. s.supers.geometry.bucket * s.supers.geometry.nbuckets
        ≤ (C.facts cache.new).sectors) }
    ensures refused { IfErr result (IsSurveyCause (C.facts cache.old) (B.facts backing.old)) }
    ensures supers { IfErr result (EndsAtSupers (C.facts cache.old) (B.facts backing.old)
        (C.facts cache.old).calls (C.facts cache.new).calls) }
    ensures cache_kept { IsKept (C.facts cache.old) (C.facts cache.new) }
    ensures backing_kept { IsKept (B.facts backing.old) (B.facts backing.new) }
    ensures faults { IfErr result (λ e. CountsFault e (C.facts cache.old) (C.facts cache.new)
        (B.facts backing.old) (B.facts backing.new)) }
    ensures cache_good { OnOk result ((C.facts cache.new).faults ≡ (C.facts cache.old).faults) }
    ensures backing_good { OnOk result
        ((B.facts backing.new).faults ≡ (B.facts backing.old).faults) }
    ensures backing_called { IsReadOnce (B.facts backing.old).sectors (B.facts backing.old).calls
        (B.facts backing.new).calls }
{
    let front = read_heads(alloc, cache, backing)?;
    let Front {
        supers,
        journal,
        gens,
    } = front;
    let count = journal.len();
    if count == 0 {
        return Err(OpenError::NoJournal);
    }
    let size = supers.backing.data_sectors(backing.sectors());
    let (seen, index) = read_index(alloc, cache, &supers.geometry, &journal, size)?;
    let uuid_bucket = journal.entry(count - 1).item.uuid_bucket;
    let uses = judge(alloc, &gens, &uuid_bucket, &seen, &index)?;
    let Index { keys, .. } = index;
    Ok(Survey {
        supers,
        journal,
        gens,
        seen,
        index: keys,
        uses,
    })
}
