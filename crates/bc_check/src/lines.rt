//! What is said of each bucket.
ghost use Rattle.std.specs.Prelude.{◌≡◌, ◌≤◌, length, IfOk};
ghost use Rattle.bc_image.specs.Pair.{Pair};
ghost use Rattle.bc_replay.specs.Survey.{HasSurvey};
ghost use Rattle.bc_check.specs.Counts.{AreLines, ListsLines};

use crate::counts::count_rows;
use bc_disk::gens::Gens;
use bc_replay::{Survey, Use, generation_of};
use std::alloc::{AllocError, Global};

/// What is said of a bucket that has a use.
#[derive(Clone, Copy, Debug, PartialEq, Eq, Drop)]
pub struct BucketLine {
    /// Its number.
    pub bucket: u32,
    /// What it is used for.
    pub kind: Use,
    /// Its generation, modulo 256.
    pub generation: u8,
    /// How many sectors of the backing device have their live data in it.
    pub live: u64,
    /// Of how many of these this is all there is.
    pub dirty: u64,
}

/// What is said of each bucket that has a use, in their order.
fn lines_of(
    alloc: Global,
    gens: &Gens,
    uses: &[Use],
    live: &[u64],
    dirty: &[u64],
) -> Result<Vec<BucketLine>, AllocError>
    requires live { length uses.now ≡ length live.now }
    requires dirty { length uses.now ≡ length dirty.now }
    requires few { length uses.now ≤ 1048576 }
    ensures { IfOk result (λ v.
        ListsLines gens.now uses.now live.now dirty.now (length uses.now) v.items) }
{
    let mut lines = Vec::new(alloc);
    for bucket in 0..uses.len() {
        if uses[bucket] != Use::None {
            lines.push(BucketLine {
                bucket: bucket as u32,
                kind: uses[bucket],
                generation: generation_of(gens, bucket as u64),
                live: live[bucket],
                dirty: dirty[bucket],
            })?;
        }
    }
    Ok(lines)
}

/// What is said of each bucket that has a use, in their order: what the use is, the bucket's
/// generation, and how many sectors have their live data in it, clean or dirty, and dirty. No device
/// is read.
pub fn list_buckets(alloc: Global, s: &Survey) -> Result<Vec<BucketLine>, AllocError>
    ensures { IfOk result (λ v. (p : Pair) → (h : HasSurvey p s.now.supers.backing
        s.now.supers.cache s.now.supers.geometry s.now.journal s.now.gens s.now.seen.items
        s.now.index.keys s.now.uses.items)
        → AreLines s.now.supers.geometry h.view.reading v.items) }
{
    let g = &s.supers.geometry;
    let live = count_rows(alloc, g, &s.gens, &s.index, false)?;
    let dirty = count_rows(alloc, g, &s.gens, &s.index, true)?;
    if s.uses.len() != live.len() || live.len() != dirty.len() {
        return Ok(Vec::new(alloc));
    }
    lines_of(alloc, &s.gens, &s.uses, &live, &dirty)
}
