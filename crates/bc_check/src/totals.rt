//! How many sectors have data on the cache device.
ghost use Rattle.std.specs.Prelude.{◌<◌, ◌≤◌, ◌+◌, ◌^◌};
ghost use Rattle.bc_image.specs.Pair.{Pair};
ghost use Rattle.bc_replay.specs.Survey.{HasSurvey};
ghost use Rattle.bc_counts.specs.Counts.{IsCount};
ghost use Rattle.bc_check.specs.Totals.{CountsAs, HasKindRow, IsCleanAt, IsDirtyAt};

use bc_disk::gens::Gens;
use bc_disk::geometry::Geometry;
use bc_extent::Extents;
use bc_key::Key;
use bc_replay::{Survey, is_live};

/// How many sectors of the backing device have live data on the cache device.
#[derive(Clone, Copy, Debug, PartialEq, Eq, Drop)]
pub struct Totals {
    /// Those whose data is all that there is of it.
    pub dirty: u64,
    /// Those of which the backing device has the same data.
    pub clean: u64,
}

/// A count with a row's sectors, where it is live and of this kind.
fn with_row(count: u64, g: &Geometry, gens: &Gens, row: &Key, dirty: bool) -> u64
    requires { count + row.now.size < 2 ^ 64 }
    ensures { CountsAs g.now gens.now dirty row.now count result }
{
    if row.dirty == dirty && is_live(g, gens, row) {
        return count + u64::from(row.size);
    }
    count
}

/// How many sectors have a live row of this kind.
fn count_kind(g: &Geometry, gens: &Gens, index: &Extents, dirty: bool) -> u64
    ensures { IsCount (HasKindRow g.now gens.now index.now.keys dirty) result }
{
    let mut count = 0;
    for i in 0..index.len() {
        count = with_row(count, g, gens, &index.key(i), dirty);
    }
    count
}

/// How many sectors have live data on the cache device, dirty and clean. No device is read.
pub fn count_sectors(s: &Survey) -> Totals
    ensures dirty { (p : Pair) → (h : HasSurvey p s.now.supers.backing s.now.supers.cache
        s.now.supers.geometry s.now.journal s.now.gens s.now.seen.items s.now.index.keys
        s.now.uses.items) → IsCount (IsDirtyAt s.now.supers.geometry h.view.reading) result.dirty }
    ensures clean { (p : Pair) → (h : HasSurvey p s.now.supers.backing s.now.supers.cache
        s.now.supers.geometry s.now.journal s.now.gens s.now.seen.items s.now.index.keys
        s.now.uses.items) → IsCount (IsCleanAt s.now.supers.geometry h.view.reading) result.clean }
{
    let g = &s.supers.geometry;
    Totals {
        dirty: count_kind(g, &s.gens, &s.index, true),
        clean: count_kind(g, &s.gens, &s.index, false),
    }
}
