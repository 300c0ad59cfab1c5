//! The rows of an index.
ghost use Rattle.std.specs.Prelude.{◌≡◌, ◌<◌, ◌≤◌, ◌+◌, ◌^◌, ℕ, length, slice_index, MatchOption};
ghost use Rattle.bc_counts.specs.Counts.{IsLiveRow};
ghost use Rattle.bc_check.specs.Counts.{IsRowAdded};

use bc_disk::gens::Gens;
use bc_disk::geometry::Geometry;
use bc_key::Key;
use bc_replay::is_live;

/// The bucket in which a row's data lies, where it is live.
pub fn bucket_of(g: &Geometry, gens: &Gens, row: &Key) -> Option<u64>
    ensures { MatchOption result ((bucket : ℕ) → ¬ (IsLiveRow g.now gens.now row.now bucket))
        (λ bucket. IsLiveRow g.now gens.now row.now bucket) }
{
    if !is_live(g, gens, row) {
        return None;
    }
    match row.pointer() {
        Some(ptr) => Some(ptr.offset / u64::from(g.bucket)),
        None => None,
    }
}

/// Adds a row's sectors to those of its bucket.
pub fn add_row(table: &mut [u64], g: &Geometry, gens: &Gens, row: &Key)
    requires { (bucket : ℕ) → bucket < length table.old
        → slice_index table.old bucket + row.now.size < 2 ^ 64 }
    ensures { (bucket : ℕ) → bucket < length table.old
        → IsRowAdded g.now gens.now row.now bucket (slice_index table.old bucket)
        (slice_index table.new bucket) }
{
    let Some(bucket) = bucket_of(g, gens, row) else {
        return;
    };
    if bucket < table.len() as u64 {
        table[bucket as usize] += u64::from(row.size);
    }
}
