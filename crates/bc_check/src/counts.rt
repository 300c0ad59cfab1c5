//! How many sectors have data in each bucket.
ghost use Rattle.std.specs.Prelude.{◌≡◌, ◌<◌, ◌+◌, ◌^◌, ℕ, length, slice_index, IfOk};
ghost use Rattle.bc_counts.specs.Counts.{IsCount, HasRow, Asks, IsAdded};

use crate::rows::add_row;
use bc_disk::gens::Gens;
use bc_disk::geometry::Geometry;
use bc_extent::Extents;
use bc_key::Key;
use std::alloc::{AllocError, Global};

/// Adds a row's sectors to those of its bucket, where the row is asked for.
fn add_asked(table: &mut [u64], g: &Geometry, gens: &Gens, row: &Key, dirty: bool)
    requires { (bucket : ℕ) → bucket < length table.old
        → slice_index table.old bucket + row.now.size < 2 ^ 64 }
    ensures { (bucket : ℕ) → bucket < length table.old
        → IsAdded g.now gens.now (Asks dirty) row.now bucket (slice_index table.old bucket)
        (slice_index table.new bucket) }
{
    if row.dirty || !dirty {
        add_row(table, g, gens, row);
    }
}

/// Counts the sectors of the rows that are asked for, in a table of zeros.
fn count_into(table: &mut [u64], g: &Geometry, gens: &Gens, index: &Extents, dirty: bool)
    requires { (bucket : ℕ) → bucket < length table.old → slice_index table.old bucket ≡ 0 }
    ensures { (bucket : ℕ) → bucket < length table.old
        → IsCount (HasRow g.now gens.now index.now.keys (Asks dirty) bucket)
        (slice_index table.new bucket) }
{
    for i in 0..index.len() {
        add_asked(table, g, gens, &index.key(i), dirty);
    }
}

/// How many sectors have live data in each bucket: all, or the dirty ones alone.
pub fn count_rows(
    alloc: Global,
    g: &Geometry,
    gens: &Gens,
    index: &Extents,
    dirty: bool,
) -> Result<Vec<u64>, AllocError>
    ensures each { IfOk result (λ v. length v.items ≡ g.now.nbuckets) }
    ensures counted { IfOk result (λ v. (bucket : ℕ) → bucket < g.now.nbuckets
        → IsCount (HasRow g.now gens.now index.now.keys (Asks dirty) bucket)
        (slice_index v.items bucket)) }
{
    let mut table = vec![in alloc; 0u64; g.nbuckets as usize]?;
    count_into(&mut table, g, gens, index, dirty);
    Ok(table)
}
