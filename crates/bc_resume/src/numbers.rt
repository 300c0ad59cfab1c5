//! The greatest numbers of entries in the journal's buckets.
ghost use Rattle.std.specs.Prelude.{◌≡◌, ◌+◌, ◌<◌, ℕ, length, max, slice_index, IfOk};
ghost use Rattle.bc_resume.specs.Numbers.{AreNewest, number_in};

use bc_disk::geometry::Geometry;
use bc_jset::JEntry;
use bc_record::Placed;
use std::alloc::{AllocError, Global};

/// Notes the number of an entry for its bucket, where that is one of the journal.
fn note(numbers: &mut [u64], g: &Geometry, e: &Placed<JEntry>)
    requires { length numbers.old ≡ g.now.journal }
    ensures { (i : ℕ) → i < g.now.journal → slice_index numbers.new i
        ≡ max (slice_index numbers.old i) (number_in g.now (g.now.first_bucket + i) e.now) }
{
    let bucket = e.place / u64::from(g.bucket);
    let first = u64::from(g.first_bucket);
    if first <= bucket && bucket - first < u64::from(g.journal) {
        let i = (bucket - first) as usize;
        numbers[i] = numbers[i].max(e.item.seq);
    }
}

/// Notes the numbers of entries, in a table of zeros.
fn note_all(numbers: &mut [u64], g: &Geometry, all: &[Placed<JEntry>])
    requires each { length numbers.old ≡ g.now.journal }
    requires none { (i : ℕ) → i < g.now.journal → slice_index numbers.old i ≡ 0 }
    ensures { AreNewest g.now all.now numbers.new }
{
    for e in all {
        note(numbers, g, e);
    }
}

/// For each journal bucket the greatest number of an entry in it.
pub fn newest_numbers(
    alloc: Global,
    g: &Geometry,
    all: &[Placed<JEntry>],
) -> Result<Vec<u64>, AllocError>
    ensures { IfOk result (λ numbers. AreNewest g.now all.now numbers.items) }
{
    let mut numbers = vec![in alloc; 0u64; g.journal as usize]?;
    note_all(&mut numbers, g, all);
    Ok(numbers)
}
