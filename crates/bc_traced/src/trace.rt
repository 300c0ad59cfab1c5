//! Rows of an index, counted for the buckets into which they point.
ghost use Rattle.std.specs.Prelude.{◌≡◌, ℕ, ◌<◌, ◌++◌, List, length, IfOk};
ghost use Rattle.bc_bucket.specs.Buckets.{bucket_of};
ghost use Rattle.bc_bucket.specs.Meaning.{IsFound};
ghost use Rattle.bc_bucket.specs.Walk.{found_at};
ghost use Rattle.bc_bucket.specs.declared.walk.Reference.{Reference};
ghost use Rattle.bc_traced.specs.Rows.{AreTraced, AreWalked, reference_in};

use bc_bucket::{Buckets, Reference, Walk};
use bc_disk::gens::Gens;
use bc_disk::geometry::Geometry;
use bc_extent::Extents;
use bc_key::Key;
use std::alloc::{AllocError, Global};

/// Counts a row for the bucket into which it points, if that is one of the device.
fn add_row(walk: &mut Walk, g: &Geometry, buckets: &Buckets, row: &Key)
    requires walk { length walk.old ≡ g.now.nbuckets }
    requires buckets { length buckets.now.records ≡ g.now.nbuckets }
    ensures each { length walk.new ≡ g.now.nbuckets }
    ensures found { (k : ℕ) (refs : List Reference) → k < g.now.nbuckets
        → IsFound (bucket_of buckets.now k).generation refs (found_at walk.old k)
        → IsFound (bucket_of buckets.now k).generation (refs ++ reference_in g.now k row.now)
        (found_at walk.new k) }
{
    let Some(ptr) = row.pointer() else {
        return;
    };
    let bucket = ptr.offset / u64::from(g.bucket);
    if bucket < u64::from(g.nbuckets) {
        let reference = Reference {
            generation: ptr.generation,
            sectors: row.size,
            dirty: row.dirty,
        };
        let own = buckets.get(bucket as u32).generation;
        walk.add(bucket as u32, own, reference);
    }
}

/// What the rows of an index say of each bucket.
pub fn walk_rows(
    alloc: Global,
    g: &Geometry,
    buckets: &Buckets,
    rows: &Extents,
) -> Result<Walk, AllocError>
    requires { length buckets.now.records ≡ g.now.nbuckets }
    ensures { IfOk result (AreWalked g.now buckets.now rows.now.keys) }
{
    let mut walk = Walk::new(alloc, g)?;
    for i in 0..rows.len() {
        add_row(&mut walk, g, buckets, &rows.key(i));
    }
    Ok(walk)
}

/// The buckets of a device with these priorities and generations, marked and with used counts and
/// oldest generations as the rows of its index say. None is marked as metadata. The time is linear in
/// the number of rows and that of buckets.
pub fn trace_rows(
    alloc: Global,
    g: &Geometry,
    gens: &Gens,
    rows: &Extents,
) -> Result<Buckets, AllocError>
    requires { length gens.now.records ≡ g.now.nbuckets }
    ensures { IfOk result (AreTraced g.now gens.now.records rows.now.keys) }
{
    let mut buckets = Buckets::new(alloc, g, gens)?;
    let walk = walk_rows(alloc, g, &buckets, rows)?;
    buckets.settle(&walk);
    Ok(buckets)
}
