//! Rows into three buckets: a dirty one, a stale one and clean ones.
ghost use Rattle.std.specs.Prelude.{◌≡◌, ◌≤◌, length, IfOk};
ghost use Rattle.bc_key.specs.Key.{IsExtent};

use crate::trace_rows;
use bc_bucket::Mark;
use bc_disk::gens::Gens;
use bc_disk::geometry::Geometry;
use bc_extent::Extents;
use bc_key::{Key, Ptr};
use std::alloc::{AllocError, Global};
use std::test::Fail;

// How the device is divided.
fn device() -> Geometry
    ensures { result.nbuckets ≡ 128 }
{
    Geometry {
        block: 1,
        bucket: 64,
        nbuckets: 128,
        first_bucket: 1,
        journal: 8,
        set_magic: 1,
        node_sectors: 64,
    }
}

// The buckets 20 to 22 have the priority 7 and the generation 3, the others 0.
fn gens(alloc: Global) -> Result<Gens, AllocError>
    ensures { IfOk result (λ gens. length gens.records ≡ 128) }
{
    let mut gens = Gens::new(alloc, &device())?;
    gens.set(20, 7, 3);
    gens.set(21, 7, 3);
    gens.set(22, 7, 3);
    Ok(gens)
}

// A row of eight sectors, with a pointer into this bucket.
fn row(end: u64, bucket: u32, generation: u8, dirty: bool) -> Key
    requires { 8 ≤ end }
    ensures { IsExtent result }
{
    let ptr = Ptr {
        dev: 0,
        offset: 64 * u64::from(bucket) + 4,
        generation,
    };
    Key::new(end, 8, dirty, Some(ptr))
}

#[test]
fn traced_rows(rt: HostRuntime) -> Result<(), Fail> {
    let mut rows = Extents::new(rt.alloc());
    rows.reserve(10)?;
    rows.insert(&row(8, 20, 3, true));
    rows.insert(&row(16, 20, 3, false));
    rows.insert(&row(24, 21, 1, true));
    rows.insert(&row(32, 22, 2, true));
    rows.insert(&row(40, 22, 3, false));
    let buckets = trace_rows(rt.alloc(), &device(), &gens(rt.alloc())?, &rows)?;
    for (bucket, mark, used, last_gc, priority) in [
        (19, Mark::None, 0, 0, 0),
        (20, Mark::Dirty, 16, 3, 7),
        (21, Mark::None, 0, 1, 7),
        (22, Mark::Reclaimable, 8, 2, 7),
    ] {
        let known = buckets.records().get(bucket).copied();
        let found = known.map(|b| (b.mark, b.used, b.last_gc, b.priority));
        assert_eq!(rt; found, Some((mark, used, last_gc, priority)));
    }
    Ok(())
}
