//! From where the sectors of a leaf with keys of each kind are read.
ghost use Rattle.std.specs.Prelude.{◌<◌};

use crate::runs::{ReadRun, runs_of};
use crate::source::ReadFrom;
use bc_bucket::Buckets;
use bc_disk::gens::Gens;
use bc_disk::geometry::Geometry;
use bc_key::{Key, Ptr};
use bc_node::{Leaf, are_within};
use std::alloc::{AllocError, Global};
use std::process::Abort;
use std::test::Fail;

const GEOMETRY: Geometry = Geometry {
    block: 1,
    bucket: 64,
    nbuckets: 128,
    first_bucket: 1,
    journal: 8,
    set_magic: 1,
    node_sectors: 64,
};

/// A pointer to a sector of bucket 100.
fn ptr(sector: u64, generation: u8) -> Ptr
    requires { sector < 64 }
{
    Ptr {
        dev: 0,
        offset: 6_400 + sector,
        generation,
    }
}

/// Adds a key to a leaf.
fn add(rt: &impl Abort, leaf: &mut Leaf, key: &Key) -> Result<(), AllocError> {
    leaf.reserve(1)?;
    let keys = [*key];
    assert!(rt; u64::from(key.size) <= key.end);
    assert!(rt; are_within(leaf.from(), leaf.end(), &keys));
    leaf.add(&keys, 1);
    Ok(())
}

/// A leaf of which sectors 0 to 7 are clean and 8 to 15 dirty, in one piece of a bucket, 20 to 23
/// are clean in an earlier use of it, and 30 to 31 dirty in one.
fn leaf(rt: &impl Abort, alloc: Global) -> Result<Leaf, AllocError> {
    let key = Key::new(256, 64, false, Some(Ptr::ZERO));
    let mut leaf = Leaf::new(alloc, &key, 0, 1);
    add(rt, &mut leaf, &Key::new(8, 8, false, Some(ptr(0, 0))))?;
    add(rt, &mut leaf, &Key::new(16, 8, true, Some(ptr(8, 0))))?;
    add(rt, &mut leaf, &Key::new(24, 4, false, Some(ptr(32, 255))))?;
    add(rt, &mut leaf, &Key::new(32, 2, true, Some(ptr(40, 255))))?;
    Ok(leaf)
}

#[test]
fn runs_of_a_leaf(rt: HostRuntime) -> Result<(), Fail> {
    let alloc = rt.alloc();
    let gens = Gens::new(alloc, &GEOMETRY)?;
    let buckets = Buckets::new(alloc, &GEOMETRY, &gens)?;
    let leaf = leaf(&rt, alloc)?;
    let runs = runs_of(alloc, &leaf, &buckets, 4, 24)?;
    assert!(rt; runs.is_some());
    let Some(runs) = runs else {
        return Ok(());
    };
    let expected = [
        ReadRun {
            first: 4,
            count: 4,
            from: ReadFrom::Cache {
                at: 6_404,
                dirty: false,
            },
        },
        ReadRun {
            first: 8,
            count: 8,
            from: ReadFrom::Cache {
                at: 6_408,
                dirty: true,
            },
        },
        ReadRun {
            first: 16,
            count: 12,
            from: ReadFrom::Backing,
        },
    ];
    assert_eq!(rt; runs.as_slice(), expected.as_slice());
    assert!(rt; runs_of(alloc, &leaf, &buckets, 28, 4)?.is_none());
    Ok(())
}
