//! A table by its bytes, and what is found in it.

ghost use Rattle.std.specs.Prelude.{◌≡◌, ◌*◌, ◌≤◌, length, IfOk};

use super::{UuidError, Uuids, find, read, write};
use bc_disk::geometry::Geometry;
use bc_disk::mem_disk::MemDisk;
use std::alloc::{AllocError, Global};
use std::process::Abort;
use std::test::Fail;

/// The bytes of a bucket.
const BUCKET: usize = 32_768;

const UUID: [u8; 16] = [1, 2, 3, 4, 5, 6, 7, 8, 9, 10, 11, 12, 13, 14, 15, 16];

/// A cache device of 128 buckets of 64 sectors.
fn device() -> Geometry
    ensures bucket { result.bucket ≡ 64 }
    ensures buckets { result.nbuckets ≡ 128 }
{
    Geometry {
        block: 1,
        bucket: 64,
        nbuckets: 128,
        first_bucket: 1,
        journal: 8,
        set_magic: 1,
        node_sectors: 64,
    }
}

// The bytes of so many buckets.
fn zeros(alloc: Global, buckets: usize) -> Result<Vec<u8>, AllocError>
    requires { buckets ≤ 128 }
    ensures { IfOk result (λ v. length v.items ≡ 32768 * buckets) }
{
    vec![in alloc; 0u8; BUCKET * buckets]
}

// A device with a new table in bucket 10.
fn written(rt: &impl Abort, alloc: Global) -> Result<MemDisk, Fail> {
    let mut disk = MemDisk::new(alloc, zeros(alloc, 128)?, 64)?;
    let mut buffer = zeros(alloc, 1)?;
    let table = Uuids::new(alloc, &device(), &UUID, &[b'L'; 32])?;
    assert!(rt; write(&table, &mut disk, &device(), 10, &mut buffer).is_ok());
    Ok(disk)
}

#[test]
fn bytes_of_a_table(rt: HostRuntime) -> Result<(), Fail> {
    let disk = written(&rt, rt.alloc())?;
    let start = 10 * BUCKET;
    assert!(rt; disk.bytes().len() == 128 * BUCKET);
    assert_eq!(rt; &disk.bytes()[start..start + 16], UUID.as_slice());
    assert_eq!(rt;
        &disk.bytes()[start + 16..start + 48],
        [b'L'; 32].as_slice()
    );
    for (place, byte) in disk.bytes().iter().enumerate() {
        assert!(rt; *byte == 0 || (start <= place && place < start + 48));
    }
    Ok(())
}

// What is read in bucket 10.
fn read_table(rt: &impl Abort, alloc: Global, disk: &mut MemDisk) -> Result<Uuids, UuidError> {
    assert!(rt; disk.bytes().len() == 128 * BUCKET);
    read(alloc, disk, &device(), 10)
}

#[test]
fn a_table_is_read(rt: HostRuntime) -> Result<(), Fail> {
    let mut disk = written(&rt, rt.alloc())?;
    let table = read_table(&rt, rt.alloc(), &mut disk)
        .ok()
        .ok_or("refused")?;
    assert_eq!(rt; table.entries().len(), 256);
    assert_eq!(rt; find(&table, &UUID), Some(0));
    assert_eq!(rt; find(&table, &[0; 16]), Some(1));
    assert_eq!(rt; find(&table, &[1; 16]), None);

    disk.fail(3)?;
    let again = read_table(&rt, rt.alloc(), &mut disk);
    assert_eq!(rt; again.err(), Some(UuidError::Fault));
    assert_eq!(rt; disk.faults(), 1);
    Ok(())
}
