//! A chain of many sets, a set by its bytes, and each refusal.

ghost use Rattle.std.specs.Prelude.{◌≡◌, ◌+◌, ◌/◌, ◌≤◌, length, IfOk, IsTrue};
ghost use Rattle.bc_disk.specs.MemDisk.{as_disk};

use bc_bytes::{crc64, get_u64, put_u64};
use bc_disk::chain::{records_in_set, sets_in_chain};
use bc_disk::disk::{Disk, Failed};
use bc_disk::gens::{BucketRecord, Gens};
use bc_disk::geometry::Geometry;
use bc_disk::mem_disk::MemDisk;
use bc_prio::{PrioError, encode_set, read_chain, write_chain};
use std::alloc::{AllocError, Global};
use std::process::Abort;
use std::test::Fail;

/// The bytes of a bucket.
const BUCKET: usize = 32_768;

/// The buckets of a chain of seven sets.
const CHAIN: [u32; 7] = [20, 9, 30, 12, 11, 40, 10];

/// A device of 65,536 buckets of 64 sectors, of which only the first are kept. It doesn't tell what it
/// holds.
#[derive(Drop)]
struct Front {
    kept: MemDisk,
}

impl Front {
    // A device that keeps the first 64 buckets.
    fn new(alloc: Global) -> Result<Front, AllocError> {
        let bytes = vec![in alloc; 0u8; 64 * BUCKET]?;
        let kept = MemDisk::new(alloc, bytes, 1024)?;
        Ok(Front { kept })
    }

    // Whether these bytes from a sector on are kept.
    fn keeps(&self, at: u64, bytes: usize) -> bool
        ensures { IsTrue result → at + bytes / 512 ≤ (as_disk self.now.kept).sectors }
    {
        at <= self.kept.sectors() && (bytes / 512) as u64 <= self.kept.sectors() - at
    }
}

impl Disk for Front {
    ghost use Rattle.std.specs.Prelude.{None};
    ghost use Rattle.std.proofs.Common.{lit≤};
    ghost use Rattle.bc_disk.specs.MemDisk.{memory};

    ghost facts = { λ d. record {
      sectors = 4194304;
      holds = None;
      may_leave = λ _. ⊥;
      calls = (memory d.kept).calls.made;
      faults = (memory d.kept).calls.faults;
    } };

    ghost honest = { λ d. record { size = lit≤ tt; possible = tt } };

    fn sectors(&self) -> u64 {
        4_194_304
    }

    fn read(&mut self, at: u64, into: &mut [u8]) -> Result<(), Failed> {
        if self.keeps(at, into.len()) {
            return self.kept.read(at, into);
        }
        into.fill(0);
        self.kept.barrier()
    }

    fn write(&mut self, at: u64, bytes: &[u8]) -> Result<(), Failed> {
        if self.keeps(at, bytes.len()) {
            return self.kept.write(at, bytes);
        }
        self.kept.barrier()
    }

    fn barrier(&mut self) -> Result<(), Failed> {
        self.kept.barrier()
    }
}

// A cache device of so many buckets of 64 sectors. Of 65,536 buckets a chain has seven sets.
fn device(nbuckets: u32) -> Geometry
    requires some { 128 ≤ nbuckets }
    requires most { nbuckets ≤ 65536 }
    ensures bucket { result.bucket ≡ 64 }
    ensures buckets { result.nbuckets ≡ nbuckets }
    ensures journal { result.first_bucket + result.journal ≡ 9 }
{
    Geometry {
        block: 1,
        bucket: 64,
        nbuckets,
        first_bucket: 1,
        journal: 8,
        set_magic: 1,
        node_sectors: 64,
    }
}

// The bytes of a bucket.
fn bucket_of(alloc: Global, byte: u8) -> Result<Vec<u8>, AllocError>
    ensures { IfOk result (λ v. length v.items ≡ 32768) }
{
    vec![in alloc; byte; BUCKET]
}

// What the tests say of a bucket.
fn record_of(bucket: u32) -> BucketRecord {
    BucketRecord {
        priority: (bucket.wrapping_mul(257).wrapping_add(5) % 65_536) as u16,
        generation: (bucket.wrapping_mul(3) % 256) as u8,
    }
}

// What they say of all buckets.
fn gens_of(alloc: Global, g: &Geometry) -> Result<Gens, AllocError>
    ensures { IfOk result (λ gens. length gens.records ≡ g.now.nbuckets) }
{
    let mut gens = Gens::new(alloc, g)?;
    for bucket in 0..g.nbuckets {
        let entry = record_of(bucket);
        gens.set(bucket, entry.priority, entry.generation);
    }
    Ok(gens)
}

// A device with a chain of seven sets, which begins in bucket 20.
fn written(rt: &impl Abort, alloc: Global) -> Result<Front, Fail> {
    let mut disk = Front::new(alloc)?;
    let g = device(65_536);
    let gens = gens_of(alloc, &g)?;
    let mut buffer = bucket_of(alloc, 0)?;
    assert_eq!(rt; sets_in_chain(&g), 7);
    assert!(rt; write_chain(&mut disk, &g, &gens, &CHAIN, &mut buffer).is_ok());
    Ok(disk)
}

#[test]
fn sizes(rt: HostRuntime) {
    for (nbuckets, sets) in [(128, 1), (10_909, 1), (10_910, 2), (65_536, 7)] {
        let g = device(nbuckets);
        assert_eq!(rt; records_in_set(&g), 10_909);
        assert_eq!(rt; sets_in_chain(&g), sets);
    }
    let gibibytes = Geometry {
        block: 1,
        bucket: 1024,
        nbuckets: 8192,
        first_bucket: 1,
        journal: 64,
        set_magic: 1,
        node_sectors: 512,
    };
    assert_eq!(rt; records_in_set(&gibibytes), 174_749);
    assert_eq!(rt; sets_in_chain(&gibibytes), 1);
}

/// The checksum was computed by another program.
#[test]
fn one_set(rt: HostRuntime) -> Result<(), Fail> {
    let g = device(128);
    let gens = gens_of(rt.alloc(), &g)?;
    let mut bytes = bucket_of(rt.alloc(), 7)?;
    assert_eq!(rt; sets_in_chain(&g), 1);
    encode_set(&g, &gens, 0, 0, &mut bytes);
    assert_eq!(rt; bytes.len(), BUCKET);
    assert_eq!(rt; get_u64(&bytes, 0), 0x99d9_aa5d_0ac2_42ba);
    assert_eq!(rt; get_u64(&bytes, 8), 0x6750_e15f_8733_7f90);
    assert_eq!(rt; &bytes[40..49], [5, 0, 0, 6, 1, 3, 7, 2, 6].as_slice());
    assert_eq!(rt; &bytes[421..426], [132, 127, 125, 0, 0].as_slice());
    Ok(())
}

// Reads the chain that begins in this bucket.
fn read(disk: &mut Front, alloc: Global, first: u64) -> Result<Gens, PrioError> {
    read_chain(alloc, disk, &device(65_536), first)
}

#[test]
fn seven_sets(rt: HostRuntime) -> Result<(), Fail> {
    let mut disk = written(&rt, rt.alloc())?;
    let gens = read(&mut disk, rt.alloc(), 20).ok().ok_or("refused")?;
    assert_eq!(rt; gens.chain(), CHAIN.as_slice());
    assert_eq!(rt; gens.records().len(), 65_536);
    for (bucket, entry) in gens.records().iter().enumerate() {
        assert_eq!(rt; *entry, record_of(bucket as u32));
    }
    assert_eq!(rt; disk.kept.calls(), 14);
    Ok(())
}

/// A change of a set: the number of 8 bytes at a place.
#[derive(Clone, Copy, Drop)]
struct Change {
    bucket: u64,
    at: usize,
    number: u64,
    /// Whether the checksum is made right again.
    sealed: bool,
}

impl Change {
    // Makes the change in the bytes of the set.
    fn make(&self, rt: &impl Abort, bytes: &mut [u8]) {
        assert!(rt; bytes.len() == BUCKET && self.at <= BUCKET - 8);
        put_u64(bytes, self.at, self.number);
        if self.sealed {
            let sum = crc64(u64::MAX, &bytes[8..]);
            put_u64(bytes, 0, sum);
        }
    }
}

// Makes a change on a device.
fn change_set(rt: &impl Abort, disk: &mut Front, change: Change, bytes: &mut [u8])
    requires { length bytes.old ≡ 32768 }
{
    assert!(rt; change.bucket < 64);
    assert!(rt; disk.read(64 * change.bucket, bytes).is_ok());
    change.make(rt, bytes);
    assert!(rt; disk.write(64 * change.bucket, bytes).is_ok());
}

// The error of a chain of seven sets of which one was changed so.
fn error_after(rt: &impl Abort, alloc: Global, change: Change) -> Result<Option<PrioError>, Fail> {
    let mut disk = written(rt, alloc)?;
    let mut bytes = bucket_of(alloc, 0)?;
    change_set(rt, &mut disk, change, &mut bytes);
    Ok(read(&mut disk, alloc, 20).err())
}

#[test]
fn changed_sets(rt: HostRuntime) -> Result<(), Fail> {
    for (bucket, at, number, sealed, error) in [
        // The third set names a journal bucket, one that the device lacks, the first set, or none.
        (30, 32, 8, true, PrioError::Range),
        (30, 32, 65_536, true, PrioError::Range),
        (30, 32, 20, true, PrioError::Cycle),
        (30, 32, 0, true, PrioError::Count),
        // The last set names one more.
        (10, 32, 41, true, PrioError::Count),
        // The magic of another cache, and bytes that the checksum isn't of, up to the last one.
        (12, 8, 0x6750_e15f_8733_7f91, true, PrioError::Magic),
        (12, 8, 0x6750_e15f_8733_7f91, false, PrioError::Magic),
        (12, 40, 1, false, PrioError::Checksum),
        (10, 32_760, 1, false, PrioError::Checksum),
    ] {
        let change = Change {
            bucket,
            at,
            number,
            sealed,
        };
        assert_eq!(rt;
            error_after(&rt, rt.alloc(), change)?,
            Some(error),
            "of {number} in {bucket}"
        );
    }
    Ok(())
}

#[test]
fn other_refusals(rt: HostRuntime) -> Result<(), Fail> {
    let mut disk = written(&rt, rt.alloc())?;
    for first in [0, 8, 65_536, u64::MAX] {
        assert_eq!(rt;
            read(&mut disk, rt.alloc(), first).err(),
            Some(PrioError::Range)
        );
    }
    assert_eq!(rt; disk.kept.calls(), 7);
    disk.kept.fail(10)?;
    assert_eq!(rt;
        read(&mut disk, rt.alloc(), 20).err(),
        Some(PrioError::Fault)
    );
    assert_eq!(rt; disk.kept.calls(), 10);
    assert_eq!(rt; disk.kept.faults(), 1);
    Ok(())
}
