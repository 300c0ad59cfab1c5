//! Buckets beside a plain list of their records, at random.
ghost use Rattle.std.specs.Prelude.{◌≡◌, ◌<◌, length};

use crate::random::next;
use bc_bucket::{Bucket, Buckets, Mark};
use bc_disk::gens::Gens;
use bc_disk::geometry::Geometry;
use bc_plain::bucket::{aged, behind, hit, is_reclaimable, is_stale, marked, raised};
use std::test::Fail;

// A device of 128 buckets of 64 sectors, whose data begins at bucket 3.
const GEOMETRY: Geometry = Geometry {
    block: 1,
    bucket: 64,
    nbuckets: 128,
    first_bucket: 1,
    journal: 2,
    set_magic: 1,
    node_sectors: 64,
};

// A mark by its number.
fn mark_of(number: u64) -> Mark {
    match number {
        0 => Mark::Reclaimable,
        1 => Mark::Dirty,
        2 => Mark::Metadata,
        _ => Mark::None,
    }
}

// Pins the bucket, ends a pin, holds it or lets it go, where that may be, and answers what its record is
// to be then.
fn hold(buckets: &mut Buckets, bucket: u32, choice: u64, known: Bucket) -> Bucket
    requires { bucket < length buckets.old.records }
    ensures { length buckets.new.records ≡ length buckets.old.records }
{
    let now = buckets.get(bucket);
    match choice {
        0 if now.pins < 3 => {
            buckets.pin(bucket);
            let pins = known.pins.saturating_add(1);
            Bucket { pins, ..known }
        }
        1 if 0 < now.pins => {
            buckets.unpin(bucket);
            let pins = known.pins.saturating_sub(1);
            Bucket { pins, ..known }
        }
        2 if !now.held => {
            buckets.hold(bucket);
            Bucket {
                held: true,
                ..known
            }
        }
        _ if now.held => {
            buckets.let_go(bucket);
            Bucket {
                held: false,
                ..known
            }
        }
        _ => known,
    }
}

// Changes a bucket, and answers what its record is to be then.
fn change(buckets: &mut Buckets, bucket: u32, choice: u64, known: Bucket) -> Bucket
    requires { bucket < length buckets.old.records }
    ensures { length buckets.new.records ≡ length buckets.old.records }
{
    match choice {
        0 if known == buckets.get(bucket) && buckets.reclaimable(bucket) => {
            buckets.raise(bucket);
            raised(&known)
        }
        1 => {
            buckets.hit(bucket);
            hit(3, bucket, &known)
        }
        2 => {
            buckets.set_gc(bucket, known.generation);
            Bucket {
                last_gc: known.generation,
                ..known
            }
        }
        3 => {
            buckets.make_durable(bucket);
            Bucket {
                durable: known.generation,
                ..known
            }
        }
        4..=7 => hold(buckets, bucket, choice - 4, known),
        _ => {
            let mark = mark_of(choice % 8);
            buckets.mark(bucket, mark, 8);
            marked(mark, 8, &known)
        }
    }
}

// Lowers the priorities in both.
fn age(buckets: &mut Buckets, plain: &mut [Bucket]) {
    buckets.age();
    let mut bucket = 0u32;
    for known in plain.iter_mut() {
        *known = aged(3, bucket, known);
        bucket = bucket.wrapping_add(1);
    }
}

#[test]
fn buckets_beside_a_list_of_records(rt: HostRuntime) -> Result<(), Fail> {
    let gens = Gens::new(rt.alloc(), &GEOMETRY)?;
    let mut buckets = Buckets::new(rt.alloc(), &GEOMETRY, &gens)?;
    let mut plain: Vec<Bucket> = Vec::from_slice(rt.alloc(), buckets.records())?;
    let mut random: u64 = 1;
    for _step in 0..5000 {
        random = next(random);
        let bucket = (random / 65536 % 128) as usize;
        assert!(rt; bucket < plain.len() && bucket < buckets.records().len());
        let free = buckets.reclaimable(bucket as u32);
        assert_eq!(rt; free, is_reclaimable(&plain[bucket]));
        plain[bucket] = change(
            &mut buckets,
            bucket as u32,
            random / 1024 % 16,
            plain[bucket],
        );
        if random / 64 % 16 == 0 {
            age(&mut buckets, &mut plain);
        }
        assert!(rt; buckets.records() == plain.as_slice());
    }
    Ok(())
}

#[test]
fn generations_come_again(rt: HostRuntime) -> Result<(), Fail> {
    for (bucket, pointer, rises, stale) in [
        (2, 250, 8, true),
        (250, 2, 248, false),
        (128, 0, 128, true),
    ] {
        assert_eq!(rt; behind(bucket, pointer), rises);
        assert_eq!(rt; is_stale(bucket, pointer), stale);
        assert_eq!(rt; bc_key::is_stale(bucket, pointer), stale);
    }
    Ok(())
}
