//! Walks and rounds beside plain lists, at random.
use crate::random::next;
use bc_bucket::{Bucket, Buckets, Found, Mark, Reference, Walk};
use bc_disk::gens::Gens;
use bc_disk::geometry::Geometry;
use bc_plain::bucket::{found, marked, raised, settled};
use std::test::Fail;

// A device of 128 buckets of 64 sectors, whose data begins at bucket 3.
const GEOMETRY: Geometry = Geometry {
    block: 1,
    bucket: 64,
    nbuckets: 128,
    first_bucket: 1,
    journal: 2,
    set_magic: 1,
    node_sectors: 64,
};

// A pointer of some generation.
fn some_reference(random: u64) -> Reference {
    Reference {
        generation: (random / 256 % 256) as u8,
        sectors: (random % 65536) as u16,
        dirty: random / 65536 % 8 == 0,
    }
}

// A mark by its number.
fn mark_of(number: u64) -> Mark {
    match number {
        0 => Mark::Dirty,
        1 => Mark::Metadata,
        2 => Mark::Reclaimable,
        _ => Mark::None,
    }
}

// Changes a bucket in both, and notes in both that a key into it was added, or adds a key to the
// walk.
fn step(
    buckets: &mut Buckets,
    plain: &mut [Bucket],
    touched: &mut [bool],
    walk: &mut Walk,
    random: u64,
) {
    let bucket = random / 65536 % 128;
    let place = bucket as usize;
    let walked = walk.found().len();
    if place >= buckets.records().len()
        || place >= plain.len()
        || place >= touched.len()
        || place >= walked
    {
        return;
    }
    let known = plain[place];
    match random / 1024 % 8 {
        0 => {
            buckets.touch(bucket as u32);
            touched[place] = true;
        }
        1 => {
            let mark = mark_of(random / 64 % 8);
            buckets.mark(bucket as u32, mark, 8);
            plain[place] = marked(mark, 8, &known);
        }
        2 | 3 if known.uses < 1000 && buckets.reclaimable(bucket as u32) => {
            buckets.raise(bucket as u32);
            plain[place] = raised(&known);
        }
        _ => walk.add(bucket as u32, known.generation, some_reference(random / 8)),
    }
}

// Ends the round in both, and answers whether both have the same buckets then, and the priorities and
// generations that are written down are these.
fn ends(
    buckets: &mut Buckets,
    plain: &mut [Bucket],
    touched: &[bool],
    walk: &Walk,
    gens: &mut Gens,
) -> bool {
    let count = buckets.records().len();
    if walk.found().len() != count || gens.records().len() != count {
        return false;
    }
    buckets.settle(walk);
    for ((known, found), touched) in plain.iter_mut().zip(walk.found()).zip(touched) {
        *known = settled(*touched, found, known);
    }
    buckets.copy_gens(gens);
    let mut same = buckets.records() == &*plain;
    for (known, written) in plain.iter().zip(gens.records()) {
        same &= known.priority == written.priority && known.generation == written.generation;
    }
    same
}

#[test]
fn rounds_beside_plain_lists(rt: HostRuntime) -> Result<(), Fail> {
    let mut gens = Gens::new(rt.alloc(), &GEOMETRY)?;
    let mut buckets = Buckets::new(rt.alloc(), &GEOMETRY, &gens)?;
    let mut walk = Walk::new(rt.alloc(), &GEOMETRY)?;
    let mut plain: Vec<Bucket> = Vec::from_slice(rt.alloc(), buckets.records())?;
    let mut touched = vec![in rt.alloc(); false; plain.len()]?;
    let mut random: u64 = 1;
    for _round in 0..40 {
        walk.clear();
        buckets.begin();
        touched.fill(false);
        for _step in 0..300 {
            random = next(random);
            step(&mut buckets, &mut plain, &mut touched, &mut walk, random);
        }
        assert!(rt; ends(&mut buckets, &mut plain, &touched, &walk, &mut gens));
    }
    Ok(())
}

#[test]
fn walks_beside_lists_of_pointers(rt: HostRuntime) -> Result<(), Fail> {
    let mut walk = Walk::new(rt.alloc(), &GEOMETRY)?;
    let mut random: u64 = 1;
    for bucket in 0..walk.found().len() {
        let own = (bucket % 256) as u8;
        let mut references: Vec<Reference> = Vec::new(rt.alloc());
        for count in 0..40 {
            assert!(rt; bucket < walk.found().len() && bucket < 128);
            assert!(rt;
                walk.found()[bucket] == found(own, &references),
                "{bucket} {count}"
            );
            random = next(random);
            let reference = some_reference(random);
            walk.add(bucket as u32, own, reference);
            references.push(reference)?;
        }
    }
    walk.clear();
    for found in walk.found() {
        assert!(rt; *found == Found::NONE);
    }
    Ok(())
}
