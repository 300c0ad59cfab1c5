//! All buckets of a device.
ghost use Rattle.std.specs.Prelude.{◌≡◌, ◌↔◌, ℕ, List, ◌+◌, ◌-◌, ◌<◌, ◌≤◌, ◌^◌, false, true, length, map, replicate, slice_index_or, slice_set, IfOk, IsTrue};
ghost use Rattle.bc_bucket.specs.Bucket.{aged, hit, made_durable, marked, pinned, raised, unpinned, with_held, with_last_gc, IsReclaimable};
ghost use Rattle.bc_bucket.specs.Buckets.{opened_by, settled};

use crate::bucket::{Bucket, Mark};
use crate::walk::{Found, Walk};
use bc_disk::gens::{BucketRecord, Gens};
use bc_disk::geometry::Geometry;
use std::alloc::{AllocError, Global};
use std::marker::Model;

/// All buckets of a device, by their numbers. Its memory is taken when it is made.
#[derive(Drop)]
pub struct Buckets {
    size: u16,
    data_from: u32,
    records: Vec<Bucket>,
    touched: Vec<bool>,
}

impl Model for Buckets {
    ghost use Rattle.std.specs.Prelude.{◌≡◌, ◌<◌, ◌≤◌, vec_len};
    ghost use Rattle.bc_bucket.specs.Buckets.{Buckets};

    ghost Value = { Buckets };

    ghost view = { λ b. record {
      size = b.size;
      data_from = b.data_from;
      records = b.records.items;
      touched = b.touched.items;
    } };

    ghost invariant = { λ b. (vec_len b.touched ≡ vec_len b.records)
        × (vec_len b.records ≤ 1048576) × (0 < b.size) × (b.size ≤ 32768) };
}

// A bucket as the opening finds it.
fn opened(stored: BucketRecord) -> Bucket
    ensures { result ≡ opened_by stored }
{
    let generation = stored.generation;
    Bucket {
        generation,
        durable: generation,
        last_gc: generation,
        priority: stored.priority,
        mark: Mark::None,
        used: 0,
        uses: 0,
        pins: 0,
        held: false,
    }
}

// The bucket after a round that found this for it.
fn settled(found: Found, bucket: Bucket) -> Bucket
    ensures { result ≡ settled found bucket }
{
    let last_gc = found.last_gc.unwrap_or(bucket.generation);
    if bucket.mark.is_metadata() {
        return Bucket { last_gc, ..bucket };
    }
    Bucket {
        last_gc,
        mark: found.mark,
        used: found.used,
        ..bucket
    }
}

impl Buckets {
    ghost use Rattle.bc_bucket.specs.Buckets.{bucket_of, changed, opened_by, settled_at, shown_on_disk, EachChanged, IsCounted};

    /// Each bucket with its priority and generation, which is also the durable one and the oldest
    /// that a key may have until a walk says more. None is marked, used, pinned or held.
    pub fn new(alloc: Global, g: &Geometry, gens: &Gens) -> Result<Buckets, AllocError>
        requires { length gens.now.records ≡ g.now.nbuckets }
        ensures records { IfOk result (λ b. b.records ≡ map opened_by gens.now.records) }
        ensures size { IfOk result (λ b. b.size ≡ g.now.bucket) }
        ensures data { IfOk result (λ b. b.data_from ≡ g.now.first_bucket + g.now.journal) }
        ensures touched { IfOk result (λ b. b.touched ≡ replicate g.now.nbuckets false) }
        ensures counted { IfOk result (λ b.
            IsCounted (map (λ r. r.generation) gens.now.records) b) }
    {
        let records = gens
            .records()
            .iter()
            .copied()
            .map(|r| opened(r))
            .collect(alloc)?;
        let touched = vec![in alloc; false; g.nbuckets as usize]?;
        Ok(Buckets {
            size: g.bucket,
            data_from: u32::from(g.first_bucket) + u32::from(g.journal),
            records,
            touched,
        })
    }

    /// The sectors of a bucket.
    pub fn bucket_sectors(&self) -> u16
        ensures size { result ≡ self.now.size }
        ensures some { 0 < result }
        ensures small { result ≤ 32768 }
        ensures few { length self.now.records ≤ 1048576 }
    {
        let _ = &self.records;
        self.size
    }

    /// The first bucket behind superblock and journal.
    pub fn data_from(&self) -> u32
        ensures { result ≡ self.now.data_from }
    {
        self.data_from
    }

    /// Whether a key into the bucket was added since the trace round began.
    pub fn is_touched(&self, bucket: u32) -> bool
        requires { bucket < length self.now.records }
        ensures { result ≡ slice_index_or self.now.touched bucket false }
    {
        self.touched[bucket as usize]
    }

    /// The record of each bucket, in the order of the buckets.
    pub fn records(&self) -> &[Bucket]
        ensures { result.now ≡ self.now.records }
    {
        &self.records
    }

    /// What is known of the bucket.
    pub fn get(&self, bucket: u32) -> Bucket
        requires { bucket < length self.now.records }
        ensures { result ≡ bucket_of self.now bucket }
    {
        self.records[bucket as usize]
    }

    /// Whether the bucket may be given up.
    pub fn reclaimable(&self, bucket: u32) -> bool
        requires { bucket < length self.now.records }
        ensures { IsTrue result ↔ IsReclaimable (bucket_of self.now bucket) }
    {
        self.get(bucket).is_reclaimable()
    }

    // Puts this record in the place of the bucket's own.
    fn put(&mut self, bucket: u32, next: Bucket)
        requires { bucket < length self.old.records }
        ensures { self.new ≡ changed (λ _. next) bucket self.old }
    {
        self.records[bucket as usize] = next;
    }

    /// Notes that one more place in the bucket is being written. It isn't given up until that place
    /// is unpinned.
    pub fn pin(&mut self, bucket: u32)
        requires bucket { bucket < length self.old.records }
        requires room { (bucket_of self.old bucket).pins < 2 ^ 32 - 1 }
        ensures { self.new ≡ changed pinned bucket self.old }
    {
        let known = self.get(bucket);
        let pins = known.pins + 1;
        self.put(bucket, Bucket { pins, ..known });
    }

    /// Ends one pin.
    pub fn unpin(&mut self, bucket: u32)
        requires bucket { bucket < length self.old.records }
        requires pinned { 0 < (bucket_of self.old bucket).pins }
        ensures { self.new ≡ changed unpinned bucket self.old }
    {
        let known = self.get(bucket);
        let pins = known.pins - 1;
        self.put(bucket, Bucket { pins, ..known });
    }

    /// Begins a hold: the bucket is somebody's, and isn't given up until it is let go.
    pub fn hold(&mut self, bucket: u32)
        requires bucket { bucket < length self.old.records }
        requires free { (bucket_of self.old bucket).held ≡ false }
        ensures { self.new ≡ changed (with_held true) bucket self.old }
    {
        let known = self.get(bucket);
        self.put(
            bucket,
            Bucket {
                held: true,
                ..known
            },
        );
    }

    /// Ends the hold.
    pub fn let_go(&mut self, bucket: u32)
        requires bucket { bucket < length self.old.records }
        requires held { (bucket_of self.old bucket).held ≡ true }
        ensures { self.new ≡ changed (with_held false) bucket self.old }
    {
        let known = self.get(bucket);
        self.put(
            bucket,
            Bucket {
                held: false,
                ..known
            },
        );
    }

    /// Gives the bucket up: its generation and its uses rise by one, which makes each pointer into
    /// it stale.
    pub fn raise(&mut self, bucket: u32)
        requires bucket { bucket < length self.old.records }
        requires reclaimable { IsReclaimable (bucket_of self.old bucket) }
        ensures raised { self.new ≡ changed raised bucket self.old }
        ensures counted { (opening : List ℕ)
            → IsCounted opening self.old → IsCounted opening self.new }
    {
        let known = self.get(bucket);
        let generation = known.generation.wrapping_add(1);
        let uses = known.uses + 1;
        self.put(
            bucket,
            Bucket {
                generation,
                uses,
                ..known
            },
        );
    }

    /// Notes that the bucket's generation stands in priority sets that a durable entry names.
    pub fn make_durable(&mut self, bucket: u32)
        requires { bucket < length self.old.records }
        ensures { self.new ≡ changed made_durable bucket self.old }
    {
        let known = self.get(bucket);
        let durable = known.generation;
        self.put(bucket, Bucket { durable, ..known });
    }

    /// Marks the bucket, with so many sectors of live keys. Metadata gets the priority 65,535, and
    /// a bucket that was metadata the priority 0.
    pub fn mark(&mut self, bucket: u32, mark: Mark, sectors: u32)
        requires { bucket < length self.old.records }
        ensures { self.new ≡ changed (marked mark sectors) bucket self.old }
    {
        let known = self.get(bucket);
        self.put(bucket, known.marked(mark, sectors));
    }

    /// Notes that a look found data in the bucket: its priority, if it is a data priority, is
    /// 32,768 then.
    pub fn hit(&mut self, bucket: u32)
        requires { bucket < length self.old.records }
        ensures { self.new ≡ changed (hit self.old.data_from bucket) bucket self.old }
    {
        let known = self.get(bucket);
        self.put(bucket, known.hit(self.data_from, bucket as usize));
    }

    /// Makes this the oldest generation that a key into the bucket may have.
    pub fn set_gc(&mut self, bucket: u32, oldest: u8)
        requires { bucket < length self.old.records }
        ensures { self.new ≡ changed (with_last_gc oldest) bucket self.old }
    {
        let known = self.get(bucket);
        self.put(
            bucket,
            Bucket {
                last_gc: oldest,
                ..known
            },
        );
    }

    /// Lowers each data priority above 0 by 1. A data priority is that of a bucket behind the
    /// journal that isn't metadata.
    pub fn age(&mut self)
        ensures { EachChanged (aged self.old.data_from) self.old self.new }
    {
        for (k, bucket) in self.records.iter_mut().enumerate() {
            *bucket = bucket.aged(self.data_from, k);
        }
    }

    /// Begins a trace round: no bucket is touched.
    pub fn begin(&mut self)
        ensures { self.new
            ≡ record self.old { touched = replicate (length self.old.records) false } }
    {
        self.touched.fill(false);
    }

    /// Notes that a key into the bucket was added, so that the round that goes on doesn't settle
    /// it.
    pub fn touch(&mut self, bucket: u32)
        requires { bucket < length self.old.records }
        ensures { self.new ≡ record self.old { touched = slice_set self.old.touched bucket true } }
    {
        self.touched[bucket as usize] = true;
    }

    /// Ends a trace round with what its walk found. Each bucket that wasn't touched since it began
    /// gets the oldest generation of its keys, or its own where it has none, and, if it isn't
    /// metadata, mark and used sectors. Touched buckets stay.
    pub fn settle(&mut self, walk: &Walk)
        requires { length walk.now ≡ length self.old.records }
        ensures { EachChanged (settled_at self.old.touched walk.now) self.old self.new }
    {
        let found = walk.found();
        for (k, bucket) in self.records.iter_mut().enumerate() {
            if !self.touched[k] {
                *bucket = settled(found[k], *bucket);
            }
        }
    }

    /// Writes each bucket's priority and generation into `into`, whose chain stays.
    pub fn copy_gens(&self, into: &mut Gens)
        requires { length into.old.records ≡ length self.now.records }
        ensures records { into.new.records ≡ map shown_on_disk self.now.records }
        ensures chain { into.new.chain ≡ into.old.chain }
    {
        for (k, bucket) in self.records.iter().enumerate() {
            into.set(k as u32, bucket.priority, bucket.generation);
        }
    }
}
