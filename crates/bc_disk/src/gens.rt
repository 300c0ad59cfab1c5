//! The priorities and generations of all buckets.
ghost use Rattle.std.specs.Prelude.{◌≡◌, ◌<◌, ◌++◌, [], ◌∷◌, length, replicate, slice_set, IfOk, OnOk, OnErr};
ghost use Rattle.bc_disk.specs.declared.gens.BucketRecord.{BucketRecord};

use crate::geometry::Geometry;
use std::alloc::{AllocError, Global};
use std::marker::Model;

/// What a priority set says of a bucket (`struct bucket_disk` in the kernel's `bcache_ondisk.h`).
#[derive(Clone, Copy, Debug, PartialEq, Eq, Drop)]
pub struct BucketRecord {
    /// How recently its data was used. Of two buckets the one with the lower number is reused first.
    pub priority: u16,
    /// How often it was given up, modulo 256.
    pub generation: u8,
}

/// The record of each bucket, and the buckets of the chain of priority sets in which the records
/// stand.
#[derive(Drop)]
pub struct Gens {
    records: Vec<BucketRecord>,
    chain: Vec<u32>,
}

impl Model for Gens {
    ghost use Rattle.bc_disk.specs.Gens.{Gens};

    ghost Value = { Gens };

    ghost view = { λ g. record { records = g.records.items; chain = g.chain.items } };
}

impl Gens {
    /// A record of priority 0 and generation 0 for each bucket, and no chain bucket.
    pub fn new(alloc: Global, g: &Geometry) -> Result<Gens, AllocError>
        ensures records { IfOk result (λ gens.
            gens.records ≡ replicate g.now.nbuckets (record { priority = 0; generation = 0 })) }
        ensures chain { IfOk result (λ gens. gens.chain ≡ []) }
    {
        let none = BucketRecord {
            priority: 0,
            generation: 0,
        };
        let records = vec![in alloc; none; g.nbuckets as usize]?;
        Ok(Gens {
            records,
            chain: Vec::new(alloc),
        })
    }

    /// The record of each bucket, in the order of the buckets.
    pub fn records(&self) -> &[BucketRecord]
        ensures { result.now ≡ self.now.records }
    {
        &self.records
    }

    /// The buckets of the chain, the first one first.
    pub fn chain(&self) -> &[u32]
        ensures { result.now ≡ self.now.chain }
    {
        &self.chain
    }

    /// Changes the record of a bucket. Takes no memory.
    pub fn set(&mut self, bucket: u32, priority: u16, generation: u8)
        requires { bucket < length self.old.records }
        ensures records { self.new.records
            ≡ slice_set self.old.records bucket (record { priority = priority; generation = generation }) }
        ensures chain { self.new.chain ≡ self.old.chain }
    {
        self.records[bucket as usize] = BucketRecord {
            priority,
            generation,
        };
    }

    /// Adds a bucket at the end of the chain. Where no memory is found, nothing has changed.
    pub fn add_to_chain(&mut self, bucket: u32) -> Result<(), AllocError>
        ensures records { self.new.records ≡ self.old.records }
        ensures ok { OnOk result (self.new.chain ≡ self.old.chain ++ bucket ∷ []) }
        ensures err { OnErr result (self.new.chain ≡ self.old.chain) }
    {
        self.chain.push(bucket)?;
        Ok(())
    }
}
