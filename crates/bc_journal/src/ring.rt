//! The ring of journal buckets.
ghost use Rattle.std.specs.Prelude.{◌≡◌, ◌+◌, ◌*◌, ◌%◌, ◌<◌, ◌≤◌, ◌^◌, length, IfOk, IfSome, nat_lt};
ghost use Rattle.bc_record.specs.Sectors.{in_blocks};
ghost use Rattle.bc_journal.specs.Ring.{Ring, IsRing, IsPlace, following, is_free, may_begin, place_of, with_entry, sectors_for};

use crate::place::Place;
use bc_disk::geometry::Geometry;
use std::alloc::{AllocError, Global};
use std::marker::Model;

/// The journal's buckets, which are used in a ring: the place of the next entry, and for each
/// bucket the greatest number of an entry in it.
#[derive(Drop)]
pub struct Ring {
    geometry: Geometry,
    next: Place,
    newest: Vec<u64>,
}

impl Model for Ring {
    ghost use Rattle.bc_journal.specs.Ring.{Ring, IsRing};

    ghost Value = { Ring };

    ghost view = { λ r. record { geometry = r.geometry; next = r.next; newest = r.newest.items } };

    ghost invariant = { λ r. IsRing (record {
      geometry = r.geometry;
      next = r.next;
      newest = r.newest.items;
    }) };
}

/// How many sectors so many bytes take, in whole blocks.
pub fn in_blocks(block: u16, bytes: usize) -> usize
    requires block { 0 < block }
    requires bytes { bytes ≤ 2 ^ 60 }
    ensures { result ≡ in_blocks block bytes }
{
    let block = block as usize;
    block * ((bytes + (512 * block - 1)) / (512 * block))
}

/// The journal bucket behind one.
fn following(g: &Geometry, bucket: u32) -> u32
    requires { bucket < g.now.journal }
    ensures value { result ≡ following g.now bucket }
    ensures within { result < g.now.journal }
{
    if bucket + 1 < u32::from(g.journal) {
        bucket + 1
    } else {
        0
    }
}

impl Ring {
    /// A ring whose next entry goes to this place.
    pub fn new(alloc: Global, g: &Geometry, next: Place, newest: &[u64]) -> Result<Ring, AllocError>
        requires place { IsPlace g.now next }
        requires buckets { length newest.now ≡ g.now.journal }
        ensures { IfOk result (λ r.
            r ≡ record { geometry = g.now; next = next; newest = newest.now }) }
    {
        let newest = newest.to_vec(alloc)?;
        Ok(Ring {
            geometry: *g,
            next,
            newest,
        })
    }

    /// How the device is divided.
    pub fn geometry(&self) -> &Geometry
        ensures { result.now ≡ self.now.geometry }
    {
        &self.geometry
    }

    /// The place behind the last entry.
    pub fn next(&self) -> Place
        ensures value { result ≡ self.now.next }
        ensures ring { IsRing self.now }
    {
        self.next
    }

    /// The greatest number of an entry in each journal bucket, 0 where there is none.
    pub fn newest(&self) -> &[u64]
        ensures value { result.now ≡ self.now.newest }
        ensures ring { IsRing self.now }
    {
        self.newest.as_slice()
    }

    /// Whether each entry in the bucket is older than `low`.
    fn is_free(&self, low: u64, bucket: u32) -> bool
        requires { bucket < self.now.geometry.journal }
        ensures { result ≡ is_free self.now low bucket }
    {
        self.newest[bucket as usize] < low
    }

    /// Whether an entry may begin the bucket.
    fn may_begin(&self, low: u64, keyed: bool, bucket: u32) -> bool
        requires { bucket < self.now.geometry.journal }
        ensures { result ≡ may_begin self.now low keyed bucket }
    {
        self.is_free(low, bucket)
            && (!keyed || self.is_free(low, following(&self.geometry, bucket)))
    }

    /// Where an entry of so many sectors goes, with keys or without, if it has a place. `low` is
    /// the oldest entry that is needed as the newest durable entry says.
    pub fn place_of(&self, low: u64, keyed: bool, sectors: u16) -> Option<Place>
        requires { sectors ≤ 64 }
        ensures value { result ≡ place_of self.now low keyed sectors }
        ensures within { IfSome result (λ p. IsPlace self.now.geometry p
            × (p.sector + sectors ≤ self.now.geometry.bucket)) }
    {
        if self.next.sector + sectors <= self.geometry.bucket {
            return Some(self.next);
        }
        let bucket = following(&self.geometry, self.next.bucket);
        if self.may_begin(low, keyed, bucket) {
            Some(Place { bucket, sector: 0 })
        } else {
            None
        }
    }

    /// Puts an entry of this number and so many sectors into the ring at this place.
    pub fn put(&mut self, place: Place, sectors: u16, number: u64)
        requires place { IsPlace self.old.geometry place }
        requires within { place.sector + sectors ≤ self.old.geometry.bucket }
        requires blocks { sectors % self.old.geometry.block ≡ 0 }
        ensures put { self.new ≡ with_entry self.old place sectors number }
        ensures ring { IsRing self.new }
    {
        self.newest[place.bucket as usize] = number;
        self.next = Place {
            bucket: place.bucket,
            sector: place.sector + sectors,
        };
    }
}
