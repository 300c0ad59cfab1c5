//! What a walk over the keys of all leaves finds.
ghost use Rattle.std.specs.Prelude.{◌≡◌, ◌<◌, length, replicate, IfOk};
ghost use Rattle.bc_key.specs.Generation.{behind};
ghost use Rattle.bc_bucket.specs.Walk.{counted, mark_with, none_found, older, walked};

use crate::bucket::Mark;
use bc_disk::geometry::Geometry;
use bc_key::is_stale;
use std::alloc::{AllocError, Global};
use std::marker::Model;

/// A key's pointer into a bucket, as a walk sees it.
#[derive(Clone, Copy, Debug, PartialEq, Eq, Drop)]
pub struct Reference {
    /// The pointer's generation.
    pub generation: u8,
    /// The key's length.
    pub sectors: u16,
    pub dirty: bool,
}

/// What was found for a bucket.
#[derive(Clone, Copy, Debug, PartialEq, Eq, Drop)]
pub struct Found {
    /// None, Reclaimable or Dirty, by its live keys.
    pub mark: Mark,
    /// The sectors of its live keys.
    pub used: u32,
    /// The oldest generation that a key into it has, also a stale one. `None` where no key points
    /// into it.
    pub last_gc: Option<u8>,
}

impl Found {
    /// Of a bucket into which no key was found.
    pub const NONE: Found = Found {
        mark: Mark::None,
        used: 0,
        last_gc: None,
    };
}

/// What a walk has found so far, for each bucket. Its memory is taken when it is made.
#[derive(Drop)]
pub struct Walk {
    found: Vec<Found>,
}

impl Model for Walk {
    ghost use Rattle.std.specs.Prelude.{List};
    ghost use Rattle.bc_bucket.specs.declared.walk.Found.{Found};

    ghost Value = { List Found };

    ghost view = { λ w. w.found.items };
}

// How far the generation lies behind the bucket's own.
fn behind(own: u8, generation: u8) -> u8
    ensures { result ≡ behind own generation }
{
    own.wrapping_sub(generation)
}

// The one of the two that lies further behind the bucket's own.
fn older(own: u8, oldest: Option<u8>, generation: u8) -> u8
    ensures { result ≡ older own oldest generation }
{
    match oldest {
        Some(oldest) if behind(own, generation) <= behind(own, oldest) => oldest,
        _ => generation,
    }
}

// The mark with one more live key.
fn mark_with(dirty: bool, mark: Mark) -> Mark
    ensures { result ≡ mark_with dirty mark }
{
    match mark {
        _ if dirty => Mark::Dirty,
        Mark::None => Mark::Reclaimable,
        _ => mark,
    }
}

// What is found with one more key.
fn counted(own: u8, reference: Reference, found: Found) -> Found
    ensures { result ≡ counted own reference found }
{
    let last_gc = Some(older(own, found.last_gc, reference.generation));
    if is_stale(own, reference.generation) {
        return Found { last_gc, ..found };
    }
    Found {
        mark: mark_with(reference.dirty, found.mark),
        used: found.used.saturating_add(u32::from(reference.sectors)),
        last_gc,
    }
}

impl Walk {
    /// Nothing was found for any bucket.
    pub fn new(alloc: Global, g: &Geometry) -> Result<Walk, AllocError>
        ensures { IfOk result (λ w. w ≡ replicate g.now.nbuckets none_found) }
    {
        let found = vec![in alloc; Found::NONE; g.nbuckets as usize]?;
        Ok(Walk { found })
    }

    /// What was found for each bucket, in the order of the buckets.
    pub fn found(&self) -> &[Found]
        ensures { result.now ≡ self.now }
    {
        &self.found
    }

    /// Begins again: nothing was found for any bucket, and there are as many as before. Takes no
    /// memory.
    pub fn clear(&mut self)
        ensures { self.new ≡ replicate (length self.old) none_found }
    {
        self.found.fill(Found::NONE);
    }

    /// Counts a key that points into this bucket, whose generation is `own` now: how far back the
    /// pointer lies, and, unless it is stale, its sectors and whether it is dirty. Takes no memory.
    pub fn add(&mut self, bucket: u32, own: u8, reference: Reference)
        requires { bucket < length self.old }
        ensures { self.new ≡ walked bucket own reference self.old }
    {
        let place = bucket as usize;
        self.found[place] = counted(own, reference, self.found[place]);
    }
}
