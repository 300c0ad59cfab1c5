//! The four lists, and the raised buckets, in plain vectors.
ghost use Rattle.std.specs.Prelude.{◌≡◌, ◌↔◌, ℕ, ◌<◌, ◌≤◌, ◌^◌, ◌∷◌, ◌++◌, [], true, false, length, take, drop, slice_index_or, IfNone, IfOk, IfSome, IsNone, IsTrue, OnOk};
ghost use Rattle.bc_alloc.specs.Reserve.{appended, free, has_room, no_reserve, prepended, times};
ghost use Rattle.bc_alloc.specs.Reserves.{empty, place_of, room_for};
ghost use Rattle.bc_alloc.specs.Victims.{AreVictims};

use crate::alloc::first_candidates;
use bc_alloc::Purpose;
use bc_bucket::Buckets;
use bc_disk::chain::sets_in_chain;
use bc_disk::geometry::Geometry;
use std::alloc::{AllocError, Global};
use std::marker::Model;

/// A list of buckets of bounded length.
#[derive(Drop)]
pub struct PlainReserve {
    room: u32,
    buckets: Vec<u32>,
}

impl Model for PlainReserve {
    ghost use Rattle.bc_alloc.specs.Reserve.{Reserve};

    ghost Value = { Reserve };

    ghost view = { λ l. record { room = l.room; buckets = l.buckets.items } };
}

impl PlainReserve {
    // No bucket, and room for so many.
    fn new(alloc: Global, room: u32) -> PlainReserve
        ensures { result ≡ record { room = room; buckets = [] } }
    {
        PlainReserve {
            room,
            buckets: Vec::new(alloc),
        }
    }

    // Whether it may have one more.
    fn has_room(&self) -> bool
        ensures { result ≡ has_room self.now }
    {
        self.buckets.len() < self.room as usize
    }

    // How many more buckets it may have.
    fn free(&self) -> usize
        ensures free { result ≡ free self.now }
        ensures few { result < 2 ^ 32 }
    {
        (self.room as usize).saturating_sub(self.buckets.len())
    }

    // Puts a bucket at the end.
    fn push(&mut self, bucket: u32) -> Result<(), AllocError>
        ensures { OnOk result (self.new ≡ appended bucket self.old) }
    {
        self.buckets.push(bucket)?;
        Ok(())
    }

    // Puts a bucket at the front.
    fn push_front(&mut self, bucket: u32) -> Result<(), AllocError>
        ensures { OnOk result (self.new ≡ prepended bucket self.old) }
    {
        self.buckets.insert(0, bucket)?;
        Ok(())
    }

    // Takes the first bucket, if there is one.
    fn pop(&mut self) -> Option<u32>
        ensures some { IfSome result (λ k. self.old.buckets ≡ k ∷ self.new.buckets) }
        ensures none { IfNone result ((self.old.buckets ≡ []) × (self.new ≡ self.old)) }
        ensures room { self.new.room ≡ self.old.room }
    {
        if self.buckets.is_empty() {
            return None;
        }
        Some(self.buckets.remove(0))
    }
}

// How often the bucket is among these.
fn times(bucket: u32, buckets: &[u32]) -> usize
    ensures { result ≡ times bucket buckets.now }
{
    let mut count = 0;
    for k in buckets {
        if *k == bucket {
            count += 1;
        }
    }
    count
}

// The place of the list for this purpose, in the order in which lists are filled.
fn place_of(purpose: Purpose) -> usize
    ensures place { result ≡ place_of purpose }
    ensures small { result < 4 }
{
    match purpose {
        Purpose::Priorities => 0,
        Purpose::Moving => 1,
        Purpose::Tree => 2,
        Purpose::Plain => 3,
    }
}

// How many buckets a list of this purpose may have.
fn room_for(g: &Geometry, purpose: Purpose) -> u32
    ensures { result ≡ room_for g.now purpose }
{
    match purpose {
        Purpose::Priorities => sets_in_chain(g),
        Purpose::Moving => 4,
        Purpose::Tree => 8,
        Purpose::Plain => (g.nbuckets / 1024).max(8).min(1024),
    }
}

// The four lists, with no bucket.
fn empty_lists(alloc: Global, g: &Geometry) -> Result<Vec<PlainReserve>, AllocError>
    ensures { IfOk result (λ lists. lists.items ≡ (empty g.now).lists) }
{
    let mut lists = Vec::new(alloc);
    lists.push(PlainReserve::new(alloc, room_for(g, Purpose::Priorities)))?;
    lists.push(PlainReserve::new(alloc, room_for(g, Purpose::Moving)))?;
    lists.push(PlainReserve::new(alloc, room_for(g, Purpose::Tree)))?;
    lists.push(PlainReserve::new(alloc, room_for(g, Purpose::Plain)))?;
    Ok(lists)
}

// The place of the first list that has room.
fn first_with_room(lists: &[PlainReserve]) -> Option<usize>
    ensures some { IfSome result (λ i. (i < length lists.now)
        × (has_room (slice_index_or lists.now i no_reserve) ≡ true)
        × ((j : ℕ) → j < i → has_room (slice_index_or lists.now j no_reserve) ≡ false)) }
    ensures none { IfNone result
        ((j : ℕ) → j < length lists.now
        → has_room (slice_index_or lists.now j no_reserve) ≡ false) }
{
    for (i, list) in lists.iter().enumerate() {
        if list.has_room() {
            return Some(i);
        }
    }
    None
}

/// The lists priorities, moving, tree and plain, and the raised buckets.
#[derive(Drop)]
pub struct PlainReserves {
    count: u32,
    lists: Vec<PlainReserve>,
    raised: Vec<u32>,
}

impl Model for PlainReserves {
    ghost use Rattle.std.specs.Prelude.{◌≡◌, length};
    ghost use Rattle.bc_alloc.specs.Reserves.{Reserves};

    ghost Value = { Reserves };

    ghost view = { λ r. record { count = r.count; lists = r.lists.items; raised = r.raised.items } };

    ghost invariant = { λ r. length r.lists.items ≡ 4 };
}

impl PlainReserves {
    ghost use Rattle.bc_alloc.specs.Reserves.{list_of, newly_raised, put_back, returned, returned_all, serving, stored, stored_all, times_listed, wanted, TakesFirst};

    /// The four lists for a device of this geometry, filled from `spare` in their order.
    pub fn new(alloc: Global, g: &Geometry, spare: &[u32]) -> Result<PlainReserves, AllocError>
        ensures { IfOk result (λ r. r
            ≡ record (empty g.now) { lists = stored_all spare.now (empty g.now).lists }) }
    {
        let mut reserves = PlainReserves {
            count: g.nbuckets,
            lists: empty_lists(alloc, g)?,
            raised: Vec::new(alloc),
        };
        for bucket in spare {
            reserves.store(*bucket)?;
        }
        Ok(reserves)
    }

    /// The buckets on the list of this purpose, the one that is taken next first.
    pub fn list(&self, purpose: Purpose) -> &[u32]
        ensures { result.now ≡ (list_of purpose self.now).buckets }
    {
        let list = &self.lists[place_of(purpose)];
        &list.buckets
    }

    /// The raised buckets, the one that was raised first first.
    pub fn raised(&self) -> &[u32]
        ensures { result.now ≡ self.now.raised }
    {
        &self.raised
    }

    /// Whether the bucket is on a list or raised.
    pub fn has(&self, bucket: u32) -> bool
        ensures { IsTrue result ↔ (0 < times_listed self.now bucket) }
    {
        let mut found = false;
        for list in &self.lists {
            found |= 0 < times(bucket, &list.buckets);
        }
        found || 0 < times(bucket, &self.raised)
    }

    // Puts a bucket at the end of the first list that has room, or nowhere.
    fn store(&mut self, bucket: u32) -> Result<(), AllocError>
        ensures { OnOk result (self.new
            ≡ record self.old { lists = stored bucket self.old.lists }) }
    {
        let Some(place) = first_with_room(&self.lists) else {
            return Ok(());
        };
        let list = &mut self.lists[place];
        list.push(bucket)?;
        Ok(())
    }

    // Puts a bucket at the end of the list priorities, or nowhere where that is full.
    fn give_back(&mut self, bucket: u32) -> Result<(), AllocError>
        ensures { OnOk result (self.new
            ≡ record self.old { lists = returned bucket self.old.lists }) }
    {
        let list = &mut self.lists[0];
        if !list.has_room() {
            return Ok(());
        }
        list.push(bucket)
    }

    /// Puts a bucket at the front of the list priorities, or nowhere where that is full.
    pub fn put_back(&mut self, bucket: u32) -> Result<(), AllocError>
        ensures { OnOk result (self.new
            ≡ record self.old { lists = put_back bucket self.old.lists }) }
    {
        let list = &mut self.lists[0];
        if !list.has_room() {
            return Ok(());
        }
        list.push_front(bucket)
    }

    /// Takes a bucket from the plain list, or, where that is empty, from the list of this purpose.
    pub fn take(&mut self, purpose: Purpose) -> Option<u32>
        ensures taken { IfSome result (λ k.
            TakesFirst (serving purpose self.old) k self.old self.new) }
        ensures refused { IsNone result ↔ (((list_of Purpose.Plain self.old).buckets ≡ [])
            × ((list_of purpose self.old).buckets ≡ [])) }
        ensures same { IfNone result (self.new ≡ self.old) }
    {
        let from = if self.list(Purpose::Plain).is_empty() {
            purpose
        } else {
            Purpose::Plain
        };
        let list = &mut self.lists[place_of(from)];
        list.pop()
    }

    // Gives these back to the list priorities, as far as that has room.
    fn give_back_all(&mut self, old: &[u32]) -> Result<(), AllocError>
        ensures { OnOk result (self.new
            ≡ record self.old { lists = returned_all old.now self.old.lists }) }
    {
        for bucket in old {
            self.give_back(*bucket)?;
        }
        Ok(())
    }

    /// Gives `old` back to the list priorities, as far as that has room, and then moves the first
    /// `named` raised buckets to the first lists that have room.
    pub fn ready(&mut self, named: usize, old: &[u32]) -> Result<(), AllocError>
        requires { named ≤ length self.old.raised }
        ensures { OnOk result (self.new ≡ record self.old {
          lists = stored_all (take named self.old.raised) (returned_all old.now self.old.lists);
          raised = drop named self.old.raised;
        }) }
    {
        self.give_back_all(old)?;
        for _i in 0..named {
            let bucket = self.raised.remove(0);
            self.store(bucket)?;
        }
        Ok(())
    }

    /// Puts a bucket at the end of the raised ones.
    pub fn raise(&mut self, bucket: u32) -> Result<(), AllocError>
        ensures { OnOk result (self.new
            ≡ record self.old { raised = self.old.raised ++ bucket ∷ [] }) }
    {
        self.raised.push(bucket)?;
        Ok(())
    }

    // How many more buckets the lists would take, once they have the raised ones.
    fn wanted(&self) -> usize
        ensures { result ≡ wanted self.now }
    {
        let mut free = 0usize;
        for list in &self.lists {
            free += list.free();
        }
        free.saturating_sub(self.raised.len())
    }

    // For each of so many buckets whether it is on a list or raised.
    fn flags(&self, alloc: Global, count: u32) -> Result<Vec<bool>, AllocError>
        ensures all { IfOk result (λ flags. length flags.items ≡ count) }
        ensures each { IfOk result (λ flags. (k : ℕ) → k < count
            → (slice_index_or flags.items k false ≡ true) ↔ (0 < times_listed self.now k)) }
    {
        let mut flags = Vec::new(alloc);
        for bucket in 0..count {
            flags.push(self.has(bucket))?;
        }
        Ok(flags)
    }

    /// The buckets that a refill would raise: the first one, then the first one of the others, and
    /// so on.
    pub fn victims(&self, alloc: Global, b: &Buckets) -> Result<Vec<u32>, AllocError>
        ensures { IfOk result (λ chosen. AreVictims self.now b.now chosen.items) }
    {
        let _size = b.bucket_sectors();
        let count = b.records().len() as u32;
        let flags = self.flags(alloc, count)?;
        let chosen = first_candidates(alloc, b.records(), &flags, self.wanted())?;
        Ok(chosen)
    }

    /// Raises the victims, in order, and answers how many these are.
    pub fn refill(&mut self, alloc: Global, b: &Buckets) -> Result<usize, AllocError>
        ensures victims { OnOk result
            (AreVictims self.old b.now (newly_raised self.old self.new)) }
        ensures number { IfOk result (λ n. n ≡ length (newly_raised self.old self.new)) }
        ensures raised { OnOk result (self.new ≡ record self.old {
          raised = self.old.raised ++ newly_raised self.old self.new;
        }) }
    {
        let chosen = self.victims(alloc, b)?;
        self.raised.extend_from_slice(&chosen)?;
        Ok(chosen.len())
    }
}
