//! The four lists, and the raised buckets.
ghost use Rattle.std.specs.Prelude.{◌≡◌, ◌↔◌, ℕ, ◌+◌, ◌<◌, ◌≤◌, ◌⊎◌, true, false, IfOk, IfErr, IsErr, IsTrue, IsNone, IfSome, OnErr, List, [], ◌∷◌, ◌++◌, length, slice_index, slice_index_or, take, drop, vec_capacity, IfNone};
ghost use Rattle.bc_bucket.specs.Bucket.{raised, with_held, IsReclaimable};
ghost use Rattle.bc_bucket.specs.Buckets.{bucket_of, changed};
ghost use Rattle.bc_alloc.specs.Buckets.{AreFor, AreLoose, all_changed, made_ready, unmarked};
ghost use Rattle.bc_alloc.specs.Reserve.{IsDistinct, flag, has_room, no_reserve, times};
ghost use Rattle.bc_alloc.specs.Reserves.{empty, room_for, wanted};
ghost use Rattle.bc_alloc.specs.Victims.{AreVictims, IsCandidate, IsOpen, IsVictim};

use crate::purpose::{NoBucket, Purpose};
use crate::reserve::Reserve;
use crate::victims::{find_first, first_open};
use bc_bucket::{Buckets, Mark};
use bc_disk::chain::sets_in_chain;
use bc_disk::geometry::Geometry;
use std::alloc::{AllocError, Global};
use std::collections::BinaryHeap;
use std::marker::Model;

/// The lists priorities, moving, tree and plain, and the raised buckets. Its memory is taken when
/// it is made. No bucket stands there twice, and no list gets longer than its room.
#[derive(Drop)]
pub struct Reserves {
    count: u32,
    lists: Vec<Reserve>,
    raised: Reserve,
    // For each bucket, whether it stands on a list or is raised.
    listed: Vec<bool>,
    // What a search for victims uses.
    ranks: BinaryHeap<u64>,
    taken: Vec<u32>,
}

impl Model for Reserves {
    ghost use Rattle.bc_alloc.specs.Reserves.{Reserves};

    ghost Value = { Reserves };

    ghost use Rattle.bc_alloc.specs.Inside.{reserves_in, IsKept};

    ghost view = { reserves_in };

    ghost invariant = { IsKept };
}

// The place of the first list that has room.
fn first_with_room(lists: &[Reserve]) -> Option<usize>
    ensures some { IfSome result (λ i. (i < length lists.now)
        × (has_room (slice_index_or lists.now i no_reserve) ≡ true)
        × ((j : ℕ) → j < i → has_room (slice_index_or lists.now j no_reserve) ≡ false)) }
    ensures none { IfNone result
        ((j : ℕ) → j < length lists.now
        → has_room (slice_index_or lists.now j no_reserve) ≡ false) }
{
    for (i, list) in lists.iter().enumerate() {
        if list.has_room() {
            return Some(i);
        }
    }
    None
}

// Gives these buckets up and puts them at the end of the raised ones.
fn raise_all(list: &mut Reserve, listed: &mut [bool], b: &mut Buckets, chosen: &[u32])
    requires distinct { IsDistinct chosen.now }
    requires candidates { (k : ℕ) → 0 < times k chosen.now → IsOpen b.old.records listed.old k }
    requires flags { length listed.old ≡ length b.old.records }
    requires room { length list.old.buckets + length chosen.now ≤ list.old.room }
    ensures list { list.new ≡ record list.old { buckets = list.old.buckets ++ chosen.now } }
    ensures flags { (k : ℕ) → flag (slice_index_or listed.new k false)
        ≡ flag (slice_index_or listed.old k false) + times k chosen.now }
    ensures buckets { b.new ≡ all_changed raised chosen.now b.old }
{
    for bucket in chosen {
        b.raise(*bucket);
        list.push(*bucket);
        listed[*bucket as usize] = true;
    }
}

// How many buckets a list of this purpose may have.
fn room_for(g: &Geometry, purpose: Purpose) -> u32
    ensures { result ≡ room_for g.now purpose }
{
    match purpose {
        Purpose::Priorities => sets_in_chain(g),
        Purpose::Moving => 4,
        Purpose::Tree => 8,
        Purpose::Plain => (g.nbuckets / 1024).max(8).min(1024),
    }
}

// The four lists, with no bucket.
fn empty_lists(alloc: Global, g: &Geometry) -> Result<Vec<Reserve>, AllocError>
    ensures { IfOk result (λ lists. lists.items ≡ (empty g.now).lists) }
{
    let mut lists = Vec::new(alloc);
    lists.push(Reserve::new(alloc, room_for(g, Purpose::Priorities))?)?;
    lists.push(Reserve::new(alloc, room_for(g, Purpose::Moving))?)?;
    lists.push(Reserve::new(alloc, room_for(g, Purpose::Tree))?)?;
    lists.push(Reserve::new(alloc, room_for(g, Purpose::Plain))?)?;
    Ok(lists)
}

impl Reserves {
    ghost use Rattle.bc_alloc.specs.Reserves.{list_of, newly_raised, put_back, returned, returned_all, serving, stored, stored_all, times_listed, IsInOrder, TakesFirst};

    // No bucket on any list.
    fn empty(alloc: Global, g: &Geometry) -> Result<Reserves, AllocError>
        ensures { IfOk result (λ r. r ≡ empty g.now) }
    {
        let count = g.nbuckets;
        let lists = empty_lists(alloc, g)?;
        let raised = Reserve::new(alloc, count)?;
        let listed = vec![in alloc; false; count as usize]?;
        let ranks = BinaryHeap::with_capacity(alloc, count as usize)?;
        let taken = Vec::with_capacity(alloc, count as usize)?;
        Ok(Reserves {
            count,
            lists,
            raised,
            listed,
            ranks,
            taken,
        })
    }

    // Puts a bucket at the end of the first list that has room, or nowhere.
    fn store(&mut self, bucket: u32)
        requires bucket { bucket < self.old.count }
        requires loose { times_listed self.old bucket ≡ 0 }
        ensures lists { self.new ≡ record self.old { lists = stored bucket self.old.lists } }
        ensures times { (k : ℕ)
            → times_listed self.new k ≤ times_listed self.old k + times k (bucket ∷ []) }
    {
        let Some(place) = first_with_room(&self.lists) else {
            return;
        };
        let list = &mut self.lists[place];
        list.push(bucket);
        self.listed[bucket as usize] = true;
    }

    // Puts a bucket at the end of the list priorities, or nowhere where that is full.
    fn give_back(&mut self, bucket: u32)
        requires bucket { bucket < self.old.count }
        requires loose { times_listed self.old bucket ≡ 0 }
        ensures lists { self.new ≡ record self.old { lists = returned bucket self.old.lists } }
        ensures times { (k : ℕ)
            → times_listed self.new k ≤ times_listed self.old k + times k (bucket ∷ []) }
    {
        let list = &mut self.lists[0];
        if list.has_room() {
            list.push(bucket);
            self.listed[bucket as usize] = true;
        }
    }

    // Puts a bucket at the front of the list priorities, or nowhere where that is full.
    fn put_first(&mut self, bucket: u32)
        requires bucket { bucket < self.old.count }
        requires loose { times_listed self.old bucket ≡ 0 }
        ensures lists { self.new ≡ record self.old { lists = put_back bucket self.old.lists } }
        ensures times { (k : ℕ)
            → times_listed self.new k ≤ times_listed self.old k + times k (bucket ∷ []) }
    {
        let list = &mut self.lists[0];
        if list.has_room() {
            list.push_front(bucket);
            self.listed[bucket as usize] = true;
        }
    }

    // Takes the first bucket of a list, if there is one.
    fn pop(&mut self, purpose: Purpose) -> Option<u32>
        ensures some { IfSome result (λ k. TakesFirst purpose k self.old self.new) }
        ensures none { IfNone result
            (((list_of purpose self.old).buckets ≡ []) × (self.new ≡ self.old)) }
        ensures below { IfSome result (λ bucket. bucket < self.old.count) }
        ensures loose { IfSome result (λ bucket. times_listed self.new bucket ≡ 0) }
        ensures times { IfSome result (λ bucket.
            (k : ℕ) → times_listed self.new k + times k (bucket ∷ []) ≡ times_listed self.old k) }
    {
        let list = &mut self.lists[purpose.place()];
        let bucket = list.pop()?;
        self.listed[bucket as usize] = false;
        Some(bucket)
    }

    // Takes the first raised bucket.
    fn pop_raised(&mut self) -> u32
        requires { 0 < length self.old.raised }
        ensures first { self.old.raised ≡ result ∷ self.new.raised }
        ensures others { self.new ≡ record self.old { raised = self.new.raised } }
        ensures below { result < self.old.count }
        ensures loose { times_listed self.new result ≡ 0 }
        ensures times { (k : ℕ)
            → times_listed self.new k + times k (result ∷ []) ≡ times_listed self.old k }
    {
        let Some(bucket) = self.raised.pop() else {
            unreachable!()
        };
        self.listed[bucket as usize] = false;
        bucket
    }

    // Puts a bucket at the end of the raised ones.
    fn push_raised(&mut self, bucket: u32)
        requires bucket { bucket < self.old.count }
        requires loose { times_listed self.old bucket ≡ 0 }
        ensures raised { self.new ≡ record self.old { raised = self.old.raised ++ bucket ∷ [] } }
        ensures times { (k : ℕ)
            → times_listed self.new k ≡ times_listed self.old k + times k (bucket ∷ []) }
    {
        self.raised.push(bucket);
        self.listed[bucket as usize] = true;
    }

    // Gives `old` back to the list priorities, as far as that has room, and unmarks them.
    fn give_back_all(&mut self, b: &mut Buckets, old: &[u32])
        requires fit { AreFor self.old b.old }
        requires distinct { IsDistinct old.now }
        requires loose { AreLoose self.old b.old old.now }
        ensures lists { self.new ≡ record self.old { lists = returned_all old.now self.old.lists } }
        ensures buckets { b.new ≡ all_changed unmarked old.now b.old }
        ensures fit { AreFor self.new b.new }
    {
        for bucket in old {
            b.mark(*bucket, Mark::None, 0);
            self.give_back(*bucket);
        }
    }

    // Moves the first `named` raised buckets to the lists, as far as these have room.
    fn store_raised(&mut self, b: &mut Buckets, named: usize)
        requires fit { AreFor self.old b.old }
        requires named { named ≤ length self.old.raised }
        ensures lists { self.new ≡ record self.old {
          lists = stored_all (take named self.old.raised) self.old.lists;
          raised = drop named self.old.raised;
        } }
        ensures buckets { b.new ≡ all_changed made_ready (take named self.old.raised) b.old }
        ensures fit { AreFor self.new b.new }
    {
        for _i in 0..named {
            let bucket = self.pop_raised();
            b.make_durable(bucket);
            b.mark(bucket, Mark::None, 0);
            self.store(bucket);
        }
    }

    /// The four lists for a device of this geometry, filled from `spare` in the order priorities,
    /// moving, tree, plain. The list priorities has room for one bucket for each priority set,
    /// moving for 4, tree for 8, and plain for a 1,024th of all buckets, but 8 at least and 1,024
    /// at most.
    pub fn new(alloc: Global, g: &Geometry, spare: &[u32]) -> Result<Reserves, AllocError>
        requires distinct { IsDistinct spare.now }
        requires below { (k : ℕ) → 0 < times k spare.now → k < g.now.nbuckets }
        ensures filled { IfOk result (λ r. r
            ≡ record (empty g.now) { lists = stored_all spare.now (empty g.now).lists }) }
        ensures in_order { IfOk result (λ r. IsInOrder r) }
    {
        let mut reserves = Reserves::empty(alloc, g)?;
        for bucket in spare {
            reserves.store(*bucket);
        }
        let _ = &reserves.lists;
        Ok(reserves)
    }

    /// How many buckets are on the list of this purpose.
    pub fn len(&self, purpose: Purpose) -> u32
        ensures len { result ≡ length (list_of purpose self.now).buckets }
        ensures short { result ≤ (list_of purpose self.now).room }
        ensures in_order { IsInOrder self.now }
    {
        let list = &self.lists[purpose.place()];
        list.len()
    }

    /// How many buckets the list of this purpose may have.
    pub fn room(&self, purpose: Purpose) -> u32
        ensures { result ≡ (list_of purpose self.now).room }
    {
        let list = &self.lists[purpose.place()];
        list.room()
    }

    /// The bucket at this place of the list of this purpose, counted from the one that is taken next.
    pub fn get(&self, purpose: Purpose, place: u32) -> u32
        requires { place < length (list_of purpose self.now).buckets }
        ensures { result ≡ slice_index (list_of purpose self.now).buckets place }
    {
        let list = &self.lists[purpose.place()];
        list.get(place)
    }

    /// The raised bucket at this place, counted from the one that was raised first.
    pub fn raised(&self, place: u32) -> u32
        requires { place < length self.now.raised }
        ensures { result ≡ slice_index self.now.raised place }
    {
        self.raised.get(place)
    }

    /// How many raised buckets wait for their generations to become durable.
    pub fn raised_len(&self) -> u32
        ensures len { result ≡ length self.now.raised }
        ensures in_order { IsInOrder self.now }
    {
        self.raised.len()
    }

    /// Whether the bucket is on a list or raised.
    pub fn is_listed(&self, bucket: u32) -> bool
        requires { bucket < self.now.count }
        ensures { IsTrue result ↔ (0 < times_listed self.now bucket) }
    {
        self.listed[bucket as usize]
    }

    /// Takes a bucket from the plain list, or, where that is empty, from the list of this purpose,
    /// and holds it. Where both are empty nothing changes. Takes no memory.
    pub fn take(&mut self, b: &mut Buckets, purpose: Purpose) -> Result<u32, NoBucket>
        requires { AreFor self.old b.old }
        ensures taken { IfOk result (λ k.
            TakesFirst (serving purpose self.old) k self.old self.new) }
        ensures held { IfOk result (λ k. b.new ≡ changed (with_held true) k b.old) }
        ensures loose { IfOk result (λ k. (k < self.old.count) × (times_listed self.new k ≡ 0)) }
        ensures refused { IsErr result ↔ (((list_of Purpose.Plain self.old).buckets ≡ [])
            × ((list_of purpose self.old).buckets ≡ [])) }
        ensures why { IfErr result (λ e.
            e ≡ record { purpose = purpose; none_len = 0; own_len = 0 }) }
        ensures same { OnErr result ((self.new ≡ self.old) × (b.new ≡ b.old)) }
        ensures fit { AreFor self.new b.new }
    {
        let from = if self.len(Purpose::Plain) == 0 {
            purpose
        } else {
            Purpose::Plain
        };
        let Some(bucket) = self.pop(from) else {
            return Err(NoBucket {
                purpose,
                none_len: 0,
                own_len: 0,
            });
        };
        b.hold(bucket);
        Ok(bucket)
    }

    /// Lets go a bucket that was taken for priorities and not used: it is the first of the list
    /// priorities then, or, where that is full, on no list.
    pub fn put_back(&mut self, b: &mut Buckets, bucket: u32)
        requires fit { AreFor self.old b.old }
        requires bucket { bucket < self.old.count }
        requires loose { times_listed self.old bucket ≡ 0 }
        requires held { (bucket_of b.old bucket).held ≡ true }
        ensures lists { self.new ≡ record self.old { lists = put_back bucket self.old.lists } }
        ensures buckets { b.new ≡ changed (with_held false) bucket b.old }
        ensures fit { AreFor self.new b.new }
        ensures in_order { IsInOrder self.new }
    {
        b.let_go(bucket);
        self.put_first(bucket);
        let _ = &self.lists;
    }

    /// Takes what a durable entry has made ready onto the lists: it names priority sets with the
    /// generations of the first `named` raised buckets, and `old` are the buckets of the priority
    /// sets that these replace. First `old` go to the end of the list priorities, and then the
    /// named ones to the end of the first list that has room, in the order priorities, moving,
    /// tree, plain. A bucket for which there is no room is on no list. All of them are unmarked and
    /// not held, and the durable generation of a named one is its own. Takes no memory.
    pub fn ready(&mut self, b: &mut Buckets, named: usize, old: &[u32])
        requires fit { AreFor self.old b.old }
        requires named { named ≤ length self.old.raised }
        requires distinct { IsDistinct old.now }
        requires loose { AreLoose self.old b.old old.now }
        ensures lists { self.new.lists
            ≡ stored_all (take named self.old.raised) (returned_all old.now self.old.lists) }
        ensures raised { self.new.raised ≡ drop named self.old.raised }
        ensures count { self.new.count ≡ self.old.count }
        ensures buckets { b.new ≡ all_changed made_ready (take named self.old.raised)
            (all_changed unmarked old.now b.old) }
        ensures fit { AreFor self.new b.new }
        ensures in_order { IsInOrder self.new }
    {
        self.give_back_all(b, old);
        self.store_raised(b, named);
        let _ = &self.lists;
    }

    /// Gives a bucket up and puts it at the end of the raised ones.
    pub fn raise(&mut self, b: &mut Buckets, bucket: u32)
        requires fit { AreFor self.old b.old }
        requires bucket { bucket < self.old.count }
        requires reclaimable { IsReclaimable (bucket_of b.old bucket) }
        requires loose { times_listed self.old bucket ≡ 0 }
        ensures raised { self.new ≡ record self.old { raised = self.old.raised ++ bucket ∷ [] } }
        ensures buckets { b.new ≡ changed raised bucket b.old }
        ensures fit { AreFor self.new b.new }
    {
        b.raise(bucket);
        self.push_raised(bucket);
    }

    // How many more buckets the lists would take, once they have the raised ones.
    fn wanted(&self) -> usize
        ensures { result ≡ wanted self.now }
    {
        let mut free = 0usize;
        for list in &self.lists {
            free += list.free() as usize;
        }
        free.saturating_sub(self.raised.len() as usize)
    }

    /// The bucket that a refill would raise next: of those that may be given up and are on no list
    /// and not raised, one with the least priority, and of these the one with the least number.
    /// `None` where there is none, or where the lists, with the raised buckets, would be full.
    /// Takes no memory.
    pub fn victim(&self, b: &Buckets) -> Option<u32>
        requires { AreFor self.now b.now }
        ensures some { IfSome result (λ v. (0 < wanted self.now) × IsVictim self.now b.now v) }
        ensures none { IfNone result
            ((wanted self.now ≡ 0) ⊎ ((k : ℕ) → IsCandidate self.now b.now k → ⊥)) }
    {
        if self.wanted() == 0 {
            return None;
        }
        first_open(b.records(), &self.listed, self.count)
    }

    /// Writes into `into` the buckets that a refill would raise, in order: the candidates with the
    /// least priorities, and of those with the same one the ones with the least numbers, as many as
    /// the lists would take, or all of them. Takes no memory, since `into` has room for each
    /// bucket.
    pub fn victims(&mut self, b: &Buckets, into: &mut Vec<u32>)
        requires fit { AreFor self.old b.now }
        requires room { self.old.count ≤ vec_capacity into.old }
        ensures victims { AreVictims self.old b.now into.new.items }
        ensures same { self.new ≡ self.old }
        ensures room { self.old.count ≤ vec_capacity into.new }
    {
        let most = self.wanted();
        let listed = &self.listed;
        find_first(b.records(), listed, self.count, most, &mut self.ranks, into);
    }

    /// Raises victims, in order, until the lists would be full or there is no further one, and
    /// answers how many it raised. Takes no memory.
    pub fn refill(&mut self, b: &mut Buckets) -> u32
        requires { AreFor self.old b.old }
        ensures victims { AreVictims self.old b.old (newly_raised self.old self.new) }
        ensures number { result ≡ length (newly_raised self.old self.new) }
        ensures raised { self.new
            ≡ record self.old { raised = self.old.raised ++ newly_raised self.old self.new } }
        ensures buckets { b.new ≡ all_changed raised (newly_raised self.old self.new) b.old }
        ensures fit { AreFor self.new b.new }
    {
        let most = self.wanted();
        let records = b.records();
        let taken = &mut self.taken;
        find_first(
            records,
            &self.listed,
            self.count,
            most,
            &mut self.ranks,
            taken,
        );
        raise_all(&mut self.raised, &mut self.listed, b, &self.taken);
        self.taken.len() as u32
    }
}
