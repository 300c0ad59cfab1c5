//! A node cache.
ghost use Rattle.std.specs.Prelude.{◌≡◌, ◌+◌, ◌<◌, ◌≤◌, ◌^◌, false, true, length, replicate, slice_get, ℕ, Some, None, IfErr, IfNone, IfOk, IfSome, OnErr, MatchOption};
ghost use Rattle.bc_disk.specs.Disk.{IsKept};
ghost use Rattle.bc_disk.specs.Device.{next_count};
ghost use Rattle.bc_key.specs.Key.{ptr_at};
ghost use Rattle.bc_cache.specs.Slots.{HasLeaf, IsOldest, IsSlotOf, IsOccupied, IsTakenBy, Misses, NoneCanGo, coming, used_with, with_slot};
ghost use Rattle.bc_cache.specs.Fetch.{IsLeafIn, IsNotRead, IsReadInto, IsSetHeld, IsTakenOut, IsUsed};
ghost use Rattle.bc_cache.specs.declared.error.FetchError.{FetchError};

use crate::error::FetchError;
use crate::slots::{Cached, leaf_in, next_use, oldest, set_held, set_used, slot_of};
use bc_disk::disk::Disk;
use bc_disk::geometry::Geometry;
use bc_key::Key;
use bc_node::Leaf;
use std::alloc::{AllocError, Global};
use std::marker::Model;

/// Leaves of the index in a fixed number of slots.
#[derive(Drop)]
pub struct NodeCache {
    g: Geometry,
    slots: Vec<Option<Cached>>,
    uses: u64,
    alloc: Global,
}

impl Model for NodeCache {
    ghost use Rattle.bc_cache.specs.Slots.{IsCache, NodeCache};

    ghost Value = { NodeCache };

    ghost view = { λ c. record {
      geometry = c.g;
      slots = c.slots.items;
      uses = c.uses;
    } };

    ghost invariant = { λ c. IsCache c.slots.items c.uses };
}

/// So many empty slots.
fn empty(alloc: Global, count: u32) -> Result<Vec<Option<Cached>>, AllocError>
    ensures { IfOk result (λ slots. slots.items ≡ replicate count None) }
{
    let mut slots = Vec::new(alloc);
    for done in 0..count {
        let _ = done;
        slots.push(None)?;
    }
    Ok(slots)
}

impl NodeCache {
    ghost use Rattle.std.specs.Borrow.{sem};
    ghost use Rattle.bc_cache.specs.Lending.{LendsLeaf};

    /// So many empty slots.
    pub fn new(alloc: Global, g: &Geometry, slots: u32) -> Result<NodeCache, AllocError>
        ensures geometry { IfOk result (λ c. c.geometry ≡ g.now) }
        ensures slots { IfOk result (λ c. c.slots ≡ replicate slots None) }
        ensures uses { IfOk result (λ c. c.uses ≡ 0) }
    {
        Ok(NodeCache {
            g: *g,
            slots: empty(alloc, slots)?,
            uses: 0,
            alloc,
        })
    }

    /// How many slots there are.
    pub fn len(&self) -> u32
        ensures { result ≡ length self.now.slots }
    {
        self.slots.len() as u32
    }

    /// The slot that has the leaf of this number.
    pub fn find(&self, number: u32) -> Option<u32>
        ensures { MatchOption result (Misses self.now.slots number)
            (IsSlotOf self.now.slots number) }
    {
        match slot_of(&self.slots, number) {
            None => None,
            Some(slot) => Some(slot as u32),
        }
    }

    /// The slot that another leaf comes into next: of the empty ones, and those whose leaf nobody
    /// holds and has nothing pending, the one that was used longest ago. None where there is no
    /// such slot.
    pub fn oldest(&self) -> Option<u32>
        ensures { MatchOption result (NoneCanGo self.now.slots) (IsOldest self.now.slots) }
    {
        match oldest(&self.slots) {
            None => None,
            Some(slot) => Some(slot as u32),
        }
    }

    /// Notes that a slot was used.
    pub fn touch(&mut self, slot: u32)
        requires { IsOccupied self.old.slots slot }
        ensures { IsUsed slot self.old self.new }
    {
        let uses = next_use(self.uses);
        set_used(&mut self.slots[slot as usize], uses);
        self.uses = uses;
    }

    /// Puts a leaf that is in no slot into one, as its last use, in the place of what it has.
    fn put_over(&mut self, slot: u32, number: u32, leaf: Leaf)
        requires within { slot < length self.old.slots }
        requires new { Misses self.old.slots number }
        ensures { self.new
            ≡ used_with self.old slot (Some (coming number leaf (next_count self.old.uses))) }
    {
        let uses = next_use(self.uses);
        self.slots[slot as usize] = Some(Cached {
            number,
            leaf,
            held: false,
            used: uses,
        });
        self.uses = uses;
    }

    /// Reads the leaf that a key points to into the slot that was used longest ago.
    fn read_in<D: Disk>(
        &mut self,
        disk: &mut D,
        number: u32,
        key: &Key,
        from: u64,
    ) -> Result<u32, FetchError>
        requires new { Misses self.old.slots number }
        requires pointer { 0 < key.now.count }
        requires room { (ptr_at key.now 0).offset + self.old.geometry.node_sectors
            ≤ (D.facts disk.old).sectors }
        ensures read { IfOk result (λ slot. IsReadInto slot number key.now from self.old self.new
            (D.facts disk.old) (D.facts disk.new)) }
        ensures refused { IfErr result (IsNotRead self.old key.now from
            (D.facts disk.old) (D.facts disk.new)) }
        ensures busy { IfErr result (λ e. e ≡ FetchError.Busy → disk.new ≡ disk.old) }
        ensures kept { OnErr result (self.new ≡ self.old) }
        ensures disk { IsKept (D.facts disk.old) (D.facts disk.new) }
    {
        let Some(slot) = self.oldest() else {
            return Err(FetchError::Busy);
        };
        let leaf = Leaf::load(self.alloc, disk, &self.g, key, from)?;
        self.put_over(slot, number, leaf);
        Ok(slot)
    }

    /// The slot of a leaf, which is used with that. Where the leaf isn't in a slot, it is read, in
    /// one call of the device, from where the key points to; its range begins at a sector. It then
    /// comes into the slot of `oldest`, whose own leaf goes. What the device holds stays as it was.
    ///
    /// The refusal is `Busy` where the leaf is in no slot and no other can go; the device isn't
    /// called then. It is `Node` where the leaf wasn't read, with the reason, `Fault` and `Memory`
    /// among them. After a refusal all slots are as they were.
    pub fn fetch<D: Disk>(
        &mut self,
        disk: &mut D,
        number: u32,
        key: &Key,
        from: u64,
    ) -> Result<u32, FetchError>
        requires pointer { 0 < key.now.count }
        requires room { (ptr_at key.now 0).offset + self.old.geometry.node_sectors
            ≤ (D.facts disk.old).sectors }
        ensures there { (slot : ℕ) → HasLeaf self.old.slots slot number
            → (result ≡ Ok slot) × IsUsed slot self.old self.new × (disk.new ≡ disk.old) }
        ensures read { Misses self.old.slots number
            → IfOk result (λ slot. IsReadInto slot number key.now from self.old self.new
            (D.facts disk.old) (D.facts disk.new)) }
        ensures refused { IfErr result (IsNotRead self.old key.now from
            (D.facts disk.old) (D.facts disk.new)) }
        ensures busy { IfErr result (λ e. e ≡ FetchError.Busy → disk.new ≡ disk.old) }
        ensures kept { OnErr result (self.new ≡ self.old) }
        ensures disk { IsKept (D.facts disk.old) (D.facts disk.new) }
    {
        match self.find(number) {
            Some(slot) => {
                self.touch(slot);
                Ok(slot)
            }
            None => self.read_in(disk, number, key, from),
        }
    }

    /// Empties the slot of `oldest`, and says which it is. None, and nothing changes, exactly where
    /// each slot has a leaf that somebody holds, or of which some keys are pending.
    pub fn evict(&mut self) -> Option<u32>
        ensures none { IfNone result (NoneCanGo self.old.slots × (self.new ≡ self.old)) }
        ensures oldest { IfSome result (IsOldest self.old.slots) }
        ensures emptied { IfSome result (λ slot. self.new ≡ with_slot self.old slot None) }
        ensures free { IfSome result (λ slot. slice_get self.new.slots slot ≡ Some None) }
    {
        let slot = self.oldest()?;
        self.slots[slot as usize] = None;
        Some(slot)
    }

    /// Puts a leaf that is in no slot into an empty one, as its last use: one that was made or kept
    /// elsewhere, and needn't be read.
    pub fn put(&mut self, slot: u32, number: u32, leaf: Leaf)
        requires empty { slice_get self.old.slots slot ≡ Some None }
        requires new { Misses self.old.slots number }
        ensures { self.new
            ≡ used_with self.old slot (Some (coming number leaf (next_count self.old.uses))) }
    {
        self.put_over(slot, number, leaf);
    }

    /// Takes the leaf out of a slot that nobody holds, with what is pending.
    pub fn take(&mut self, slot: u32) -> Leaf
        requires { IsTakenBy self.old.slots slot false }
        ensures { IsTakenOut slot self.old self.new result }
    {
        match self.slots[slot as usize].take() {
            Some(
                Cached {
                    number: _,
                    leaf,
                    held: _,
                    used: _,
                },
            ) => leaf,
            None => unreachable!(),
        }
    }

    /// What is in a slot.
    pub fn slot(&self, slot: u32) -> &Option<Cached>
        requires { slot < length self.now.slots }
        ensures { slice_get self.now.slots slot ≡ Some result.now }
    {
        &self.slots[slot as usize]
    }

    /// Whether somebody holds the leaf in a slot. None where the slot is empty.
    pub fn held(&self, slot: u32) -> Option<bool>
        requires { slot < length self.now.slots }
        ensures { MatchOption result (slice_get self.now.slots slot ≡ Some None)
            (IsTakenBy self.now.slots slot) }
    {
        match &self.slots[slot as usize] {
            None => None,
            Some(cached) => Some(cached.held),
        }
    }

    /// How the cache device is divided.
    pub fn geometry(&self) -> &Geometry
        ensures { result.now ≡ self.now.geometry }
    {
        &self.g
    }

    /// The leaf in a slot.
    pub fn leaf(&self, slot: u32) -> &Leaf
        requires { IsOccupied self.now.slots slot }
        ensures { IsLeafIn self.now.slots slot result.now }
    {
        match &self.slots[slot as usize] {
            Some(cached) => &cached.leaf,
            None => unreachable!(),
        }
    }

    /// The leaf in a slot, to be changed.
    pub fn node(&mut self, slot: u32) -> &mut Leaf
        requires { IsOccupied self.old.slots slot }
        ensures* lends { sem 𝓛 (LendsLeaf self.entry slot result) }
        ensures leaf { IsLeafIn self.old.slots slot result.now }
    {
        leaf_in(&mut self.slots[slot as usize])
    }

    /// Begins a hold of a slot's leaf: it stays there until it is let go.
    pub fn hold(&mut self, slot: u32)
        requires { IsTakenBy self.old.slots slot false }
        ensures { IsSetHeld slot true self.old self.new }
    {
        set_held(&mut self.slots[slot as usize], true);
    }

    /// Ends the hold of a slot's leaf.
    pub fn let_go(&mut self, slot: u32)
        requires { IsTakenBy self.old.slots slot true }
        ensures { IsSetHeld slot false self.old self.new }
    {
        set_held(&mut self.slots[slot as usize], false);
    }
}
