//! Inner nodes.
ghost use Rattle.std.specs.Prelude.{◌≡◌, ◌≢◌, ◌⊎◌, ◌↔◌, ◌+◌, ◌*◌, ◌<◌, ◌≤◌, [], length, false, AllPairs, IsTrue, OnOk, OnErr, IfOk, IfErr};
ghost use Rattle.std.specs.List.{AllWithin};
ghost use Rattle.bc_model.specs.Sector.{values_of};
ghost use Rattle.bc_disk.specs.Disk.{IsKept, IsWritten, IsFailedWrite, IsCounted};
ghost use Rattle.bc_image.specs.Children.{with_children};
ghost use Rattle.bc_image.specs.Sound.{KeepsRange};
ghost use Rattle.bc_image.specs.Tree.{node_of};
ghost use Rattle.bc_key.specs.Key.{ptr_at};
ghost use Rattle.bc_key.specs.Words.{ptr_word};
ghost use Rattle.bc_node.specs.declared.error.NodeError.{NodeError};
ghost use Rattle.bc_node.specs.Loading.{good};
ghost use Rattle.bc_node.specs.Sets.{AreProper, taken_by};
ghost use Rattle.bc_node.specs.Writing.{HasSet, put_values, set_of};
ghost use Rattle.bc_set.specs.declared.set.SetKind.{SetKind};
ghost use Rattle.bc_set.specs.Records.{set_sectors};
ghost use Rattle.bc_set.specs.SetBytes.{AreSetKeys, bytes_of};
ghost use Rattle.bc_inner.specs.Inner.{CoverRange, FitsBehind, HasTaken, IsInnerOf, IsNewInner, IsSameNode, children_set};
ghost use Rattle.bc_inner.specs.Loading.{IsHeldInner, IsInnerNotLoaded};

use crate::children::{children_in, count_before, put_within};
use crate::ranges::{cover_up_to, lie_within};
use bc_disk::disk::{Disk, Failed};
use bc_disk::geometry::Geometry;
use bc_key::{Key, Ptr};
use bc_keys::{Keys, word_count};
use bc_node::{NodeError, in_blocks, load_sets, sectors_of, word_of, write_slice};
use bc_set::{Set, SetKind};
use std::alloc::{AllocError, Global};
use std::marker::Model;

/// An inner node of the index: a node whose keys are those of its children.
#[derive(Drop)]
pub struct Inner {
    level: u16,
    from: u64,
    end: u64,
    ptr: Ptr,
    seq: u64,
    taken: u16,
    children: Vec<Key>,
    spare: usize,
    loaded: bool,
    alloc: Global,
}

impl Model for Inner {
    ghost use Rattle.std.specs.Prelude.{◌≤◌, ◌+◌, vec_len, vec_capacity};
    ghost use Rattle.bc_inner.specs.Inner.{Inner, CoverRange};

    ghost Value = { Inner };

    ghost view = { λ i. record {
      level = i.level;
      from = i.from;
      end = i.end;
      ptr = i.ptr;
      seq = i.seq;
      taken = i.taken;
      children = i.children.items;
      spare = i.spare;
      loaded = i.loaded;
    } };

    ghost invariant = { λ i. CoverRange i.from i.end i.children.items
        × (vec_len i.children + i.spare ≤ vec_capacity i.children) };
}

/// The inner node of a key that has these sets.
fn inner_of(
    alloc: Global,
    g: &Geometry,
    key: &Key,
    level: u16,
    from: u64,
    sets: &[Set],
) -> Result<Inner, NodeError>
    requires some { sets.now ≢ [] }
    requires level { 0 < level }
    requires short { taken_by g.now sets.now ≤ g.now.node_sectors }
    ensures ok { IfOk result (IsInnerOf g.now key.now level from sets.now) }
    ensures refused { IfErr result (λ e. (e ≡ NodeError.Memory)
        ⊎ ((e ≡ NodeError.Ranges) × ¬ (KeepsRange (node_of level from key.now sets.now)))) }
{
    if !lie_within(from, key.end, sets) {
        return Err(NodeError::Ranges);
    }
    let children = children_in(alloc, sets)?;
    if !cover_up_to(children.as_slice(), key.end) {
        return Err(NodeError::Ranges);
    }
    Ok(Inner {
        level,
        from,
        end: key.end,
        ptr: key.ptrs[0],
        seq: sets[0].seq,
        taken: sectors_of(g, sets) as u16,
        children,
        spare: 0,
        loaded: true,
        alloc,
    })
}

impl Inner {
    /// Reads the inner node of a level above 0 that a key points to by its first pointer, whose
    /// range begins at a sector, in one read of the whole node. What the device holds stays as it
    /// was.
    ///
    /// The refusal is `First` where there is no set at the node's first sector, `Ranges` where a key
    /// of any of its sets lies outside its range, or where its children don't cover it in order, each
    /// up to a multiple of 256 sectors, `Fault` where the device fails, and `Memory`.
    pub fn load<D: Disk>(
        alloc: Global,
        disk: &mut D,
        g: &Geometry,
        key: &Key,
        level: u16,
        from: u64,
    ) -> Result<Inner, NodeError>
        requires pointer { 0 < key.now.count }
        requires level { 0 < level }
        requires room { (ptr_at key.now 0).offset + g.now.node_sectors ≤ (D.facts disk.old).sectors }
        ensures found { IfOk result (IsHeldInner g.now key.now level from (D.facts disk.old)) }
        ensures refused { IfErr result
            (IsInnerNotLoaded g.now key.now level from (D.facts disk.old) (D.facts disk.new)) }
        ensures read { OnOk result (IsCounted good (D.facts disk.old) (D.facts disk.new)) }
        ensures kept { IsKept (D.facts disk.old) (D.facts disk.new) }
    {
        let ptr = key.ptrs[0];
        let sets = load_sets(alloc, disk, g, ptr.offset, word_of(&ptr), SetKind::Children)?;
        inner_of(alloc, g, key, level, from, sets.as_slice())
    }

    /// An inner node with these children and without sets, at the first place that the key names,
    /// whose range begins at a sector. Takes no memory.
    pub fn new(alloc: Global, key: &Key, level: u16, from: u64, seq: u64, children: Keys) -> Inner
        requires { CoverRange from key.now.end children }
        ensures { IsNewInner key.now level from seq children result }
    {
        Inner {
            level,
            from,
            end: key.end,
            ptr: key.ptrs[0],
            seq,
            taken: 0,
            children: children.into_vec(),
            spare: 0,
            loaded: false,
            alloc,
        }
    }

    /// Its children, by their ends.
    pub fn children(&self) -> &[Key]
        ensures children { result.now ≡ self.now.children }
        ensures cover { CoverRange self.now.from self.now.end self.now.children }
    {
        self.children.as_slice()
    }

    /// The place of the child that covers a sector of the range, counted from 0. It takes a number of
    /// steps that is logarithmic in the number of children.
    pub fn place_of(&self, sector: u64) -> usize
        requires from { self.now.from ≤ sector }
        requires end { sector < self.now.end }
        ensures within { result < length self.now.children }
        ensures below { AllWithin (λ c. c.end ≤ sector) self.now.children 0 result }
        ensures above { AllWithin (λ c. sector < c.end) self.now.children result
            (length self.now.children) }
    {
        count_before(self.children.as_slice(), sector + 1)
    }

    /// How many bytes the set of its children alone takes.
    pub fn length(&self) -> usize
        ensures { result ≡ bytes_of (children_set self.now) }
    {
        32 + 8 * word_count(self.children.as_slice())
    }

    /// Whether the set of these keys fits behind its others.
    pub fn fits(&self, g: &Geometry, keys: &[Key]) -> bool
        ensures { IsTrue result ↔ FitsBehind g.now self.now (set_of self.now.seq keys.now) }
    {
        let more = in_blocks(g.block, 32 + 8 * word_count(keys));
        usize::from(self.taken) + more <= usize::from(g.node_sectors)
    }

    /// Writes its first set, that of its children, with zeros over the rest of the node. After
    /// `Failed` it is as it was. The buffer has what was written. Takes no memory.
    pub fn write<D: Disk>(
        &mut self,
        disk: &mut D,
        g: &Geometry,
        buffer: &mut [u8],
    ) -> Result<(), Failed>
        requires none { self.old.taken ≡ 0 }
        requires fits { bytes_of (children_set self.old) ≤ 512 * g.now.node_sectors }
        requires whole { length buffer.old ≡ 512 * g.now.node_sectors }
        requires room { self.old.ptr.offset + g.now.node_sectors ≤ (D.facts disk.old).sectors }
        ensures bytes { HasSet g.now (ptr_word self.old.ptr) (children_set self.old) buffer.new }
        ensures ok { OnOk result (IsWritten self.old.ptr.offset (values_of buffer.new)
            (D.facts disk.old) (D.facts disk.new)) }
        ensures failed { OnErr result (IsFailedWrite self.old.ptr.offset (values_of buffer.new)
            (D.facts disk.old) (D.facts disk.new)) }
        ensures counted { IsCounted result (D.facts disk.old) (D.facts disk.new) }
        ensures written { OnOk result
            (HasTaken (set_sectors g.now (children_set self.old)) self.old self.new) }
        ensures kept { OnErr result (self.new ≡ self.old) }
    {
        let at = self.ptr.offset;
        let word = word_of(&self.ptr);
        write_slice(
            disk,
            g,
            at,
            0,
            word,
            self.seq,
            self.children.as_slice(),
            buffer,
        )?;
        self.taken = in_blocks(g.block, self.length()) as u16;
        Ok(())
    }

    /// Writes a further set, of keys that change its children. Those in memory stay until `put`.
    /// After `Failed` it is as it was, and the device may have any of the sectors of the new set,
    /// which a reader then finds whole or not at all. The buffer begins with what was written. Takes
    /// no memory.
    pub fn append<D: Disk>(
        &mut self,
        disk: &mut D,
        g: &Geometry,
        keys: &[Key],
        buffer: &mut [u8],
    ) -> Result<(), Failed>
        requires fresh { self.old.loaded ≡ false }
        requires some { 0 < self.old.taken }
        requires fits { FitsBehind g.now self.old (set_of self.old.seq keys.now) }
        requires whole { length buffer.old ≡ 512 * g.now.node_sectors }
        requires room { self.old.ptr.offset + g.now.node_sectors ≤ (D.facts disk.old).sectors }
        ensures bytes { HasSet g.now (ptr_word self.old.ptr) (set_of self.old.seq keys.now)
            buffer.new }
        ensures ok { OnOk result (IsWritten (self.old.ptr.offset + self.old.taken)
            (put_values g.now self.old.taken (set_of self.old.seq keys.now) buffer.new)
            (D.facts disk.old) (D.facts disk.new)) }
        ensures failed { OnErr result (IsFailedWrite (self.old.ptr.offset + self.old.taken)
            (put_values g.now self.old.taken (set_of self.old.seq keys.now) buffer.new)
            (D.facts disk.old) (D.facts disk.new)) }
        ensures counted { IsCounted result (D.facts disk.old) (D.facts disk.new) }
        ensures written { OnOk result (HasTaken
            (self.old.taken + set_sectors g.now (set_of self.old.seq keys.now))
            self.old self.new) }
        ensures kept { OnErr result (self.new ≡ self.old) }
    {
        let at = self.ptr.offset + u64::from(self.taken);
        let word = word_of(&self.ptr);
        write_slice(disk, g, at, self.taken, word, self.seq, keys, buffer)?;
        self.taken += in_blocks(g.block, 32 + 8 * word_count(keys)) as u16;
        Ok(())
    }

    /// Takes memory where it lacks, so that there is room for `more` further children. Where no
    /// memory is found, nothing has changed.
    pub fn reserve(&mut self, more: usize) -> Result<(), AllocError>
        ensures node { IsSameNode self.old self.new }
        ensures children { self.new.children ≡ self.old.children }
        ensures raised { self.old.spare ≤ self.new.spare }
        ensures ok { OnOk result (more ≤ self.new.spare) }
        ensures err { OnErr result (self.old.spare < more) }
    {
        if self.spare < more {
            self.children.reserve(more)?;
            self.spare = more;
        }
        Ok(())
    }

    /// Does to its children what a set of these keys does that was written behind its others: each
    /// takes the place of the child with its end, or takes that one away where it has no pointer.
    /// Takes no memory.
    pub fn put(&mut self, keys: &[Key])
        requires spare { length keys.now ≤ self.old.spare }
        requires cover { CoverRange self.old.from self.old.end
            (with_children keys.now self.old.children) }
        ensures node { IsSameNode self.old self.new }
        ensures children { self.new.children ≡ with_children keys.now self.old.children }
        ensures spare { self.old.spare ≤ self.new.spare + length keys.now }
    {
        put_within(&mut self.children, keys);
        self.spare -= keys.len();
    }

    /// Its level: 1 above leaves.
    pub fn level(&self) -> u16
        ensures { result ≡ self.now.level }
    {
        self.level
    }

    /// The sector at which the range begins.
    pub fn from(&self) -> u64
        ensures { result ≡ self.now.from }
    {
        self.from
    }

    /// The sector behind the range.
    pub fn end(&self) -> u64
        ensures { result ≡ self.now.end }
    {
        self.end
    }

    /// Where the node stands.
    pub fn ptr(&self) -> Ptr
        ensures { result ≡ self.now.ptr }
    {
        self.ptr
    }

    /// The number of its sets.
    pub fn seq(&self) -> u64
        ensures { result ≡ self.now.seq }
    {
        self.seq
    }

    /// How many sectors its sets take on the device, in whole blocks; 0 where it has none yet.
    pub fn taken(&self) -> u16
        ensures { result ≡ self.now.taken }
    {
        self.taken
    }

    /// For how many more children there is room.
    pub fn spare(&self) -> usize
        ensures { result ≡ self.now.spare }
    {
        self.spare
    }

    /// Whether it was read from a device.
    pub fn is_loaded(&self) -> bool
        ensures { result ≡ self.now.loaded }
    {
        self.loaded
    }
}
