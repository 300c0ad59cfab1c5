//! Leaves.
ghost use Rattle.std.specs.Prelude.{◌≡◌, ◌≢◌, ◌⊎◌, ◌↔◌, ◌+◌, ◌*◌, ◌^◌, ◌<◌, ◌≤◌, [], length, true, false, All, IsTrue, OnOk, OnErr, IfOk, IfErr};
ghost use Rattle.bc_disk.specs.Disk.{IsKept, IsWritten, IsFailedWrite, IsCounted};
ghost use Rattle.bc_model.specs.Sector.{values_of};
ghost use Rattle.bc_key.specs.Key.{IsExtent, ptr_at};
ghost use Rattle.bc_key.specs.Words.{ptr_word};
ghost use Rattle.bc_set.specs.declared.set.SetKind.{SetKind};
ghost use Rattle.bc_set.specs.SetBytes.{bytes_of};
ghost use Rattle.bc_node.specs.declared.error.NodeError.{NodeError};
ghost use Rattle.bc_node.specs.Leaf.{ArePut, AreAdded, AreWithin, AreProperKeys, IsAppended, IsFull, IsLeafOf, IsNewLeaf, IsRewritten, IsSameNode, LieWithin, noted_for, pending_set, whole_set};
ghost use Rattle.bc_node.specs.Loading.{IsDecoded, IsHeldLeaf, IsNotDecoded, IsNotLoaded, good};
ghost use Rattle.bc_node.specs.Sets.{AreProper, taken_by};
ghost use Rattle.bc_node.specs.Writing.{HasSet, put_values, set_of};

use crate::error::NodeError;
use crate::keys::words_in;
use crate::last::{lie_within, put_sets, put_within};
use crate::load::{load_sets, word_of};
use crate::pending::{Entries, add_all, noted_for};
use crate::read::{in_blocks, read_sets, sectors_of};
use crate::write::write_map;
use bc_disk::disk::{Disk, Failed};
use bc_disk::geometry::Geometry;
use bc_extent::Extents;
use bc_key::{Key, Ptr};
use bc_set::{Set, SetKind};
use std::alloc::{AllocError, Global};
use std::marker::Model;

/// A leaf of the index: a node whose keys are those of data.
#[derive(Drop)]
pub struct Leaf {
    from: u64,
    end: u64,
    ptr: Ptr,
    seq: u64,
    taken: u16,
    keys: Extents,
    pending: Extents,
    entries: Option<Entries>,
    loaded: bool,
}

impl Model for Leaf {
    ghost use Rattle.std.specs.Prelude.{◌/◌, min};
    ghost use Rattle.bc_node.specs.Leaf.{Leaf, KeepsKeys};

    ghost Value = { Leaf };

    ghost view = { λ l. record {
      from = l.from;
      end = l.end;
      ptr = l.ptr;
      seq = l.seq;
      taken = l.taken;
      keys = l.keys.keys;
      spare = (min l.keys.spare l.pending.spare) / 2;
      pending = l.pending.keys;
      entries = l.entries;
      loaded = l.loaded;
    } };

    ghost invariant = { λ l. KeepsKeys l.from l.end l.keys.keys l.pending.keys };
}

/// The leaf of a key that has these sets.
fn leaf_of(
    alloc: Global,
    g: &Geometry,
    key: &Key,
    from: u64,
    sets: &[Set],
) -> Result<Leaf, NodeError>
    requires some { sets.now ≢ [] }
    requires proper { AreProper SetKind.Extents sets.now }
    requires short { taken_by g.now sets.now ≤ g.now.node_sectors }
    ensures ok { IfOk result (IsLeafOf g.now key.now from sets.now) }
    ensures refused { IfErr result (λ e. (e ≡ NodeError.Memory)
        ⊎ ((e ≡ NodeError.Ranges) × ¬ (LieWithin key.now from sets.now))) }
{
    if !lie_within(from, key.end, sets) {
        return Err(NodeError::Ranges);
    }
    let mut keys = Extents::new(alloc);
    put_sets(&mut keys, sets)?;
    let pending = Extents::new(alloc);
    Ok(Leaf {
        from,
        end: key.end,
        ptr: key.ptrs[0],
        seq: sets[0].seq,
        taken: sectors_of(g, sets) as u16,
        keys,
        pending,
        entries: None,
        loaded: true,
    })
}

impl Leaf {
    /// Reads the leaf that a key points to by its first pointer, whose range begins at a sector, in
    /// one read of the whole node. What the device holds stays as it was.
    ///
    /// The refusal is `First` where there is no set at the leaf's first sector, `Ranges` where a key
    /// of any of its sets lies outside its range, `Fault` where the device fails, and `Memory`.
    pub fn load<D: Disk>(
        alloc: Global,
        disk: &mut D,
        g: &Geometry,
        key: &Key,
        from: u64,
    ) -> Result<Leaf, NodeError>
        requires pointer { 0 < key.now.count }
        requires room { (ptr_at key.now 0).offset + g.now.node_sectors ≤ (D.facts disk.old).sectors }
        ensures found { IfOk result (IsHeldLeaf g.now key.now from (D.facts disk.old)) }
        ensures refused { IfErr result
            (IsNotLoaded g.now key.now from (D.facts disk.old) (D.facts disk.new)) }
        ensures read { OnOk result (IsCounted good (D.facts disk.old) (D.facts disk.new)) }
        ensures kept { IsKept (D.facts disk.old) (D.facts disk.new) }
    {
        let ptr = key.ptrs[0];
        let sets = load_sets(alloc, disk, g, ptr.offset, word_of(&ptr), SetKind::Extents)?;
        leaf_of(alloc, g, key, from, sets.as_slice())
    }

    /// The leaf that a key points to by its first pointer, whose range begins at a sector, of the
    /// bytes of the whole node.
    ///
    /// The refusal is `First` where the bytes don't begin with a set, `Ranges` where a key of any of
    /// its sets lies outside its range, and `Memory`.
    pub fn decode(
        alloc: Global,
        g: &Geometry,
        key: &Key,
        from: u64,
        bytes: &[u8],
    ) -> Result<Leaf, NodeError>
        requires pointer { 0 < key.now.count }
        requires whole { length bytes.now ≡ 512 * g.now.node_sectors }
        ensures ok { IfOk result (IsDecoded g.now key.now from bytes.now) }
        ensures refused { IfErr result (IsNotDecoded g.now key.now from bytes.now) }
    {
        let sets = read_sets(alloc, g, word_of(&key.ptrs[0]), SetKind::Extents, bytes)?;
        leaf_of(alloc, g, key, from, sets.as_slice())
    }

    /// A leaf without sets and keys, at the first place that the key names, whose range begins at a
    /// sector. Takes no memory.
    pub fn new(alloc: Global, key: &Key, from: u64, seq: u64) -> Leaf
        ensures { IsNewLeaf key.now from seq result }
    {
        let keys = Extents::new(alloc);
        let pending = Extents::new(alloc);
        Leaf {
            from,
            end: key.end,
            ptr: key.ptrs[0],
            seq,
            taken: 0,
            keys,
            pending,
            entries: None,
            loaded: false,
        }
    }

    /// For how many more keys there is room.
    pub fn spare(&self) -> usize
        ensures { result ≡ self.now.spare }
    {
        self.keys.spare().min(self.pending.spare()) / 2
    }

    /// Takes memory where it lacks, so that `spare` is `more` at least. Where no memory is found, the
    /// keys are as they were.
    pub fn reserve(&mut self, more: u32) -> Result<(), AllocError>
        ensures node { IsSameNode self.old self.new }
        ensures keys { self.new.keys ≡ self.old.keys }
        ensures pending { self.new.pending ≡ self.old.pending }
        ensures entries { self.new.entries ≡ self.old.entries }
        ensures raised { self.old.spare ≤ self.new.spare }
        ensures ok { OnOk result (more ≤ self.new.spare) }
        ensures err { OnErr result (self.old.spare < more) }
    {
        let room = 2 * more as usize;
        self.keys.reserve(room)?;
        self.pending.reserve(room)?;
        Ok(())
    }

    /// Adds keys of its range, each newer than those before it, which this entry of the journal holds and no
    /// earlier one. They wait for the next set, also those without pointers. Takes no memory.
    pub fn add(&mut self, keys: &[Key], entry: u64)
        requires spare { length keys.now ≤ self.old.spare }
        requires extents { All IsExtent keys.now }
        requires within { AreWithin self.old.from self.old.end keys.now }
        ensures node { IsSameNode self.old self.new }
        ensures keys { ArePut keys.now self.old.keys self.new.keys }
        ensures pending { AreAdded keys.now self.old.pending self.new.pending }
        ensures entries { self.new.entries ≡ noted_for keys.now entry self.old.entries }
        ensures spare { self.old.spare ≤ self.new.spare + length keys.now }
    {
        put_within(&mut self.keys, keys);
        add_all(&mut self.pending, keys);
        self.entries = noted_for(keys, entry, self.entries);
    }

    /// How many bytes the set of its last keys alone takes.
    pub fn length(&self) -> usize
        ensures { result ≡ bytes_of (whole_set self.now) }
    {
        32 + 8 * words_in(&self.keys)
    }

    /// How many bytes the set of what is pending takes.
    pub fn pending_length(&self) -> usize
        ensures size { result ≡ bytes_of (pending_set self.now) }
        ensures few { result ≤ 2 ^ 62 }
    {
        32 + 8 * words_in(&self.pending)
    }

    /// Whether the set of what is pending doesn't fit behind its other sets.
    pub fn is_full(&self, g: &Geometry) -> bool
        ensures { IsTrue result ↔ IsFull g.now self.now }
    {
        let more = in_blocks(g.block, self.pending_length());
        usize::from(g.node_sectors) < usize::from(self.taken) + more
    }

    /// Those of its keys that are in no set yet, without the parts that later ones cover.
    pub fn pending(&self) -> &Extents
        ensures keys { result.now.keys ≡ self.now.pending }
        ensures proper { AreProperKeys self.now.from self.now.end self.now.pending }
    {
        &self.pending
    }

    /// Writes a further set, with the last keys of all that is pending, those without pointers
    /// included; where the leaf has no set yet, the first one, with zeros over the rest of the node.
    /// Then nothing is pending. After `Failed` the leaf is as it was, and the device may have any of
    /// the sectors of the new set, which a reader then finds whole or not at all. The buffer begins
    /// with what was written. Takes no memory.
    ///
    /// A leaf that was read from a device is rewritten first: what stands behind its sets is not
    /// known.
    pub fn append<D: Disk>(
        &mut self,
        disk: &mut D,
        g: &Geometry,
        buffer: &mut [u8],
    ) -> Result<(), Failed>
        requires free { ¬ (IsFull g.now self.old) }
        requires fresh { self.old.loaded ≡ false }
        requires whole { length buffer.old ≡ 512 * g.now.node_sectors }
        requires room { self.old.ptr.offset + g.now.node_sectors ≤ (D.facts disk.old).sectors }
        ensures bytes { HasSet g.now (ptr_word self.old.ptr) (pending_set self.old) buffer.new }
        ensures ok { OnOk result (IsWritten (self.old.ptr.offset + self.old.taken)
            (put_values g.now self.old.taken (pending_set self.old) buffer.new)
            (D.facts disk.old) (D.facts disk.new)) }
        ensures failed { OnErr result (IsFailedWrite (self.old.ptr.offset + self.old.taken)
            (put_values g.now self.old.taken (pending_set self.old) buffer.new)
            (D.facts disk.old) (D.facts disk.new)) }
        ensures counted { IsCounted result (D.facts disk.old) (D.facts disk.new) }
        ensures appended { OnOk result (IsAppended g.now self.old self.new) }
        ensures kept { OnErr result (self.new ≡ self.old) }
    {
        let at = self.ptr.offset + u64::from(self.taken);
        let more = in_blocks(g.block, self.pending_length());
        let word = word_of(&self.ptr);
        write_map(
            disk,
            g,
            at,
            self.taken,
            word,
            self.seq,
            &self.pending,
            buffer,
        )?;
        self.taken += more as u16;
        self.pending.clear();
        self.entries = None;
        Ok(())
    }

    /// Writes its last keys as the first set of a node at another place, with another number and
    /// with zeros over the rest of the node. That is where the leaf stands then, and nothing is
    /// pending. After `Failed` the leaf is as it was, where it was. The buffer has what was written.
    /// Takes no memory.
    pub fn rewrite<D: Disk>(
        &mut self,
        disk: &mut D,
        g: &Geometry,
        to: &Ptr,
        seq: u64,
        buffer: &mut [u8],
    ) -> Result<(), Failed>
        requires fits { bytes_of (whole_set self.old) ≤ 512 * g.now.node_sectors }
        requires whole { length buffer.old ≡ 512 * g.now.node_sectors }
        requires room { to.now.offset + g.now.node_sectors ≤ (D.facts disk.old).sectors }
        ensures bytes { HasSet g.now (ptr_word to.now) (set_of seq self.old.keys) buffer.new }
        ensures ok { OnOk result (IsWritten to.now.offset (values_of buffer.new)
            (D.facts disk.old) (D.facts disk.new)) }
        ensures failed { OnErr result (IsFailedWrite to.now.offset (values_of buffer.new)
            (D.facts disk.old) (D.facts disk.new)) }
        ensures counted { IsCounted result (D.facts disk.old) (D.facts disk.new) }
        ensures rewritten { OnOk result (IsRewritten g.now to.now seq self.old self.new) }
        ensures kept { OnErr result (self.new ≡ self.old) }
    {
        let length = in_blocks(g.block, self.length());
        write_map(disk, g, to.offset, 0, word_of(to), seq, &self.keys, buffer)?;
        self.ptr = *to;
        self.seq = seq;
        self.taken = length as u16;
        self.pending.clear();
        self.entries = None;
        self.loaded = false;
        Ok(())
    }

    /// Takes it from now on for one that was read from a device, as after a write of it that failed:
    /// what stands behind its sets is not known then.
    pub fn close(&mut self)
        ensures { self.new ≡ record self.old { loaded = true } }
    {
        self.loaded = true;
    }

    /// How many sectors its sets take on the device, in whole blocks; 0 where it has none yet.
    pub fn taken(&self) -> u16
        ensures { result ≡ self.now.taken }
    {
        self.taken
    }

    /// The entries of the journal that hold the keys which were added since the last set.
    pub fn entries(&self) -> Option<Entries>
        ensures { result ≡ self.now.entries }
    {
        self.entries
    }

    /// Whether it was read from a device or closed, and not rewritten since.
    pub fn is_loaded(&self) -> bool
        ensures { result ≡ self.now.loaded }
    {
        self.loaded
    }

    /// The sector at which the range begins.
    pub fn from(&self) -> u64
        ensures { result ≡ self.now.from }
    {
        self.from
    }

    /// The sector behind the range.
    pub fn end(&self) -> u64
        ensures { result ≡ self.now.end }
    {
        self.end
    }

    /// Where the leaf stands.
    pub fn ptr(&self) -> Ptr
        ensures { result ≡ self.now.ptr }
    {
        self.ptr
    }

    /// The number of its sets.
    pub fn seq(&self) -> u64
        ensures { result ≡ self.now.seq }
    {
        self.seq
    }

    /// Its last keys, in the order of their ranges, which don't overlap.
    pub fn keys(&self) -> &Extents
        ensures keys { result.now.keys ≡ self.now.keys }
        ensures proper { AreProperKeys self.now.from self.now.end self.now.keys }
    {
        &self.keys
    }
}
