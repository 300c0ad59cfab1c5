//! An entry on its way to the device.
ghost use Rattle.std.specs.Prelude.{◌≡◌, ◌+◌, ◌*◌, ◌≤◌, ◌<◌, List, [], length, take, All, vec_len, vec_capacity};
ghost use Rattle.bc_key.specs.Key.{IsExtent};
ghost use Rattle.bc_keys.specs.Spelling.{words_of_all};
ghost use Rattle.bc_jset.specs.EntryBytes.{IsLevel, bytes_of, most_words, with_keys};
ghost use Rattle.bc_jset.specs.Records.{entry_sectors};
ghost use Rattle.bc_jset.specs.Entries.{bucket_start, bucket_end};
ghost use Rattle.bc_journal.specs.Ring.{IsPlace, sectors_for};
ghost use Rattle.bc_journal.specs.Sealed.{AreBytesOf, IsWithin, entry_of, heads_of, numbers_of, sector_at};

use crate::heads::Heads;
use crate::place::{Numbers, Place};
use crate::ring::in_blocks;
use bc_disk::geometry::Geometry;
use bc_jset::{JEntry, write_entry_with};
use bc_key::Key;
use bc_keys::Keys;
use std::alloc::{AllocError, Global};
use std::marker::Model;

/// The most words of keys in an entry, and the bytes of one with so many: 64 sectors.
pub const MOST_WORDS: usize = 4066;

pub const MOST_BYTES: usize = 32768;

/// The most keys in an entry, each of two words at least.
pub const MOST_KEYS: usize = 2033;

/// The memory of one entry: room for the keys of the fullest one, and for its bytes.
#[derive(Drop)]
pub struct Buffers {
    pub keys: Vec<Key>,
    pub bytes: Vec<u8>,
    pub ghost none: { keys.items ≡ [] },
    pub ghost room: { 2033 ≤ vec_capacity keys },
    pub ghost long: { vec_len bytes ≡ 32768 },
}

impl Buffers {
    pub fn new(alloc: Global) -> Result<Buffers, AllocError> {
        let keys = Vec::with_capacity(alloc, MOST_KEYS)?;
        let bytes = vec![in alloc; 0; MOST_BYTES]?;
        Ok(Buffers { keys, bytes })
    }
}

/// An entry that is written now. It owns its keys and its bytes, so that others may go on with the
/// journal while it is written.
#[derive(Drop)]
pub struct Sealed {
    geometry: Geometry,
    place: Place,
    numbers: Numbers,
    heads: Heads,
    keys: Vec<Key>,
    bytes: Vec<u8>,
    length: usize,
}

impl Model for Sealed {
    ghost use Rattle.std.specs.Prelude.{◌≡◌, ◌≤◌, take, vec_len, vec_capacity};
    ghost use Rattle.bc_journal.specs.Sealed.{Sealed, AreBytesOf, IsWithin, entry_of};

    ghost Value = { Sealed };

    ghost view = { λ s. record {
      geometry = s.geometry;
      place = s.place;
      entry = entry_of s.numbers s.heads s.keys.items;
    } };

    ghost invariant = { λ s. AreBytesOf s.geometry (entry_of s.numbers s.heads s.keys.items)
        (take s.length s.bytes.items)
        × IsWithin (record {
          geometry = s.geometry;
          place = s.place;
          entry = entry_of s.numbers s.heads s.keys.items;
        })
        × (s.length ≤ 32768) × (vec_len s.bytes ≡ 32768) × (2033 ≤ vec_capacity s.keys) };
}

/// Writes the entry with these keys to the front, and zeros behind it up to the end of its last
/// block. Says how many bytes that are.
fn fill(g: &Geometry, e: &JEntry, keys: &[Key], bytes: &mut [u8]) -> usize
    requires long { length bytes.old ≡ 32768 }
    requires few { length (words_of_all keys.now) ≤ most_words }
    requires level { IsLevel e.now.level }
    requires extents { All IsExtent keys.now }
    ensures bytes { AreBytesOf g.now (with_keys e.now keys.now) (take result bytes.new) }
    ensures within { result ≤ 32768 }
{
    let end = write_entry_with(e, keys, g.set_magic, bytes);
    let whole = 512 * in_blocks(g.block, end);
    bytes[end..whole].fill(0);
    whole
}

impl Sealed {
    /// The entry with these numbers and keys at this place. Takes no memory.
    pub(crate) fn new(
        alloc: Global,
        g: &Geometry,
        place: Place,
        numbers: Numbers,
        heads: &Heads,
        keys: Vec<Key>,
        bytes: Vec<u8>,
    ) -> Sealed
        requires place { IsPlace g.now place }
        requires within { place.sector + sectors_for g.now (length (words_of_all keys.items))
            ≤ g.now.bucket }
        requires few { length (words_of_all keys.items) ≤ most_words }
        requires level { IsLevel heads.now.level }
        requires extents { All IsExtent keys.items }
        requires room { 2033 ≤ vec_capacity keys }
        requires long { vec_len bytes ≡ 32768 }
        ensures { result ≡ record {
          geometry = g.now;
          place = place;
          entry = entry_of numbers heads.now keys.items;
        } }
    {
        let e = JEntry {
            seq: numbers.seq,
            last_seq: numbers.last_seq,
            uuid_bucket: heads.uuid_bucket,
            root: heads.root,
            level: heads.level,
            prio: heads.prio,
            keys: Keys::from_vec(Vec::new(alloc)),
        };
        let mut bytes = bytes;
        let length = fill(g, &e, keys.as_slice(), &mut bytes);
        Sealed {
            geometry: *g,
            place,
            numbers,
            heads: *heads,
            keys,
            bytes,
            length,
        }
    }

    /// The memory of the entry, for another one.
    pub(crate) fn into_buffers(self) -> Buffers {
        let Sealed {
            mut keys,
            bytes,
            ..
        } = self;
        keys.clear();
        Buffers { keys, bytes }
    }

    /// How many sectors it takes.
    pub fn sectors(&self) -> u16
        ensures value { result ≡ entry_sectors self.now.geometry self.now.entry }
        ensures within { IsWithin self.now }
    {
        (self.length / 512) as u16
    }

    /// The number of the entry.
    pub fn number(&self) -> u64
        ensures { result ≡ self.now.entry.seq }
    {
        self.numbers.seq
    }

    /// The entry's two numbers.
    pub fn numbers(&self) -> Numbers
        ensures { result ≡ numbers_of self.now.entry }
    {
        self.numbers
    }

    /// Where it goes.
    pub fn place(&self) -> Place
        ensures value { result ≡ self.now.place }
        ensures within { IsWithin self.now }
    {
        self.place
    }

    /// The keys that the entry has.
    pub fn keys(&self) -> &[Key]
        ensures { result.now ≡ self.now.entry.keys }
    {
        self.keys.as_slice()
    }

    /// What the entry names beside its keys.
    pub fn heads(&self) -> &Heads
        ensures value { result.now ≡ heads_of self.now.entry }
        ensures level { IsLevel result.now.level }
    {
        &self.heads
    }

    /// The bytes to be written: whole blocks, with zeros behind the entry.
    pub fn bytes(&self) -> &[u8]
        ensures bytes { AreBytesOf self.now.geometry self.now.entry result.now }
        ensures few { length result.now ≤ 32768 }
    {
        &self.bytes[..self.length]
    }

    /// The sector of the device from which on they are to be written. They end within the same
    /// bucket.
    pub fn sector(&self) -> u64
        ensures value { result ≡ sector_at self.now.geometry self.now.place }
        ensures inside { result + entry_sectors self.now.geometry self.now.entry
            ≤ bucket_end self.now.geometry self.now.place.bucket }
    {
        let bucket = u64::from(self.geometry.first_bucket) + u64::from(self.place.bucket);
        u64::from(self.geometry.bucket) * bucket + u64::from(self.place.sector)
    }
}
