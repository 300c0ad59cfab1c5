//! The journal as the keys that wait, the numbers of its entries, and the newest number in each
//! bucket.
ghost use Rattle.std.specs.Prelude.{◌≡◌, ◌↔◌, ◌+◌, ◌^◌, ◌<◌, ◌≤◌, ◌++◌, None, Some, length, IfOk, IfSome, IsErr, IsTrue, OnErr, OnOk};
ghost use Rattle.bc_jset.specs.EntryBytes.{most_words};
ghost use Rattle.bc_journal.specs.Journal.{HasRoom, IsSealed, journal_at, number_of, place_for};
ghost use Rattle.bc_journal.specs.Ring.{IsPlace, following, is_free, may_begin, sectors_for};
ghost use Rattle.bc_journal.specs.Sealed.{entry_of};

use bc_disk::geometry::Geometry;
use bc_journal::{Heads, JournalEnd, Numbers, Place};
use bc_jset::JEntry;
use bc_key::Key;
use bc_keys::{Keys, word_count};
use bc_node::in_blocks;
use std::alloc::{AllocError, Global};
use std::marker::Model;
use std::mem;

/// The most words of keys in an entry.
const MOST_WORDS: usize = 4066;

/// The number behind the last one that an entry may have.
const NUMBERS_END: u64 = 1 << 63;

/// A journal as plain lists.
#[derive(Drop)]
pub struct PlainJournal {
    alloc: Global,
    geometry: Geometry,
    next: Place,
    newest: Vec<u64>,
    durable: Numbers,
    heads: Heads,
    sealed: Option<Numbers>,
    waiting: Vec<Key>,
    needed: u64,
}

/// An entry that is to be written, and its place.
#[derive(Drop)]
pub struct PlainSealed {
    /// Where it goes.
    pub place: Place,
    /// What it says.
    pub entry: JEntry,
}

impl Model for PlainJournal {
    ghost use Rattle.std.specs.Prelude.{◌≡◌, ◌<◌, ◌≤◌, ◌^◌, length};
    ghost use Rattle.std.specs.Option.{ForSome};
    ghost use Rattle.bc_journal.specs.Journal.{Journal};

    ghost Value = { Journal };

    ghost view = { λ j. record {
      ring = record { geometry = j.geometry; next = j.next; newest = j.newest.items };
      durable = j.durable;
      heads = j.heads;
      sealed = j.sealed;
      waiting = j.waiting.items;
      needed = j.needed;
    } };

    ghost invariant = { λ j. (length j.newest.items ≡ j.geometry.journal)
        × (j.next.bucket < j.geometry.journal) × (j.next.sector ≤ j.geometry.bucket)
        × (j.durable.seq < 2 ^ 63) × ForSome j.sealed (λ n. n.seq < 2 ^ 63) };
}

/// How many sectors an entry with so many words of keys takes: whole blocks.
fn sectors_for(g: &Geometry, words: usize) -> usize
    requires { words ≤ most_words }
    ensures sectors { result ≡ sectors_for g.now words }
    ensures few { result ≤ 64 }
{
    in_blocks(g.block, 240 + 8 * words)
}

/// An entry of these parts.
fn entry_of(numbers: Numbers, heads: &Heads, keys: Vec<Key>) -> JEntry
    ensures { result ≡ entry_of numbers heads.now keys.items }
{
    JEntry {
        seq: numbers.seq,
        last_seq: numbers.last_seq,
        uuid_bucket: heads.uuid_bucket,
        root: heads.root,
        level: heads.level,
        prio: heads.prio,
        keys: Keys::from_vec(keys),
    }
}

/// The journal bucket that is used after one.
fn following(g: &Geometry, bucket: u32) -> u32
    requires { bucket < g.now.journal }
    ensures is { result ≡ following g.now bucket }
    ensures within { result < g.now.journal }
{
    if bucket + 1 < u32::from(g.journal) {
        bucket + 1
    } else {
        0
    }
}

impl PlainJournal {
    /// A journal whose newest entry is `next - 1`, which is durable, as `Journal::new` makes it.
    pub fn new(
        alloc: Global,
        g: &Geometry,
        at: Place,
        newest: &[u64],
        needed: u64,
        next: u64,
        heads: &Heads,
    ) -> Result<PlainJournal, AllocError>
        requires place { IsPlace g.now at }
        requires buckets { length newest.now ≡ g.now.journal }
        requires some { 0 < next }
        requires next { next ≤ 2 ^ 63 }
        ensures { IfOk result (λ j. j
            ≡ journal_at g.now at newest.now needed next heads.now) }
    {
        let newest = newest.to_vec(alloc)?;
        Ok(PlainJournal {
            alloc,
            geometry: *g,
            next: at,
            newest,
            durable: Numbers {
                seq: next - 1,
                last_seq: needed,
            },
            heads: *heads,
            sealed: None,
            waiting: Vec::new(alloc),
            needed,
        })
    }

    /// The place behind the last entry.
    pub fn next(&self) -> Place
        ensures { result ≡ self.now.ring.next }
    {
        self.next
    }

    /// The greatest number of an entry in each journal bucket, 0 where there is none.
    pub fn newest(&self) -> &[u64]
        ensures { result.now ≡ self.now.ring.newest }
    {
        &self.newest
    }

    /// The numbers of the newest durable entry.
    pub fn durable(&self) -> Numbers
        ensures { result ≡ self.now.durable }
    {
        self.durable
    }

    /// What the newest durable entry names.
    pub fn heads(&self) -> &Heads
        ensures { result.now ≡ self.now.heads }
    {
        &self.heads
    }

    /// The numbers of the entry that is being written.
    pub fn sealed(&self) -> Option<Numbers>
        ensures { result ≡ self.now.sealed }
    {
        self.sealed
    }

    /// The keys that wait, oldest first.
    pub fn waiting(&self) -> &[Key]
        ensures { result.now ≡ self.now.waiting }
    {
        &self.waiting
    }

    /// The number of the oldest entry that is still needed.
    pub fn needed(&self) -> u64
        ensures { result ≡ self.now.needed }
    {
        self.needed
    }

    /// The number of the entry for which keys wait.
    pub fn number(&self) -> u64
        ensures is { result ≡ number_of self.now }
        ensures most { result ≤ 2 ^ 63 }
    {
        match self.sealed {
            None => self.durable.seq + 1,
            Some(sealed) => sealed.seq + 1,
        }
    }

    /// Whether the newest durable entry needs none in the bucket.
    fn is_free(&self, bucket: u32) -> bool
        requires { bucket < self.now.ring.geometry.journal }
        ensures { result ≡ is_free self.now.ring self.now.durable.last_seq bucket }
    {
        self.newest[bucket as usize] < self.durable.last_seq
    }

    /// Whether an entry, with keys or without, may be the first one of the bucket. The last free
    /// bucket is kept for one without keys.
    fn may_begin(&self, keyed: bool, bucket: u32) -> bool
        requires { bucket < self.now.ring.geometry.journal }
        ensures { result ≡ may_begin self.now.ring self.now.durable.last_seq keyed bucket }
    {
        self.is_free(bucket) && (!keyed || self.is_free(following(&self.geometry, bucket)))
    }

    /// Where an entry with so many words of keys goes.
    fn place_for(&self, words: usize) -> Option<Place>
        requires { words ≤ most_words }
        ensures is { result ≡ place_for self.now words }
        ensures within { IfSome result (λ p. (p.bucket < self.now.ring.geometry.journal)
            × (p.sector + sectors_for self.now.ring.geometry words
            ≤ self.now.ring.geometry.bucket)) }
    {
        let sectors = sectors_for(&self.geometry, words);
        if usize::from(self.next.sector) + sectors <= usize::from(self.geometry.bucket) {
            return Some(self.next);
        }
        let bucket = following(&self.geometry, self.next.bucket);
        if self.may_begin(words > 0, bucket) {
            Some(Place { bucket, sector: 0 })
        } else {
            None
        }
    }

    /// Whether so many more words of keys fit into the entry for which keys wait, and that entry
    /// then has a place.
    pub fn room(&self, words: usize) -> bool
        ensures { IsTrue result ↔ HasRoom self.now words }
    {
        let waiting = word_count(&self.waiting);
        waiting <= MOST_WORDS
            && words <= MOST_WORDS - waiting
            && self.place_for(waiting + words).is_some()
    }

    /// Adds these keys to those that wait, and says in which entry they will be.
    pub fn add(&mut self, keys: &[Key]) -> Result<u64, AllocError>
        ensures number { IfOk result (λ n. n ≡ number_of self.old) }
        ensures added { OnOk result
            (self.new ≡ record self.old { waiting = self.old.waiting ++ keys.now }) }
    {
        let number = self.number();
        self.waiting.extend_from_slice(keys)?;
        Ok(number)
    }

    /// Makes the keys that wait into an entry.
    pub fn seal(&mut self, heads: &Heads) -> Result<PlainSealed, JournalEnd>
        requires none { self.old.sealed ≡ None }
        requires room { HasRoom self.old 0 }
        ensures end { IsErr result ↔ (number_of self.old ≡ 2 ^ 63) }
        ensures same { OnErr result (self.new ≡ self.old) }
        ensures sealed { IfOk result (λ s. IsSealed self.old heads.now
            (record { geometry = self.old.ring.geometry; place = s.place; entry = s.entry })
            self.new) }
    {
        let seq = self.number();
        if seq == NUMBERS_END {
            return Err(JournalEnd);
        }
        let words = word_count(&self.waiting);
        let Some(place) = self.place_for(words) else {
            unreachable!()
        };
        let keys = mem::replace(&mut self.waiting, Vec::new(self.alloc));
        let numbers = Numbers {
            seq,
            last_seq: self.needed,
        };
        self.newest[place.bucket as usize] = seq;
        self.next = Place {
            bucket: place.bucket,
            sector: place.sector + sectors_for(&self.geometry, words) as u16,
        };
        self.sealed = Some(numbers);
        Ok(PlainSealed {
            place,
            entry: entry_of(numbers, heads, keys),
        })
    }

    /// The entry that was being written, with these numbers, is the newest durable one, and names
    /// this.
    pub fn written(&mut self, numbers: Numbers, heads: &Heads)
        requires { self.old.sealed ≡ Some numbers }
        ensures { self.new ≡ record self.old {
          durable = numbers;
          heads = heads.now;
          sealed = None;
        } }
    {
        self.durable = numbers;
        self.heads = *heads;
        self.sealed = None;
    }

    /// Makes `seq` the oldest entry that is still needed.
    pub fn reclaim_to(&mut self, seq: u64)
        ensures { self.new ≡ record self.old { needed = seq } }
    {
        self.needed = seq;
    }
}
