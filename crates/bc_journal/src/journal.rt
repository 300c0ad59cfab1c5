//! The journal's keys, numbers and ring.
ghost use Rattle.std.specs.Prelude.{◌≡◌, ◌↔◌, ◌+◌, ◌-◌, ◌*◌, ◌^◌, ◌<◌, ◌≤◌, ◌++◌, [], length, All, IsTrue, IsErr, IfOk, IfSome, OnErr, Some, None, vec_len, vec_capacity};
ghost use Rattle.bc_key.specs.Key.{IsExtent};
ghost use Rattle.bc_keys.specs.Spelling.{words_of_all};
ghost use Rattle.bc_jset.specs.EntryBytes.{IsLevel, most_words};
ghost use Rattle.bc_journal.specs.Ring.{IsPlace, sectors_for};
ghost use Rattle.bc_journal.specs.Sealed.{heads_of, numbers_of};
ghost use Rattle.bc_journal.specs.Journal.{IsJournal, HasRoom, IsSealed, journal_at, number_of, place_for, waiting_words};

use crate::heads::Heads;
use crate::place::{Numbers, Place};
use crate::ring::{Ring, in_blocks};
use crate::sealed::{Buffers, MOST_KEYS, MOST_WORDS, Sealed};
use bc_disk::geometry::Geometry;
use bc_key::Key;
use bc_keys::word_count;
use std::alloc::{AllocError, Global};
use std::marker::Model;
use std::mem;

/// The journal has no number left for an entry: the next would be 2^63.
#[derive(Clone, Copy, Debug, PartialEq, Eq, Drop)]
pub struct JournalEnd;

/// The number behind the last one that an entry may have.
const NUMBERS_END: u64 = 1 << 63;

/// The journal. Keys wait in it until they are sealed into an entry; one entry at a time is
/// written, and is durable once a barrier came behind its write.
#[derive(Drop)]
pub struct Journal {
    alloc: Global,
    ring: Ring,
    durable: Numbers,
    heads: Heads,
    sealed: Option<Numbers>,
    needed: u64,
    waiting: Vec<Key>,
    words: usize,
    buffers: Option<Buffers>,
}

impl Model for Journal {
    ghost use Rattle.std.specs.Prelude.{◌≡◌, ◌≤◌, is_none, is_some, length, vec_capacity};
    ghost use Rattle.bc_keys.specs.Spelling.{words_of_all};
    ghost use Rattle.bc_journal.specs.Journal.{Journal, IsJournal};

    ghost Value = { Journal };

    ghost view = { λ j. record {
      ring = j.ring;
      durable = j.durable;
      heads = j.heads;
      sealed = j.sealed;
      waiting = j.waiting.items;
      needed = j.needed;
    } };

    ghost invariant = { λ j. IsJournal (record {
      ring = j.ring;
      durable = j.durable;
      heads = j.heads;
      sealed = j.sealed;
      waiting = j.waiting.items;
      needed = j.needed;
    })
        × (j.words ≡ length (words_of_all j.waiting.items))
        × (2033 ≤ vec_capacity j.waiting) × (is_some j.buffers ≡ is_none j.sealed) };
}

/// Adds these keys at the end, where they have room.
fn append(keys: &mut Vec<Key>, more: &[Key])
    requires { vec_len keys.old + length more.now ≤ vec_capacity keys.old }
    ensures items { keys.new.items ≡ keys.old.items ++ more.now }
    ensures capacity { vec_capacity keys.new ≡ vec_capacity keys.old }
{
    for key in more {
        keys.push_reserved(*key);
    }
}

impl Journal {
    /// A journal whose newest entry is `next - 1`, which is durable, has `needed` as its `last_seq`
    /// and names `heads`. The next entry goes to `at`, the place behind that one; `newest` has the
    /// greatest number of an entry in each journal bucket, or 0. Takes the memory of two entries.
    pub fn new(
        alloc: Global,
        g: &Geometry,
        at: Place,
        newest: &[u64],
        needed: u64,
        next: u64,
        heads: &Heads,
    ) -> Result<Journal, AllocError>
        requires place { IsPlace g.now at }
        requires buckets { length newest.now ≡ g.now.journal }
        requires newest { All (λ n. n < next) newest.now }
        requires next { next ≤ 2 ^ 63 }
        requires needed { needed < next }
        requires level { IsLevel heads.now.level }
        ensures { IfOk result (λ j. j
            ≡ journal_at g.now at newest.now needed next heads.now) }
    {
        let ring = Ring::new(alloc, g, at, newest)?;
        let waiting = Vec::with_capacity(alloc, MOST_KEYS)?;
        let buffers = Buffers::new(alloc)?;
        let durable = Numbers {
            seq: next - 1,
            last_seq: needed,
        };
        Ok(Journal {
            alloc,
            ring,
            durable,
            heads: *heads,
            sealed: None,
            needed,
            waiting,
            words: 0,
            buffers: Some(buffers),
        })
    }

    /// The number of the newest durable entry.
    pub fn durable(&self) -> u64
        ensures value { result ≡ self.now.durable.seq }
        ensures journal { IsJournal self.now }
    {
        self.durable.seq
    }

    /// What the newest durable entry names.
    pub fn heads(&self) -> &Heads
        ensures value { result.now ≡ self.now.heads }
        ensures journal { IsJournal self.now }
    {
        &self.heads
    }

    /// The numbers of the entry that is being written, if there is one.
    pub fn sealed(&self) -> Option<Numbers>
        ensures value { result ≡ self.now.sealed }
        ensures journal { IsJournal self.now }
    {
        self.sealed
    }

    /// The number of the oldest entry that is still needed.
    pub fn needed(&self) -> u64
        ensures value { result ≡ self.now.needed }
        ensures journal { IsJournal self.now }
    {
        self.needed
    }

    /// The keys that wait, oldest first.
    pub fn waiting(&self) -> &[Key]
        ensures value { result.now ≡ self.now.waiting }
        ensures journal { IsJournal self.now }
    {
        self.waiting.as_slice()
    }

    /// The ring of journal buckets.
    pub fn ring(&self) -> &Ring
        ensures value { result.now ≡ self.now.ring }
        ensures journal { IsJournal self.now }
    {
        &self.ring
    }

    /// The number of the entry for which keys wait: the one behind the entry that is being written,
    /// or where there is none behind the durable one. It is 2^63 at most where none is being
    /// written.
    pub fn number(&self) -> u64
        ensures value { result ≡ number_of self.now }
        ensures journal { IsJournal self.now }
    {
        match self.sealed {
            None => self.durable.seq + 1,
            Some(sealed) => sealed.seq + 1,
        }
    }

    /// Where an entry with so many words of keys goes.
    fn place_for(&self, words: usize) -> Option<Place>
        requires { words ≤ most_words }
        ensures value { result ≡ place_for self.now words }
        ensures within { IfSome result (λ p. IsPlace self.now.ring.geometry p
            × (p.sector + sectors_for self.now.ring.geometry words
            ≤ self.now.ring.geometry.bucket)) }
    {
        let sectors = in_blocks(self.ring.geometry().block, 240 + 8 * words);
        self.ring
            .place_of(self.durable.last_seq, words > 0, sectors as u16)
    }

    /// Whether so many more words of keys fit into the entry for which keys wait, and that entry
    /// then has a place in the ring. Its number doesn't matter.
    pub fn room(&self, words: usize) -> bool
        ensures { IsTrue result ↔ HasRoom self.now words }
    {
        words <= MOST_WORDS - self.words && self.place_for(self.words + words).is_some()
    }

    /// Adds these keys to those that wait, and says in which entry they will be. Takes no memory.
    pub fn add(&mut self, keys: &[Key]) -> u64
        requires room { HasRoom self.old (length (words_of_all keys.now)) }
        requires extents { All IsExtent keys.now }
        requires numbered { number_of self.old < 2 ^ 63 }
        ensures number { result ≡ number_of self.old }
        ensures added { self.new ≡ record self.old { waiting = self.old.waiting ++ keys.now } }
    {
        let number = self.number();
        append(&mut self.waiting, keys);
        self.words += word_count(keys);
        number
    }

    /// Makes the keys that wait into an entry, which is to be written. It names `heads`: those of the
    /// newest durable entry, unless the index or the chain of priorities has a new beginning. Its
    /// `last_seq` is the oldest entry that is still needed. It is refused where its number would be
    /// 2^63, and nothing has changed then. Takes no memory.
    pub fn seal(&mut self, heads: &Heads) -> Result<Sealed, JournalEnd>
        requires none { self.old.sealed ≡ None }
        requires level { IsLevel heads.now.level }
        requires room { HasRoom self.old 0 }
        ensures end { IsErr result ↔ (number_of self.old ≡ 2 ^ 63) }
        ensures same { OnErr result (self.new ≡ self.old) }
        ensures sealed { IfOk result (λ s. IsSealed self.old heads.now s self.new) }
    {
        let number = self.number();
        if number == NUMBERS_END {
            return Err(JournalEnd);
        }
        let Some(place) = self.place_for(self.words) else {
            unreachable!()
        };
        let Some(buffers) = self.buffers.take() else {
            unreachable!()
        };
        let Buffers { keys: spare, bytes } = buffers;
        let keys = mem::replace(&mut self.waiting, spare);
        let numbers = Numbers {
            seq: number,
            last_seq: self.needed,
        };
        let geometry = *self.ring.geometry();
        let sealed = Sealed::new(self.alloc, &geometry, place, numbers, heads, keys, bytes);
        self.words = 0;
        self.ring.put(place, sealed.sectors(), number);
        self.sealed = Some(numbers);
        Ok(sealed)
    }

    /// Takes back the entry that was being written, once a barrier came behind its write: it is the
    /// newest durable one, and what it names is what the journal has. Takes no memory.
    pub fn written(&mut self, s: Sealed)
        requires { self.old.sealed ≡ Some (numbers_of s.entry) }
        ensures { self.new ≡ record self.old {
          durable = numbers_of s.entry;
          heads = heads_of s.entry;
          sealed = None;
        } }
    {
        self.durable = s.numbers();
        self.heads = *s.heads();
        self.sealed = None;
        self.buffers = Some(s.into_buffers());
    }

    /// Makes `seq` the oldest entry that is still needed. The next entry that is sealed says so,
    /// and once it is durable the buckets with older entries alone are free.
    pub fn reclaim_to(&mut self, seq: u64)
        requires from { self.old.needed ≤ seq }
        requires to { seq ≤ number_of self.old }
        ensures { self.new ≡ record self.old { needed = seq } }
    {
        self.needed = seq;
    }
}
